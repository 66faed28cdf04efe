// What one end of the link says to the other, and how a format carries it.
ghost use Rattle.rules.specs.Telegrams.{buffer_said, carried, say_answer, telegram_read};
ghost use Rattle.std.specs.Prelude.{◌≡◌};

use crate::message::Message;
use fault::Fault;
use frame::{Content, Control, Format, MOST_OCTETS};

// A content whose user octets are a message.
#[derive(Clone, Copy, PartialEq, Eq, Debug)]
pub enum Telegram {
    Single,
    Fixed {
        control: Control,
        address: u8,
    },
    Variable {
        control: Control,
        address: u8,
        message: Message,
    },
}

// The telegram of a burst, or the fault that the format lays down for it.
pub fn read_telegram<F: Format>(burst: &[u16]) -> Result<Telegram, Fault>
    ensures { result ≡ telegram_read (F.Format.verdict burst.now) }
{
    let mut user = [0; MOST_OCTETS];
    match F::read(burst, &mut user)? {
        Content::Single => Ok(Telegram::Single),
        Content::Fixed { control, address } => Ok(Telegram::Fixed { control, address }),
        Content::Variable {
            control,
            address,
            count,
        } => {
            let message = Message::from_record(count, user);
            Ok(Telegram::Variable {
                control,
                address,
                message,
            })
        }
    }
}

// The frame of a telegram at the front of the buffer, and the count of its symbols; 20 if the buffer is under the
// longest frame, and then it is untouched.
pub fn write_telegram<F: Format>(telegram: Telegram, buffer: &mut [u16]) -> Result<usize, Fault>
    ensures answer { result ≡ say_answer F.Format.LONGEST F.Format.frame telegram buffer.old }
    ensures written { buffer.new ≡ buffer_said F.Format.LONGEST F.Format.frame telegram buffer.old }
{
    match telegram {
        Telegram::Single => F::write(Content::Single, &[0; MOST_OCTETS], buffer),
        Telegram::Fixed { control, address } => {
            F::write(
                Content::Fixed { control, address },
                &[0; MOST_OCTETS],
                buffer,
            )
        }
        Telegram::Variable {
            control,
            address,
            message,
        } => {
            let count = message.len() as u8;
            F::write(
                Content::Variable {
                    control,
                    address,
                    count,
                },
                message.record(),
                buffer,
            )
        }
    }
}

// A message: 1 to 64 octets of the user.
ghost use Rattle.rules.specs.Messages.{message_answer, octet_count, text};
ghost use Rattle.std.specs.Prelude.{◌≡◌, length};

use fault::{Cause, Fault};
use frame::{MOST_OCTETS, UserOctets, fill_record};

// The count of its octets, and the octets with zeros after them, so that two messages are equal exactly if their
// octets are. A count outside 1 to 64, which no message that is made here has, counts as 64: a ghost field cannot say
// that there is none, as the rules speak of the message of any octets.
#[derive(Clone, Copy, PartialEq, Eq, Debug)]
pub struct Message {
    count: u8,
    octets: UserOctets,
}

impl Message {
    // A message of one zero octet. A constant, since it fills arrays of slots.
    pub const BLANK: Message = Message {
        count: 1,
        octets: [0; MOST_OCTETS],
    };

    pub fn new(octets: &[u8]) -> Result<Message, Fault>
        ensures { result ≡ message_answer octets.now }
    {
        if !(1..=MOST_OCTETS).contains(&octets.len()) {
            return Err(Fault::of(Cause::BadLength));
        }
        let mut padded = [0; MOST_OCTETS];
        fill_record(&mut padded, octets);
        Ok(Message {
            count: octets.len() as u8,
            octets: padded,
        })
    }

    pub fn len(&self) -> usize
        ensures { result ≡ octet_count self.now }
    {
        let count = usize::from(self.count);
        if (1..=MOST_OCTETS).contains(&count) {
            count
        } else {
            MOST_OCTETS
        }
    }

    pub fn octets(&self) -> &[u8]
        ensures { result.now ≡ text self.now }
    {
        let count = self.len();
        &self.octets[0..count]
    }

    // The message of a record that a format has filled.
    pub(crate) fn from_record(count: u8, octets: UserOctets) -> Message
        ensures { result ≡ record { count = count; octets = octets } }
    {
        Message { count, octets }
    }

    // Its octets and the zeros after them.
    pub(crate) fn record(&self) -> &UserOctets
        ensures { result.now ≡ self.now.octets }
    {
        &self.octets
    }
}

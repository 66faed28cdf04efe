// The answers of a reader, with ACD and DFC as they stand.
ghost use Rattle.reader.specs.View.{view};
ghost use Rattle.rules.specs.Reader.{acd, control_of, dfc, says, says_briefly, says_data};
ghost use Rattle.std.specs.Prelude.{◌≡◌};

use crate::Reader;
use frame::{Control, Format};
use queue::Slots;
use rules::message::Message;
use rules::records::{Flags, Reply};
use rules::telegram::Telegram;

impl<S: Slots<Item = Message>, F: Format> Reader<S, F> {
    // ACD and DFC: whether class 1 waits, and whether the inbox is full.
    fn flags(&self) -> Flags
        ensures { result ≡ record { acd = acd (view S.items self.now); dfc = dfc (view S.items self.now) } }
    {
        Flags {
            acd: !self.class1.is_empty(),
            dfc: self.inbox.is_full(),
        }
    }

    fn control(&self, reply: Reply) -> Control
        ensures { result ≡ control_of reply (view S.items self.now) }
    {
        let Flags { acd, dfc } = self.flags();
        Control::secondary(acd, dfc, reply.into())
    }

    pub(crate) fn says(&self, reply: Reply) -> Telegram
        ensures { result ≡ says reply (view S.items self.now) }
    {
        Telegram::Fixed {
            control: self.control(reply),
            address: self.address,
        }
    }

    // Single exactly if ACD and DFC are 0.
    pub(crate) fn says_briefly(&self, reply: Reply) -> Telegram
        ensures { result ≡ says_briefly reply (view S.items self.now) }
    {
        let Flags { acd, dfc } = self.flags();
        if acd || dfc {
            self.says(reply)
        } else {
            Telegram::Single
        }
    }

    pub(crate) fn says_data(&self, message: Message) -> Telegram
        ensures { result ≡ says_data message (view S.items self.now) }
    {
        Telegram::Variable {
            control: self.control(Reply::Data),
            address: self.address,
            message,
        }
    }
}

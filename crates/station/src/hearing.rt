// What a reader hears, with what that writes into its books.
ghost use Rattle.books.specs.Calls.{heard_seen};
ghost use Rattle.reader.specs.Hearing.{heard_answer, heard_buffer, hearing};
ghost use Rattle.rules.specs.Reader.{hear_after, mark_heard, record_after};
ghost use Rattle.station.specs.Noted.{shorter};
ghost use Rattle.station.specs.Refusals.{no_memory, told};
ghost use Rattle.station.specs.Shown.{ShownChange, books_of, heard as account_heard, reader_of};
ghost use Rattle.station.specs.declared.Refusal.TheVariants.{Memory};
ghost use Rattle.std.specs.Prelude.{◌≡◌, if◌then◌else◌, Err};

use crate::{Refusal, Station};
use frame::Format;
use reader::Heard;
use rules::message::Message;
use rules::records::Class;

impl<F: Format> Station<F> {
    // Hears a burst of this number; a message that it takes in has that number. Want of memory changes nothing.
    pub fn hear(
        &mut self,
        number: usize,
        burst: &[u16],
        marked: &mut Message,
        buffer: &mut [u16],
    ) -> Result<Heard, Refusal>
        ensures answer { result ≡ (if no_memory result then Err Memory else told (heard_answer F.Format (hearing F.Format burst.now buffer.old (reader_of self.old)))) }
        ensures moved { reader_of self.new ≡ (if no_memory result then reader_of self.old else hear_after (hearing F.Format burst.now buffer.old (reader_of self.old)) (reader_of self.old)) }
        ensures kept { marked.new ≡ (if no_memory result then marked.old else record_after (mark_heard (hearing F.Format burst.now buffer.old (reader_of self.old))) (reader_of self.old).out marked.old) }
        ensures written { buffer.new ≡ (if no_memory result then buffer.old else heard_buffer F.Format (hearing F.Format burst.now buffer.old (reader_of self.old)) buffer.old) }
        ensures noted { books_of self.new ≡ (if no_memory result then books_of self.old else heard_seen number (hearing F.Format burst.now buffer.old (reader_of self.old)) (books_of self.old)) }
        ensures shown { ShownChange self.old self.new (λ s. (if no_memory result then s else account_heard number (hearing F.Format burst.now buffer.old s.reader) s)) }
    {
        self.books.reserve()?;
        let first = self.reader.waiting(Class::First);
        let second = self.reader.waiting(Class::Second);
        let heard = self.reader.hear(burst, marked, buffer)?;
        let class = self.handed_out(first, second);
        self.books.heard(number, heard.taken, heard.mark, class)?;
        Ok(heard)
    }

    // The class of which fewer wait now than did before. What is heard names no class, so the queue that became shorter
    // tells.
    fn handed_out(&self, first: usize, second: usize) -> Option<Class>
        ensures { result ≡ shorter first second (reader_of self.now) }
    {
        if self.reader.waiting(Class::First) < first {
            Some(Class::First)
        } else if self.reader.waiting(Class::Second) < second {
            Some(Class::Second)
        } else {
            None
        }
    }
}

// A reader's own calls, with what they write into its books.
ghost use Rattle.account.specs.Books.{collected as account_collected, offered, restarted as account_restarted};
ghost use Rattle.books.specs.Calls.{marked_seen, offered_seen};
ghost use Rattle.queue.specs.Fifo.{take_answer};
ghost use Rattle.rules.specs.Reader.{collected, marked as mark_of, offer, offer_after, offer_answer, record_after, restarted};
ghost use Rattle.rules.specs.declared.records.Mark.TheVariants.{Doubtful};
ghost use Rattle.station.specs.Refusals.{no_memory, told};
ghost use Rattle.station.specs.Shown.{ShownChange, books_of, reader_of};
ghost use Rattle.station.specs.declared.Refusal.TheVariants.{Memory};
ghost use Rattle.std.specs.Prelude.{◌≡◌, if◌then◌else◌, Err};

use crate::{Refusal, Station};
use fault::Fault;
use frame::Format;
use rules::message::Message;
use rules::records::{Class, Mark};

impl<F: Format> Station<F> {
    // One message more for the concentrator. Want of memory changes nothing.
    pub fn offer(&mut self, class: u8, octets: &[u8]) -> Result<(), Refusal>
        ensures answer { result ≡ (if no_memory result then Err Memory else told (offer_answer (offer class octets.now (reader_of self.old)))) }
        ensures moved { reader_of self.new ≡ (if no_memory result then reader_of self.old else offer_after (offer class octets.now (reader_of self.old)) (reader_of self.old)) }
        ensures noted { books_of self.new ≡ (if no_memory result then books_of self.old else offered_seen (offer class octets.now (reader_of self.old)) (books_of self.old)) }
        ensures shown { ShownChange self.old self.new (λ s. (if no_memory result then s else offered (offer class octets.now s.reader) s)) }
    {
        self.books.reserve()?;
        self.reader.offer(class, octets)?;
        self.books.offered(Class::try_from(class).ok())?;
        Ok(())
    }

    // The oldest message of the inbox, which is taken out.
    pub fn collect(&mut self) -> Result<Message, Fault>
        ensures answer { result ≡ take_answer (reader_of self.old).inbox.records }
        ensures moved { reader_of self.new ≡ collected (reader_of self.old) }
        ensures noted { books_of self.new ≡ books_of self.old }
        ensures shown { ShownChange self.old self.new account_collected }
    {
        self.reader.collect()
    }

    // The reader starts again; the message out, which is doubtful then, stands in the caller's record.
    pub fn restart(&mut self, marked: &mut Message) -> Option<Mark>
        ensures answer { result ≡ mark_of Doubtful (reader_of self.old).out }
        ensures moved { reader_of self.new ≡ restarted (reader_of self.old) }
        ensures kept { marked.new ≡ record_after (mark_of Doubtful (reader_of self.old).out) (reader_of self.old).out marked.old }
        ensures noted { books_of self.new ≡ marked_seen (mark_of Doubtful (reader_of self.old).out) (books_of self.old) }
        ensures shown { ShownChange self.old self.new account_restarted }
    {
        let mark = self.reader.restart(marked);
        self.books.marked(mark);
        mark
    }
}

// What becomes of the message that a reader has handed out.
ghost use Rattle.reader.specs.View.{view};
ghost use Rattle.rules.specs.Links.{flipped};
ghost use Rattle.rules.specs.Reader.{marked as mark_of, record_after, restarted, with_link};
ghost use Rattle.rules.specs.declared.records.Mark.TheVariants.{Doubtful, Settled};
ghost use Rattle.std.specs.Prelude.{◌≡◌, None};

use crate::Reader;
use frame::Format;
use queue::Slots;
use rules::message::Message;
use rules::records::Mark;

// The message that was out, if it got a mark, stands in the caller's record, which is otherwise left.
pub(crate) fn keep(mark: Option<Mark>, out: Option<Message>, marked: &mut Message)
    ensures { marked.new ≡ record_after mark out marked.old }
{
    if let (Some(_), Some(message)) = (mark, out) {
        *marked = message;
    }
}

impl<S: Slots<Item = Message>, F: Format> Reader<S, F> {
    // Starts again: the link is unset, nothing is stored, and the message out is doubtful; it then stands in the
    // caller's record, which is otherwise left, as section 9 of docs/RULES.md has it. The queues stay.
    pub fn restart(&mut self, marked: &mut Message) -> Option<Mark>
        ensures answer { result ≡ mark_of Doubtful (view S.items self.old).out }
        ensures moved { view S.items self.new ≡ restarted (view S.items self.old) }
        ensures kept { marked.new ≡ record_after (mark_of Doubtful (view S.items self.old).out) (view S.items self.old).out marked.old }
    {
        self.link = self.link.unset();
        self.stored = None;
        let out = self.out;
        let mark = self.mark_out(Mark::Doubtful);
        keep(mark, out, marked);
        mark
    }

    // The expected bit has come: it flips, and the message out is settled.
    pub(crate) fn settle(&mut self) -> Option<Mark>
        ensures answer { result ≡ mark_of Settled self.old.out }
        ensures moved { view S.items self.new ≡ with_link (flipped self.old.link) self.old.stored None (view S.items self.old) }
    {
        self.link = self.link.flipped();
        self.mark_out(Mark::Settled)
    }

    // Marks the message out, which is out no more.
    pub(crate) fn mark_out(&mut self, mark: Mark) -> Option<Mark>
        ensures answer { result ≡ mark_of mark self.old.out }
        ensures moved { view S.items self.new ≡ with_link self.old.link self.old.stored None (view S.items self.old) }
    {
        self.out.take()?;
        Some(mark)
    }
}

// What a reader does with a burst that it hears.
ghost use Rattle.frame.specs.Controls.{bit, code_of};
ghost use Rattle.queue.specs.Fifo.{take_answer, take_contents};
ghost use Rattle.reader.specs.Hearing.{Follows, heard_answer, heard_buffer, hearing, task_of};
ghost use Rattle.reader.specs.View.{view};
ghost use Rattle.rules.specs.Functions.{function_of};
ghost use Rattle.rules.specs.Queues.{holding};
ghost use Rattle.rules.specs.Reader.{addressed, answer as answer_to, asked, class_queue, count, dfc, give_out, hear_after, hear_telegram, mark_heard, record_after, repeat, reset, take_in, with_class, with_link};
ghost use Rattle.std.specs.Bool.{beq};
ghost use Rattle.std.specs.Prelude.{◌≡◌, false, Some, None, Ok, OnErr};

use crate::marking::keep;
use crate::{Heard, Reader};
use fault::{Cause, Fault};
use frame::{Control, Format, check_buffer};
use queue::Slots;
use rules::link::Link;
use rules::message::Message;
use rules::records::{Class, Function, Mark, Reply};
use rules::telegram::{Telegram, read_telegram, write_telegram};

// What a request with the expected bit asks for: to take a message in, or to hand one of a class out.
#[derive(Clone, Copy)]
enum Task {
    Take(Message),
    Give(Class),
}

// What a reader answers to a request, before the answer is written.
#[derive(Clone, Copy)]
struct Response {
    answer: Telegram,
    taken: bool,
    mark: Option<Mark>,
}

impl Response {
    // An answer that moves nothing.
    fn still(answer: Telegram) -> Response
        ensures { result ≡ record { answer = answer; taken = false; mark = None } }
    {
        Response {
            answer,
            taken: false,
            mark: None,
        }
    }
}

impl<S: Slots<Item = Message>, F: Format> Reader<S, F> {
    // Hears a burst. An accepted one is answered by a frame at the front of the buffer; the message out, if it is
    // marked, then stands in the caller's record. A refusal changes nothing.
    pub fn hear(
        &mut self,
        burst: &[u16],
        marked: &mut Message,
        buffer: &mut [u16],
    ) -> Result<Heard, Fault>
        ensures answer { result ≡ heard_answer F.Format (hearing F.Format burst.now buffer.old (view S.items self.old)) }
        ensures moved { view S.items self.new ≡ hear_after (hearing F.Format burst.now buffer.old (view S.items self.old)) (view S.items self.old) }
        ensures kept { marked.new ≡ record_after (mark_heard (hearing F.Format burst.now buffer.old (view S.items self.old))) (view S.items self.old).out marked.old }
        ensures written { buffer.new ≡ heard_buffer F.Format (hearing F.Format burst.now buffer.old (view S.items self.old)) buffer.old }
        ensures refused { OnErr result (self.new ≡ self.old) }
    {
        check_buffer(buffer, F::LONGEST)?;
        let telegram = read_telegram::<F>(burst)?;
        // The one that a mark is of: another may be out after it.
        let out = self.out;
        let Response {
            answer,
            taken,
            mark,
        } = self.hear_telegram(telegram)?;
        let count = write_telegram::<F>(answer, buffer)?;
        keep(mark, out, marked);
        Ok(Heard { count, taken, mark })
    }

    // Single comes from a reader.
    #[tactic(auto, unfolding(rules::specs::Reader::hear_telegram))]
    fn hear_telegram(&mut self, telegram: Telegram) -> Result<Response, Fault>
        ensures turn { Follows (hear_telegram telegram (view S.items self.old)) (view S.items self.old) (view S.items self.new) result }
        ensures refused { OnErr result (self.new ≡ self.old) }
    {
        match telegram {
            Telegram::Single => Err(Fault::of(Cause::WrongSender)),
            Telegram::Fixed { control, address } => self.addressed(control, address, None),
            Telegram::Variable {
                control,
                address,
                message,
            } => self.addressed(control, address, Some(message)),
        }
    }

    // Who sends, to whom, and bit 7, before the request is looked at.
    fn addressed(
        &mut self,
        control: Control,
        address: u8,
        message: Option<Message>,
    ) -> Result<Response, Fault>
        ensures turn { Follows (addressed control address message (view S.items self.old)) (view S.items self.old) (view S.items self.new) result }
        ensures refused { OnErr result (self.new ≡ self.old) }
    {
        if !control.prm() {
            return Err(Fault::of(Cause::WrongSender));
        }
        if address != self.address {
            return Err(Fault::of(Cause::OtherAddress));
        }
        if control.reserved() {
            return Err(Fault::of(Cause::WrongControl));
        }
        self.answer(control, message)
    }

    // What a request for this reader comes to.
    fn answer(&mut self, control: Control, message: Option<Message>) -> Result<Response, Fault>
        ensures turn { Follows (answer_to (asked (function_of (code_of control.octet)) (bit 16 control.octet) (bit 32 control.octet) message) (view S.items self.old)) (view S.items self.old) (view S.items self.new) result }
        ensures refused { OnErr result (self.new ≡ self.old) }
    {
        let Ok(function) = Function::try_from(control.code()) else {
            return Ok(Response::still(self.says(Reply::NotImplemented)));
        };
        let task = match (function, control.fcv(), message) {
            (Function::Reset, false, None) => return Ok(self.reset()),
            (Function::Status, false, None) => {
                return Ok(Response::still(self.says(Reply::Status)));
            }
            (Function::Send, true, Some(message)) => Task::Take(message),
            (Function::PollFirst, true, None) => Task::Give(Class::First),
            (Function::PollSecond, true, None) => Task::Give(Class::Second),
            _ => return Err(Fault::of(Cause::WrongControl)),
        };
        self.count(control.fcb(), task)
    }

    // By whether the link is set, and whether the bit is the expected one.
    fn count(&mut self, bit: bool, task: Task) -> Result<Response, Fault>
        ensures turn { Follows (count self.old.link.set (beq bit self.old.link.next) (task_of task) (view S.items self.old)) (view S.items self.old) (view S.items self.new) result }
        ensures refused { OnErr result (self.new ≡ self.old) }
    {
        if !self.link.set {
            return Err(Fault::of(Cause::ReaderUnset));
        }
        if bit != self.link.next {
            return self.repeat();
        }
        Ok(match task {
            Task::Take(message) => self.take_in(message),
            Task::Give(class) => self.give_out(class),
        })
    }

    // Sets the link; the ACK is not stored.
    fn reset(&mut self) -> Response
        ensures turn { Follows (answer_to reset (view S.items self.old)) (view S.items self.old) (view S.items self.new) (Ok result) }
    {
        self.link = Link::reset();
        self.stored = None;
        let mark = self.mark_out(Mark::Doubtful);
        Response {
            answer: self.says_briefly(Reply::Ack),
            taken: false,
            mark,
        }
    }

    // The stored answer goes out again, symbol for symbol.
    #[tactic(auto, unfolding(rules::specs::Reader::repeat))]
    fn repeat(&self) -> Result<Response, Fault>
        ensures turn { Follows (repeat self.now.stored (view S.items self.now)) (view S.items self.now) (view S.items self.now) result }
    {
        self.stored
            .map(Response::still)
            .ok_or(Fault::of(Cause::NothingStored))
    }

    // A send with the expected bit: into the inbox, or busy if that is full.
    #[tactic(auto, unfolding(rules::specs::Reader::take_in))]
    fn take_in(&mut self, message: Message) -> Response
        ensures turn { Follows (take_in (dfc (view S.items self.old)) message (view S.items self.old)) (view S.items self.old) (view S.items self.new) (Ok result) }
    {
        let entered = self.inbox.put(message);
        let settled = self.settle();
        match entered {
            Ok(()) => self.store(self.says_briefly(Reply::Ack), true, settled),
            Err(_) => self.store(self.says(Reply::Busy), false, settled),
        }
    }

    // A poll with the expected bit: the oldest of its class, which is now out, or no data.
    #[tactic(auto, unfolding(rules::specs::Reader::give_out))]
    fn give_out(&mut self, class: Class) -> Response
        ensures turn { Follows (give_out (class_queue class (view S.items self.old)).records class (view S.items self.old)) (view S.items self.old) (view S.items self.new) (Ok result) }
    {
        let oldest = self.take_oldest(class);
        let settled = self.settle();
        match oldest {
            Ok(message) => {
                self.out = Some(message);
                self.store(self.says_data(message), false, settled)
            }
            Err(_) => self.store(self.says_briefly(Reply::NoData), false, settled),
        }
    }

    // The answer is stored, for a repetition of its request.
    fn store(&mut self, answer: Telegram, taken: bool, mark: Option<Mark>) -> Response
        ensures answer { result ≡ record { answer = answer; taken = taken; mark = mark } }
        ensures moved { view S.items self.new ≡ with_link self.old.link (Some answer) self.old.out (view S.items self.old) }
    {
        self.stored = Some(answer);
        Response {
            answer,
            taken,
            mark,
        }
    }

    fn take_oldest(&mut self, class: Class) -> Result<Message, Fault>
        ensures answer { result ≡ take_answer (class_queue class (view S.items self.old)).records }
        ensures moved { view S.items self.new ≡ with_class class (holding (class_queue class (view S.items self.old)) (take_contents (class_queue class (view S.items self.old)).records)) (view S.items self.old) }
        ensures refused { OnErr result (self.new ≡ self.old) }
    {
        self.class_mut(class).take()
    }
}

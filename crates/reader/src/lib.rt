// The reader's end of the link, over any frame format and any store of slots.
#![tactic(auto)]

mod answers;
mod hearing;
mod marking;

ghost use Rattle.queue.specs.Fifo.{take_answer};
ghost use Rattle.reader.specs.Classes.{lends_class, queue_of};
ghost use Rattle.reader.specs.View.{view};
ghost use Rattle.rules.specs.Reader.{class_queue, collected, new_reader, offer, offer_after, offer_answer, reader_check};
ghost use Rattle.std.specs.Borrow.{sem};
ghost use Rattle.std.specs.Prelude.{◌≡◌, length, OnErr};

use fault::{Cause, Fault};
use frame::Format;
use queue::{Queue, Slots, check_slots};
use rules::link::Link;
use rules::message::Message;
use rules::records::{Class, Mark, ReaderPlan};
use rules::station::check_station;
use rules::telegram::Telegram;
use std::marker::PhantomData;

// A reader over slots of the kind S that speaks the format F. Its link has the frame count bit that it expects;
// stored is the answer that a repetition gets; out is the message that was handed out last, until it is marked.
#[derive(Drop)]
pub struct Reader<S, F> {
    address: u8,
    link: Link,
    stored: Option<Telegram>,
    out: Option<Message>,
    class1: Queue<S>,
    class2: Queue<S>,
    inbox: Queue<S>,
    format: PhantomData<F>,
}

// What an accepted hearing tells, as section 9 of docs/RULES.md has it: how many symbols the answer has at the front of the
// caller's buffer, whether a message was taken into the inbox, and the mark of the message that was out, which stands in
// the caller's record.
#[derive(Clone, Copy, PartialEq, Eq, Debug)]
pub struct Heard {
    pub count: usize,
    pub taken: bool,
    pub mark: Option<Mark>,
}

// Whether a reader may begin with this address and so many slots.
pub fn check(plan: ReaderPlan) -> Result<(), Fault>
    ensures { result ≡ reader_check plan.address plan.class1 plan.class2 plan.inbox }
{
    check_station(plan.address)?;
    check_slots(plan.class1)?;
    check_slots(plan.class2)?;
    check_slots(plan.inbox)
}

impl<S: Slots<Item = Message>, F: Format> Reader<S, F> {
    // A new reader over the slots of its queues, lent or its own; one over a wrong number of slots has a queue that can
    // hold nothing.
    pub fn over(address: u8, class1: S, class2: S, inbox: S) -> Reader<S, F>
        ensures { view S.items result ≡ new_reader address (length (S.items class1)) (length (S.items class2)) (length (S.items inbox)) }
    {
        Reader {
            address,
            link: Link::UNSET,
            stored: None,
            out: None,
            class1: Queue::over(class1),
            class2: Queue::over(class2),
            inbox: Queue::over(inbox),
            format: PhantomData,
        }
    }

    pub fn address(&self) -> u8
        ensures { result ≡ (view S.items self.now).address }
    {
        self.address
    }

    pub fn link(&self) -> Link
        ensures { result ≡ (view S.items self.now).link }
    {
        self.link
    }

    // The queue of a class: one match to look at it, and one to change it.
    fn class(&self, class: Class) -> &Queue<S>
        ensures { result.now ≡ queue_of class self.now }
    {
        match class {
            Class::First => &self.class1,
            Class::Second => &self.class2,
        }
    }

    fn class_mut(&mut self, class: Class) -> &mut Queue<S>
        ensures* writes_back { sem 𝓛 (lends_class S.row F.row self.entry class result) }
        ensures value { result.now ≡ queue_of class self.old }
    {
        match class {
            Class::First => &mut self.class1,
            Class::Second => &mut self.class2,
        }
    }

    // How many messages of a class wait to be handed out.
    pub fn waiting(&self, class: Class) -> usize
        ensures { result ≡ length (class_queue class (view S.items self.now)).records }
    {
        self.class(class).len()
    }

    // How many messages wait to be collected.
    pub fn received(&self) -> usize
        ensures { result ≡ length (view S.items self.now).inbox.records }
    {
        self.inbox.len()
    }

    // One message more for the concentrator, as the newest of its class.
    // The class as a number, since a wrong one is refused here: 16.
    pub fn offer(&mut self, class: u8, octets: &[u8]) -> Result<(), Fault>
        ensures answer { result ≡ offer_answer (offer class octets.now (view S.items self.old)) }
        ensures moved { view S.items self.new ≡ offer_after (offer class octets.now (view S.items self.old)) (view S.items self.old) }
        ensures refused { OnErr result (self.new ≡ self.old) }
    {
        let message = Message::new(octets)?;
        let class = Class::try_from(class).map_err(|_| Fault::of(Cause::BadClass))?;
        self.class_mut(class).put(message)
    }

    // The oldest message of the inbox, which is taken out.
    pub fn collect(&mut self) -> Result<Message, Fault>
        ensures answer { result ≡ take_answer (view S.items self.old).inbox.records }
        ensures moved { view S.items self.new ≡ collected (view S.items self.old) }
        ensures refused { OnErr result (self.new ≡ self.old) }
    {
        self.inbox.take()
    }
}

// A reader on a simulated line, run by the reader's own code, with the books of what it is sent and what it offers.
#![tactic(auto)]

mod calls;
mod hearing;
mod requests;

ghost use Rattle.account.specs.Line.{new_station};
ghost use Rattle.books.specs.Seen.{nothing_seen};
ghost use Rattle.rules.specs.Reader.{new_reader};
ghost use Rattle.station.specs.Shown.{Ready, Shown, ShownChange, books_of, reader_of};
ghost use Rattle.station.specs.declared.Refusal.TheVariants as refusal;
ghost use Rattle.std.specs.Prelude.{◌≡◌, true, length, is_ok, IfOk};

use books::Books;
use fault::Fault;
use frame::Format;
use reader::Reader;
use rules::link::Link;
use rules::message::Message;
use rules::records::ReaderPlan;
use std::alloc::{AllocError, Global};

#[derive(Drop)]
pub struct Station<F> {
    reader: Reader<Vec<Message>, F>,
    books: Books,
}

// Why a call was refused: by the reader, or for want of memory.
#[derive(Clone, Copy)]
pub enum Refusal {
    Fault(Fault),
    Memory,
}

impl From<Fault> for Refusal {
    ghost from_gives = { λ f r. r ≡ refusal.Fault f };

    fn from(fault: Fault) -> Refusal {
        Refusal::Fault(fault)
    }
}

impl From<AllocError> for Refusal {
    ghost from_gives = { λ _ r. r ≡ refusal.Memory };

    fn from(_error: AllocError) -> Refusal {
        Refusal::Memory
    }
}

fn blank_slots(heap: Global, count: usize) -> Result<Vec<Message>, AllocError>
    ensures { IfOk result (λ v. length v.items ≡ count) }
{
    vec![in heap; Message::BLANK; count]
}

impl<F: Format> Station<F> {
    // A new reader by its plan, with nothing in its books.
    pub fn new(heap: Global, plan: ReaderPlan) -> Result<Station<F>, AllocError>
        ensures begun { IfOk result (λ x. (reader_of x ≡ new_reader plan.address plan.class1 plan.class2 plan.inbox) × (books_of x ≡ nothing_seen)) }
        ensures shown { IfOk result (λ x. Shown x (new_station plan)) }
    {
        let class1 = blank_slots(heap, plan.class1)?;
        let class2 = blank_slots(heap, plan.class2)?;
        let inbox = blank_slots(heap, plan.inbox)?;
        Ok(Station {
            reader: Reader::over(plan.address, class1, class2, inbox),
            books: Books::new(heap),
        })
    }

    // Room in memory for one more entry in every book.
    pub fn reserve(&mut self) -> Result<(), AllocError>
        ensures moved { reader_of self.new ≡ reader_of self.old }
        ensures noted { books_of self.new ≡ books_of self.old }
        ensures shown { ShownChange self.old self.new (λ s. s) }
        ensures ready { is_ok result ≡ true → Ready self.new }
    {
        self.books.reserve()
    }

    pub fn address(&self) -> u8
        ensures { result ≡ (reader_of self.now).address }
    {
        self.reader.address()
    }

    pub fn link(&self) -> Link
        ensures { result ≡ (reader_of self.now).link }
    {
        self.reader.link()
    }

    pub fn books(&self) -> &Books
        ensures { result.now ≡ self.now.books }
    {
        &self.books
    }
}

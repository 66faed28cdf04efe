// The books of one reader on a simulated line: every send to it and every offer of it by its number and its state, and
// the numbers of what entered its inbox and of what arrived from it.
#![tactic(auto)]

mod calls;
mod reading;

ghost use Rattle.account.specs.Books.{by_class};
ghost use Rattle.books.specs.Ready.{Ready};
ghost use Rattle.books.specs.Seen.{arrives, ended, enters, handed, marked, nothing_seen, offered, seen, sent, with_newest};
ghost use Rattle.std.specs.Borrow.{sem};
ghost use Rattle.std.specs.Prelude.{◌≡◌, true, is_ok, if◌then◌else◌};

use account::{OfferState, SendState};
use rules::records::{Class, Mark, Outcome};
use std::alloc::{AllocError, Global};
use std::collections::VecDeque;

// Sends are numbered from 1 in the order of their requests, offers from 1 in the order of their acceptance.
#[derive(Drop)]
pub struct Books {
    sends: Vec<SendState>,
    entered: Vec<usize>,
    offers: Vec<OfferState>,
    waiting1: VecDeque<usize>,
    waiting2: VecDeque<usize>,
    // the number of the offer that was handed out last; 0 for none, as the account counts
    newest: usize,
    arrived: Vec<usize>,
}

impl Books {
    ghost use Rattle.books.specs.Lending.{lends_waiting};

    pub fn new(heap: Global) -> Books
        ensures { seen result ≡ nothing_seen }
    {
        Books {
            sends: Vec::new(heap),
            entered: Vec::new(heap),
            offers: Vec::new(heap),
            waiting1: VecDeque::new(heap),
            waiting2: VecDeque::new(heap),
            newest: 0,
            arrived: Vec::new(heap),
        }
    }

    // Room for one more entry in every book. No value stands for that room: it would borrow the site, whose calls of
    // the library come between the room and the entry.
    pub fn reserve(&mut self) -> Result<(), AllocError>
        ensures kept { seen self.new ≡ seen self.old }
        ensures ready { is_ok result ≡ true → Ready self.new }
        ensures sure { Ready self.old → is_ok result ≡ true }
    {
        self.sends.reserve(1)?;
        self.entered.reserve(1)?;
        self.offers.reserve(1)?;
        self.waiting1.reserve(1)?;
        self.waiting2.reserve(1)?;
        self.arrived.reserve(1)
    }

    // A send was accepted.
    fn send(&mut self) -> Result<(), AllocError>
        ensures noted { seen self.new ≡ (if is_ok result then sent (seen self.old) else seen self.old) }
        ensures sure { Ready self.old → is_ok result ≡ true }
    {
        self.sends.push(SendState::Open)?;
        Ok(())
    }

    // The newest send has ended.
    fn end_send(&mut self, outcome: Outcome)
        ensures { seen self.new ≡ ended outcome (seen self.old) }
    {
        if let Some(last) = self.sends.last_mut() {
            *last = SendState::Ended(outcome);
        }
    }

    // The send of this number entered the inbox.
    fn enter(&mut self, number: usize) -> Result<(), AllocError>
        ensures noted { seen self.new ≡ (if is_ok result then enters number (seen self.old) else seen self.old) }
        ensures sure { Ready self.old → is_ok result ≡ true }
    {
        self.entered.push(number)?;
        Ok(())
    }

    // The offer of this number arrived.
    fn arrive(&mut self, number: usize) -> Result<(), AllocError>
        ensures noted { seen self.new ≡ (if is_ok result then arrives number (seen self.old) else seen self.old) }
        ensures sure { Ready self.old → is_ok result ≡ true }
    {
        self.arrived.push(number)?;
        Ok(())
    }

    // An offer of a class was accepted.
    fn offer(&mut self, class: Class) -> Result<(), AllocError>
        ensures noted { seen self.new ≡ (if is_ok result then offered class (seen self.old) else seen self.old) }
        ensures sure { Ready self.old → is_ok result ≡ true }
    {
        self.offers.reserve(1)?;
        let number = self.offers.len() + 1;
        self.waiting(class).push_back(number)?;
        self.offers.push_reserved(OfferState::Waiting);
        Ok(())
    }

    // The numbers of the offers of a class that wait.
    fn waiting(&mut self, class: Class) -> &mut VecDeque<usize>
        ensures* writes_back { sem 𝓛 (lends_waiting self.entry class result) }
        ensures value { result.now ≡ by_class class self.old.waiting1 self.old.waiting2 }
    {
        match class {
            Class::First => &mut self.waiting1,
            Class::Second => &mut self.waiting2,
        }
    }

    // The oldest offer of a class that waits is handed out.
    fn hand_out(&mut self, class: Class)
        ensures { seen self.new ≡ handed class (seen self.old) }
    {
        self.newest = self.waiting(class).pop_front().unwrap_or(0);
        self.set_newest(OfferState::Out);
    }

    // The offer that was handed out last is marked.
    fn mark(&mut self, mark: Mark)
        ensures { seen self.new ≡ marked mark (seen self.old) }
    {
        self.set_newest(OfferState::Marked(mark));
    }

    // The offer that was handed out last, if one was, has this state now.
    fn set_newest(&mut self, state: OfferState)
        ensures { seen self.new ≡ with_newest state (seen self.old) }
    {
        if let Some(at) = self.newest.checked_sub(1) {
            if let Some(offer) = self.offers.get_mut(at) {
                *offer = state;
            }
        }
    }
}

// What the concentrator's exchanges write into the books of a reader, if it is on the line.
ghost use Rattle.account.specs.Books.{asked, change, ended, found, newest_hand_out, newest_send};
ghost use Rattle.readers.specs.Pairs.{Changes, Tells};
ghost use Rattle.readers.specs.Readers.{ReadyAt, ShowsReader, handed_by, readers};
ghost use Rattle.rules.specs.Records.{outcome_of};
ghost use Rattle.rules.specs.declared.records.Ending.{Ending};
ghost use Rattle.std.specs.Prelude.{◌≡◌, true, is_ok, if◌then◌else◌};

use crate::Readers;
use frame::Format;
use rules::records::{Outcome, Request};
use std::alloc::AllocError;

impl<F: Format> Readers<F> {
    // Room in memory for one more entry in every book of a reader.
    pub fn reserve(&mut self, address: u8) -> Result<(), AllocError>
        ensures same { readers self.new ≡ readers self.old }
        ensures ready { is_ok result ≡ true → ReadyAt address self.new }
    {
        // No reader there wants no memory, which no caller should have to say; a closure's write to a lent station is
        // not followed.
        match self.get_mut(address) {
            Some(station) => station.reserve(),
            None => Ok(()),
        }
    }

    // A request to a reader was accepted.
    pub fn ask(&mut self, address: u8, request: Request) -> Result<(), AllocError>
        ensures shown { Changes ShowsReader (readers self.old) (readers self.new) (change address (λ s. (if is_ok result then asked request s else s))) }
        ensures sure { ReadyAt address self.old → is_ok result ≡ true }
    {
        match self.get_mut(address) {
            Some(station) => station.asked(request),
            None => Ok(()),
        }
    }

    // The exchange of a request to a reader has ended, by a burst of this number.
    pub fn end(
        &mut self,
        address: u8,
        number: usize,
        request: Request,
        outcome: Outcome,
    ) -> Result<(), AllocError>
        ensures shown { (e : Ending) → outcome_of e ≡ outcome → Changes ShowsReader (readers self.old) (readers self.new) (change address (λ s. (if is_ok result then ended number request e s else s))) }
        ensures sure { ReadyAt address self.old → is_ok result ≡ true }
    {
        match self.get_mut(address) {
            Some(station) => station.ended(number, request, outcome),
            None => Ok(()),
        }
    }

    // The number of the newest send to a reader, 0 if there is none.
    pub fn newest_send(&self, address: u8) -> usize
        ensures { Tells ShowsReader (readers self.now) (λ ys. result ≡ newest_send (found address ys)) }
    {
        self.get(address)
            .map_or(0, |station| station.books().sends().len())
    }

    // The number of what a reader handed out last, 0 if there is nothing.
    pub fn newest_hand_out(&self, address: u8) -> usize
        ensures { Tells ShowsReader (readers self.now) (λ ys. result ≡ handed_by (found address ys)) }
    {
        self.get(address)
            .map_or(0, |station| station.books().newest())
    }
}

// What the concentrator's calls write into a station's books.
ghost use Rattle.account.specs.Books.{asked, ended};
ghost use Rattle.books.specs.Calls.{asked_seen, ended_seen};
ghost use Rattle.rules.specs.Records.{outcome_of};
ghost use Rattle.rules.specs.declared.records.Ending.{Ending};
ghost use Rattle.station.specs.Shown.{Ready, ShownChange, books_of, reader_of};
ghost use Rattle.std.specs.Prelude.{◌≡◌, true, is_ok, if◌then◌else◌};

use crate::Station;
use frame::Format;
use rules::records::{Outcome, Request};
use std::alloc::AllocError;

impl<F: Format> Station<F> {
    // A request to this reader was accepted.
    pub fn asked(&mut self, request: Request) -> Result<(), AllocError>
        ensures moved { reader_of self.new ≡ reader_of self.old }
        ensures noted { books_of self.new ≡ (if is_ok result then asked_seen request (books_of self.old) else books_of self.old) }
        ensures shown { ShownChange self.old self.new (λ s. (if is_ok result then asked request s else s)) }
        ensures sure { Ready self.old → is_ok result ≡ true }
    {
        self.books.asked(request)
    }

    // The exchange of a request to this reader has ended, by a burst of this number.
    pub fn ended(
        &mut self,
        number: usize,
        request: Request,
        outcome: Outcome,
    ) -> Result<(), AllocError>
        ensures moved { reader_of self.new ≡ reader_of self.old }
        ensures noted { books_of self.new ≡ (if is_ok result then ended_seen number request outcome (books_of self.old) else books_of self.old) }
        ensures shown { (e : Ending) → outcome_of e ≡ outcome → ShownChange self.old self.new (λ s. (if is_ok result then ended number request e s else s)) }
        ensures sure { Ready self.old → is_ok result ≡ true }
    {
        self.books.ended(number, request, outcome)
    }
}

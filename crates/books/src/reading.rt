// What the books say.
ghost use Rattle.books.specs.Seen.{seen};
ghost use Rattle.std.specs.Prelude.{◌≡◌};

use crate::Books;
use account::{OfferState, SendState};

impl Books {
    // The sends by their states, in the order of their requests.
    pub fn sends(&self) -> &[SendState]
        ensures { result.now ≡ (seen self.now).down.sends }
    {
        self.sends.as_slice()
    }

    // The numbers of the sends that entered the inbox, in that order.
    pub fn entered(&self) -> &[usize]
        ensures { result.now ≡ (seen self.now).down.entered }
    {
        self.entered.as_slice()
    }

    // The offers by their states, in the order of their acceptance.
    pub fn offers(&self) -> &[OfferState]
        ensures { result.now ≡ (seen self.now).up.offers }
    {
        self.offers.as_slice()
    }

    // The number of the offer that was handed out last, 0 if none was.
    pub fn newest(&self) -> usize
        ensures { result ≡ (seen self.now).up.newest }
    {
        self.newest
    }

    // The numbers of the offers that arrived, in that order.
    pub fn arrived(&self) -> &[usize]
        ensures { result.now ≡ (seen self.now).up.arrived }
    {
        self.arrived.as_slice()
    }
}

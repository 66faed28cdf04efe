// The account of the two ends of a line: which sends entered a reader's inbox, which offers arrived from it, and that
// none is lost or doubled beyond what the states say.
#![tactic(auto)]

mod books;

ghost use Rattle.account.specs.Account.{TwoEndsOver};
ghost use Rattle.account.specs.Sample.{ComesThrough};

pub use books::{HandOut, Item, Offer, OfferState, SendState, Sending};
use frame::Format;

// The theorem of the two ends: what holds of every line after every run, over every format that keeps its laws.
pub fn two_ends_hold<F: Format>()
    ensures { TwoEndsOver F.Format }
{}

// That the theorem speaks of something: over every such format a send and an offer come through.
pub fn messages_come_through<F: Format>()
    ensures { ComesThrough F.Format }
{}

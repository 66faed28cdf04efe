// What the account of a line holds: every send and every offer by its number, and what has become of it so far.
use rules::message::Message;
use rules::records::{Class, Mark, Outcome};
use std::fmt;

// A message by its number. The sends to a reader are numbered from 1 in the order of their requests, its offers from
// 1 in the order of their acceptance.
#[derive(Clone, Copy, PartialEq, Eq, Debug)]
pub struct Item {
    pub number: usize,
    pub message: Message,
}

// A send is open until its exchange ends, and then has the outcome of that. Not an Option: an open send is no absence.
#[derive(Clone, Copy, PartialEq, Eq, Debug)]
pub enum SendState {
    Open,
    Ended(Outcome),
}

impl fmt::Display for SendState {
    fn fmt<W: fmt::Write>(&self, f: &mut fmt::Formatter<W>) -> fmt::Result {
        match self {
            SendState::Open => f.write_str("open"),
            SendState::Ended(outcome) => outcome.fmt(f),
        }
    }
}

// An accepted send.
#[derive(Clone, Copy, PartialEq, Eq, Debug)]
pub struct Sending {
    pub item: Item,
    pub state: SendState,
}

// An accepted offer.
#[derive(Clone, Copy, PartialEq, Eq, Debug)]
pub struct Offer {
    pub item: Item,
    pub class: Class,
}

// An offer waits until a poll takes it, is then out, and at last marked settled or doubtful.
#[derive(Clone, Copy, PartialEq, Eq, Debug)]
pub enum OfferState {
    Waiting,
    Out,
    Marked(Mark),
}

impl fmt::Display for OfferState {
    fn fmt<W: fmt::Write>(&self, f: &mut fmt::Formatter<W>) -> fmt::Result {
        match self {
            OfferState::Waiting => f.write_str("waiting"),
            OfferState::Out => f.write_str("out"),
            OfferState::Marked(mark) => mark.fmt(f),
        }
    }
}

// An offer that was handed out.
#[derive(Clone, Copy, PartialEq, Eq, Debug)]
pub struct HandOut {
    pub offer: Offer,
    pub state: OfferState,
}

// How a fault is shown to the people on site: "refused 5 frame 1: length wrong".
use crate::{Cause, Fault, Layer};
use std::fmt;

impl fmt::Display for Layer {
    fn fmt<W: fmt::Write>(&self, f: &mut fmt::Formatter<W>) -> fmt::Result {
        f.write_str(match self {
            Layer::Line => "line",
            Layer::Frame => "frame",
            Layer::Link => "link",
            Layer::User => "user",
        })
    }
}

impl fmt::Display for Cause {
    fn fmt<W: fmt::Write>(&self, f: &mut fmt::Formatter<W>) -> fmt::Result {
        f.write_str(match self {
            Cause::EmptyBurst => "burst empty",
            Cause::LongBurst => "burst longer than any frame",
            Cause::BrokenSymbol => "symbol broken",
            Cause::WrongStart => "start wrong",
            Cause::WrongLength => "length wrong",
            Cause::WrongCheck => "check wrong",
            Cause::WrongEnd => "end wrong",
            Cause::WrongSender => "wrong sender",
            Cause::OtherAddress => "for another address",
            Cause::WrongControl => "control octet or kind of frame not permitted",
            Cause::ReaderUnset => "the reader's link is unset",
            Cause::NothingStored => "a repetition, and no answer is stored",
            Cause::NoExchange => "no exchange is open",
            Cause::BadStation => "station or address not 1 to 32",
            Cause::BadLength => "length not 1 to 64",
            Cause::BadClass => "class not 1 or 2",
            Cause::ExchangeOpen => "an exchange is open",
            Cause::LinkUnset => "the station's link is unset",
            Cause::NoFreeSlot => "no free slot for the report or the arrival",
            Cause::ShortBuffer => "buffer too short",
            Cause::QueueFull => "queue full",
            Cause::QueueEmpty => "queue empty",
            Cause::BadRepetitions => "repetitions over 7",
            Cause::BadSlots => "slots not 1 to 256",
        })
    }
}

impl fmt::Display for Fault {
    fn fmt<W: fmt::Write>(&self, f: &mut fmt::Formatter<W>) -> fmt::Result {
        let Fault { cause, place } = *self;
        let number = cause.number();
        let layer = cause.layer();
        write!(f, "refused {number} {layer} {place}: {cause}")
    }
}

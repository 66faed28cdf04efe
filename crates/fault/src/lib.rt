// The one fault type of the link: why a call was refused, at which layer, and at which place.
#![tactic(auto)]

mod report;

ghost use Rattle.fault.specs.Causes.{fault, layer_of, number_of};
ghost use Rattle.std.specs.Prelude.{◌≡◌};

// The part of the link that refuses.
#[derive(Clone, Copy, PartialEq, Eq, Debug)]
pub enum Layer {
    Line,
    Frame,
    Link,
    User,
}

// Why a call is refused, with the number under which each cause is known.
#[derive(Clone, Copy, PartialEq, Eq, Debug)]
pub enum Cause {
    EmptyBurst = 1,
    LongBurst = 2,
    BrokenSymbol = 3,
    WrongStart = 4,
    WrongLength = 5,
    WrongCheck = 6,
    WrongEnd = 7,
    WrongSender = 8,
    OtherAddress = 9,
    WrongControl = 10,
    ReaderUnset = 11,
    NothingStored = 12,
    NoExchange = 13,
    BadStation = 14,
    BadLength = 15,
    BadClass = 16,
    ExchangeOpen = 17,
    LinkUnset = 18,
    NoFreeSlot = 19,
    ShortBuffer = 20,
    QueueFull = 21,
    QueueEmpty = 22,
    BadRepetitions = 23,
    BadSlots = 24,
}

impl Cause {
    // A method and no conversion: a caller asks a fault for its number by name.
    pub fn number(self) -> u8
        ensures { result ≡ number_of self }
    {
        self as u8
    }

    pub fn layer(self) -> Layer
        ensures { result ≡ layer_of self }
    {
        match self {
            Cause::EmptyBurst | Cause::LongBurst | Cause::BrokenSymbol => Layer::Line,
            Cause::WrongStart | Cause::WrongLength | Cause::WrongCheck | Cause::WrongEnd => {
                Layer::Frame
            }
            Cause::WrongSender
            | Cause::OtherAddress
            | Cause::WrongControl
            | Cause::ReaderUnset
            | Cause::NothingStored
            | Cause::NoExchange => Layer::Link,
            _ => Layer::User,
        }
    }
}

// A refusal: its cause and its place, which counts symbols from 0 and is 0 where a cause has none.
#[derive(Clone, Copy, PartialEq, Eq, Debug)]
pub struct Fault {
    pub cause: Cause,
    pub place: usize,
}

impl Fault {
    // The fault of a cause at a place.
    pub fn at(cause: Cause, place: usize) -> Fault
        ensures { result ≡ fault cause place }
    {
        Fault { cause, place }
    }

    // The fault of a cause that has no place.
    pub fn of(cause: Cause) -> Fault
        ensures { result ≡ fault cause 0 }
    {
        Fault::at(cause, 0)
    }

    pub fn number(self) -> u8
        ensures { result ≡ number_of self.cause }
    {
        self.cause.number()
    }

    pub fn layer(self) -> Layer
        ensures { result ≡ layer_of self.cause }
    {
        self.cause.layer()
    }
}

// The closed lists of the link, and the records that its queues hold.
ghost use Rattle.rules.specs.Concentrator.{asking, request_of};
ghost use Rattle.rules.specs.Functions.{Decodes, class_of, function_asked, function_code, function_of, reply_code, reply_of, service_of};
ghost use Rattle.rules.specs.Records.{outcome_of};
ghost use Rattle.std.specs.Prelude.{◌≡◌};

use crate::message::Message;
use fault::{Cause, Fault};

// A number that stands for nothing in its list.
#[derive(Clone, Copy, PartialEq, Eq, Debug)]
pub struct UnknownCode(pub u8);

// What the concentrator asks of a reader, by the code of its frame.
#[derive(Clone, Copy, PartialEq, Eq, Debug)]
pub enum Function {
    Reset = 0,
    Send = 3,
    Status = 9,
    PollFirst = 10,
    PollSecond = 11,
}

impl From<Function> for u8 {
    ghost from_gives = { λ function r. r ≡ function_code function };

    fn from(function: Function) -> u8 {
        function as u8
    }
}

impl TryFrom<u8> for Function {
    type Error = UnknownCode;

    ghost try_from_gives = { Decodes function_of };

    fn try_from(code: u8) -> Result<Function, UnknownCode> {
        match code {
            0 => Ok(Function::Reset),
            3 => Ok(Function::Send),
            9 => Ok(Function::Status),
            10 => Ok(Function::PollFirst),
            11 => Ok(Function::PollSecond),
            _ => Err(UnknownCode(code)),
        }
    }
}

impl From<Request> for Function {
    ghost from_gives = { λ request r. r ≡ function_asked request };

    fn from(request: Request) -> Function {
        match request {
            Request::Reset => Function::Reset,
            Request::Status => Function::Status,
            Request::Send(_) => Function::Send,
            Request::Poll(Class::First) => Function::PollFirst,
            Request::Poll(Class::Second) => Function::PollSecond,
        }
    }
}

// What a reader answers, by the code of its frame. Code 14 is heard and never sent.
#[derive(Clone, Copy, PartialEq, Eq, Debug)]
pub enum Reply {
    Ack = 0,
    Busy = 1,
    Data = 8,
    NoData = 9,
    Status = 11,
    NotFunctioning = 14,
    NotImplemented = 15,
}

impl From<Reply> for u8 {
    ghost from_gives = { λ reply r. r ≡ reply_code reply };

    fn from(reply: Reply) -> u8 {
        reply as u8
    }
}

impl TryFrom<u8> for Reply {
    type Error = UnknownCode;

    ghost try_from_gives = { Decodes reply_of };

    fn try_from(code: u8) -> Result<Reply, UnknownCode> {
        match code {
            0 => Ok(Reply::Ack),
            1 => Ok(Reply::Busy),
            8 => Ok(Reply::Data),
            9 => Ok(Reply::NoData),
            11 => Ok(Reply::Status),
            14 => Ok(Reply::NotFunctioning),
            15 => Ok(Reply::NotImplemented),
            _ => Err(UnknownCode(code)),
        }
    }
}

// The two classes of a reader's messages; class 1 is the urgent one.
#[derive(Clone, Copy, PartialEq, Eq, Debug)]
pub enum Class {
    First = 1,
    Second = 2,
}

impl TryFrom<u8> for Class {
    type Error = UnknownCode;

    ghost try_from_gives = { Decodes class_of };

    fn try_from(number: u8) -> Result<Class, UnknownCode> {
        match number {
            1 => Ok(Class::First),
            2 => Ok(Class::Second),
            _ => Err(UnknownCode(number)),
        }
    }
}

// What became of the message that a reader had handed out: the concentrator has it, or may have it.
#[derive(Clone, Copy, PartialEq, Eq, Debug)]
pub enum Mark {
    Settled,
    Doubtful,
}

// What a user of the concentrator asks for.
#[derive(Clone, Copy, PartialEq, Eq, Debug)]
pub enum Request {
    Reset,
    Status,
    Send(Message),
    Poll(Class),
}

// What a user of the concentrator asks of a station, before its octets or its class are looked at.
#[derive(Clone, Copy, PartialEq, Eq, Debug)]
pub enum UserRequest<'a> {
    Reset,
    Status,
    Send(&'a [u8]),
    // The class as a number, since a wrong one is refused here: 16.
    Poll(u8),
}

impl UserRequest<'_> {
    // 15 unless a send has 1 to 64 octets, 16 unless a poll is of class 1 or 2. A method and no TryFrom, so that it reads
    // `asked.request()?` where it is asked. Inlined, as `open` of the concentrator is: a request has room for a message, and
    // would be copied with it.
    #[inline(always)]
    pub fn request(self) -> Result<Request, Fault>
        ensures { result ≡ request_of (asking self.entry) }
    {
        match self {
            UserRequest::Reset => Ok(Request::Reset),
            UserRequest::Status => Ok(Request::Status),
            UserRequest::Send(octets) => Ok(Request::Send(Message::new(octets)?)),
            UserRequest::Poll(number) => {
                let class = Class::try_from(number).map_err(|_| Fault::of(Cause::BadClass))?;
                Ok(Request::Poll(class))
            }
        }
    }
}

// The kind of a request.
#[derive(Clone, Copy, PartialEq, Eq, Debug)]
pub enum Service {
    Reset,
    Status,
    Send,
    Poll,
}

impl From<Request> for Service {
    ghost from_gives = { λ request r. r ≡ service_of request };

    fn from(request: Request) -> Service {
        match request {
            Request::Reset => Service::Reset,
            Request::Status => Service::Status,
            Request::Send(_) => Service::Send,
            Request::Poll(_) => Service::Poll,
        }
    }
}

// How an exchange ends, with the message that a data answer brought.
#[derive(Clone, Copy, PartialEq, Eq, Debug)]
pub enum Ending {
    Done,
    Confirmed,
    Busy,
    Brought(Message),
    Empty,
    Unserved,
    Doubted,
}

// How an exchange ended, as it is reported.
#[derive(Clone, Copy, PartialEq, Eq, Debug)]
pub enum Outcome {
    Done,
    Confirmed,
    Busy,
    Data,
    NoData,
    NotServed,
    Doubtful,
}

impl From<Ending> for Outcome {
    ghost from_gives = { λ ending r. r ≡ outcome_of ending };

    fn from(ending: Ending) -> Outcome {
        match ending {
            Ending::Done => Outcome::Done,
            Ending::Confirmed => Outcome::Confirmed,
            Ending::Busy => Outcome::Busy,
            Ending::Brought(_) => Outcome::Data,
            Ending::Empty => Outcome::NoData,
            Ending::Unserved => Outcome::NotServed,
            Ending::Doubted => Outcome::Doubtful,
        }
    }
}

// A message that a poll brought, and the station that it came from.
#[derive(Clone, Copy, PartialEq, Eq, Debug)]
pub struct Arrival {
    pub station: u8,
    pub message: Message,
}

impl Arrival {
    // A constant, since it fills arrays of slots.
    pub const BLANK: Arrival = Arrival {
        station: 0,
        message: Message::BLANK,
    };
}

// ACD and DFC of an answer, both false where none was heard.
#[derive(Clone, Copy, Default, PartialEq, Eq, Debug)]
pub struct Flags {
    pub acd: bool,
    pub dfc: bool,
}

// What an ended exchange leaves behind.
#[derive(Clone, Copy, PartialEq, Eq, Debug)]
pub struct Report {
    pub station: u8,
    pub service: Service,
    pub outcome: Outcome,
    pub flags: Flags,
    pub transmissions: u16,
}

impl Report {
    // A constant, since it fills arrays of slots.
    pub const BLANK: Report = Report {
        station: 0,
        service: Service::Reset,
        outcome: Outcome::Done,
        flags: Flags {
            acd: false,
            dfc: false,
        },
        transmissions: 0,
    };
}

// The exchange that is open at the concentrator: its request, with the frame count bit of its frame, and how often
// that frame was sent.
#[derive(Clone, Copy, PartialEq, Eq, Debug)]
pub struct Exchange {
    pub station: u8,
    pub request: Request,
    pub bit: bool,
    pub transmissions: u16,
}

// A reader to be made: its address and the slots of its queues.
#[derive(Clone, Copy, PartialEq, Eq, Debug)]
pub struct ReaderPlan {
    pub address: u8,
    pub class1: usize,
    pub class2: usize,
    pub inbox: usize,
}

// A concentrator to be made: how often it repeats a frame, and the slots of its queues.
#[derive(Clone, Copy, PartialEq, Eq, Debug)]
pub struct ConcentratorPlan {
    pub repetitions: u8,
    pub arrivals: usize,
    pub reports: usize,
}

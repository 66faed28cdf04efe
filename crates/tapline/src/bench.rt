// What stands on the bench, in the format of the time at which it was put there.
use crate::failure::Failure;
use frame::Format;
use ft3::Ft3;
use ft12::Ft12;
use std::alloc::Global;
use std::fmt;
use std::str::FromStr;

// One end alone, or a whole site: made by a plan, and called as lines ask.
pub trait Bench: Drop {
    type Plan;

    type Call;

    // Asks the library about the plan before it takes memory.
    fn make(heap: Global, plan: Self::Plan) -> Result<Self, Failure<'static>>
    where
        Self: Sized;

    // Carries out a call, with a buffer for what it writes, and writes its answer. The two are fields of one session, lent
    // side by side.
    fn call(
        &mut self,
        call: Self::Call,
        buffer: &mut [u16],
        answer: &mut String,
    ) -> Result<(), Failure<'static>>;
}

#[derive(Clone, Copy)]
pub enum FormatName {
    Ft12,
    Ft3,
}

impl FormatName {
    // The symbols of the format's longest frame.
    pub fn longest(self) -> usize {
        match self {
            FormatName::Ft12 => Ft12::LONGEST,
            FormatName::Ft3 => Ft3::LONGEST,
        }
    }
}

impl fmt::Display for FormatName {
    fn fmt<W: fmt::Write>(&self, f: &mut fmt::Formatter<W>) -> fmt::Result {
        f.write_str(match self {
            FormatName::Ft12 => "ft12",
            FormatName::Ft3 => "ft3",
        })
    }
}

// There is no format of this name.
#[derive(Clone, Copy)]
pub struct UnknownFormat;

impl FromStr for FormatName {
    type Err = UnknownFormat;

    fn from_str(name: &str) -> Result<FormatName, UnknownFormat> {
        match name {
            "ft12" => Ok(FormatName::Ft12),
            "ft3" => Ok(FormatName::Ft3),
            _ => Err(UnknownFormat),
        }
    }
}

#[derive(Drop)]
pub enum ByFormat<A, B> {
    Ft12(A),
    Ft3(B),
}

impl<A: Bench, B: Bench<Plan = A::Plan, Call = A::Call>> ByFormat<A, B> {
    pub fn make(
        heap: Global,
        format: FormatName,
        plan: A::Plan,
    ) -> Result<ByFormat<A, B>, Failure<'static>> {
        Ok(match format {
            FormatName::Ft12 => ByFormat::Ft12(A::make(heap, plan)?),
            FormatName::Ft3 => ByFormat::Ft3(B::make(heap, plan)?),
        })
    }

    pub fn call(
        &mut self,
        call: A::Call,
        buffer: &mut [u16],
        answer: &mut String,
    ) -> Result<(), Failure<'static>> {
        match self {
            ByFormat::Ft12(bench) => bench.call(call, buffer, answer),
            ByFormat::Ft3(bench) => bench.call(call, buffer, answer),
        }
    }
}

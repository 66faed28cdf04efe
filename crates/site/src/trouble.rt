// What can go wrong with a call of a site, and what two of them answer.
ghost use Rattle.site.specs.Troubles.{declined_as, undone_as};
ghost use Rattle.site.specs.declared.trouble.Trouble.TheVariants as trouble;
ghost use Rattle.std.specs.Prelude.{◌≡◌};

use damage::DamageError;
use fault::Fault;
use rules::records::Mark;
use station::Refusal;
use std::alloc::AllocError;
use std::fmt;

// A call that the library refused was made all the same; the others were not, and changed nothing.
#[derive(Clone, Copy)]
pub enum Trouble {
    Refused(Fault),
    // The burst is not on the way to that end, or there is no such burst.
    NotOnWay,
    // A time-out waits for a silent line.
    NotSilent,
    // The line may not do this damage to that burst.
    Damaged(DamageError),
    // There is no reader at that address.
    NoReader,
    // There is a reader at that address already.
    Joined,
    // No reader joins after the first call, or a full line.
    Closed,
    OutOfMemory,
}

impl fmt::Display for Trouble {
    fn fmt<W: fmt::Write>(&self, f: &mut fmt::Formatter<W>) -> fmt::Result {
        match self {
            Trouble::Refused(fault) => write!(f, "{fault}"),
            Trouble::NotOnWay => f.write_str("not on the way to that end"),
            Trouble::NotSilent => f.write_str("the line is not silent"),
            Trouble::Damaged(error) => write!(f, "{error}"),
            Trouble::NoReader => f.write_str("no such reader on the site"),
            Trouble::Joined => f.write_str("there is a reader at that address"),
            Trouble::Closed => f.write_str("readers join before the first call"),
            Trouble::OutOfMemory => f.write_str("out of memory"),
        }
    }
}

impl From<Fault> for Trouble {
    ghost from_gives = { λ f t. t ≡ trouble.Refused f };

    fn from(fault: Fault) -> Self {
        Self::Refused(fault)
    }
}

impl From<AllocError> for Trouble {
    ghost from_gives = { λ _ t. t ≡ trouble.OutOfMemory };

    fn from(_error: AllocError) -> Self {
        Self::OutOfMemory
    }
}

impl From<Refusal> for Trouble {
    ghost from_gives = { λ r t. t ≡ declined_as r };

    fn from(refusal: Refusal) -> Self {
        match refusal {
            Refusal::Fault(fault) => Self::Refused(fault),
            Refusal::Memory => Self::OutOfMemory,
        }
    }
}

impl From<DamageError> for Trouble {
    ghost from_gives = { λ e t. t ≡ undone_as e };

    fn from(error: DamageError) -> Self {
        match error {
            DamageError::OutOfMemory => Self::OutOfMemory,
            _ => Self::Damaged(error),
        }
    }
}

// What a time-out came to: the frame went out again as this burst, or the exchange ended in doubt. Not an Option:
// neither of the two is an absence.
#[derive(Clone, Copy)]
pub enum TimedOut {
    Repeated(usize),
    Doubted,
}

// What a reader did with a burst that it heard: it answered by this burst, may have taken a message in, and may have
// marked the one that was out.
#[derive(Clone, Copy)]
pub struct Answer {
    pub burst: usize,
    pub taken: bool,
    pub mark: Option<Mark>,
}

// What a line comes to in place of a result.
use crate::mistake::Mistake;
use damage::DamageError;
use fault::Fault;
use site::Trouble;
use std::alloc::{AllocError, AllocFailed};

#[derive(Clone, Copy)]
pub enum Failure<'a> {
    // the library said no to the call
    Refused(Fault),
    // the line's own limits forbid the call
    NotAllowed(Trouble),
    // the line is no command, or asks for what cannot be
    Mistake(Mistake<'a>),
}

impl<'a> From<Mistake<'a>> for Failure<'a> {
    fn from(mistake: Mistake<'a>) -> Self {
        Failure::Mistake(mistake)
    }
}

impl From<Fault> for Failure<'_> {
    fn from(fault: Fault) -> Self {
        Failure::Refused(fault)
    }
}

impl From<Trouble> for Failure<'_> {
    fn from(trouble: Trouble) -> Self {
        match trouble {
            Trouble::Refused(fault) => Failure::Refused(fault),
            Trouble::NotOnWay | Trouble::NotSilent | Trouble::Damaged(DamageError::BeyondGuard) => {
                Failure::NotAllowed(trouble)
            }
            _ => Failure::Mistake(Mistake::Site(trouble)),
        }
    }
}

impl From<AllocError> for Failure<'_> {
    fn from(error: AllocError) -> Self {
        Failure::Mistake(error.into())
    }
}

impl<T: Drop> From<AllocFailed<T>> for Failure<'_> {
    fn from(refused: AllocFailed<T>) -> Self {
        Failure::Mistake(refused.into())
    }
}

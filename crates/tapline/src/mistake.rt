// Why a line of the console is no command.
use console::NumberFault;
use site::Trouble;
use std::alloc::{AllocError, AllocFailed};
use std::fmt;

// The bytes of a word that a message shows.
const SHOWN: usize = 40;

#[derive(Clone, Copy)]
pub enum Mistake<'a> {
    UnknownCommand,
    // a word too few, too many, or one that this command does not have
    Usage(&'a str),
    Number(NumberFault, &'a [u8]),
    LongList,
    // a call of a bench that there is not
    NoBench(&'static str),
    NoSite,
    // what this site cannot do
    Site(Trouble),
    OutOfMemory,
}

impl From<AllocError> for Mistake<'_> {
    fn from(_error: AllocError) -> Self {
        Mistake::OutOfMemory
    }
}

impl<T: Drop> From<AllocFailed<T>> for Mistake<'_> {
    fn from(_refused: AllocFailed<T>) -> Self {
        Mistake::OutOfMemory
    }
}

impl fmt::Display for Mistake<'_> {
    fn fmt<W: fmt::Write>(&self, f: &mut fmt::Formatter<W>) -> fmt::Result {
        match self {
            Mistake::UnknownCommand => f.write_str("unknown command"),
            Mistake::Usage(command) => write!(f, "usage of {command}"),
            Mistake::Number(fault, word) => {
                write!(f, "{fault}: ")?;
                write_word(f, word)
            }
            Mistake::LongList => f.write_str("more than 4096 octets or symbols"),
            Mistake::NoBench(end) => write!(f, "no {end} on the bench"),
            Mistake::NoSite => f.write_str("no site"),
            Mistake::Site(trouble) => write!(f, "{trouble}"),
            Mistake::OutOfMemory => f.write_str("out of memory"),
        }
    }
}

// A word as it can be shown on one line: its first bytes, with a dot for what is no ASCII letter, digit or sign.
fn write_word<W: fmt::Write>(f: &mut fmt::Formatter<W>, word: &[u8]) -> fmt::Result {
    word.iter().take(SHOWN).try_for_each(|byte| {
        f.write_char(if byte.is_ascii_graphic() {
            char::from(*byte)
        } else {
            '.'
        })
    })
}

// The words of a command, taken one by one.
use crate::mistake::Mistake;
use console::{NumberFault, Radix, Words, parse_number};
use damage::Flip;
use frame::Control;
use std::alloc::Global;
use std::str::from_utf8;

// The most octets or symbols of a line.
const LONGEST_LIST: usize = 4096;

// The greatest decimal number of the language.
const MOST: u16 = 65535;

// What a list on a line has: octets or symbols.
pub trait Unit: Drop {
    fn parse(word: &[u8]) -> Result<Self, NumberFault>
    where
        Self: Sized;
}

impl Unit for u8 {
    fn parse(word: &[u8]) -> Result<u8, NumberFault> {
        let value = parse_number(word, Radix::Hexadecimal, 0xff)?;
        Ok(value as u8)
    }
}

impl Unit for u16 {
    fn parse(word: &[u8]) -> Result<u16, NumberFault> {
        parse_number(word, Radix::Hexadecimal, 0xffff)
    }
}

// A flip is the place of a symbol and a bit of it, as 3:7.
impl Unit for Flip {
    fn parse(word: &[u8]) -> Result<Flip, NumberFault> {
        let mut parts = word.splitn(2, |byte| *byte == b':');
        let (Some(place), Some(bit)) = (parts.next(), parts.next()) else {
            return Err(NumberFault::NoNumber);
        };
        Ok(Flip {
            place: usize::from(parse_number(place, Radix::Decimal, MOST)?),
            bit: u32::from(parse_number(bit, Radix::Decimal, MOST)?),
        })
    }
}

#[derive(Clone, Copy)]
pub struct Arguments<'a> {
    // where lists are kept
    heap: Global,
    // the command, for the message to those who write it otherwise
    command: &'a str,
    words: Words<'a>,
}

impl<'a> Arguments<'a> {
    pub fn new(heap: Global, command: &'a str, words: Words<'a>) -> Arguments<'a> {
        Arguments {
            heap,
            command,
            words,
        }
    }

    pub fn usage(&self) -> Mistake<'a> {
        Mistake::Usage(self.command)
    }

    fn word(&mut self) -> Result<&'a [u8], Mistake<'a>> {
        self.words.next().ok_or(self.usage())
    }

    // A word that is to be one of the language's own; what is no text is none of them.
    pub fn keyword(&mut self) -> Result<&'a str, Mistake<'a>> {
        let word = self.word()?;
        from_utf8(word).map_err(|_| self.usage())
    }

    // Whether this is the next word, which is then taken. A bool: the caller has the word already.
    pub fn take_keyword(&mut self, keyword: &str) -> bool {
        let mut rest = self.words;
        let taken = rest.next() == Some(keyword.as_bytes());
        if taken {
            self.words = rest;
        }
        taken
    }

    fn number(&mut self) -> Result<u16, Mistake<'a>> {
        let word = self.word()?;
        parse_number(word, Radix::Decimal, MOST).map_err(|fault| Mistake::Number(fault, word))
    }

    // A number of slots, places or symbols.
    pub fn count(&mut self) -> Result<usize, Mistake<'a>> {
        Ok(usize::from(self.number()?))
    }

    // A number that the library has as an octet: all that are over an octet are over every one that it takes.
    pub fn capped(&mut self) -> Result<u8, Mistake<'a>> {
        Ok(u8::try_from(self.number()?).unwrap_or(u8::MAX))
    }

    pub fn octet(&mut self) -> Result<u8, Mistake<'a>> {
        let word = self.word()?;
        parse_unit(word)
    }

    pub fn control(&mut self) -> Result<Control, Mistake<'a>> {
        let octet = self.octet()?;
        Ok(Control { octet })
    }

    pub fn is_empty(&self) -> bool {
        let mut rest = self.words;
        rest.next().is_none()
    }

    pub fn end(&self) -> Result<(), Mistake<'a>> {
        if self.is_empty() {
            Ok(())
        } else {
            Err(self.usage())
        }
    }

    // An empty list; no word may be left.
    pub fn empty_list<T: Unit>(self) -> Result<Vec<T>, Mistake<'a>> {
        self.end()?;
        Ok(Vec::new(self.heap))
    }

    // All the words that are left, as octets or symbols.
    pub fn list<T: Unit>(self) -> Result<Vec<T>, Mistake<'a>> {
        let mut values = Vec::new(self.heap);
        for word in self.words {
            if values.len() == LONGEST_LIST {
                return Err(Mistake::LongList);
            }
            values.push(parse_unit(word)?)?;
        }
        Ok(values)
    }
}

fn parse_unit<'a, T: Unit>(word: &'a [u8]) -> Result<T, Mistake<'a>> {
    T::parse(word).map_err(|fault| Mistake::Number(fault, word))
}

// Numbers as the console writes them: digits and nothing else, with any leading zeros.
ghost use Rattle.console.specs.Numbers.{base_of, digit_of, limited, number_of};
ghost use Rattle.std.specs.Prelude.{◌≡◌, Some};

use std::fmt;

// What the digits of a number count by.
#[derive(Clone, Copy, PartialEq, Eq, Debug)]
pub enum Radix {
    Decimal,
    Hexadecimal,
}

// Why a word is no number of its type.
#[derive(Clone, Copy, PartialEq, Eq, Debug)]
pub enum NumberFault {
    NoNumber,
    OutOfRange,
}

impl fmt::Display for NumberFault {
    fn fmt<W: fmt::Write>(&self, f: &mut fmt::Formatter<W>) -> fmt::Result {
        f.write_str(match self {
            NumberFault::NoNumber => "not a number",
            NumberFault::OutOfRange => "out of range",
        })
    }
}

// One more than every number of the language: where the value of long digits stays.
const BEYOND: u32 = 65536;

impl Radix {
    fn base(self) -> u32
        ensures { result ≡ base_of self }
    {
        match self {
            Radix::Decimal => 10,
            Radix::Hexadecimal => 16,
        }
    }

    fn digit(self, byte: u8) -> Option<u32>
        ensures { result ≡ digit_of self byte }
    {
        char::from(byte).to_digit(self.base())
    }
}

// The number that a word writes, if that is at most the given one.
pub fn parse_number(word: &[u8], radix: Radix, most: u16) -> Result<u16, NumberFault>
    ensures { result ≡ number_of radix most word.now }
{
    if word.is_empty() {
        return Err(NumberFault::NoNumber);
    }
    // A loop and no fold, since the bound of the value is carried from digit to digit.
    let mut value = 0;
    for byte in word {
        let digit = radix.digit(*byte).ok_or(NumberFault::NoNumber)?;
        value = (value * radix.base() + digit).min(BEYOND);
    }
    limit(value, most)
}

fn limit(value: u32, most: u16) -> Result<u16, NumberFault>
    ensures { result ≡ limited most (Some value) }
{
    if value > u32::from(most) {
        return Err(NumberFault::OutOfRange);
    }
    Ok(value as u16)
}

// FT1.2: symbols of 11 bits with a parity bit, frames with a check octet.
#![tactic(auto)]

mod reading;
mod symbol;
mod writing;

ghost use Rattle.ft12.specs.Cases.{Cases};
ghost use Rattle.ft12.specs.Frames.{check_of, frame_of};
ghost use Rattle.ft12.specs.Sharp.{Unseen};
ghost use Rattle.ft12.specs.Verdicts.{verdict_of};
ghost use Rattle.std.specs.Prelude.{◌≡◌};
ghost use Rattle.ft12.specs.Sizes;
ghost use Rattle.ft12.specs.Accepted.{accepted};
ghost use Rattle.ft12.specs.Exact;
ghost use Rattle.ft12.specs.Guard;

use fault::{Cause, Fault};
use frame::{Content, Format, UserOctets, check_buffer, encode_at, open_burst};
use reading::read_octets;
use writing::write_variable;

// The first octet of each kind of frame.
const SINGLE: u8 = 0xE5;

const FIXED: u8 = 0x10;

const VARIABLE: u8 = 0x68;

// The last octet of a fixed and a variable frame.
const END: u8 = 0x16;

// The format FT1.2. Its functions stand alone, so that nothing holds a value of it.
pub struct Ft12;

// The check octet of the octets that it covers: their sum modulo 256.
fn check_octet(octets: &[u8]) -> u8
    ensures { result ≡ check_of octets.now }
{
    octets
        .iter()
        .fold(0, |sum: u8, octet| sum.wrapping_add(*octet))
}

impl Format for Ft12 {
    const WIDTH: u32 = 11;

    const LONGEST: usize = 72;

    const GUARD: u32 = 3;

    ghost WIDTH = { 11 };

    ghost LONGEST = { 72 };

    ghost GUARD = { 3 };

    ghost frame = { frame_of };

    ghost verdict = { verdict_of };

    ghost size = { Sizes.size };

    ghost exact = { (accepted, Exact.exact) };

    ghost guarded = { Guard.guarded };

    fn write(content: Content, user: &UserOctets, buffer: &mut [u16]) -> Result<usize, Fault> {
        check_buffer(buffer, Self::LONGEST)?;
        match content {
            Content::Single => Ok(encode_at::<Ft12>(buffer, 0, &[SINGLE])),
            Content::Fixed { control, address } => {
                let check = check_octet(&[control.octet, address]);
                Ok(encode_at::<Ft12>(buffer, 0, &[FIXED, control.octet, address, check, END]))
            }
            Content::Variable {
                control,
                address,
                count: count @ 1..=64,
            } => Ok(write_variable(control, address, &user[..count as usize], buffer)),
            Content::Variable { .. } => Err(Fault::of(Cause::BadLength)),
        }
    }

    // The same two lines in each format: an array of `F::LONGEST` places cannot be made in generic code.
    fn read(burst: &[u16], user: &mut UserOctets) -> Result<Content, Fault> {
        let mut octets = [0; Self::LONGEST];
        open_burst::<Ft12, { Self::LONGEST }>(burst, &mut octets)?;
        read_octets(&octets[..burst.len()], user)
    }
}

// No guard over 3 would hold: some four inverted bits pass unseen.
pub fn guard_is_sharp()
    ensures { Unseen 4 }
{}

// The worked cases hold of the definitions that write and read cite.
pub fn worked_cases()
    ensures { Cases 72 }
{}

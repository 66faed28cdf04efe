// FT3, in our profile for the radio: symbols are octets, and each block of a frame is followed by its check.
#![tactic(auto)]

mod reading;
mod writing;

ghost use Rattle.std.specs.Prelude.{◌%◌};
ghost use Rattle.ft3.specs.Cases.{Cases};
ghost use Rattle.ft3.specs.Frames.{frame_of};
ghost use Rattle.ft3.specs.Verdicts.{is_sound, verdict_of};
ghost use Rattle.ft3.specs.Laws as laws;
ghost use Rattle.ft3.specs.Exact;
ghost use Rattle.ft3.specs.Guard;

use fault::{Cause, Fault};
use frame::{
    Alphabet, Content, Format, SymbolCode, UserOctets, check_buffer, encode_at, open_burst,
};
use reading::read_octets;
use writing::{write_header, write_variable};

// The two octets of a single frame.
const SINGLE: u8 = 0x12;

const SINGLE_PARTNER: u8 = 0x3D;

// The first two octets of every other frame.
const HEADED: u8 = 0x05;

const HEADED_PARTNER: u8 = 0x64;

// Those two and the header block.
const HEADER: usize = 7;

// The most octets of a block after the header, those of its check, and both.
const BLOCK: usize = 16;

const CHECK: usize = 2;

const SEALED: usize = BLOCK + CHECK;

// The format FT3. Its functions stand alone, so that nothing holds a value of it.
pub struct Ft3;

impl Alphabet for Ft3 {
    ghost sound = { is_sound };

    // No bit above the width.
    fn is_sound(symbol: u16) -> bool {
        symbol >> Ft3::WIDTH == 0
    }
}

impl SymbolCode for Ft3 {
    ghost octet_in = { λ symbol. symbol % 256 };

    ghost symbol_for = { λ octet. octet };

    fn decode(symbol: u16) -> u8 {
        (symbol % 256) as u8
    }

    fn encode(octet: u8) -> u16 {
        u16::from(octet)
    }
}

impl Format for Ft3 {
    const WIDTH: u32 = 8;

    const LONGEST: usize = 79;

    const GUARD: u32 = 3;

    ghost WIDTH = { 8 };

    ghost LONGEST = { 79 };

    ghost GUARD = { 3 };

    ghost frame = { frame_of };

    ghost verdict = { verdict_of };

    ghost size = { laws.size };

    ghost exact = { (laws.accepted, Exact.exact) };

    ghost guarded = { Guard.guarded };

    fn write(content: Content, user: &UserOctets, buffer: &mut [u16]) -> Result<usize, Fault> {
        check_buffer(buffer, Self::LONGEST)?;
        match content {
            Content::Single => Ok(encode_at::<Ft3>(buffer, 0, &[SINGLE, SINGLE_PARTNER])),
            Content::Fixed { control, address } => Ok(write_header(0, control, address, buffer)),
            Content::Variable {
                control,
                address,
                count: count @ 1..=64,
            } => Ok(write_variable(control, address, &user[..count as usize], buffer)),
            Content::Variable { .. } => Err(Fault::of(Cause::BadLength)),
        }
    }

    fn read(burst: &[u16], user: &mut UserOctets) -> Result<Content, Fault> {
        let mut octets = [0; Self::LONGEST];
        open_burst::<Ft3, { Self::LONGEST }>(burst, &mut octets)?;
        read_octets(&octets[..burst.len()], user)
    }
}

// The worked cases hold of the definitions that write and read cite.
pub fn worked_cases()
    ensures { Cases 79 }
{}

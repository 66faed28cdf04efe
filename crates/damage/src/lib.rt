// What a line does to a burst on the way to one end: it leaves off symbols at the end, and inverts bits of the others.
#![tactic(auto)]

ghost use Rattle.std.specs.Prelude.{◌≡◌, ◌<◌, true, length, IfOk, if◌then◌else◌, Some, None, Ok, Err};
ghost use Rattle.damage.specs.Damages.{Answers, all_within, differs, flipped, hearing, inverted, is_within, rest, shortens, twice};
ghost use Rattle.damage.specs.declared.DamageError.TheVariants as error;
ghost use Rattle.frame.specs.Damage.{Damaged, Fits};
ghost use Rattle.std.specs.Option.{option_map};

use frame::Format;
use std::alloc::{AllocError, Global};
use std::fmt;

// One inverted bit. Symbols of a burst and bits of a symbol count from 0.
#[derive(Clone, Copy)]
pub struct Flip {
    pub place: usize,
    pub bit: u32,
}

// Only the first symbols, if there is a cut, and the bits that are inverted in them.
#[derive(Drop)]
pub struct Damage {
    pub cut: Option<usize>,
    pub flips: Vec<Flip>,
}

// Why nothing is heard of a burst with some damage.
#[derive(Clone, Copy, PartialEq, Eq, Debug)]
pub enum DamageError {
    // The cut leaves off nothing.
    NothingCut,
    // A flip is of no symbol of the rest, or of no bit of a symbol.
    FlipOutside,
    // A flip is given twice.
    FlipTwice,
    // There are more flips than the format is sure to see.
    BeyondGuard,
    OutOfMemory,
}

impl fmt::Display for DamageError {
    fn fmt<W: fmt::Write>(&self, f: &mut fmt::Formatter<W>) -> fmt::Result {
        f.write_str(match self {
            DamageError::NothingCut => "the cut leaves off nothing",
            DamageError::FlipOutside => "a flip outside the rest or the width",
            DamageError::FlipTwice => "a flip is given twice",
            DamageError::BeyondGuard => "beyond the guard",
            DamageError::OutOfMemory => "out of memory",
        })
    }
}

impl From<AllocError> for DamageError {
    ghost from_gives = { λ _ e. e ≡ error.OutOfMemory };

    fn from(_error: AllocError) -> DamageError {
        Self::OutOfMemory
    }
}

// What is heard of a burst.
pub fn heard<F: Format>(
    heap: Global,
    symbols: &[u16],
    damage: &Damage,
) -> Result<Vec<u16>, DamageError>
    ensures answer { Answers result (hearing F.WIDTH F.GUARD damage.now.cut damage.now.flips.items symbols.now) }
    ensures damaged { IfOk result (λ v. Fits F.WIDTH symbols.now → Damaged F.WIDTH F.GUARD symbols.now v.items) }
{
    let flips = damage.flips.as_slice();
    let rest = cut_short(symbols, damage.cut).ok_or(DamageError::NothingCut)?;
    if !are_within(flips, rest.len(), F::WIDTH) {
        return Err(DamageError::FlipOutside);
    }
    let mut heard = Vec::from_slice(heap, rest)?;
    invert_all(&mut heard, rest, flips)?;
    if flips.len() > F::GUARD as usize {
        return Err(DamageError::BeyondGuard);
    }
    Ok(heard)
}

// What the cut leaves, if it leaves off something.
fn cut_short(symbols: &[u16], cut: Option<usize>) -> Option<&[u16]>
    ensures { option_map (λ x. x.now) result ≡ (if shortens cut symbols.now then Some (rest cut symbols.now) else None) }
{
    match cut {
        Some(n) if n < symbols.len() => Some(&symbols[0..n]),
        Some(_) => None,
        None => Some(symbols),
    }
}

// A symbol lies in 16 bits.
fn is_within(flip: Flip, count: usize, width: u32) -> bool
    ensures { result ≡ is_within count width flip }
{
    flip.place < count && flip.bit < width && flip.bit < 16
}

fn are_within(flips: &[Flip], count: usize, width: u32) -> bool
    ensures { result ≡ all_within count width flips.now }
{
    flips.iter().all(|flip| is_within(*flip, count, width))
}

// Inverts a bit, if it is still as it was sent.
fn invert(heard: &mut [u16], sent: &[u16], flip: Flip) -> Result<(), DamageError>
    requires { (length heard.old ≡ length sent.now) × ((flip.place < length sent.now) × (flip.bit < 16)) }
    ensures answer { result ≡ (if differs flip heard.old sent.now then Err error.FlipTwice else Ok tt) }
    ensures after { heard.new ≡ (if differs flip heard.old sent.now then heard.old else inverted flip heard.old) }
{
    let place = flip.place;
    let differing = (heard[place] ^ sent[place]) >> flip.bit;
    if differing % 2 == 1 {
        return Err(DamageError::FlipTwice);
    }
    heard[place] ^= 1 << flip.bit;
    Ok(())
}

// Inverts the bit of each flip, and stops at one that was given before: its bit is not as it was sent any more.
fn invert_all(heard: &mut [u16], sent: &[u16], flips: &[Flip]) -> Result<(), DamageError>
    requires { (heard.old ≡ sent.now) × (all_within (length sent.now) 16 flips.now ≡ true) }
    ensures answer { result ≡ (if twice flips.now then Err error.FlipTwice else Ok tt) }
    ensures after { IfOk result (λ _. heard.new ≡ flipped flips.now sent.now) }
{
    for flip in flips {
        invert(heard, sent, *flip)?;
    }
    Ok(())
}

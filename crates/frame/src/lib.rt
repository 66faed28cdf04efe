// What a frame format is: contents, the control octet, and the interface that every format implements.
#![tactic(auto)]

mod control;

ghost use Rattle.std.specs.Prelude.{◌≡◌, ℕ, Bool, List, Result, MatchResult, ◌+◌, ◌≤◌, length, map, not, nat_lt, take};
ghost use Rattle.fault.specs.Causes.{fault};
ghost use Rattle.fault.specs.declared.Cause.TheVariants.{ShortBuffer};
ghost use Rattle.fault.specs.declared.Fault.{Fault};
ghost use Rattle.frame.specs.Contents.{Meaning, content_read, filled_record, meaning, padded};
ghost use Rattle.frame.specs.Laws.{GuardLaw, SizeLaw, VerdictLaw};
ghost use Rattle.frame.specs.Verdicts.{line_checked, must};
ghost use Rattle.frame.specs.Writing.{buffer_written, encoded_at, fitting, write_answer};

pub use control::Control;
use fault::{Cause, Fault};

// The most user octets of a frame.
pub const MOST_OCTETS: usize = 64;

// The user octets of a frame at the front, and zeros after them.
pub type UserOctets = [u8; MOST_OCTETS];

// What a frame carries. The count stands beside a record of 64 octets, since read is lent one (no heap), and write takes
// what read gives; a count of none or of more than 64 can be named, and write refuses it. Control and address stand in
// each kind by name: a pair of them would be one level more at every use.
#[derive(Clone, Copy, PartialEq, Eq, Debug)]
pub enum Content {
    Single,
    Fixed {
        control: Control,
        address: u8,
    },
    Variable {
        control: Control,
        address: u8,
        count: u8,
    },
}

// The symbols of a format: which numbers that a receiver hands over are whole.
pub trait Alphabet {
    ghost sound: { ℕ → Bool };

    fn is_sound(symbol: u16) -> bool
        ensures { result ≡ sound symbol };
}

// Which octet each symbol stands for, and which symbol each octet has. The check of a burst asks for no such code.
pub trait SymbolCode {
    ghost octet_in: { ℕ → ℕ };

    ghost symbol_for: { ℕ → ℕ };

    fn decode(symbol: u16) -> u8
        ensures { result ≡ octet_in symbol };

    fn encode(octet: u8) -> u16
        ensures { result ≡ symbol_for octet };
}

// A frame format. Its ghosts are its meaning, its laws what the two ends rest on; write and read stand alone, so
// that no end holds a value of a format.
pub trait Format {
    // the bits of a symbol
    const WIDTH: u32;

    ghost WIDTH: { ℕ };

    // the symbols of the longest frame
    const LONGEST: usize;

    ghost LONGEST: { ℕ };

    // how many inverted bits a receiver always sees
    const GUARD: u32;

    ghost GUARD: { ℕ };

    // the one list of symbols of a content
    ghost frame: { Meaning → List ℕ };

    // the one verdict on a burst
    ghost verdict: { List ℕ → Result Meaning Fault };

    // The frame of a content at the front of the buffer, and the count of its symbols.
    fn write(content: Content, user: &UserOctets, buffer: &mut [u16]) -> Result<usize, Fault>
        ensures answer { result ≡ write_answer LONGEST (frame (meaning content user.now)) content buffer.old }
        ensures written { buffer.new ≡ buffer_written LONGEST (frame (meaning content user.now)) content buffer.old };

    // The content of a burst, with its user octets in the record; or the fault, and the record untouched.
    fn read(burst: &[u16], user: &mut UserOctets) -> Result<Content, Fault>
        ensures answer { result ≡ content_read (verdict burst.now) }
        ensures filled { user.new ≡ filled_record (verdict burst.now) user.old };

    ghost size: { SizeLaw WIDTH LONGEST frame };

    ghost exact: { VerdictLaw frame verdict };

    ghost guarded: { GuardLaw WIDTH GUARD frame };
}

// A buffer has room for the longest frame, whatever is written.
pub fn check_buffer(buffer: &[u16], longest: usize) -> Result<(), Fault>
    ensures { result ≡ must (not (nat_lt (length buffer.now) longest)) (fault ShortBuffer 0) (Ok tt) }
{
    if buffer.len() < longest {
        return Err(Fault::of(Cause::ShortBuffer));
    }
    Ok(())
}

// The checks of every burst before its frame is looked at: empty, over the longest, and the first broken symbol.
pub fn check_burst<A: Alphabet>(burst: &[u16], longest: usize) -> Result<(), Fault>
    ensures { result ≡ line_checked A.sound longest burst.now }
{
    if burst.is_empty() {
        return Err(Fault::of(Cause::EmptyBurst));
    }
    if burst.len() > longest {
        return Err(Fault::of(Cause::LongBurst));
    }
    match burst.iter().position(|symbol| !A::is_sound(*symbol)) {
        Some(place) => Err(Fault::at(Cause::BrokenSymbol, place)),
        None => Ok(()),
    }
}

// Checks a burst, and puts its octets at the front of an array as long as the longest frame; a refusal leaves the array.
// Into the caller's array, since one handed back would be copied for each burst.
pub fn open_burst<A: Alphabet + SymbolCode, const LONGEST: usize>(
    burst: &[u16],
    octets: &mut [u8; LONGEST],
) -> Result<(), Fault>
    ensures answer { result ≡ line_checked A.sound LONGEST burst.now }
    ensures opened { MatchResult result (λ _. take (length burst.now) octets.new ≡ map A.octet_in burst.now) (λ _. octets.new ≡ octets.old) }
{
    check_burst::<A>(burst, LONGEST)?;
    // By index: through `iter_mut().zip(..)` a proof does not follow what is lent.
    for (i, symbol) in burst.iter().enumerate() {
        octets[i] = A::decode(*symbol);
    }
    Ok(())
}

// The symbols of as many of the octets as there is room for, put into the buffer from a place on; answers the place
// after them.
pub fn encode_at<A: SymbolCode>(buffer: &mut [u16], place: usize, octets: &[u8]) -> usize
    ensures end { result ≡ place + length (fitting place octets.now buffer.old) }
    ensures encoded { buffer.new ≡ encoded_at A.symbol_for place (fitting place octets.now buffer.old) buffer.old }
{
    let room = buffer.len().saturating_sub(place);
    let octets = &octets[..room.min(octets.len())];
    // By index: through `iter_mut().zip(..)` a proof does not follow what is lent.
    for (i, octet) in octets.iter().enumerate() {
        buffer[place + i] = A::encode(*octet);
    }
    place + octets.len()
}

// Octets at the front of the record and zeros after them; of more than 64 octets the first 64.
pub fn fill_record(user: &mut UserOctets, octets: &[u8])
    ensures { user.new ≡ padded octets.now }
{
    let count = MOST_OCTETS.min(octets.len());
    *user = [0; MOST_OCTETS];
    user[..count].copy_from_slice(&octets[..count]);
}

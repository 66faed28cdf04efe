// Reading: the octets of a burst whose symbols are sound, checked as a frame.
ghost use Rattle.std.specs.Prelude.{◌≡◌, ◌+◌, ◌≤◌, length};
ghost use Rattle.frame.specs.Contents.{content_read, filled_record};
ghost use Rattle.ft12.specs.Verdicts.{close_checked, fixed_verdict, octets_verdict, single_verdict, variable_verdict};

use crate::{END, FIXED, SINGLE, VARIABLE, check_octet};
use fault::{Cause, Fault};
use frame::{Content, Control, UserOctets, fill_record};

// The check octet at a place, which covers the octets before it from the first one on; and the end after it.
fn check_close(octets: &[u8], first: usize, place: usize) -> Result<(), Fault>
    requires { (first ≤ place) × (place + 2 ≤ length octets.now) }
    ensures { result ≡ close_checked octets.now first place }
{
    if octets[place] != check_octet(&octets[first..place]) {
        return Err(Fault::at(Cause::WrongCheck, place));
    }
    if octets[place + 1] != END {
        return Err(Fault::at(Cause::WrongEnd, place + 1));
    }
    Ok(())
}

// A single frame: its start alone.
fn read_single(octets: &[u8], user: &mut UserOctets) -> Result<Content, Fault>
    ensures answer { result ≡ content_read (single_verdict octets.now) }
    ensures filled { user.new ≡ filled_record (single_verdict octets.now) user.old }
{
    if octets.len() != 1 {
        return Err(Fault::at(Cause::WrongLength, octets.len()));
    }
    fill_record(user, &[]);
    Ok(Content::Single)
}

// A fixed frame: start, control octet, address, check octet, end.
fn read_fixed(octets: &[u8], user: &mut UserOctets) -> Result<Content, Fault>
    ensures answer { result ≡ content_read (fixed_verdict octets.now) }
    ensures filled { user.new ≡ filled_record (fixed_verdict octets.now) user.old }
{
    let [_, control, address, _, _] = *octets else {
        return Err(Fault::at(Cause::WrongLength, octets.len()));
    };
    check_close(octets, 1, 3)?;
    fill_record(user, &[]);
    Ok(Content::Fixed {
        control: Control { octet: control },
        address,
    })
}

// A variable frame: start, twice its length, start; control octet, address and user octets, which the length
// counts; check octet, end.
fn read_variable(octets: &[u8], user: &mut UserOctets) -> Result<Content, Fault>
    ensures answer { result ≡ content_read (variable_verdict octets.now) }
    ensures filled { user.new ≡ filled_record (variable_verdict octets.now) user.old }
{
    let [_, length, again, start, ..] = *octets else {
        return Err(Fault::at(Cause::WrongLength, octets.len()));
    };
    if !(3..=66).contains(&length) {
        return Err(Fault::at(Cause::WrongLength, 1));
    }
    if again != length {
        return Err(Fault::at(Cause::WrongLength, 2));
    }
    if start != VARIABLE {
        return Err(Fault::at(Cause::WrongLength, 3));
    }
    let length = length as usize;
    if octets.len() != length + 6 {
        return Err(Fault::at(Cause::WrongLength, octets.len()));
    }
    check_close(octets, 4, length + 4)?;
    fill_record(user, &octets[6..length + 4]);
    Ok(Content::Variable {
        control: Control { octet: octets[4] },
        address: octets[5],
        count: (length - 2) as u8,
    })
}

// The frame of some octets, by the first of them.
pub(crate) fn read_octets(octets: &[u8], user: &mut UserOctets) -> Result<Content, Fault>
    ensures answer { result ≡ content_read (octets_verdict octets.now) }
    ensures filled { user.new ≡ filled_record (octets_verdict octets.now) user.old }
{
    match *octets {
        [SINGLE, ..] => read_single(octets, user),
        [FIXED, ..] => read_fixed(octets, user),
        [VARIABLE, ..] => read_variable(octets, user),
        _ => Err(Fault::of(Cause::WrongStart)),
    }
}

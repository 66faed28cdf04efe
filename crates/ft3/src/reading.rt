// Reading: the octets of a burst whose symbols are sound, checked as a frame. The kinds of frame are FT1.2's, but each has
// checks of its own here.
ghost use Rattle.std.specs.Prelude.{◌≡◌, ◌≤◌, length};
ghost use Rattle.frame.specs.Contents.{content_read, filled_record};
ghost use Rattle.ft3.specs.Verdicts.{block_checked, fixed_verdict, headed_verdict, octets_verdict, partner_checked, single_verdict, variable_verdict};

use crate::{BLOCK, CHECK, HEADED, HEADED_PARTNER, HEADER, SEALED, SINGLE, SINGLE_PARTNER};
use crc::block_check;
use fault::{Cause, Fault};
use frame::{Content, Control, MOST_OCTETS, UserOctets, fill_record};

// The octet that has to follow the first.
fn check_partner(octets: &[u8], partner: u8) -> Result<(), Fault>
    ensures { result ≡ partner_checked partner octets.now }
{
    if octets.get(1) != Some(&partner) {
        return Err(Fault::at(Cause::WrongStart, 1));
    }
    Ok(())
}

// The check at the end of the block that begins at this place.
fn check_block(block: &[u8], place: usize) -> Result<(), Fault>
    requires { (2 ≤ length block.now) × (place ≤ 79) }
    ensures { result ≡ block_checked place block.now }
{
    let size = block.len() - CHECK;
    let heard = u16::from_be_bytes([block[size], block[size + 1]]);
    if heard != block_check(&block[..size]) {
        return Err(Fault::at(Cause::WrongCheck, place + size));
    }
    Ok(())
}

// A single frame: its two octets alone.
fn read_single(octets: &[u8], user: &mut UserOctets) -> Result<Content, Fault>
    ensures answer { result ≡ content_read (single_verdict octets.now) }
    ensures filled { user.new ≡ filled_record (single_verdict octets.now) user.old }
{
    check_partner(octets, SINGLE_PARTNER)?;
    if octets.len() != 2 {
        return Err(Fault::at(Cause::WrongLength, octets.len()));
    }
    fill_record(user, &[]);
    Ok(Content::Single)
}

// A fixed frame: nothing after its header.
fn read_fixed(octets: &[u8], user: &mut UserOctets) -> Result<Content, Fault>
    ensures answer { result ≡ content_read (fixed_verdict octets.now) }
    ensures filled { user.new ≡ filled_record (fixed_verdict octets.now) user.old }
{
    let [_, _, _, control, address, _, _] = *octets else {
        return Err(Fault::at(Cause::WrongLength, octets.len()));
    };
    fill_record(user, &[]);
    Ok(Content::Fixed {
        control: Control { octet: control },
        address,
    })
}

// A variable frame with so many user octets, by its header. They go into the record once every block has passed.
fn read_variable(octets: &[u8], count: usize, user: &mut UserOctets) -> Result<Content, Fault>
    requires { (7 ≤ length octets.now) × ((1 ≤ count) × (count ≤ 64)) }
    ensures answer { result ≡ content_read (variable_verdict octets.now count) }
    ensures filled { user.new ≡ filled_record (variable_verdict octets.now count) user.old }
{
    if octets.len() != HEADER + count + CHECK * count.div_ceil(BLOCK) {
        return Err(Fault::at(Cause::WrongLength, octets.len()));
    }
    let mut opened = [0u8; MOST_OCTETS];
    // By index: through `iter_mut().zip(..)` a proof does not follow what is lent.
    for (i, block) in octets[HEADER..].chunks(SEALED).enumerate() {
        check_block(block, HEADER + i * SEALED)?;
        let size = block.len() - CHECK;
        opened[i * BLOCK..i * BLOCK + size].copy_from_slice(&block[..size]);
    }
    fill_record(user, &opened[..count]);
    Ok(Content::Variable {
        control: Control { octet: octets[3] },
        address: octets[4],
        count: count as u8,
    })
}

// A frame with a header, whose length octet is 0 in a fixed one and else counts control octet, address and user
// octets.
fn read_headed(octets: &[u8], user: &mut UserOctets) -> Result<Content, Fault>
    ensures answer { result ≡ content_read (headed_verdict octets.now) }
    ensures filled { user.new ≡ filled_record (headed_verdict octets.now) user.old }
{
    check_partner(octets, HEADED_PARTNER)?;
    if octets.len() < HEADER {
        return Err(Fault::at(Cause::WrongLength, octets.len()));
    }
    check_block(&octets[2..HEADER], 2)?;
    match octets[2] {
        0 => read_fixed(octets, user),
        length @ 3..=66 => read_variable(octets, length as usize - 2, user),
        _ => Err(Fault::at(Cause::WrongLength, 2)),
    }
}

// The frame of some octets, by the first of them.
pub(crate) fn read_octets(octets: &[u8], user: &mut UserOctets) -> Result<Content, Fault>
    ensures answer { result ≡ content_read (octets_verdict octets.now) }
    ensures filled { user.new ≡ filled_record (octets_verdict octets.now) user.old }
{
    match *octets {
        [SINGLE, ..] => read_single(octets, user),
        [HEADED, ..] => read_headed(octets, user),
        _ => Err(Fault::of(Cause::WrongStart)),
    }
}

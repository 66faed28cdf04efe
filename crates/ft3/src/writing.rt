// Writing: blocks are put, each with its check, into a buffer.
ghost use Rattle.std.specs.Prelude.{◌≡◌, ◌+◌, ◌≤◌, ◌++◌, length, drop};
ghost use Rattle.crc.specs.Check.{sealed};
ghost use Rattle.frame.specs.Contents.{variable};
ghost use Rattle.frame.specs.Writing.{encoded_at};
ghost use Rattle.ft3.specs.Frames.{all_blocks, frame_of, headed};

use crate::{BLOCK, Ft3, HEADED, HEADED_PARTNER};
use crc::block_check;
use frame::{Control, encode_at};

// A block and its check, the higher octet first, put into the buffer from a place on; answers the place after them.
fn put_block(buffer: &mut [u16], place: usize, block: &[u8]) -> usize
    requires { place + length block.now + 2 ≤ length buffer.old }
    ensures end { result ≡ place + length block.now + 2 }
    ensures written { buffer.new ≡ encoded_at (λ o. o) place (sealed block.now) buffer.old }
{
    let check = encode_at::<Ft3>(buffer, place, block);
    encode_at::<Ft3>(buffer, check, &block_check(block).to_be_bytes())
}

// The start octets and the header at the front of the buffer, with the length octet l; answers the place after them.
pub(crate) fn write_header(l: u8, control: Control, address: u8, buffer: &mut [u16]) -> usize
    requires { 7 ≤ length buffer.old }
    ensures end { result ≡ length (headed l control.octet address) }
    ensures written { buffer.new ≡ headed l control.octet address ++ drop result buffer.old }
{
    let start = encode_at::<Ft3>(buffer, 0, &[HEADED, HEADED_PARTNER]);
    put_block(buffer, start, &[l, control.octet, address])
}

// The user octets from a place on, block by block; answers the place after them.
fn write_blocks(user: &[u8], place: usize, buffer: &mut [u16]) -> usize
    requires { place + length (all_blocks user.now) ≤ length buffer.old }
    ensures end { result ≡ place + length (all_blocks user.now) }
    ensures written { buffer.new ≡ encoded_at (λ o. o) place (all_blocks user.now) buffer.old }
{
    // A loop and no fold, since each block is written into the buffer.
    let mut end = place;
    for block in user.chunks(BLOCK) {
        end = put_block(buffer, end, block);
    }
    end
}

// A variable frame at the front of the buffer; answers the count of its symbols.
pub(crate) fn write_variable(
    control: Control,
    address: u8,
    user: &[u8],
    buffer: &mut [u16],
) -> usize
    requires { (length user.now ≤ 64) × (79 ≤ length buffer.old) }
    ensures count { result ≡ length (frame_of (variable control.octet address user.now)) }
    ensures written { buffer.new ≡ frame_of (variable control.octet address user.now) ++ drop result buffer.old }
{
    let header = write_header(user.len() as u8 + 2, control, address, buffer);
    write_blocks(user, header, buffer)
}

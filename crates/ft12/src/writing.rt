// Writing: octets become symbols at their places in a buffer.
ghost use Rattle.std.specs.Prelude.{◌≡◌, ◌+◌, ◌≤◌, length};
ghost use Rattle.frame.specs.Contents.{variable};
ghost use Rattle.frame.specs.Writing.{encoded_at};
ghost use Rattle.ft12.specs.Frames.{octets_of};
ghost use Rattle.ft12.specs.Symbols.{symbol_of};

use crate::{END, Ft12, VARIABLE, check_octet};
use frame::{Control, encode_at};

// A variable frame at the front of the buffer; answers the count of its symbols.
pub(crate) fn write_variable(
    control: Control,
    address: u8,
    user: &[u8],
    buffer: &mut [u16],
) -> usize
    requires { (length user.now ≤ 64) × (72 ≤ length buffer.old) }
    ensures count { result ≡ length user.now + 8 }
    ensures encoded { buffer.new ≡ encoded_at symbol_of 0 (octets_of (variable control.octet address user.now)) buffer.old }
{
    let length = (user.len() + 2) as u8;
    let check = check_octet(&[control.octet, address]).wrapping_add(check_octet(user));
    let head = encode_at::<Ft12>(
        buffer,
        0,
        &[VARIABLE, length, length, VARIABLE, control.octet, address],
    );
    let covered = encode_at::<Ft12>(buffer, head, user);
    encode_at::<Ft12>(buffer, covered, &[check, END])
}

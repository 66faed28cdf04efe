// The check of FT3's blocks, and how far the blocks that are sent lie apart.
#![tactic(auto)]

mod table;

ghost use Rattle.std.specs.Prelude.{◌≡◌, ◌*◌, ◌^◌, false, replicate, bit_xor, slice_index};
ghost use Rattle.crc.specs.Check.{check, remainder};
ghost use Rattle.crc.specs.Distance.{Least};
ghost use Rattle.crc.specs.Division.{Remainder};
ghost use Rattle.crc.specs.Vectors.{Vectors};
ghost use Rattle.std.specs.Int.Digits.{number_from_digits};

use table::TABLE;

// The check of a block; its higher octet is sent first.
pub fn block_check(block: &[u8]) -> u16
    ensures checked { result ≡ check block.now }
    ensures divided { Remainder (number_from_digits 256 block.now * 2 ^ 16) (bit_xor result 0xFFFF) }
{
    let register = block
        .iter()
        .fold(0, |register, octet| fed(register, *octet));
    register ^ 0xffff
}

// The register after one more octet: the octet is added to the upper half, and all moves up by eight places.
fn fed(register: u16, octet: u8) -> u16
    ensures { result ≡ remainder (bit_xor register (octet * 2 ^ 8)) (replicate 8 false) }
{
    let out = (register >> 8) as u8 ^ octet;
    (register << 8) ^ TABLE[out as usize]
}

// The least number of bits in which two different blocks of one length, up to 16 octets, differ as they are sent.
pub fn hamming_distance() -> u32
    ensures { Least result }
{
    6
}

// The checks of the nine digits and of a reset to station 5, as published.
pub fn published_checks() -> [u16; 2]
    ensures vectors { Vectors }
    ensures digits { slice_index result 0 ≡ 0xC2B7 }
    ensures reset { slice_index result 1 ≡ 0x90D6 }
{
    [block_check(b"123456789"), block_check(&[0x00, 0x40, 0x05])]
}

#[cfg(test)]
mod tests {
    use super::*;

    // The compiled table and code, not only their proof, give what is published.
    #[test]
    fn published(rt: HostRuntime) {
        assert_eq!(rt; published_checks(), [0xc2b7, 0x90d6]);
    }
}

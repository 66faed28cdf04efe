// The symbols of FT1.2: one octet in 11 bits.
ghost use Rattle.ft12.specs.Symbols.{is_sound, octet_of, symbol_of};
ghost use Rattle.std.specs.Prelude.{◌≡◌};

use crate::Ft12;
use frame::{Alphabet, Format, SymbolCode};

// The stop bit. It is 1 in every symbol, and the start bit, bit 0, is 0.
const STOP: u16 = 1 << 10;

impl Alphabet for Ft12 {
    ghost sound = { is_sound };

    // No bit above the width; start bit 0, even parity, stop bit 1.
    fn is_sound(symbol: u16) -> bool {
        let start = symbol & 1;
        let ones = (symbol >> 1 & 0x1FF).count_ones();
        let stop = symbol >> 10 & 1;
        symbol >> Ft12::WIDTH == 0 && start == 0 && ones % 2 == 0 && stop == 1
    }
}

impl SymbolCode for Ft12 {
    ghost octet_in = { octet_of };

    ghost symbol_for = { symbol_of };

    fn decode(symbol: u16) -> u8 {
        (symbol >> 1 & 0xFF) as u8
    }

    fn encode(octet: u8) -> u16 {
        let parity = (octet.count_ones() % 2) as u16;
        STOP | parity << 9 | (octet as u16) << 1
    }
}

//! Worked values: sums at the edges of words, and constants as GNU binutils 2.40 encodes them.

use tz_bits::{add_with_carry, bit_field, expand_imm_c, shift_c, sign_extend};
use tz_table::Shift;

/// Two words and a carry, and their sum, its carry and its overflow.
static SUMS: [(u32, u32, bool, (u32, bool, bool)); 4] = [
    (1, 2, true, (4, false, false)),
    (0x7fff_ffff, 1, false, (0x8000_0000, false, true)),
    (0xffff_ffff, 0, true, (0, true, false)),
    (0x8000_0000, 0x8000_0000, false, (0, true, true)),
];

#[test]
fn sums(rt: HostRuntime) {
    for &(x, y, carry, want) in SUMS.iter() {
        assert!(rt; add_with_carry(x, y, carry) == want);
    }
}

/// Twelve bits of a modified constant, and its value.
static CONSTANTS: [(u16, Option<u32>); 8] = [
    (0x1ab, Some(0x00ab_00ab)),
    (0x2ab, Some(0xab00_ab00)),
    (0x3ab, Some(0xabab_abab)),
    (0x47f, Some(0xff00_0000)),
    (0xe7f, Some(0x0000_0ff0)),
    (0x400, Some(0x8000_0000)),
    (0x100, None),
    (0x1000, None),
];

#[test]
fn constants_of_binutils(rt: HostRuntime) {
    for &(imm12, want) in CONSTANTS.iter() {
        let value = match expand_imm_c(imm12, false) {
            Some((value, _)) => Some(value),
            None => None,
        };
        assert!(rt; value == want);
    }
}

/// A word, how and by how much it is shifted, what it becomes, and the carry out of it.
static SHIFTS: [(u32, Shift, u32, (u32, bool)); 4] = [
    (0x8000_0001, Shift::Lsl, 1, (2, true)),
    (0x8000_0001, Shift::Lsr, 32, (0, true)),
    (0x8000_0000, Shift::Asr, 31, (0xffff_ffff, false)),
    (0x0000_0001, Shift::Ror, 1, (0x8000_0000, true)),
];

#[test]
fn shifts(rt: HostRuntime) {
    for &(value, shift, amount, want) in SHIFTS.iter() {
        assert!(rt; shift != Shift::Rrx);
        assert!(rt; shift_c(value, shift, amount, false) == want);
    }
}

#[test]
fn fields(rt: HostRuntime) {
    assert!(rt; shift_c(0x0000_0001, Shift::Rrx, 1, true) == (0x8000_0000, true));
    assert!(rt; sign_extend(0x80, 8) == 0xffff_ff80);
    assert!(rt; bit_field(0x1234_5678, 8, 12) == 0x456);
}

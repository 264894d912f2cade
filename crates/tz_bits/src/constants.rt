//! `T32ExpandImm_C`.

ghost use Rattle.std.specs.Prelude.{◌≡◌};
ghost use Rattle.tz_bits.specs.Constants.{imm_of};

use crate::shifts::rotate;

/// `T32ExpandImm_C(imm12, carry)`: the constant that 12 bits stand for, and the carry after it.
/// None where there is no such constant: `imm12` has more than 12 bits, or would repeat a byte (its high
/// four bits are 1, 2 or 3) that is 0.
pub fn expand_imm_c(imm12: u16, carry: bool) -> Option<(u32, bool)>
    ensures { result ≡ imm_of imm12 carry }
{
    let byte = u32::from(imm12 % 256);
    let value = match imm12 / 256 {
        0 => byte,
        1 | 2 | 3 if byte == 0 => return None,
        1 => byte * 0x10001,
        2 => byte * 0x100_0100,
        3 => byte * 0x101_0101,
        16.. => return None,
        _ => rotate(u32::from(128 + imm12 % 128), u32::from(imm12 / 128)),
    };
    Some((
        value,
        if imm12 < 1024 {
            carry
        } else {
            value >> 31 == 1
        },
    ))
}

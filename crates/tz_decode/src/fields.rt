//! Fields of codes, and the numbers and enums that they stand for.

ghost use Rattle.std.specs.Prelude.{◌≡◌, ◌==◌, ◌&&◌, ◌+◌, ◌*◌, ◌<◌, ◌≤◌, if◌then◌else◌};
ghost use Rattle.tz_table.specs.Fields.{bits};
ghost use Rattle.tz_table.specs.Terms.{flags_of, shift_of, imm_shift_of, imm_amount_of, size_of, signed_by, plus_or_minus as plus_or_minus_of, indexed as indexed_of, far_offset as far_offset_of, condition_offset as condition_offset_of};
ghost use Rattle.tz_table.specs.declared.Decoded.TheVariants.{One, Undefined};
ghost use Rattle.tz_table.specs.declared.Width.TheVariants.{Narrow, Wide};

use tz_bits::bit_field;
use tz_table::{Address, Decoded, Flags, Insn, Shift, Size, Width};

/// The bits of a halfword from `low` on, at most eight of them.
pub fn field(halfword: u16, low: u32, width: u32) -> u8
    requires { (width ≤ 8) × (low + width ≤ 16) }
    ensures { result ≡ bits halfword low width }
{
    bit_field(u32::from(halfword), low, width) as u8
}

/// The bits of a halfword from `low` on.
pub fn long_field(halfword: u16, low: u32, width: u32) -> u16
    requires { low + width ≤ 16 }
    ensures { result ≡ bits halfword low width }
{
    bit_field(u32::from(halfword), low, width) as u16
}

/// An instruction of 16 bits that keeps its limits.
pub fn narrow_if(allowed: bool, insn: Insn) -> Decoded
    ensures { result ≡ (if allowed then One insn Narrow else Undefined Narrow) }
{
    if allowed {
        Decoded::One(insn, Width::Narrow)
    } else {
        Decoded::Undefined(Width::Narrow)
    }
}

/// The refusal of a code of 32 bits.
pub fn undefined() -> Decoded
    ensures { result ≡ Undefined Wide }
{
    Decoded::Undefined(Width::Wide)
}

/// An instruction of 32 bits that keeps its limits.
pub fn wide_if(allowed: bool, insn: Insn) -> Decoded
    ensures { result ≡ (if allowed then One insn Wide else Undefined Wide) }
{
    if allowed {
        Decoded::One(insn, Width::Wide)
    } else {
        undefined()
    }
}

/// The bit S.
pub fn flags(bit: u8) -> Flags
    ensures { result ≡ flags_of bit }
{
    if bit == 1 {
        Flags::Always
    } else {
        Flags::Never
    }
}

/// One of the four shifts.
pub fn shift(kind: u8) -> Shift
    ensures { result ≡ shift_of kind }
{
    match kind {
        0 => Shift::Lsl,
        1 => Shift::Lsr,
        2 => Shift::Asr,
        _ => Shift::Ror,
    }
}

/// The kind of `DecodeImmShift`.
pub fn imm_shift(kind: u8, amount: u8) -> Shift
    ensures { result ≡ imm_shift_of kind amount }
{
    if kind == 3 && amount == 0 {
        Shift::Rrx
    } else {
        shift(kind)
    }
}

/// The amount of `DecodeImmShift`.
pub fn imm_amount(kind: u8, amount: u8) -> u8
    ensures { result ≡ imm_amount_of kind amount }
{
    if amount != 0 {
        amount
    } else {
        match kind {
            0 => 0,
            3 => 1,
            _ => 32,
        }
    }
}

/// The size of a load or a store.
pub fn size(number: u8) -> Size
    ensures { result ≡ size_of number }
{
    match number {
        0 => Size::Byte,
        1 => Size::Half,
        _ => Size::Word,
    }
}

/// The number below twice `half` whose highest bit is a sign.
pub fn signed(value: u32, half: u32) -> i32
    requires { (value < 2 * half) × (half ≤ 0x1000000) }
    ensures { result ≡ signed_by half value }
{
    if value < half {
        value as i32
    } else {
        value as i32 - (2 * half) as i32
    }
}

/// The bit U: plus or minus.
pub fn plus_or_minus(plus: u8, value: u16) -> i32
    ensures { result ≡ plus_or_minus_of plus value }
{
    if plus == 1 {
        i32::from(value)
    } else {
        -i32::from(value)
    }
}

/// The bits P and W: offset, pre-indexed or post-indexed.
pub fn indexed(before: u8, back: u8, rn: u8, offset: i32) -> Address
    ensures { result ≡ indexed_of before back rn offset }
{
    if back != 1 {
        Address::Offset { rn, offset }
    } else if before == 1 {
        Address::Pre { rn, offset }
    } else {
        Address::Post { rn, offset }
    }
}

/// The offset of BL and of a wide B, as 25 bits.
pub fn far_offset(first: u16, second: u16) -> u32
    ensures { result ≡ far_offset_of first second }
{
    let sign = field(first, 10, 1);
    let i = u32::from(field(second, 13, 1) == sign);
    let h = u32::from(field(second, 11, 1) == sign);
    let high = u32::from(long_field(first, 0, 10));
    let low = u32::from(long_field(second, 0, 11));
    u32::from(sign) * 0x100_0000 + i * 0x80_0000 + h * 0x40_0000 + high * 0x1000 + low * 2
}

/// The offset of a wide conditional branch, as 21 bits.
pub fn condition_offset(first: u16, second: u16) -> u32
    ensures { result ≡ condition_offset_of first second }
{
    let sign = u32::from(field(first, 10, 1));
    let k = u32::from(field(second, 11, 1));
    let j = u32::from(field(second, 13, 1));
    let high = u32::from(field(first, 0, 6));
    let low = u32::from(long_field(second, 0, 11));
    sign * 0x10_0000 + k * 0x8_0000 + j * 0x4_0000 + high * 0x1000 + low * 2
}

/// Whether a load of this size into this register is a preload: one of a byte, into PC.
pub fn is_preload(size: u8, rt: u8) -> bool
    ensures { result ≡ (size == 0 && rt == 15) }
{
    size == 0 && rt == 15
}

/// Whether a load would be of a signed word, which no instruction loads.
pub fn is_signed_word(signed: u8, size: u8) -> bool
    ensures { result ≡ (signed == 1 && size == 2) }
{
    signed == 1 && size == 2
}

//! Logical operations and sums, saturation, bit fields, extensions and reversals.

ghost use Rattle.std.specs.Prelude.{◌≡◌, ◌+◌, ◌≤◌, true, false};
ghost use Rattle.tz_sem.specs.Operations.{inverse_of, logical as logical_of, added, computed, saturated, field_placed, field_result, extended, reversed};

use tz_bits::{add_with_carry, bit_field, shift_c, sign_extend};
use tz_model::{DataOp, ExtendOp, FieldOp, ReverseOp, Shift};
use tz_sem::Computed;

/// `NOT(word)`.
fn inverse(word: u32) -> u32
    ensures { result ≡ inverse_of word }
{
    u32::MAX - word
}

/// A logical operation's value, with C from the shifter and V as it was.
fn logical(value: u32, carry: bool, overflow: bool) -> Computed
    ensures { result ≡ logical_of value carry overflow }
{
    Computed {
        value,
        carry,
        overflow,
    }
}

/// `AddWithCarry(x, y, carry)`.
fn add(x: u32, y: u32, carry: bool) -> Computed
    ensures { result ≡ added x y carry }
{
    let (value, carry, overflow) = add_with_carry(x, y, carry);
    Computed {
        value,
        carry,
        overflow,
    }
}

/// A data operation on the first operand and the second, which is shifted or expanded already and left
/// `shifter_carry`; `carry` and `overflow` are the flags C and V before.
pub(crate) fn compute(
    op: DataOp,
    x: u32,
    y: u32,
    shifter_carry: bool,
    carry: bool,
    overflow: bool,
) -> Computed
    ensures { result ≡ computed op x y shifter_carry carry overflow }
{
    match op {
        DataOp::And | DataOp::Tst => logical(x & y, shifter_carry, overflow),
        DataOp::Bic => logical(x & inverse(y), shifter_carry, overflow),
        DataOp::Orr => logical(x | y, shifter_carry, overflow),
        DataOp::Orn => logical(x | inverse(y), shifter_carry, overflow),
        DataOp::Eor | DataOp::Teq => logical(x ^ y, shifter_carry, overflow),
        DataOp::Mov => logical(y, shifter_carry, overflow),
        DataOp::Mvn => logical(inverse(y), shifter_carry, overflow),
        DataOp::Add | DataOp::Cmn => add(x, y, false),
        DataOp::Adc => add(x, y, carry),
        DataOp::Sbc => add(x, inverse(y), carry),
        DataOp::Sub | DataOp::Cmp => add(x, inverse(y), true),
        DataOp::Rsb => add(inverse(x), y, true),
    }
}

/// `old` with its bits from `low` on, `width` of them, replaced by the low bits of `field`.
#[tactic(auto, using(crate::proofs::Places::places))]
pub(crate) fn place_field(old: u32, field: u32, low: u32, width: u32) -> u32
    requires some { 1 ≤ width }
    requires inside { low + width ≤ 32 }
    ensures { result ≡ field_placed old field low width }
{
    let above = old - bit_field(old, 0, low + width);
    let within = bit_field(field, 0, width) << low;
    above + within + bit_field(old, 0, low)
}

/// The result of a bit field operation.
pub(crate) fn field_of(op: FieldOp, old: u32, source: u32, low: u32, width: u32) -> u32
    requires some { 1 ≤ width }
    requires inside { low + width ≤ 32 }
    ensures { result ≡ field_result op old source low width }
{
    match op {
        FieldOp::Sbfx => sign_extend(bit_field(source, low, width), width),
        FieldOp::Ubfx => bit_field(source, low, width),
        FieldOp::Bfi => place_field(old, source, low, width),
        FieldOp::Bfc => place_field(old, 0, low, width),
    }
}

/// The low halfword or byte of `ROR(value, rotate)`, extended to a word.
pub(crate) fn extend(op: ExtendOp, value: u32, rotate: u32) -> u32
    ensures { result ≡ extended op value rotate }
{
    let rotated = shift_c(value, Shift::Ror, rotate, false).0;
    match op {
        ExtendOp::Sxth => sign_extend(rotated, 16),
        ExtendOp::Sxtb => sign_extend(rotated, 8),
        ExtendOp::Uxth => bit_field(rotated, 0, 16),
        ExtendOp::Uxtb => bit_field(rotated, 0, 8),
    }
}

/// The bytes or bits of a word turned round, or the count of its leading zeros.
pub(crate) fn reverse(op: ReverseOp, value: u32) -> u32
    ensures { result ≡ reversed op value }
{
    match op {
        ReverseOp::Rev => value.swap_bytes(),
        ReverseOp::Rev16 => {
            let high = bit_field(value, 16, 16) as u16;
            let low = bit_field(value, 0, 16) as u16;
            u32::from(high.swap_bytes()) * 0x1_0000 + u32::from(low.swap_bytes())
        }
        ReverseOp::Rbit => value.reverse_bits(),
        ReverseOp::Revsh => {
            let low = bit_field(value, 0, 16) as u16;
            sign_extend(u32::from(low.swap_bytes()), 16)
        }
        ReverseOp::Clz => value.leading_zeros(),
    }
}

/// `SignedSatQ` of a word's signed number, to `bits` bits, as a word.
fn saturate_signed(value: u32, bits: u32) -> (u32, bool)
    requires some { 1 ≤ bits }
    requires inside { bits ≤ 32 }
    ensures { result ≡ saturated true value bits }
{
    let highest = (1 << (bits - 1)) - 1;
    if value < 0x8000_0000 {
        (value.min(highest), highest < value)
    } else {
        (value.max(u32::MAX - highest), value < u32::MAX - highest)
    }
}

/// `UnsignedSatQ` of a word's signed number, to `bits` bits.
fn saturate_unsigned(value: u32, bits: u32) -> (u32, bool)
    requires { bits ≤ 31 }
    ensures { result ≡ saturated false value bits }
{
    let highest = (1 << bits) - 1;
    if value < 0x8000_0000 {
        (value.min(highest), highest < value)
    } else {
        (0, true)
    }
}

/// `SignedSatQ` or `UnsignedSatQ` of a word's signed number: the nearest number of `bits` bits as a
/// word, and whether it is another number.
pub(crate) fn saturate(signed: bool, value: u32, bits: u32) -> (u32, bool)
    requires of_signed { signed ≡ true → (1 ≤ bits) × (bits ≤ 32) }
    requires of_unsigned { signed ≡ false → bits ≤ 31 }
    ensures { result ≡ saturated signed value bits }
{
    if signed {
        saturate_signed(value, bits)
    } else {
        saturate_unsigned(value, bits)
    }
}

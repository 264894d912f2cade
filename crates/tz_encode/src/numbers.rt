//! The numbers that stand for values.

ghost use Rattle.std.specs.Prelude.{◌≡◌, ◌<◌, ◌^◌, ◌/◌, ◌%◌, pos};
ghost use Rattle.std.specs.Ordering.{int_eq};
ghost use Rattle.tz_encode.specs.Numbers.{unsigned_by as unsigned_by_of, far as far_of, amount_number as amount_number_of, number_for as number_for_of, stands_for as stands_for_of};
ghost use Rattle.tz_table.specs.Terms.{signed_by, imm_amount_of};

use crate::coding::Coding;
use crate::values::{entry, is_minus, is_number, number_at};

/// Half of the numbers of the distances of B.W and BL.
const FAR_HALF: u32 = 0x100_0000;

/// The number of which the value is the signed one.
fn unsigned_by(half: u32, value: i32) -> u64
    ensures is { result ≡ unsigned_by_of half value }
    ensures fits { result < 2 ^ 33 }
{
    let size = u64::from(value.unsigned_abs());
    if value < 0 {
        (2 * u64::from(half)).saturating_sub(size)
    } else {
        size
    }
}

/// The value is the signed one of the number.
fn is_signed(half: u32, number: u64, value: i32) -> bool
    ensures { result ≡ int_eq (signed_by half number) value }
{
    if number < u64::from(half) {
        is_number(number, value)
    } else {
        is_minus((2 * u64::from(half)).saturating_sub(number), value)
    }
}

/// Inverts bits 23 and 22 where bit 24, the sign, is 0: from the bits of a code to those of a distance,
/// and back.
fn far(number: u64) -> u64
    ensures is { result ≡ far_of number }
    ensures fits { result < 2 ^ 25 }
{
    let sign = (number >> 24) % 2;
    let high = 1 - ((number >> 23) % 2 + sign) % 2;
    let low = 1 - ((number >> 22) % 2 + sign) % 2;
    (sign << 24) + (high << 23) + (low << 22) + number % (1 << 22)
}

/// Kind and amount of a shift.
fn amount_number(shift: u32, amount: u32) -> u64
    ensures is { result ≡ amount_number_of shift amount }
    ensures fits { result < 2 ^ 38 }
{
    if shift == 4 {
        96
    } else {
        u64::from(shift) * 32 + u64::from(amount % 32)
    }
}

/// The amount of a shift of which a number has kind and amount.
fn is_amount(number: u64, value: i32) -> bool
    ensures { result ≡ int_eq (pos (imm_amount_of (number / 32) (number % 32))) value }
{
    let amount = match (number / 32, number % 32) {
        (0, 0) => 0,
        (3, 0) => 1,
        (_, 0) => 32,
        (_, amount) => amount,
    };
    is_number(amount, value)
}

/// The number that stands for the value beside those of the places before it.
pub fn number_for(coding: Coding, earlier: &[i32], value: i32) -> u64
    ensures is { result ≡ number_for_of coding earlier.now value }
    ensures fits { result < 2 ^ 40 }
{
    let size = value.unsigned_abs();
    match coding {
        Coding::Is(_) | Coding::Same(_) | Coding::Kind | Coding::Unlisted => 0,
        Coding::Natural | Coding::Minus => u64::from(size),
        Coding::Above(more) => u64::from(size).saturating_sub(u64::from(more)),
        Coding::Signed(half) => unsigned_by(half, value),
        Coding::Sign => u64::from(if value > 0 { 4096 + size } else { size }),
        Coding::Far => far(unsigned_by(FAR_HALF, value)),
        Coding::Right => u64::from(size % 32),
        Coding::Amount => amount_number(number_at(earlier, 2), size),
        Coding::UpTo => (u64::from(number_at(earlier, 7)) + u64::from(size)).saturating_sub(1),
        Coding::Again => u64::from(number_at(earlier, 6)),
    }
}

/// The number stands for the value. Of a shift's kind and of a base that is listed a later place tells.
pub fn stands_for(coding: Coding, earlier: &[i32], number: u64, value: i32) -> bool
    requires { number < 2 ^ 40 }
    ensures { result ≡ stands_for_of coding earlier.now number value }
{
    match coding {
        Coding::Is(constant) => constant == value,
        Coding::Same(place) => entry(earlier, place) == value,
        Coding::Natural => is_number(number, value),
        Coding::Above(more) => is_number(number + u64::from(more), value),
        Coding::Minus => is_minus(number, value),
        Coding::Signed(half) => is_signed(half, number, value),
        Coding::Sign => {
            if number / 4096 == 1 {
                is_number(number % 4096, value)
            } else {
                is_minus(number % 4096, value)
            }
        }
        Coding::Far => is_signed(FAR_HALF, far(number), value),
        Coding::Right => is_number(if number == 0 { 32 } else { number }, value),
        Coding::Kind => (0 <= value) & (value < 5),
        Coding::Amount => is_amount(number, value),
        Coding::UpTo => is_number(
            (number + 1).saturating_sub(u64::from(number_at(earlier, 7))),
            value,
        ),
        Coding::Unlisted => (0 <= value) & (value < 2),
        Coding::Again => is_number(0, value),
    }
}

//! `Shift_C` and the shifts that it chooses from. Amounts have no upper bound here.

ghost use Rattle.std.specs.Prelude.{◌≡◌, ◌≤◌};
ghost use Rattle.tz_bits.specs.Shifts.{left, left_carry as left_carry_of, right, right_carry as right_carry_of, signed_right, signed_right_carry, rotated, shifted, carry_after};
ghost use Rattle.tz_table.specs.declared.Shift.TheVariants as Shift;

use crate::fields::bit_field;
use tz_table::Shift;

/// `LSL(value, amount)`.
#[tactic(auto, using(crate::proofs::Places::places))]
fn shift_left(value: u32, amount: u32) -> u32
    ensures { result ≡ left value amount }
{
    if amount < 32 { value << amount } else { 0 }
}

/// The carry of `LSL_C`.
#[tactic(auto, using(crate::proofs::Places::places))]
fn left_carry(value: u32, amount: u32) -> bool
    requires { 1 ≤ amount }
    ensures { result ≡ left_carry_of value amount }
{
    amount <= 32 && bit_field(value, 32 - amount, 1) == 1
}

/// `LSR(value, amount)`.
#[tactic(auto, using(crate::proofs::Places::places))]
fn shift_right(value: u32, amount: u32) -> u32
    ensures { result ≡ right value amount }
{
    if amount < 32 { value >> amount } else { 0 }
}

/// The carry of `LSR_C`.
#[tactic(auto, using(crate::proofs::Places::places))]
fn right_carry(value: u32, amount: u32) -> bool
    requires { 1 ≤ amount }
    ensures { result ≡ right_carry_of value amount }
{
    amount <= 32 && bit_field(value, amount - 1, 1) == 1
}

/// `ASR(value, amount)`: a negative word is moved as its complement is.
#[tactic(auto, using(crate::proofs::Signed::signed_shifts))]
fn shift_signed(value: u32, amount: u32) -> u32
    ensures { result ≡ signed_right value amount }
{
    if value < 0x8000_0000 {
        shift_right(value, amount)
    } else {
        u32::MAX - shift_right(u32::MAX - value, amount)
    }
}

/// The carry of `ASR_C`.
#[tactic(auto, using(crate::proofs::Signed::signed_shifts))]
fn signed_carry(value: u32, amount: u32) -> bool
    requires { 1 ≤ amount }
    ensures { result ≡ signed_right_carry value amount }
{
    if value < 0x8000_0000 {
        right_carry(value, amount)
    } else {
        !right_carry(u32::MAX - value, amount)
    }
}

/// `ROR(value, amount)`.
#[tactic(auto, using(crate::proofs::Places::places))]
pub fn rotate(value: u32, amount: u32) -> u32
    ensures { result ≡ rotated value amount }
{
    let places = amount % 32;
    if places == 0 {
        value
    } else {
        (value >> places) + (value << (32 - places))
    }
}

/// `Shift_C(value, kind, amount, carry)`: the word shifted or rotated, and the bit that went out
/// last. With `amount` 0 both stay as they are; `Rrx` moves by exactly one place.
pub fn shift_c(value: u32, kind: Shift, amount: u32, carry: bool) -> (u32, bool)
    requires { kind ≡ Shift.Rrx → amount ≡ 1 }
    ensures value { result.0 ≡ shifted value kind amount carry }
    ensures carry { result.1 ≡ carry_after value kind amount carry }
{
    match kind {
        Shift::Lsl => (
            shift_left(value, amount),
            if amount == 0 {
                carry
            } else {
                left_carry(value, amount)
            },
        ),
        Shift::Lsr => (
            shift_right(value, amount),
            if amount == 0 {
                carry
            } else {
                right_carry(value, amount)
            },
        ),
        Shift::Asr => (
            shift_signed(value, amount),
            if amount == 0 {
                carry
            } else {
                signed_carry(value, amount)
            },
        ),
        Shift::Ror => {
            let result = rotate(value, amount);
            (
                result,
                if amount == 0 {
                    carry
                } else {
                    result >> 31 == 1
                },
            )
        }
        Shift::Rrx => (u32::from(carry) * 0x8000_0000 + value / 2, value % 2 == 1),
    }
}

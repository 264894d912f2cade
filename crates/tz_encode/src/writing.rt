//! The code that the slots of a row give for values, one slot after the other.

ghost use Rattle.std.specs.Prelude.{◌≡◌, ◌≤◌, ◌^◌, ◌+◌, ◌*◌, ◌%◌, ◌==◌, true, if◌then◌else◌};
ghost use Rattle.tz_encode.specs.Numbers.{number_for as number_for_of, takes as takes_of, answer as answer_of, sound, sound_parts};
ghost use Rattle.tz_encode.specs.Slots.{parts_in, digit as digit_of, held_by as held_by_of, lies_in as lies_in_of, placed as placed_of};

use crate::allowed::limit_holds;
use crate::numbers::{number_for, stands_for};
use crate::slot::{CodeSlot, Half, Part, Parts};
use crate::values::is_number;

/// The bits of a number that a part holds.
fn digit(part: Part, number: u64) -> u64
    requires { part.shift + part.width ≤ 32 }
    ensures { result ≡ digit_of part number }
{
    (number >> part.shift) % (1 << part.width)
}

/// The parts hold `rest` of a number.
fn are_holding(parts: &[Part], number: u64, rest: u64) -> bool
    requires { sound_parts parts.now ≡ true }
    ensures { result ≡ (held_by_of parts.now number == rest) }
{
    match parts {
        [] => rest == 0,
        [part, others @ ..] => {
            let held = digit(*part, number) << part.shift;
            held <= rest && are_holding(others, number, rest - held)
        }
    }
}

/// The bits of a number that a part holds, in the part's place.
#[tactic(auto, using(crate::proofs::Moved::moved_fits))]
fn digit_in_place(part: Part, number: u64) -> u16
    requires { (part.low + part.width ≤ 16) × (part.shift + part.width ≤ 32) }
    ensures { result ≡ digit_of part number * 2 ^ part.low }
{
    (digit(part, number) << part.low) as u16
}

/// What lies in a halfword of what a part puts into its own.
fn lies_in(half: Half, own: Half, bits: u16) -> u16
    ensures { result ≡ lies_in_of half own bits }
{
    match (half, own) {
        (Half::First, Half::First) | (Half::Second, Half::Second) => bits,
        (Half::First, Half::Second) | (Half::Second, Half::First) => 0,
    }
}

/// What a number adds to a halfword of a code.
fn placed(half: Half, parts: &[Part], number: u64) -> u16
    requires { sound_parts parts.now ≡ true }
    ensures { result ≡ placed_of half parts.now number % 65536 }
{
    match parts {
        [] => 0,
        [part, others @ ..] => {
            let bits = lies_in(half, part.half, digit_in_place(*part, number));
            bits.wrapping_add(placed(half, others, number))
        }
    }
}

/// The parts of a field hold all of a number.
fn is_held(parts: Parts, number: u64) -> bool
    requires { sound_parts (parts_in parts) ≡ true }
    ensures { result ≡ (held_by_of (parts_in parts) number == number) }
{
    match parts {
        Parts::Zero => number == 0,
        Parts::One(a) => are_holding(&[a], number, number),
        Parts::Two(a, b) => are_holding(&[a, b], number, number),
        Parts::Three(a, b, c) => are_holding(&[a, b, c], number, number),
        Parts::Four(a, b, c, d) => are_holding(&[a, b, c, d], number, number),
        Parts::Five(a, b, c, d, e) => are_holding(&[a, b, c, d, e], number, number),
    }
}

/// What a field with a number adds to a halfword of a code.
fn put(half: Half, parts: Parts, number: u64) -> u16
    requires { sound_parts (parts_in parts) ≡ true }
    ensures { result ≡ placed_of half (parts_in parts) number % 65536 }
{
    match parts {
        Parts::Zero => 0,
        Parts::One(a) => placed(half, &[a], number),
        Parts::Two(a, b) => placed(half, &[a, b], number),
        Parts::Three(a, b, c) => placed(half, &[a, b, c], number),
        Parts::Four(a, b, c, d) => placed(half, &[a, b, c, d], number),
        Parts::Five(a, b, c, d, e) => placed(half, &[a, b, c, d, e], number),
    }
}

/// The number that stands for a value in a slot, if the slot takes the value beside those of the places
/// before it.
fn number_taken(slot: &CodeSlot, earlier: &[i32], value: i32) -> Option<u64>
    requires { sound_parts (parts_in slot.now.parts) ≡ true }
    ensures { result ≡ (if takes_of slot.now earlier.now value then Some (number_for_of slot.now.coding earlier.now value) else None) }
{
    let number = number_for(slot.coding, earlier, value);
    let fits = is_held(slot.parts, number);
    let stands = stands_for(slot.coding, earlier, number, value);
    if fits && stands && limit_holds(slot.limit, earlier, value) {
        Some(number)
    } else {
        None
    }
}

/// What a row with this variant, these fixed bits and these slots gives for the values of an instruction:
/// the halfwords of a code, or the place of the first value that its slots don't take.
pub fn answer(
    form: u16,
    first: u16,
    second: u16,
    slots: &[CodeSlot; 8],
    values: &[i32; 9],
) -> Result<(u16, u16), usize>
    requires { sound slots.now ≡ true }
    ensures { result ≡ answer_of form first second slots.now values.now }
{
    if !is_number(u64::from(form), values[0]) {
        return Err(0);
    }
    let mut first_half = first;
    let mut second_half = second;
    for (index, slot) in slots.iter().enumerate() {
        let place = index + 1;
        let Some(number) = number_taken(slot, &values[..place], values[place]) else {
            return Err(place);
        };
        first_half = first_half.wrapping_add(put(Half::First, slot.parts, number));
        second_half = second_half.wrapping_add(put(Half::Second, slot.parts, number));
    }
    Ok((first_half, second_half))
}

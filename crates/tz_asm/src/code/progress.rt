//! What is read of a statement's operands so far.

ghost use Rattle.std.specs.Prelude.{◌≡◌, option_and_then, option_map, slice_set};
ghost use Rattle.tz_asm.specs.Bits.{even_offset};
ghost use Rattle.tz_asm.specs.Front.{views};
ghost use Rattle.tz_asm.specs.Pieces.{any_offset, behind_doubled, behind_mark, behind_masks, behind_operand, behind_shift, behind_target, is_one, labelled_by, with_rest, with_value};
ghost use Rattle.tz_asm.specs.CodeViews.{operand_view, progress_view, shift_view, target_view};

use crate::code::bits::{even_offset, offset_to};
use crate::code::operands::{Operand, Shift, Target};
use tz_syntax::Token;

/// What is read so far.
#[derive(Clone, Copy)]
pub struct Reading<'t, 's> {
    /// The tokens that are left.
    pub rest: &'t [Token<'s>],
    /// The nine values of the instruction.
    pub values: [i32; 9],
    /// Whether each operand has a value that an instruction may have.
    pub held: bool,
    /// Whether a label was read.
    pub labelled: bool,
}

/// Puts a value at a place; past the end there is none to change.
pub fn put(values: &mut [i32; 9], place: u8, value: i32)
    ensures { values.new ≡ slice_set values.old place value }
{
    let index = usize::from(place);
    if index < 9 {
        values[index] = value;
    }
}

/// With the value of an operand at a place.
pub fn with_value<'t, 's>(
    reading: Reading<'t, 's>,
    place: u8,
    value: Option<i32>,
) -> Reading<'t, 's>
    ensures { progress_view result ≡ with_value place value (progress_view reading.entry) }
{
    match value {
        None => Reading {
            rest: reading.rest,
            values: reading.values,
            held: false,
            labelled: reading.labelled,
        },
        Some(value) => {
            let mut values = reading.values;
            put(&mut values, place, value);
            Reading {
                rest: reading.rest,
                values,
                held: reading.held,
                labelled: reading.labelled,
            }
        }
    }
}

/// With other tokens left.
fn with_rest<'t, 's>(reading: Reading<'t, 's>, rest: &'t [Token<'s>]) -> Reading<'t, 's>
    ensures { progress_view result ≡ with_rest (views rest.now) (progress_view reading.entry) }
{
    Reading {
        rest,
        values: reading.values,
        held: reading.held,
        labelled: reading.labelled,
    }
}

pub fn behind_mark<'t, 's>(
    reading: Reading<'t, 's>,
    rest: Option<&'t [Token<'s>]>,
) -> Option<Reading<'t, 's>>
    ensures { option_map progress_view result ≡ behind_mark (option_map (λ rest. views rest.now) rest.entry) (progress_view reading.entry) }
{
    match rest {
        None => None,
        Some(rest) => Some(with_rest(reading, rest)),
    }
}

/// Behind an operand whose value goes to a place.
pub fn behind_operand<'t, 's>(
    reading: Reading<'t, 's>,
    place: u8,
    operand: Option<Operand<'t, 's>>,
) -> Option<Reading<'t, 's>>
    ensures { option_map progress_view result ≡ behind_operand place (option_map operand_view operand.entry) (progress_view reading.entry) }
{
    match operand {
        None => None,
        Some(operand) => Some(with_value(with_rest(reading, operand.rest), place, operand.value)),
    }
}

/// Behind a shift: its kind goes to one place, and its amount to another.
pub fn behind_shift<'t, 's>(
    reading: Reading<'t, 's>,
    kind: u8,
    amount: u8,
    shift: Option<Shift<'t, 's>>,
) -> Option<Reading<'t, 's>>
    ensures { option_map progress_view result ≡ behind_shift kind amount (option_map shift_view shift.entry) (progress_view reading.entry) }
{
    match shift {
        None => None,
        Some(shift) => {
            let read = with_rest(reading, shift.rest);
            let read = with_value(read, kind, Some(i32::from(shift.kind)));
            Some(with_value(read, amount, shift.amount))
        }
    }
}

/// Whether a value is there and is 1.
fn is_one(value: Option<i32>) -> bool
    ensures { result ≡ is_one value }
{
    match value {
        None => false,
        Some(value) => value == 1,
    }
}

/// Behind a shift whose amount has to be 1.
pub fn behind_doubled<'t, 's>(
    reading: Reading<'t, 's>,
    amount: Option<Operand<'t, 's>>,
) -> Option<Reading<'t, 's>>
    ensures { option_map progress_view result ≡ behind_doubled (option_map operand_view amount.entry) (progress_view reading.entry) }
{
    match amount {
        None => None,
        Some(amount) => Some(Reading {
            rest: amount.rest,
            values: reading.values,
            held: reading.held && is_one(amount.value),
            labelled: reading.labelled,
        }),
    }
}

/// Behind a name of masks, which go to two places.
pub fn behind_masks<'t, 's>(
    reading: Reading<'t, 's>,
    places: (u8, u8),
    masks: Option<(u8, u8)>,
    rest: &'t [Token<'s>],
) -> Option<Reading<'t, 's>>
    ensures { option_map progress_view result ≡ behind_masks places.0 places.1 masks (views rest.now) (progress_view reading.entry) }
{
    match masks {
        None => None,
        Some((i, f)) => {
            let read = with_rest(reading, rest);
            let read = with_value(read, places.0, Some(i32::from(i)));
            Some(with_value(read, places.1, Some(i32::from(f))))
        }
    }
}

/// Behind a target whose value goes to a place.
fn behind_offset<'t, 's>(
    reading: Reading<'t, 's>,
    place: u8,
    value: Option<i32>,
    target: Target<'t, 's>,
) -> Reading<'t, 's>
    ensures { progress_view result ≡ labelled_by target.entry.labelled (with_value place value (with_rest (views target.entry.rest.now) (progress_view reading.entry))) }
{
    let read = with_value(with_rest(reading, target.rest), place, value);
    Reading {
        rest: read.rest,
        values: read.values,
        held: read.held,
        labelled: read.labelled || target.labelled,
    }
}

/// The offset of an address that has to be even.
fn offset_of_even(base: u32, address: Option<u32>) -> Option<i32>
    ensures { result ≡ option_and_then (even_offset base) address }
{
    match address {
        None => None,
        Some(address) => even_offset(base, address),
    }
}

/// The offset of an address.
fn offset_of_any(base: u32, address: Option<u32>) -> Option<i32>
    ensures { result ≡ option_and_then (any_offset base) address }
{
    match address {
        None => None,
        Some(address) => Some(offset_to(base, address)),
    }
}

/// Behind a target of an instruction, by its offset from `base`.
pub fn behind_even_target<'t, 's>(
    reading: Reading<'t, 's>,
    place: u8,
    base: u32,
    target: Option<Target<'t, 's>>,
) -> Option<Reading<'t, 's>>
    ensures { option_map progress_view result ≡ behind_target place (even_offset base) (option_map target_view target.entry) (progress_view reading.entry) }
{
    match target {
        None => None,
        Some(target) => {
            let value = offset_of_even(base, target.address);
            Some(behind_offset(reading, place, value, target))
        }
    }
}

/// Behind the label of a load, which may be odd.
pub fn behind_any_target<'t, 's>(
    reading: Reading<'t, 's>,
    place: u8,
    base: u32,
    target: Option<Target<'t, 's>>,
) -> Option<Reading<'t, 's>>
    ensures { option_map progress_view result ≡ behind_target place (any_offset base) (option_map target_view target.entry) (progress_view reading.entry) }
{
    match target {
        None => None,
        Some(target) => {
            let value = offset_of_any(base, target.address);
            Some(behind_offset(reading, place, value, target))
        }
    }
}

//! The values of labels, and of `.byte`, `.half` and `.word`.

ghost use Rattle.std.specs.Prelude.{◌≡◌, ◌+◌, ◌<◌, ◌≤◌, ◌^◌, ◌++◌, IfSome, OnOk};
ghost use Rattle.tz_asm.specs.Layouts.{size_bytes};
ghost use Rattle.tz_asm.specs.Places.{places_in};
ghost use Rattle.tz_asm.specs.Values.{in_size, low_first, lowered, modulus, moved, raised, value_of};
ghost use Rattle.tz_asm.specs.Views.{expression_view};

use crate::layout::size_bytes;
use crate::places::{Places, value_named};
use crate::source::{Expression, Signed};
use byteorder::{ByteOrder, LittleEndian};
use std::alloc::AllocError;
use tz_table::Size;

/// A number with its sign.
#[derive(Clone, Copy)]
pub struct Value {
    pub negative: bool,
    pub size: u64,
}

/// A value of the same sign and a greater size, if it has 64 bits.
fn raised(size: u32, value: Value) -> Option<Value>
    ensures { raised size value ≡ result }
{
    match value.size.checked_add(u64::from(size)) {
        Some(size) => Some(Value {
            negative: value.negative,
            size,
        }),
        None => None,
    }
}

/// A value of a smaller size, or of the other sign.
fn lowered(size: u32, value: Value) -> Value
    ensures { lowered size value ≡ result }
{
    let size = u64::from(size);
    if size <= value.size {
        Value {
            negative: value.negative,
            size: value.size - size,
        }
    } else {
        Value {
            negative: !value.negative,
            size: size - value.size,
        }
    }
}

/// A value, and what is added to it.
#[tactic(auto, unfolding(crate::specs::Values::moved))]
fn moved(offset: Signed, value: Value) -> Option<Value>
    ensures { moved offset value ≡ result }
{
    if offset.negative {
        if value.negative {
            raised(offset.size, value)
        } else {
            Some(lowered(offset.size, value))
        }
    } else if value.negative {
        Some(lowered(offset.size, value))
    } else {
        raised(offset.size, value)
    }
}

/// The value of an expression, or none where its label has none.
#[tactic(auto, unfolding(crate::specs::Values::value_of))]
pub fn value_of<'s>(places: &Places<'s>, expression: &Expression<'s>) -> Option<Value>
    ensures { value_of (places_in places.now) (expression_view expression.now) ≡ result }
{
    match *expression {
        Expression::Number(number) => Some(Value {
            negative: number.negative,
            size: u64::from(number.size),
        }),
        Expression::Label(name, offset) => match value_named(places, name) {
            Some(value) => moved(offset, value),
            None => None,
        },
    }
}

/// How many numbers the bytes of a size can be.
fn modulus(size: Size) -> u64
    ensures value { modulus size ≡ result }
    ensures some { 0 < result }
    ensures small { result ≤ 2 ^ 32 }
{
    match size {
        Size::Byte => 0x100,
        Size::Half => 0x1_0000,
        Size::Word => 0x1_0000_0000,
    }
}

/// A value as the number that its bytes are, or none where they can't be it.
#[tactic(auto, unfolding(crate::specs::Values::in_size))]
pub fn in_size(size: Size, value: Value) -> Option<u64>
    ensures number { in_size size value ≡ result }
{
    let modulus = modulus(size);
    if value.negative {
        if value.size <= modulus / 2 {
            Some((modulus - value.size) % modulus)
        } else {
            None
        }
    } else if value.size < modulus {
        Some(value.size)
    } else {
        None
    }
}

/// Appends the bytes of a number of a size, the lowest first.
#[tactic(auto, using(crate::proofs::Bytes::first_bytes))]
pub fn push_low_first(bytes: &mut Vec<u8>, size: Size, number: u64) -> Result<(), AllocError>
    ensures { OnOk result (bytes.new.items ≡ bytes.old.items ++ low_first (size_bytes size) number) }
{
    let mut all = [0; 8];
    LittleEndian::write_u64(&mut all, number);
    bytes.extend_from_slice(&all[..size_bytes(size) as usize])
}

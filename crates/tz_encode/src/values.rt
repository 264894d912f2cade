//! The values of earlier fields, and comparisons of a value with a number or with what is as far below
//! zero.
//!
//! Place 0 of the earlier values has the variant. Past their end there is 0, so that each place has a
//! value.

ghost use Rattle.std.specs.Prelude.{◌≡◌, pos, neg_ℤ};
ghost use Rattle.std.specs.Ordering.{int_eq};
ghost use Rattle.tz_encode.specs.Limits.{entry as entry_of, number_at as number_at_of};

/// The value at a place, 0 past the end.
#[tactic(auto, using(crate::proofs::Entries::entry_is))]
pub fn entry(earlier: &[i32], place: u8) -> i32
    ensures { result ≡ entry_of earlier.now place }
{
    earlier.get(usize::from(place)).copied().unwrap_or(0)
}

/// The same without its sign.
pub fn number_at(earlier: &[i32], place: u8) -> u32
    ensures { result ≡ number_at_of earlier.now place }
{
    entry(earlier, place).unsigned_abs()
}

/// The value is the number.
pub fn is_number(number: u64, value: i32) -> bool
    ensures { result ≡ int_eq (pos number) value }
{
    (value >= 0) & (u64::from(value.unsigned_abs()) == number)
}

/// The value is the number below zero.
pub fn is_minus(number: u64, value: i32) -> bool
    ensures { result ≡ int_eq (neg_ℤ (pos number)) value }
{
    (value <= 0) & (u64::from(value.unsigned_abs()) == number)
}

//! `AddWithCarry`.

ghost use Rattle.std.specs.Prelude.{◌≡◌, ◌+ℤ◌, pos};
ghost use Rattle.tz_bits.specs.Sums.{sum_of, carry_out, overflow_of, is_signed_word};
ghost use Rattle.tz_bits.specs.Words.{of_bool};

/// The sum of signed words, for which 34 bits are enough.
fn signed_sum(x: i32, y: i32, carry: bool) -> i64
    ensures { result ≡ x +ℤ y +ℤ pos (of_bool carry) }
{
    let sum = i64::from(x) + i64::from(y);
    if carry { sum + 1 } else { sum }
}

/// Whether a signed word holds the number.
fn is_word(z: i64) -> bool
    ensures { result ≡ is_signed_word z }
{
    -0x8000_0000 <= z && z < 0x8000_0000
}

/// `AddWithCarry(x, y, carry)`: the low 32 bits of the sum, the carry out (the unsigned sum needs
/// more than 32 bits) and the overflow (the signed sum does).
pub fn add_with_carry(x: u32, y: u32, carry: bool) -> (u32, bool, bool)
    ensures sum { result.0 ≡ sum_of x y carry }
    ensures carry { result.1 ≡ carry_out x y carry }
    ensures overflow { result.2 ≡ overflow_of x y carry }
{
    let sum = u64::from(x) + u64::from(y) + u64::from(carry);
    let signed = signed_sum(x.cast_signed(), y.cast_signed(), carry);
    (
        (sum & 0xffff_ffff) as u32,
        sum >= 0x1_0000_0000,
        !is_word(signed),
    )
}

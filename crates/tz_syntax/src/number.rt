//! Numbers as they are written.

ghost use Rattle.std.specs.Prelude.{◌≡◌, ◌<◌, ◌≤◌, MatchOption, false, length, true};
ghost use Rattle.std.specs.Char.{digit_value, is_digit};
ghost use Rattle.tz_syntax.specs.Tokens.{in_32_bits, digits_from, number_in, number_of};

/// The value of a digit of a base.
fn digit(byte: u8, base: u32) -> Option<u32>
    requires least { 2 ≤ base }
    requires most { base ≤ 16 }
    ensures value { MatchOption result (is_digit byte base ≡ false)
        (λ d. (is_digit byte base ≡ true) × (d ≡ digit_value byte)) }
    ensures small { MatchOption result (base < 17) (λ d. d < base) }
{
    char::from(byte).to_digit(base)
}

/// The number of 32 bits that digits of a base make.
fn number_in(base: u32, digits: &[u8]) -> Option<u32>
    requires least { 2 ≤ base }
    requires most { base ≤ 16 }
    ensures { number_in base digits.now ≡ result }
{
    if digits.is_empty() {
        return None;
    }
    let mut number: u64 = 0;
    for byte in digits {
        match digit(*byte, base) {
            Some(value) => number = u64::from(base) * number + u64::from(value),
            None => return None,
        }
        if number > u64::from(u32::MAX) {
            return None;
        }
    }
    Some(number as u32)
}

/// The number of 32 bits that a run is: decimal digits, or hexadecimal ones of either case behind `0x`.
#[tactic(auto, unfolding(crate::specs::Tokens::number_of))]
pub fn number(run: &[u8]) -> Option<u32>
    ensures { number_of run.now ≡ result }
{
    if run.len() >= 2 && run[0] == b'0' && run[1] == b'x' {
        number_in(16, &run[2..])
    } else {
        number_in(10, run)
    }
}

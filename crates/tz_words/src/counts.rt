//! Numbers in words.
//!
//! A number is 1 to 8 decimal digits and nothing else. What it counts, and which numbers are too large
//! for that, isn't known here.

ghost use Rattle.std.specs.Prelude.{◌≡◌, ◌↔◌, EachIndex, IsTrue, slice_index};
ghost use Rattle.std.specs.Int.{IsInRange};
ghost use Rattle.tz_words.specs.Counts.{count_of, is_count};

/// The most digits of a number.
const MOST_DIGITS: usize = 8;

/// Whether each byte of a word is a decimal digit.
fn are_digits(word: &str) -> bool
    ensures { IsTrue result ↔ EachIndex word.now (λ k. IsInRange 48 57 (slice_index word.now k)) }
{
    for byte in word.as_bytes() {
        if !byte.is_ascii_digit() {
            return false;
        }
    }
    true
}

/// Whether a word is a number of 1 to 8 decimal digits.
fn is_count(word: &str) -> bool
    ensures { result ≡ is_count word.now }
{
    let digits = word.len();
    if digits == 0 || digits > MOST_DIGITS {
        return false;
    }
    are_digits(word)
}

/// The number that a word writes; `None` where it writes none.
pub fn count_in(word: &str) -> Option<u32>
    ensures { result ≡ count_of word.now }
{
    if is_count(word) {
        word.parse().ok()
    } else {
        None
    }
}

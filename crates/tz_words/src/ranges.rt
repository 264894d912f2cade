//! Ranges of memory in words: `ADDRESS:LENGTH`.
//!
//! ADDRESS is 1 to 8 hexadecimal digits, with `0x` before them or without; LENGTH 1 to 8 decimal digits, or `0x` and 1 to
//! 8 hexadecimal ones. A range has 1 to 65536 bytes, none of which is past the last address.

ghost use Rattle.std.specs.Prelude.{◌≡◌, ◌<◌, ◌≤◌, length, codes, option_map};
ghost use Rattle.tz_words.specs.Parts.{behind};
ghost use Rattle.tz_words.specs.Ranges.{address_of, cut_at, hex_behind, hex_of, is_range, length_of, range_from, range_of};

use crate::counts::count_in;

/// So many bytes from an address on.
#[derive(Clone, Copy)]
pub struct Range {
    pub first: u32,
    pub count: u32,
}

/// The most hexadecimal digits of a number.
const MOST_DIGITS: usize = 8;

/// The most bytes of a range.
const MOST_BYTES: u32 = 65_536;

/// What stands before the first such character of a word, and what stands behind it, if there is one.
pub fn cut(word: &str, at: char) -> (&str, Option<&str>)
    requires { at < 128 }
    ensures { (result.0.now, option_map (λ s. s.now) result.1) ≡ cut_at at word.now }
{
    match word.split_once(at) {
        Some((before, behind)) => (before, Some(behind)),
        None => (word, None),
    }
}

/// The number that up to 8 hexadecimal digits write; `None` where another character stands among them.
fn hex_number(digits: &[u8]) -> Option<u32>
    requires { length digits.now ≤ 8 }
    ensures { result ≡ hex_behind 0 digits.now }
{
    let mut number = 0u32;
    for digit in digits {
        match char::from(*digit).to_digit(16) {
            Some(value) => number = number * 16 + value,
            None => return None,
        }
    }
    Some(number)
}

/// The number that 1 to 8 hexadecimal digits write; `None` where others stand there.
fn hex_in(digits: &[u8]) -> Option<u32>
    ensures { result ≡ hex_of digits.now }
{
    if digits.is_empty() || digits.len() > MOST_DIGITS {
        return None;
    }
    hex_number(digits)
}

/// What stands behind `0x`, where a word begins so.
fn unprefixed(word: &[u8]) -> Option<&[u8]>
    ensures { option_map (λ s. s.now) result ≡ behind (codes "0x") word.now }
{
    if word.len() < 2 || word[0] != b'0' || word[1] != b'x' {
        return None;
    }
    Some(&word[2..])
}

/// The address that a word writes.
fn address_in(word: &str) -> Option<u32>
    ensures { result ≡ address_of word.now }
{
    match unprefixed(word.as_bytes()) {
        Some(digits) => hex_in(digits),
        None => hex_in(word.as_bytes()),
    }
}

/// The count of bytes that a word writes.
fn length_in(word: &str) -> Option<u32>
    ensures { result ≡ length_of word.now }
{
    match unprefixed(word.as_bytes()) {
        Some(digits) => hex_in(digits),
        None => count_in(word),
    }
}

/// Whether so many bytes from an address on are a range.
fn is_range(first: u32, count: u32) -> bool
    ensures { result ≡ is_range first count }
{
    count >= 1 && count <= MOST_BYTES && count - 1 <= u32::MAX - first
}

/// The range of an address and a count of bytes.
fn range_from(first: Option<u32>, count: Option<u32>) -> Option<Range>
    ensures { result ≡ range_from first count }
{
    let (Some(first), Some(count)) = (first, count) else {
        return None;
    };
    if is_range(first, count) {
        Some(Range { first, count })
    } else {
        None
    }
}

/// The range that a word tells.
pub fn range_in(word: &str) -> Option<Range>
    ensures { result ≡ range_of word.now }
{
    match cut(word, ':') {
        (address, Some(count)) => range_from(address_in(address), length_in(count)),
        (_, None) => None,
    }
}

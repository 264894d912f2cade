//! Names as they are written, and the numbers that they stand for: registers, conditions, shifts and special
//! registers, in letters of either case.

ghost use Rattle.std.specs.Prelude.{◌≡◌, ◌<◌, IfSome, length, map};
ghost use Rattle.tz_syntax.specs.Spelling.{condition_of, place_in, register_of, shift_of, special_of, spells};

use crate::names::{CONDITIONS, NONSECURE_SPECIALS, REGISTERS, SHIFTS, SPECIALS};

/// Whether a word is a name of small letters, in letters of either case.
pub fn spells(word: &[u8], name: &[u8]) -> bool
    ensures { result ≡ spells word.now name.now }
{
    let mut bytes = word;
    let mut letters = name;
    while let (Some((byte, more_bytes)), Some((letter, more_letters))) = (
        bytes.split_first(),
        letters.split_first(),
    ) {
        if byte.to_ascii_lowercase() != *letter {
            return false;
        }
        bytes = more_bytes;
        letters = more_letters;
    }
    bytes.is_empty() && letters.is_empty()
}

/// The first of the names that a word is, by its place.
fn place_in(names: &[&'static str], word: &[u8]) -> Option<usize>
    ensures place { result ≡ place_in (map (λ name. name.now) names.now) word.now }
    ensures within { IfSome result (λ place. place < length names.now) }
{
    for (place, name) in names.iter().enumerate() {
        if spells(word, name.as_bytes()) {
            return Some(place);
        }
    }
    None
}

/// The register of a name.
pub fn register_of(word: &[u8]) -> Option<u32>
    ensures number { result ≡ register_of word.now }
    ensures below { IfSome result (λ number. number < 16) }
{
    match place_in(&REGISTERS, word) {
        Some(place) => Some(place as u32),
        None => None,
    }
}

/// The condition of a name, by the bits that a code has for it.
pub fn condition_of(word: &[u8]) -> Option<u32>
    ensures number { result ≡ condition_of word.now }
    ensures below { IfSome result (λ number. number < 15) }
{
    match place_in(&CONDITIONS, word) {
        Some(place) => Some(place as u32),
        None => None,
    }
}

/// The shift of a name, of those that have an amount.
pub fn shift_of(word: &[u8]) -> Option<u32>
    ensures number { result ≡ shift_of word.now }
    ensures below { IfSome result (λ number. number < 4) }
{
    match place_in(&SHIFTS, word) {
        Some(place) => Some(place as u32),
        None => None,
    }
}

/// The special register of a name.
pub fn special_of(word: &[u8]) -> Option<u32>
    ensures number { result ≡ special_of word.now }
    ensures below { IfSome result (λ number. number < 256) }
{
    match place_in(&SPECIALS, word) {
        Some(place) => Some(place as u32),
        None => match place_in(&NONSECURE_SPECIALS, word) {
            Some(place) => Some(0x88 + place as u32),
            None => None,
        },
    }
}

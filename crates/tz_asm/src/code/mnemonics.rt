//! Mnemonics: whether a word is that of a row of texts.

ghost use Rattle.std.specs.Prelude.{◌≡◌, option_map};
ghost use Rattle.tz_asm.specs.Mnemonics.{are_letters, behind, ends_well, is_letter, is_named, lettered, letters_of, may_end};
ghost use Rattle.tz_syntax.specs.Rows.{row_view, somes};

use tz_syntax::{Piece, TextRow};

/// What stands behind a name of small letters in a word that begins with it, in letters of either case.
pub fn behind<'w>(name: &[u8], word: &'w [u8]) -> Option<&'w [u8]>
    ensures { option_map (λ rest. rest.now) result ≡ behind name.now word.now }
{
    let mut letters = name;
    let mut rest = word;
    while let [letter, more_letters @ ..] = letters {
        match rest {
            [] => return None,
            [byte, bytes @ ..] => {
                if byte.to_ascii_lowercase() != *letter {
                    return None;
                }
                letters = more_letters;
                rest = bytes;
            }
        }
    }
    Some(rest)
}

/// Whether a byte is a letter behind `it`.
fn is_letter(byte: u8) -> bool
    ensures { result ≡ is_letter byte }
{
    let small = byte.to_ascii_lowercase();
    small == b't' || small == b'e'
}

/// Whether bytes may stand behind `it`.
fn are_letters(bytes: &[u8]) -> bool
    ensures { result ≡ are_letters bytes.now }
{
    if bytes.len() > 3 {
        return false;
    }
    for byte in bytes {
        if !is_letter(*byte) {
            return false;
        }
    }
    true
}

/// The places of the condition and the mask that a piece has as letters.
fn letters_of(piece: Piece) -> Option<(u8, u8)>
    ensures { result ≡ letters_of piece }
{
    match piece {
        Piece::Letters(i, j) => Some((i, j)),
        _ => None,
    }
}

/// The same of the first of some pieces.
pub fn lettered(pieces: &[Option<Piece>]) -> Option<(u8, u8)>
    ensures { result ≡ lettered (somes pieces.now) }
{
    for piece in pieces {
        if let Some(piece) = *piece {
            return letters_of(piece);
        }
    }
    None
}

/// Whether bytes may stand behind the mnemonic of a row whose letters have these places.
fn may_end(places: Option<(u8, u8)>, bytes: &[u8]) -> bool
    ensures { result ≡ may_end places bytes.now }
{
    match places {
        None => bytes.is_empty(),
        Some(_) => are_letters(bytes),
    }
}

/// Whether a word is the mnemonic of a row.
pub fn is_named(word: &[u8], row: &TextRow) -> bool
    ensures { result ≡ is_named word.now (row_view row.now) }
{
    match behind(row.mnemonic.as_bytes(), word) {
        None => false,
        Some(bytes) => may_end(lettered(&row.pieces), bytes),
    }
}

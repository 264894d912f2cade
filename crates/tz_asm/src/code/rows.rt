//! A statement read by a row of the texts.

ghost use Rattle.std.specs.Prelude.{◌≡◌, [], option_map, unwrap_or};
ghost use Rattle.tz_asm.specs.Front.{views};
ghost use Rattle.tz_asm.specs.Mnemonics.{behind as behind_of};
ghost use Rattle.tz_asm.specs.Rows.{all_read, begun, by_label, by_text, row_read, row_values, takes_label, with_fixed, with_letters};
ghost use Rattle.tz_asm.specs.CodeViews.{progress_view, site_view};
ghost use Rattle.tz_syntax.specs.Rows.{row_view, somes};

use crate::code::bits::mask_of;
use crate::code::mnemonics::{behind, lettered};
use crate::code::pieces::{Site, label_load_read, pieces_read};
use crate::code::progress::{Reading, put, with_value};
use tz_syntax::{TextRow, Token, number_at};

/// The number of the form of loads, of the size of a word, and of an address beside the program counter.
const LOAD: u32 = 58;

const WORD: u32 = 2;

const LITERAL: u32 = 4;

/// Puts the values that a row fixes at their places.
fn fix(values: &mut [i32; 9], fixed: &[Option<(u8, i32)>])
    ensures { values.new ≡ with_fixed (somes fixed.now) values.old }
{
    for entry in fixed {
        if let Some((place, value)) = *entry {
            put(values, place, value);
        }
    }
}

/// The values of a row before its operands.
#[tactic(auto, unfolding(crate::specs::Rows::row_values))]
fn row_values(row: &TextRow) -> [i32; 9]
    ensures { result ≡ row_values (row_view row.now) }
{
    let mut values = [i32::from(row.form), 0, 0, 0, 0, 0, 0, 0, 0];
    fix(&mut values, &row.fixed);
    values
}

/// Whether a row with these values is a load of a word that has its address beside the program counter.
fn takes_label(values: &[i32; 9]) -> bool
    ensures { result ≡ takes_label values.now }
{
    number_at(values, 0) == LOAD && number_at(values, 1) == WORD && number_at(values, 3) == LITERAL
}

/// What was read, where no token is left.
fn all_read<'t, 's>(read: Option<Reading<'t, 's>>) -> Option<Reading<'t, 's>>
    ensures { option_map progress_view result ≡ all_read (option_map progress_view read.entry) }
{
    match read {
        None => None,
        Some(reading) => if reading.rest.is_empty() {
            Some(reading)
        } else {
            None
        },
    }
}

/// What is read before the operands.
fn begun<'t, 's>(row: &TextRow, tokens: &'t [Token<'s>]) -> Reading<'t, 's>
    ensures { progress_view result ≡ begun (row_view row.now) (views tokens.now) }
{
    Reading {
        rest: tokens,
        values: row_values(row),
        held: true,
        labelled: false,
    }
}

/// The letters behind the mnemonic of a row in a word.
fn letters_behind<'w>(row: &TextRow, word: &'w [u8]) -> &'w [u8]
    ensures { result.now ≡ unwrap_or (behind_of (row_view row.now).mnemonic word.now) [] }
{
    match behind(row.mnemonic.as_bytes(), word) {
        None => &[],
        Some(letters) => letters,
    }
}

/// With the mask that the letters behind a mnemonic make with the condition that was read.
fn with_letters<'t, 's>(
    reading: Reading<'t, 's>,
    places: Option<(u8, u8)>,
    letters: &[u8],
) -> Reading<'t, 's>
    ensures { progress_view result ≡ with_letters places letters.now (progress_view reading.entry) }
{
    match places {
        None => reading,
        Some((condition, mask)) => {
            let condition = number_at(&reading.values, condition);
            with_value(reading, mask, Some(mask_of(condition, letters) as i32))
        }
    }
}

/// A statement by the text of a row.
fn by_text<'t, 's>(
    row: &TextRow,
    mnemonic: &[u8],
    tokens: &'t [Token<'s>],
    site: Site,
) -> Option<Reading<'t, 's>>
    ensures { option_map progress_view result ≡ by_text (row_view row.now) mnemonic.now (views tokens.now) (site_view site) }
{
    match all_read(pieces_read(begun(row, tokens), &row.pieces, site)) {
        None => None,
        Some(reading) => Some(with_letters(
            reading,
            lettered(&row.pieces),
            letters_behind(row, mnemonic),
        )),
    }
}

/// A load by a label.
fn by_label<'t, 's>(row: &TextRow, tokens: &'t [Token<'s>], site: Site) -> Option<Reading<'t, 's>>
    ensures { option_map progress_view result ≡ by_label (row_view row.now) (views tokens.now) (site_view site) }
{
    let begun = begun(row, tokens);
    if takes_label(&begun.values) {
        all_read(label_load_read(begun, site))
    } else {
        None
    }
}

/// What a row reads in a statement; none where the operands haven't its shape.
#[tactic(auto, unfolding(crate::specs::Rows::row_read))]
pub fn row_read<'t, 's>(
    row: &TextRow,
    mnemonic: &[u8],
    tokens: &'t [Token<'s>],
    site: Site,
) -> Option<Reading<'t, 's>>
    ensures { option_map progress_view result ≡ row_read (row_view row.now) mnemonic.now (views tokens.now) (site_view site) }
{
    match by_text(row, mnemonic, tokens, site) {
        Some(reading) => Some(reading),
        None => by_label(row, tokens, site),
    }
}

//! Statements: the width of a mnemonic, whether operands have a shape, and the code.

ghost use Rattle.std.specs.Prelude.{◌≡◌, MatchOption, map, option_map};
ghost use Rattle.tz_asm.specs.Coded.{Coded, FixedWidth, Gives, IsCodeOf, OneAnswer, Passes, means, shaped};
ghost use Rattle.tz_asm.specs.Mnemonics.{width_of_word};
ghost use Rattle.tz_asm.specs.CodeViews.{progress_view};
ghost use Rattle.tz_table.specs.declared.units.Code.{Code};
ghost use Rattle.tz_syntax.specs.Views.{token_view};

use crate::code::index::{next_row, rows_of};
use crate::code::pieces::Site;
use crate::code::progress::Reading;
use crate::code::rows::row_read;
use crate::code::uncoded::Uncoded;
use tz_decode::decode;
use tz_encode::{code_of_halves, find};
use tz_syntax::Token;
use tz_table::{Code, Decoded, Width};

/// The width that a mnemonic fixes, or none where the word is no mnemonic. Its letters may be of either case.
#[tactic(auto, unfolding(crate::specs::Mnemonics::width_of_word))]
pub fn width_of(mnemonic: &[u8]) -> Option<Width>
    ensures { result ≡ width_of_word mnemonic.now }
{
    match next_row(rows_of(mnemonic), mnemonic) {
        None => None,
        Some((row, _)) => Some(row.width),
    }
}

/// Whether the operands have the shape of a text of the mnemonic: the same kinds of tokens in the same order.
/// Registers, constants and targets count by their kind, each shift by its name.
#[tactic(auto, unfolding(crate::specs::Coded::shaped))]
pub fn has_shape(mnemonic: &[u8], operands: &[Token]) -> bool
    ensures { result ≡ shaped mnemonic.now (map token_view operands.now) }
{
    let site = Site { place: 0, label: 0 };
    let mut places = rows_of(mnemonic);
    while let Some((row, later)) = next_row(places, mnemonic) {
        if row_read(row, mnemonic, operands, site).is_some() {
            return true;
        }
        places = later;
    }
    false
}

/// Whether a code means an instruction with these values.
fn means(code: Code, values: &[i32; 9]) -> bool
    ensures { result ≡ means code values.now }
{
    match decode(code.first, code.second.unwrap_or(0)) {
        Decoded::One(insn, _) => tz_bits::values(&insn) == *values,
        _ => false,
    }
}

/// The code of the instruction of a width with these values, where there is such an instruction.
fn code_of_values(values: &[i32; 9], width: Width) -> Option<Code>
    ensures { MatchOption result ((code : Code) → IsCodeOf values.now width code → ⊥) (λ code. IsCodeOf values.now width code) }
{
    match find(values, width) {
        Err(_) => None,
        Ok(halves) => {
            let code = code_of_halves(width, halves);
            if means(code, values) {
                Some(code)
            } else {
                None
            }
        }
    }
}

/// The answer of a row of a width by what it reads, where it has one.
fn answer(
    read: Option<Reading<'_, '_>>,
    width: Width,
    label: Option<u32>,
) -> Option<Result<Code, Uncoded>>
    ensures { MatchOption result (Passes (option_map progress_view read.entry) width label) (λ answer. Gives (option_map progress_view read.entry) width label answer) }
{
    match read {
        None => None,
        Some(reading) => {
            if reading.labelled && label.is_none() {
                return Some(Err(Uncoded::NoLabel));
            }
            if !reading.held {
                return None;
            }
            match code_of_values(&reading.values, width) {
                None => None,
                Some(code) => Some(Ok(code)),
            }
        }
    }
}

/// The code of the instruction at `place`. `label` is what the last operand stands for where it is a label; it isn't
/// looked at where there is none. The error tells that a label is missing, or that no instruction that has a code has
/// the values.
pub fn code_of(
    mnemonic: &[u8],
    operands: &[Token],
    place: u32,
    label: Option<u32>,
) -> Result<Code, Uncoded>
    ensures { Coded mnemonic.now (map token_view operands.now) place label result }
{
    let site = Site {
        place,
        label: label.unwrap_or(0),
    };
    let mut places = rows_of(mnemonic);
    while let Some((row, later)) = next_row(places, mnemonic) {
        let read = row_read(row, mnemonic, operands, site);
        if let Some(answer) = answer(read, row.width, label) {
            return answer;
        }
        places = later;
    }
    Err(Uncoded::Range)
}

/// A statement at a place has one answer.
pub fn coded_once()
    ensures { OneAnswer }
{}

/// A code has the width that its mnemonic fixes.
pub fn coded_width()
    ensures { FixedWidth }
{}

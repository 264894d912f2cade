//! The bytes of statements.

ghost use Rattle.std.specs.Prelude.{◌≡◌, ◌+◌, ◌≤◌, ◌^◌, ◌++◌, [], Err, IfErr, MatchOption, None, Ok, OnOk, length};
ghost use Rattle.tz_asm.specs.Errors.{IsRefusal, Tells};
ghost use Rattle.tz_asm.specs.Layouts.{byte_count, padding};
ghost use Rattle.tz_asm.specs.Places.{places_in};
ghost use Rattle.tz_asm.specs.Values.{data_bytes};
ghost use Rattle.tz_asm.specs.Written.{InstructionWrites, Writes, as_address, code_bytes, equ_bytes, label_value, last_word, text_bytes, uncoded, word_of};
ghost use Rattle.tz_asm.specs.Views.{expression_view, statement_view, views};
ghost use Rattle.tz_syntax.specs.Views.{token_view};

use crate::code::{Uncoded, code_of};
use crate::error::AsmError;
use crate::layout::padding;
use crate::places::{Places, value_named};
use crate::source::{Expression, Statement};
use crate::values::{Value, in_size, push_low_first, value_of};
use std::alloc::AllocError;
use tz_syntax::Token;
use tz_table::{Code, Size, Width};

/// The bytes of a value.
#[tactic(auto, unfolding(crate::specs::Values::data_bytes))]
fn write_data<'s>(
    places: &Places<'s>,
    line: u32,
    size: Size,
    expression: &Expression<'s>,
    bytes: &mut Vec<u8>,
) -> Result<(), AsmError>
    requires { bytes.old.items ≡ [] }
    ensures ok { OnOk result (data_bytes line (places_in places.now) size (expression_view expression.now)
        ≡ Ok bytes.new.items) }
    ensures err { IfErr result (λ e. IsRefusal e
        (data_bytes line (places_in places.now) size (expression_view expression.now))) }
{
    let Some(value) = value_of(places, expression) else {
        return Err(AsmError::NoLabel(line));
    };
    let Some(number) = in_size(size, value) else {
        return Err(AsmError::Range(line));
    };
    match push_low_first(bytes, size, number) {
        Ok(()) => Ok(()),
        Err(_) => Err(AsmError::Memory),
    }
}

/// The last token.
fn last<'s>(tokens: &[Token<'s>]) -> Option<Token<'s>>
    ensures { MatchOption result (last_word (views tokens.now) ≡ None)
        (λ t. last_word (views tokens.now) ≡ word_of (token_view t)) }
{
    match tokens.split_last() {
        None => None,
        Some((token, _)) => Some(*token),
    }
}

/// The value of the label that the last operand may be.
fn label_value<'s>(places: &Places<'s>, operands: &[Token<'s>]) -> Option<Value>
    ensures { label_value (places_in places.now) (views operands.now) ≡ result }
{
    match last(operands) {
        None => None,
        Some(Token::Word(word)) => value_named(places, word),
        Some(Token::Number(_)) => None,
        Some(Token::Mark(_)) => None,
    }
}

/// Appends a code of a width.
fn push_code(bytes: &mut Vec<u8>, width: Width, code: Code) -> Result<(), AllocError>
    ensures { OnOk result (bytes.new.items ≡ bytes.old.items ++ code_bytes width code) }
{
    push_low_first(bytes, Size::Half, u64::from(code.first))?;
    match width {
        Width::Narrow => Ok(()),
        Width::Wide => push_low_first(bytes, Size::Half, u64::from(code.second.unwrap_or(0))),
    }
}

/// Why an instruction has no code, where the label among its operands has a value or none.
fn error_of(line: u32, label: Option<Value>, cause: Uncoded) -> AsmError
    ensures { Tells result (λ r. uncoded line label cause ≡ r) }
{
    match cause {
        Uncoded::Range => AsmError::Range(line),
        Uncoded::NoLabel => match label {
            None => AsmError::NoLabel(line),
            Some(_) => AsmError::Range(line),
        },
    }
}

/// A value, where it is an address.
fn as_address(value: Option<Value>) -> Option<u32>
    ensures { as_address value ≡ result }
{
    match value {
        Some(value) => {
            if value.negative && value.size != 0 {
                None
            } else if value.size < 0x1_0000_0000 {
                Some(value.size as u32)
            } else {
                None
            }
        }
        None => None,
    }
}

/// Writes what an `.equ` gives, where its label got a value or none.
fn write_equ(line: u32, value: Option<Value>) -> Result<(), AsmError>
    ensures ok { OnOk result (equ_bytes line value ≡ Ok []) }
    ensures err { IfErr result (λ e. IsRefusal e (equ_bytes line value)) }
{
    match value {
        Some(_) => Ok(()),
        None => Err(AsmError::NoLabel(line)),
    }
}

/// Appends a text, and the zero byte that it may end with.
fn push_text(text: &[u8], ends: bool, bytes: &mut Vec<u8>) -> Result<(), AllocError>
    ensures { OnOk result (bytes.new.items ≡ bytes.old.items ++ text_bytes text.now ends) }
{
    bytes.extend_from_slice(text)?;
    if ends {
        bytes.push(0)?;
    }
    Ok(())
}

/// Writes the code of an instruction at a place, as what is appended to nothing.
fn write_instruction<'s>(
    places: &Places<'s>,
    line: u32,
    place: u32,
    width: Width,
    mnemonic: &'s [u8],
    operands: &[Token<'s>],
    bytes: &mut Vec<u8>,
) -> Result<(), AsmError>
    requires { bytes.old.items ≡ [] }
    ensures ok { OnOk result (InstructionWrites line (places_in places.now) place width mnemonic.now
        (views operands.now) (Ok bytes.new.items)) }
    ensures err { IfErr result (λ e. Tells e (λ r. InstructionWrites line (places_in places.now) place width
        mnemonic.now (views operands.now) (Err r))) }
{
    let label = label_value(places, operands);
    match code_of(mnemonic, operands, place, as_address(label)) {
        Ok(code) => match push_code(bytes, width, code) {
            Ok(()) => Ok(()),
            Err(_) => Err(AsmError::Memory),
        },
        Err(cause) => Err(error_of(line, label, cause)),
    }
}

/// Writes the bytes of a statement at a place, in place of what `bytes` had. The refusals are `NoLabel` and
/// `Range`.
#[tactic(auto, unfolding(crate::specs::Written::Writes, crate::specs::Layouts::byte_count, crate::specs::Values::data_bytes))]
pub fn write_statement<'s>(
    places: &Places<'s>,
    line: u32,
    place: u64,
    statement: &Statement<'_, 's>,
    bytes: &mut Vec<u8>,
) -> Result<(), AsmError>
    requires { place + byte_count place (statement_view statement.now) ≤ 2 ^ 32 }
    ensures ok { OnOk result (Writes line (places_in places.now) place (statement_view statement.now)
        (Ok bytes.new.items)) }
    ensures count { OnOk result (length bytes.new.items ≡ byte_count place (statement_view statement.now)) }
    ensures err { IfErr result (λ e. Tells e (λ r. Writes line (places_in places.now) place
        (statement_view statement.now) (Err r))) }
{
    bytes.clear();
    match *statement {
        Statement::Nothing => Ok(()),
        Statement::Org(_) => Ok(()),
        Statement::Align(multiple) => match bytes.resize(padding(multiple, place) as usize, 0) {
            Ok(()) => Ok(()),
            Err(_) => Err(AsmError::Memory),
        },
        Statement::Data(size, expression) => write_data(places, line, size, &expression, bytes),
        Statement::Equ(name, _) => write_equ(line, value_named(places, name)),
        Statement::Space(count) => match bytes.resize(count as usize, 0) {
            Ok(()) => Ok(()),
            Err(_) => Err(AsmError::Memory),
        },
        Statement::Text(text, ends) => match push_text(text, ends, bytes) {
            Ok(()) => Ok(()),
            Err(_) => Err(AsmError::Memory),
        },
        Statement::Instruction(width, mnemonic, operands) => write_instruction(
            places,
            line,
            place as u32,
            width,
            mnemonic,
            operands,
            bytes,
        ),
    }
}

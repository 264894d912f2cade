//! Lines.

ghost use Rattle.std.specs.Prelude.{◌≡◌, Err, IfErr, IfOk, Ok};
ghost use Rattle.tz_asm.specs.SourceLines.{labelled, line_of};
ghost use Rattle.tz_asm.specs.Statements.{statement_with};
ghost use Rattle.tz_asm.specs.Views.{ending_view, line_view, views};

use crate::source::label::label_at;
use crate::source::statement::{Ending, LineError, Statement, statement_with};
use tz_syntax::{Token, register_of};

/// What a line says.
#[derive(Clone, Copy)]
pub struct SourceLine<'t, 's> {
    /// The label that the line defines.
    pub label: Option<&'s [u8]>,
    pub statement: Statement<'t, 's>,
}

/// A line with a label.
#[tactic(auto, unfolding(crate::specs::SourceLines::labelled))]
fn labelled<'t, 's>(
    name: &'s [u8],
    tokens: &'t [Token<'s>],
    ending: Ending<'t>,
) -> Result<SourceLine<'t, 's>, LineError>
    ensures ok { IfOk result (λ l. labelled name.now (statement_with (views tokens.now) (ending_view ending.entry))
        ≡ Ok (line_view l)) }
    ensures err { IfErr result (λ e. labelled name.now (statement_with (views tokens.now) (ending_view ending.entry))
        ≡ Err e) }
{
    match statement_with(tokens, ending) {
        Err(error) => Err(error),
        Ok(statement) => {
            if register_of(name).is_some() {
                Err(LineError::Operands)
            } else {
                Ok(SourceLine {
                    label: Some(name),
                    statement,
                })
            }
        }
    }
}

/// What a line of these tokens and this ending says, or the first cause to refuse it: `Mnemonic`, and then
/// `Operands`.
#[tactic(auto, unfolding(crate::specs::SourceLines::line_of))]
pub fn read_line<'t, 's>(
    tokens: &'t [Token<'s>],
    ending: Ending<'t>,
) -> Result<SourceLine<'t, 's>, LineError>
    ensures ok { IfOk result (λ l. line_of (views tokens.now) (ending_view ending.entry) ≡ Ok (line_view l)) }
    ensures err { IfErr result (λ e. line_of (views tokens.now) (ending_view ending.entry) ≡ Err e) }
{
    match label_at(tokens) {
        Some((name, rest)) => labelled(name, rest, ending),
        None => match statement_with(tokens, ending) {
            Err(error) => Err(error),
            Ok(statement) => Ok(SourceLine {
                label: None,
                statement,
            }),
        },
    }
}

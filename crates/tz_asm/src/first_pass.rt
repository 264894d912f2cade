//! The first pass: the value of each label.

ghost use Rattle.std.specs.Prelude.{◌≡◌, ◌<◌, ◌^◌, IfErr, IfOk, Ok, OnOk, length};
ghost use Rattle.tz_asm.specs.Errors.{IsRefusal};
ghost use Rattle.tz_asm.specs.FirstPass.{equ_name, equ_value, first_pass, first_turn};
ghost use Rattle.tz_asm.specs.Layouts.{IsLayout};
ghost use Rattle.tz_asm.specs.Places.{defined, places_in};
ghost use Rattle.tz_asm.specs.Views.{statement_view};

use crate::error::AsmError;
use crate::layout::Layout;
use crate::places::{Places, define};
use crate::reading::{said_by, tokens_in};
use crate::source::Statement;
use crate::values::{Value, value_of};
use std::alloc::Global;
use std::collections::BTreeMap;
use tz_syntax::{Token, first_line};

/// Adds the label that a line's statement defines, if it is an `.equ`.
#[tactic(auto, unfolding(crate::specs::Places::defined))]
fn equate<'s>(
    places: &mut Places<'s>,
    line: u32,
    statement: &Statement<'_, 's>,
) -> Result<(), AsmError>
    ensures ok { OnOk result (defined line (equ_name (statement_view statement.now))
        (equ_value (places_in places.old) (statement_view statement.now)) (places_in places.old)
        ≡ Ok (places_in places.new)) }
    ensures err { IfErr result (λ e. IsRefusal e (defined line (equ_name (statement_view statement.now))
        (equ_value (places_in places.old) (statement_view statement.now)) (places_in places.old))) }
{
    match *statement {
        Statement::Equ(name, expression) => {
            let value = value_of(places, &expression);
            define(places, line, Some(name), value)
        }
        _ => Ok(()),
    }
}

/// A line's turn: the labels that it defines are added, and the layout behind it is told.
fn first_turn<'s>(
    line: u32,
    text: &'s [u8],
    tokens: &mut Vec<Token<'s>>,
    bytes: &mut Vec<u8>,
    places: &mut Places<'s>,
    layout: Layout,
) -> Result<Layout, AsmError>
    requires { IsLayout layout }
    ensures ok { IfOk result (λ next. first_turn line (places_in places.old) layout text.now
        ≡ Ok (places_in places.new, next)) }
    ensures within { IfOk result (λ next. IsLayout next) }
    ensures err { IfErr result (λ e. IsRefusal e (first_turn line (places_in places.old) layout text.now)) }
{
    let found = match tokens_in(line, text, tokens, bytes) {
        Ok(found) => found,
        Err(error) => return Err(error),
    };
    let said = match said_by(line, tokens.as_slice(), found, bytes.as_slice()) {
        Ok(said) => said,
        Err(error) => return Err(error),
    };
    let here = Value {
        negative: false,
        size: layout.place,
    };
    if let Err(error) = define(places, line, said.label, Some(here)) {
        return Err(error);
    }
    if let Err(error) = equate(places, line, &said.statement) {
        return Err(error);
    }
    layout.advance(line, &said.statement)
}

/// The value of each label of a source.
pub fn first_pass<'s>(alloc: Global, source: &'s [u8]) -> Result<Places<'s>, AsmError>
    requires { length source.now < 2 ^ 32 }
    ensures ok { IfOk result (λ p. first_pass source.now ≡ Ok (places_in p)) }
    ensures err { IfErr result (λ e. IsRefusal e (first_pass source.now)) }
{
    let mut places = BTreeMap::new(alloc);
    let mut tokens = Vec::new(alloc);
    let mut bytes = Vec::new(alloc);
    let mut layout = Layout::start();
    let mut rest = source;
    let mut line: u64 = 1;
    while !rest.is_empty() {
        let (text, after) = first_line(rest);
        match first_turn(
            line as u32,
            text,
            &mut tokens,
            &mut bytes,
            &mut places,
            layout,
        ) {
            Ok(next) => layout = next,
            Err(error) => return Err(error),
        }
        line += 1;
        rest = after;
    }
    Ok(places)
}

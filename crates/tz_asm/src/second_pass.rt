//! The second pass: the bytes of each line.

ghost use Rattle.std.specs.Prelude.{◌≡◌, ◌<◌, ◌^◌, Err, IfErr, IfOk, Ok, length};
ghost use Rattle.tz_asm.specs.Errors.{Tells};
ghost use Rattle.tz_asm.specs.Growing.{Fits, growing_view};
ghost use Rattle.tz_asm.specs.Layouts.{IsLayout};
ghost use Rattle.tz_asm.specs.Places.{places_in};
ghost use Rattle.tz_asm.specs.SecondPass.{SecondPass, SecondTurn};
ghost use Rattle.tz_model.specs.Image.{IsImage};

use crate::error::AsmError;
use crate::growing::Growing;
use crate::layout::Layout;
use crate::places::Places;
use crate::reading::{said_by, tokens_in};
use crate::written::write_statement;
use std::alloc::Global;
use tz_model::Segment;
use tz_syntax::{Token, first_line};

/// A line's turn: its bytes are put behind those of the lines before, and the layout behind it is told.
fn second_turn<'s>(
    alloc: Global,
    line: u32,
    text: &'s [u8],
    tokens: &mut Vec<Token<'s>>,
    text_bytes: &mut Vec<u8>,
    places: &Places<'s>,
    layout: Layout,
    bytes: &mut Vec<u8>,
    growing: &mut Growing,
) -> Result<Layout, AsmError>
    requires within { IsLayout layout }
    requires fits { Fits layout (growing_view growing.old) }
    ensures ok { IfOk result (λ next. SecondTurn line (places_in places.now) layout (growing_view growing.old) text.now (Ok (next, growing_view growing.new))) }
    ensures within { IfOk result (λ next. IsLayout next) }
    ensures fits { IfOk result (λ next. Fits next (growing_view growing.new)) }
    ensures err { IfErr result (λ e. Tells e (λ r. SecondTurn line (places_in places.now) layout (growing_view growing.old) text.now (Err r))) }
{
    let found = match tokens_in(line, text, tokens, text_bytes) {
        Ok(found) => found,
        Err(error) => return Err(error),
    };
    let said = match said_by(line, tokens.as_slice(), found, text_bytes.as_slice()) {
        Ok(said) => said,
        Err(error) => return Err(error),
    };
    let next = match layout.advance(line, &said.statement) {
        Ok(next) => next,
        Err(error) => return Err(error),
    };
    if let Err(error) = write_statement(places, line, layout.place, &said.statement, bytes) {
        return Err(error);
    }
    match growing.grow(alloc, layout.inside, layout.place, bytes.as_slice()) {
        Ok(()) => Ok(next),
        Err(_) => Err(AsmError::Memory),
    }
}

/// The segments of a source whose labels have these places.
pub fn second_pass<'s>(
    alloc: Global,
    source: &'s [u8],
    places: &Places<'s>,
) -> Result<Vec<Segment>, AsmError>
    requires { length source.now < 2 ^ 32 }
    ensures ok { IfOk result (λ v. SecondPass source.now (places_in places.now) (Ok v.items)) }
    ensures image { IfOk result (λ v. IsImage v.items) }
    ensures few { IfOk result (λ v. length v.items < 65536) }
    ensures err { IfErr result (λ e. Tells e (λ r. SecondPass source.now (places_in places.now) (Err r))) }
{
    let mut tokens = Vec::new(alloc);
    let mut text_bytes = Vec::new(alloc);
    let mut bytes = Vec::new(alloc);
    let mut growing = Growing::nothing(alloc);
    let mut layout = Layout::start();
    let mut rest = source;
    let mut line: u64 = 1;
    while !rest.is_empty() {
        let (text, after) = first_line(rest);
        match second_turn(
            alloc,
            line as u32,
            text,
            &mut tokens,
            &mut text_bytes,
            places,
            layout,
            &mut bytes,
            &mut growing,
        ) {
            Ok(next) => layout = next,
            Err(error) => return Err(error),
        }
        line += 1;
        rest = after;
    }
    match growing.segments(alloc) {
        Ok(segments) => Ok(segments),
        Err(_) => Err(AsmError::Memory),
    }
}

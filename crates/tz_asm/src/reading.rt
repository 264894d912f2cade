//! A line of source with its number.

ghost use Rattle.std.specs.Prelude.{◌≡◌, IfErr, IfOk, Ok, Some, option_map};
ghost use Rattle.tz_asm.specs.Errors.{IsRefusal};
ghost use Rattle.tz_asm.specs.Reading.{at_line, said};
ghost use Rattle.tz_asm.specs.SourceLines.{line_of};
ghost use Rattle.tz_asm.specs.Texts.{ending_of, line_read};
ghost use Rattle.tz_asm.specs.Views.{ending_view, found_view, line_view, views};

use crate::error::AsmError;
use crate::source::{Ending, LineError, SourceLine, quoted_at, read_line, read_text};
use std::alloc::AllocError;
use tz_syntax::{Token, read_tokens, without_comment};

/// What was found behind the tokens of a line.
#[derive(Clone, Copy)]
pub enum EndingKind {
    /// Nothing.
    Tokens,
    /// A text.
    Text,
    /// A text, and more tokens.
    More,
}

/// Reads a line from behind its first `"` on: the bytes of the text, in place of what `bytes` had. `None`
/// says that it isn't a text with tokens behind it. `tokens` takes these.
#[tactic(auto, unfolding(crate::specs::Texts::ending_of))]
fn read_ending<'s>(
    line: &'s [u8],
    tokens: &mut Vec<Token<'s>>,
    bytes: &mut Vec<u8>,
) -> Result<Option<EndingKind>, AllocError>
    ensures { IfOk result (λ found. ending_of line.now
        ≡ option_map (λ f. found_view f bytes.new.items) found) }
{
    let Some(behind) = read_text(line, bytes)? else {
        return Ok(None);
    };
    if !read_tokens(without_comment(behind), tokens)? {
        return Ok(None);
    }
    if tokens.is_empty() {
        Ok(Some(EndingKind::Text))
    } else {
        Ok(Some(EndingKind::More))
    }
}

/// Reads the tokens of a line and the bytes of its text. `None` says that it isn't a list of tokens.
#[tactic(auto, unfolding(crate::specs::Texts::line_read))]
fn read_parts<'s>(
    line: &'s [u8],
    tokens: &mut Vec<Token<'s>>,
    bytes: &mut Vec<u8>,
) -> Result<Option<EndingKind>, AllocError>
    ensures { IfOk result (λ found. line_read line.now
        ≡ option_map (λ f. (views tokens.new.items, found_view f bytes.new.items)) found) }
{
    let Some((head, rest)) = quoted_at(line) else {
        if read_tokens(without_comment(line), tokens)? {
            return Ok(Some(EndingKind::Tokens));
        }
        return Ok(None);
    };
    let Some(found) = read_ending(rest, tokens, bytes)? else {
        return Ok(None);
    };
    if read_tokens(head, tokens)? {
        Ok(Some(found))
    } else {
        Ok(None)
    }
}

/// Reads the tokens of a line in place of what `tokens` had, and its text in place of what `bytes` had.
#[tactic(auto, unfolding(crate::specs::Reading::said, crate::specs::SourceLines::source_line))]
pub fn tokens_in<'s>(
    line: u32,
    text: &'s [u8],
    tokens: &mut Vec<Token<'s>>,
    bytes: &mut Vec<u8>,
) -> Result<EndingKind, AsmError>
    ensures ok { IfOk result (λ f. line_read text.now
        ≡ Some (views tokens.new.items, found_view f bytes.new.items)) }
    ensures err { IfErr result (λ e. IsRefusal e (said line text.now)) }
{
    match read_parts(text, tokens, bytes) {
        Ok(Some(found)) => Ok(found),
        Ok(None) => Err(AsmError::Token(line)),
        Err(_) => Err(AsmError::Memory),
    }
}

/// The ending that was found, of which the text's bytes are these.
fn ending_of<'t>(found: EndingKind, bytes: &'t [u8]) -> Ending<'t>
    ensures { ending_view result ≡ found_view found bytes.now }
{
    match found {
        EndingKind::Tokens => Ending::Tokens,
        EndingKind::Text => Ending::Text(bytes),
        EndingKind::More => Ending::More,
    }
}

/// What a line of these tokens says, behind which this was found.
pub fn said_by<'t, 's>(
    line: u32,
    tokens: &'t [Token<'s>],
    found: EndingKind,
    bytes: &'t [u8],
) -> Result<SourceLine<'t, 's>, AsmError>
    ensures ok { IfOk result (λ l. at_line line (line_of (views tokens.now) (found_view found bytes.now))
        ≡ Ok (line_view l)) }
    ensures err { IfErr result (λ e. IsRefusal e
        (at_line line (line_of (views tokens.now) (found_view found bytes.now)))) }
{
    match read_line(tokens, ending_of(found, bytes)) {
        Ok(said) => Ok(said),
        Err(LineError::Token) => Err(AsmError::Token(line)),
        Err(LineError::Mnemonic) => Err(AsmError::Mnemonic(line)),
        Err(LineError::Operands) => Err(AsmError::Operands(line)),
    }
}

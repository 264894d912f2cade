//! Tokens, one after another.

ghost use Rattle.std.specs.Prelude.{◌≡◌, ◌<◌, ◌==◌, IfOk, MatchOption, None, Some, codes, if◌then◌else◌, length, map, option_map, slice_index, true};
ghost use Rattle.std.specs.List.{list_any};
ghost use Rattle.tz_syntax.specs.Tokens.{is_blank, is_mark, is_word_byte, token_of, tokens_of};
ghost use Rattle.tz_syntax.specs.Views.{before_maybe, token_view};

use crate::number::number;
use crate::runs::{first_run, is_word_byte};
use std::alloc::AllocError;

/// A token. A word lies in the line that it was read from.
#[derive(Clone, Copy)]
pub enum Token<'s> {
    /// Letters, digits, `_` and `.`, of which the first is no digit.
    Word(&'s [u8]),
    /// A number, which was written in decimal or in hexadecimal digits.
    Number(u32),
    /// One of the bytes `#`, `,`, `[`, `]`, `{`, `}`, `!`, `:`, `+` and `-`.
    Mark(u8),
}

/// What stands first in a line that isn't empty.
#[derive(Clone, Copy)]
struct First<'s> {
    /// The token, or none where it is a blank.
    token: Option<Token<'s>>,
    /// What follows.
    after: &'s [u8],
}

/// Whether a byte may stand between tokens.
fn is_blank(byte: u8) -> bool
    ensures { result ≡ is_blank byte }
{
    byte == b' ' || byte == b'\t' || byte == b'\r'
}

/// Whether a byte is a token by itself.
fn is_mark(byte: u8) -> bool
    ensures { result ≡ is_mark byte }
{
    b"#,[]{}!:+-".contains(&byte)
}

/// The token that a run of letters, digits, `_` and `.` is.
#[tactic(auto, unfolding(crate::specs::Tokens::token_of))]
fn token_of(run: &[u8]) -> Option<Token<'_>>
    requires { 0 < length run.now }
    ensures { token_of run.now ≡ option_map token_view result }
{
    if run[0].is_ascii_digit() {
        match number(run) {
            Some(value) => Some(Token::Number(value)),
            None => None,
        }
    } else {
        Some(Token::Word(run))
    }
}

/// What stands first in a line, or none where it is no token.
fn first_token(line: &[u8]) -> Option<First<'_>>
    requires { 0 < length line.now }
    ensures tokens { MatchOption result (tokens_of line.now ≡ None)
        (λ f. tokens_of line.now ≡ before_maybe f.token (tokens_of f.after.now)) }
    ensures shorter { MatchOption result (0 < length line.now) (λ f. length f.after.now < length line.now) }
{
    let byte = line[0];
    if is_word_byte(byte) {
        let (run, after) = first_run(line);
        match token_of(run) {
            None => None,
            Some(token) => Some(First {
                token: Some(token),
                after,
            }),
        }
    } else if is_blank(byte) {
        Some(First {
            token: None,
            after: &line[1..],
        })
    } else if is_mark(byte) {
        Some(First {
            token: Some(Token::Mark(byte)),
            after: &line[1..],
        })
    } else {
        None
    }
}

/// Reads the tokens of a line whose comment is left out, in place of what `tokens` had. `Ok(false)` says
/// that the line isn't a list of tokens; what `tokens` has then says nothing. The error is want of memory.
pub fn read_tokens<'s>(line: &'s [u8], tokens: &mut Vec<Token<'s>>) -> Result<bool, AllocError>
    ensures { IfOk result (λ is. tokens_of line.now ≡ (if is then Some (map token_view tokens.new.items) else None)) }
{
    tokens.clear();
    let mut rest = line;
    while !rest.is_empty() {
        let Some(first) = first_token(rest) else {
            return Ok(false);
        };
        if let Some(token) = first.token {
            tokens.push(token)?;
        }
        rest = first.after;
    }
    Ok(true)
}

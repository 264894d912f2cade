//! The words of `show`: those that begin a run, or `--state` with the names of a state's file and of its board; and the
//! option `--memory`, any number of times.
//!
//! clap's part here has one option, so these words are read by hand, in the same way: an option may stand anywhere, has
//! its value behind `=` or in the next word, and none stands behind `--`.

ghost use Rattle.std.specs.Prelude.{◌≡◌, IfOk, Some, map, string_bytes, option_map};
ghost use Rattle.tz_words.specs.Commands.{command_in, show_behind, show_parts, show_with};
ghost use Rattle.tz_words.specs.Parts.{is_hyphened};
ghost use Rattle.tz_words.specs.Ranges.{cut_at};
ghost use Rattle.tz_words.specs.ShowWords.{option_named, show_parts_in, with_any, with_option, with_positional, with_state, with_value, with_word};

use crate::command::Command;
use crate::ranges::{Range, cut, range_in};
use crate::start::{Work, start_of};
use std::alloc::{AllocError, Global};

/// An option of `show`.
#[derive(Clone, Copy)]
pub enum ShowOption {
    /// `--memory`, which tells a range.
    Memory,
    /// `--state`, which tells the name of a state's file.
    State,
}

/// What the next word is.
#[derive(Clone, Copy)]
pub enum Next {
    /// A positional word, an option, or `--`.
    AnyWord,
    /// The value of an option, whatever it looks like.
    ItsValue(ShowOption),
    /// A positional word, whatever it looks like.
    NoOption,
}

/// What was read of words.
#[derive(Drop)]
pub struct ShowParts<'a> {
    positionals: Vec<&'a str>,
    ranges: Vec<Range>,
    state: Option<&'a str>,
    next: Next,
}

/// What `show --state` is told.
#[derive(Drop)]
pub struct SavedWords<'a> {
    /// The name of the board's file.
    pub board: &'a str,
    /// The name of the state's file.
    pub state: &'a str,
    /// What is shown of memory.
    pub ranges: Vec<Range>,
}

/// The option of a name.
fn option_named(name: &str) -> Option<ShowOption>
    ensures { result ≡ option_named name.now }
{
    match name {
        "--memory" => Some(ShowOption::Memory),
        "--state" => Some(ShowOption::State),
        _ => None,
    }
}

/// Whether a word begins with a hyphen and is longer than that.
fn is_hyphened(word: &str) -> bool
    ensures { result ≡ is_hyphened word.now }
{
    word.starts_with('-') && word.chars().count() > 1
}

/// The parts, with what the next word is.
fn expecting<'a>(parts: ShowParts<'a>, next: Next) -> ShowParts<'a>
    ensures { show_parts_in result ≡ record (show_parts_in parts.entry) { next = next } }
{
    let mut parts = parts;
    parts.next = next;
    parts
}

/// The parts with one positional word more.
fn with_positional<'a>(
    parts: ShowParts<'a>,
    word: &'a str,
) -> Result<Option<ShowParts<'a>>, AllocError>
    ensures { IfOk result (λ r. option_map show_parts_in r ≡ Some (with_positional word.now (show_parts_in parts.entry))) }
{
    let ShowParts {
        mut positionals,
        ranges,
        state,
        next,
    } = parts;
    positionals.push(word)?;
    Ok(Some(ShowParts {
        positionals,
        ranges,
        state,
        next,
    }))
}

/// The parts with the value of an option; `None` where it can't be that.
fn with_value<'a>(
    parts: ShowParts<'a>,
    option: ShowOption,
    value: &'a str,
) -> Result<Option<ShowParts<'a>>, AllocError>
    ensures { IfOk result (λ r. option_map show_parts_in r ≡ with_value option value.now (show_parts_in parts.entry)) }
{
    let ShowParts {
        positionals,
        mut ranges,
        mut state,
        next: _,
    } = parts;
    match option {
        ShowOption::Memory => match range_in(value) {
            Some(range) => ranges.push(range)?,
            None => return Ok(None),
        },
        ShowOption::State => {
            if state.is_some() {
                return Ok(None);
            }
            state = Some(value);
        }
    }
    Ok(Some(ShowParts {
        positionals,
        ranges,
        state,
        next: Next::AnyWord,
    }))
}

/// The parts with an option, by its name and the value behind that; `None` where it isn't one.
fn with_option<'a>(parts: ShowParts<'a>, word: &'a str) -> Result<Option<ShowParts<'a>>, AllocError>
    ensures { IfOk result (λ r. option_map show_parts_in r ≡ with_option (option_named (cut_at 61 word.now).0) (cut_at 61 word.now).1 (show_parts_in parts.entry)) }
{
    let (name, value) = cut(word, '=');
    match (option_named(name), value) {
        (None, _) => Ok(None),
        (Some(option), None) => Ok(Some(expecting(parts, Next::ItsValue(option)))),
        (Some(option), Some(value)) => with_value(parts, option, value),
    }
}

/// The parts with a word where options may stand; `None` where it is refused.
fn with_any<'a>(parts: ShowParts<'a>, word: &'a str) -> Result<Option<ShowParts<'a>>, AllocError>
    ensures { IfOk result (λ r. option_map show_parts_in r ≡ with_any word.now (show_parts_in parts.entry)) }
{
    if word == "--" {
        Ok(Some(expecting(parts, Next::NoOption)))
    } else if is_hyphened(word) {
        with_option(parts, word)
    } else {
        with_positional(parts, word)
    }
}

/// The parts with the next word; `None` where it is refused.
#[tactic(auto, unfolding(crate::specs::ShowWords::with_word))]
fn with_word<'a>(parts: ShowParts<'a>, word: &'a str) -> Result<Option<ShowParts<'a>>, AllocError>
    ensures { IfOk result (λ r. option_map show_parts_in r ≡ with_word word.now (show_parts_in parts.entry)) }
{
    match parts.next {
        Next::AnyWord => with_any(parts, word),
        Next::ItsValue(option) => with_value(parts, option, word),
        Next::NoOption => with_positional(parts, word),
    }
}

/// What these words and options tell `show`.
fn show_of<'a>(
    state: Option<&'a str>,
    positionals: &[&'a str],
    ranges: Vec<Range>,
) -> Option<Command<'a>>
    ensures { option_map command_in result ≡ show_with (option_map (λ w. w.now) state.entry) (map (λ w. w.now) positionals.now) ranges.items }
{
    match state {
        None => match start_of(Some(positionals)) {
            Some(start) => Some(Command::Start(start, Work::Page(ranges))),
            None => None,
        },
        Some(state) => match positionals {
            [board] => Some(Command::ShowSaved(SavedWords {
                board: *board,
                state,
                ranges,
            })),
            _ => None,
        },
    }
}

/// What the parts of all words tell `show`; `None` where the value of an option is missing.
fn show_parts<'a>(parts: ShowParts<'a>) -> Option<Command<'a>>
    ensures { option_map command_in result ≡ show_parts (show_parts_in parts.entry) }
{
    let ShowParts {
        positionals,
        ranges,
        state,
        next,
    } = parts;
    match next {
        Next::ItsValue(_) => None,
        Next::AnyWord | Next::NoOption => show_of(state, &positionals, ranges),
    }
}

/// `BOARD SECURE NONSECURE SCRIPT STEPS`, or `BOARD` with `--state FILE`, and `--memory ADDRESS:LENGTH` any number of
/// times, as they stand behind `show`; `None` where they are refused.
pub fn show_command<'a>(
    alloc: Global,
    words: &'a [String],
) -> Result<Option<Command<'a>>, AllocError>
    ensures { IfOk result (λ r. option_map command_in r ≡ show_behind (map string_bytes words.now)) }
{
    let mut parts = ShowParts {
        positionals: Vec::new(alloc),
        ranges: Vec::new(alloc),
        state: None,
        next: Next::AnyWord,
    };
    for word in words {
        parts = match with_word(parts, word.as_str())? {
            Some(parts) => parts,
            None => return Ok(None),
        };
    }
    Ok(show_parts(parts))
}

//! The words of `back`: four names of files, how many steps are made, how many of them are undone, and the option
//! `--view`.

ghost use Rattle.std.specs.Prelude.{◌≡◌, [], Some, IfOk, map, string_bytes, option_map, unwrap_or};
ghost use Rattle.tz_words.specs.Found.{parts_in};
ghost use Rattle.tz_words.specs.Commands.{Back, command_in};
ghost use Rattle.tz_words.specs.Back.{back_behind, back_in, back_parts, back_with};

use crate::command::Command;
use crate::counts::count_in;
use crate::leaf::matches;
use crate::start::StartWords;
use crate::views::{VIEWS, view_in};
use clap::ArgMatches;
use std::alloc::{AllocError, Global};
use tz_model::View;

/// What `back` is told.
#[derive(Clone, Copy)]
pub struct BackWords<'a> {
    /// What begins the run, with how many steps are made.
    pub start: StartWords<'a>,
    /// How many of them are undone, made again and written: no more than are made.
    pub back: u32,
    /// What the trace shows of each step.
    pub view: View,
}

/// What six words and a view tell; `None` where there are others, or where more steps are undone than are made.
fn back_of<'a>(view: View, words: Option<&[&'a str]>) -> Option<BackWords<'a>>
    ensures { option_map back_in result ≡ back_with (Some view) (unwrap_or (option_map (λ s. map (λ v. v.now) s.now) words.entry) []) }
{
    let Some(&[board, secure, nonsecure, script, steps, back]) = words else {
        return None;
    };
    let Some(steps) = count_in(steps) else {
        return None;
    };
    let Some(back) = count_in(back) else {
        return None;
    };
    if steps < back {
        return None;
    }
    Some(BackWords {
        start: StartWords {
            board,
            secure,
            nonsecure,
            script,
            steps,
        },
        back,
        view,
    })
}

/// The words of `back` in what clap found.
fn back_found<'a>(found: &ArgMatches<'a>) -> Option<Command<'a>>
    ensures { option_map command_in result ≡ option_map Back (back_parts (parts_in found.now)) }
{
    let Some(view) = view_in(found.get_strs("option")) else {
        return None;
    };
    match back_of(view, found.get_strs("words")) {
        Some(words) => Some(Command::Back(words)),
        None => None,
    }
}

/// `BOARD SECURE NONSECURE SCRIPT STEPS BACK [--view ns or all]`, as they stand behind `back`; `None` where
/// they are refused.
pub fn back_command<'a>(
    alloc: Global,
    words: &'a [String],
) -> Result<Option<Command<'a>>, AllocError>
    ensures { IfOk result (λ r. option_map command_in r ≡ option_map Back (back_behind (map string_bytes words.now))) }
{
    match matches(alloc, "view", VIEWS.as_slice(), words) {
        Ok(Some(found)) => Ok(back_found(&found)),
        Ok(None) => Ok(None),
        Err(error) => Err(error),
    }
}

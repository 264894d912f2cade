//! The words of `resume`: three names of files, a number of steps, and the option `--view`.

ghost use Rattle.std.specs.Prelude.{◌≡◌, [], Some, IfOk, map, string_bytes, option_map, unwrap_or};
ghost use Rattle.tz_words.specs.Found.{parts_in};
ghost use Rattle.tz_words.specs.Commands.{Resume, command_in};
ghost use Rattle.tz_words.specs.Resume.{resume_behind, resume_in, resume_parts, resume_with};

use crate::command::Command;
use crate::counts::count_in;
use crate::leaf::matches;
use crate::views::{VIEWS, view_in};
use clap::ArgMatches;
use std::alloc::{AllocError, Global};
use tz_model::View;

/// What `resume` is told.
#[derive(Clone, Copy)]
pub struct ResumeWords<'a> {
    /// The name of the board's file.
    pub board: &'a str,
    /// The name of the state's file.
    pub state: &'a str,
    /// The name of the script's file.
    pub script: &'a str,
    /// How many steps are run, below 100,000,000.
    pub steps: u32,
    /// What the trace shows of each step.
    pub view: View,
}

/// What four words and a view tell; `None` where there are others.
fn resume_of<'a>(view: View, words: Option<&[&'a str]>) -> Option<ResumeWords<'a>>
    ensures { option_map resume_in result ≡ resume_with (Some view) (unwrap_or (option_map (λ s. map (λ v. v.now) s.now) words.entry) []) }
{
    let Some(&[board, state, script, steps]) = words else {
        return None;
    };
    match count_in(steps) {
        Some(steps) => Some(ResumeWords {
            board,
            state,
            script,
            steps,
            view,
        }),
        None => None,
    }
}

/// The words of `resume` in what clap found.
fn resume_found<'a>(found: &ArgMatches<'a>) -> Option<Command<'a>>
    ensures { option_map command_in result ≡ option_map Resume (resume_parts (parts_in found.now)) }
{
    let Some(view) = view_in(found.get_strs("option")) else {
        return None;
    };
    match resume_of(view, found.get_strs("words")) {
        Some(words) => Some(Command::Resume(words)),
        None => None,
    }
}

/// `BOARD STATE SCRIPT STEPS [--view ns or all]`, as they stand behind `resume`; `None` where they are
/// refused.
pub fn resume_command<'a>(
    alloc: Global,
    words: &'a [String],
) -> Result<Option<Command<'a>>, AllocError>
    ensures { IfOk result (λ r. option_map command_in r ≡ option_map Resume (resume_behind (map string_bytes words.now))) }
{
    match matches(alloc, "view", VIEWS.as_slice(), words) {
        Ok(Some(found)) => Ok(resume_found(&found)),
        Ok(None) => Ok(None),
        Err(error) => Err(error),
    }
}

//! The words that begin a run: four names of files and a number of steps.

ghost use Rattle.std.specs.Prelude.{◌≡◌, [], IfOk, map, string_bytes, option_map, unwrap_or};
ghost use Rattle.tz_words.specs.Commands.{command_in, command_with};
ghost use Rattle.tz_words.specs.Found.{parts_in};
ghost use Rattle.tz_words.specs.StartWords.{start_behind, start_in, start_parts, start_with};

use crate::command::Command;
use crate::counts::count_in;
use crate::leaf::matches;
use crate::ranges::Range;
use clap::ArgMatches;
use std::alloc::{AllocError, Global};
use tz_model::View;

/// No value: such a command has no option.
static NO_VALUES: [&str; 0] = [];

/// What begins a run.
#[derive(Clone, Copy)]
pub struct StartWords<'a> {
    /// The name of the board's file.
    pub board: &'a str,
    /// The name of the Secure image's file.
    pub secure: &'a str,
    /// The name of the Non-secure image's file.
    pub nonsecure: &'a str,
    /// The name of the script's file.
    pub script: &'a str,
    /// How many steps are run, below 100,000,000.
    pub steps: u32,
}

/// What is done with the machine that a run begins with.
#[derive(Drop)]
pub enum Work {
    /// The trace of its steps, with what it shows.
    Trace(View),
    /// The same with what is told of each step under its line.
    Full,
    /// Where its steps enter Secure code, and how often.
    Gates,
    /// The file of the state after its steps.
    Save,
    /// The page of that state, with ranges of memory.
    Page(Vec<Range>),
}

/// What five words begin; `None` where there are others.
pub fn start_of<'a>(words: Option<&[&'a str]>) -> Option<StartWords<'a>>
    ensures { option_map start_in result ≡ start_with (unwrap_or (option_map (λ s. map (λ v. v.now) s.now) words.entry) []) }
{
    let Some(&[board, secure, nonsecure, script, steps]) = words else {
        return None;
    };
    match count_in(steps) {
        Some(steps) => Some(StartWords {
            board,
            secure,
            nonsecure,
            script,
            steps,
        }),
        None => None,
    }
}

/// The words of a command without an option in what clap found.
fn start_found<'a>(found: &ArgMatches<'a>, work: Work) -> Option<Command<'a>>
    ensures { option_map command_in result ≡ option_map (λ s. command_with s work) (start_parts (parts_in found.now)) }
{
    if let Some(values) = found.get_strs("option")
        && !values.is_empty()
    {
        return None;
    }
    match start_of(found.get_strs("words")) {
        Some(start) => Some(Command::Start(start, work)),
        None => None,
    }
}

/// `BOARD SECURE NONSECURE SCRIPT STEPS`, as they stand behind a command that has no option; `None` where
/// they are refused.
pub fn start_command<'a>(
    alloc: Global,
    work: Work,
    words: &'a [String],
) -> Result<Option<Command<'a>>, AllocError>
    ensures { IfOk result (λ r. option_map command_in r ≡ option_map (λ s. command_with s work) (start_behind (map string_bytes words.now))) }
{
    match matches(alloc, "", NO_VALUES.as_slice(), words) {
        Ok(Some(found)) => Ok(start_found(&found, work)),
        Ok(None) => Ok(None),
        Err(error) => Err(error),
    }
}

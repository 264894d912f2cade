//! The words of `run`: those that begin a run, and the option `--view`, which has a view of its own here.

ghost use Rattle.std.specs.Prelude.{◌≡◌, [], IfOk, map, string_bytes, option_map, unwrap_or};
ghost use Rattle.tz_words.specs.Found.{parts_in};
ghost use Rattle.tz_words.specs.Commands.{command_in, run_behind, run_parts, work_named, work_of};

use crate::command::Command;
use crate::leaf::matches;
use crate::start::{Work, start_of};
use clap::ArgMatches;
use std::alloc::{AllocError, Global};
use tz_model::View;

/// The names of what a run shows.
static SHOWN: [&str; 3] = ["ns", "all", "full"];

/// What is done with a run that shows what is named so.
fn work_named(name: &str) -> Option<Work>
    ensures { result ≡ work_named name.now }
{
    match name {
        "ns" => Some(Work::Trace(View::Ns)),
        "all" => Some(Work::Trace(View::All)),
        "full" => Some(Work::Full),
        _ => None,
    }
}

/// What is done with a run by the option's values.
fn work_in(values: Option<&[&str]>) -> Option<Work>
    ensures { result ≡ work_of (unwrap_or (option_map (λ s. map (λ v. v.now) s.now) values.entry) []) }
{
    match values {
        None | Some([]) => Some(Work::Trace(View::Ns)),
        Some([name]) => work_named(name),
        _ => None,
    }
}

/// The words of `run` in what clap found.
fn run_found<'a>(found: &ArgMatches<'a>) -> Option<Command<'a>>
    ensures { option_map command_in result ≡ run_parts (parts_in found.now) }
{
    let Some(work) = work_in(found.get_strs("option")) else {
        return None;
    };
    match start_of(found.get_strs("words")) {
        Some(start) => Some(Command::Start(start, work)),
        None => None,
    }
}

/// `BOARD SECURE NONSECURE SCRIPT STEPS [--view ns, all or full]`, as they stand behind `run`; `None` where
/// they are refused.
pub fn run_command<'a>(
    alloc: Global,
    words: &'a [String],
) -> Result<Option<Command<'a>>, AllocError>
    ensures { IfOk result (λ r. option_map command_in r ≡ run_behind (map string_bytes words.now)) }
{
    match matches(alloc, "view", SHOWN.as_slice(), words) {
        Ok(Some(found)) => Ok(run_found(&found)),
        Ok(None) => Ok(None),
        Err(error) => Err(error),
    }
}

//! The words of `pair`: five names of files and a number of steps.

ghost use Rattle.std.specs.Prelude.{◌≡◌, [], IfOk, map, string_bytes, option_map, unwrap_or};
ghost use Rattle.tz_words.specs.Commands.{Pair, command_in};
ghost use Rattle.tz_words.specs.Found.{parts_in};
ghost use Rattle.tz_words.specs.Pair.{pair_behind, pair_parts, pair_with};

use crate::command::Command;
use crate::counts::count_in;
use crate::leaf::matches;
use clap::ArgMatches;
use std::alloc::{AllocError, Global};

/// No value: `pair` has no option.
static NO_VALUES: [&str; 0] = [];

/// What `pair` is told.
#[derive(Clone, Copy)]
pub struct PairWords<'a> {
    /// The name of the board's file.
    pub board: &'a str,
    /// The name of the first Secure image's file.
    pub first: &'a str,
    /// The name of the second Secure image's file.
    pub second: &'a str,
    /// The name of the Non-secure image's file.
    pub nonsecure: &'a str,
    /// The name of the script's file.
    pub script: &'a str,
    /// How many steps are run, below 100,000,000.
    pub steps: u32,
}

/// What six words tell; `None` where there are others.
fn pair_of<'a>(words: Option<&[&'a str]>) -> Option<Command<'a>>
    ensures { option_map command_in result ≡ option_map Pair (pair_with [] (unwrap_or (option_map (λ s. map (λ v. v.now) s.now) words.entry) [])) }
{
    let Some(&[board, first, second, nonsecure, script, steps]) = words else {
        return None;
    };
    match count_in(steps) {
        Some(steps) => Some(Command::Pair(PairWords {
            board,
            first,
            second,
            nonsecure,
            script,
            steps,
        })),
        None => None,
    }
}

/// The words of `pair` in what clap found.
fn pair_found<'a>(found: &ArgMatches<'a>) -> Option<Command<'a>>
    ensures { option_map command_in result ≡ option_map Pair (pair_parts (parts_in found.now)) }
{
    if let Some(values) = found.get_strs("option")
        && !values.is_empty()
    {
        return None;
    }
    pair_of(found.get_strs("words"))
}

/// `BOARD SECURE1 SECURE2 NONSECURE SCRIPT STEPS`, as they stand behind `pair`; `None` where they are
/// refused.
pub fn pair_command<'a>(
    alloc: Global,
    words: &'a [String],
) -> Result<Option<Command<'a>>, AllocError>
    ensures { IfOk result (λ r. option_map command_in r ≡ option_map Pair (pair_behind (map string_bytes words.now))) }
{
    match matches(alloc, "", NO_VALUES.as_slice(), words) {
        Ok(Some(found)) => Ok(pair_found(&found)),
        Ok(None) => Ok(None),
        Err(error) => Err(error),
    }
}

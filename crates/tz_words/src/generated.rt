//! The words of `gen`: a number that a job is made from, and a number of steps.

ghost use Rattle.std.specs.Prelude.{◌≡◌, [], IfOk, map, string_bytes, option_map, unwrap_or};
ghost use Rattle.tz_words.specs.Commands.{Gen, command_in};
ghost use Rattle.tz_words.specs.GenWords.{gen_behind, gen_parts, gen_with};
ghost use Rattle.tz_words.specs.Found.{parts_in};

use crate::command::Command;
use crate::counts::count_in;
use crate::leaf::matches;
use clap::ArgMatches;
use std::alloc::{AllocError, Global};

/// No value: `gen` has no option.
static NO_VALUES: [&str; 0] = [];

/// What `gen` is told.
#[derive(Clone, Copy)]
pub struct GenWords {
    /// The number that the job is made from, below 100,000,000.
    pub seed: u32,
    /// How many steps are run, below 100,000,000.
    pub steps: u32,
}

/// What two words tell; `None` where there are others.
fn gen_of<'a>(words: Option<&[&'a str]>) -> Option<Command<'a>>
    ensures { option_map command_in result ≡ option_map Gen (gen_with [] (unwrap_or (option_map (λ s. map (λ v. v.now) s.now) words.entry) [])) }
{
    let Some(&[seed, steps]) = words else {
        return None;
    };
    let Some(seed) = count_in(seed) else {
        return None;
    };
    match count_in(steps) {
        Some(steps) => Some(Command::Gen(GenWords { seed, steps })),
        None => None,
    }
}

/// The words of `gen` in what clap found.
fn gen_found<'a>(found: &ArgMatches<'a>) -> Option<Command<'a>>
    ensures { option_map command_in result ≡ option_map Gen (gen_parts (parts_in found.now)) }
{
    if let Some(values) = found.get_strs("option")
        && !values.is_empty()
    {
        return None;
    }
    gen_of(found.get_strs("words"))
}

/// `SEED STEPS`, as they stand behind `gen`; `None` where they are refused.
pub fn gen_command<'a>(
    alloc: Global,
    words: &'a [String],
) -> Result<Option<Command<'a>>, AllocError>
    ensures { IfOk result (λ r. option_map command_in r ≡ option_map Gen (gen_behind (map string_bytes words.now))) }
{
    match matches(alloc, "", NO_VALUES.as_slice(), words) {
        Ok(Some(found)) => Ok(gen_found(&found)),
        Ok(None) => Ok(None),
        Err(error) => Err(error),
    }
}

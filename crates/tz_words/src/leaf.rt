//! Commands with positional words and one option, as clap reads them.
//!
//! One clap command stands for one command of the program, and reads the words behind its name. It takes
//! any number of positional words; the option takes one of the values that are given, once at most. A
//! command without an option is given one that takes no value, so that any use of it is refused. What
//! clap prints is never shown.

ghost use Rattle.std.specs.Prelude.{◌≡◌, IfOk, true, false, map, string_bytes, option_map};
ghost use Rattle.clap.specs.Words.{app_of, rule_of};
ghost use Rattle.tz_words.specs.Found.{parts_in};
ghost use Rattle.tz_words.specs.Leaf.{IsLeaf, IsOption, are_positional, bare_app, is_name, is_one_of, with_one, words_rule};
ghost use Rattle.tz_words.specs.Parts.{AnyWord, parts_of};

use clap::error::ErrorKind;
use clap::{Arg, ArgAction, ArgMatches, Command};
use std::alloc::{AllocError, Global};

/// The positional words, to clap.
fn words_arg<'a>(alloc: Global) -> Arg<'a>
    ensures rule { rule_of result ≡ words_rule }
    ensures local { result.global ≡ false }
{
    Arg::new(alloc, "words").action(ArgAction::Append)
}

/// The option, to clap, which takes one of these values.
fn option_arg<'a>(alloc: Global, option: &'a str, values: &'a [&'a str]) -> Arg<'a>
    ensures option { IsOption option.now (map (λ s. s.now) values.now) result }
    ensures local { result.global ≡ false }
{
    Arg::new(alloc, "option").long(option).value_parser(values)
}

/// The command, to clap, before it is given arguments.
fn bare<'a>(alloc: Global) -> Command<'a>
    ensures { app_of result ≡ bare_app }
{
    Command::new(alloc, "command")
        .no_binary_name(true)
        .disable_help_flag(true)
        .disable_version_flag(true)
}

/// A command, to clap: positional words, and an option that takes one of these values.
fn leaf<'a>(
    alloc: Global,
    option: &'a str,
    values: &'a [&'a str],
) -> Result<Command<'a>, AllocError>
    ensures { IfOk result (IsLeaf option.now (map (λ s. s.now) values.now)) }
{
    bare(alloc)
        .arg(words_arg(alloc))?
        .arg(option_arg(alloc, option, values))
}

/// What clap finds in the words behind a command's name; `None` where they are refused.
pub fn matches<'a>(
    alloc: Global,
    option: &'a str,
    values: &'a [&'a str],
    words: &'a [String],
) -> Result<Option<ArgMatches<'a>>, AllocError>
    requires option { is_name option.now ≡ true }
    requires values { are_positional option.now (map (λ s. s.now) values.now) ≡ true }
    ensures { IfOk result (λ r. option_map parts_in r
        ≡ with_one (is_one_of (map (λ s. s.now) values.now)) (parts_of option.now AnyWord (map string_bytes words.now))) }
{
    let command = match leaf(alloc, option, values) {
        Ok(command) => command,
        Err(error) => return Err(error),
    };
    match command.try_get_matches_from(words) {
        Ok(found) => Ok(Some(found)),
        Err(error) => match error.kind() {
            ErrorKind::OutOfMemory => Err(AllocError),
            _ => Ok(None),
        },
    }
}

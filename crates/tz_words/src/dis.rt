//! The words of `dis`: two names of files and a side.

ghost use Rattle.std.specs.Prelude.{◌≡◌, [], IfOk, map, string_bytes, option_map};
ghost use Rattle.tz_words.specs.Commands.{Dis, command_in};
ghost use Rattle.tz_words.specs.Dis.{dis_behind, dis_parts, side_named};
ghost use Rattle.tz_words.specs.Found.{parts_in};

use crate::command::Command;
use crate::leaf::matches;
use clap::ArgMatches;
use std::alloc::{AllocError, Global};
use tz_model::Side;

/// No value: `dis` has no option.
static NO_VALUES: [&str; 0] = [];

/// What `dis` is told.
#[derive(Clone, Copy)]
pub struct DisWords<'a> {
    /// The name of the board's file.
    pub board: &'a str,
    /// The name of the image's file.
    pub image: &'a str,
    /// The side that the image is of.
    pub side: Side,
}

/// The side of a word.
fn side_in(word: &str) -> Option<Side>
    ensures { result ≡ side_named word.now }
{
    match word {
        "s" => Some(Side::Secure),
        "ns" => Some(Side::NonSecure),
        _ => None,
    }
}

/// The words of `dis` in what clap found.
fn dis_found<'a>(found: &ArgMatches<'a>) -> Option<Command<'a>>
    ensures { option_map command_in result ≡ option_map Dis (dis_parts (parts_in found.now)) }
{
    if let Some(values) = found.get_strs("option")
        && !values.is_empty()
    {
        return None;
    }
    let Some(&[board, image, side]) = found.get_strs("words") else {
        return None;
    };
    match side_in(side) {
        Some(side) => Some(Command::Dis(DisWords { board, image, side })),
        None => None,
    }
}

/// `BOARD IMAGE SIDE`, as they stand behind `dis`; `None` where they are refused.
pub fn dis_command<'a>(
    alloc: Global,
    words: &'a [String],
) -> Result<Option<Command<'a>>, AllocError>
    ensures { IfOk result (λ r. option_map command_in r ≡ option_map Dis (dis_behind (map string_bytes words.now))) }
{
    match matches(alloc, "", NO_VALUES.as_slice(), words) {
        Ok(Some(found)) => Ok(dis_found(&found)),
        Ok(None) => Ok(None),
        Err(error) => Err(error),
    }
}

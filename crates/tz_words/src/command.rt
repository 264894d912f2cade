//! A command with what its words say.

ghost use Rattle.std.specs.Prelude.{◌≡◌, IfOk, map, string_bytes, option_map};
ghost use Rattle.tz_words.specs.Commands.{command_in, command_of};

use crate::asm::{AsmWords, asm_command};
use crate::back::{BackWords, back_command};
use crate::dis::{DisWords, dis_command};
use crate::generated::{GenWords, gen_command};
use crate::pair::{PairWords, pair_command};
use crate::resume::{ResumeWords, resume_command};
use crate::run::run_command;
use crate::show::{SavedWords, show_command};
use crate::start::{StartWords, Work, start_command};
use std::alloc::{AllocError, Global};

/// A command with what its words say.
#[derive(Drop)]
pub enum Command<'a> {
    /// A run of two images on a board, and what is done with it.
    Start(StartWords<'a>, Work),
    /// Two runs beside each other, of two Secure images.
    Pair(PairWords<'a>),
    /// An image from its source.
    Asm(AsmWords<'a>),
    /// An image as the text of its instructions.
    Dis(DisWords<'a>),
    /// The page of a state's file.
    ShowSaved(SavedWords<'a>),
    /// A run that goes on from a state's file.
    Resume(ResumeWords<'a>),
    /// A run whose last steps are undone, made again and written.
    Back(BackWords<'a>),
    /// The summary of a job that is made from a number.
    Gen(GenWords),
}

/// The command of a command line, which begins with the program's name; `None` where the words are
/// refused. Its error is want of memory.
pub fn command_words<'a>(
    alloc: Global,
    words: &'a [String],
) -> Result<Option<Command<'a>>, AllocError>
    ensures { IfOk result (λ r. option_map command_in r ≡ command_of (map string_bytes words.now)) }
{
    match words {
        [_program, command, rest @ ..] => match command.as_str() {
            "run" => run_command(alloc, rest),
            "gates" => start_command(alloc, Work::Gates, rest),
            "snap" => start_command(alloc, Work::Save, rest),
            "show" => show_command(alloc, rest),
            "resume" => resume_command(alloc, rest),
            "back" => back_command(alloc, rest),
            "pair" => pair_command(alloc, rest),
            "asm" => asm_command(alloc, rest),
            "dis" => dis_command(alloc, rest),
            "gen" => gen_command(alloc, rest),
            _ => Ok(None),
        },
        _ => Ok(None),
    }
}

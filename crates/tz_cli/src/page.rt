//! The command `show` of a state's file: its files, the page of the state, and the status.

ghost use Rattle.tz_words.specs.ShowWords.{saved_in};
ghost use Rattle.tz_words.specs.Commands.{ShowSaved};
ghost use Rattle.tz_cli.specs.Answer.{CommandAnswer, shelved, sunk};

use std::alloc::Global;
use tz_files::{load_shown, put_status, refuse_fault};
use tz_model::{Shelf, Sink};
use tz_show::show;
use tz_words::SavedWords;

/// Does what the words of `show --state` say, and tells the answer with what it says of the outside.
pub fn page_files<H: Shelf, O: Sink, E: Sink>(
    alloc: Global,
    words: &SavedWords<'_>,
    shelf: &mut H,
    out: &mut O,
    err: &mut E,
) -> u8
    ensures { CommandAnswer (ShowSaved (saved_in words.now)) (shelved H.held H.sound H.faults shelf.old shelf.new)
        (sunk O.written O.space O.faults out.old out.new) (sunk E.written E.space E.faults err.old err.new) result }
{
    let saved = match load_shown(alloc, shelf, words) {
        Ok(saved) => saved,
        Err(fault) => return refuse_fault(alloc, fault, err),
    };
    let state = saved.machine.lent();
    put_status(show(&state, saved.step, &words.ranges, out))
}

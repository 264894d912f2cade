//! The command `dis`: its files, the lines of the image, and the status.

ghost use Rattle.tz_words.specs.Dis.{dis_in};
ghost use Rattle.tz_words.specs.Commands.{Dis};
ghost use Rattle.tz_cli.specs.Answer.{CommandAnswer, shelved, sunk};

use std::alloc::Global;
use tz_files::{load_listed, put_status, refuse_fault};
use tz_model::{Shelf, Sink};
use tz_text::disassemble;
use tz_words::DisWords;

/// Does what the words of `dis` say, and tells the answer with what it says of the outside.
pub fn dis_files<H: Shelf, O: Sink, E: Sink>(
    alloc: Global,
    words: &DisWords<'_>,
    shelf: &mut H,
    out: &mut O,
    err: &mut E,
) -> u8
    ensures { CommandAnswer (Dis (dis_in words.now)) (shelved H.held H.sound H.faults shelf.old shelf.new)
        (sunk O.written O.space O.faults out.old out.new) (sunk E.written E.space E.faults err.old err.new) result }
{
    let image = match load_listed(alloc, shelf, words) {
        Ok(image) => image,
        Err(fault) => return refuse_fault(alloc, fault, err),
    };
    put_status(disassemble(image, out))
}

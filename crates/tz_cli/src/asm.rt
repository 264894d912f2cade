//! The command `asm`: its source, the image in its form or the listing, and the status.

ghost use Rattle.std.specs.Prelude.{◌≡◌, Err};
ghost use Rattle.tz_model.specs.Outside.{HasCause, Put};
ghost use Rattle.tz_words.specs.Asm.{asm_in};
ghost use Rattle.tz_words.specs.Commands.{Asm};
ghost use Rattle.tz_cli.specs.Answer.{CommandAnswer, shelved, sunk};

use std::alloc::Global;
use tz_files::{load_assembled, put_lines, put_status, refuse_fault};
use tz_model::{Shelf, Sink, SinkError};
use tz_words::{AsmWords, Form};

/// Writes a file: a plain image and a listing line by line, and an ELF file as one put.
fn put_file<O: Sink>(form: Form, file: &[u8], out: &mut O) -> Result<(), SinkError>
    ensures put { Put (O.written out.old) (O.written out.new) (O.space out.old) (O.space out.new) file.now result }
    ensures cause { HasCause (O.faults out.old) (O.faults out.new) (result ≡ Err SinkError.Failed) }
{
    match form {
        Form::Hex | Form::Listing => put_lines(file, out),
        Form::Elf => out.put(file),
    }
}

/// Does what the words of `asm` say, and tells the answer with what it says of the outside.
pub fn asm_files<H: Shelf, O: Sink, E: Sink>(
    alloc: Global,
    words: &AsmWords<'_>,
    shelf: &mut H,
    out: &mut O,
    err: &mut E,
) -> u8
    ensures { CommandAnswer (Asm (asm_in words.now)) (shelved H.held H.sound H.faults shelf.old shelf.new)
        (sunk O.written O.space O.faults out.old out.new) (sunk E.written E.space E.faults err.old err.new) result }
{
    let file = match load_assembled(alloc, shelf, words) {
        Ok(file) => file,
        Err(fault) => return refuse_fault(alloc, fault, err),
    };
    put_status(put_file(words.form, &file, out))
}

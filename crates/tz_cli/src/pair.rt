//! The command `pair`: its files, two machines of the same board, and the line of their runs.

ghost use Rattle.std.specs.Prelude.{[], IfOk, IfErr};
ghost use Rattle.tz_model.specs.Outside.{Gains};
ghost use Rattle.tz_words.specs.Pair.{pair_in};
ghost use Rattle.tz_words.specs.Commands.{Pair as PairCommand};
ghost use Rattle.tz_cli.specs.Tasks.{pair_task};
ghost use Rattle.tz_files.specs.LineTold.{IsTold};
ghost use Rattle.tz_cli.specs.Answer.{CommandAnswer, shelved, sunk};
ghost use Rattle.tz_files.specs.Faults.{pair_value};

use crate::comparison::pair_run;
use crate::run::STEP_LIMIT;
use std::alloc::{AllocError, Global};
use tz_files::{PairFiles, load_pair, refuse, refuse_fault};
use tz_iso::Pair;
use tz_model::{Shelf, Sink};
use tz_words::PairWords;

/// Runs both machines of the files and writes the line of their runs: 0 where they agree, 1 where they don't,
/// or 4 where it can't be written. Its error is want of memory, before anything is written.
fn pair_started<O: Sink>(
    alloc: Global,
    files: &PairFiles,
    words: &PairWords<'_>,
    out: &mut O,
) -> Result<u8, AllocError>
    ensures ran { let task = pair_task (record { words = pair_in words.now; start = pair_value files.now }) in
        IfOk result (λ status. IsTold status task.text task.status (O.written out.old) (O.written out.new) (O.space out.old) (O.faults out.old) (O.faults out.new)) }
    ensures quiet { IfErr result (λ _. Gains (O.written out.old) (O.written out.new) []) }
{
    let pair = Pair::new(
        alloc,
        &files.board,
        &files.first,
        &files.second,
        &files.nonsecure,
    );
    let mut pair = match pair {
        Ok(pair) => pair,
        Err(error) => return Err(error),
    };
    match pair_run(&mut pair, &files.script, words.steps, out) {
        Ok(true) => Ok(0),
        Ok(false) => Ok(1),
        Err(_) => Ok(4),
    }
}

/// Does what the words of `pair` say, and tells the answer with what it says of the outside.
pub fn pair_files<H: Shelf, O: Sink, E: Sink>(
    alloc: Global,
    words: &PairWords<'_>,
    shelf: &mut H,
    out: &mut O,
    err: &mut E,
) -> u8
    ensures { CommandAnswer (PairCommand (pair_in words.now)) (shelved H.held H.sound H.faults shelf.old shelf.new)
        (sunk O.written O.space O.faults out.old out.new) (sunk E.written E.space E.faults err.old err.new) result }
{
    if words.steps > STEP_LIMIT {
        return refuse(err, b"limit steps\n", 6);
    }
    let files = match load_pair(alloc, shelf, words) {
        Ok(files) => files,
        Err(fault) => return refuse_fault(alloc, fault, err),
    };
    match pair_started(alloc, &files, words, out) {
        Ok(status) => status,
        Err(_) => refuse(err, b"no memory\n", 7),
    }
}

//! The command `resume`: its files, the machine of the state, and the lines of the steps that follow.

ghost use Rattle.std.specs.Prelude.{◌+◌, ◌≤◌};
ghost use Rattle.tz_words.specs.Resume.{resume_in};
ghost use Rattle.tz_words.specs.Commands.{Resume};
ghost use Rattle.tz_cli.specs.Tasks.{resumed_text};
ghost use Rattle.tz_files.specs.LineTold.{IsTold};
ghost use Rattle.tz_cli.specs.Answer.{CommandAnswer, shelved, sunk};
ghost use Rattle.tz_files.specs.Faults.{saved_value};

use crate::run::STEP_LIMIT;
use std::alloc::Global;
use tz_files::{SavedFiles, load_saved, put_status, refuse, refuse_fault};
use tz_model::{Shelf, Sink};
use tz_run::run_from;
use tz_words::ResumeWords;

/// Runs the machine of the files on and writes its lines: 0, or 4 where they can't be written.
fn resume_started<O: Sink>(files: &mut SavedFiles, words: &ResumeWords<'_>, out: &mut O) -> u8
    requires { files.old.step + words.now.steps ≤ 10000000 }
    ensures { IsTold result (resumed_text (resume_in words.now) (saved_value files.old)) 0 (O.written out.old) (O.written out.new) (O.space out.old) (O.faults out.old) (O.faults out.new) }
{
    put_status(run_from(
        &mut files.machine,
        &files.script,
        files.step,
        words.steps,
        words.view,
        out,
    ))
}

/// Does what the words of `resume` say, and tells the answer with what it says of the outside.
pub fn resume_answer<H: Shelf, O: Sink, E: Sink>(
    alloc: Global,
    words: &ResumeWords<'_>,
    shelf: &mut H,
    out: &mut O,
    err: &mut E,
) -> u8
    ensures { CommandAnswer (Resume (resume_in words.now)) (shelved H.held H.sound H.faults shelf.old shelf.new)
        (sunk O.written O.space O.faults out.old out.new) (sunk E.written E.space E.faults err.old err.new) result }
{
    if words.steps > STEP_LIMIT {
        return refuse(err, b"limit steps\n", 6);
    }
    let mut files = match load_saved(alloc, shelf, words) {
        Ok(files) => files,
        Err(fault) => return refuse_fault(alloc, fault, err),
    };
    if files.step > STEP_LIMIT - words.steps {
        return refuse(err, b"limit steps\n", 6);
    }
    resume_started(&mut files, words, out)
}

//! The commands that begin a run: their files, the machine, what is done with it, and the status.

ghost use Rattle.std.specs.Prelude.{◌≤◌, [], IfOk, IfErr};
ghost use Rattle.tz_model.specs.Outside.{Gains};
ghost use Rattle.tz_words.specs.StartWords.{start_in};
ghost use Rattle.tz_words.specs.Run.{run_of};
ghost use Rattle.tz_words.specs.Commands.{command_with};
ghost use Rattle.tz_cli.specs.Tasks.{trace_of, full_task, gates_task, snap_task, page_task, work_task};
ghost use Rattle.tz_files.specs.LineTold.{IsTold};
ghost use Rattle.tz_cli.specs.Answer.{CommandAnswer, shelved, sunk};
ghost use Rattle.tz_files.specs.Faults.{start_value};

use std::alloc::{AllocError, Global};
use tz_core::Machine;
use tz_files::{Files, load, put_status, refuse, refuse_fault};
use tz_gates::{count, list, put_gates};
use tz_model::{Shelf, Sink, View};
use tz_run::{make_steps, run, run_full};
use tz_show::{Range, show};
use tz_snap::save;
use tz_words::{StartWords, Work};

/// The most steps of a run.
pub const STEP_LIMIT: u32 = 10_000_000;

/// Runs a machine of the files and writes its trace: 0, or 4 where the trace can't be written. Its error is
/// want of memory, before anything is written.
fn run_started<O: Sink>(
    alloc: Global,
    files: &Files,
    words: &StartWords<'_>,
    view: View,
    out: &mut O,
) -> Result<u8, AllocError>
    ensures ran { IfOk result (λ status. IsTold status (trace_of (record { words = run_of (start_in words.now) view; start = start_value files.now })) 0 (O.written out.old) (O.written out.new) (O.space out.old) (O.faults out.old) (O.faults out.new)) }
    ensures quiet { IfErr result (λ _. Gains (O.written out.old) (O.written out.new) []) }
{
    let mut machine = match Machine::new(alloc, &files.board, &files.secure, &files.nonsecure) {
        Ok(machine) => machine,
        Err(error) => return Err(error),
    };
    Ok(put_status(run(&mut machine, &files.script, words.steps, view, out)))
}

/// Runs a machine of the files and writes its trace with what is told of each step: 0, or 4 where it can't be written.
/// Its error is want of memory, before anything is written.
fn full_started<O: Sink>(
    alloc: Global,
    files: &Files,
    words: &StartWords<'_>,
    out: &mut O,
) -> Result<u8, AllocError>
    ensures ran { IfOk result (λ status. IsTold status (full_task (start_in words.now) (start_value files.now)).text 0 (O.written out.old) (O.written out.new) (O.space out.old) (O.faults out.old) (O.faults out.new)) }
    ensures quiet { IfErr result (λ _. Gains (O.written out.old) (O.written out.new) []) }
{
    let mut machine = match Machine::new(alloc, &files.board, &files.secure, &files.nonsecure) {
        Ok(machine) => machine,
        Err(error) => return Err(error),
    };
    Ok(put_status(run_full(&mut machine, &files.script, words.steps, out)))
}

/// Runs a machine of the files and writes its gates, with how many steps enter at each and how many elsewhere:
/// 0, or 4 where they can't be written. Its error is want of memory, before anything is written.
fn gates_started<O: Sink>(
    alloc: Global,
    files: &Files,
    words: &StartWords<'_>,
    out: &mut O,
) -> Result<u8, AllocError>
    ensures ran { IfOk result (λ status. IsTold status (gates_task (start_in words.now) (start_value files.now)).text 0 (O.written out.old) (O.written out.new) (O.space out.old) (O.faults out.old) (O.faults out.new)) }
    ensures quiet { IfErr result (λ _. Gains (O.written out.old) (O.written out.new) []) }
{
    let gates = list(alloc, &files.board, &files.secure, &files.nonsecure)?;
    let mut hits = vec![in alloc; 0u32; gates.len()]?;
    let mut machine = Machine::new(alloc, &files.board, &files.secure, &files.nonsecure)?;
    let unlisted = count(&mut machine, &gates, &mut hits, &files.script, words.steps);
    Ok(put_status(put_gates(&gates, &hits, unlisted, out)))
}

/// Runs a machine of the files and writes the file of its state: 0, or 4 where it can't be written. Its error
/// is want of memory, before anything is written.
fn snap_started<O: Sink>(
    alloc: Global,
    files: &Files,
    words: &StartWords<'_>,
    out: &mut O,
) -> Result<u8, AllocError>
    requires { words.now.steps ≤ 10000000 }
    ensures ran { IfOk result (λ status. IsTold status (snap_task (start_in words.now) (start_value files.now)).text 0 (O.written out.old) (O.written out.new) (O.space out.old) (O.faults out.old) (O.faults out.new)) }
    ensures quiet { IfErr result (λ _. Gains (O.written out.old) (O.written out.new) []) }
{
    let mut machine = match Machine::new(alloc, &files.board, &files.secure, &files.nonsecure) {
        Ok(machine) => machine,
        Err(error) => return Err(error),
    };
    make_steps(&mut machine, &files.script, words.steps);
    Ok(put_status(save(&machine, words.steps, out)))
}

/// Runs a machine of the files and writes the page of its state: 0, or 4 where it can't be written. Its error is
/// want of memory, before anything is written.
fn page_started<O: Sink>(
    alloc: Global,
    files: &Files,
    words: &StartWords<'_>,
    ranges: &[Range],
    out: &mut O,
) -> Result<u8, AllocError>
    ensures ran { IfOk result (λ status. IsTold status (page_task (record { start = start_in words.now; ranges = ranges.now }) (start_value files.now)).text 0 (O.written out.old) (O.written out.new) (O.space out.old) (O.faults out.old) (O.faults out.new)) }
    ensures quiet { IfErr result (λ _. Gains (O.written out.old) (O.written out.new) []) }
{
    let mut reached = match Machine::new(alloc, &files.board, &files.secure, &files.nonsecure) {
        Ok(machine) => machine,
        Err(error) => return Err(error),
    };
    make_steps(&mut reached, &files.script, words.steps);
    let state = reached.lent();
    Ok(put_status(show(&state, words.steps, ranges, out)))
}

/// Does the work with a machine of the files: 0, or 4 where its text can't be written. Its error is want of
/// memory, before anything is written.
fn work_started<O: Sink>(
    alloc: Global,
    files: &Files,
    words: &StartWords<'_>,
    work: &Work,
    out: &mut O,
) -> Result<u8, AllocError>
    requires { words.now.steps ≤ 10000000 }
    ensures ran { let task = work_task work.now (start_in words.now) (start_value files.now) in
        IfOk result (λ status. IsTold status task.text task.status (O.written out.old) (O.written out.new) (O.space out.old) (O.faults out.old) (O.faults out.new)) }
    ensures quiet { IfErr result (λ _. Gains (O.written out.old) (O.written out.new) []) }
{
    match work {
        Work::Trace(view) => run_started(alloc, files, words, *view, out),
        Work::Full => full_started(alloc, files, words, out),
        Work::Gates => gates_started(alloc, files, words, out),
        Work::Save => snap_started(alloc, files, words, out),
        Work::Page(ranges) => page_started(alloc, files, words, ranges, out),
    }
}

/// Does what words say that begin a run, and tells the answer with what it says of the outside.
pub fn work_files<H: Shelf, O: Sink, E: Sink>(
    alloc: Global,
    words: &StartWords<'_>,
    work: &Work,
    shelf: &mut H,
    out: &mut O,
    err: &mut E,
) -> u8
    ensures { CommandAnswer (command_with (start_in words.now) work.now) (shelved H.held H.sound H.faults shelf.old shelf.new)
        (sunk O.written O.space O.faults out.old out.new) (sunk E.written E.space E.faults err.old err.new) result }
{
    if words.steps > STEP_LIMIT {
        return refuse(err, b"limit steps\n", 6);
    }
    let files = match load(alloc, shelf, words) {
        Ok(files) => files,
        Err(fault) => return refuse_fault(alloc, fault, err),
    };
    match work_started(alloc, &files, words, work, out) {
        Ok(status) => status,
        Err(_) => refuse(err, b"no memory\n", 7),
    }
}

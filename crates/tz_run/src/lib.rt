//! The run: steps of a machine, each shown as a line, shown with what is told of it, made in silence or tallied, and jobs
//! to run.
//!
//! Each line goes out as one put as soon as its step is done, and what goes out is exactly the lines of
//! the steps from the machine's state on. A run takes no memory, a job does; neither knows where bytes go.
#![tactic(auto)]

ghost use Rattle.std.specs.Prelude.{◌≡◌, ◌+◌, ◌^◌, ◌<◌, ◌≤◌, OnOk};
ghost use Rattle.tz_model.specs.Outside.{HasCause, Put};
ghost use Rattle.tz_resume.specs.Run.{AllResume};
ghost use Rattle.tz_resume.specs.Steps.{IsTyped};
ghost use Rattle.tz_sem.specs.Run.{state_after};
ghost use Rattle.tz_text.specs.Line.{line};
ghost use Rattle.tz_twin.specs.Trace.{text_from};
ghost use Rattle.tz_run.specs.Events.{events_of};

mod due;
mod full;
mod images;
mod job;
mod tally;

pub use due::due_at_step;
pub use full::run_full;
pub use job::{Job, make_job};
use std::marker::Brand;
use std::sync::ledger::{Blank, Ledger};
pub use tally::{Tally, make_tally};
use tz_board::Script;
use tz_core::Machine;
use tz_model::{Report, Sink, SinkError, View};
use tz_ready::Steps;
use tz_resume::know_state;
use tz_text::Lines;

/// Runs `steps` steps and writes a line for each, numbered from 0. At each step its events of the script
/// are due. Of two of them, of which one preempts Secure code and the other takes its frames back as they were
/// written, the code goes on after the second exactly as it was before the first.
///
/// A line that can't be written is the one error. The run ends there: the lines before it went out, and
/// the machine stands after the step whose line failed.
pub fn run<O: Sink>(
    machine: &mut Machine,
    script: &Script,
    steps: u32,
    view: View,
    out: &mut O,
) -> Result<(), SinkError>
    ensures put { Put (O.written out.old) (O.written out.new) (O.space out.old) (O.space out.new) (text_from view (events_of script.now) 0 machine.old steps) result }
    ensures cause { HasCause (O.faults out.old) (O.faults out.new) (result ≡ Err SinkError.Failed) }
    ensures state { OnOk result (machine.new ≡ state_after (events_of script.now) 0 machine.old steps) }
    ensures resumption { OnOk result (AllResume (events_of script.now) 0 machine.old steps) }
{
    run_counted::<Brand, O>(Blank::new(1), machine, script, 0, steps, view, out)
}

/// Runs `steps` steps and writes a line for each, numbered from `first`, as of a machine that has made so many
/// steps: the events of the script are those from step `first` on.
///
/// A line that can't be written is the one error, and ends the run as in `run`.
pub fn run_from<O: Sink>(
    machine: &mut Machine,
    script: &Script,
    first: u32,
    steps: u32,
    view: View,
    out: &mut O,
) -> Result<(), SinkError>
    requires { first + steps ≤ 10000000 }
    ensures put { Put (O.written out.old) (O.written out.new) (O.space out.old) (O.space out.new) (text_from view (events_of script.now) first machine.old steps) result }
    ensures cause { HasCause (O.faults out.old) (O.faults out.new) (result ≡ Err SinkError.Failed) }
    ensures state { OnOk result (machine.new ≡ state_after (events_of script.now) first machine.old steps) }
    ensures resumption { OnOk result (AllResume (events_of script.now) first machine.old steps) }
{
    run_counted::<Brand, O>(Blank::new(1), machine, script, first, steps, view, out)
}

/// Makes `steps` steps, and no line. At each step, counted from 0, its events of the script are due.
pub fn make_steps(machine: &mut Machine, script: &Script, steps: u32)
    ensures { machine.new ≡ state_after (events_of script.now) 0 machine.old steps }
{
    make_counted::<Brand>(Blank::new(1), machine, script, steps)
}

/// Writes the line of a step as one put. The lines are what it is made over.
fn put_line<O: Sink>(
    lines: &mut Lines,
    report: &Report,
    step: u32,
    view: View,
    out: &mut O,
) -> Result<(), SinkError>
    ensures put { Put (O.written out.old) (O.written out.new) (O.space out.old) (O.space out.new) (line view step report.now) result }
    ensures cause { HasCause (O.faults out.old) (O.faults out.new) (result ≡ Err SinkError.Failed) }
{
    lines.make(report, step, view);
    out.put(lines.bytes())
}

/// The machine's state has what types say of it.
fn know_typed(machine: &Machine)
    ensures { IsTyped machine.now }
{
    know_state(machine.core(), machine.exceptions(), machine.bus());
}

/// The run, over a ledger of the looks into the script. One report and one line serve all steps.
fn run_counted<L: Ledger, O: Sink>(
    blank: Blank,
    machine: &mut Machine,
    script: &Script,
    first: u32,
    steps: u32,
    view: View,
    out: &mut O,
) -> Result<(), SinkError>
    requires name { blank.name ≡ L.name }
    requires parts { blank.parts ≡ L.parts }
    requires some_part { 0 < blank.parts }
    requires few { first + steps < 2 ^ 32 }
    ensures put { Put (O.written out.old) (O.written out.new) (O.space out.old) (O.space out.new) (text_from view (events_of script.now) first machine.old steps) result }
    ensures cause { HasCause (O.faults out.old) (O.faults out.new) (result ≡ Err SinkError.Failed) }
    ensures state { OnOk result (machine.new ≡ state_after (events_of script.now) first machine.old steps) }
    ensures resumption { OnOk result (AllResume (events_of script.now) first machine.old steps) }
{
    let mut looks = Steps::<L>::start(blank);
    let mut report = Report::new();
    let mut lines = Lines::new();
    let mut noted = None;
    let mut next = 0;
    for step in first..first + steps {
        let due = due_at_step(script, &mut next, step, &mut looks);
        know_typed(machine);
        machine.step_over(due, &mut report, &mut noted);
        if let Err(error) = put_line(&mut lines, &report, step, view, out) {
            return Err(error);
        }
    }
    Ok(())
}

/// The steps without their lines, over a ledger of the looks into the script. One report serves all.
fn make_counted<L: Ledger>(blank: Blank, machine: &mut Machine, script: &Script, steps: u32)
    requires name { blank.name ≡ L.name }
    requires parts { blank.parts ≡ L.parts }
    requires some_part { 0 < blank.parts }
    ensures { machine.new ≡ state_after (events_of script.now) 0 machine.old steps }
{
    let mut looks = Steps::<L>::start(blank);
    let mut report = Report::new();
    let mut noted = None;
    let mut next = 0;
    for step in 0..steps {
        let due = due_at_step(script, &mut next, step, &mut looks);
        machine.step_over(due, &mut report, &mut noted);
    }
}

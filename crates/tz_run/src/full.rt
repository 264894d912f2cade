//! The run in view `full`: steps of a machine, each shown with what is told of it.

ghost use Rattle.std.specs.Prelude.{◌≡◌, ◌<◌, OnOk};
ghost use Rattle.tz_model.specs.Outside.{HasCause, Put};
ghost use Rattle.tz_sem.specs.Run.{state_after};
ghost use Rattle.tz_board.specs.Scripts.{due_at};
ghost use Rattle.tz_run.specs.FullRun.{full_from};

use std::marker::Brand;
use std::sync::ledger::{Blank, Ledger};
use tz_board::Script;
use tz_core::Machine;
use tz_full::{Texts, put_step};
use tz_model::{Report, Sink, SinkError};
use tz_ready::Steps;

/// Runs `steps` steps and writes of each its line as in view `all`, numbered from 0, and under it what the line doesn't
/// say. At each step its events of the script are due.
///
/// A text that can't be written is the one error. The run ends there: what stands before it went out, and the machine
/// stands after the step whose text failed.
pub fn run_full<O: Sink>(
    machine: &mut Machine,
    script: &Script,
    steps: u32,
    out: &mut O,
) -> Result<(), SinkError>
    ensures put { Put (O.written out.old) (O.written out.new) (O.space out.old) (O.space out.new) (full_from (λ k. due_at k script.now) 0 machine.old steps) result }
    ensures cause { HasCause (O.faults out.old) (O.faults out.new) (result ≡ Err SinkError.Failed) }
    ensures state { OnOk result (machine.new ≡ state_after (λ k. due_at k script.now) 0 machine.old steps) }
{
    run_counted::<Brand, O>(Blank::new(1), machine, script, steps, out)
}

/// The run, over a ledger of the looks into the script. One report and the same texts serve all steps.
fn run_counted<L: Ledger, O: Sink>(
    blank: Blank,
    machine: &mut Machine,
    script: &Script,
    steps: u32,
    out: &mut O,
) -> Result<(), SinkError>
    requires name { blank.name ≡ L.name }
    requires parts { blank.parts ≡ L.parts }
    requires some_part { 0 < blank.parts }
    ensures put { Put (O.written out.old) (O.written out.new) (O.space out.old) (O.space out.new) (full_from (λ k. due_at k script.now) 0 machine.old steps) result }
    ensures cause { HasCause (O.faults out.old) (O.faults out.new) (result ≡ Err SinkError.Failed) }
    ensures state { OnOk result (machine.new ≡ state_after (λ k. due_at k script.now) 0 machine.old steps) }
{
    let mut looks = Steps::<L>::start(blank);
    let mut report = Report::new();
    let mut texts = Texts::new();
    for step in 0..steps {
        let due = script.due(step, &mut looks);
        let account = machine.step_told(due, &mut report);
        let state = machine.lent();
        if let Err(error) = put_step(&mut texts, step, &account, due, &report, &state, out) {
            return Err(error);
        }
    }
    Ok(())
}

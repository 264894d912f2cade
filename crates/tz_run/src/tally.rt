//! What a run shows of itself, in numbers.

ghost use Rattle.std.specs.Prelude.{◌≡◌, ◌+◌, ◌<◌, if◌then◌else◌};
ghost use Rattle.tz_sem.specs.Run.{state_after};
ghost use Rattle.tz_text.specs.Line.{is_hidden};
ghost use Rattle.tz_run.specs.Events.{events_of};
ghost use Rattle.tz_run.specs.Tallies.{shows_taken, shows_ran, tally_of};

use crate::due::due_at_step;
use std::marker::Brand;
use std::sync::ledger::{Blank, Ledger};
use tz_board::Script;
use tz_core::Machine;
use tz_model::{Report, Side, StepKind};
use tz_ready::Steps;

/// How many steps view `ns` shows as `S`, as `X` and as `N`.
#[derive(Clone, Copy)]
pub struct Tally {
    /// Steps that touched Secure state, or ended in it.
    pub secure: u32,
    /// Other steps that took an exception.
    pub taken: u32,
    /// Other steps that ran an instruction.
    pub ran: u32,
}

/// A tally with one more step.
fn with_step(tally: Tally, report: &Report) -> Tally
    requires secure_room { tally.secure < 4294967295 }
    requires taken_room { tally.taken < 4294967295 }
    requires ran_room { tally.ran < 4294967295 }
    ensures secure { result.secure ≡ tally.secure + (if is_hidden report.now then 1 else 0) }
    ensures taken { result.taken ≡ tally.taken + (if shows_taken report.now then 1 else 0) }
    ensures ran { result.ran ≡ tally.ran + (if shows_ran report.now then 1 else 0) }
{
    let Tally { secure, taken, ran } = tally;
    if report.touched || report.end == Side::Secure {
        return Tally {
            secure: secure + 1,
            taken,
            ran,
        };
    }
    match report.kind {
        StepKind::Taken { .. } => Tally {
            secure,
            taken: taken + 1,
            ran,
        },
        StepKind::Ran { .. } => Tally {
            secure,
            taken,
            ran: ran + 1,
        },
        StepKind::Locked | StepKind::Idle => tally,
    }
}

/// Makes `steps` steps, at each of which, counted from 0, its events of the script are due, and tells how many of
/// their lines in view `ns` show Secure state, an exception and an instruction.
pub fn make_tally(machine: &mut Machine, script: &Script, steps: u32) -> Tally
    ensures state { machine.new ≡ state_after (events_of script.now) 0 machine.old steps }
    ensures tally { result ≡ tally_of (events_of script.now) 0 machine.old steps }
{
    tally_counted::<Brand>(Blank::new(1), machine, script, steps)
}

/// The tally, over a ledger of the looks into the script. One report serves all steps.
fn tally_counted<L: Ledger>(
    blank: Blank,
    machine: &mut Machine,
    script: &Script,
    steps: u32,
) -> Tally
    requires name { blank.name ≡ L.name }
    requires parts { blank.parts ≡ L.parts }
    requires some_part { 0 < blank.parts }
    ensures state { machine.new ≡ state_after (events_of script.now) 0 machine.old steps }
    ensures tally { result ≡ tally_of (events_of script.now) 0 machine.old steps }
{
    let mut looks = Steps::<L>::start(blank);
    let mut report = Report::new();
    let mut tally = Tally {
        secure: 0,
        taken: 0,
        ran: 0,
    };
    let mut noted = None;
    let mut next = 0;
    for step in 0..steps {
        let due = due_at_step(script, &mut next, step, &mut looks);
        machine.step_over(due, &mut report, &mut noted);
        tally = with_step(tally, &report);
    }
    tally
}

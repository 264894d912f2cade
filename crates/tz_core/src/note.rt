//! Steps that can be taken back: what a step was before it was made is noted, with what its stores overwrote.

ghost use Rattle.std.specs.Prelude.{◌≡◌, Some, IsSome};
ghost use Rattle.tz_state.specs.Memory.{Memory};
ghost use Rattle.tz_sem.specs.Step.{step};
ghost use Rattle.tz_twin.specs.Integrity.{LeavesSecure, EntersSecure};
ghost use Rattle.tz_twin.specs.Ways.{TellsWay};
ghost use Rattle.tz_access.specs.Written.{before_stores, noted_count};
ghost use Rattle.tz_core.specs.Undo.{note_of, undo_of};

use crate::ending::UNCLOSED;
use crate::running::Machine;
use crate::waiting::no_moves;
use std::alloc::{AllocError, Global};
use std::marker::Model;
use tz_access::{Units, Written};
use tz_model::{Board, Report, ScriptEvent};
use tz_nvic::Exceptions;
use tz_regs::Core;

/// What a step was before it was made, but for memory, and what its stores overwrote.
#[derive(Drop)]
pub struct Note {
    core: Core,
    exceptions: Exceptions,
    units: Units,
    /// The list is always there: it is an option as the steps of a machine take it.
    written: Option<Written>,
}

impl Model for Note {
    ghost use Rattle.std.specs.Prelude.{IsSome};
    ghost use Rattle.tz_core.specs.Undo.{NoteValue, stores_noted};

    ghost Value = { NoteValue };

    ghost view = { λ n. record {
      core = n.core;
      exceptions = n.exceptions;
      sau = n.units.sau;
      mpu_s = n.units.mpu_s;
      mpu_ns = n.units.mpu_ns;
      monitor = n.units.monitor;
      written = stores_noted n.written;
    } };

    ghost invariant = { λ n. IsSome n.written };
}

/// Begins a list of what stores overwrite, which is there.
#[tactic(auto, unfolding(tz_access::specs::Written::before_stores, tz_access::specs::Written::undone))]
fn begin(written: &mut Option<Written>)
    requires { IsSome written.old }
    ensures begun { (m : Memory) → before_stores written.new m ≡ Some m }
    ensures empty { noted_count written.new ≡ 0 }
{
    if let Some(list) = written {
        list.clear();
    }
}

impl Note {
    /// A note of no step yet, which takes all memory that one of a machine of the board needs. What it has doesn't
    /// matter: `Machine::step_noted` writes all of it.
    ///
    /// # Errors
    ///
    /// `AllocError` where memory runs out.
    pub fn new(alloc: Global, board: &Board) -> Result<Note, AllocError> {
        let exceptions = Exceptions::new(alloc, board.interrupts)?;
        let written = Written::new(alloc)?;
        Ok(Note {
            core: Core::reset(0, 0, 0, 0, false),
            exceptions,
            units: Units::new(board),
            written: Some(written),
        })
    }
}

impl Machine {
    /// Notes the state but for memory. What is noted of stores stays.
    fn note_state(&self, note: &mut Note)
        ensures { note.new ≡ note_of self.now note.old.written }
    {
        note.core = self.core;
        note.exceptions.copy_from(&self.exceptions);
        self.bus.note_units(&mut note.units);
    }

    /// Makes one step as `step_into` does, and notes what takes it back. It takes no memory.
    pub fn step_noted_into(&mut self, due: &[ScriptEvent], report: &mut Report, note: &mut Note)
        ensures steps { step self.old due.now ≡ record { state = self.new; report = report.new } }
        ensures leaves_secure { LeavesSecure self.old (record { state = self.new; report = report.new }) }
        ensures enters_secure { EntersSecure self.old due.now (record { state = self.new; report = report.new }) }
        ensures tells_way { TellsWay (record { state = self.new; report = report.new }) }
        ensures note { undo_of note.new self.new ≡ self.old }
    {
        self.note_state(note);
        begin(&mut note.written);
        let mut noted = None;
        let mut moves = no_moves();
        let mut close = UNCLOSED;
        self.report_step(
            due,
            report,
            &mut noted,
            &mut note.written,
            &mut moves,
            &mut close,
        );
    }

    /// Makes one step as `step` does, and notes what takes it back. It takes no memory. A history makes its steps by
    /// `step_noted_into`.
    pub fn step_noted(&mut self, due: &[ScriptEvent], note: &mut Note) -> Report
        ensures steps { step self.old due.now ≡ record { state = self.new; report = result } }
        ensures leaves_secure { LeavesSecure self.old (record { state = self.new; report = result }) }
        ensures enters_secure { EntersSecure self.old due.now (record { state = self.new; report = result }) }
        ensures tells_way { TellsWay (record { state = self.new; report = result }) }
        ensures note { undo_of note.new self.new ≡ self.old }
    {
        let mut report = Report::new();
        self.step_noted_into(due, &mut report, note);
        report
    }

    /// Puts the machine back to what it was before the step of a note, where it is as that step left it. It takes no
    /// memory.
    #[tactic(auto, unfolding(tz_access::specs::Written::undone))]
    pub fn undo(&mut self, note: &Note)
        ensures { self.new ≡ undo_of note.now self.old }
    {
        self.core = note.core;
        self.exceptions.copy_from(&note.exceptions);
        self.bus.put_units(&note.units);
        if let Some(written) = &note.written {
            self.bus.undo(written);
        }
    }
}

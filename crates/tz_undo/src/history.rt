//! A machine with notes of its last steps.

ghost use Rattle.std.specs.Prelude.{◌≡◌, ◌≤◌, ◌<◌, ◌-◌, [], not, length, IfErr, IfOk};
ghost use Rattle.tz_sem.specs.Step.{step};
ghost use Rattle.tz_undo.specs.History.{stepped, backed, is_at_start};
ghost use Rattle.tz_undo.specs.Ring.{place_after, place_before};
ghost use Rattle.tz_undo.specs.declared.history.HistoryError.TheVariants.{Memory};

use std::alloc::{AllocError, Global};
use std::marker::Model;
use tz_core::{Machine, Note};
use tz_model::{Board, Report, ScriptEvent};

/// Why there is no history.
#[derive(Drop)]
pub enum HistoryError {
    /// There is no memory for the notes. The machine is as it was.
    Memory(Machine),
}

/// A machine with notes of its last steps: a ring of places, of which some have notes that stand.
#[derive(Drop)]
pub struct History {
    machine: Machine,
    notes: Vec<Note>,
    /// The place of the next note. The newest that stands is in the one before.
    next: usize,
    /// How many notes stand.
    count: usize,
}

impl Model for History {
    ghost use Rattle.std.specs.Prelude.{◌≤◌, ◌<◌, length};
    ghost use Rattle.std.specs.Coded.{codes, coded_ℕ};
    ghost use Rattle.std.specs.FinMap as map;
    ghost use Rattle.std.specs.Ordering.{nat_cmp};
    ghost use Rattle.tz_undo.specs.History.{HistoryValue, befores};
    ghost use Rattle.tz_undo.specs.Ring.{standing};

    ghost Value = { HistoryValue };

    ghost coded = { Prim.hlevel (codes, map.code {R = nat_cmp} coded_ℕ coded_ℕ) };

    ghost view = { λ h. record {
      now = h.machine;
      kept = length h.notes.items;
      before = befores (standing h.notes.items h.next h.count) h.machine;
    } };

    ghost invariant = { λ h.
        (h.next < length h.notes.items)
        × (h.count ≤ length h.notes.items)
        × (length h.notes.items ≤ 1000) };
}

/// So many notes of a board.
fn notes_of(alloc: Global, board: &Board, count: u32) -> Result<Vec<Note>, AllocError>
    ensures { IfOk result (λ notes. length notes.items ≡ count) }
{
    let mut notes = Vec::with_capacity(alloc, count as usize)?;
    for _ in 0..count {
        notes.push(Note::new(alloc, board)?)?;
    }
    Ok(notes)
}

/// The place after one of so many.
fn place_after(count: usize, place: usize) -> usize
    requires { place < count }
    ensures is { result ≡ place_after count place }
    ensures few { result < count }
{
    if place + 1 == count { 0 } else { place + 1 }
}

/// The place before one of so many.
fn place_before(count: usize, place: usize) -> usize
    requires { place < count }
    ensures is { result ≡ place_before count place }
    ensures few { result < count }
{
    if place == 0 { count - 1 } else { place - 1 }
}

impl History {
    /// A machine of a board, with places for the notes of 1 to 1,000 steps, and no step before it. It takes all memory
    /// that its calls need.
    ///
    /// # Errors
    ///
    /// `Memory` where memory runs out, with the machine.
    pub fn new(
        alloc: Global,
        machine: Machine,
        board: &Board,
        kept: u32,
    ) -> Result<History, HistoryError>
        requires some { 1 ≤ kept }
        requires few { kept ≤ 1000 }
        ensures made { IfOk result (λ h. h ≡ record { now = machine; kept = kept; before = [] }) }
        ensures handed_back { IfErr result (λ e. e ≡ Memory machine) }
    {
        match notes_of(alloc, board, kept) {
            Ok(notes) => Ok(History {
                machine,
                notes,
                next: 0,
                count: 0,
            }),
            Err(_) => Err(HistoryError::Memory(machine)),
        }
    }

    /// Makes one step at which these events are due, and tells in `report` what it did. Where all places have notes, the
    /// oldest goes. It takes no memory.
    pub fn step_into(&mut self, due: &[ScriptEvent], report: &mut Report)
        ensures after { self.new ≡ stepped self.old due.now }
        ensures report { report.new ≡ (step self.old.now due.now).report }
    {
        let places = self.notes.len();
        self.machine
            .step_noted_into(due, report, &mut self.notes[self.next]);
        self.next = place_after(places, self.next);
        if self.count < places {
            self.count += 1;
        }
    }

    /// Makes one step at which these events are due, and tells what it did. Where all places have notes, the oldest
    /// goes. It takes no memory. Tests are its users; the program makes steps by `step_into`.
    pub fn step(&mut self, due: &[ScriptEvent]) -> Report
        ensures after { self.new ≡ stepped self.old due.now }
        ensures report { result ≡ (step self.old.now due.now).report }
    {
        let mut report = Report::new();
        self.step_into(due, &mut report);
        report
    }

    /// Takes the last step back, and tells whether its note stood; where none stands, nothing changes. It takes no
    /// memory.
    pub fn back(&mut self) -> bool
        ensures after { self.new ≡ backed self.old }
        ensures known { result ≡ not (is_at_start self.old) }
    {
        if self.count == 0 {
            return false;
        }
        self.next = place_before(self.notes.len(), self.next);
        self.machine.undo(&self.notes[self.next]);
        self.count -= 1;
        true
    }

    /// How many steps can be taken back. Tests are its users.
    pub fn depth(&self) -> u32
        ensures { result ≡ length self.now.before }
    {
        self.count as u32
    }

    /// The machine, as its last step or the last one taken back has left it.
    pub fn machine(&self) -> &Machine
        ensures { result.now ≡ self.now.now }
    {
        &self.machine
    }

    /// The machine alone.
    pub fn into_machine(self) -> Machine
        ensures { result ≡ self.now }
    {
        self.machine
    }
}

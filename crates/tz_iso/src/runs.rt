//! The pair of machines and its step.

ghost use Rattle.std.specs.Prelude.{◌≡◌, ◌<◌, ◌↔◌, ℕ, List, true, None, IfOk};
ghost use Rattle.tz_model.specs.declared.report.View.TheVariants.{Ns};
ghost use Rattle.tz_sem.specs.Step.{started, step};
ghost use Rattle.tz_state.specs.State.{State, side_of};
ghost use Rattle.tz_core.specs.Closing.{way_told};
ghost use Rattle.tz_core.specs.declared.ending.Close.{Close};
ghost use Rattle.tz_table.specs.declared.units.Side.{Side};
ghost use Rattle.tz_table.specs.declared.units.Side.TheVariants.{NonSecure};
ghost use Rattle.tz_text.specs.Line.{line};
ghost use Rattle.tz_twin.specs.Seen.{crossing};
ghost use Rattle.tz_model.specs.declared.report.ScriptEvent.{ScriptEvent};
ghost use Rattle.tz_iso.specs.Marks.{Marked, NotesMoves};
ghost use Rattle.tz_iso.specs.What.{what_of};
ghost use Rattle.tz_iso.specs.Runs.{IsLinked};

use crate::answer::{PairStep, What};
use crate::compared::note_timers;
use crate::crossed::what_by;
use crate::marks::Marks;
use std::alloc::{AllocError, Global};
use std::marker::Model;
use tz_core::{Close, Machine, Stores, UNCLOSED};
use tz_model::{Board, Image, ScriptEvent, Side};
use tz_sem::Handling;

/// Two machines of one board and one Non-secure image, beside each other. As long as nothing differed at a
/// crossing out of Secure state, Non-secure code sees the same in both.
#[derive(Drop)]
pub struct Pair {
    first: Machine,
    second: Machine,
    steps: u32,
    found: Option<(u32, What)>,
    /// Room for the stores of a step of the first machine, and of the second.
    stores: Stores,
    others: Stores,
    /// Room for how a step of the first machine ended, and of the second.
    close: Close,
    close_of_other: Close,
    /// Room for how exceptions came into a step, which nothing asks for.
    noted: Option<Handling>,
    /// What may differ, since the machines were last linked.
    marks: Marks,
}

impl Model for Pair {
    ghost use Rattle.std.specs.Prelude.{◌≡◌, None};
    ghost use Rattle.std.specs.FinMap as map;
    ghost use Rattle.std.specs.Ordering.{nat_cmp};
    ghost use Rattle.std.specs.Coded.{codes, coded_ℕ};
    ghost use Rattle.tz_iso.specs.Marks.{Marked};
    ghost use Rattle.tz_iso.specs.Runs.{PairValue, IsLinked};

    ghost Value = { PairValue };

    ghost coded = { Prim.hlevel (codes, map.code {R = nat_cmp} coded_ℕ coded_ℕ) };

    ghost view = { λ p. record { first = p.first; second = p.second; steps = p.steps; found = p.found } };

    ghost invariant = { λ p. p.found ≡ None → IsLinked p.first p.second × Marked p.marks p.first p.second };
}

/// Whether a machine has a mover.
#[inline(always)]
fn has_mover(machine: &Machine) -> bool
    ensures { result ≡ machine.now.bus.board.mover }
{
    machine.board().mover
}

/// Marks what the moves at the beginning of a step of both may write. Both are of one board, so that one test tells where
/// there is no mover.
#[inline(always)]
fn note_moves_of_both(marks: &mut Marks, first: &Machine, second: &Machine)
    requires { IsLinked first.now second.now }
    ensures first { NotesMoves first.now marks.old marks.new }
    ensures second { NotesMoves second.now marks.old marks.new }
{
    if has_mover(first) {
        marks.note_moves(first);
        marks.note_moves(second);
    }
}

/// What may differ of two machines after what their next step begins with: nothing where Non-secure code runs, else what is
/// marked, what moves may write, and the exceptions where the timers may pend them apart.
fn begin_marks(marks: &mut Marks, first: &Machine, second: &Machine)
    requires linked { IsLinked first.now second.now }
    requires marked { Marked marks.old first.now second.now }
    ensures { (due : List ScriptEvent) → Marked marks.new (started first.now due) (started second.now due) }
{
    match first.side() {
        Side::Secure => {
            note_timers(marks, first.exceptions(), second.exceptions());
            note_moves_of_both(marks, first, second);
        }
        Side::NonSecure => marks.clear(),
    }
}

/// Whether neither of two steps touched Secure state, and Non-secure code goes on. Neither crossed out of it then.
fn is_quiet(close: &Close, other: &Close, first: &Machine) -> bool
    ensures first { result ≡ true → (s : State) → (start : Side) → way_told s start close.now ≡ None }
    ensures second { result ≡ true → (s : State) → (start : Side) → way_told s start other.now ≡ None }
    ensures side { result ≡ true → side_of first.now ≡ NonSecure }
{
    !close.touched && !other.touched && first.side() == Side::NonSecure
}

/// Whether both machines are in Secure state. Their last steps crossed out of it in neither then.
fn are_secure(first: &Machine, second: &Machine) -> bool
    ensures first { result ≡ true → (start : Side) → (close : Close) → way_told first.now start close ≡ None }
    ensures second { result ≡ true → (start : Side) → (close : Close) → way_told second.now start close ≡ None }
{
    first.side() == Side::Secure && second.side() == Side::Secure
}

/// Makes the step of two linked machines, at which these events are due, and tells what differs first.
fn step_both(
    first: &mut Machine,
    second: &mut Machine,
    stores: &mut Stores,
    others: &mut Stores,
    close: &mut Close,
    close_of_other: &mut Close,
    noted: &mut Option<Handling>,
    marks: &mut Marks,
    due: &[ScriptEvent],
) -> Option<What>
    requires linked { IsLinked first.old second.old }
    requires marked { Marked marks.old first.old second.old }
    ensures first { first.new ≡ (step first.old due.now).state }
    ensures second { second.new ≡ (step second.old due.now).state }
    ensures what { result ≡ what_of (step first.old due.now) (step second.old due.now) }
    ensures exact { result ≡ None ↔ crossing (step first.old due.now) ≡ crossing (step second.old due.now) }
    ensures lines { result ≡ None → (k : ℕ) → line Ns k (step first.old due.now).report ≡ line Ns k (step second.old due.now).report }
    ensures linked { result ≡ None → IsLinked first.new second.new }
    ensures marked { Marked marks.new first.new second.new }
{
    begin_marks(marks, first, second);
    let side = first.core().run.side;
    let side_of_other = second.core().run.side;
    let start = first.side();
    first.step_way(due, stores, noted, close);
    second.step_way(due, others, noted, close_of_other);
    if is_quiet(close, close_of_other, first) {
        return None;
    }
    let exceptional = first.is_exceptional(close);
    let exceptional_other = second.is_exceptional(close_of_other);
    marks.note(stores, exceptional, first.core(), side);
    marks.note(others, exceptional_other, second.core(), side_of_other);
    if are_secure(first, second) {
        return None;
    }
    let way = first.way(start, close);
    let way_of_other = second.way(start, close_of_other);
    what_by(marks, &way, &way_of_other, first, second)
}

impl Pair {
    ghost use Rattle.tz_iso.specs.Runs.{started_pair, advanced, pair_after, answer_of};

    /// Two machines that start with one board and one Non-secure image, each with a Secure image of its own. Fails
    /// for want of memory alone.
    pub fn new(
        alloc: Global,
        board: &Board,
        first: &Image,
        second: &Image,
        nonsecure: &Image,
    ) -> Result<Pair, AllocError>
        ensures { IfOk result (λ p. p ≡ started_pair board.now first.now second.now nonsecure.now) }
    {
        let one = Machine::new(alloc, board, first, nonsecure)?;
        let two = Machine::new(alloc, board, second, nonsecure)?;
        Ok(Pair {
            first: one,
            second: two,
            steps: 0,
            found: None,
            stores: Stores::new(),
            others: Stores::new(),
            close: UNCLOSED,
            close_of_other: UNCLOSED,
            noted: None,
            marks: Marks::everything(),
        })
    }

    /// The machine of the first Secure image. The program asks for neither machine.
    pub fn first(&self) -> &Machine
        ensures { result.now ≡ self.now.first }
    {
        &self.first
    }

    /// The machine of the second Secure image.
    pub fn second(&self) -> &Machine
        ensures { result.now ≡ self.now.second }
    {
        &self.second
    }

    /// Makes a step of both, of a pair in which nothing differed yet.
    fn advance(&mut self, due: &[ScriptEvent]) -> PairStep
        requires none { self.old.found ≡ None }
        requires few { self.old.steps < 4294967295 }
        ensures steps { self.new ≡ advanced self.old due.now }
        ensures answer { result ≡ answer_of self.new.found }
        ensures exact { result ≡ PairStep.Kept ↔ crossing (step self.old.first due.now) ≡ crossing (step self.old.second due.now) }
        ensures lines { result ≡ PairStep.Kept → (k : ℕ) → line Ns k (step self.old.first due.now).report ≡ line Ns k (step self.old.second due.now).report }
        ensures linked { result ≡ PairStep.Kept → IsLinked self.new.first self.new.second }
    {
        let step = self.steps;
        let what = step_both(
            &mut self.first,
            &mut self.second,
            &mut self.stores,
            &mut self.others,
            &mut self.close,
            &mut self.close_of_other,
            &mut self.noted,
            &mut self.marks,
            due,
        );
        self.steps = step + 1;
        match what {
            None => PairStep::Kept,
            Some(what) => {
                self.found = Some((step, what));
                PairStep::Differ { step, what }
            }
        }
    }

    /// Makes one step of both, at which these events are due, and tells whether they cross out of Secure state
    /// alike. Once something differed, each call answers the same and changes nothing.
    ///
    /// `Kept` comes exactly where neither crosses out, or both do in the same way, with the same registers handed
    /// over and the same public state after it. The line of the step is then the same in both for Non-secure code.
    pub fn step(&mut self, due: &[ScriptEvent]) -> PairStep
        requires { self.old.steps < 4294967295 }
        ensures steps { self.new ≡ pair_after self.old due.now }
        ensures answer { result ≡ answer_of self.new.found }
        ensures exact { self.old.found ≡ None → (result ≡ PairStep.Kept ↔ crossing (step self.old.first due.now) ≡ crossing (step self.old.second due.now)) }
        ensures lines { result ≡ PairStep.Kept → (k : ℕ) → line Ns k (step self.old.first due.now).report ≡ line Ns k (step self.old.second due.now).report }
        ensures linked { result ≡ PairStep.Kept → IsLinked self.new.first self.new.second }
    {
        match self.found {
            None => self.advance(due),
            Some((step, what)) => PairStep::Differ { step, what },
        }
    }
}

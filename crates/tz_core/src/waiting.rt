//! What a step begins with, and sleep.

ghost use Rattle.std.specs.Prelude.{◌≡◌, ◌<◌, ◌≤◌, true, false};
ghost use Rattle.tz_access.specs.Written.{before_stores, noted_count};
ghost use Rattle.tz_state.specs.Execution as told;
ghost use Rattle.tz_state.specs.Moves.{no_moves};

use crate::running::Machine;
use std::marker::Brand;
use std::sync::ledger::{Blank, Ledger};
use tz_access::Written;
use tz_model::{ScriptEvent, Sleep};
use tz_mover::advance;
use tz_nvic::Exceptions;
use tz_prio::wakes;
use tz_ready::Steps;
use tz_regs::Core;
use tz_state::Moves;

/// Whether a sleep ends by an exception.
fn wakes_counted<L: Ledger>(blank: Blank, core: &Core, exceptions: &Exceptions) -> bool
    requires name { blank.name ≡ L.name }
    requires parts { blank.parts ≡ L.parts }
    requires some_part { 0 < blank.parts }
    ensures { result ≡ told.wakes exceptions.now core.now.masks }
{
    let mut looks = Steps::<L>::start(blank);
    wakes(core, exceptions, &mut looks)
}

/// The moves of a step in which no channel goes.
pub(crate) fn no_moves() -> Moves
    ensures { result ≡ no_moves }
{
    Moves {
        secure: None,
        nonsecure: None,
    }
}

impl Machine {
    ghost use Rattle.tz_model.specs.declared.report.Sleep.TheVariants.{Awake};
    ghost use Rattle.tz_state.specs.State.{with_run, with_exceptions};
    ghost use Rattle.tz_state.specs.Due.{begun};
    ghost use Rattle.tz_state.specs.Moves.{moves_of, after_moves};
    ghost use Rattle.tz_sem.specs.Step.{started, awake, without_event, is_woken};

    /// Makes the moves of a step, of a machine that isn't locked and has a mover.
    #[tactic(auto, unfolding(tz_state::specs::Moves::moves_of))]
    #[inline(never)]
    fn move_words(&mut self, written: &mut Option<Written>) -> Moves
        requires mover { self.old.bus.board.mover ≡ true }
        requires unlocked { self.old.core.run.locked ≡ false }
        requires unwritten { noted_count written.old ≡ 0 }
        ensures does { self.new ≡ after_moves self.old }
        ensures told { result ≡ (moves_of self.old).told }
        ensures back { before_stores written.new self.new.bus.memory ≡ before_stores written.old self.old.bus.memory }
        ensures few { noted_count written.new ≤ 2 }
    {
        let mut channels = self.core.channels();
        let side = self.core.run.side;
        let told = advance(
            &mut channels,
            &mut self.bus,
            &mut self.exceptions,
            side,
            written,
        );
        self.core.put_channels(channels);
        told
    }

    /// Makes the moves of a step, where the machine has a mover and isn't locked. In `moves` is then what moved; it has nothing
    /// before, so that a machine without a mover writes nothing there.
    #[tactic(auto, unfolding(tz_state::specs::Moves::moves_of))]
    #[inline(always)]
    fn move_some(&mut self, written: &mut Option<Written>, moves: &mut Moves)
        requires unwritten { noted_count written.old ≡ 0 }
        requires unmoved { moves.old ≡ no_moves }
        ensures does { self.new ≡ after_moves self.old }
        ensures told { moves.new ≡ (moves_of self.old).told }
        ensures back { before_stores written.new self.new.bus.memory ≡ before_stores written.old self.old.bus.memory }
        ensures few { noted_count written.new ≤ 2 }
    {
        if self.bus.board().mover && !self.core.run.locked {
            *moves = self.move_words(written);
        }
    }

    /// What a step begins with, of a locked machine too: the events that are due pend, and the timers count; then the mover
    /// moves. It is always inlined, as `make_step` is.
    #[inline(always)]
    pub(crate) fn start(
        &mut self,
        due: &[ScriptEvent],
        written: &mut Option<Written>,
        moves: &mut Moves,
    )
        requires unwritten { noted_count written.old ≡ 0 }
        requires unmoved { moves.old ≡ no_moves }
        ensures does { self.new ≡ started self.old due.now }
        ensures told { moves.new ≡ (moves_of (with_exceptions self.old (begun self.old.exceptions due.now))).told }
        ensures back { before_stores written.new self.new.bus.memory ≡ before_stores written.old self.old.bus.memory }
        ensures few { noted_count written.new ≤ 2 }
    {
        self.exceptions.pend_due(due);
        self.exceptions.tick();
        self.move_some(written, moves);
    }

    /// Whether an exception ends a sleep, which a PRIMASK doesn't hinder. It is always inlined, since a machine that sleeps
    /// asks it each step.
    #[inline(always)]
    pub(crate) fn is_woken(&self) -> bool
        ensures { result ≡ is_woken self.now }
    {
        wakes_counted::<Brand>(Blank::new(1), &self.core, &self.exceptions)
    }

    /// Ends a sleep.
    pub(crate) fn wake(&mut self)
        ensures { self.new ≡ awake self.old }
    {
        self.core.run.sleep = Sleep::Awake;
    }
}

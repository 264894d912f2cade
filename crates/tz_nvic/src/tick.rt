//! The count of both timers.

ghost use Rattle.std.specs.Prelude.{◌≡◌, ◌<◌};
ghost use Rattle.tz_state.specs.Timers.{counts, interrupts, runs_out, counted_down, pended_by, ticked};
ghost use Rattle.tz_state.specs.SlotChanges.{with_timer};
ghost use Rattle.tz_state.specs.Slots.{timer_of};

use crate::exceptions::Exceptions;
use crate::place::{SYS_TICK_PLACE_NS, SYS_TICK_PLACE_S};
use tz_model::Side;
use tz_state::Timer;
use tz_state::systick_bits::{SYST_CSR_COUNTFLAG, SYST_CSR_TICKINT};

/// SYST_CSR.ENABLE: whether a timer counts.
fn counts(timer: &Timer) -> bool
    ensures { result ≡ counts timer.now }
{
    timer.csr % 2 == 1
}

/// SYST_CSR.TICKINT: whether it pends SysTick.
fn interrupts(timer: &Timer) -> bool
    ensures { result ≡ interrupts timer.now }
{
    timer.csr / SYST_CSR_TICKINT % 2 == 1
}

/// Whether the next count takes it from 1 to 0.
fn runs_out(timer: &Timer) -> bool
    ensures { result ≡ runs_out timer.now }
{
    counts(timer) && timer.cvr == 1
}

/// The timer after one count.
fn counted_down(timer: &Timer) -> Timer
    ensures { result ≡ counted_down timer.now }
{
    let csr = if runs_out(timer) {
        timer.csr | SYST_CSR_COUNTFLAG
    } else {
        timer.csr
    };
    let cvr = if !counts(timer) {
        timer.cvr
    } else if timer.cvr == 0 {
        timer.rvr
    } else {
        timer.cvr - 1
    };
    Timer {
        csr,
        rvr: timer.rvr,
        cvr,
    }
}

impl Exceptions {
    /// Sets SysTick at a place pending where its timer runs out and asks for it.
    fn pend_by(&mut self, timer: &Timer, index: usize)
        requires { index < 272 }
        ensures { self.new ≡ pended_by timer.now index self.old }
    {
        if runs_out(timer) && interrupts(timer) {
            let mut state = self.at(index);
            state.pending = true;
            self.put_at(index, state);
        }
    }

    /// Counts the SysTick of a side, whose slot has this place, whatever its count is. Few steps come here.
    #[inline(never)]
    fn turn_side(&mut self, side: Side, index: usize)
        requires { index < 272 }
        ensures { self.new ≡ with_timer (pended_by (timer_of self.old side) index self.old) side (counted_down (timer_of self.old side)) }
    {
        let timer = self.timer(side);
        self.pend_by(&timer, index);
        self.put_timer(side, counted_down(&timer));
    }

    /// Counts the SysTick of a side, whose slot has this place. Where its count is above 1 that alone changes.
    #[inline(always)]
    #[tactic(auto, using(crate::proofs::Timers::uncounted, crate::proofs::Timers::counting))]
    fn tick_side(&mut self, side: Side, index: usize)
        requires { index < 272 }
        ensures { self.new ≡ with_timer (pended_by (timer_of self.old side) index self.old) side (counted_down (timer_of self.old side)) }
    {
        let timer = self.timer(side);
        if counts(&timer) {
            if timer.cvr > 1 {
                let down = Timer {
                    csr: timer.csr,
                    rvr: timer.rvr,
                    cvr: timer.cvr - 1,
                };
                self.put_timer(side, down);
            } else {
                self.turn_side(side, index);
            }
        }
    }

    /// Counts each enabled SysTick once.
    #[inline(never)]
    fn tick_both(&mut self)
        ensures { self.new ≡ ticked self.old }
    {
        self.tick_side(Side::Secure, SYS_TICK_PLACE_S);
        self.tick_side(Side::NonSecure, SYS_TICK_PLACE_NS);
    }

    /// Counts each enabled SysTick once. From 0 it begins anew at SYST_RVR; a count from 1 to 0 sets COUNTFLAG
    /// and, with TICKINT, SysTick of its side pending. It is always inlined, since in most steps no timer counts.
    #[inline(always)]
    #[tactic(auto, using(crate::proofs::Timers::none_ticked))]
    pub fn tick(&mut self)
        ensures { self.new ≡ ticked self.old }
    {
        if counts(&self.timer_s) || counts(&self.timer_ns) {
            self.tick_both();
        }
    }
}

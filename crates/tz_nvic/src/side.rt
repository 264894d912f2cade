//! What each side chooses: PRIGROUP, PRIS, BFHFNMINS and the timers. Tests are the users of `set_timer`.

ghost use Rattle.std.specs.Prelude.{◌≡◌, ◌≤◌, length};
ghost use Rattle.tz_state.specs.First.{FitGroups};
ghost use Rattle.tz_state.specs.Slots.{places, prigroup_of, timer_of};
ghost use Rattle.tz_state.specs.SlotChanges.{is_fault_side_held, with_prigroup, with_fault_side, with_timer, timer_bits};

use crate::exceptions::Exceptions;
use crate::place::{BUS_FAULT_PLACE, HARD_FAULT_PLACE_NS, HARD_FAULT_PLACE_S, NMI_PLACE};
use tz_model::Side;
use tz_state::Timer;
use tz_state::systick_bits::SYST_CSR_BITS;

impl Exceptions {
    /// Each place has its slot, and PRIGROUP of both sides has three bits.
    pub fn know_slots(&self)
        ensures slots { length self.now.slots ≡ places }
        ensures groups { FitGroups self.now }
    {
        let _slots = &self.slots;
    }

    /// AIRCR.PRIGROUP of a side, at most 7.
    pub fn grouping(&self, side: Side) -> u8
        ensures is { result ≡ prigroup_of self.now side }
        ensures few { result ≤ 7 }
    {
        match side {
            Side::Secure => self.prigroup_s,
            Side::NonSecure => self.prigroup_ns,
        }
    }

    /// Writes AIRCR.PRIGROUP of a side, at most 7.
    pub fn set_grouping(&mut self, side: Side, n: u8)
        requires { n ≤ 7 }
        ensures { self.new ≡ with_prigroup self.old side n }
    {
        self.known = None;
        match side {
            Side::Secure => self.prigroup_s = n,
            Side::NonSecure => self.prigroup_ns = n,
        }
    }

    /// AIRCR.PRIS: whether Non-secure priorities count in the upper half.
    pub fn pris(&self) -> bool
        ensures { result ≡ self.now.pris }
    {
        self.pris
    }

    /// Writes AIRCR.PRIS.
    pub fn set_pris(&mut self, on: bool)
        ensures { self.new ≡ record self.old { pris = on } }
    {
        self.known = None;
        self.pris = on;
    }

    /// AIRCR.BFHFNMINS: whether NMI and BusFault are Non-secure.
    pub fn fault_side(&self) -> bool
        ensures { result ≡ self.now.bfhfnmins }
    {
        self.bfhfnmins
    }

    /// Whether a slot of the exceptions that BFHFNMINS moves, BusFault, NMI and HardFault, is busy on any side.
    fn is_fault_side_held(&self) -> bool
        ensures { result ≡ is_fault_side_held self.now }
    {
        let nmi = self.slots[NMI_PLACE];
        let bus = self.slots[BUS_FAULT_PLACE];
        let hard_s = self.slots[HARD_FAULT_PLACE_S];
        let hard_ns = self.slots[HARD_FAULT_PLACE_NS];
        (nmi.pending | nmi.active)
            || (bus.pending | bus.active)
            || (hard_s.pending | hard_s.active)
            || (hard_ns.pending | hard_ns.active)
    }

    /// Writes AIRCR.BFHFNMINS where all slots of the exceptions that it moves are idle, and leaves it where one
    /// is busy.
    pub fn set_fault_side(&mut self, on: bool)
        ensures { self.new ≡ with_fault_side self.old on }
    {
        if !self.is_fault_side_held() {
            self.known = None;
            self.bfhfnmins = on;
        }
    }

    /// The SysTick timer of a side.
    pub fn timer(&self, side: Side) -> Timer
        ensures { result ≡ timer_of self.now side }
    {
        match side {
            Side::Secure => self.timer_s,
            Side::NonSecure => self.timer_ns,
        }
    }

    /// Puts the SysTick timer of a side as it is told, all its bits.
    pub fn put_timer(&mut self, side: Side, timer: Timer)
        ensures { self.new ≡ with_timer self.old side timer }
    {
        match side {
            Side::Secure => self.timer_s = timer,
            Side::NonSecure => self.timer_ns = timer,
        }
    }

    /// Writes the SysTick timer of a side, the bits that its registers have.
    pub fn set_timer(&mut self, side: Side, timer: Timer)
        ensures { self.new ≡ with_timer self.old side (timer_bits timer) }
    {
        let kept = Timer {
            csr: timer.csr & SYST_CSR_BITS,
            rvr: timer.rvr & 0x00ff_ffff,
            cvr: timer.cvr & 0x00ff_ffff,
        };
        self.put_timer(side, kept);
    }
}

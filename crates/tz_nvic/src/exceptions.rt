//! The table of slots: what is pending, active and enabled, priorities and targets. The program goes by places; tests are
//! the users of `unpend`, `set_priority`, `set_enabled`, `set_target`, `pending` and `priority`, which go by slots.

ghost use Rattle.std.specs.Prelude.{◌≡◌, ◌≤◌, ◌<◌, ◌+◌, true, IfOk, IsTrue};
ghost use Rattle.tz_state.specs.ExceptionNumbers.{first_interrupt};
ghost use Rattle.tz_state.specs.Slots.{at, exists, is_external, is_place, side_at, slot_at, index_of, is_enabled, with_slot, reset_exceptions};
ghost use Rattle.tz_state.specs.SlotChanges.{pended, unpended, activated, deactivated, prioritized, switched, targeted};

use crate::known::Known;
use crate::place::{
    FIRST_INTERRUPT_PLACE, PLACES, exception_number, index_of, is_always_enabled, is_banked,
    is_system,
};
use std::alloc::{AllocError, Global};
use std::marker::Model;
use tz_model::{Side, Slot};
use tz_ready::Ready;
use tz_state::exception::{FIRST_INTERRUPT, HARD_FAULT, NMI};
use tz_state::{SlotState, Timer};

/// The exceptions of a core.
#[derive(Drop)]
pub struct Exceptions {
    pub(crate) slots: Vec<SlotState>,
    pub(crate) interrupts: u16,
    pub(crate) prigroup_s: u8,
    pub(crate) prigroup_ns: u8,
    pub(crate) pris: bool,
    pub(crate) bfhfnmins: bool,
    pub(crate) timer_s: Timer,
    pub(crate) timer_ns: Timer,
    /// All slots from this place on are as a reset leaves them.
    pub(crate) idle_from: usize,
    /// How many slots are active.
    pub(crate) active_count: u16,
    /// The slots that are pending and enabled, but those of fixed priority, in lists by priority and side.
    pub(crate) ready: Ready,
    /// What a look at all slots finds, until something is written that it depends on.
    pub(crate) known: Option<Known>,
}

impl Model for Exceptions {
    ghost use Rattle.tz_state.specs.Slots.{ExceptionsValue};

    ghost Value = { ExceptionsValue };

    ghost use Rattle.tz_nvic.specs.Viewed.{value_of, Holds};

    ghost view = { value_of };

    ghost invariant = { Holds };
}

/// A slot that is neither pending nor active nor enabled, of priority 0.
const IDLE: SlotState = SlotState {
    pending: false,
    active: false,
    enabled: false,
    priority: 0,
    target: Side::Secure,
};

/// A timer that is off.
const NO_TIMER: Timer = Timer {
    csr: 0,
    rvr: 0,
    cvr: 0,
};

impl Exceptions {
    /// The exceptions after a reset, of a core with this many external interrupts, 1 to 240: nothing is
    /// pending or active, all priorities and registers are 0, and external interrupts are Secure and disabled.
    ///
    /// # Errors
    ///
    /// `AllocError` where memory runs out.
    pub fn new(alloc: Global, interrupts: u16) -> Result<Exceptions, AllocError>
        requires some { 1 ≤ interrupts }
        requires few { interrupts ≤ 240 }
        ensures { IfOk result (λ e. e ≡ reset_exceptions interrupts) }
    {
        let slots = vec![in alloc; IDLE; PLACES]?;
        Ok(Exceptions {
            slots,
            interrupts,
            prigroup_s: 0,
            prigroup_ns: 0,
            pris: false,
            bfhfnmins: false,
            timer_s: NO_TIMER,
            timer_ns: NO_TIMER,
            idle_from: 0,
            active_count: 0,
            ready: Ready::new(),
            known: None,
        })
    }

    /// How many external interrupts there are, at most 240.
    pub fn interrupts(&self) -> u16
        ensures is { result ≡ self.now.interrupts }
        ensures few { result ≤ 240 }
    {
        self.interrupts
    }

    /// Whether a number is that of an external interrupt.
    fn is_external(&self, number: u16) -> bool
        ensures is { result ≡ is_external self.now number }
        ensures few { IsTrue result → number < 256 }
    {
        FIRST_INTERRUPT <= number && number < self.interrupts + FIRST_INTERRUPT
    }

    /// Whether a slot exists. That depends on its number; an unbanked number has one slot, whichever side
    /// is named, and its side is that of its target.
    pub fn exists(&self, slot: Slot) -> bool
        ensures is { result ≡ exists self.now slot }
        ensures few { IsTrue result → slot.number < 256 }
    {
        is_system(slot.number) || self.is_external(slot.number)
    }

    /// Whether a slot stands at a place.
    pub fn is_place(&self, index: usize) -> bool
        requires { index < 272 }
        ensures { result ≡ is_place self.now index }
    {
        if index < FIRST_INTERRUPT_PLACE {
            let number = index as u16 / 2;
            if index % 2 == 1 {
                is_banked(number)
            } else {
                is_system(number)
            }
        } else {
            index < usize::from(self.interrupts) + FIRST_INTERRUPT_PLACE
        }
    }

    /// The place of a slot, which is below `PLACES`. The slot exists.
    pub fn place_of(&self, slot: Slot) -> usize
        requires { exists self.now slot ≡ true }
        ensures is { result ≡ index_of slot }
        ensures few { result < 272 }
    {
        let _interrupts = self.interrupts;
        index_of(slot)
    }

    /// Writes all that is kept of the slot at a place.
    pub fn put_at(&mut self, index: usize, state: SlotState)
        requires { index < 272 }
        ensures { self.new ≡ with_slot self.old index state }
    {
        let queue = self.queue_by(index, &state);
        self.known = None;
        self.active_count += u16::from(state.active);
        self.active_count -= u16::from(self.slots[index].active);
        self.slots[index] = state;
        self.idle_from = self.idle_from.max(index + 1);
        self.ready.put(index as u16, queue);
    }

    /// Sets a slot pending. The slot exists.
    pub fn pend(&mut self, slot: Slot)
        requires { exists self.old slot ≡ true }
        ensures { self.new ≡ pended self.old slot }
    {
        let index = self.place_of(slot);
        let mut state = self.at(index);
        state.pending = true;
        self.put_at(index, state);
    }

    /// Sets a slot not pending. The slot exists.
    pub fn unpend(&mut self, slot: Slot)
        requires { exists self.old slot ≡ true }
        ensures { self.new ≡ unpended self.old slot }
    {
        let index = self.place_of(slot);
        let mut state = self.at(index);
        state.pending = false;
        self.put_at(index, state);
    }

    /// Makes a slot active and not pending, as when it is taken (DDI0553, `ActivateException`). It exists.
    pub fn activate(&mut self, slot: Slot)
        requires { exists self.old slot ≡ true }
        ensures { self.new ≡ activated self.old slot }
    {
        let index = self.place_of(slot);
        let mut state = self.at(index);
        state.pending = false;
        state.active = true;
        self.put_at(index, state);
    }

    /// Makes a slot not active (DDI0553, `DeActivate`). The slot exists.
    pub fn deactivate(&mut self, slot: Slot)
        requires { exists self.old slot ≡ true }
        ensures { self.new ≡ deactivated self.old slot }
    {
        let index = self.place_of(slot);
        let mut state = self.at(index);
        state.active = false;
        self.put_at(index, state);
    }

    /// Writes the priority register of a slot, all eight bits; NMI and HardFault keep theirs. It exists.
    pub fn set_priority(&mut self, slot: Slot, raw: u8)
        requires { exists self.old slot ≡ true }
        ensures { self.new ≡ prioritized self.old slot raw }
    {
        let index = self.place_of(slot);
        let state = self.at(index);
        let priority = if slot.number == NMI || slot.number == HARD_FAULT {
            state.priority
        } else {
            raw
        };
        self.put_at(index, SlotState { priority, ..state });
    }

    /// Enables or disables a slot; what is always enabled stays so. The slot exists.
    pub fn set_enabled(&mut self, slot: Slot, on: bool)
        requires { exists self.old slot ≡ true }
        ensures { self.new ≡ switched self.old slot on }
    {
        let index = self.place_of(slot);
        let state = self.at(index);
        let enabled = if is_always_enabled(slot.number) {
            state.enabled
        } else {
            on
        };
        self.put_at(index, SlotState { enabled, ..state });
    }

    /// Gives an external interrupt of the core to a side (DDI0553, NVIC_ITNS). Nothing else of it moves.
    pub fn set_target(&mut self, number: u16, side: Side)
        requires { is_external self.old number ≡ true }
        ensures { self.new ≡ targeted self.old number side }
    {
        let _interrupts = self.interrupts;
        let index = usize::from(number) + usize::from(FIRST_INTERRUPT);
        let mut state = self.at(index);
        state.target = side;
        self.put_at(index, state);
    }

    /// Whether a slot is active. The slot exists.
    pub fn active(&self, slot: Slot) -> bool
        requires { exists self.now slot ≡ true }
        ensures { result ≡ (at self.now (index_of slot)).active }
    {
        self.slots[self.place_of(slot)].active
    }

    /// Whether a slot is pending. The slot exists.
    pub fn pending(&self, slot: Slot) -> bool
        requires { exists self.now slot ≡ true }
        ensures { result ≡ (at self.now (index_of slot)).pending }
    {
        self.slots[self.place_of(slot)].pending
    }

    /// Whether a slot is enabled: by software, or always. The slot exists.
    pub fn enabled(&self, slot: Slot) -> bool
        requires { exists self.now slot ≡ true }
        ensures { result ≡ is_enabled self.now (index_of slot) }
    {
        self.is_enabled(self.place_of(slot))
    }

    /// The priority register of a slot, all eight bits. The slot exists.
    pub fn priority(&self, slot: Slot) -> u8
        requires { exists self.now slot ≡ true }
        ensures { result ≡ (at self.now (index_of slot)).priority }
    {
        self.slots[self.place_of(slot)].priority
    }

    /// The side of an external interrupt of the core.
    pub fn target(&self, number: u16) -> Side
        requires { is_external self.now number ≡ true }
        ensures { result ≡ (at self.now (number + first_interrupt)).target }
    {
        self.slots[usize::from(number) + usize::from(FIRST_INTERRUPT)].target
    }

    /// What is kept of the slot at a place.
    pub fn at(&self, index: usize) -> SlotState
        requires { index < 272 }
        ensures { result ≡ at self.now index }
    {
        self.slots[index]
    }

    /// Whether the slot at a place is enabled.
    pub fn is_enabled(&self, index: usize) -> bool
        requires { index < 272 }
        ensures { result ≡ is_enabled self.now index }
    {
        is_always_enabled(exception_number(index)) || self.slots[index].enabled
    }

    /// The side of the slot at a place.
    pub fn side_at(&self, index: usize) -> Side
        requires { index < 272 }
        ensures { result ≡ side_at self.now index }
    {
        self.side_by(index, &self.slots[index])
    }

    /// The slot at a place.
    pub fn slot_at(&self, index: usize) -> Slot
        requires { index < 272 }
        ensures { result ≡ slot_at self.now index }
    {
        Slot {
            number: exception_number(index),
            side: self.side_at(index),
        }
    }
}

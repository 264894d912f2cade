//! The place of each slot.

ghost use Rattle.std.specs.Prelude.{◌≡◌, ◌<◌};
ghost use Rattle.tz_state.specs.Slots.{is_banked, is_system, bank_of, index_of, exception_number, is_always_enabled};

use tz_model::{Side, Slot};
use tz_state::exception::{
    BUS_FAULT, FIRST_INTERRUPT, HARD_FAULT, MEM_MANAGE, NMI, PEND_SV, SECURE_FAULT, SV_CALL,
    SYS_TICK, USAGE_FAULT,
};

/// How many places there are.
pub const PLACES: usize = 272;
/// The first of an external interrupt; below it each number of the system has two.
pub const FIRST_INTERRUPT_PLACE: usize = 32;

pub(crate) const NMI_PLACE: usize = 4;

pub(crate) const HARD_FAULT_PLACE_S: usize = 6;

pub(crate) const HARD_FAULT_PLACE_NS: usize = 7;

pub(crate) const BUS_FAULT_PLACE: usize = 10;

pub(crate) const SYS_TICK_PLACE_S: usize = 30;

pub(crate) const SYS_TICK_PLACE_NS: usize = 31;

/// Whether a number has a slot on each side.
pub(crate) fn is_banked(number: u16) -> bool
    ensures { result ≡ is_banked number }
{
    number == HARD_FAULT
        || number == MEM_MANAGE
        || number == USAGE_FAULT
        || number == SV_CALL
        || number == PEND_SV
        || number == SYS_TICK
}

/// Whether a number is one of the system's.
pub(crate) fn is_system(number: u16) -> bool
    ensures { result ≡ is_system number }
{
    number == NMI || number == BUS_FAULT || number == SECURE_FAULT || is_banked(number)
}

/// Whether an exception of this number can't be disabled.
pub fn is_always_enabled(number: u16) -> bool
    ensures { result ≡ is_always_enabled number }
{
    number == NMI
        || number == HARD_FAULT
        || number == SV_CALL
        || number == PEND_SV
        || number == SYS_TICK
}

/// 1 for the Non-secure slot of a banked number, else 0.
fn bank_of(number: u16, side: Side) -> usize
    ensures is { result ≡ bank_of number side }
    ensures few { result < 2 }
{
    match side {
        Side::Secure => 0,
        Side::NonSecure => { if is_banked(number) { 1 } else { 0 } }
    }
}

/// The place of a slot.
pub(crate) fn index_of(slot: Slot) -> usize
    requires { slot.number < 256 }
    ensures is { result ≡ index_of slot }
    ensures few { result < 272 }
{
    if slot.number < FIRST_INTERRUPT {
        2 * usize::from(slot.number) + bank_of(slot.number, slot.side)
    } else {
        usize::from(slot.number) + usize::from(FIRST_INTERRUPT)
    }
}

/// The number whose slot stands at a place.
pub(crate) fn exception_number(index: usize) -> u16
    requires { index < 272 }
    ensures { result ≡ exception_number index }
{
    if index < FIRST_INTERRUPT_PLACE {
        index as u16 / 2
    } else {
        index as u16 - FIRST_INTERRUPT
    }
}

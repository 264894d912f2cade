//! The exception that returns is no longer active (DDI0553, `DeActivate`).

ghost use Rattle.std.specs.Prelude.{◌≡◌, true};
ghost use Rattle.tz_state.specs.Slots.{exists};
ghost use Rattle.tz_state.specs.Execution.{raw_priority};
ghost use Rattle.tz_frames.specs.Leave.{is_urgent, urgent_slot, freed, keeps_faultmask, unmasked, core_returning};

use crate::sides::{set_spsel, side_of_bit};
use tz_frames::Returning;
use tz_model::{Side, Slot};
use tz_nvic::Exceptions;
use tz_regs::{Core, Masks};
use tz_state::exception::{
    HARD_FAULT, NMI, NMI_PRIORITY, SECURE_HARD_FAULT_PRIORITY, ZERO_PRIORITY,
};

const HARD_S: Slot = Slot {
    number: HARD_FAULT,
    side: Side::Secure,
};

/// Whether NMI or a HardFault is active.
fn is_urgent(exceptions: &Exceptions) -> bool
    ensures { result ≡ is_urgent exceptions.now }
{
    exceptions.raw_priority() < ZERO_PRIORITY
}

/// The one of NMI and the HardFaults that gives a raw priority; where both HardFaults do, the Secure one.
fn urgent_slot(exceptions: &Exceptions, raw: u32) -> Slot
    ensures is { result ≡ urgent_slot exceptions.now raw }
    ensures exists { exists exceptions.now result ≡ true }
{
    if raw == NMI_PRIORITY {
        Slot {
            number: NMI,
            side: Side::Secure,
        }
    } else if raw == SECURE_HARD_FAULT_PRIORITY {
        HARD_S
    } else if !exceptions.fault_side() && exceptions.active(HARD_S) {
        HARD_S
    } else {
        Slot {
            number: HARD_FAULT,
            side: Side::NonSecure,
        }
    }
}

/// Makes the exception that returns not active, or the one of NMI and the HardFaults that gives the raw priority. A
/// number that has no slot changes nothing.
pub(crate) fn free(exceptions: &mut Exceptions, slot: Slot)
    ensures { exceptions.new ≡ freed exceptions.old slot }
{
    let raw = exceptions.raw_priority();
    if raw < ZERO_PRIORITY {
        exceptions.deactivate(urgent_slot(exceptions, raw));
    } else if exceptions.exists(slot) {
        exceptions.deactivate(slot);
    }
}

/// Whether FAULTMASK stays, since NMI returns or the raw priority is negative.
fn keeps_faultmask(core: &Core, exceptions: &Exceptions) -> bool
    ensures { result ≡ keeps_faultmask core.now exceptions.now }
{
    core.registers.ipsr == NMI || is_urgent(exceptions)
}

/// Clears FAULTMASK of a side, unless it stays.
fn unmask(masks: &mut Masks, keeps: bool, side: Side)
    ensures { masks.new ≡ unmasked keeps side masks.old }
{
    match side {
        Side::Secure => masks.s.faultmask = keeps && masks.s.faultmask,
        Side::NonSecure => masks.ns.faultmask = keeps && masks.ns.faultmask,
    }
}

/// Writes what a return writes of masks and of CONTROL, on the side of ES. The exceptions are those before it.
pub(crate) fn return_core(core: &mut Core, exceptions: &Exceptions, returning: &Returning)
    ensures { core.new ≡ core_returning exceptions.now returning.now core.old }
{
    let side = side_of_bit(returning.es);
    let keeps = keeps_faultmask(core, exceptions);
    unmask(&mut core.masks, keeps, side);
    set_spsel(core, side, returning.process);
}

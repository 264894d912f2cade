//! An EXC_RETURN value, and what is wrong with it (DDI0553, `ValidateExceptionReturn`).

ghost use Rattle.std.specs.Prelude.{◌≡◌, true, ◌||◌};
ghost use Rattle.tz_state.specs.Slots.{exists, at, index_of, side_at, is_banked};
ghost use Rattle.tz_frames.specs.Leave.{is_exc_return, is_set, returning_by, slot_returning, is_well_formed, is_forged, is_side, is_returnable, exc_return_fault};

use crate::sides::{is_secure, side_of_bit};
use tz_frames::Returning;
use tz_frames::return_bits::{
    EXC_RETURN_DCRS, EXC_RETURN_ES, EXC_RETURN_FTYPE, EXC_RETURN_MODE, EXC_RETURN_PREFIX,
    EXC_RETURN_S, EXC_RETURN_SPSEL,
};
use tz_model::{Fault, Side, Slot};
use tz_nvic::Exceptions;
use tz_regs::Core;

/// Whether a branch of Handler mode to this address is a return from an exception (DDI0553, EXC_RETURN): bits 31 to
/// 24 are ones. The other bits don't count.
pub fn is_exc_return(target: u32) -> bool
    ensures { result ≡ is_exc_return target }
{
    target / EXC_RETURN_PREFIX == 0xFF
}

/// The bits of an EXC_RETURN value by which code of a side returns. ES counts as 0 where that is Non-secure code.
pub fn returning_by(side: Side, value: u32) -> Returning
    ensures { result ≡ returning_by side value }
{
    Returning {
        es: is_secure(side) && value / EXC_RETURN_ES % 2 == 1,
        process: value / EXC_RETURN_SPSEL % 2 == 1,
        thread: value / EXC_RETURN_MODE % 2 == 1,
        dcrs: value / EXC_RETURN_DCRS % 2 == 1,
        secure: value / EXC_RETURN_S % 2 == 1,
    }
}

/// The exception that returns.
pub(crate) fn slot_returning(core: &Core, returning: &Returning) -> Slot
    ensures { result ≡ slot_returning core.now returning.now }
{
    Slot {
        number: core.registers.ipsr,
        side: side_of_bit(returning.es),
    }
}

/// Whether bits 23 to 7 and FType of an EXC_RETURN value are ones, and bit 1 is zero.
pub fn is_well_formed(value: u32) -> bool
    ensures { result ≡ is_well_formed value }
{
    value / 0x80 % 0x2_0000 == 0x1_FFFF && value / 0x2 % 2 == 0 && value / EXC_RETURN_FTYPE % 2 == 1
}

/// Whether Non-secure code claims a Secure exception, or an additional frame left out.
fn is_forged(side: Side, value: u32) -> bool
    ensures { result ≡ is_forged side value }
{
    match side {
        Side::Secure => false,
        Side::NonSecure => { value / EXC_RETURN_ES % 2 == 1 || value / EXC_RETURN_DCRS % 2 == 0 }
    }
}

/// Whether a slot is of the side that it is named with. The two slots of a banked number are. It exists.
#[tactic(auto, using(crate::proofs::Banked::banked_side))]
fn is_of_side(exceptions: &Exceptions, slot: Slot) -> bool
    requires { exists exceptions.now slot ≡ true }
    ensures { result ≡ (is_banked slot.number || is_side slot.side (side_at exceptions.now (index_of slot))) }
{
    is_side(slot.side, exceptions.side_at(exceptions.place_of(slot)))
}

/// Whether two sides are one.
fn is_side(one: Side, other: Side) -> bool
    ensures { result ≡ is_side one other }
{
    match one {
        Side::Secure => is_secure(other),
        Side::NonSecure => !is_secure(other),
    }
}

/// Whether an exception is active, and of that side.
fn is_returnable(exceptions: &Exceptions, slot: Slot) -> bool
    ensures { result ≡ is_returnable exceptions.now slot }
{
    exceptions.exists(slot) && exceptions.active(slot) && is_of_side(exceptions, slot)
}

/// The fault of an EXC_RETURN value, where it has one.
pub(crate) fn exc_return_fault(core: &Core, exceptions: &Exceptions, value: u32) -> Option<Fault>
    ensures { result ≡ exc_return_fault core.now exceptions.now value }
{
    let side = core.run.side;
    if !is_well_formed(value) {
        return Some(Fault::InvPc(side));
    }
    if is_forged(side, value) {
        return Some(Fault::ExcReturn);
    }
    if !is_returnable(exceptions, slot_returning(core, &returning_by(side, value))) {
        return Some(Fault::InvPc(side));
    }
    None
}

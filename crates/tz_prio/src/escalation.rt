//! What a synchronous exception becomes.

ghost use Rattle.std.specs.Prelude.{◌≡◌, true};
ghost use Rattle.tz_state.specs.Slots.{exists};
ghost use Rattle.tz_state.specs.Escalation.{hard_side, hardened, escalated};

use crate::execution::{can_take, execution};
use tz_model::{Side, Slot};
use tz_nvic::Exceptions;
use tz_regs::{Core, Masks};
use tz_state::Taken;

/// The side of the HardFault that code of a side raises, and that an exception of that side becomes.
pub fn hard_side(exceptions: &Exceptions, side: Side) -> Side
    ensures { result ≡ hard_side exceptions.now side }
{
    if exceptions.fault_side() {
        side
    } else {
        Side::Secure
    }
}

/// HardFault of a side, or lockup where it can't be taken.
fn hardened(masks: &Masks, exceptions: &Exceptions, side: Side) -> Taken
    ensures { result ≡ hardened exceptions.now masks.now side }
{
    if exceptions.hard_priority(side) < execution(masks, exceptions) {
        Taken::Hard(side)
    } else {
        Taken::Lockup
    }
}

/// What becomes of a synchronous exception (DDI0553, `CreateException`): it stays as it is where it is enabled and its
/// priority is below the execution priority. Else it is HardFault, which is Secure, but of the exception's side
/// while BFHFNMINS is 1; where that isn't below the execution priority, the core locks. The slot exists.
pub fn escalate(core: &Core, exceptions: &Exceptions, slot: Slot) -> Taken
    requires { exists exceptions.now slot ≡ true }
    ensures { result ≡ escalated exceptions.now core.now.masks slot }
{
    if exceptions.enabled(slot) && can_take(core, exceptions, slot) {
        return Taken::AsIs;
    }
    let side = exceptions.side_at(exceptions.place_of(slot));
    hardened(&core.masks, exceptions, hard_side(exceptions, side))
}

//! The priorities of masks, four above the manual's.

ghost use Rattle.std.specs.Prelude.{◌≡◌, ◌≤◌};
ghost use Rattle.tz_state.specs.Execution.{basepri_priority, primask_priority, faultmask_set, faultmask_priority, side_priority, without_primask};

use tz_model::Side;
use tz_nvic::Exceptions;
use tz_regs::{Masks, SideMasks};
use tz_state::exception::{IDLE_PRIORITY, ZERO_PRIORITY};

/// The priority that BASEPRI of a side counts as: 260, that of no mask, where it is 0.
pub fn basepri_priority(exceptions: &Exceptions, side: Side, byte: u8) -> u32
    ensures is { result ≡ basepri_priority exceptions.now side byte }
    ensures few { result ≤ 260 }
{
    if byte == 0 {
        IDLE_PRIORITY
    } else {
        ZERO_PRIORITY + exceptions.restricted_priority(side, exceptions.group_of(side, byte))
    }
}

/// The priority that PRIMASK of a side counts as: 260 where it is clear.
pub fn primask_priority(exceptions: &Exceptions, side: Side, set: bool) -> u32
    ensures is { result ≡ primask_priority exceptions.now side set }
    ensures few { result ≤ 260 }
{
    if set {
        ZERO_PRIORITY + exceptions.restricted_priority(side, 0)
    } else {
        IDLE_PRIORITY
    }
}

/// The priority of FAULTMASK of a side where it is set.
fn faultmask_set(exceptions: &Exceptions, side: Side) -> u32
    ensures is { result ≡ faultmask_set exceptions.now side }
    ensures few { result ≤ 260 }
{
    match side {
        Side::Secure => exceptions.hard_priority(Side::Secure),
        Side::NonSecure => {
            if exceptions.fault_side() {
                exceptions.hard_priority(Side::NonSecure)
            } else {
                ZERO_PRIORITY + exceptions.restricted_priority(Side::NonSecure, 0)
            }
        }
    }
}

/// The priority that FAULTMASK of a side counts as (DDI0553, `ExecutionPriority`): 260 where it is clear.
pub fn faultmask_priority(exceptions: &Exceptions, side: Side, set: bool) -> u32
    ensures is { result ≡ faultmask_priority exceptions.now side set }
    ensures few { result ≤ 260 }
{
    if set {
        faultmask_set(exceptions, side)
    } else {
        IDLE_PRIORITY
    }
}

/// The priority that the masks of a side count as, the least of the three: 260 where none is set.
pub fn side_priority(exceptions: &Exceptions, side: Side, masks: &SideMasks) -> u32
    ensures is { result ≡ side_priority exceptions.now side masks.now }
    ensures few { result ≤ 260 }
{
    let base = basepri_priority(exceptions, side, masks.basepri);
    let prime = primask_priority(exceptions, side, masks.primask);
    base.min(prime.min(faultmask_priority(exceptions, side, masks.faultmask)))
}

/// The masks with both PRIMASKs 0.
pub(crate) fn without_primask(masks: &Masks) -> Masks
    ensures { result ≡ without_primask masks.now }
{
    Masks {
        s: SideMasks {
            primask: false,
            ..masks.s
        },
        ns: SideMasks {
            primask: false,
            ..masks.ns
        },
    }
}

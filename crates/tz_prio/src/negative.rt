//! Whether the execution priority is negative.

ghost use Rattle.std.specs.Prelude.{◌≡◌};
ghost use Rattle.tz_state.specs.Execution.{execution, manual_priority};
ghost use Rattle.tz_state.specs.State.{is_negative_at};

use tz_nvic::Exceptions;
use tz_regs::Core;
use tz_state::exception::ZERO_PRIORITY;

/// Whether the execution priority (DDI0553, `ExecutionPriority`) is negative: NMI or HardFault is active, or a
/// FAULTMASK counts as HardFault. BASEPRI and PRIMASK don't make it so.
#[tactic(auto, using(crate::proofs::Signs::execution_negative, crate::proofs::Signs::negative_told))]
pub fn is_negative(core: &Core, exceptions: &Exceptions) -> bool
    ensures { result ≡ is_negative_at (manual_priority (execution exceptions.now core.now.masks)) }
{
    let masks = &core.masks;
    exceptions.raw_priority() < ZERO_PRIORITY
        || masks.s.faultmask
        || masks.ns.faultmask && exceptions.fault_side()
}

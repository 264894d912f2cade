//! The exception that a fault pends, and what becomes of it (DDI0553, `CreateException`).

ghost use Rattle.std.specs.Prelude.{◌≡◌, true};
ghost use Rattle.tz_state.specs.Slots.{exists};
ghost use Rattle.tz_frames.specs.Status.{exception_slot, exception_of, frame_exception, raised, faulted, frame_faulted};

use crate::effect::effect_of;
use crate::status::{set_frame_status, set_hfsr, set_status};
use tz_frames::{FaultException, StackFault};
use tz_model::{Fault, Side, Slot};
use tz_nvic::Exceptions;
use tz_prio::{Taken, escalate, hard_side};
use tz_regs::Core;
use tz_regs::fault_bits::FORCED;
use tz_state::exception::{BUS_FAULT, HARD_FAULT, MEM_MANAGE, SECURE_FAULT, SV_CALL, USAGE_FAULT};

/// The slot of an exception of a side. HardFault is of the side that BFHFNMINS gives it.
fn exception_slot(exceptions: &Exceptions, side: Side, exception: FaultException) -> Slot
    ensures is { result ≡ exception_slot exceptions.now side exception }
    ensures exists { exists exceptions.now result ≡ true }
{
    let (number, side) = match exception {
        FaultException::MemManage => (MEM_MANAGE, side),
        FaultException::BusFault => (BUS_FAULT, side),
        FaultException::UsageFault => (USAGE_FAULT, side),
        FaultException::HardFault => (HARD_FAULT, hard_side(exceptions, side)),
        FaultException::SecureFault => (SECURE_FAULT, side),
        FaultException::SVCall => (SV_CALL, side),
    };
    Slot { number, side }
}

/// The exception of a fault of code of a side. It exists.
pub fn exception_of(exceptions: &Exceptions, side: Side, fault: Fault) -> Slot
    ensures is { result ≡ exception_of exceptions.now side fault }
    ensures exists { exists exceptions.now result ≡ true }
{
    let effect = effect_of(side, fault);
    exception_slot(exceptions, effect.side, effect.exception)
}

/// The exception of a frame of the stack of a side that isn't written or read. It exists.
pub fn frame_exception(exceptions: &Exceptions, side: Side, fault: StackFault) -> Slot
    ensures is { result ≡ frame_exception exceptions.now side fault }
    ensures exists { exists exceptions.now result ≡ true }
{
    match fault {
        StackFault::Limit(of) => exception_of(exceptions, side, Fault::StackLimit(of)),
        StackFault::Access(fault) => exception_of(exceptions, side, fault),
        StackFault::Signature => exception_of(exceptions, side, Fault::Signature),
    }
}

/// Pends an exception as what it becomes, which is HardFault where it can't be taken, with HFSR.FORCED, or nothing:
/// then the core has to lock. The slot exists.
fn raise(core: &mut Core, exceptions: &mut Exceptions, slot: Slot) -> bool
    requires { exists exceptions.old slot ≡ true }
    ensures { raised slot core.old exceptions.old ≡ record { core = core.new; exceptions = exceptions.new; locks = result } }
{
    match escalate(core, exceptions, slot) {
        Taken::AsIs => {
            exceptions.pend(slot);
            false
        }
        Taken::Hard(side) => {
            set_hfsr(&mut core.status, FORCED);
            exceptions.pend(Slot {
                number: HARD_FAULT,
                side,
            });
            false
        }
        Taken::Lockup => {
            set_hfsr(&mut core.status, FORCED);
            true
        }
    }
}

/// What a fault of code of a side does before anything is entered, and whether the core has to lock.
pub(crate) fn raise_fault_of(
    core: &mut Core,
    exceptions: &mut Exceptions,
    side: Side,
    fault: Fault,
) -> bool
    ensures { faulted side fault core.old exceptions.old ≡ record { core = core.new; exceptions = exceptions.new; locks = result } }
{
    set_status(&mut core.status, side, fault);
    let slot = exception_of(exceptions, side, fault);
    raise(core, exceptions, slot)
}

/// What a frame of the stack of a side does that isn't written (`stacking`) or isn't read, before anything is
/// entered, and whether the core has to lock.
pub(crate) fn raise_frame_fault(
    core: &mut Core,
    exceptions: &mut Exceptions,
    stacking: bool,
    side: Side,
    fault: StackFault,
) -> bool
    ensures { frame_faulted stacking side fault core.old exceptions.old ≡ record { core = core.new; exceptions = exceptions.new; locks = result } }
{
    set_frame_status(&mut core.status, stacking, side, fault);
    let slot = frame_exception(exceptions, side, fault);
    raise(core, exceptions, slot)
}

/// What a fault of the running code does before anything is entered (DDI0553, `CreateException`): its status bits
/// and its address are set, and its exception pends. An exception that is disabled, or not below the execution
/// priority, pends as HardFault, with HFSR.FORCED. True where that isn't below the execution priority either: then
/// nothing pends, and the core has to lock.
pub fn raise_fault(core: &mut Core, exceptions: &mut Exceptions, fault: Fault) -> bool
    ensures { faulted core.old.run.side fault core.old exceptions.old ≡ record { core = core.new; exceptions = exceptions.new; locks = result } }
{
    let side = core.run.side;
    raise_fault_of(core, exceptions, side, fault)
}

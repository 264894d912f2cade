//! The table of faults, in the order of the status registers MMFSR, BFSR, UFSR, HFSR and SFSR (DDI0553, chapter B3.9
//! and `CreateException`).

ghost use Rattle.std.specs.Prelude.{◌≡◌};
ghost use Rattle.tz_frames.specs.FaultTable.{sets, effect_of, word_effect};

use tz_frames::FaultAddress::{Bfar, Mmfar, Sfar, Unwritten};
use tz_frames::FaultException::{BusFault, HardFault, MemManage, SVCall, SecureFault, UsageFault};
use tz_frames::{FaultAddress, FaultEffect, FaultException};
use tz_model::{Fault, Side};
use tz_regs::fault_bits::{
    AUVIOL, BFARVALID, DACCVIOL, DEBUGEVT, DIVBYZERO, IACCVIOL, IBUSERR, INVEP, INVER, INVIS,
    INVPC, INVSTATE, INVTRAN, MMARVALID, MSTKERR, MUNSTKERR, NOCP, PRECISERR, SFARVALID, STKERR,
    STKOF, UNALIGNED, UNDEFINSTR, UNSTKERR,
};

/// A line of the table.
fn sets(status: u32, address: FaultAddress, exception: FaultException, side: Side) -> FaultEffect
    ensures { result ≡ sets status address exception side }
{
    FaultEffect {
        status,
        address,
        exception,
        side,
    }
}

/// What a fault of code of a side sets and pends: its status bits, the register of its address, its exception, and the
/// side whose these are.
pub(crate) fn effect_of(side: Side, fault: Fault) -> FaultEffect
    ensures { result ≡ effect_of side fault }
{
    match fault {
        Fault::Exec(of) => sets(IACCVIOL, Unwritten, MemManage, of),
        Fault::DataAccess(address, of) => {
            sets(DACCVIOL | MMARVALID, Mmfar(address), MemManage, of)
        }
        Fault::ExecBus => sets(IBUSERR, Unwritten, BusFault, side),
        Fault::Precise(address) => sets(PRECISERR | BFARVALID, Bfar(address), BusFault, side),
        Fault::Undef => sets(UNDEFINSTR, Unwritten, UsageFault, side),
        Fault::InvState => sets(INVSTATE, Unwritten, UsageFault, side),
        Fault::InvPc(of) => sets(INVPC, Unwritten, UsageFault, of),
        Fault::NoCp => sets(NOCP, Unwritten, UsageFault, side),
        Fault::StackLimit(of) => sets(STKOF, Unwritten, UsageFault, of),
        Fault::Unaligned => sets(UNALIGNED, Unwritten, UsageFault, side),
        Fault::DivZero => sets(DIVBYZERO, Unwritten, UsageFault, side),
        Fault::Breakpoint => sets(DEBUGEVT, Unwritten, HardFault, side),
        Fault::EntryPoint => sets(INVEP, Unwritten, SecureFault, side),
        Fault::Signature => sets(INVIS, Unwritten, SecureFault, side),
        Fault::ExcReturn => sets(INVER, Unwritten, SecureFault, side),
        Fault::Violation(address) => sets(AUVIOL | SFARVALID, Sfar(address), SecureFault, side),
        Fault::Transition => sets(INVTRAN, Unwritten, SecureFault, side),
        Fault::Call => sets(0, Unwritten, SVCall, side),
    }
}

/// What a word of a frame of the stack of a side sets and pends that isn't written (`stacking`) or isn't read: bits of
/// its own, and no address.
pub(crate) fn word_effect(stacking: bool, side: Side, fault: Fault) -> FaultEffect
    ensures { result ≡ word_effect stacking side fault }
{
    match fault {
        Fault::DataAccess(_, of) => {
            let bit = if stacking { MSTKERR } else { MUNSTKERR };
            sets(bit, Unwritten, MemManage, of)
        }
        Fault::Precise(_) => {
            let bit = if stacking { STKERR } else { UNSTKERR };
            sets(bit, Unwritten, BusFault, side)
        }
        Fault::Violation(_) => sets(AUVIOL, Unwritten, SecureFault, side),
        _ => effect_of(side, fault),
    }
}

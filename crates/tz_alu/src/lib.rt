//! Data processing: what its instructions make of the registers, the flags and the stack pointer (DDI0553,
//! chapter C2).
//!
//! `execute` is proved to do what `tz_sem`'s `specs/Alu.antt` says. Each form works on the registers and on
//! the stacks of the side that runs it, and sees nothing else of the core. The operations on words stand
//! apart, and know no register.
#![tactic(auto)]

ghost use Rattle.std.specs.Prelude.{◌≡◌};
ghost use Rattle.tz_sem.specs.Local.{local_of, finished_in};
ghost use Rattle.tz_sem.specs.Alu.{finish_alu};

mod data;
mod dispatch;
mod multiplies;
mod operations;
mod products;
mod results;
mod values;

use crate::dispatch::run;
use tz_model::{Fault, Insn, Outcome, Side};
use tz_regs::Core;

/// Runs a data processing instruction (DDI0553, chapter C2).
///
/// Faults: `StackLimit` exactly where a sum would take SP below its limit, and `DivZero` exactly where a
/// divisor is 0 and CCR.DIV_0_TRP is set. An instruction of another family, and a width or a field that no
/// code has, gives `Undef`. A fault leaves the core as it was.
pub fn execute(insn: &Insn, core: &mut Core) -> Result<Outcome, Fault>
    ensures { finished_in core.old (finish_alu insn.now (local_of core.old)) ≡ (core.new, result) }
{
    match core.run.side {
        Side::Secure => run(
            insn,
            Side::Secure,
            core.status.s.ccr,
            &mut core.registers,
            &mut core.stacks_s,
        ),
        Side::NonSecure => run(
            insn,
            Side::NonSecure,
            core.status.ns.ccr,
            &mut core.registers,
            &mut core.stacks_ns,
        ),
    }
}

//! Branches, and IT (DDI0553, chapter C2), with what its blocks let stand and skip.
//!
//! An instruction answers how its code goes on, and leaves what it writes but for PC: a call leaves LR and
//! T, IT the IT state. Over any port: a table branch makes the one load of this family.
#![tactic(auto)]

ghost use Rattle.std.specs.Prelude.{◌≡◌, []};
ghost use Rattle.tz_sem.specs.Local.{local_of, finished_in};
ghost use Rattle.tz_sem.specs.Branch.{plan_branch, finish_branch};
ghost use Rattle.tz_sem.specs.Exec.{branch_over};

mod calls;
mod it_rules;
mod jumps;

use calls::{branch_link, call_exchange, if_then};
pub use it_rules::{ignores_condition, is_misplaced, is_passed_over};
use jumps::{branch_if, branch_zero, exchange, table_branch};
use tz_model::{Fault, Insn, Outcome, Port};
use tz_regs::Core;

/// Runs an instruction of this family that makes no access, any but a table branch. `Undef` for BXNS and BLXNS in
/// Non-secure state, and for instructions of other families. At a fault the core is as it was. BLXNS whose target's
/// bit 0 is 0 answers `Call` and leaves the core as it is: the call of Non-secure code is the caller's.
pub fn execute_alone(insn: &Insn, core: &mut Core) -> Result<Outcome, Fault>
    requires { plan_branch insn.now (local_of core.old) ≡ [] }
    ensures { finished_in core.old (finish_branch insn.now (local_of core.old) []) ≡ (core.new, result) }
{
    match *insn {
        Insn::Branch { offset } => branch_if(core, true, offset),
        Insn::BranchIf { cond, offset } => {
            branch_if(core, core.registers.apsr.condition_holds(cond), offset)
        }
        Insn::BranchLink { offset } => branch_link(core, offset),
        Insn::BranchZero {
            nonzero,
            rn,
            offset,
        } => branch_zero(core, nonzero, rn, offset),
        Insn::BranchExchange { rm, ns } => exchange(core, rm, ns),
        Insn::CallExchange { rm, ns } => call_exchange(core, rm, ns),
        Insn::IfThen { cond, mask } => if_then(core, cond, mask),
        _ => Err(Fault::Undef),
    }
}

/// Runs an instruction of this family, and faults as `execute_alone` does, or with the fault of a table branch's load.
#[tactic(auto, unfolding(tz_model::specs::Ports::answers))]
pub fn execute<P: Port>(insn: &Insn, core: &mut Core, port: &mut P) -> Result<Outcome, Fault>
    ensures executes { branch_over P.answer insn.now core.old (P.held port.old) ≡ record { core = core.new; held = P.held port.new; outcome = result } }
    ensures room { P.room port.new ≡ P.room port.old }
    ensures lent { P.lent port.new ≡ P.lent port.old }
{
    match *insn {
        Insn::TableBranch { half, rn, rm } => table_branch(core, port, half, rn, rm),
        _ => execute_alone(insn, core),
    }
}

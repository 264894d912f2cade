//! The definitions of what the machine does: what each instruction does, with its accesses and what it leaves; the
//! machine's start, a step with its report, and steps in a row.
//!
//! The definitions stand in `specs/`, those of instructions in one file a family. An instruction knows the registers
//! and the stacks of the code that runs it, and nothing else of the machine. The calls are laws. What is seen of a run,
//! and what two runs have in common, is said in crates above.
#![tactic(auto)]

ghost use Rattle.std.specs.Prelude.{◌≡◌, List, true};
ghost use Rattle.tz_table.specs.declared.units.Side.TheVariants.{NonSecure};
ghost use Rattle.tz_table.specs.declared.instruction.Insn.{Insn};
ghost use Rattle.tz_model.specs.declared.report.ScriptEvent.{ScriptEvent};
ghost use Rattle.tz_state.specs.State.{State, with_exceptions};
ghost use Rattle.tz_state.specs.Due.{begun};
ghost use Rattle.tz_sem.specs.Exec.{executed};
ghost use Rattle.tz_sem.specs.Step.{step};

mod account;
mod computed;
mod ending;
mod family;

pub use account::Account;
pub use computed::Computed;
pub use ending::{Cause, Course, Ending, Handling};
pub use family::Family;

/// No instruction of Non-secure code changes a Secure stack pointer.
pub fn keeps_secure_stacks()
    ensures { (s : State) (i : Insn) → s.core.run.side ≡ NonSecure → (executed s i).state.core.stacks_s ≡ s.core.stacks_s }
{}

/// A locked machine stays as it is, but that the events that are due pend and its timers count.
pub fn locked_stays()
    ensures { (s : State) (events : List ScriptEvent) → s.core.run.locked ≡ true → (step s events).state ≡ with_exceptions s (begun s.exceptions events) }
{}

//! How a step goes on after its instruction.

ghost use Rattle.std.specs.Prelude.{◌≡◌, ◌≤◌, None};
ghost use Rattle.arrayvec.specs.ArrayVec.{array_vec_len};
ghost use Rattle.tz_access.specs.Written.{before_stores, noted_count};
ghost use Rattle.tz_core.specs.Loading.{loads_pc};
ghost use Rattle.tz_sem.specs.Step.{sleep_of};

use crate::changes::Stores;
use crate::ending::Close;
use crate::exchange::ran_by;
use crate::running::Machine;
use tz_access::Written;
use tz_model::{Code, Fault, Insn, Outcome, Sleep};
use tz_sem::{Cause, Course, Handling};

/// What a core waits for: an event, or an interrupt.
fn sleep_of(event: bool) -> Sleep
    ensures { result ≡ sleep_of event }
{
    if event { Sleep::Wfe } else { Sleep::Wfi }
}

/// Whether an instruction loads PC. No other changes the core before it exchanges.
pub(crate) fn loads_pc(insn: &Insn) -> bool
    ensures { result ≡ loads_pc insn.now }
{
    match *insn {
        Insn::Load { rt, .. } => rt == 15,
        Insn::LoadMany { list, .. } => list >= 0x8000,
        _ => false,
    }
}

impl Machine {
    ghost use Rattle.tz_state.specs.State.{priority_in, is_negative_at};
    ghost use Rattle.tz_sem.specs.Exec.{loads_stores};
    ghost use Rattle.tz_sem.specs.Step.{goes_on, concludes, executes};
    ghost use Rattle.tz_core.specs.Closing.{ending_of};

    /// Goes on after an instruction that left the core as it was where it exchanges. This and `conclude` are always
    /// inlined, as `make_step` is.
    #[inline(always)]
    fn go_on(
        &mut self,
        insn: &Insn,
        course: Course,
        code: &Code,
        outcome: Outcome,
        stores: &mut Stores,
        noted: &mut Option<Handling>,
        written: &mut Option<Written>,
        close: &mut Close,
    )
        requires unnoted { noted.old ≡ None }
        requires few { noted_count written.old ≤ 16 }
        ensures does { goes_on self.old.core insn.now self.old course code.now stores.old.items outcome ≡ record { state = self.new; stores = stores.new.items; ending = ending_of close.new noted.new } }
        ensures back { before_stores written.new self.new.bus.memory ≡ before_stores written.old self.old.bus.memory }
    {
        match outcome {
            Outcome::Next => {
                self.pass(insn);
                self.go_next(course, code, close)
            }
            Outcome::Sleep { event } => {
                self.pass(insn);
                self.core.run.sleep = sleep_of(event);
                self.go_next(course, code, close)
            }
            Outcome::Jump(to) => {
                self.pass(insn);
                self.core.registers.pc = to;
                ran_by(close, Cause::Went, course, code)
            }
            Outcome::Exchange { target, ns } => {
                let before = self.core;
                self.exchange(
                    insn, &before, course, code, target, ns, noted, written, close,
                )
            }
            Outcome::Call(target) => self.call(
                insn, course, code, target, stores, noted, written, close,
            ),
        }
    }

    /// Goes on after an instruction, or faults.
    #[inline(always)]
    pub(crate) fn conclude(
        &mut self,
        insn: &Insn,
        course: Course,
        code: &Code,
        outcome: Result<Outcome, Fault>,
        stores: &mut Stores,
        noted: &mut Option<Handling>,
        written: &mut Option<Written>,
        close: &mut Close,
    )
        requires unnoted { noted.old ≡ None }
        requires few { noted_count written.old ≤ 16 }
        ensures does { concludes self.old.core insn.now self.old course code.now stores.old.items outcome ≡ record { state = self.new; stores = stores.new.items; ending = ending_of close.new noted.new } }
        ensures back { before_stores written.new self.new.bus.memory ≡ before_stores written.old self.old.bus.memory }
    {
        match outcome {
            Ok(outcome) => self.go_on(insn, course, code, outcome, stores, noted, written, close),
            Err(fault) => self.fault(course, fault, noted, written, close),
        }
    }

    /// Runs a load of PC. It alone keeps a copy of the core before it, for a fault of the return that it asks for. It has no
    /// part in `execute`, of which one caller has a copy of its own.
    #[inline(never)]
    pub(crate) fn load_pc(
        &mut self,
        insn: &Insn,
        code: &Code,
        course: Course,
        stores: &mut Stores,
        noted: &mut Option<Handling>,
        written: &mut Option<Written>,
        close: &mut Close,
    )
        requires negative { course.negative ≡ is_negative_at (priority_in self.old) }
        requires empty { array_vec_len stores.old ≡ 0 }
        requires unnoted { noted.old ≡ None }
        requires few { noted_count written.old ≤ 2 }
        ensures does { executes self.old.core course code.now insn.now (loads_stores self.old insn.now) ≡ record { state = self.new; stores = stores.new.items; ending = ending_of close.new noted.new } }
        ensures back { before_stores written.new self.new.bus.memory ≡ before_stores written.old self.old.bus.memory }
    {
        let before = self.core;
        match self.load_store(insn, course.negative, stores, written) {
            Ok(Outcome::Exchange { target, ns }) => {
                self.exchange(
                    insn, &before, course, code, target, ns, noted, written, close,
                )
            }
            outcome => self.conclude(insn, course, code, outcome, stores, noted, written, close),
        }
    }
}

//! Branches between the sides and back: BX, BXNS, BLXNS, FNC_RETURN and EXC_RETURN.

ghost use Rattle.std.specs.Prelude.{◌≡◌, ◌≤◌, ◌+◌, Some, None};
ghost use Rattle.tz_access.specs.Written.{before_stores, noted_count};
ghost use Rattle.tz_model.specs.Words.{wrap};
ghost use Rattle.tz_sem.specs.Exchange.{core_back, touching};

use crate::changes::Stores;
use crate::ending::Close;
use crate::noting::note_value;
use crate::port::port_over;
use crate::running::{Machine, next_of};
use crate::taking::frames_over;
use tz_access::Written;
use tz_excret::is_exc_return;
use tz_gate::{branch_ns, call_ns, function_return, is_fnc_return};
use tz_model::{Code, Insn};
use tz_prio::is_negative;
use tz_regs::Core;
use tz_sem::{Cause, Course, Handling};

/// An instruction ran, and did this to the side that runs.
pub(crate) fn ran_by(close: &mut Close, cause: Cause, course: Course, code: &Code)
    ensures { close.new ≡ record { touched = course.touched; cause = cause; ran = Some code.now } }
{
    close.touched = course.touched;
    close.cause = cause;
    close.ran = Some(*code);
}

/// The course of a step that touches Secure state.
fn touching(course: Course) -> Course
    ensures { result ≡ touching course }
{
    Course {
        touched: true,
        negative: course.negative,
    }
}

/// Gives a core back what it was before an instruction, but for what accesses write of it.
fn take_back(core: &mut Core, before: &Core)
    ensures { core.new ≡ core_back before.now core.old }
{
    let status = core.status;
    *core = *before;
    core.status = status;
}

impl Machine {
    ghost use Rattle.tz_sem.specs.Exchange.{branch_ns as branches_ns, moves_to, comes_back, exchanged, calls};
    ghost use Rattle.tz_sem.specs.Step.{past, length_of};
    ghost use Rattle.tz_core.specs.Closing.{ending_of};

    /// BXNS in Secure state.
    fn branch_ns(&mut self, course: Course, code: &Code, target: u32, close: &mut Close)
        ensures does { branches_ns self.old course code.now target ≡ record { state = self.new; ending = ending_of close.new None } }
        ensures kept { self.new.bus.memory ≡ self.old.bus.memory }
    {
        branch_ns(&mut self.core, target);
        if target % 2 == 0 {
            ran_by(close, Cause::Returned, course, code)
        } else {
            ran_by(close, Cause::Went, course, code)
        }
    }

    /// Moves to a target of an exchange.
    fn move_to(&mut self, course: Course, code: &Code, target: u32, ns: bool, close: &mut Close)
        ensures does { moves_to self.old course code.now target ns ≡ record { state = self.new; ending = ending_of close.new None } }
        ensures kept { self.new.bus.memory ≡ self.old.bus.memory }
    {
        if ns {
            return self.branch_ns(course, code, target, close);
        }
        let registers = &mut self.core.registers;
        registers.pc = target / 2 * 2;
        registers.t = target % 2 == 1;
        ran_by(close, Cause::Went, course, code)
    }

    /// FNC_RETURN by a value; where it faults the core is what it was before the instruction.
    #[tactic(auto, unfolding(tz_sem::specs::Exchange::comes_back))]
    fn come_back(
        &mut self,
        before: &Core,
        course: Course,
        code: &Code,
        value: u32,
        noted: &mut Option<Handling>,
        written: &mut Option<Written>,
        close: &mut Close,
    )
        requires unnoted { noted.old ≡ None }
        requires few { noted_count written.old ≤ 16 }
        ensures does { comes_back before.now self.old course code.now value ≡ record { state = self.new; ending = ending_of close.new noted.new } }
        ensures back { before_stores written.new self.new.bus.memory ≡ before_stores written.old self.old.bus.memory }
    {
        let mut frames = frames_over(&mut self.bus, &self.core, course.negative, written);
        match function_return(&mut self.core, &mut frames) {
            Ok(()) => ran_by(close, Cause::CameBack, touching(course), code),
            Err(fault) => {
                take_back(&mut self.core, before);
                self.fault(touching(course), fault, noted, written, close)
            }
        }
        note_value(noted, value);
    }

    /// Exchanges to a target: BX, BXNS and loads of PC. It is always inlined, as `make_step` is.
    #[inline(always)]
    #[tactic(auto, unfolding(tz_sem::specs::Exchange::exchanged))]
    pub(crate) fn exchange(
        &mut self,
        insn: &Insn,
        before: &Core,
        course: Course,
        code: &Code,
        target: u32,
        ns: bool,
        noted: &mut Option<Handling>,
        written: &mut Option<Written>,
        close: &mut Close,
    )
        requires unnoted { noted.old ≡ None }
        requires few { noted_count written.old ≤ 16 }
        ensures does { exchanged before.now self.old (past insn.now self.old) course code.now target ns ≡ record { state = self.new; ending = ending_of close.new noted.new } }
        ensures back { before_stores written.new self.new.bus.memory ≡ before_stores written.old self.old.bus.memory }
    {
        if is_fnc_return(target) {
            return self.come_back(before, course, code, target, noted, written, close);
        }
        self.pass(insn);
        if self.core.handler() && is_exc_return(target) {
            return self.return_by(course, code, target, noted, written, close);
        }
        self.move_to(course, code, target, ns, close)
    }

    /// BLXNS: calls Non-secure code. Its two stores are those of the step.
    #[tactic(auto, unfolding(tz_sem::specs::Exchange::calls))]
    pub(crate) fn call(
        &mut self,
        insn: &Insn,
        course: Course,
        code: &Code,
        target: u32,
        stores: &mut Stores,
        noted: &mut Option<Handling>,
        written: &mut Option<Written>,
        close: &mut Close,
    )
        requires unnoted { noted.old ≡ None }
        requires few { noted_count written.old ≤ 16 }
        ensures does { calls (past insn.now) self.old course code.now target (wrap (self.old.core.registers.pc + length_of code.now)) ≡ record { state = self.new; stores = stores.new.items; ending = ending_of close.new noted.new } }
        ensures back { before_stores written.new self.new.bus.memory ≡ before_stores written.old self.old.bus.memory }
    {
        stores.clear();
        let next = next_of(self.core.registers.pc, code);
        let asker = self.asker(is_negative(&self.core, &self.exceptions));
        let mut port = port_over(
            asker,
            &self.core,
            &mut self.exceptions,
            &mut self.bus,
            stores,
            written,
        );
        let called = call_ns(&mut self.core, &mut port, target, next);
        self.core.status = port.status;
        match called {
            Ok(()) => {
                self.pass(insn);
                ran_by(close, Cause::Called, course, code)
            }
            Err(fault) => self.fault(course, fault, noted, written, close),
        }
    }
}

//! The machine and the order of its step.

ghost use Rattle.std.specs.Prelude.{◌≡◌, ◌≤◌, ◌+◌, None};
ghost use Rattle.arrayvec.specs.ArrayVec.{array_vec_len};
ghost use Rattle.tz_model.specs.Words.{wrap};
ghost use Rattle.tz_model.specs.Codes.{second_of};
ghost use Rattle.tz_sem.specs.Step.{length_of};
ghost use Rattle.tz_state.specs.Due.{begun};
ghost use Rattle.tz_state.specs.Moves.{moves_of, no_moves};
ghost use Rattle.tz_state.specs.State.{with_exceptions};
ghost use Rattle.tz_access.specs.Written.{before_stores, noted_count};

use crate::changes::{Stores, clear_changes, clear_stores};
use crate::concluding::loads_pc;
use crate::ending::{Close, UNCLOSED, ending_of, ran_nothing};
use crate::exchange::ran_by;
use crate::noting::{pends_next, unnote};
use crate::waiting::no_moves;
use std::marker::Model;
use tz_access::{Bus, Written};
use tz_branch::{ignores_condition, is_misplaced, is_passed_over};
use tz_decode::Decoded;
use tz_excret::takes_first_uncounted;
use tz_gate::secure_gateway;
use tz_kept::Codes;
use tz_model::{Board, Channels, Code, Fault, Insn, Report, ScriptEvent, Side, Sleep};
use tz_nvic::Exceptions;
use tz_prio::is_negative;
use tz_regs::Core;
use tz_sem::{Account, Cause, Course, Handling};
use tz_state::Moves;

/// The machine: the core, the exceptions, and memory with the units that guard it; beside that, which is no part of
/// its state, the instructions that it decoded last.
#[derive(Drop)]
pub struct Machine {
    pub(crate) core: Core,
    pub(crate) exceptions: Exceptions,
    pub(crate) bus: Bus,
    pub(crate) kept: Codes,
}

impl Model for Machine {
    ghost use Rattle.std.specs.FinMap as map;
    ghost use Rattle.std.specs.Ordering.{nat_cmp};
    ghost use Rattle.std.specs.Coded.{codes, coded_ℕ};
    ghost use Rattle.tz_state.specs.State.{State};

    ghost Value = { State };

    ghost coded = { Prim.hlevel (codes, map.code {R = nat_cmp} coded_ℕ coded_ℕ) };

    ghost view = { λ m. record { core = m.core; exceptions = m.exceptions; bus = m.bus.state } };
}

/// The address after an instruction.
pub(crate) fn next_of(pc: u32, code: &Code) -> u32
    ensures { result ≡ wrap (pc + length_of code.now) }
{
    match code.second {
        None => pc.wrapping_add(2),
        Some(_) => pc.wrapping_add(4),
    }
}

/// The second halfword of a code, 0 where it has none.
fn second_of(code: &Code) -> u16
    ensures { result ≡ second_of code.now }
{
    code.second.unwrap_or(0)
}

impl Machine {
    ghost use Rattle.std.specs.Prelude.{[], true, if◌then◌else◌};
    ghost use Rattle.tz_regs.specs.Banks.{channels_of};
    ghost use Rattle.tz_state.specs.State.{side_of, priority_in, is_negative_at};
    ghost use Rattle.tz_sem.specs.Exec.{executed};
    ghost use Rattle.tz_model.specs.Codes.{meaning_of};
    ghost use Rattle.tz_sem.specs.Step.{past, goes_next, skips, executes, faulting, placed, decoded, runs_gateway, touches_secure, unready, course_in, instructs, idles, by_sleep, takes_exception, started, ended, step};
    ghost use Rattle.tz_sem.specs.Account.{account};
    ghost use Rattle.tz_core.specs.Closing.{ending_of, way_told};
    ghost use Rattle.tz_twin.specs.Integrity.{LeavesSecure, EntersSecure};
    ghost use Rattle.tz_twin.specs.Ways.{TellsWay};
    ghost use Rattle.tz_twin.specs.Writing.{is_exceptional};

    /// The side whose code runs; of a locked machine the Secure one.
    pub fn side(&self) -> Side
        ensures { result ≡ side_of self.now }
    {
        self.core.running_side()
    }

    /// Whether the machine is locked, which it then stays.
    pub fn locked(&self) -> bool
        ensures { result ≡ self.now.core.run.locked }
    {
        self.core.run.locked
    }

    /// The board.
    pub fn board(&self) -> &Board
        ensures { result.now ≡ self.now.bus.board }
    {
        self.bus.board()
    }

    /// The core.
    pub fn core(&self) -> &Core
        ensures { result.now ≡ self.now.core }
    {
        &self.core
    }

    /// The exceptions, with both timers.
    pub fn exceptions(&self) -> &Exceptions
        ensures { result.now ≡ self.now.exceptions }
    {
        &self.exceptions
    }

    /// The channels of the mover.
    pub fn channels(&self) -> Channels
        ensures { result ≡ channels_of self.now.core }
    {
        self.core.channels()
    }

    /// Memory, with the units that guard it.
    pub fn bus(&self) -> &Bus
        ensures { result.now.state ≡ self.now.bus }
    {
        &self.bus
    }

    /// Moves the IT state on past an instruction, which IT does by itself.
    pub(crate) fn pass(&mut self, insn: &Insn)
        ensures does { self.new ≡ past insn.now self.old }
        ensures kept { self.new.bus.memory ≡ self.old.bus.memory }
    {
        match *insn {
            Insn::IfThen { .. } => {}
            _ => {
                // Outside of IT blocks, where most code is, one test is less than what moves it on.
                if self.core.registers.it != 0 {
                    self.core.registers.advance_it();
                }
            }
        }
    }

    /// Goes on to the next instruction.
    pub(crate) fn go_next(&mut self, course: Course, code: &Code, close: &mut Close)
        ensures does { goes_next self.old course code.now ≡ record { state = self.new; ending = ending_of close.new None } }
        ensures kept { self.new.bus.memory ≡ self.old.bus.memory }
    {
        self.core.registers.pc = next_of(self.core.registers.pc, code);
        ran_by(close, Cause::Went, course, code)
    }

    /// SG, reached from Non-secure state.
    fn run_gateway(&mut self, course: Course, code: &Code, close: &mut Close)
        ensures does { runs_gateway self.old course code.now ≡ record { state = self.new; stores = []; ending = ending_of close.new None } }
        ensures kept { self.new.bus.memory ≡ self.old.bus.memory }
    {
        secure_gateway(&mut self.core);
        ran_by(close, Cause::Went, course, code)
    }

    /// Skips an instruction whose condition fails.
    fn skip(&mut self, course: Course, code: &Code, close: &mut Close)
        ensures does { skips self.old course code.now ≡ record { state = self.new; stores = []; ending = ending_of close.new None } }
        ensures kept { self.new.bus.memory ≡ self.old.bus.memory }
    {
        self.core.registers.advance_it();
        self.go_next(course, code, close)
    }

    /// Runs an instruction whose place and condition let it run. It is always inlined, as `make_step` is.
    #[inline(always)]
    fn run_here(
        &mut self,
        insn: &Insn,
        code: &Code,
        course: Course,
        stores: &mut Stores,
        noted: &mut Option<Handling>,
        written: &mut Option<Written>,
        close: &mut Close,
    )
        requires negative { course.negative ≡ is_negative_at (priority_in self.old) }
        requires empty { array_vec_len stores.old ≡ 0 }
        requires unnoted { noted.old ≡ None }
        requires few { noted_count written.old ≤ 2 }
        ensures does { executes self.old.core course code.now insn.now (executed self.old insn.now) ≡ record { state = self.new; stores = stores.new.items; ending = ending_of close.new noted.new } }
        ensures back { before_stores written.new self.new.bus.memory ≡ before_stores written.old self.old.bus.memory }
    {
        if loads_pc(insn) {
            return self.load_pc(insn, code, course, stores, noted, written, close);
        }
        let outcome = self.execute(insn, course.negative, stores, written);
        self.conclude(insn, course, code, outcome, stores, noted, written, close)
    }

    /// Runs an instruction, unless it may not stand where it does, or its condition fails.
    fn run(
        &mut self,
        insn: &Insn,
        code: &Code,
        course: Course,
        stores: &mut Stores,
        noted: &mut Option<Handling>,
        written: &mut Option<Written>,
        close: &mut Close,
    )
        requires negative { course.negative ≡ is_negative_at (priority_in self.old) }
        requires empty { array_vec_len stores.old ≡ 0 }
        requires unnoted { noted.old ≡ None }
        requires few { noted_count written.old ≤ 2 }
        ensures does { placed self.old course code.now insn.now ≡ record { state = self.new; stores = stores.new.items; ending = ending_of close.new noted.new } }
        ensures back { before_stores written.new self.new.bus.memory ≡ before_stores written.old self.old.bus.memory }
    {
        if is_misplaced(insn, &self.core.registers) {
            return self.fault_undefined(course, noted, written, close);
        }
        if is_passed_over(&self.core.registers) && !ignores_condition(self.core.run.side, insn) {
            return self.skip(course, code, close);
        }
        self.run_here(insn, code, course, stores, noted, written, close)
    }

    /// Runs the instruction that a code means.
    #[inline(always)]
    fn run_code(
        &mut self,
        code: &Code,
        course: Course,
        stores: &mut Stores,
        noted: &mut Option<Handling>,
        written: &mut Option<Written>,
        close: &mut Close,
    )
        requires negative { course.negative ≡ is_negative_at (priority_in self.old) }
        requires empty { array_vec_len stores.old ≡ 0 }
        requires unnoted { noted.old ≡ None }
        requires few { noted_count written.old ≤ 2 }
        ensures does { decoded self.old course code.now (meaning_of code.now) ≡ record { state = self.new; stores = stores.new.items; ending = ending_of close.new noted.new } }
        ensures back { before_stores written.new self.new.bus.memory ≡ before_stores written.old self.old.bus.memory }
    {
        match self.kept.decode(code.first, second_of(code)) {
            Decoded::One(insn, _) => self.run(&insn, code, course, stores, noted, written, close),
            Decoded::NoCoprocessor => {
                if is_passed_over(&self.core.registers) {
                    self.skip(course, code, close)
                } else {
                    self.fault_without_coprocessor(course, noted, written, close)
                }
            }
            Decoded::Undefined(_) => self.fault_undefined(course, noted, written, close),
        }
    }

    /// Whether a step that fetches nothing touches Secure state.
    fn touches_secure(&self) -> bool
        ensures { result ≡ touches_secure self.now.core.run.side self.now }
    {
        match self.core.run.side {
            Side::Secure => true,
            Side::NonSecure => {
                !self
                    .bus
                    .is_own_fetch(Side::NonSecure, self.core.registers.pc)
            }
        }
    }

    /// The fault of a step that fetches nothing.
    fn unready(&self, looked: bool) -> Fault
        ensures { result ≡ unready looked self.now.core.run.side }
    {
        match self.core.run.side {
            Side::NonSecure if looked => Fault::EntryPoint,
            _ => Fault::InvState,
        }
    }

    /// The course of a step that has touched Secure state, or hasn't.
    fn course(&self, touched: bool) -> Course
        ensures { result ≡ course_in self.now touched }
    {
        Course {
            touched,
            negative: is_negative(&self.core, &self.exceptions),
        }
    }

    /// Faults before anything is fetched, since T is 0.
    fn fault_unready(
        &mut self,
        noted: &mut Option<Handling>,
        written: &mut Option<Written>,
        close: &mut Close,
    )
        requires unnoted { noted.old ≡ None }
        requires few { noted_count written.old ≤ 2 }
        ensures does { faulting self.old (course_in self.old (touches_secure self.old.core.run.side self.old)) (unready (touches_secure self.old.core.run.side self.old) self.old.core.run.side) ≡ record { state = self.new; stores = []; ending = ending_of close.new noted.new } }
        ensures back { before_stores written.new self.new.bus.memory ≡ before_stores written.old self.old.bus.memory }
    {
        let touched = self.touches_secure();
        let fault = self.unready(touched);
        let course = self.course(touched);
        self.fault(course, fault, noted, written, close)
    }

    /// Runs an instruction; where T is 0 it faults before anything is fetched. It is one call for all callers of a step, with
    /// the fetch and the instruction compiled into it.
    #[inline(never)]
    fn instruct(
        &mut self,
        stores: &mut Stores,
        noted: &mut Option<Handling>,
        written: &mut Option<Written>,
        close: &mut Close,
    )
        requires empty { array_vec_len stores.old ≡ 0 }
        requires unnoted { noted.old ≡ None }
        requires few { noted_count written.old ≤ 2 }
        ensures does { instructs self.old ≡ record { state = self.new; stores = stores.new.items; ending = ending_of close.new noted.new } }
        ensures back { before_stores written.new self.new.bus.memory ≡ before_stores written.old self.old.bus.memory }
    {
        if !self.core.registers.t {
            return self.fault_unready(noted, written, close);
        }
        let side = self.core.run.side;
        let negative = is_negative(&self.core, &self.exceptions);
        let found = self.bus.fetch_told(
            self.core.registers.pc,
            side,
            self.core.privileged(side),
            self.core.privileged(Side::Secure),
            negative,
        );
        let course = Course {
            touched: found.touched,
            negative,
        };
        match found.answer {
            Err(fault) => self.fault(course, fault, noted, written, close),
            Ok(fetched) => {
                if fetched.gateway {
                    self.run_gateway(course, &fetched.code, close)
                } else {
                    self.run_code(&fetched.code, course, stores, noted, written, close)
                }
            }
        }
    }

    /// Sleeps on.
    fn idle(&self, close: &mut Close)
        ensures { idles self.now ≡ record { state = self.now; stores = []; ending = ending_of close.new None } }
    {
        ran_nothing(close, self.core.run.side == Side::Secure, Cause::Went);
    }

    /// Whether the core goes on; a sleep that ends is over then. It is always inlined, since most steps find no sleep.
    #[inline(always)]
    fn rouse(&mut self) -> bool
        ensures does { by_sleep self.old.core.run.sleep self.old ≡ if result then instructs self.new else idles self.new }
        ensures kept { self.new.bus.memory ≡ self.old.bus.memory }
    {
        match self.core.run.sleep {
            Sleep::Awake => true,
            Sleep::Wfi => {
                if self.is_woken() {
                    self.wake();
                    true
                } else {
                    false
                }
            }
            Sleep::Wfe => {
                if self.core.event || self.is_woken() {
                    self.wake();
                    self.core.event = false;
                    true
                } else {
                    false
                }
            }
        }
    }

    /// Goes on, or sleeps on, by what the core waits for. It is always inlined, as `make_step` is.
    #[inline(always)]
    fn go_by_sleep(
        &mut self,
        stores: &mut Stores,
        noted: &mut Option<Handling>,
        written: &mut Option<Written>,
        close: &mut Close,
    )
        requires empty { array_vec_len stores.old ≡ 0 }
        requires unnoted { noted.old ≡ None }
        requires few { noted_count written.old ≤ 2 }
        ensures does { by_sleep self.old.core.run.sleep self.old ≡ record { state = self.new; stores = stores.new.items; ending = ending_of close.new noted.new } }
        ensures back { before_stores written.new self.new.bus.memory ≡ before_stores written.old self.old.bus.memory }
    {
        if self.rouse() {
            self.instruct(stores, noted, written, close)
        } else {
            self.idle(close)
        }
    }

    /// Takes the exception that comes first before an instruction, which ends a sleep.
    fn take(
        &mut self,
        noted: &mut Option<Handling>,
        written: &mut Option<Written>,
        close: &mut Close,
    )
        requires few { noted_count written.old ≤ 2 }
        ensures does { takes_exception self.old ≡ record { state = self.new; stores = []; ending = ending_of close.new noted.new } }
        ensures back { before_stores written.new self.new.bus.memory ≡ before_stores written.old self.old.bus.memory }
    {
        let course = self.course(self.core.run.side == Side::Secure);
        let back = self.core.registers.pc;
        self.wake();
        self.preempt(course, back, noted, written, close)
    }

    /// Makes one step after what it begins with, but for its report: notes the stores, and tells in `close` how it ended. Each of
    /// its two callers has a copy of its own, since what a call hands back and forth would cost each step some 50 instructions.
    #[inline(always)]
    #[tactic(auto, unfolding(tz_sem::specs::Step::ended))]
    fn make_step(
        &mut self,
        stores: &mut Stores,
        noted: &mut Option<Handling>,
        written: &mut Option<Written>,
        close: &mut Close,
    )
        requires empty { array_vec_len stores.old ≡ 0 }
        requires unnoted { noted.old ≡ None }
        requires few { noted_count written.old ≤ 2 }
        ensures does { ended self.old ≡ record { state = self.new; stores = stores.new.items; ending = ending_of close.new noted.new } }
        ensures back { before_stores written.new self.new.bus.memory ≡ before_stores written.old self.old.bus.memory }
    {
        if self.core.run.locked {
            return self.lock(true, close);
        }
        if takes_first_uncounted(&self.core, &mut self.exceptions) {
            return self.take(noted, written, close);
        }
        self.go_by_sleep(stores, noted, written, close)
    }

    /// Makes one step with its report, and tells in `close` how it ended. It is always inlined, as `make_step` is.
    #[inline(always)]
    pub(crate) fn report_step(
        &mut self,
        due: &[ScriptEvent],
        report: &mut Report,
        noted: &mut Option<Handling>,
        written: &mut Option<Written>,
        moves: &mut Moves,
        close: &mut Close,
    )
        requires unnoted { noted.old ≡ None }
        requires unwritten { noted_count written.old ≡ 0 }
        requires unmoved { moves.old ≡ no_moves }
        ensures step { step self.old due.now ≡ record { state = self.new; report = report.new } }
        ensures moves { moves.new ≡ (moves_of (with_exceptions self.old (begun self.old.exceptions due.now))).told }
        ensures ending { (ended (started self.old due.now)).ending ≡ ending_of close.new noted.new }
        ensures back { before_stores written.new self.new.bus.memory ≡ before_stores written.old self.old.bus.memory }
    {
        let side = self.core.running_side();
        let sp = self.core.pointer();
        let registers = self.core.registers;
        clear_changes(&mut report.changes);
        clear_stores(&mut report.stores);
        self.start(due, written, moves);
        self.make_step(&mut report.stores, noted, written, close);
        self.tell(side, &registers, sp, close, report);
    }

    /// Makes one step at which these events are due, and tells in `close` how it ended: by that `way` tells the way out of
    /// Secure state, and `is_exceptional` whether an exception was taken or returned. In `stores` are then those of its
    /// instruction, with those before a fault, and in `noted` how exceptions came into it. They are lent, since a call that
    /// makes the room for them blanks it first. It is always inlined, since a pair calls it twice a step, and the call would
    /// cost some 30 instructions.
    #[inline(always)]
    pub fn step_way(
        &mut self,
        due: &[ScriptEvent],
        stores: &mut Stores,
        noted: &mut Option<Handling>,
        close: &mut Close,
    )
        ensures steps { self.new ≡ (step self.old due.now).state }
        ensures way { way_told self.new (side_of self.old) close.new ≡ (step self.old due.now).report.way }
        ensures exceptional { is_exceptional self.new.core close.new.cause ≡ is_exceptional (step self.old due.now).state.core (ended (started self.old due.now)).ending.cause }
        ensures stores { stores.new.items ≡ (ended (started self.old due.now)).stores }
    {
        clear_stores(stores);
        unnote(noted);
        let mut written = None;
        let mut moves = no_moves();
        self.start(due, &mut written, &mut moves);
        self.make_step(stores, noted, &mut written, close);
    }

    /// Makes one step as `step_into` does, and leaves in `noted` how exceptions came into it. That is lent, as to
    /// `step_way`.
    #[inline(always)]
    pub fn step_over(
        &mut self,
        due: &[ScriptEvent],
        report: &mut Report,
        noted: &mut Option<Handling>,
    )
        ensures steps { step self.old due.now ≡ record { state = self.new; report = report.new } }
        ensures leaves_secure { LeavesSecure self.old (record { state = self.new; report = report.new }) }
        ensures enters_secure { EntersSecure self.old due.now (record { state = self.new; report = report.new }) }
        ensures tells_way { TellsWay (record { state = self.new; report = report.new }) }
    {
        unnote(noted);
        let mut written = None;
        let mut moves = no_moves();
        let mut close = UNCLOSED;
        self.report_step(due, report, noted, &mut written, &mut moves, &mut close);
    }

    /// Makes one step at which these events are due, and tells in `report` what it did.
    pub fn step_into(&mut self, due: &[ScriptEvent], report: &mut Report)
        ensures steps { step self.old due.now ≡ record { state = self.new; report = report.new } }
        ensures leaves_secure { LeavesSecure self.old (record { state = self.new; report = report.new }) }
        ensures enters_secure { EntersSecure self.old due.now (record { state = self.new; report = report.new }) }
        ensures tells_way { TellsWay (record { state = self.new; report = report.new }) }
    {
        let mut noted = None;
        self.step_over(due, report, &mut noted);
    }

    /// Makes one step at which these events are due, and tells in `report` what it did, and beside that what neither
    /// the report nor the state after the step tells: the core before it, which timers pended, and how exceptions came
    /// into it.
    pub fn step_told(&mut self, due: &[ScriptEvent], report: &mut Report) -> Account
        ensures step { step self.old due.now ≡ record { state = self.new; report = report.new } }
        ensures account { result ≡ account self.old due.now }
    {
        let core = self.core;
        let ticked_s = pends_next(&self.exceptions.timer(Side::Secure));
        let ticked_ns = pends_next(&self.exceptions.timer(Side::NonSecure));
        let mut noted = None;
        let mut written = None;
        let mut moves = no_moves();
        let mut close = UNCLOSED;
        self.report_step(
            due,
            report,
            &mut noted,
            &mut written,
            &mut moves,
            &mut close,
        );
        Account {
            core,
            ticked_s,
            ticked_ns,
            moves,
            ending: ending_of(&close, noted),
        }
    }

    /// Makes one step at which these events are due, and tells what it did. An event of an interrupt that the
    /// board hasn't is passed over.
    ///
    /// It is the step relation. Where Non-secure code runs and doesn't touch Secure state, that stays as it was, but for
    /// the count of the Secure timer, for what pends and is active, and for SFSR, SFAR, BFSR, BFAR and HFSR; where it gets to
    /// Secure code, SG ran where it may call, an exception of the Secure side was taken and is active, it returned by
    /// FNC_RETURN to what the Secure stack of the mode holds, with a number that agrees, or it returned by EXC_RETURN to
    /// frames with the integrity signature there, and has their registers. Runs make their steps by `step_over`; tests
    /// are the users of this call.
    pub fn step(&mut self, due: &[ScriptEvent]) -> Report
        ensures steps { step self.old due.now ≡ record { state = self.new; report = result } }
        ensures leaves_secure { LeavesSecure self.old (record { state = self.new; report = result }) }
        ensures enters_secure { EntersSecure self.old due.now (record { state = self.new; report = result }) }
        ensures tells_way { TellsWay (record { state = self.new; report = result }) }
    {
        let mut report = Report::new();
        self.step_into(due, &mut report);
        report
    }
}

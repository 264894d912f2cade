//! Exceptions of the machine: they are taken by a fault of an instruction or before one, and return.

ghost use Rattle.std.specs.Prelude.{◌≡◌, ◌≤◌};
ghost use Rattle.tz_access.specs.Written.{before_stores, noted_count};
ghost use Rattle.tz_table.specs.declared.units.Side.TheVariants.{Secure};
ghost use Rattle.tz_state.specs.State.{is_privileged_in};
ghost use Rattle.tz_sem.specs.Taking.{goes_on_at, passed_by};

use crate::ending::{Close, ran_nothing};
use crate::noting::{by_entry, by_value, note_fault};
use crate::running::Machine;
use tz_access::{Bus, BusFrames, Written};
use tz_excret::{Entered, Left, enter, leave, raise_fault};
use tz_model::{Code, Fault, Side};
use tz_regs::Core;
use tz_sem::{Cause, Course, Handling};

/// Where code goes on that faulted: at the instruction, and behind SVC, which has two bytes.
fn goes_on_at(fault: Fault, pc: u32) -> u32
    ensures { result ≡ goes_on_at fault pc }
{
    match fault {
        Fault::Call => pc.wrapping_add(2),
        _ => pc,
    }
}

/// Moves the IT state on past SVC.
fn pass_by(core: &mut Core, fault: Fault)
    ensures { core.new ≡ passed_by fault core.old }
{
    match fault {
        Fault::Call => core.registers.advance_it(),
        _ => {}
    }
}

/// The bus as entries and returns reach it. What their stores overwrite is noted behind what those of the instruction did.
pub(crate) fn frames_over<'a>(
    bus: &'a mut Bus,
    core: &Core,
    negative: bool,
    written: &'a mut Option<Written>,
) -> BusFrames<'a>
    ensures { result ≡ record {
      bus = bus.entry;
      vtor_s = core.now.status.s.vtor;
      vtor_ns = core.now.status.ns.vtor;
      secure_privileged = is_privileged_in Secure core.now;
      negative = negative;
      written = written.entry;
    } }
{
    BusFrames {
        bus,
        vtor_s: core.status.s.vtor,
        vtor_ns: core.status.ns.vtor,
        secure_privileged: core.privileged(Side::Secure),
        negative,
        written,
    }
}

impl Machine {
    ghost use Rattle.std.specs.Prelude.{[], Some, None, true};
    ghost use Rattle.tz_model.specs.declared.report.Fault.TheVariants.{Undef, NoCp};
    ghost use Rattle.tz_sem.specs.declared.ending.Cause.TheVariants.{Resumed};
    ghost use Rattle.tz_sem.specs.Exec.{released};
    ghost use Rattle.tz_sem.specs.Taking.{locks, taken, preempted, faults, returns};
    ghost use Rattle.tz_sem.specs.Step.{faulting};
    ghost use Rattle.tz_core.specs.Closing.{ending_of};

    /// Locks the machine, by a fault or because it was locked.
    pub(crate) fn lock(&mut self, touched: bool, close: &mut Close)
        ensures state { self.new ≡ (locks self.old touched None).state }
        ensures kept { self.new.bus.memory ≡ self.old.bus.memory }
        ensures close { ending_of close.new None ≡ (locks self.old touched None).ending }
    {
        self.core.run.locked = true;
        ran_nothing(close, touched, Cause::Went);
    }

    /// Ends a step in which an exception was taken, which clears the monitor.
    fn end_taken(&mut self, touched: bool, close: &mut Close)
        ensures state { self.new ≡ (taken self.old touched None).state }
        ensures kept { self.new.bus.memory ≡ self.old.bus.memory }
        ensures close { ending_of close.new None ≡ (taken self.old touched None).ending }
    {
        self.bus.monitor_clear();
        ran_nothing(close, touched, Cause::Taken);
    }

    /// Takes the exception that comes first, from the code that runs, which goes on at `back` later.
    #[tactic(auto, unfolding(tz_sem::specs::Taking::preempted))]
    pub(crate) fn preempt(
        &mut self,
        course: Course,
        back: u32,
        noted: &mut Option<Handling>,
        written: &mut Option<Written>,
        close: &mut Close,
    )
        requires few { noted_count written.old ≤ 18 }
        ensures does { preempted self.old course back ≡ record { state = self.new; ending = ending_of close.new noted.new } }
        ensures back { before_stores written.new self.new.bus.memory ≡ before_stores written.old self.old.bus.memory }
    {
        let profile = self.bus.board().profile;
        let mut frames = frames_over(&mut self.bus, &self.core, course.negative, written);
        match enter(
            &mut self.core,
            &mut self.exceptions,
            &mut frames,
            back,
            profile,
        ) {
            Entered::Taken { entry, .. } => {
                *noted = Some(by_entry(entry));
                self.end_taken(course.touched | entry.touched, close)
            }
            Entered::Lockup { entry } => {
                *noted = Some(by_entry(entry));
                self.lock(course.touched | entry.touched, close)
            }
        }
    }

    /// Ends a step with a fault of the code that runs: its status bits are set, its exception pends, and an exception
    /// is taken.
    #[tactic(auto, unfolding(tz_sem::specs::Taking::faults))]
    pub(crate) fn fault(
        &mut self,
        course: Course,
        fault: Fault,
        noted: &mut Option<Handling>,
        written: &mut Option<Written>,
        close: &mut Close,
    )
        requires unnoted { noted.old ≡ None }
        requires few { noted_count written.old ≤ 18 }
        ensures does { faults self.old course fault ≡ record { state = self.new; ending = ending_of close.new noted.new } }
        ensures back { before_stores written.new self.new.bus.memory ≡ before_stores written.old self.old.bus.memory }
    {
        let back = goes_on_at(fault, self.core.registers.pc);
        if raise_fault(&mut self.core, &mut self.exceptions, fault) {
            self.lock(course.touched, close)
        } else {
            pass_by(&mut self.core, fault);
            self.preempt(course, back, noted, written, close)
        }
        note_fault(noted, fault);
    }

    /// Ends a step with the fault of a code that is undefined. It is a call, as the next is, so that other steps don't blank
    /// the room of a fault.
    #[inline(never)]
    pub(crate) fn fault_undefined(
        &mut self,
        course: Course,
        noted: &mut Option<Handling>,
        written: &mut Option<Written>,
        close: &mut Close,
    )
        requires unnoted { noted.old ≡ None }
        requires few { noted_count written.old ≤ 2 }
        ensures does { faulting self.old course Undef ≡ record { state = self.new; stores = []; ending = ending_of close.new noted.new } }
        ensures back { before_stores written.new self.new.bus.memory ≡ before_stores written.old self.old.bus.memory }
    {
        self.fault(course, Fault::Undef, noted, written, close)
    }

    /// Ends a step with the fault of an instruction of a coprocessor, of which there is none.
    #[inline(never)]
    pub(crate) fn fault_without_coprocessor(
        &mut self,
        course: Course,
        noted: &mut Option<Handling>,
        written: &mut Option<Written>,
        close: &mut Close,
    )
        requires unnoted { noted.old ≡ None }
        requires few { noted_count written.old ≤ 2 }
        ensures does { faulting self.old course NoCp ≡ record { state = self.new; stores = []; ending = ending_of close.new noted.new } }
        ensures back { before_stores written.new self.new.bus.memory ≡ before_stores written.old self.old.bus.memory }
    {
        self.fault(course, Fault::NoCp, noted, written, close)
    }

    /// Ends a step in which an exception returned to the code that it had interrupted, which clears the monitor.
    fn end_resumed(&mut self, touched: bool, code: &Code, close: &mut Close)
        ensures state { self.new ≡ released self.old }
        ensures kept { self.new.bus.memory ≡ self.old.bus.memory }
        ensures close { close.new ≡ record { touched = touched; cause = Resumed; ran = Some code.now } }
    {
        self.bus.monitor_clear();
        close.touched = touched;
        close.cause = Cause::Resumed;
        close.ran = Some(*code);
    }

    /// Returns from the exception that runs, by a value.
    #[tactic(auto, unfolding(tz_sem::specs::Taking::returns))]
    pub(crate) fn return_by(
        &mut self,
        course: Course,
        code: &Code,
        value: u32,
        noted: &mut Option<Handling>,
        written: &mut Option<Written>,
        close: &mut Close,
    )
        requires few { noted_count written.old ≤ 18 }
        ensures does { returns self.old course code.now value ≡ record { state = self.new; ending = ending_of close.new noted.new } }
        ensures back { before_stores written.new self.new.bus.memory ≡ before_stores written.old self.old.bus.memory }
    {
        let profile = self.bus.board().profile;
        let mut frames = frames_over(&mut self.bus, &self.core, course.negative, written);
        match leave(
            &mut self.core,
            &mut self.exceptions,
            &mut frames,
            value,
            profile,
        ) {
            Left::Resumed { touched } => {
                *noted = Some(by_value(value, None, None));
                self.end_resumed(course.touched | touched, code, close)
            }
            Left::Chained { refused, entry, .. } => {
                *noted = Some(by_value(value, refused, Some(entry)));
                self.end_taken(course.touched | entry.touched, close)
            }
            Left::Lockup { refused, entry } => {
                *noted = Some(by_value(value, refused, Some(entry)));
                self.lock(course.touched | entry.touched, close)
            }
        }
    }
}

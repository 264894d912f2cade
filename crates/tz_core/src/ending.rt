//! The end of a step: the way out of Secure state, and the report, built in place.

ghost use Rattle.std.specs.Prelude.{◌≡◌, None};
ghost use Rattle.arrayvec.specs.ArrayVec.{array_vec_len};
ghost use Rattle.tz_sem.specs.Ended.{kind_of_entry, kind_of, lr_of, kind_without};
ghost use Rattle.tz_twin.specs.Writing.{changes_handler};
ghost use Rattle.tz_core.specs.Closing.{ending_of};

use crate::changes::tell_changes;
use crate::running::Machine;
use tz_model::{Code, CrossKind, Report, Side, StepKind, Way};
use tz_regs::{Core, Registers};
use tz_sem::{Cause, Ending, Handling};

/// How a step ended, but for how exceptions came into it. That is noted beside it, since few steps have anything of it.
#[derive(Clone, Copy)]
pub struct Close {
    /// Whether the step touched Secure state.
    pub touched: bool,
    pub cause: Cause,
    /// The code of the instruction that ran, where one did.
    pub ran: Option<Code>,
}

/// What a step writes its close over. That is lent to all that may end the step, since a close that each hands back would
/// be copied on the way.
pub const UNCLOSED: Close = Close {
    touched: false,
    cause: Cause::Went,
    ran: None,
};

/// No instruction ran, and this was done to the side that runs.
pub(crate) fn ran_nothing(close: &mut Close, touched: bool, cause: Cause)
    ensures { close.new ≡ record { touched = touched; cause = cause; ran = None } }
{
    close.touched = touched;
    close.cause = cause;
    close.ran = None;
}

/// The ending, with what was noted of exceptions.
pub(crate) fn ending_of(close: &Close, noted: Option<Handling>) -> Ending
    ensures { result ≡ ending_of close.now noted }
{
    Ending {
        touched: close.touched,
        cause: close.cause,
        ran: close.ran,
        handling: noted,
    }
}

/// Whether an exception was taken or returned.
pub(crate) fn changes_handler(cause: Cause) -> bool
    ensures { result ≡ changes_handler cause }
{
    match cause {
        Cause::Taken | Cause::Resumed => true,
        _ => false,
    }
}

/// The kind of a crossing that takes a Non-secure exception: EXC_RETURN.S in LR tells that Secure code was
/// interrupted.
fn kind_of_entry(lr: u32) -> CrossKind
    ensures { result ≡ kind_of_entry lr }
{
    if lr / 0x40 % 2 == 1 {
        CrossKind::Preempt
    } else {
        CrossKind::Chain
    }
}

/// The kind of a crossing, by the side that the step started on, by what it did and by LR after it.
fn kind_of(start: Side, cause: Cause, lr: u32) -> Option<CrossKind>
    ensures { result ≡ kind_of start cause lr }
{
    match start {
        Side::NonSecure => Some(CrossKind::Refused),
        Side::Secure => match cause {
            Cause::Returned => Some(CrossKind::Return),
            Cause::Called => Some(CrossKind::Call),
            Cause::Resumed => Some(CrossKind::ExcReturn),
            Cause::Taken => Some(kind_of_entry(lr)),
            Cause::Went | Cause::CameBack => None,
        },
    }
}

/// LR, where an exception was taken.
fn lr_of(cause: Cause, lr: u32) -> Option<u32>
    ensures { result ≡ lr_of cause lr }
{
    match cause {
        Cause::Taken => Some(lr),
        _ => None,
    }
}

/// What a step was in which no instruction ran.
fn kind_without(core: &Core, cause: Cause) -> StepKind
    ensures { result ≡ kind_without core.now cause }
{
    match cause {
        Cause::Taken => StepKind::Taken {
            number: core.registers.ipsr,
            lr: core.registers.lr,
        },
        _ => StepKind::Idle,
    }
}

impl Machine {
    ghost use Rattle.std.specs.Prelude.{[], None, if◌then◌else◌};
    ghost use Rattle.tz_sem.specs.Ended.{report_of};
    ghost use Rattle.tz_twin.specs.Writing.{is_exceptional};
    ghost use Rattle.tz_core.specs.Closing.{way_told};

    /// How a step that started on a side crossed out of Secure state, where it did.
    #[inline(always)]
    pub fn way(&self, start: Side, close: &Close) -> Option<Way>
        ensures { result ≡ way_told self.now start close.now }
    {
        if !close.touched || self.side() == Side::Secure {
            return None;
        }
        let lr = self.core.registers.lr;
        match kind_of(start, close.cause, lr) {
            Some(kind) => Some(Way {
                kind,
                number: self.core.registers.ipsr,
                lr: lr_of(close.cause, lr),
            }),
            None => None,
        }
    }

    /// Whether a step that closed so took an exception or returned from one, or the machine is locked.
    #[inline(always)]
    pub fn is_exceptional(&self, close: &Close) -> bool
        ensures { result ≡ is_exceptional self.now.core close.now.cause }
    {
        self.core.run.locked || changes_handler(close.cause)
    }

    /// Fills in the report of a step that ended so, over the stores that it has.
    #[inline(always)]
    pub(crate) fn tell(
        &self,
        start: Side,
        registers: &Registers,
        sp: u32,
        close: &Close,
        report: &mut Report,
    )
        requires { array_vec_len report.old.changes ≡ 0 }
        ensures { report.new ≡ report_of (record { side = start; registers = registers.now; sp = sp }) (record { state = self.now; stores = report.old.stores.items; ending = ending_of close.now None }) }
    {
        report.start = start;
        report.end = self.side();
        report.touched = close.touched;
        // Few steps cross out of Secure state, and to write it takes more than to look.
        let way = self.way(start, close);
        if way.is_some() || report.way.is_some() {
            report.way = way;
        }
        if self.core.run.locked {
            report.kind = StepKind::Locked;
            report.stores.clear();
            return;
        }
        match close.ran {
            Some(code) => {
                report.kind = StepKind::Ran {
                    pc: registers.pc,
                    code,
                };
                tell_changes(&mut report.changes, registers, sp, &self.core);
            }
            None => {
                report.kind = kind_without(&self.core, close.cause);
                report.stores.clear();
            }
        }
    }
}

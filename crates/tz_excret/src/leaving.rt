//! Return from an exception (DDI0553, `ExceptionReturn`, `TailChain`).

ghost use Rattle.std.specs.Prelude.{◌≡◌, ◌≤◌, ◌+◌};
ghost use Rattle.tz_frames.specs.Status.{faulted, frame_faulted};
ghost use Rattle.tz_frames.specs.Enter.{with_lock};
ghost use Rattle.tz_excret.specs.Lent.{left_by, SameLoans};
ghost use Rattle.tz_frames.specs.Leave.{left_of, chaining, chained, chained_raised, resumes, goes_back, leaves_noting, leaves, unstacked};

use crate::choice::takes_first_uncounted;
use crate::choices::{CHOICES, make_choices};
use crate::exc_return::{exc_return_fault, returning_by, slot_returning};
use crate::frame::{modes_agree, resume, unstack};
use crate::raise::{raise_fault_of, raise_frame_fault};
use crate::release::{free, return_core};
use crate::sides::side_of_bit;
use crate::work::Work;
use tz_frames::{Entered, Entering, Frames, Left, Refusal, Returning, Unstacked};
use tz_model::{Fault, Profile, Side};
use tz_nvic::Exceptions;
use tz_regs::Core;
use tz_stack::StackFault;

/// An entry that interrupts what the exception that returns interrupted.
fn chaining(returning: &Returning, touched: bool) -> Entering
    ensures { result ≡ chaining returning.now touched }
{
    Entering {
        secure: returning.secure,
        thread: returning.thread,
        dcrs: returning.dcrs && (returning.es || !returning.secure),
        skip: !returning.es || !returning.dcrs,
        needed_additional: false,
        frame: None,
        vector: None,
        last: None,
        touched,
    }
}

/// How a return ends whose entry ends so, and which was refused or wasn't.
fn left_of(refused: Option<Refusal>, entered: Entered) -> Left
    ensures { result ≡ left_of refused entered }
{
    match entered {
        Entered::Taken { slot, entry } => Left::Chained {
            slot,
            refused,
            entry,
        },
        Entered::Lockup { entry } => Left::Lockup { refused, entry },
    }
}

/// Takes the exception that comes first in place of the one that returns.
#[tactic(auto, unfolding(tz_frames::specs::Leave::chained))]
fn chain<P: Frames>(
    work: &mut Work<'_, P>,
    returning: &Returning,
    refused: Option<Refusal>,
    touched: bool,
) -> Left
    requires { 10 ≤ P.room work.old.port.now }
    ensures does { chained P.answer work.old.profile returning.now refused touched work.old.core.now work.old.exceptions.now (P.held work.old.port.now) ≡ left_by P.held work.new result }
    ensures loans { SameLoans work.old work.new }
    ensures room { P.room work.old.port.now ≤ P.room work.new.port.now + 10 }
    ensures lent { P.lent work.new.port.now ≡ P.lent work.old.port.now }
{
    let mut entry = chaining(returning, touched);
    left_of(refused, make_choices(work, &mut entry, CHOICES))
}

/// Does so after a fault has pended, unless the core has to lock.
fn chain_raised<P: Frames>(
    work: &mut Work<'_, P>,
    returning: &Returning,
    refusal: Refusal,
    touched: bool,
    locks: bool,
) -> Left
    requires { 10 ≤ P.room work.old.port.now }
    ensures does { chained_raised P.answer work.old.profile returning.now refusal touched (P.held work.old.port.now) (record { core = work.old.core.now; exceptions = work.old.exceptions.now; locks = locks }) ≡ left_by P.held work.new result }
    ensures loans { SameLoans work.old work.new }
    ensures room { P.room work.old.port.now ≤ P.room work.new.port.now + 10 }
    ensures lent { P.lent work.new.port.now ≡ P.lent work.old.port.now }
{
    if locks {
        work.core.run.locked = true;
        return Left::Lockup {
            refused: Some(refusal),
            entry: chaining(returning, touched),
        };
    }
    chain(work, returning, Some(refusal), touched)
}

/// The code that was interrupted goes on by its frames, or a fault of theirs is entered.
fn resume_by<P: Frames>(
    work: &mut Work<'_, P>,
    returning: &Returning,
    frames: &Result<Unstacked, StackFault>,
) -> Left
    requires { 10 ≤ P.room work.old.port.now }
    ensures does { resumes P.answer work.old.profile returning.now work.old.core.now work.old.exceptions.now (P.held work.old.port.now) frames.now ≡ left_by P.held work.new result }
    ensures loans { SameLoans work.old work.new }
    ensures room { P.room work.old.port.now ≤ P.room work.new.port.now + 10 }
    ensures lent { P.lent work.new.port.now ≡ P.lent work.old.port.now }
{
    let touched = returning.secure;
    let side = side_of_bit(returning.secure);
    match frames {
        Err(fault) => {
            let locks = raise_frame_fault(work.core, work.exceptions, false, side, *fault);
            chain_raised(work, returning, Refusal::Frame(*fault), touched, locks)
        }
        Ok(unstacked) => {
            if modes_agree(returning, &unstacked.basic) {
                resume(work.core, returning, unstacked);
                return Left::Resumed { touched };
            }
            let locks = raise_fault_of(work.core, work.exceptions, side, Fault::InvPc(side));
            chain_raised(work, returning, Refusal::Mode(side), touched, locks)
        }
    }
}

/// Another exception that can be taken comes first, or the code that was interrupted goes on.
#[tactic(auto, unfolding(tz_frames::specs::Leave::goes_back))]
fn go_back<P: Frames>(work: &mut Work<'_, P>, returning: &Returning) -> Left
    requires { 10 ≤ P.room work.old.port.now }
    ensures does { goes_back P.answer work.old.profile returning.now work.old.core.now work.old.exceptions.now (P.held work.old.port.now) ≡ left_by P.held work.new result }
    ensures loans { SameLoans work.old work.new }
    ensures room { P.room work.old.port.now ≤ P.room work.new.port.now + 10 }
    ensures lent { P.lent work.new.port.now ≡ P.lent work.old.port.now }
{
    if takes_first_uncounted(work.core, work.exceptions) {
        return chain(work, returning, None, false);
    }
    let frames = unstack(work.core, work.port, returning);
    resume_by(work, returning, &frames)
}

/// The fault that was noted, of code of a side, is entered, or the code that was interrupted goes on.
fn leave_noting<P: Frames>(
    work: &mut Work<'_, P>,
    returning: &Returning,
    side: Side,
    noted: Option<Fault>,
) -> Left
    requires { 10 ≤ P.room work.old.port.now }
    ensures does { leaves_noting P.answer work.old.profile side noted returning.now work.old.core.now work.old.exceptions.now (P.held work.old.port.now) ≡ left_by P.held work.new result }
    ensures loans { SameLoans work.old work.new }
    ensures room { P.room work.old.port.now ≤ P.room work.new.port.now + 10 }
    ensures lent { P.lent work.new.port.now ≡ P.lent work.old.port.now }
{
    match noted {
        Some(fault) => {
            let locks = raise_fault_of(work.core, work.exceptions, side, fault);
            chain_raised(work, returning, Refusal::Value(fault), false, locks)
        }
        None => go_back(work, returning),
    }
}

/// Returns from the exception that runs, by an EXC_RETURN value (DDI0553, `ExceptionReturn`,
/// `ValidateExceptionReturn`, `DeActivate`, `PopStack`, `TailChain`). The exception is no longer active. A value that
/// is malformed (INVPC), that Non-secure code forged (INVER), or that names no active exception of the side (INVPC)
/// pends that fault, and so do frames that can't be read, a wrong signature (INVIS), and a mode that isn't that of
/// the frame (INVPC). It stores at most 10 words.
///
/// `Resumed` where the code that was interrupted goes on. `Chained` where another exception that can be taken, or a
/// fault of this return, is taken in its place. `Lockup` where a fault can't be taken, even as HardFault, or where
/// the vector of NMI or HardFault fails: then the core is locked. Both tell the entry, and why the return was refused,
/// where it was. Each tells whether a frame of a Secure stack or a vector of a Secure exception was read.
#[tactic(auto, unfolding(tz_frames::specs::Leave::leaves))]
pub fn leave<P: Frames>(
    core: &mut Core,
    exceptions: &mut Exceptions,
    port: &mut P,
    value: u32,
    profile: Profile,
) -> Left
    requires { 10 ≤ P.room port.old }
    ensures does { leaves P.answer profile core.old exceptions.old (P.held port.old) value ≡ record { core = core.new; exceptions = exceptions.new; held = P.held port.new; result = result } }
    ensures room { P.room port.old ≤ P.room port.new + 10 }
    ensures lent { P.lent port.new ≡ P.lent port.old }
{
    let side = core.run.side;
    let returning = returning_by(side, value);
    let noted = exc_return_fault(core, exceptions, value);
    let slot = slot_returning(core, &returning);
    return_core(core, exceptions, &returning);
    free(exceptions, slot);
    let mut work = Work {
        core,
        exceptions,
        port,
        profile,
    };
    leave_noting(&mut work, &returning, side, noted)
}

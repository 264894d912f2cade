//! The choices of an entry: the exception that comes first is taken, and where a fault comes in between, the choice is
//! made again (DDI0553, `PushCalleeStack`, `ExceptionTaken`).

ghost use Rattle.std.specs.Prelude.{◌≡◌, ◌≤◌, ◌+◌, true, false};
ghost use Rattle.tz_state.specs.Slots.{exists};
ghost use Rattle.tz_frames.specs.declared.entering.Entered.TheVariants as entered;
ghost use Rattle.tz_frames.specs.Enter.{needs_additional, callee_process, callee_privileged, raised_choice, stacked, taking, choosing, tries, with_lock, without_frame};
ghost use Rattle.tz_frames.specs.Stack.{pushed_additional};
ghost use Rattle.tz_excret.specs.Lent.{work_of, SameLoans};
ghost use Rattle.tz_excret.specs.Room.{need};

use crate::choice::chosen;
use crate::raise::raise_frame_fault;
use crate::sides::is_secure;
use crate::vector::take_vector;
use crate::work::Work;
use tz_frames::{Choice, Entered, Entering, FrameFault, Frames, StackFault};
use tz_model::{Side, Slot};
use tz_regs::Core;
use tz_stack::push_additional;

/// The choices that an entry makes at most: one frame can fault, and one vector that isn't NMI's or HardFault's.
pub(crate) const CHOICES: u8 = 4;

/// The core locks.
pub(crate) fn lock(core: &mut Core, entry: &Entering) -> Entered
    ensures core { core.new ≡ with_lock core.old }
    ensures result { result ≡ entered.Lockup entry.now }
{
    core.run.locked = true;
    Entered::Lockup { entry: *entry }
}

/// Notes the frame that has faulted, the additional one or the basic one.
pub(crate) fn fail_frame(entry: &mut Entering, additional: bool, fault: StackFault)
    ensures { entry.new ≡ without_frame entry.old additional fault }
{
    entry.frame = Some(FrameFault { additional, fault });
}

/// Whether an exception calls for the additional frame.
fn needs_additional(entry: &Entering, slot: Slot) -> bool
    ensures { result ≡ needs_additional entry.now slot }
{
    entry.secure && !is_secure(slot.side)
}

/// Whether the additional frame goes to the process stack.
fn callee_process(core: &Core, entry: &Entering) -> bool
    ensures { result ≡ callee_process core.now entry.now }
{
    entry.thread && core.stacks_s.spsel
}

/// Whether it is written with privilege.
fn callee_privileged(core: &Core, entry: &Entering) -> bool
    ensures { result ≡ callee_privileged core.now entry.now }
{
    !entry.thread || !core.stacks_s.npriv
}

/// What comes of a choice whose frame has faulted.
fn raised_choice(locks: bool) -> Choice
    ensures { result ≡ raised_choice locks }
{
    if locks { Choice::Lockup } else { Choice::Again }
}

/// Writes the additional frame, and takes an exception where that is done, or where a frame has faulted before. The
/// slot exists.
fn take_stacked<P: Frames>(work: &mut Work<'_, P>, entry: &mut Entering, slot: Slot) -> Choice
    requires slot { exists work.old.exceptions.now slot ≡ true }
    requires room { 10 ≤ P.room work.old.port.now }
    ensures does { stacked P.answer work.old.profile (work_of P.held work.old entry.old) slot (pushed_additional P.answer work.old.core.now (P.held work.old.port.now) (callee_process work.old.core.now entry.old) (callee_privileged work.old.core.now entry.old)) ≡ record { work = work_of P.held work.new entry.new; choice = result } }
    ensures loans { SameLoans work.old work.new }
    ensures skip { entry.new.skip ≡ true }
    ensures room { P.room work.old.port.now ≤ P.room work.new.port.now + 10 }
    ensures lent { P.lent work.new.port.now ≡ P.lent work.old.port.now }
{
    let process = callee_process(work.core, entry);
    let privileged = callee_privileged(work.core, entry);
    entry.skip = true;
    entry.needed_additional = true;
    if let Err(fault) = push_additional(work.core, work.port, process, privileged) {
        if entry.frame.is_none() {
            fail_frame(entry, true, fault);
            let locks = raise_frame_fault(work.core, work.exceptions, true, Side::Secure, fault);
            return raised_choice(locks);
        }
    }
    take_vector(work, entry, slot)
}

/// Takes an exception, with the additional frame where it is due. The slot exists.
#[tactic(auto, unfolding(tz_frames::specs::Enter::taking))]
fn take<P: Frames>(work: &mut Work<'_, P>, entry: &mut Entering, slot: Slot) -> Choice
    requires slot { exists work.old.exceptions.now slot ≡ true }
    requires room { need entry.old ≤ P.room work.old.port.now }
    ensures does { taking P.answer work.old.profile (work_of P.held work.old entry.old) slot ≡ record { work = work_of P.held work.new entry.new; choice = result } }
    ensures loans { SameLoans work.old work.new }
    ensures room { P.room work.old.port.now + need entry.new ≤ P.room work.new.port.now + need entry.old }
    ensures lent { P.lent work.new.port.now ≡ P.lent work.old.port.now }
{
    let needs = needs_additional(entry, slot);
    if needs && !entry.skip {
        return take_stacked(work, entry, slot);
    }
    entry.needed_additional = entry.needed_additional || needs;
    take_vector(work, entry, slot)
}

/// Takes the exception that comes first; without one the core locks.
#[tactic(auto, unfolding(tz_frames::specs::Enter::choosing))]
fn choose<P: Frames>(work: &mut Work<'_, P>, entry: &mut Entering) -> Choice
    requires { need entry.old ≤ P.room work.old.port.now }
    ensures does { choosing P.answer work.old.profile (work_of P.held work.old entry.old) ≡ record { work = work_of P.held work.new entry.new; choice = result } }
    ensures loans { SameLoans work.old work.new }
    ensures room { P.room work.old.port.now + need entry.new ≤ P.room work.new.port.now + need entry.old }
    ensures lent { P.lent work.new.port.now ≡ P.lent work.old.port.now }
{
    match chosen(work.exceptions) {
        None => Choice::Lockup,
        Some(slot) => take(work, entry, slot),
    }
}

/// Makes at most so many choices, and locks the core after them.
#[tactic(auto, using(crate::proofs::Tries::tries_laws))]
pub(crate) fn make_choices<P: Frames>(
    work: &mut Work<'_, P>,
    entry: &mut Entering,
    left: u8,
) -> Entered
    requires { need entry.old ≤ P.room work.old.port.now }
    ensures does { tries P.answer work.old.profile left (work_of P.held work.old entry.old) ≡ record { core = work.new.core.now; exceptions = work.new.exceptions.now; held = P.held work.new.port.now; result = result } }
    ensures loans { SameLoans work.old work.new }
    ensures room { P.room work.old.port.now ≤ P.room work.new.port.now + need entry.old }
    ensures lent { P.lent work.new.port.now ≡ P.lent work.old.port.now }
{
    if left == 0 {
        return lock(work.core, entry);
    }
    match choose(work, entry) {
        Choice::Taken(slot) => Entered::Taken {
            slot,
            entry: *entry,
        },
        Choice::Lockup => lock(work.core, entry),
        Choice::Again => make_choices(work, entry, left - 1),
    }
}

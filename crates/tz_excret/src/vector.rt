//! The vector of an exception, and the core that handles it (DDI0553, `ExceptionTaken`).

ghost use Rattle.std.specs.Prelude.{◌≡◌, true, ◌==◌, ◌||◌, nat_lt};
ghost use Rattle.tz_regs.specs.FaultBits.{vecttbl};
ghost use Rattle.tz_state.specs.ExceptionNumbers.{hard_fault};
ghost use Rattle.tz_state.specs.Slots.{exists};
ghost use Rattle.tz_state.specs.SlotChanges.{pended};
ghost use Rattle.tz_state.specs.Escalation.{hard_side};
ghost use Rattle.tz_state.specs.Priority.{hard_priority};
ghost use Rattle.tz_state.specs.Execution.{execution};
ghost use Rattle.tz_frames.specs.Status.{slot as slot_of, with_hfsr, with_status};
ghost use Rattle.tz_frames.specs.Registers.{taken_registers, scratch_cleared, all_cleared};
ghost use Rattle.tz_frames.specs.Enter.{exc_return, dcrs_of, handling, is_last_resort, vector_choice, can_be_hard_fault, without_vector, vectored};
ghost use Rattle.tz_excret.specs.Lent.{work_of, SameLoans};

use crate::sides::{is_secure, set_spsel};
use crate::status::set_hfsr;
use crate::work::Work;
use tz_frames::return_bits::{
    EXC_RETURN_DCRS, EXC_RETURN_FTYPE, EXC_RETURN_MODE, EXC_RETURN_ONES, EXC_RETURN_S,
    EXC_RETURN_SPSEL,
};
use tz_frames::{Choice, Entering, Frames};
use tz_model::{Profile, Side, Slot};
use tz_nvic::Exceptions;
use tz_prio::{can_take, hard_side};
use tz_regs::fault_bits::VECTTBL;
use tz_regs::{Apsr, Core, Registers};
use tz_state::exception::{HARD_FAULT, NMI};

const NO_FLAGS: Apsr = Apsr {
    n: false,
    z: false,
    c: false,
    v: false,
    q: false,
};

/// Clears R0 to R3, R12 and the flags.
fn clear_scratch(registers: &mut Registers)
    ensures { registers.new ≡ scratch_cleared registers.old }
{
    let r = registers.general;
    registers.general = [
        0, 0, 0, 0, r[4], r[5], r[6], r[7], r[8], r[9], r[10], r[11], 0,
    ];
    registers.apsr = NO_FLAGS;
}

/// Clears R0 to R12 and the flags.
fn clear_all(registers: &mut Registers)
    ensures { registers.new ≡ all_cleared registers.old }
{
    registers.general = [0; 13];
    registers.apsr = NO_FLAGS;
}

/// Clears what an exception of a side isn't to find of the code that it interrupts, which is Secure or not.
fn clear_taken(registers: &mut Registers, profile: Profile, side: Side, secure: bool)
    ensures { registers.new ≡ taken_registers profile side secure registers.old }
{
    match side {
        Side::Secure => match profile {
            Profile::V80 => {}
            Profile::V81 => clear_scratch(registers),
        },
        Side::NonSecure => {
            if secure {
                clear_all(registers);
            } else {
                clear_scratch(registers);
            }
        }
    }
}

/// DCRS of the EXC_RETURN value that an exception of a side gets.
fn dcrs_of(entry: &Entering, side: Side) -> bool
    ensures { result ≡ dcrs_of entry.now side }
{
    if entry.needed_additional {
        !is_secure(side)
    } else {
        entry.dcrs
    }
}

/// The EXC_RETURN value that an exception of a side gets, whose CONTROL.SPSEL is this.
fn exc_return(entry: &Entering, spsel: bool, side: Side) -> u32
    ensures { result ≡ exc_return entry.now spsel side }
{
    EXC_RETURN_ONES
        + EXC_RETURN_S * u32::from(entry.secure)
        + EXC_RETURN_DCRS * u32::from(dcrs_of(entry, side))
        + EXC_RETURN_FTYPE
        + EXC_RETURN_MODE * u32::from(entry.thread)
        + EXC_RETURN_SPSEL * u32::from(spsel)
        + u32::from(is_secure(side))
}

/// The core goes on in the handler of an exception, from its vector.
fn handle(core: &mut Core, profile: Profile, entry: &Entering, slot: Slot, vector: u32)
    ensures { core.new ≡ handling profile core.old entry.now slot vector }
{
    let lr = exc_return(entry, core.stacks(slot.side).spsel, slot.side);
    set_spsel(core, slot.side, false);
    clear_taken(&mut core.registers, profile, slot.side, entry.secure);
    core.registers.lr = lr;
    core.registers.pc = vector / 2 * 2;
    core.registers.it = 0;
    core.registers.t = vector % 2 == 1;
    core.registers.ipsr = slot.number;
    core.run.side = slot.side;
    core.event = true;
}

/// Whether HardFault of a side can be taken.
#[tactic(auto, unfolding(tz_state::specs::Priority::priority_of))]
fn can_take_hard(core: &Core, exceptions: &Exceptions, side: Side) -> bool
    ensures { result ≡ nat_lt (hard_priority exceptions.now side) (execution exceptions.now core.now.masks) }
{
    match side {
        Side::Secure => can_take(
            core,
            exceptions,
            Slot {
                number: HARD_FAULT,
                side: Side::Secure,
            },
        ),
        Side::NonSecure => can_take(
            core,
            exceptions,
            Slot {
                number: HARD_FAULT,
                side: Side::NonSecure,
            },
        ),
    }
}

/// Whether it is NMI or a HardFault.
fn is_last_resort(slot: Slot) -> bool
    ensures { result ≡ is_last_resort slot }
{
    slot.number == NMI || slot.number == HARD_FAULT
}

/// Whether HardFault can be taken in place of an exception whose vector can't be read.
fn can_be_hard_fault(core: &Core, exceptions: &Exceptions, slot: Slot) -> bool
    ensures { result ≡ can_be_hard_fault core.now exceptions.now slot }
{
    !is_last_resort(slot) && can_take_hard(core, exceptions, hard_side(exceptions, slot.side))
}

/// Notes the exception whose vector can't be read.
fn note_vector(entry: &mut Entering, slot: Slot)
    ensures { entry.new ≡ without_vector entry.old slot }
{
    if is_last_resort(slot) {
        entry.last = Some(slot);
    } else {
        entry.vector = Some(slot);
    }
}

/// A vector can't be read: HFSR.VECTTBL is set, and HardFault pends.
fn fail_vector(core: &mut Core, exceptions: &mut Exceptions, slot: Slot) -> Choice
    ensures core { core.new ≡ with_status core.old (with_hfsr vecttbl core.old.status) }
    ensures exceptions { exceptions.new ≡ pended exceptions.old (slot_of hard_fault (hard_side exceptions.old slot.side)) }
    ensures result { result ≡ vector_choice (can_be_hard_fault core.old exceptions.old slot) }
{
    let taken = can_be_hard_fault(core, exceptions, slot);
    let side = hard_side(exceptions, slot.side);
    set_hfsr(&mut core.status, VECTTBL);
    exceptions.pend(Slot {
        number: HARD_FAULT,
        side,
    });
    if taken { Choice::Again } else { Choice::Lockup }
}

/// Reads the vector of an exception, and takes it. The slot exists.
#[tactic(auto, unfolding(tz_frames::specs::Enter::vectored, tz_frames::specs::Enter::vector_failed))]
pub(crate) fn take_vector<P: Frames>(
    work: &mut Work<'_, P>,
    entry: &mut Entering,
    slot: Slot,
) -> Choice
    requires { exists work.old.exceptions.now slot ≡ true }
    ensures does { vectored P.answer work.old.profile (work_of P.held work.old entry.old) slot ≡ record { work = work_of P.held work.new entry.new; choice = result } }
    ensures loans { SameLoans work.old work.new }
    ensures skip { entry.new.skip ≡ entry.old.skip }
    ensures room { P.room work.new.port.now ≡ P.room work.old.port.now }
    ensures lent { P.lent work.new.port.now ≡ P.lent work.old.port.now }
{
    entry.touched = is_secure(slot.side) || entry.touched;
    match work.port.vector(slot.number, slot.side) {
        Ok(vector) => {
            handle(work.core, work.profile, entry, slot, vector);
            work.exceptions.activate(slot);
            Choice::Taken(slot)
        }
        Err(_) => {
            note_vector(entry, slot);
            fail_vector(work.core, work.exceptions, slot)
        }
    }
}

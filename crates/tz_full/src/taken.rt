//! Faults, refused returns and exceptions that are taken: the lines of a step in which exceptions have a part.

ghost use Rattle.std.specs.Prelude.{◌≡◌, ◌≤◌, ◌+◌, ◌++◌, length, unwrap_or};
ghost use Rattle.arrayvec.specs.ArrayString.{array_string_len};
ghost use Rattle.tz_full.specs.TakenLines.{is_taken, slot_handled, place_taken, known_byte, fault_line, fault_lines, fault_part, refusal_exception, refusal_lines, refusal_part, is_return, return_lines, return_part, vector_address, unread_vector, unread_line, missing_part, last_part, priority_text, takes_line, vector_line, cleared_text, taken_lines, taken_part, chain_part, running_lines, begin_part, returning_of, additional_part, frame_lines, entry_lines, entry_part, handled_lines, handled_part, taken_text};
ghost use Rattle.std.specs.Prelude.{true};
ghost use Rattle.tz_state.specs.Slots.{exists};

use crate::entry::{
    additional_process, has_additional, push_additional_lines, push_basic, push_chain,
    push_interrupted,
};
use crate::escalation::push_raised;
use crate::faults::push_fault;
use crate::frames::known_word;
use crate::loads::is_resumed;
use crate::names::{push_priority, push_slot};
use crate::refusals::{flag_digit, push_exc_return, push_refused};
use crate::text::Text;
use tz_access::Bus;
use tz_excret::{exception_of, frame_exception, is_exc_return, returning_by, side_of_bit};
use tz_frames::return_bits::EXC_RETURN_DCRS;
use tz_frames::{Entering, Refusal, Returning};
use tz_model::{Fault, Profile, Side, Size, Slot};
use tz_nvic::{Exceptions, PLACES};
use tz_regs::Core;
use tz_sem::{Account, Cause, Handling};
use tz_syntax::{push_decimal, push_hex_word};
use tz_tell::LentState;

fn is_taken(cause: Cause) -> bool
    ensures { result ≡ is_taken cause }
{
    cause == Cause::Taken
}

/// The exception that is handled.
fn slot_handled(core: &Core) -> Slot
    ensures { result ≡ slot_handled core.now }
{
    Slot {
        number: core.registers.ipsr,
        side: core.run.side,
    }
}

/// The place of the exception that a step took; `PLACES` where it took none.
fn place_taken(cause: Cause, state: &LentState) -> usize
    ensures { result ≡ place_taken cause state.now }
{
    let slot = slot_handled(state.core());
    let exceptions = state.exceptions();
    if is_taken(cause) && exceptions.exists(slot) {
        exceptions.place_of(slot)
    } else {
        PLACES
    }
}

/// The byte at an address, and 0 where no region holds it.
fn known_byte(bus: &Bus, addr: u32) -> u32
    ensures { result ≡ known_byte bus.now.state addr }
{
    match bus.read(addr, Size::Byte) {
        Ok(byte) => byte,
        Err(_) => 0,
    }
}

/// The fault of an instruction, or SVC with its number.
#[tactic(auto, unfolding(crate::specs::TakenLines::fault_line))]
fn push_fault_line(text: &mut Text, bus: &Bus, pc: u32, fault: Fault)
    requires { array_string_len text.old + 33 ≤ 4096 }
    ensures bytes { text.new.bytes ≡ text.old.bytes ++ fault_line bus.now.state pc fault }
    ensures len { array_string_len text.new ≤ array_string_len text.old + 33 }
{
    match fault {
        Fault::Call => {
            text.push_str("    SVC ");
            push_decimal(text, known_byte(bus, pc));
            text.push_str("\n");
        }
        _ => {
            text.push_str("    fault ");
            push_fault(text, fault);
            text.push_str("\n");
        }
    }
}

/// The fault of an instruction of the core before the step, and what it became.
#[tactic(auto, unfolding(crate::specs::TakenLines::fault_lines))]
fn push_fault_lines(text: &mut Text, core: &Core, state: &LentState, taken: usize, fault: Fault)
    requires { array_string_len text.old + 137 ≤ 4096 }
    ensures bytes { text.new.bytes ≡ text.old.bytes ++ fault_lines core.now state.now taken fault }
    ensures len { array_string_len text.new ≤ array_string_len text.old + 137 }
{
    push_fault_line(text, state.bus(), core.registers.pc, fault);
    let slot = exception_of(state.exceptions(), core.run.side, fault);
    push_raised(text, state, taken, slot);
}

fn push_fault_part(
    text: &mut Text,
    core: &Core,
    state: &LentState,
    taken: usize,
    fault: Option<Fault>,
)
    requires { array_string_len text.old + 137 ≤ 4096 }
    ensures bytes { text.new.bytes ≡ text.old.bytes ++ fault_part core.now state.now taken fault }
    ensures len { array_string_len text.new ≤ array_string_len text.old + 137 }
{
    match fault {
        None => {}
        Some(fault) => push_fault_lines(text, core, state, taken, fault),
    }
}

/// The exception that a refused return raises.
fn refusal_exception(exceptions: &Exceptions, core: &Core, value: u32, refusal: Refusal) -> Slot
    ensures is { result ≡ refusal_exception exceptions.now core.now value refusal }
    ensures exists { exists exceptions.now result ≡ true }
{
    match refusal {
        Refusal::Value(fault) => exception_of(exceptions, core.run.side, fault),
        Refusal::Frame(fault) => {
            let side = side_of_bit(returning_by(core.run.side, value).secure);
            frame_exception(exceptions, side, fault)
        }
        Refusal::Mode(side) => exception_of(exceptions, side, Fault::InvPc(side)),
    }
}

/// Why a return was refused, and what its fault became.
#[tactic(auto, unfolding(crate::specs::TakenLines::refusal_lines))]
fn push_refusal_lines(
    text: &mut Text,
    core: &Core,
    state: &LentState,
    taken: usize,
    value: u32,
    refusal: Refusal,
)
    requires { array_string_len text.old + 168 ≤ 4096 }
    ensures bytes { text.new.bytes ≡ text.old.bytes ++ refusal_lines core.now state.now taken value refusal }
    ensures len { array_string_len text.new ≤ array_string_len text.old + 168 }
{
    push_refused(text, core, state.core(), value, refusal);
    let slot = refusal_exception(state.exceptions(), core, value, refusal);
    push_raised(text, state, taken, slot);
}

fn push_refusal_part(
    text: &mut Text,
    core: &Core,
    state: &LentState,
    taken: usize,
    value: u32,
    refused: Option<Refusal>,
)
    requires { array_string_len text.old + 168 ≤ 4096 }
    ensures bytes { text.new.bytes ≡ text.old.bytes ++ refusal_part core.now state.now taken value refused }
    ensures len { array_string_len text.new ≤ array_string_len text.old + 168 }
{
    match refused {
        None => {}
        Some(refusal) => push_refusal_lines(text, core, state, taken, value, refusal),
    }
}

/// Whether an exception returned by this value, or tried to.
fn is_return(value: Option<u32>) -> bool
    ensures { result ≡ is_return value }
{
    match value {
        None => false,
        Some(value) => is_exc_return(value),
    }
}

/// A return that was refused, or that an entry followed.
#[tactic(auto, unfolding(crate::specs::TakenLines::return_lines))]
fn push_return_lines(
    text: &mut Text,
    core: &Core,
    state: &LentState,
    taken: usize,
    value: u32,
    refused: Option<Refusal>,
)
    requires { array_string_len text.old + 232 ≤ 4096 }
    ensures bytes { text.new.bytes ≡ text.old.bytes ++ return_lines core.now state.now taken value refused }
    ensures len { array_string_len text.new ≤ array_string_len text.old + 232 }
{
    push_exc_return(text, value);
    push_refusal_part(text, core, state, taken, value, refused);
}

fn push_return_part(
    text: &mut Text,
    core: &Core,
    state: &LentState,
    taken: usize,
    cause: Cause,
    handling: &Handling,
)
    requires { array_string_len text.old + 232 ≤ 4096 }
    ensures bytes { text.new.bytes ≡ text.old.bytes ++ return_part core.now state.now taken cause handling.now }
    ensures len { array_string_len text.new ≤ array_string_len text.old + 232 }
{
    if is_return(handling.value) && !is_resumed(cause) {
        push_return_lines(
            text,
            core,
            state,
            taken,
            handling.value.unwrap_or(0),
            handling.refused,
        );
    }
}

/// Where the vector of an exception stands.
fn vector_address(core: &Core, slot: Slot) -> u32
    ensures { result ≡ vector_address core.now slot }
{
    core.vtor(slot.side)
        .wrapping_add(4 * u32::from(slot.number))
}

/// A vector that can't be read.
#[tactic(auto, unfolding(crate::specs::TakenLines::unread_vector))]
fn push_unread_vector(text: &mut Text, core: &Core, slot: Slot)
    requires { array_string_len text.old + 54 ≤ 4096 }
    ensures bytes { text.new.bytes ≡ text.old.bytes ++ unread_vector core.now slot }
    ensures len { array_string_len text.new ≤ array_string_len text.old + 54 }
{
    text.push_str("vector of ");
    push_slot(text, slot);
    text.push_str(" at ");
    push_hex_word(text, vector_address(core, slot));
    text.push_str(" not read");
}

/// The line of a vector that can't be read, with what stands before and behind.
#[tactic(auto, unfolding(crate::specs::TakenLines::unread_line))]
fn push_unread_line(text: &mut Text, head: &str, core: &Core, slot: Slot, tail: &str)
    requires { array_string_len text.old + length head.now + 54 + length tail.now ≤ 4096 }
    ensures bytes { text.new.bytes ≡ text.old.bytes ++ unread_line head.now core.now slot tail.now }
    ensures len { array_string_len text.new ≤ array_string_len text.old + length head.now + 54 + length tail.now }
{
    text.push_str(head);
    push_unread_vector(text, core, slot);
    text.push_str(tail);
}

/// The vector of an exception that became HardFault by it.
fn push_missing_part(text: &mut Text, core: &Core, slot: Option<Slot>)
    requires { array_string_len text.old + 69 ≤ 4096 }
    ensures bytes { text.new.bytes ≡ text.old.bytes ++ missing_part core.now slot }
    ensures len { array_string_len text.new ≤ array_string_len text.old + 69 }
{
    if let Some(slot) = slot {
        push_unread_line(text, "    ", core, slot, " (VECTTBL)\n");
    }
}

/// The vector of NMI or HardFault by which the core locks.
fn push_last_part(text: &mut Text, core: &Core, slot: Option<Slot>)
    requires { array_string_len text.old + 67 ≤ 4096 }
    ensures bytes { text.new.bytes ≡ text.old.bytes ++ last_part core.now slot }
    ensures len { array_string_len text.new ≤ array_string_len text.old + 67 }
{
    if let Some(slot) = slot {
        push_unread_line(text, "    lockup: ", core, slot, "\n");
    }
}

/// The priority of the slot at a place as it counts.
fn push_place_priority(text: &mut Text, exceptions: &Exceptions, index: usize)
    requires { array_string_len text.old + 22 ≤ 4096 }
    ensures bytes { text.new.bytes ≡ text.old.bytes ++ priority_text exceptions.now index }
    ensures len { array_string_len text.new ≤ array_string_len text.old + 22 }
{
    if index < PLACES {
        text.push_str(", priority ");
        push_priority(text, exceptions.priority_of(index));
    }
}

/// The exception that was taken.
#[tactic(auto, unfolding(crate::specs::TakenLines::takes_line))]
fn push_takes_line(text: &mut Text, core: &Core, exceptions: &Exceptions, taken: usize)
    requires { array_string_len text.old + 75 ≤ 4096 }
    ensures bytes { text.new.bytes ≡ text.old.bytes ++ takes_line core.now exceptions.now taken }
    ensures len { array_string_len text.new ≤ array_string_len text.old + 75 }
{
    text.push_str("    takes ");
    push_decimal(text, u32::from(core.registers.ipsr));
    text.push_str(" ");
    push_slot(text, slot_handled(core));
    push_place_priority(text, exceptions, taken);
    text.push_str(", DCRS ");
    text.push_str(flag_digit(core.registers.lr / EXC_RETURN_DCRS % 2 == 1));
    text.push_str("\n");
}

/// The vector of the exception that was taken.
#[tactic(auto, unfolding(crate::specs::TakenLines::vector_line))]
fn push_vector_line(text: &mut Text, state: &LentState)
    requires { array_string_len text.old + 30 ≤ 4096 }
    ensures bytes { text.new.bytes ≡ text.old.bytes ++ vector_line state.now }
    ensures len { array_string_len text.new ≤ array_string_len text.old + 30 }
{
    let core = state.core();
    let addr = vector_address(core, slot_handled(core));
    text.push_str("    vector ");
    push_hex_word(text, addr);
    text.push_str(" ");
    push_hex_word(text, known_word(state.bus(), addr));
    text.push_str("\n");
}

/// What a handler of a side finds cleared of the code that is interrupted, which is Secure or not.
fn cleared_text(profile: Profile, side: Side, secure: bool) -> &'static str
    ensures text { result.now ≡ cleared_text profile side secure }
    ensures short { length result.now ≤ 31 }
{
    match side {
        Side::Secure => match profile {
            Profile::V80 => "",
            Profile::V81 => "    cleared r0-r3, r12, flags\n",
        },
        Side::NonSecure => {
            if secure {
                "    cleared r0-r12, flags\n"
            } else {
                "    cleared r0-r3, r12, flags\n"
            }
        }
    }
}

/// The exception that was taken, its vector, and what was cleared.
#[tactic(auto, unfolding(crate::specs::TakenLines::taken_lines))]
fn push_taken_lines(text: &mut Text, state: &LentState, taken: usize, entry: &Entering)
    requires { array_string_len text.old + 136 ≤ 4096 }
    ensures bytes { text.new.bytes ≡ text.old.bytes ++ taken_lines state.now taken entry.now }
    ensures len { array_string_len text.new ≤ array_string_len text.old + 136 }
{
    push_takes_line(text, state.core(), state.exceptions(), taken);
    push_vector_line(text, state);
    let profile = state.board().profile;
    text.push_str(cleared_text(profile, state.core().run.side, entry.secure));
}

fn push_taken_part(text: &mut Text, state: &LentState, taken: usize, cause: Cause, entry: &Entering)
    requires { array_string_len text.old + 136 ≤ 4096 }
    ensures bytes { text.new.bytes ≡ text.old.bytes ++ taken_part state.now taken cause entry.now }
    ensures len { array_string_len text.new ≤ array_string_len text.old + 136 }
{
    if is_taken(cause) {
        push_taken_lines(text, state, taken, entry);
    }
}

/// What stands interrupted, where an exception is taken by tail-chain.
fn push_chain_part(text: &mut Text, cause: Cause, entry: &Entering)
    requires { array_string_len text.old + 26 ≤ 4096 }
    ensures bytes { text.new.bytes ≡ text.old.bytes ++ chain_part cause entry.now }
    ensures len { array_string_len text.new ≤ array_string_len text.old + 26 }
{
    if is_taken(cause) {
        push_chain(text, entry);
    }
}

/// What an entry interrupts, and the basic frame.
#[tactic(auto, unfolding(crate::specs::TakenLines::running_lines))]
fn push_running_lines(
    text: &mut Text,
    core: &Core,
    state: &LentState,
    taken: usize,
    fault: Option<Fault>,
    entry: &Entering,
)
    requires { array_string_len text.old + 212 ≤ 4096 }
    ensures bytes { text.new.bytes ≡ text.old.bytes ++ running_lines core.now state.now taken fault entry.now }
    ensures len { array_string_len text.new ≤ array_string_len text.old + 212 }
{
    push_interrupted(text, fault, core.registers.pc, entry);
    push_basic(text, core, state, taken, entry.frame);
}

/// What an entry begins with: a tail-chain writes no basic frame.
fn push_begin_part(
    text: &mut Text,
    core: &Core,
    state: &LentState,
    taken: usize,
    cause: Cause,
    handling: &Handling,
    entry: &Entering,
)
    requires { array_string_len text.old + 212 ≤ 4096 }
    ensures bytes { text.new.bytes ≡ text.old.bytes ++ begin_part core.now state.now taken cause handling.now entry.now }
    ensures len { array_string_len text.new ≤ array_string_len text.old + 212 }
{
    if is_return(handling.value) {
        push_chain_part(text, cause, entry);
    } else {
        push_running_lines(text, core, state, taken, handling.fault, entry);
    }
}

/// The bits of the value of a return, all 0 where there is none.
fn returning_of(core: &Core, handling: &Handling) -> Returning
    ensures { result ≡ returning_of core.now handling.now }
{
    returning_by(core.run.side, handling.value.unwrap_or(0))
}

/// The additional frame, where the entry tried to write it.
fn push_additional_part(
    text: &mut Text,
    core: &Core,
    state: &LentState,
    taken: usize,
    handling: &Handling,
    entry: &Entering,
)
    requires { array_string_len text.old + 200 ≤ 4096 }
    ensures bytes { text.new.bytes ≡ text.old.bytes ++ additional_part core.now state.now taken handling.now entry.now }
    ensures len { array_string_len text.new ≤ array_string_len text.old + 200 }
{
    let chain = is_return(handling.value);
    let returning = returning_of(core, handling);
    if has_additional(entry, chain, &returning) {
        let process = additional_process(core, entry, chain, &returning);
        push_additional_lines(text, state, process, taken, entry.frame);
    }
}

/// The frames of an entry.
#[tactic(auto, unfolding(crate::specs::TakenLines::frame_lines))]
fn push_frame_lines(
    text: &mut Text,
    core: &Core,
    state: &LentState,
    taken: usize,
    cause: Cause,
    handling: &Handling,
    entry: &Entering,
)
    requires { array_string_len text.old + 412 ≤ 4096 }
    ensures bytes { text.new.bytes ≡ text.old.bytes ++ frame_lines core.now state.now taken cause handling.now entry.now }
    ensures len { array_string_len text.new ≤ array_string_len text.old + 412 }
{
    push_begin_part(text, core, state, taken, cause, handling, entry);
    push_additional_part(text, core, state, taken, handling, entry);
}

/// An entry: its frames, vectors that can't be read, and the exception that was taken.
#[tactic(auto, unfolding(crate::specs::TakenLines::entry_lines))]
fn push_entry_lines(
    text: &mut Text,
    core: &Core,
    state: &LentState,
    taken: usize,
    cause: Cause,
    handling: &Handling,
    entry: &Entering,
)
    requires { array_string_len text.old + 684 ≤ 4096 }
    ensures bytes { text.new.bytes ≡ text.old.bytes ++ entry_lines core.now state.now taken cause handling.now entry.now }
    ensures len { array_string_len text.new ≤ array_string_len text.old + 684 }
{
    push_frame_lines(text, core, state, taken, cause, handling, entry);
    push_missing_part(text, state.core(), entry.vector);
    push_taken_part(text, state, taken, cause, entry);
    push_last_part(text, state.core(), entry.last);
}

fn push_entry_part(
    text: &mut Text,
    core: &Core,
    state: &LentState,
    taken: usize,
    cause: Cause,
    handling: &Handling,
    entry: Option<Entering>,
)
    requires { array_string_len text.old + 684 ≤ 4096 }
    ensures bytes { text.new.bytes ≡ text.old.bytes ++ entry_part core.now state.now taken cause handling.now entry }
    ensures len { array_string_len text.new ≤ array_string_len text.old + 684 }
{
    match entry {
        None => {}
        Some(entry) => push_entry_lines(text, core, state, taken, cause, handling, &entry),
    }
}

/// How exceptions came into a step.
#[tactic(auto, unfolding(crate::specs::TakenLines::handled_lines))]
fn push_handled_lines(
    text: &mut Text,
    core: &Core,
    state: &LentState,
    taken: usize,
    cause: Cause,
    handling: &Handling,
)
    requires { array_string_len text.old + 1053 ≤ 4096 }
    ensures bytes { text.new.bytes ≡ text.old.bytes ++ handled_lines core.now state.now taken cause handling.now }
    ensures len { array_string_len text.new ≤ array_string_len text.old + 1053 }
{
    push_fault_part(text, core, state, taken, handling.fault);
    push_return_part(text, core, state, taken, cause, handling);
    push_entry_part(text, core, state, taken, cause, handling, handling.entry);
}

/// The lines of faults, refused returns and exceptions that are taken, by the account of a step and the state after it.
#[tactic(auto, unfolding(crate::specs::TakenLines::taken_text))]
pub fn push_taken(text: &mut Text, account: &Account, state: &LentState)
    requires { array_string_len text.old + 1053 ≤ 4096 }
    ensures bytes { text.new.bytes ≡ text.old.bytes ++ taken_text account.now state.now }
    ensures len { array_string_len text.new ≤ array_string_len text.old + 1053 }
{
    let cause = account.ending.cause;
    match &account.ending.handling {
        None => {}
        Some(handling) => {
            let taken = place_taken(cause, state);
            push_handled_lines(text, &account.core, state, taken, cause, handling);
        }
    }
}

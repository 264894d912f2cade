//! Gateways, calls between the sides, and returns (DDI0553, `SG`, `BLXNS`, `FunctionReturn`, `ExceptionReturn`).

ghost use Rattle.std.specs.Prelude.{◌≡◌, ◌≤◌, ◌+◌, ◌++◌};
ghost use Rattle.arrayvec.specs.ArrayString.{array_string_len};
ghost use Rattle.tz_full.specs.LoadLines.{value_in};
ghost use Rattle.tz_full.specs.Instruction.{returning_core};
ghost use Rattle.tz_full.specs.WayLines.{gateway_text, entered_by, number_text, call_frame_text, called_text, came_from, from_call_text, fnc_text, fnc_by, basic_from_text, additional_from_text, frames_from, frames_read, goes_on_text, resumed_with, resumed_by, resumed_at, resumed_text, went_by, ways_text};

use crate::frames::{push_additional, push_frame};
use crate::instruction::{done_by, popped_by};
use crate::loads::{push_held, value_in};
use crate::refusals::push_exc_return;
use crate::text::{Text, push_place};
use tz_access::Bus;
use tz_excret::{has_callee, returning_by, side_of_bit};
use tz_frames::{ADDITIONAL_FRAME_SIZE, Returning};
use tz_gate::{is_fnc_return, return_base};
use tz_model::{Report, Side, Size, StepKind};
use tz_regs::Core;
use tz_sem::{Account, Cause};
use tz_syntax::{push_decimal, push_hex_word};
use tz_tell::{LentState, frame_pointer, frame_uses_process};

// ---- SG

/// Where SG was reached, and where Secure code goes on.
#[tactic(auto, unfolding(crate::specs::WayLines::gateway_text))]
fn push_gateway(text: &mut Text, pc: u32, state: &LentState)
    requires { array_string_len text.old + 60 ≤ 4096 }
    ensures bytes { text.new.bytes ≡ text.old.bytes ++ gateway_text pc state.now }
    ensures len { array_string_len text.new ≤ array_string_len text.old + 60 }
{
    text.push_str("    SG from ");
    push_hex_word(text, pc);
    text.push_str(": Secure code goes on at ");
    push_hex_word(text, state.core().registers.pc);
    text.push_str("\n");
}

/// The line of SG, where Non-secure code ran on into Secure code.
fn push_entered(text: &mut Text, report: &Report, state: &LentState)
    requires { array_string_len text.old + 60 ≤ 4096 }
    ensures bytes { text.new.bytes ≡ text.old.bytes ++ entered_by report.now.start report.now.end report.now.kind state.now }
    ensures len { array_string_len text.new ≤ array_string_len text.old + 60 }
{
    match (report.start, report.end, report.kind) {
        (Side::NonSecure, Side::Secure, StepKind::Ran { pc, .. }) => {
            push_gateway(text, pc, state);
        }
        _ => {}
    }
}

// ---- the frame of a call

/// The number in the frame of a call.
fn push_number(text: &mut Text, bus: &Bus, addr: u32)
    requires { array_string_len text.old + 10 ≤ 4096 }
    ensures bytes { text.new.bytes ≡ text.old.bytes ++ number_text bus.now.state addr }
    ensures len { array_string_len text.new ≤ array_string_len text.old + 10 }
{
    match bus.read(addr, Size::Word) {
        Ok(word) => push_decimal(text, word % 512),
        Err(_) => text.push_str("--------"),
    }
}

/// The frame of a call, and its two words.
#[tactic(auto, unfolding(crate::specs::WayLines::call_frame_text))]
fn push_call_frame(text: &mut Text, bus: &Bus, base: u32)
    requires { array_string_len text.old + 62 ≤ 4096 }
    ensures bytes { text.new.bytes ≡ text.old.bytes ++ call_frame_text bus.now.state base }
    ensures len { array_string_len text.new ≤ array_string_len text.old + 62 }
{
    text.push_str("call frame ");
    push_hex_word(text, base);
    text.push_str(": return address ");
    push_held(text, bus, Size::Word, base);
    text.push_str(", IPSR ");
    push_number(text, bus, base.wrapping_add(4));
}

/// What BLXNS has left at the Secure stack pointer.
#[tactic(auto, unfolding(crate::specs::WayLines::called_text))]
fn push_called(text: &mut Text, account: &Account, state: &LentState)
    requires { array_string_len text.old + 68 ≤ 4096 }
    ensures bytes { text.new.bytes ≡ text.old.bytes ++ called_text account.now state.now }
    ensures len { array_string_len text.new ≤ array_string_len text.old + 68 }
{
    let base = state
        .core()
        .stacks(Side::Secure)
        .pointer(account.core.registers.ipsr);
    text.push_str("    ");
    push_call_frame(text, state.bus(), base);
    text.push_str("\n");
}

// ---- FNC_RETURN

/// The core from which code returns.
#[tactic(auto, unfolding(crate::specs::Instruction::returning_core))]
fn returning_core(account: &Account, report: &Report) -> Core
    ensures { result ≡ returning_core account.now report.now }
{
    popped_by(&account.core, &done_by(&account.core, &report.kind))
}

/// The frame from which code came back, or would have.
fn came_from(account: &Account, report: &Report) -> Option<u32>
    ensures { result ≡ came_from account.now.ending.cause account.now.core.run.side account.now.core (returning_core account.now report.now) }
{
    match account.ending.cause {
        Cause::CameBack => Some(return_base(&returning_core(account, report))),
        _ => match account.core.run.side {
            Side::NonSecure => Some(return_base(&account.core)),
            Side::Secure => None,
        },
    }
}

fn push_from_call(text: &mut Text, bus: &Bus, base: Option<u32>)
    requires { array_string_len text.old + 64 ≤ 4096 }
    ensures bytes { text.new.bytes ≡ text.old.bytes ++ from_call_text bus.now.state base }
    ensures len { array_string_len text.new ≤ array_string_len text.old + 64 }
{
    if let Some(base) = base {
        text.push_str(": ");
        push_call_frame(text, bus, base);
    }
}

/// The value by which code returned from a call, and the frame.
#[tactic(auto, unfolding(crate::specs::WayLines::fnc_text))]
fn push_fnc(text: &mut Text, account: &Account, report: &Report, state: &LentState, value: u32)
    requires { array_string_len text.old + 90 ≤ 4096 }
    ensures bytes { text.new.bytes ≡ text.old.bytes ++ fnc_text account.now report.now state.now value }
    ensures len { array_string_len text.new ≤ array_string_len text.old + 90 }
{
    text.push_str("    FNC_RETURN ");
    push_hex_word(text, value);
    push_from_call(text, state.bus(), came_from(account, report));
    text.push_str("\n");
}

/// The line of FNC_RETURN, where code returned by it or tried to.
fn push_fnc_by(text: &mut Text, account: &Account, report: &Report, state: &LentState)
    requires { array_string_len text.old + 90 ≤ 4096 }
    ensures bytes { text.new.bytes ≡ text.old.bytes ++ fnc_by account.now report.now state.now (value_in account.now.ending.handling) }
    ensures len { array_string_len text.new ≤ array_string_len text.old + 90 }
{
    if let Some(value) = value_in(&account.ending.handling) {
        if is_fnc_return(value) {
            push_fnc(text, account, report, state, value);
        }
    }
}

/// The lines of SG, of BLXNS and of FNC_RETURN.
#[tactic(auto, unfolding(crate::specs::WayLines::ways_text))]
pub fn push_ways(text: &mut Text, account: &Account, report: &Report, state: &LentState)
    requires { array_string_len text.old + 158 ≤ 4096 }
    ensures bytes { text.new.bytes ≡ text.old.bytes ++ ways_text account.now report.now state.now }
    ensures len { array_string_len text.new ≤ array_string_len text.old + 158 }
{
    match account.ending.cause {
        Cause::Went => push_entered(text, report, state),
        Cause::Called => push_called(text, account, state),
        _ => {}
    }
    push_fnc_by(text, account, report, state);
}

// ---- the return of an exception

/// A basic frame that was read.
fn push_basic_from(text: &mut Text, bus: &Bus, side: Side, process: bool, base: u32)
    requires { array_string_len text.old + 170 ≤ 4096 }
    ensures bytes { text.new.bytes ≡ text.old.bytes ++ basic_from_text bus.now.state side process base }
    ensures len { array_string_len text.new ≤ array_string_len text.old + 170 }
{
    text.push_str("    from ");
    push_frame(text, bus, side, process, base);
    text.push_str("\n");
}

/// An additional frame that was read.
fn push_additional_from(text: &mut Text, bus: &Bus, side: Side, process: bool, base: u32)
    requires { array_string_len text.old + 170 ≤ 4096 }
    ensures bytes { text.new.bytes ≡ text.old.bytes ++ additional_from_text bus.now.state side process base }
    ensures len { array_string_len text.new ≤ array_string_len text.old + 170 }
{
    text.push_str("    from ");
    push_additional(text, bus, side, process, base);
    text.push_str("\n");
}

/// The frames that were read at a return.
fn push_frames_from(
    text: &mut Text,
    bus: &Bus,
    side: Side,
    process: bool,
    base: u32,
    additional: bool,
)
    requires { array_string_len text.old + 340 ≤ 4096 }
    ensures bytes { text.new.bytes ≡ text.old.bytes ++ frames_from bus.now.state side process base additional }
    ensures len { array_string_len text.new ≤ array_string_len text.old + 340 }
{
    if additional {
        push_additional_from(text, bus, side, process, base);
        let basic = base.wrapping_add(ADDITIONAL_FRAME_SIZE);
        push_basic_from(text, bus, side, process, basic);
    } else {
        push_basic_from(text, bus, side, process, base);
    }
}

/// The frames by the core from which the exception returned.
#[tactic(auto, unfolding(crate::specs::WayLines::frames_read))]
fn push_frames_read(text: &mut Text, bus: &Bus, core: &Core, returning: &Returning)
    requires { array_string_len text.old + 340 ≤ 4096 }
    ensures bytes { text.new.bytes ≡ text.old.bytes ++ frames_read bus.now.state core.now returning.now }
    ensures len { array_string_len text.new ≤ array_string_len text.old + 340 }
{
    push_frames_from(
        text,
        bus,
        side_of_bit(returning.secure),
        frame_uses_process(core, returning),
        frame_pointer(core, returning),
        has_callee(returning),
    );
}

/// Where the code goes on that the exception had interrupted.
#[tactic(auto, unfolding(crate::specs::WayLines::goes_on_text))]
fn push_goes_on(text: &mut Text, core: &Core)
    requires { array_string_len text.old + 35 ≤ 4096 }
    ensures bytes { text.new.bytes ≡ text.old.bytes ++ goes_on_text core.now }
    ensures len { array_string_len text.new ≤ array_string_len text.old + 35 }
{
    text.push_str("    goes on at ");
    push_place(text, core.registers.pc, core.run.side, !core.handler());
    text.push_str("\n");
}

/// The lines of a return by a value.
fn push_resumed_by(
    text: &mut Text,
    account: &Account,
    report: &Report,
    state: &LentState,
    value: u32,
)
    requires { array_string_len text.old + 439 ≤ 4096 }
    ensures bytes { text.new.bytes ≡ text.old.bytes ++ resumed_with account.now report.now state.now value }
    ensures len { array_string_len text.new ≤ array_string_len text.old + 439 }
{
    push_exc_return(text, value);
    let core = returning_core(account, report);
    let returning = returning_by(account.core.run.side, value);
    push_frames_read(text, state.bus(), &core, &returning);
    push_goes_on(text, state.core());
}

/// The lines of the return of an exception: its value, the frames, and where the code goes on that it had interrupted.
#[tactic(auto, unfolding(crate::specs::WayLines::resumed_text))]
pub fn push_resumed(text: &mut Text, account: &Account, report: &Report, state: &LentState)
    requires { array_string_len text.old + 439 ≤ 4096 }
    ensures bytes { text.new.bytes ≡ text.old.bytes ++ resumed_text account.now report.now state.now }
    ensures len { array_string_len text.new ≤ array_string_len text.old + 439 }
{
    if let Cause::Resumed = account.ending.cause {
        if let Some(value) = value_in(&account.ending.handling) {
            push_resumed_by(text, account, report, state, value);
        }
    }
}

//! The head of a page, the registers, and both sides' stacks.

ghost use Rattle.std.specs.Prelude.{◌≡◌, ◌≤◌, ◌<◌, ◌+◌, ◌++◌, length};
ghost use Rattle.std.specs.Fmt.{signed_decimal};
ghost use Rattle.arrayvec.specs.ArrayString.{array_string_len};
ghost use Rattle.tz_state.specs.Execution.{execution, manual_priority};
ghost use Rattle.tz_show.specs.Registers.{side_words, mode_words, privilege_words, sleep_words, running_text, priority_text, head_text, general_text, pointers_text, status_text, registers_text, pointer_pairs, control_row, stacks_text};
ghost use Rattle.tz_show.specs.Rows.{texts_below};

use crate::bits::BitNames;
use crate::rows::{Text, push_cell, push_pair, push_row, push_signed, push_where};
use tz_model::{Side, Sleep};
use tz_nvic::Exceptions;
use tz_prio::execution_priority;
use tz_regs::{Core, Registers, Stacks};
use tz_syntax::{push_decimal, push_hex_word};

#[tactic(auto, unfolding(crate::specs::Registers::side_words))]
fn push_side(text: &mut Text, side: Side)
    requires { array_string_len text.old + 10 ≤ 48000 }
    ensures bytes { text.new.bytes ≡ text.old.bytes ++ side_words side }
    ensures len { array_string_len text.new ≤ array_string_len text.old + 10 }
{
    match side {
        Side::Secure => text.push_str("Secure"),
        Side::NonSecure => text.push_str("Non-secure"),
    }
}

#[tactic(auto, unfolding(crate::specs::Registers::mode_words))]
fn push_mode(text: &mut Text, core: &Core)
    requires { array_string_len text.old + 14 ≤ 48000 }
    ensures bytes { text.new.bytes ≡ text.old.bytes ++ mode_words core.now }
    ensures len { array_string_len text.new ≤ array_string_len text.old + 14 }
{
    if core.handler() {
        text.push_str(", Handler mode");
    } else {
        text.push_str(", Thread mode");
    }
}

#[tactic(auto, unfolding(crate::specs::Registers::privilege_words))]
fn push_privilege(text: &mut Text, core: &Core)
    requires { array_string_len text.old + 14 ≤ 48000 }
    ensures bytes { text.new.bytes ≡ text.old.bytes ++ privilege_words core.now }
    ensures len { array_string_len text.new ≤ array_string_len text.old + 14 }
{
    if core.privileged(core.run.side) {
        text.push_str(", privileged");
    } else {
        text.push_str(", unprivileged");
    }
}

#[tactic(auto, unfolding(crate::specs::Registers::sleep_words))]
fn push_sleep(text: &mut Text, sleep: Sleep)
    requires { array_string_len text.old + 15 ≤ 48000 }
    ensures bytes { text.new.bytes ≡ text.old.bytes ++ sleep_words sleep }
    ensures len { array_string_len text.new ≤ array_string_len text.old + 15 }
{
    match sleep {
        Sleep::Awake => {}
        Sleep::Wfi => text.push_str(", asleep by WFI"),
        Sleep::Wfe => text.push_str(", asleep by WFE"),
    }
}

/// Whose code runs, and how.
#[tactic(auto, unfolding(crate::specs::Registers::running_text))]
fn push_running(text: &mut Text, core: &Core)
    requires { array_string_len text.old + 90 ≤ 48000 }
    ensures bytes { text.new.bytes ≡ text.old.bytes ++ running_text core.now }
    ensures len { array_string_len text.new ≤ array_string_len text.old + 90 }
{
    text.push_str("  ");
    push_side(text, core.run.side);
    push_mode(text, core);
    push_privilege(text, core);
    push_where(text, core.run.locked, ", locked up");
    push_sleep(text, core.run.sleep);
    push_where(text, core.event, ", event flag set");
    text.push_str("\n");
}

/// The execution priority as a number.
fn push_execution(text: &mut Text, exceptions: &Exceptions, core: &Core)
    requires { array_string_len text.old + 11 ≤ 48000 }
    ensures bytes { text.new.bytes ≡ text.old.bytes ++ signed_decimal (manual_priority (execution exceptions.now core.now.masks)) }
    ensures len { array_string_len text.new ≤ array_string_len text.old + 11 }
{
    push_signed(text, execution_priority(core, exceptions));
}

/// The execution priority.
#[tactic(auto, unfolding(crate::specs::Registers::priority_text))]
fn push_priority(text: &mut Text, exceptions: &Exceptions, core: &Core)
    requires { array_string_len text.old + 33 ≤ 48000 }
    ensures bytes { text.new.bytes ≡ text.old.bytes ++ priority_text exceptions.now core.now }
    ensures len { array_string_len text.new ≤ array_string_len text.old + 33 }
{
    text.push_str("  Execution priority ");
    push_execution(text, exceptions, core);
    text.push_str("\n");
}

/// How many steps were made, how the core runs, and the execution priority.
#[tactic(auto, unfolding(crate::specs::Registers::head_text))]
pub fn push_head(text: &mut Text, exceptions: &Exceptions, core: &Core, step: u32)
    requires { array_string_len text.old + 152 ≤ 48000 }
    ensures bytes { text.new.bytes ≡ text.old.bytes ++ head_text exceptions.now core.now step }
    ensures len { array_string_len text.new ≤ array_string_len text.old + 152 }
{
    text.push_str("State after ");
    push_decimal(text, step);
    text.push_str(" steps\n");
    push_running(text, core);
    push_priority(text, exceptions, core);
}

/// A register of R0 to R12, four a line.
#[tactic(auto, unfolding(crate::specs::Registers::general_text))]
fn push_general(text: &mut Text, general: &[u32; 13], k: usize)
    requires below { k < 13 }
    requires room { array_string_len text.old + 25 ≤ 48000 }
    ensures bytes { text.new.bytes ≡ text.old.bytes ++ general_text general.now k }
    ensures len { array_string_len text.new ≤ array_string_len text.old + 25 }
{
    push_where(text, k % 4 == 0, "\n");
    text.push_str("  R");
    push_decimal(text, k as u32);
    if k < 10 {
        text.push_str("   ");
    } else {
        text.push_str("  ");
    }
    push_hex_word(text, general[k]);
}

/// R0 to R12.
fn push_all_general(text: &mut Text, general: &[u32; 13])
    requires { array_string_len text.old + 325 ≤ 48000 }
    ensures bytes { text.new.bytes ≡ text.old.bytes ++ texts_below (general_text general.now) 13 }
    ensures len { array_string_len text.new ≤ array_string_len text.old + 325 }
{
    for k in 0..13usize {
        push_general(text, general, k);
    }
}

/// SP in use, LR and PC.
#[tactic(auto, unfolding(crate::specs::Registers::pointers_text))]
fn push_pointers(text: &mut Text, core: &Core)
    requires { array_string_len text.old + 46 ≤ 48000 }
    ensures bytes { text.new.bytes ≡ text.old.bytes ++ pointers_text core.now }
    ensures len { array_string_len text.new ≤ array_string_len text.old + 46 }
{
    push_cell(text, "  SP   ", core.pointer());
    push_cell(text, "  LR   ", core.registers.lr);
    push_cell(text, "  PC   ", core.registers.pc);
    text.push_str("\n");
}

/// APSR, IPSR and EPSR.
#[tactic(auto, unfolding(crate::specs::Registers::status_text))]
fn push_status(text: &mut Text, registers: &Registers)
    requires { array_string_len text.old + 132 ≤ 48000 }
    ensures bytes { text.new.bytes ≡ text.old.bytes ++ status_text registers.now }
    ensures len { array_string_len text.new ≤ array_string_len text.old + 132 }
{
    push_row(text, "  APSR ", registers.apsr.word(), BitNames::Apsr);
    push_cell(text, "  IPSR ", u32::from(registers.ipsr));
    push_cell(text, "  EPSR.IT ", u32::from(registers.it));
    push_cell(text, "  EPSR.T ", u32::from(registers.t));
    text.push_str("\n");
}

/// The part of the page on the core's registers.
#[tactic(auto, unfolding(crate::specs::Registers::registers_text))]
pub fn push_registers(text: &mut Text, core: &Core)
    requires { array_string_len text.old + 520 ≤ 48000 }
    ensures bytes { text.new.bytes ≡ text.old.bytes ++ registers_text core.now }
    ensures len { array_string_len text.new ≤ array_string_len text.old + 520 }
{
    text.push_str("\nRegisters");
    push_all_general(text, &core.registers.general);
    push_pointers(text, core);
    push_status(text, &core.registers);
}

/// The stack pointers and the limits of both sides.
#[tactic(auto, unfolding(crate::specs::Registers::pointer_pairs))]
fn push_pointer_pairs(text: &mut Text, s: &Stacks, ns: &Stacks)
    requires { array_string_len text.old + 172 ≤ 48000 }
    ensures bytes { text.new.bytes ≡ text.old.bytes ++ pointer_pairs s.now ns.now }
    ensures len { array_string_len text.new ≤ array_string_len text.old + 172 }
{
    push_pair(text, "  MSP_S      ", s.msp, "  MSP_NS     ", ns.msp);
    push_pair(text, "  MSPLIM_S   ", s.msplim, "  MSPLIM_NS  ", ns.msplim);
    push_pair(text, "  PSP_S      ", s.psp, "  PSP_NS     ", ns.psp);
    push_pair(text, "  PSPLIM_S   ", s.psplim, "  PSPLIM_NS  ", ns.psplim);
}

/// CONTROL of a side.
#[tactic(auto, unfolding(crate::specs::Registers::control_row))]
fn push_control(text: &mut Text, head: &str, stacks: &Stacks)
    requires { array_string_len text.old + length head.now + 73 ≤ 48000 }
    ensures bytes { text.new.bytes ≡ text.old.bytes ++ control_row head.now stacks.now }
    ensures len { array_string_len text.new ≤ array_string_len text.old + length head.now + 73 }
{
    push_row(text, head, stacks.control(), BitNames::Control);
}

/// The part of the page on stack pointers, limits and CONTROL.
#[tactic(auto, unfolding(crate::specs::Registers::stacks_text))]
pub fn push_stacks(text: &mut Text, core: &Core)
    requires { array_string_len text.old + 360 ≤ 48000 }
    ensures bytes { text.new.bytes ≡ text.old.bytes ++ stacks_text core.now }
    ensures len { array_string_len text.new ≤ array_string_len text.old + 360 }
{
    text.push_str("\nStacks\n");
    push_pointer_pairs(text, &core.stacks_s, &core.stacks_ns);
    push_control(text, "  CONTROL_S  ", &core.stacks_s);
    push_control(text, "  CONTROL_NS ", &core.stacks_ns);
}

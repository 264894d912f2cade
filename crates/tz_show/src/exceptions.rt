//! The exceptions that are pending, active or enabled, and what decides how their priorities count.

ghost use Rattle.std.specs.Prelude.{◌≡◌, ◌≤◌, ◌<◌, ◌+◌, ◌++◌, length};
ghost use Rattle.arrayvec.specs.ArrayString.{array_string_len};
ghost use Rattle.tz_state.specs.Slots.{places};
ghost use Rattle.tz_show.specs.Exceptions.{wide_number, exception_name, side_mark, flag_text, flags_text, slot_words, priority_words, slot_line, slot_text, is_listed, exception_text, grouping_line, grouping_text, control_text, exceptions_text};
ghost use Rattle.tz_show.specs.Rows.{texts_below};

use crate::bits::BitNames;
use crate::rows::{Text, push_pair, push_row, push_signed, push_where, push_wide};
use tz_model::{Side, Slot};
use tz_nvic::{Exceptions, PLACES, SlotState};
use tz_regs::Status;
use tz_regs::register_bits::CCR_RES1;
use tz_state::exception::{FIRST_INTERRUPT, ZERO_PRIORITY};
use tz_syntax::{push_decimal, push_hex_byte};
use tz_tell::system_name;

/// A number below 1000, three characters wide.
#[tactic(auto, unfolding(crate::specs::Exceptions::wide_number))]
fn push_wide_number(text: &mut Text, n: u32)
    requires { array_string_len text.old + 12 ≤ 48000 }
    ensures bytes { text.new.bytes ≡ text.old.bytes ++ wide_number n }
    ensures len { array_string_len text.new ≤ array_string_len text.old + 12 }
{
    if n < 10 {
        text.push_str("  ");
    } else if n < 100 {
        text.push_str(" ");
    }
    push_decimal(text, n);
}

/// The name of any number.
#[tactic(auto, unfolding(crate::specs::Exceptions::exception_name))]
fn push_name(text: &mut Text, number: u16)
    requires { array_string_len text.old + 22 ≤ 48000 }
    ensures bytes { text.new.bytes ≡ text.old.bytes ++ exception_name number }
    ensures len { array_string_len text.new ≤ array_string_len text.old + 22 }
{
    if number < FIRST_INTERRUPT {
        push_wide(text, system_name(number), 13);
    } else {
        text.push_str("Interrupt ");
        push_wide_number(text, u32::from(number - FIRST_INTERRUPT));
    }
}

#[tactic(auto, unfolding(crate::specs::Exceptions::side_mark))]
fn push_side_mark(text: &mut Text, side: Side)
    requires { array_string_len text.old + 4 ≤ 48000 }
    ensures bytes { text.new.bytes ≡ text.old.bytes ++ side_mark side }
    ensures len { array_string_len text.new ≡ array_string_len text.old + 4 }
{
    match side {
        Side::Secure => text.push_str(" S  "),
        Side::NonSecure => text.push_str(" NS "),
    }
}

/// What is so, or as many spaces.
fn push_flag(text: &mut Text, so: bool, word: &str, spaces: &str)
    requires { array_string_len text.old + length word.now + length spaces.now ≤ 48000 }
    ensures bytes { text.new.bytes ≡ text.old.bytes ++ flag_text so word.now spaces.now }
    ensures len { array_string_len text.new ≤ array_string_len text.old + length word.now + length spaces.now }
{
    if so {
        text.push_str(word);
    } else {
        text.push_str(spaces);
    }
}

/// What the slot at a place is: pending, active, enabled by software.
#[tactic(auto, unfolding(crate::specs::Exceptions::flags_text))]
fn push_flags(text: &mut Text, pending: bool, active: bool, enabled: bool)
    requires { array_string_len text.old + 46 ≤ 48000 }
    ensures bytes { text.new.bytes ≡ text.old.bytes ++ flags_text pending active enabled }
    ensures len { array_string_len text.new ≤ array_string_len text.old + 46 }
{
    push_flag(text, pending, " pending", "        ");
    push_flag(text, active, " active", "       ");
    push_flag(text, enabled, " enabled", "        ");
}

/// The number, the name and the side of a slot.
#[tactic(auto, unfolding(crate::specs::Exceptions::slot_words))]
fn push_slot_words(text: &mut Text, slot: Slot)
    requires { array_string_len text.old + 41 ≤ 48000 }
    ensures bytes { text.new.bytes ≡ text.old.bytes ++ slot_words slot }
    ensures len { array_string_len text.new ≤ array_string_len text.old + 41 }
{
    text.push_str("  ");
    push_wide_number(text, u32::from(slot.number));
    text.push_str(" ");
    push_name(text, slot.number);
    push_side_mark(text, slot.side);
}

/// A priority register, and what it counts as, four above the manual's.
#[tactic(auto, unfolding(crate::specs::Exceptions::priority_words))]
fn push_priority(text: &mut Text, byte: u8, priority: u32)
    requires small { priority < 260 }
    requires room { array_string_len text.old + 35 ≤ 48000 }
    ensures bytes { text.new.bytes ≡ text.old.bytes ++ priority_words byte priority }
    ensures len { array_string_len text.new ≤ array_string_len text.old + 35 }
{
    text.push_str(" priority ");
    push_hex_byte(text, byte);
    text.push_str(" counts as ");
    push_signed(text, priority as i32 - ZERO_PRIORITY as i32);
    text.push_str("\n");
}

/// The line of a slot.
#[tactic(auto, unfolding(crate::specs::Exceptions::slot_line))]
fn push_slot_line(text: &mut Text, slot: Slot, kept: SlotState, priority: u32)
    requires small { priority < 260 }
    requires room { array_string_len text.old + 122 ≤ 48000 }
    ensures bytes { text.new.bytes ≡ text.old.bytes ++ slot_line slot kept priority }
    ensures len { array_string_len text.new ≤ array_string_len text.old + 122 }
{
    push_slot_words(text, slot);
    push_flags(text, kept.pending, kept.active, kept.enabled);
    push_priority(text, kept.priority, priority);
}

/// The line of the slot at a place.
#[tactic(auto, unfolding(crate::specs::Exceptions::slot_text))]
fn push_slot(text: &mut Text, exceptions: &Exceptions, index: usize)
    requires below { index < 272 }
    requires room { array_string_len text.old + 122 ≤ 48000 }
    ensures bytes { text.new.bytes ≡ text.old.bytes ++ slot_text exceptions.now index }
    ensures len { array_string_len text.new ≤ array_string_len text.old + 122 }
{
    let slot = exceptions.slot_at(index);
    let kept = exceptions.at(index);
    push_slot_line(text, slot, kept, exceptions.priority_of(index));
}

/// Whether there is something to say of a place.
fn is_listed(exceptions: &Exceptions, index: usize) -> bool
    requires { index < 272 }
    ensures { result ≡ is_listed exceptions.now index }
{
    let kept = exceptions.at(index);
    exceptions.is_place(index) && (kept.pending || kept.active || kept.enabled)
}

/// The line of the slot at a place, where there is something to say.
#[tactic(auto, unfolding(crate::specs::Exceptions::exception_text))]
fn push_exception(text: &mut Text, exceptions: &Exceptions, index: usize)
    requires below { index < 272 }
    requires room { array_string_len text.old + 122 ≤ 48000 }
    ensures bytes { text.new.bytes ≡ text.old.bytes ++ exception_text exceptions.now index }
    ensures len { array_string_len text.new ≤ array_string_len text.old + 122 }
{
    if is_listed(exceptions, index) {
        push_slot(text, exceptions, index);
    }
}

/// The lines of all places.
fn push_places(text: &mut Text, exceptions: &Exceptions)
    requires { array_string_len text.old + 33184 ≤ 48000 }
    ensures bytes { text.new.bytes ≡ text.old.bytes ++ texts_below (exception_text exceptions.now) places }
    ensures len { array_string_len text.new ≤ array_string_len text.old + 33184 }
{
    for index in 0..PLACES {
        push_exception(text, exceptions, index);
    }
}

/// The line of what decides how priorities count.
#[tactic(auto, unfolding(crate::specs::Exceptions::grouping_line))]
fn push_grouping_line(text: &mut Text, s: u32, ns: u32, pris: bool, bfhfnmins: bool)
    requires { array_string_len text.old + 67 ≤ 48000 }
    ensures bytes { text.new.bytes ≡ text.old.bytes ++ grouping_line s ns pris bfhfnmins }
    ensures len { array_string_len text.new ≤ array_string_len text.old + 67 }
{
    text.push_str("  PRIGROUP_S ");
    push_decimal(text, s);
    text.push_str("  PRIGROUP_NS ");
    push_decimal(text, ns);
    push_where(text, pris, "  PRIS");
    push_where(text, bfhfnmins, "  BFHFNMINS");
    text.push_str("\n");
}

/// How priorities are grouped and restricted, and the side of what BFHFNMINS moves.
#[tactic(auto, unfolding(crate::specs::Exceptions::grouping_text))]
fn push_grouping(text: &mut Text, exceptions: &Exceptions)
    requires { array_string_len text.old + 67 ≤ 48000 }
    ensures bytes { text.new.bytes ≡ text.old.bytes ++ grouping_text exceptions.now }
    ensures len { array_string_len text.new ≤ array_string_len text.old + 67 }
{
    let s = u32::from(exceptions.grouping(Side::Secure));
    let ns = u32::from(exceptions.grouping(Side::NonSecure));
    push_grouping_line(text, s, ns, exceptions.pris(), exceptions.fault_side());
}

/// The vector tables, and what traps.
#[tactic(auto, unfolding(crate::specs::Exceptions::control_text))]
fn push_control(text: &mut Text, status: &Status)
    requires { array_string_len text.old + 200 ≤ 48000 }
    ensures bytes { text.new.bytes ≡ text.old.bytes ++ control_text status.now }
    ensures len { array_string_len text.new ≤ array_string_len text.old + 200 }
{
    push_pair(
        text,
        "  VTOR_S ",
        status.s.vtor,
        "  VTOR_NS ",
        status.ns.vtor,
    );
    push_row(text, "  CCR_S  ", status.s.ccr | CCR_RES1, BitNames::Ccr);
    push_row(text, "  CCR_NS ", status.ns.ccr | CCR_RES1, BitNames::Ccr);
}

/// The part of the page on exceptions: VTOR and CCR, how priorities are grouped, and each exception of which there is
/// something to say.
#[tactic(auto, unfolding(crate::specs::Exceptions::exceptions_text))]
pub fn push_exceptions(text: &mut Text, status: &Status, exceptions: &Exceptions)
    requires { array_string_len text.old + 33463 ≤ 48000 }
    ensures bytes { text.new.bytes ≡ text.old.bytes ++ exceptions_text status.now exceptions.now }
    ensures len { array_string_len text.new ≤ array_string_len text.old + 33463 }
{
    text.push_str("\nExceptions\n");
    push_control(text, status);
    push_grouping(text, exceptions);
    push_places(text, exceptions);
}

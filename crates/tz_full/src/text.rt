//! The text of a step's lines, and what several of them have: sides, modes, stacks, places at which code goes on, and
//! registers with their values.
//!
//! Each call appends to the text and says how much room it needs.

ghost use Rattle.std.specs.Prelude.{◌≡◌, ◌≤◌, ◌+◌, ◌*◌, ◌++◌, length};
ghost use Rattle.arrayvec.specs.ArrayString.{array_string_len};
ghost use Rattle.tz_full.specs.Words.{side_text, mode_text, place_text, stack_text, register_is, registers_text};

use arrayvec::ArrayString;
use tz_model::Side;
use tz_syntax::{push_hex_word, register_name};

/// All lines of a step but those of events.
pub type Text = ArrayString<4096>;

/// A side, as `S` or `NS`.
pub fn push_side(text: &mut Text, side: Side)
    requires { array_string_len text.old + 2 ≤ 4096 }
    ensures bytes { text.new.bytes ≡ text.old.bytes ++ side_text side }
    ensures len { array_string_len text.new ≤ array_string_len text.old + 2 }
{
    match side {
        Side::Secure => text.push_str("S"),
        Side::NonSecure => text.push_str("NS"),
    }
}

/// Thread mode, or Handler mode.
pub fn push_mode(text: &mut Text, thread: bool)
    requires { array_string_len text.old + 7 ≤ 4096 }
    ensures bytes { text.new.bytes ≡ text.old.bytes ++ mode_text thread }
    ensures len { array_string_len text.new ≤ array_string_len text.old + 7 }
{
    if thread {
        text.push_str("thread");
    } else {
        text.push_str("handler");
    }
}

/// An address at which code goes on, with its side and its mode.
#[tactic(auto, unfolding(crate::specs::Words::place_text))]
pub fn push_place(text: &mut Text, addr: u32, side: Side, thread: bool)
    requires { array_string_len text.old + 19 ≤ 4096 }
    ensures bytes { text.new.bytes ≡ text.old.bytes ++ place_text addr side thread }
    ensures len { array_string_len text.new ≤ array_string_len text.old + 19 }
{
    push_hex_word(text, addr);
    text.push_str(" ");
    push_side(text, side);
    text.push_str(" ");
    push_mode(text, thread);
}

/// The name of a stack pointer: PSP of a side with `process`, else MSP.
pub fn push_stack(text: &mut Text, side: Side, process: bool)
    requires { array_string_len text.old + 6 ≤ 4096 }
    ensures bytes { text.new.bytes ≡ text.old.bytes ++ stack_text side process }
    ensures len { array_string_len text.new ≤ array_string_len text.old + 6 }
{
    match side {
        Side::Secure => {
            if process {
                text.push_str("PSP_S");
            } else {
                text.push_str("MSP_S");
            }
        }
        Side::NonSecure => {
            if process {
                text.push_str("PSP_NS");
            } else {
                text.push_str("MSP_NS");
            }
        }
    }
}

/// A register by its number, and its value.
#[tactic(auto, unfolding(crate::specs::Words::register_is))]
pub fn push_register(text: &mut Text, number: u32, value: u32)
    requires { array_string_len text.old + 13 ≤ 4096 }
    ensures bytes { text.new.bytes ≡ text.old.bytes ++ register_is number value }
    ensures len { array_string_len text.new ≤ array_string_len text.old + 13 }
{
    text.push_str(" ");
    text.push_str(register_name(number));
    text.push_str("=");
    push_hex_word(text, value);
}

/// Registers in a row from a number on.
#[tactic(auto, unfolding(crate::specs::Words::registers_text))]
pub fn push_registers(text: &mut Text, first: u32, values: &[u32])
    requires few { first + length values.now ≤ 16 }
    requires room { array_string_len text.old + 13 * length values.now ≤ 4096 }
    ensures bytes { text.new.bytes ≡ text.old.bytes ++ registers_text first values.now }
    ensures len { array_string_len text.new ≤ array_string_len text.old + 13 * length values.now }
{
    let mut number = first;
    for value in values {
        push_register(text, number, *value);
        number += 1;
    }
}

//! The words from a stack pointer up: those of the stack in use, and the frame that a handler returns by (DDI0553,
//! `ExceptionReturn`, `PopStack`).

ghost use Rattle.std.specs.Prelude.{◌≡◌, ◌≤◌, ◌<◌, ◌+◌, ◌*◌, ◌++◌, length, map, slice_get};
ghost use Rattle.arrayvec.specs.ArrayString.{array_string_len};
ghost use Rattle.tz_syntax.specs.Names.{or_nothing};
ghost use Rattle.tz_show.specs.Frames.{shown_word, word_text, stack_word_text, stack_text, frame_label, has_frame, frame_first, frame_count, frame_word_text, frame_by, frame_text};
ghost use Rattle.tz_show.specs.Rows.{texts_below};

use crate::bits::BitNames;
use crate::rows::{Text, push_row};
use tz_access::Bus;
use tz_excret::{has_callee, is_exc_return, is_well_formed, returning_by};
use tz_frames::Returning;
use tz_model::Size;
use tz_regs::Core;
use tz_syntax::push_hex_word;
use tz_tell::frame_pointer;

/// The words of an additional frame, and above them those of a basic one.
pub static LABELS: [&str; 18] = [
    "  integrity signature",
    "  reserved",
    "  R4",
    "  R5",
    "  R6",
    "  R7",
    "  R8",
    "  R9",
    "  R10",
    "  R11",
    "  R0",
    "  R1",
    "  R2",
    "  R3",
    "  R12",
    "  LR",
    "  return address",
    "  RETPSR",
];

/// The label with this number, of these.
fn label_at(labels: &[&'static str], number: u32) -> &'static str
    ensures { result.now ≡ or_nothing (slice_get (map (λ label. label.now) labels.now) number) }
{
    let place = number as usize;
    if place < labels.len() {
        labels[place]
    } else {
        ""
    }
}

/// What the word of a frame with this number is.
#[tactic(auto, unfolding(crate::specs::Frames::frame_label))]
fn frame_label(number: u32) -> &'static str
    ensures label { result.now ≡ frame_label number }
    ensures short { length result.now ≤ 21 }
{
    label_at(&LABELS, number)
}

/// The word at an address, where regions hold all its bytes.
#[tactic(auto, unfolding(crate::specs::Frames::shown_word))]
fn push_shown_word(text: &mut Text, bus: &Bus, addr: u32)
    requires { array_string_len text.old + 8 ≤ 48000 }
    ensures bytes { text.new.bytes ≡ text.old.bytes ++ shown_word bus.now.state addr }
    ensures len { array_string_len text.new ≡ array_string_len text.old + 8 }
{
    match bus.read(addr, Size::Word) {
        Ok(word) => push_hex_word(text, word),
        Err(_) => text.push_str("--------"),
    }
}

/// An address, its word, and what the word is.
#[tactic(auto, unfolding(crate::specs::Frames::word_text))]
fn push_word(text: &mut Text, bus: &Bus, addr: u32, label: &str)
    requires { array_string_len text.old + length label.now + 21 ≤ 48000 }
    ensures bytes { text.new.bytes ≡ text.old.bytes ++ word_text bus.now.state addr label.now }
    ensures len { array_string_len text.new ≡ array_string_len text.old + length label.now + 21 }
{
    text.push_str("  ");
    push_hex_word(text, addr);
    text.push_str("  ");
    push_shown_word(text, bus, addr);
    text.push_str(label);
    text.push_str("\n");
}

/// A word of a stack by its number.
#[tactic(auto, unfolding(crate::specs::Frames::stack_word_text))]
fn push_stack_word(text: &mut Text, bus: &Bus, sp: u32, k: u32)
    requires below { k < 8 }
    requires room { array_string_len text.old + 21 ≤ 48000 }
    ensures bytes { text.new.bytes ≡ text.old.bytes ++ stack_word_text bus.now.state sp k }
    ensures len { array_string_len text.new ≤ array_string_len text.old + 21 }
{
    push_word(text, bus, sp.wrapping_add(4 * k), "");
}

/// The eight words from a stack pointer up.
fn push_stack_words(text: &mut Text, bus: &Bus, sp: u32)
    requires { array_string_len text.old + 168 ≤ 48000 }
    ensures bytes { text.new.bytes ≡ text.old.bytes ++ texts_below (stack_word_text bus.now.state sp) 8 }
    ensures len { array_string_len text.new ≤ array_string_len text.old + 168 }
{
    for k in 0..8u32 {
        push_stack_word(text, bus, sp, k);
    }
}

/// The part of the page on the stack in use: the words at its pointer.
#[tactic(auto, unfolding(crate::specs::Frames::stack_text))]
pub fn push_stack(text: &mut Text, core: &Core, bus: &Bus)
    requires { array_string_len text.old + 182 ≤ 48000 }
    ensures bytes { text.new.bytes ≡ text.old.bytes ++ stack_text core.now bus.now.state }
    ensures len { array_string_len text.new ≤ array_string_len text.old + 182 }
{
    text.push_str("\nStack in use\n");
    push_stack_words(text, bus, core.pointer());
}

/// Whether a handler has an EXC_RETURN value in LR.
fn has_frame(core: &Core) -> bool
    ensures { result ≡ has_frame core.now }
{
    let lr = core.registers.lr;
    core.handler() && is_exc_return(lr) && is_well_formed(lr)
}

/// A word of a frame by its number, with its label.
#[tactic(auto, unfolding(crate::specs::Frames::frame_word_text))]
fn push_frame_word(text: &mut Text, bus: &Bus, sp: u32, first: u32, k: u32)
    requires below { first + k < 18 }
    requires room { array_string_len text.old + 42 ≤ 48000 }
    ensures bytes { text.new.bytes ≡ text.old.bytes ++ frame_word_text bus.now.state sp first k }
    ensures len { array_string_len text.new ≤ array_string_len text.old + 42 }
{
    push_word(text, bus, sp.wrapping_add(4 * k), frame_label(first + k));
}

/// The words of a frame from a stack pointer up, the first of which has this number.
fn push_words(text: &mut Text, bus: &Bus, sp: u32, first: u32, count: u32)
    requires few { first + count ≤ 18 }
    requires room { array_string_len text.old + 756 ≤ 48000 }
    ensures bytes { text.new.bytes ≡ text.old.bytes ++ texts_below (frame_word_text bus.now.state sp first) count }
    ensures len { array_string_len text.new ≤ array_string_len text.old + 756 }
{
    for k in 0..count {
        push_frame_word(text, bus, sp, first, k);
    }
}

/// The frame of an EXC_RETURN value.
#[tactic(auto, unfolding(crate::specs::Frames::frame_by))]
fn push_frame_by(text: &mut Text, core: &Core, bus: &Bus, returning: &Returning)
    requires { array_string_len text.old + 756 ≤ 48000 }
    ensures bytes { text.new.bytes ≡ text.old.bytes ++ frame_by core.now bus.now.state returning.now }
    ensures len { array_string_len text.new ≤ array_string_len text.old + 756 }
{
    let sp = frame_pointer(core, returning);
    if has_callee(returning) {
        push_words(text, bus, sp, 0, 18);
    } else {
        push_words(text, bus, sp, 10, 8);
    }
}

/// The part of the page on the frame that EXC_RETURN in LR leads to, where LR has one.
#[tactic(auto, unfolding(crate::specs::Frames::frame_text))]
pub fn push_frame(text: &mut Text, core: &Core, bus: &Bus)
    requires { array_string_len text.old + 850 ≤ 48000 }
    ensures bytes { text.new.bytes ≡ text.old.bytes ++ frame_text core.now bus.now.state }
    ensures len { array_string_len text.new ≤ array_string_len text.old + 850 }
{
    if has_frame(core) {
        let lr = core.registers.lr;
        push_row(text, "\nFrame of EXC_RETURN ", lr, BitNames::ExcReturn);
        push_frame_by(text, core, bus, &returning_by(core.run.side, lr));
    }
}

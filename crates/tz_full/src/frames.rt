//! Frames on stacks, by what memory has of them (DDI0553, `PushStack`, `PushCalleeStack`).

ghost use Rattle.std.specs.Prelude.{◌≡◌, ◌≤◌, ◌+◌, ◌++◌, length};
ghost use Rattle.arrayvec.specs.ArrayString.{array_string_len};
ghost use Rattle.tz_full.specs.FrameLines.{known_word, frame_word, four_words, frame_head, basic_words_text, additional_words_text, frame_text, additional_text};

use crate::text::{Text, push_register, push_registers, push_stack};
use tz_access::Bus;
use tz_model::{Side, Size};
use tz_syntax::push_hex_word;

/// The word at an address, and 0 where regions don't hold all its bytes.
#[tactic(auto, unfolding(crate::specs::FrameLines::known_word))]
pub fn known_word(bus: &Bus, addr: u32) -> u32
    ensures { result ≡ known_word bus.now.state addr }
{
    match bus.read(addr, Size::Word) {
        Ok(word) => word,
        Err(_) => 0,
    }
}

/// The word of a frame with this number.
fn frame_word(bus: &Bus, base: u32, k: u32) -> u32
    requires { k ≤ 9 }
    ensures { result ≡ frame_word bus.now.state base k }
{
    known_word(bus, base.wrapping_add(4 * k))
}

/// Four words of a frame from this number on.
fn four_words(bus: &Bus, base: u32, k: u32) -> [u32; 4]
    requires { k ≤ 6 }
    ensures { result ≡ four_words bus.now.state base k }
{
    [
        frame_word(bus, base, k),
        frame_word(bus, base, k + 1),
        frame_word(bus, base, k + 2),
        frame_word(bus, base, k + 3),
    ]
}

/// Which frame, its stack and where it begins.
#[tactic(auto, unfolding(crate::specs::FrameLines::frame_head))]
fn push_head(text: &mut Text, name: &str, side: Side, process: bool, base: u32)
    requires { array_string_len text.old + length name.now + 15 ≤ 4096 }
    ensures bytes { text.new.bytes ≡ text.old.bytes ++ frame_head name.now side process base }
    ensures len { array_string_len text.new ≤ array_string_len text.old + length name.now + 15 }
{
    text.push_str(name);
    push_stack(text, side, process);
    text.push_str(" ");
    push_hex_word(text, base);
}

/// R0 to R3, R12, LR, the return address and RETPSR.
#[tactic(auto, unfolding(crate::specs::FrameLines::basic_words_text))]
fn push_basic_words(text: &mut Text, bus: &Bus, base: u32)
    requires { array_string_len text.old + 107 ≤ 4096 }
    ensures bytes { text.new.bytes ≡ text.old.bytes ++ basic_words_text bus.now.state base }
    ensures len { array_string_len text.new ≤ array_string_len text.old + 107 }
{
    let low = four_words(bus, base, 0);
    push_registers(text, 0, &low);
    push_register(text, 12, frame_word(bus, base, 4));
    push_register(text, 14, frame_word(bus, base, 5));
    push_register(text, 15, frame_word(bus, base, 6));
    text.push_str(" retpsr=");
    push_hex_word(text, frame_word(bus, base, 7));
}

/// The signature, the word above it, and R4 to R11.
#[tactic(auto, unfolding(crate::specs::FrameLines::additional_words_text))]
fn push_additional_words(text: &mut Text, bus: &Bus, base: u32)
    requires { array_string_len text.old + 122 ≤ 4096 }
    ensures bytes { text.new.bytes ≡ text.old.bytes ++ additional_words_text bus.now.state base }
    ensures len { array_string_len text.new ≤ array_string_len text.old + 122 }
{
    text.push_str(" ");
    push_hex_word(text, frame_word(bus, base, 0));
    text.push_str(" ");
    push_hex_word(text, frame_word(bus, base, 1));
    let low = four_words(bus, base, 2);
    push_registers(text, 4, &low);
    let high = four_words(bus, base, 6);
    push_registers(text, 8, &high);
}

/// A basic frame on a stack of a side, PSP with `process`, from its base up.
#[tactic(auto, unfolding(crate::specs::FrameLines::frame_text))]
pub fn push_frame(text: &mut Text, bus: &Bus, side: Side, process: bool, base: u32)
    requires { array_string_len text.old + 160 ≤ 4096 }
    ensures bytes { text.new.bytes ≡ text.old.bytes ++ frame_text bus.now.state side process base }
    ensures len { array_string_len text.new ≤ array_string_len text.old + 160 }
{
    push_head(text, "frame ", side, process, base);
    push_basic_words(text, bus, base);
}

/// An additional frame, likewise.
#[tactic(auto, unfolding(crate::specs::FrameLines::additional_text))]
pub fn push_additional(text: &mut Text, bus: &Bus, side: Side, process: bool, base: u32)
    requires { array_string_len text.old + 160 ≤ 4096 }
    ensures bytes { text.new.bytes ≡ text.old.bytes ++ additional_text bus.now.state side process base }
    ensures len { array_string_len text.new ≤ array_string_len text.old + 160 }
{
    push_head(text, "additional frame ", side, process, base);
    push_additional_words(text, bus, base);
}

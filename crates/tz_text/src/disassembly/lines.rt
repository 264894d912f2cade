//! A line: the address, the code, and the text of what stands there.

ghost use Rattle.std.specs.Prelude.{◌≡◌, ◌≤◌, ◌<◌, ◌+◌, ◌++◌, [], codes, length};
ghost use Rattle.arrayvec.specs.ArrayString.{array_string_len};
ghost use Rattle.tz_syntax.specs.Digits.{hex_word};
ghost use Rattle.tz_text.specs.Fronts.{digits_of, front_of, line_of, size_of, text_at};

use crate::disassembly::fronts::{Front, first_alone, read_front, size_of};
use arrayvec::ArrayString;
use tz_decode::{Decoded, decode};
use tz_syntax::{push_hex_byte, push_hex_half, push_hex_word, push_instruction};
use tz_table::Code;

/// A line. The longest has 115 bytes: 8 digits, at most 8, a text of at most 96 bytes, two spaces and a line
/// feed.
pub type Line = ArrayString<128>;

/// The text of what stands somewhere.
type Text = ArrayString<96>;

/// Appends the text of what a code at an address means, and nothing where it is no instruction.
fn push_meaning(text: &mut Text, at: u32, code: &Code)
    requires { text.old.bytes ≡ [] }
    ensures { text.new.bytes ≡ text_at at (Front.Whole code.now) }
{
    match decode(code.first, code.second.unwrap_or(0)) {
        Decoded::One(insn, width) => push_instruction(text, &insn, width, at),
        Decoded::NoCoprocessor | Decoded::Undefined(_) => {}
    }
}

/// The text of what stands at an address. It is empty where that is a code and no instruction.
fn front_text(at: u32, front: &Front) -> Text
    ensures { result.bytes ≡ text_at at front.now }
{
    let mut text = Text::new();
    match front {
        Front::Byte(byte) => {
            text.push_str(".byte 0x");
            push_hex_byte(&mut text, *byte);
        }
        Front::Half(half) => {
            text.push_str(".half 0x");
            push_hex_half(&mut text, *half);
        }
        Front::Whole(code) => push_meaning(&mut text, at, code),
    }
    text
}

/// The digits of what stands at an address.
fn push_digits(line: &mut Line, front: &Front)
    requires { array_string_len line.old + 8 ≤ 128 }
    ensures bytes { line.new.bytes ≡ line.old.bytes ++ digits_of front.now }
    ensures len { array_string_len line.new ≤ array_string_len line.old + 8 }
{
    match front {
        Front::Byte(byte) => push_hex_byte(line, *byte),
        Front::Half(half) => push_hex_half(line, *half),
        Front::Whole(code) => {
            push_hex_half(line, code.first);
            if let Some(second) = code.second {
                push_hex_half(line, second);
            }
        }
    }
}

/// Appends the line of what stands at an address, with this text.
fn push_line(line: &mut Line, at: u32, front: &Front, text: &Text)
    requires empty { line.old.bytes ≡ [] }
    requires text { text.now.bytes ≡ text_at at front.now }
    ensures { line.new.bytes ≡ line_of at front.now }
{
    push_hex_word(line, at);
    line.push_str(" ");
    push_digits(line, front);
    line.push_str(" ");
    line.push_str(text.as_str());
    line.push_str("\n");
}

/// Writes the line of the front of bytes from an address on, and gives the number of bytes that stand there.
pub fn push_front(line: &mut Line, at: u32, bytes: &[u8]) -> usize
    requires empty { line.old.bytes ≡ [] }
    requires some { 0 < length bytes.now }
    ensures line { line.new.bytes ≡ line_of at (front_of at bytes.now) }
    ensures size { result ≡ size_of (front_of at bytes.now) }
{
    let front = read_front(at, bytes);
    let text = front_text(at, &front);
    if text.is_empty() {
        let first = first_alone(front);
        push_line(line, at, &first, &front_text(at, &first));
        return size_of(first);
    }
    push_line(line, at, &front, &text);
    size_of(front)
}

//! What a line shows of an instruction: its address, its code as digits, and the text of what that means.
//!
//! A code that is no instruction runs only where its IT block skips it; its text is a directive of GNU's
//! assembler.

ghost use Rattle.std.specs.Prelude.{◌≡◌, ◌≤◌, ◌+◌, ◌++◌, []};
ghost use Rattle.arrayvec.specs.ArrayString.{array_string_len};
ghost use Rattle.tz_model.specs.Codes.{meaning_of, second_of};
ghost use Rattle.tz_text.specs.Instruction.{code_text, meaning_text, narrow_text, ran_text, wide_text};

use arrayvec::ArrayString;
use tz_decode::{Decoded, decode};
use tz_model::{Code, Width};
use tz_syntax::{push_hex_half, push_hex_word, push_instruction};

/// What a line shows of an instruction. The longest has 116 bytes: `N`, 8 digits, at most 8, a text of at most 96 bytes,
/// and three spaces.
pub type Text = ArrayString<116>;

/// The four or eight digits of a code.
fn push_code(text: &mut Text, code: &Code)
    requires { array_string_len text.old + 8 ≤ 116 }
    ensures bytes { text.new.bytes ≡ text.old.bytes ++ code_text code.now }
    ensures len { array_string_len text.new ≤ array_string_len text.old + 8 }
{
    push_hex_half(text, code.first);
    if let Some(second) = code.second {
        push_hex_half(text, second);
    }
}

/// The second halfword of a code, 0 where it has none.
fn second_of(code: &Code) -> u16
    ensures { result ≡ second_of code.now }
{
    code.second.unwrap_or(0)
}

/// A code of 32 bits that is no instruction.
fn push_wide(text: &mut Text, code: &Code)
    requires { array_string_len text.old + 18 ≤ 116 }
    ensures bytes { text.new.bytes ≡ text.old.bytes ++ wide_text code.now }
    ensures len { array_string_len text.new ≤ array_string_len text.old + 18 }
{
    text.push_str(".inst.w 0x");
    push_hex_half(text, code.first);
    push_hex_half(text, second_of(code));
}

/// One of 16 bits.
fn push_narrow(text: &mut Text, code: &Code)
    requires { array_string_len text.old + 14 ≤ 116 }
    ensures bytes { text.new.bytes ≡ text.old.bytes ++ narrow_text code.now }
    ensures len { array_string_len text.new ≤ array_string_len text.old + 14 }
{
    text.push_str(".inst.n 0x");
    push_hex_half(text, code.first);
}

/// What a code at `pc` means.
fn push_meaning(text: &mut Text, pc: u32, code: &Code)
    requires { array_string_len text.old + 96 ≤ 116 }
    ensures bytes { text.new.bytes ≡ text.old.bytes ++ meaning_text pc code.now (meaning_of code.now) }
    ensures len { array_string_len text.new ≤ array_string_len text.old + 96 }
{
    match decode(code.first, second_of(code)) {
        Decoded::One(insn, width) => push_instruction(text, &insn, width, pc),
        Decoded::NoCoprocessor | Decoded::Undefined(Width::Wide) => push_wide(text, code),
        Decoded::Undefined(Width::Narrow) => push_narrow(text, code),
    }
}

/// All that a line shows of the instruction with a code at `pc`.
pub fn push_ran(text: &mut Text, pc: u32, code: &Code)
    requires { text.old.bytes ≡ [] }
    ensures { text.new.bytes ≡ ran_text pc code.now }
{
    text.push_str("N ");
    push_hex_word(text, pc);
    text.push_str(" ");
    push_code(text, code);
    text.push_str(" ");
    push_meaning(text, pc, code);
}

//! The way out of Secure state, and what Secure code hands over by it.

ghost use Rattle.std.specs.Prelude.{◌≡◌, ◌≤◌, ◌+◌, ◌++◌, length};
ghost use Rattle.arrayvec.specs.ArrayString.{array_string_len};
ghost use Rattle.tz_frames.specs.Registers.{saved_of};
ghost use Rattle.tz_twin.specs.Seen.{handed_by};
ghost use Rattle.tz_full.specs.CrossingLine.{kind_word, flags_text, all_text, called_with_text, handed_text, way_text, crossing_text};

use crate::text::{Text, push_register, push_registers};
use tz_model::{CrossKind, Way};
use tz_regs::Registers;
use tz_syntax::{push_decimal, push_hex_byte, push_hex_word};

/// The word of a kind of crossing, at most 9 bytes.
pub fn kind_word(kind: CrossKind) -> &'static str
    ensures word { result.now ≡ kind_word kind }
    ensures short { length result.now ≤ 9 }
{
    match kind {
        CrossKind::Return => "return",
        CrossKind::Call => "call",
        CrossKind::ExcReturn => "excreturn",
        CrossKind::Chain => "chain",
        CrossKind::Preempt => "preempt",
        CrossKind::Refused => "refused",
    }
}

/// The flags, the IT state and T, and where code goes on.
#[tactic(auto, unfolding(crate::specs::CrossingLine::flags_text))]
fn push_flags(text: &mut Text, registers: &Registers)
    requires { array_string_len text.old + 46 ≤ 4096 }
    ensures bytes { text.new.bytes ≡ text.old.bytes ++ flags_text registers.now }
    ensures len { array_string_len text.new ≤ array_string_len text.old + 46 }
{
    text.push_str(" flags=");
    push_hex_word(text, registers.apsr.word());
    text.push_str(" it=");
    push_hex_byte(text, registers.it);
    text.push_str(" t=");
    push_decimal(text, u32::from(registers.t));
    text.push_str(" pc=");
    push_hex_word(text, registers.pc);
}

#[tactic(auto, unfolding(crate::specs::CrossingLine::all_text))]
fn push_all(text: &mut Text, registers: &Registers)
    requires { array_string_len text.old + 228 ≤ 4096 }
    ensures bytes { text.new.bytes ≡ text.old.bytes ++ all_text registers.now }
    ensures len { array_string_len text.new ≤ array_string_len text.old + 228 }
{
    push_registers(text, 0, &registers.general);
    push_register(text, 14, registers.lr);
    push_flags(text, registers);
}

#[tactic(auto, unfolding(crate::specs::CrossingLine::called_with_text))]
fn push_called_with(text: &mut Text, registers: &Registers)
    requires { array_string_len text.old + 215 ≤ 4096 }
    ensures bytes { text.new.bytes ≡ text.old.bytes ++ called_with_text registers.now }
    ensures len { array_string_len text.new ≤ array_string_len text.old + 215 }
{
    push_registers(text, 0, &registers.general);
    push_flags(text, registers);
}

/// R4 to R11.
fn saved(general: &[u32; 13]) -> [u32; 8]
    ensures { result ≡ saved_of general.now }
{
    [
        general[4],
        general[5],
        general[6],
        general[7],
        general[8],
        general[9],
        general[10],
        general[11],
    ]
}

/// What a crossing of a kind hands over.
#[tactic(auto, using(crate::proofs::Handing::lr_untold))]
fn push_handed(text: &mut Text, kind: CrossKind, registers: &Registers)
    requires { array_string_len text.old + 228 ≤ 4096 }
    ensures bytes { text.new.bytes ≡ text.old.bytes ++ handed_text kind (handed_by kind registers.now) }
    ensures len { array_string_len text.new ≤ array_string_len text.old + 228 }
{
    match kind {
        CrossKind::Return => push_all(text, registers),
        CrossKind::Call => push_called_with(text, registers),
        CrossKind::ExcReturn => push_all(text, registers),
        CrossKind::Chain => push_registers(text, 4, &saved(&registers.general)),
        CrossKind::Preempt => text.push_str(" nothing"),
        CrossKind::Refused => text.push_str(" nothing"),
    }
}

/// The line of a way out.
#[tactic(auto, unfolding(crate::specs::CrossingLine::way_text))]
fn push_way(text: &mut Text, way: &Way, registers: &Registers)
    requires { array_string_len text.old + 264 ≤ 4096 }
    ensures bytes { text.new.bytes ≡ text.old.bytes ++ way_text way.now registers.now }
    ensures len { array_string_len text.new ≤ array_string_len text.old + 264 }
{
    text.push_str("    crossing ");
    text.push_str(kind_word(way.kind));
    text.push_str(", hands over");
    push_handed(text, way.kind, registers);
    text.push_str("\n");
}

/// The line of the way out of Secure state, where the step takes one.
pub fn push_crossing(text: &mut Text, way: &Option<Way>, registers: &Registers)
    requires { array_string_len text.old + 264 ≤ 4096 }
    ensures bytes { text.new.bytes ≡ text.old.bytes ++ crossing_text way.now registers.now }
    ensures len { array_string_len text.new ≤ array_string_len text.old + 264 }
{
    if let Some(way) = way {
        push_way(text, way, registers);
    }
}

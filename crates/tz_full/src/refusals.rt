//! The value by which an exception returns, and why it is refused (DDI0553, EXC_RETURN, `ValidateExceptionReturn`).

ghost use Rattle.std.specs.Prelude.{◌≡◌, ◌≤◌, ◌+◌, ◌++◌, length};
ghost use Rattle.arrayvec.specs.ArrayString.{array_string_len};
ghost use Rattle.tz_model.specs.Words.{is_nonsecure_side};
ghost use Rattle.tz_full.specs.RefusalLines.{flag_digit, bits_text, exc_return_line, inactive_text, check_text, frame_at, unread_word, unsigned_text, unread_text, reason_text, refused_line};

use crate::faults::{fault_name, push_word_fault};
use crate::text::{Text, push_mode, push_side};
use tz_excret::{returning_by, side_of_bit};
use tz_frames::return_bits::{
    EXC_RETURN_DCRS, EXC_RETURN_ES, EXC_RETURN_FTYPE, EXC_RETURN_MODE, EXC_RETURN_S,
    EXC_RETURN_SPSEL,
};
use tz_frames::{Refusal, Returning, StackFault};
use tz_model::{Fault, Side};
use tz_regs::Core;
use tz_syntax::{push_decimal, push_hex_word};
use tz_tell::frame_uses_process;

/// Whether a side is the Non-secure one.
fn is_nonsecure(side: Side) -> bool
    ensures { result ≡ is_nonsecure_side side }
{
    match side {
        Side::Secure => false,
        Side::NonSecure => true,
    }
}

/// A bit as a digit.
pub fn flag_digit(on: bool) -> &'static str
    ensures digit { result.now ≡ flag_digit on }
    ensures short { length result.now ≤ 1 }
{
    if on { "1" } else { "0" }
}

/// ES, S and DCRS of a value.
#[tactic(auto, unfolding(crate::specs::RefusalLines::bits_text))]
fn push_bits(text: &mut Text, value: u32)
    requires { array_string_len text.old + 16 ≤ 4096 }
    ensures bytes { text.new.bytes ≡ text.old.bytes ++ bits_text value }
    ensures len { array_string_len text.new ≤ array_string_len text.old + 16 }
{
    text.push_str("ES ");
    text.push_str(flag_digit(value / EXC_RETURN_ES % 2 == 1));
    text.push_str(" S ");
    text.push_str(flag_digit(value / EXC_RETURN_S % 2 == 1));
    text.push_str(" DCRS ");
    text.push_str(flag_digit(value / EXC_RETURN_DCRS % 2 == 1));
}

/// The line of an EXC_RETURN value, with its bits in words.
#[tactic(auto, unfolding(crate::specs::RefusalLines::exc_return_line))]
pub fn push_exc_return(text: &mut Text, value: u32)
    requires { array_string_len text.old + 64 ≤ 4096 }
    ensures bytes { text.new.bytes ≡ text.old.bytes ++ exc_return_line value }
    ensures len { array_string_len text.new ≤ array_string_len text.old + 64 }
{
    text.push_str("    EXC_RETURN ");
    push_hex_word(text, value);
    text.push_str(": ");
    push_bits(text, value);
    text.push_str(" ");
    push_mode(text, value / EXC_RETURN_MODE % 2 == 1);
    text.push_str(" SPSEL ");
    text.push_str(flag_digit(value / EXC_RETURN_SPSEL % 2 == 1));
    text.push_str("\n");
}

/// That the exception that returns isn't active.
#[tactic(auto, unfolding(crate::specs::RefusalLines::inactive_text))]
fn push_inactive(text: &mut Text, core: &Core, value: u32)
    requires { array_string_len text.old + 36 ≤ 4096 }
    ensures bytes { text.new.bytes ≡ text.old.bytes ++ inactive_text core.now value }
    ensures len { array_string_len text.new ≤ array_string_len text.old + 36 }
{
    text.push_str("no exception ");
    push_decimal(text, u32::from(core.registers.ipsr));
    text.push_str(" ");
    push_side(text, side_of_bit(returning_by(core.run.side, value).es));
    text.push_str(" is active");
}

/// The first check that a value fails, where it fails one.
#[tactic(auto, unfolding(crate::specs::RefusalLines::check_text))]
fn push_check(text: &mut Text, core: &Core, value: u32)
    requires { array_string_len text.old + 36 ≤ 4096 }
    ensures bytes { text.new.bytes ≡ text.old.bytes ++ check_text core.now value }
    ensures len { array_string_len text.new ≤ array_string_len text.old + 36 }
{
    let nonsecure = is_nonsecure(core.run.side);
    if value / 0x80 % 0x2_0000 != 0x1_FFFF {
        text.push_str("bits 23 to 7 are not ones");
    } else if value / 0x2 % 2 == 1 {
        text.push_str("bit 1 is 1");
    } else if value / EXC_RETURN_FTYPE % 2 != 1 {
        text.push_str("FType is 0");
    } else if nonsecure && value / EXC_RETURN_ES % 2 == 1 {
        text.push_str("Non-secure code returns with ES 1");
    } else if nonsecure && value / EXC_RETURN_DCRS % 2 != 1 {
        text.push_str("Non-secure code returns with DCRS 0");
    } else {
        push_inactive(text, core, value);
    }
}

/// Where a frame stands that was refused.
fn frame_at(before: &Core, after: &Core, returning: &Returning) -> u32
    ensures { result ≡ frame_at before.now after.now returning.now }
{
    after.sp(
        side_of_bit(returning.secure),
        frame_uses_process(before, returning),
    )
}

/// A word of a frame that can't be read.
#[tactic(auto, unfolding(crate::specs::RefusalLines::unread_word))]
fn push_unread_word(text: &mut Text, fault: Fault)
    requires { array_string_len text.old + 42 ≤ 4096 }
    ensures bytes { text.new.bytes ≡ text.old.bytes ++ unread_word fault }
    ensures len { array_string_len text.new ≤ array_string_len text.old + 42 }
{
    text.push_str("word of the frame, ");
    push_word_fault(text, false, fault);
}

/// A frame that isn't signed.
#[tactic(auto, unfolding(crate::specs::RefusalLines::unsigned_text))]
fn push_unsigned(text: &mut Text, base: u32)
    requires { array_string_len text.old + 42 ≤ 4096 }
    ensures bytes { text.new.bytes ≡ text.old.bytes ++ unsigned_text base }
    ensures len { array_string_len text.new ≤ array_string_len text.old + 42 }
{
    text.push_str("frame at ");
    push_hex_word(text, base);
    text.push_str(", INVIS");
}

/// Why a frame can't be read, or isn't signed.
#[tactic(auto, unfolding(crate::specs::RefusalLines::unread_text))]
fn push_unread(
    text: &mut Text,
    before: &Core,
    after: &Core,
    returning: &Returning,
    fault: StackFault,
)
    requires { array_string_len text.old + 42 ≤ 4096 }
    ensures bytes { text.new.bytes ≡ text.old.bytes ++ unread_text before.now after.now returning.now fault }
    ensures len { array_string_len text.new ≤ array_string_len text.old + 42 }
{
    match fault {
        StackFault::Limit(_) => text.push_str("frame below its limit"),
        StackFault::Access(fault) => push_unread_word(text, fault),
        StackFault::Signature => push_unsigned(text, frame_at(before, after, returning)),
    }
}

/// Why a return is refused.
#[tactic(auto, unfolding(crate::specs::RefusalLines::reason_text))]
fn push_reason(text: &mut Text, before: &Core, after: &Core, value: u32, refusal: Refusal)
    requires { array_string_len text.old + 48 ≤ 4096 }
    ensures bytes { text.new.bytes ≡ text.old.bytes ++ reason_text before.now after.now value refusal }
    ensures len { array_string_len text.new ≤ array_string_len text.old + 48 }
{
    match refusal {
        Refusal::Value(fault) => {
            text.push_str(fault_name(fault));
            text.push_str(", ");
            push_check(text, before, value);
        }
        Refusal::Frame(fault) => {
            let returning = returning_by(before.run.side, value);
            push_unread(text, before, after, &returning, fault);
        }
        Refusal::Mode(_) => {
            text.push_str("INVPC, the frame's mode is not ");
            push_mode(text, value / EXC_RETURN_MODE % 2 == 1);
        }
    }
}

/// The line of a return that is refused, by the cores before and after the step.
#[tactic(auto, unfolding(crate::specs::RefusalLines::refused_line))]
pub fn push_refused(text: &mut Text, before: &Core, after: &Core, value: u32, refusal: Refusal)
    requires { array_string_len text.old + 64 ≤ 4096 }
    ensures bytes { text.new.bytes ≡ text.old.bytes ++ refused_line before.now after.now value refusal }
    ensures len { array_string_len text.new ≤ array_string_len text.old + 64 }
{
    text.push_str("    refused: ");
    push_reason(text, before, after, value, refusal);
    text.push_str("\n");
}

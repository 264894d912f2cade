//! Exceptions by the manual's names, and priorities as it counts them.

ghost use Rattle.std.specs.Prelude.{◌≡◌, ◌≤◌, ◌+◌, ◌++◌};
ghost use Rattle.std.specs.Fmt.{signed_decimal};
ghost use Rattle.arrayvec.specs.ArrayString.{array_string_len};
ghost use Rattle.tz_state.specs.Execution.{manual_priority};
ghost use Rattle.tz_full.specs.ExceptionNames.{exception_name, slot_text};

use crate::text::{Text, push_side};
use itoa::Buffer;
use tz_model::Slot;
use tz_state::exception::{FIRST_INTERRUPT, ZERO_PRIORITY};
use tz_syntax::push_decimal;
use tz_tell::system_name;

/// The name of an exception; external interrupts count from 0.
#[tactic(auto, unfolding(crate::specs::ExceptionNames::exception_name))]
pub fn push_exception_name(text: &mut Text, number: u16)
    requires { array_string_len text.old + 20 ≤ 4096 }
    ensures bytes { text.new.bytes ≡ text.old.bytes ++ exception_name number }
    ensures len { array_string_len text.new ≤ array_string_len text.old + 20 }
{
    if number < FIRST_INTERRUPT {
        text.push_str(system_name(number));
    } else {
        text.push_str("interrupt ");
        push_decimal(text, u32::from(number - FIRST_INTERRUPT));
    }
}

/// An exception with its side.
#[tactic(auto, unfolding(crate::specs::ExceptionNames::slot_text))]
pub fn push_slot(text: &mut Text, slot: Slot)
    requires { array_string_len text.old + 23 ≤ 4096 }
    ensures bytes { text.new.bytes ≡ text.old.bytes ++ slot_text slot }
    ensures len { array_string_len text.new ≤ array_string_len text.old + 23 }
{
    push_exception_name(text, slot.number);
    text.push_str(" ");
    push_side(text, slot.side);
}

/// A priority that stands four above the manual's, as the manual has it.
pub fn push_priority(text: &mut Text, priority: u32)
    requires small { priority ≤ 260 }
    requires room { array_string_len text.old + 11 ≤ 4096 }
    ensures bytes { text.new.bytes ≡ text.old.bytes ++ signed_decimal (manual_priority priority) }
    ensures len { array_string_len text.new ≤ array_string_len text.old + 11 }
{
    let mut buffer = Buffer::new();
    text.push_str(buffer.format(priority as i32 - ZERO_PRIORITY as i32));
}

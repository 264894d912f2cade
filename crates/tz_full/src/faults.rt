//! Faults by name.

ghost use Rattle.std.specs.Prelude.{◌≡◌, ◌≤◌, ◌+◌, ◌++◌, length};
ghost use Rattle.arrayvec.specs.ArrayString.{array_string_len};
ghost use Rattle.tz_full.specs.FaultNames.{fault_name, word_name, of_text, at_text, where_text, fault_text, word_text};

use crate::text::{Text, push_side};
use tz_model::{Fault, Side};
use tz_syntax::push_hex_word;

/// The name of a fault, which is that of its status bit.
#[tactic(auto, unfolding(crate::specs::FaultNames::fault_name))]
pub fn fault_name(fault: Fault) -> &'static str
    ensures name { result.now ≡ fault_name fault }
    ensures short { length result.now ≤ 10 }
{
    match fault {
        Fault::Undef => "UNDEFINSTR",
        Fault::InvState => "INVSTATE",
        Fault::InvPc(_) => "INVPC",
        Fault::NoCp => "NOCP",
        Fault::StackLimit(_) => "STKOF",
        Fault::Unaligned => "UNALIGNED",
        Fault::DivZero => "DIVBYZERO",
        Fault::DataAccess(_, _) => "DACCVIOL",
        Fault::Exec(_) => "IACCVIOL",
        Fault::Precise(_) => "PRECISERR",
        Fault::ExecBus => "IBUSERR",
        Fault::Violation(_) => "AUVIOL",
        Fault::EntryPoint => "INVEP",
        Fault::Transition => "INVTRAN",
        Fault::ExcReturn => "INVER",
        Fault::Signature => "INVIS",
        Fault::Breakpoint => "DEBUGEVT",
        Fault::Call => "SVC",
    }
}

/// The name of the bit of a word of a frame that isn't written (`stacking`) or isn't read.
#[tactic(auto, unfolding(crate::specs::FaultNames::word_name))]
fn word_name(stacking: bool, fault: Fault) -> &'static str
    ensures name { result.now ≡ word_name stacking fault }
    ensures short { length result.now ≤ 10 }
{
    match fault {
        Fault::DataAccess(_, _) => if stacking { "MSTKERR" } else { "MUNSTKERR" },
        Fault::Precise(_) => if stacking { "STKERR" } else { "UNSTKERR" },
        _ => fault_name(fault),
    }
}

/// A side behind a space.
fn push_of(text: &mut Text, side: Side)
    requires { array_string_len text.old + 3 ≤ 4096 }
    ensures bytes { text.new.bytes ≡ text.old.bytes ++ of_text side }
    ensures len { array_string_len text.new ≤ array_string_len text.old + 3 }
{
    text.push_str(" ");
    push_side(text, side);
}

/// An address behind a space.
fn push_at(text: &mut Text, addr: u32)
    requires { array_string_len text.old + 9 ≤ 4096 }
    ensures bytes { text.new.bytes ≡ text.old.bytes ++ at_text addr }
    ensures len { array_string_len text.new ≤ array_string_len text.old + 9 }
{
    text.push_str(" ");
    push_hex_word(text, addr);
}

/// The address of a fault, and the side of its exception where the fault tells it.
#[tactic(auto, unfolding(crate::specs::FaultNames::where_text))]
fn push_where(text: &mut Text, fault: Fault)
    requires { array_string_len text.old + 12 ≤ 4096 }
    ensures bytes { text.new.bytes ≡ text.old.bytes ++ where_text fault }
    ensures len { array_string_len text.new ≤ array_string_len text.old + 12 }
{
    match fault {
        Fault::DataAccess(addr, of) => {
            push_at(text, addr);
            push_of(text, of);
        }
        Fault::Precise(addr) => push_at(text, addr),
        Fault::Violation(addr) => push_at(text, addr),
        Fault::InvPc(of) => push_of(text, of),
        Fault::StackLimit(of) => push_of(text, of),
        Fault::Exec(of) => push_of(text, of),
        _ => {}
    }
}

/// A fault: its name, and what it tells.
#[tactic(auto, unfolding(crate::specs::FaultNames::fault_text))]
pub fn push_fault(text: &mut Text, fault: Fault)
    requires { array_string_len text.old + 22 ≤ 4096 }
    ensures bytes { text.new.bytes ≡ text.old.bytes ++ fault_text fault }
    ensures len { array_string_len text.new ≤ array_string_len text.old + 22 }
{
    text.push_str(fault_name(fault));
    push_where(text, fault);
}

/// The fault of a word of a frame, likewise.
#[tactic(auto, unfolding(crate::specs::FaultNames::word_text))]
pub fn push_word_fault(text: &mut Text, stacking: bool, fault: Fault)
    requires { array_string_len text.old + 22 ≤ 4096 }
    ensures bytes { text.new.bytes ≡ text.old.bytes ++ word_text stacking fault }
    ensures len { array_string_len text.new ≤ array_string_len text.old + 22 }
{
    text.push_str(word_name(stacking, fault));
    push_where(text, fault);
}

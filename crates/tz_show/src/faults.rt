//! The fault registers, bit by bit.

ghost use Rattle.std.specs.Prelude.{◌≡◌, ◌≤◌, ◌+◌, ◌++◌};
ghost use Rattle.arrayvec.specs.ArrayString.{array_string_len};
ghost use Rattle.tz_show.specs.Faults.{banked_faults_text, other_faults_text, faults_text};

use crate::bits::BitNames;
use crate::rows::{Text, push_row};
use tz_regs::Status;

/// Those that each side has.
#[tactic(auto, unfolding(crate::specs::Faults::banked_faults_text))]
fn push_banked(text: &mut Text, status: &Status)
    requires { array_string_len text.old + 504 ≤ 48000 }
    ensures bytes { text.new.bytes ≡ text.old.bytes ++ banked_faults_text status.now }
    ensures len { array_string_len text.new ≤ array_string_len text.old + 504 }
{
    push_row(text, "  UFSR_S   ", status.s.ufsr, BitNames::Ufsr);
    push_row(text, "  UFSR_NS  ", status.ns.ufsr, BitNames::Ufsr);
    push_row(text, "  MMFSR_S  ", status.s.mmfsr, BitNames::Mmfsr);
    push_row(text, "  MMFAR_S  ", status.s.mmfar, BitNames::Plain);
    push_row(text, "  MMFSR_NS ", status.ns.mmfsr, BitNames::Mmfsr);
    push_row(text, "  MMFAR_NS ", status.ns.mmfar, BitNames::Plain);
}

/// Those that there are once.
#[tactic(auto, unfolding(crate::specs::Faults::other_faults_text))]
fn push_others(text: &mut Text, status: &Status)
    requires { array_string_len text.old + 420 ≤ 48000 }
    ensures bytes { text.new.bytes ≡ text.old.bytes ++ other_faults_text status.now }
    ensures len { array_string_len text.new ≤ array_string_len text.old + 420 }
{
    push_row(text, "  BFSR     ", status.bus.bfsr, BitNames::Bfsr);
    push_row(text, "  BFAR     ", status.bus.bfar, BitNames::Plain);
    push_row(text, "  HFSR     ", status.bus.hfsr, BitNames::Hfsr);
    push_row(text, "  SFSR     ", status.security.sfsr, BitNames::Sfsr);
    push_row(text, "  SFAR     ", status.security.sfar, BitNames::Plain);
}

/// The part of the page on fault registers, bit by bit.
#[tactic(auto, unfolding(crate::specs::Faults::faults_text))]
pub fn push_faults(text: &mut Text, status: &Status)
    requires { array_string_len text.old + 932 ≤ 48000 }
    ensures bytes { text.new.bytes ≡ text.old.bytes ++ faults_text status.now }
    ensures len { array_string_len text.new ≤ array_string_len text.old + 932 }
{
    text.push_str("\nFaults\n");
    push_banked(text, status);
    push_others(text, status);
}

//! An instruction field by field: its form and its numbers as nine numbers, and the names of the fields
//! that the numbers stand for.
//!
//! Decoding's tests and encoding speak of instructions by these numbers, since they say all of an
//! instruction: no two instructions have the same nine. Nothing here knows a code.

ghost use Rattle.std.specs.Prelude.{◌≡◌};
ghost use Rattle.tz_bits.specs.Values.{values_of};
ghost use Rattle.tz_table.specs.declared.instruction.Insn.{Insn};

use crate::forms::{form_number, form_words};
use crate::numbers::numbers;
use tz_table::Insn;

/// The nine numbers of an instruction: the number of its variant with its operation, its four fields of a named
/// kind or of yes and no, and its four numbers, in the order of its fields and with those of an address in the
/// address's place. What is not used is 0.
pub fn values(insn: &Insn) -> [i32; 9]
    ensures { result ≡ values_of insn.now }
{
    let form = form_number(insn);
    let [a, b, c, d] = form_words(insn);
    let [p, q, r, s] = numbers(insn);
    [form, a, b, c, d, p, q, r, s]
}

/// No two instructions have the same nine numbers.
pub fn values_tell_all()
    ensures { (i j : Insn) → values_of i ≡ values_of j → i ≡ j }
{}

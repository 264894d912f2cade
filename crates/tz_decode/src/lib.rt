//! Decoding of one or two halfwords into an instruction (DDI0553, chapter C2).
//!
//! `decode` branches on the fields of the code and is proved to give the instruction of the one row of
//! the table that holds the code, and the table's refusal where none does: codes with a wrong
//! should-be bit and the manual's UNPREDICTABLE registers are refused as undefined. Nothing here runs
//! an instruction or knows a state.
#![tactic(auto)]

ghost use Rattle.std.specs.Prelude.{◌≡◌, ◌≤◌, ℕ, ◌↔◌, IsTrue, Some, true, slice_get};
ghost use Rattle.tz_table.specs.Rows.{TableRow, holds};
ghost use Rattle.tz_table.specs.Table.{decode_of, rows};
ghost use Rattle.tz_table.specs.declared.Decoded.TheVariants.{One};

mod arithmetic;
mod branches;
mod classes;
mod constants;
mod fields;
mod loads;
mod multiples;
mod narrow;
mod registers;
mod wide;

pub use tz_table::Decoded;

/// Whether a code that begins with this halfword has a second one: it is 0xE800 or above.
pub fn needs_second(first: u16) -> bool
    ensures { IsTrue result ↔ (0xe800 ≤ first) }
{
    first >= 0xe800
}

/// The instruction of the code, or why there is none. `second` is not looked at where `first` needs no
/// second halfword.
///
/// `One` exactly where a row of the table holds the code; where none does, `NoCoprocessor` where bits
/// 15:13 and 11:10 of `first` are ones, else `Undefined` with the width.
pub fn decode(first: u16, second: u16) -> Decoded
    ensures table { result ≡ decode_of first second }
    ensures row { (k : ℕ) (r : TableRow) → slice_get rows k ≡ Some r → holds r first second ≡ true → result ≡ One (r.insn first second) r.width }
{
    if needs_second(first) {
        wide::wide(first, second)
    } else {
        narrow::narrow(first, second)
    }
}

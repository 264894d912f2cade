//! The text of an instruction: its row, and what the row prints.

ghost use Rattle.std.specs.Prelude.{◌≡◌, ◌≤◌, ◌+◌, ◌++◌};
ghost use Rattle.arrayvec.specs.ArrayString.{array_string_len};
ghost use Rattle.tz_syntax.specs.Rows.{row_most, row_text, row_view};
ghost use Rattle.tz_syntax.specs.Text.{text_of};

use crate::pieces::push_pieces;
use crate::row::TextRow;
use crate::search::row_of;
use arrayvec::ArrayString;
use tz_bits::values;
use tz_table::{Insn, Width};

/// What a row prints.
fn push_row<const N: usize>(line: &mut ArrayString<N>, row: &TextRow, values: &[i32; 9], pc: u32)
    requires { array_string_len line.old + row_most (row_view row.now) ≤ N }
    ensures bytes { line.new.bytes ≡ line.old.bytes ++ row_text (row_view row.now) values.now pc }
    ensures len { array_string_len line.new ≤ array_string_len line.old + row_most (row_view row.now) }
{
    line.push_str(row.mnemonic);
    push_pieces(line, &row.pieces, values, pc);
}

/// Appends the text of an instruction of a width that stands at `pc`, of at most 96 bytes. It is empty where
/// the instruction has no code of that width.
pub fn push_instruction<const N: usize>(
    line: &mut ArrayString<N>,
    insn: &Insn,
    width: Width,
    pc: u32,
)
    requires { array_string_len line.old + 96 ≤ N }
    ensures bytes { line.new.bytes ≡ line.old.bytes ++ text_of insn.now width pc }
    ensures len { array_string_len line.new ≤ array_string_len line.old + 96 }
{
    let values = values(insn);
    if let Some(row) = row_of(&values, width) {
        push_row(line, row, &values, pc);
    }
}

/// The text of an instruction of a width that stands at `pc`. The program appends it to a line; tests are the users of
/// this call.
pub fn instruction_text(insn: &Insn, width: Width, pc: u32) -> ArrayString<96>
    ensures { result.bytes ≡ text_of insn.now width pc }
{
    let mut line = ArrayString::new();
    push_instruction(&mut line, insn, width, pc);
    line
}

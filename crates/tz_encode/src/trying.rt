//! What one row of the instruction table gives for an instruction.

ghost use Rattle.std.specs.Prelude.{◌≡◌, ◌≤◌, length, slice_get, Some, Err};
ghost use Rattle.tz_bits.specs.Values.{values_of};
ghost use Rattle.tz_encode.specs.Codes.{Tried};
ghost use Rattle.tz_table.specs.Rows.{TableRow};
ghost use Rattle.tz_table.specs.Table.{rows};
ghost use Rattle.tz_table.specs.declared.instruction.Insn.{Insn};

use crate::shapes::slots_at;
use crate::writing::answer;
use tz_table::row_at;

/// The halfwords of the least code that the row at `index` has of the instruction with these values, as
/// `tz_bits` gives them; of a narrow row the second is 0. Else the place of the first value that no code
/// of the row has together with those before it: 0 is the variant. That is the place at and past the end
/// of the table, too.
pub fn try_row(index: usize, values: &[i32; 9]) -> Result<(u16, u16), usize>
    ensures row { (i : Insn) → values.now ≡ values_of i → (r : TableRow) → slice_get rows index ≡ Some r → Tried r i result }
    ensures past { length rows ≤ index → result ≡ Err 0 }
{
    let Some(row) = row_at(index) else {
        return Err(0);
    };
    // Most rows have another variant, and their slots aren't looked at.
    if values[0] != i32::from(row.form) {
        return Err(0);
    }
    let Some(slots) = slots_at(index) else {
        return Err(0);
    };
    answer(row.form, row.first_value, row.second_value, &slots, values)
}

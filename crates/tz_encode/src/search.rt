//! The search for a code through the rows of the table.
//!
//! The rows of a width are tried in the table's order. The first that has a code ends the search; where
//! none has one, the last that has the instruction's form tells which number it can't hold.

ghost use Rattle.std.specs.Prelude.{◌≡◌, ◌<◌, ◌+◌, length, slice_get, Some, Err};
ghost use Rattle.tz_encode.specs.Search.{Found};
ghost use Rattle.tz_bits.specs.Values.{values_of};
ghost use Rattle.tz_table.specs.Rows.{TableRow, same_width};
ghost use Rattle.tz_table.specs.Table.{rows};
ghost use Rattle.tz_table.specs.declared.instruction.Insn.{Insn};

use crate::trying::try_row;
use tz_table::{Width, row_at, row_count};

/// How many values of an instruction make its form; its numbers come after them.
const FORM_VALUES: usize = 5;

/// Whether two widths are the same.
fn same(a: Width, b: Width) -> bool
    ensures { result ≡ same_width a b }
{
    match a {
        Width::Narrow => matches!(b, Width::Narrow),
        Width::Wide => matches!(b, Width::Wide),
    }
}

/// Whether the row at `index` has the width.
fn has_width(index: usize, width: Width) -> bool
    ensures { (r : TableRow) → slice_get rows index ≡ Some r → result ≡ same_width r.width width }
{
    match row_at(index) {
        Some(row) => same(row.width, width),
        None => false,
    }
}

/// What is found with the row at `index`, where the rows before it have no code and the last of them that
/// has the form blames the number `blamed`.
fn try_next(
    index: usize,
    width: Width,
    values: &[i32; 9],
    blamed: Option<usize>,
) -> Result<(u16, u16), Option<usize>>
    requires { index < 189 }
    ensures { (i : Insn) → values.now ≡ values_of i → Found rows width i index (Err blamed) → Found rows width i (index + 1) result }
{
    if !has_width(index, width) {
        return Err(blamed);
    }
    match try_row(index, values) {
        Ok(halves) => Ok(halves),
        Err(place) => {
            if place < FORM_VALUES {
                Err(blamed)
            } else {
                Err(Some(place - FORM_VALUES))
            }
        }
    }
}

/// The code of the instruction with these values in the first row of the width that has one. Else the
/// number of the instruction that the last row of its form blames, if a row has the form.
pub fn find(values: &[i32; 9], width: Width) -> Result<(u16, u16), Option<usize>>
    ensures { (i : Insn) → values.now ≡ values_of i → Found rows width i (length rows) result }
{
    let mut blamed = None;
    for index in 0..row_count() {
        match try_next(index, width, values, blamed) {
            Ok(halves) => return Ok(halves),
            Err(number) => blamed = number,
        }
    }
    Err(blamed)
}

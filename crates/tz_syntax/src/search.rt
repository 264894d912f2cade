//! The row of an instruction: the first that fits, looked for from the first row of its form and width on.

ghost use Rattle.std.specs.Prelude.{◌≡◌, drop, map};
ghost use Rattle.std.specs.List.{find};
ghost use Rattle.std.specs.Option.{option_map};
ghost use Rattle.tz_table.specs.Rows.{same_width as same_width_of};
ghost use Rattle.tz_syntax.specs.Rows.{fits as fits_of, has_fixed as has_fixed_of, row_view, somes};
ghost use Rattle.tz_syntax.specs.Text.{texts};

use crate::pieces::{number_at, value_at};
use crate::row::TextRow;
use crate::rows::rows_from;
use tz_table::Width;

/// Whether two widths are the same.
fn same_width(a: Width, b: Width) -> bool
    ensures { result ≡ same_width_of a b }
{
    match a {
        Width::Narrow => matches!(b, Width::Narrow),
        Width::Wide => matches!(b, Width::Wide),
    }
}

/// Each place has its value.
fn has_fixed(fixed: &[Option<(u8, i32)>], values: &[i32; 9]) -> bool
    ensures { result ≡ has_fixed_of (somes fixed.now) values.now }
{
    for entry in fixed {
        if let Some((place, value)) = *entry
            && value_at(values, place) != value
        {
            return false;
        }
    }
    true
}

/// The row is that of an instruction of this width with these values.
fn fits(row: &TextRow, values: &[i32; 9], width: Width) -> bool
    ensures { result ≡ fits_of values.now width (row_view row.now) }
{
    u32::from(row.form) == number_at(values, 0)
        && same_width(row.width, width)
        && has_fixed(&row.fixed, values)
}

/// The first row that fits.
fn first_of(rows: &'static [TextRow], values: &[i32; 9], width: Width) -> Option<&'static TextRow>
    ensures { option_map (λ r. r.now) result ≡ find (λ r. fits_of values.now width (row_view r)) rows.now }
{
    for row in rows {
        if fits(row, values, width) {
            return Some(row);
        }
    }
    None
}

/// The row of an instruction of this width with these values.
pub fn row_of(values: &[i32; 9], width: Width) -> Option<&'static TextRow>
    ensures { option_map (λ r. row_view r.now) result ≡ find (fits_of values.now width) texts }
{
    first_of(rows_from(number_at(values, 0), width), values, width)
}

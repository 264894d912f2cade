//! The rows of texts as data, and where those of a form and a width begin.
//!
//! A line of the table has the number of the form, the width, the places that are fixed with their values,
//! the mnemonic and the operands: `reg 5` is the register at place 5, `at 6 7` an address `[rn, #k]` of the
//! register at place 6 and the offset at place 7.

ghost use Rattle.std.specs.Prelude.{◌≡◌, drop, map, slice_get, unwrap_or};
ghost use Rattle.tz_syntax.specs.Rows.{row_view};
ghost use Rattle.tz_syntax.specs.Starts.{start_at};
ghost use Rattle.tz_syntax.specs.Text.{texts};

use crate::row::TextRow;
use table::{ROWS, STARTS};
use tz_table::Width;

/// What is listed, and None in the rest of the array.
macro_rules! padded {
    ({$($done:expr),*} [$($none:ident)*]) => {
        [$($done,)* $($none),*]
    };
    ({$($done:expr),*} [$none:ident $($rest:ident)*] $next:expr $(, $more:expr)*) => {
        padded!({$($done,)* Some($next)} [$($rest)*] $($more),*)
    };
}

/// The pieces of operands, with a comma between two of them.
macro_rules! pieces {
    ({$($done:expr),*}) => {
        padded!({} [None None None None None None None None None None None] $($done),*)
    };
    ({$($done:expr),*}, $($rest:tt)+) => {
        pieces!({$($done,)* Piece::Mark(Mark::Comma)} $($rest)+)
    };
    ({$($done:expr),*} reg $a:literal $($rest:tt)*) => {
        pieces!({$($done,)* Piece::Register($a)} $($rest)*)
    };
    ({$($done:expr),*} back $a:literal $($rest:tt)*) => {
        pieces!({$($done,)* Piece::Register($a), Piece::Mark(Mark::Back)} $($rest)*)
    };
    ({$($done:expr),*} num $a:literal $($rest:tt)*) => {
        pieces!({$($done,)* Piece::Number($a)} $($rest)*)
    };
    ({$($done:expr),*} imm $a:literal $($rest:tt)*) => {
        pieces!({$($done,)* Piece::Expanded($a)} $($rest)*)
    };
    ({$($done:expr),*} target $a:literal $($rest:tt)*) => {
        pieces!({$($done,)* Piece::Target($a)} $($rest)*)
    };
    ({$($done:expr),*} aligned $a:literal $($rest:tt)*) => {
        pieces!({$($done,)* Piece::AlignedTarget($a)} $($rest)*)
    };
    ({$($done:expr),*} list $a:literal $($rest:tt)*) => {
        pieces!({$($done,)* Piece::List($a)} $($rest)*)
    };
    ({$($done:expr),*} special $a:literal $($rest:tt)*) => {
        pieces!({$($done,)* Piece::Special($a)} $($rest)*)
    };
    ({$($done:expr),*} condition $a:literal $($rest:tt)*) => {
        pieces!({$($done,)* Piece::Condition($a)} $($rest)*)
    };
    ({$($done:expr),*} masks $a:literal $b:literal $($rest:tt)*) => {
        pieces!({$($done,)* Piece::Masks($a, $b)} $($rest)*)
    };
    ({$($done:expr),*} shifted $a:literal $b:literal $c:literal $($rest:tt)*) => {
        pieces!({$($done,)* Piece::Register($a), Piece::Shift($b, $c)} $($rest)*)
    };
    ({$($done:expr),*} left $a:literal $b:literal $($rest:tt)*) => {
        pieces!({$($done,)* Piece::Register($a), Piece::Left($b)} $($rest)*)
    };
    ({$($done:expr),*} right $a:literal $b:literal $($rest:tt)*) => {
        pieces!({$($done,)* Piece::Register($a), Piece::Right($b)} $($rest)*)
    };
    ({$($done:expr),*} rotated $a:literal $b:literal $($rest:tt)*) => {
        pieces!({$($done,)* Piece::Register($a), Piece::Rotated($b)} $($rest)*)
    };
    ({$($done:expr),*} at_base $a:literal $($rest:tt)*) => {
        pieces!({$($done,)*
            Piece::Mark(Mark::Open),
            Piece::Register($a),
            Piece::Mark(Mark::Close)} $($rest)*)
    };
    ({$($done:expr),*} at $a:literal $b:literal $($rest:tt)*) => {
        pieces!({$($done,)*
            Piece::Mark(Mark::Open),
            Piece::Register($a),
            Piece::Mark(Mark::Comma),
            Piece::Number($b),
            Piece::Mark(Mark::Close)} $($rest)*)
    };
    ({$($done:expr),*} at_pre $a:literal $b:literal $($rest:tt)*) => {
        pieces!({$($done,)*
            Piece::Mark(Mark::Open),
            Piece::Register($a),
            Piece::Mark(Mark::Comma),
            Piece::Number($b),
            Piece::Mark(Mark::Close),
            Piece::Mark(Mark::Back)} $($rest)*)
    };
    ({$($done:expr),*} at_sum $a:literal $b:literal $($rest:tt)*) => {
        pieces!({$($done,)*
            Piece::Mark(Mark::Open),
            Piece::Register($a),
            Piece::Mark(Mark::Comma),
            Piece::Register($b),
            Piece::Mark(Mark::Close)} $($rest)*)
    };
    ({$($done:expr),*} at_scaled $a:literal $b:literal $c:literal $($rest:tt)*) => {
        pieces!({$($done,)*
            Piece::Mark(Mark::Open),
            Piece::Register($a),
            Piece::Mark(Mark::Comma),
            Piece::Register($b),
            Piece::Left($c),
            Piece::Mark(Mark::Close)} $($rest)*)
    };
    ({$($done:expr),*} at_doubled $a:literal $b:literal $($rest:tt)*) => {
        pieces!({$($done,)*
            Piece::Mark(Mark::Open),
            Piece::Register($a),
            Piece::Mark(Mark::Comma),
            Piece::Register($b),
            Piece::Mark(Mark::Doubled),
            Piece::Mark(Mark::Close)} $($rest)*)
    };
    ({$($done:expr),*} at_pc $a:literal $($rest:tt)*) => {
        pieces!({$($done,)*
            Piece::Mark(Mark::Open),
            Piece::Mark(Mark::Pc),
            Piece::Mark(Mark::Comma),
            Piece::Number($a),
            Piece::Mark(Mark::Close)} $($rest)*)
    };
}

/// A line of the table. `letters 5 6` in front of the operands are the letters behind `it`.
macro_rules! row {
    (@ $form:literal $width:ident [$(($place:literal $value:literal))*] $mnemonic:literal $pieces:expr) => {
        TextRow {
            form: $form,
            width: Width::$width,
            fixed: padded!({} [None None None None] $(($place, $value)),*),
            mnemonic: $mnemonic,
            pieces: $pieces,
        }
    };
    ($form:literal $width:ident $fixed:tt $mnemonic:literal) => {
        row!(@ $form $width $fixed $mnemonic pieces!({}))
    };
    ($form:literal $width:ident $fixed:tt $mnemonic:literal; letters $a:literal $b:literal; $($operands:tt)+) => {
        row!(@ $form $width $fixed $mnemonic pieces!({Piece::Letters($a, $b), Piece::Mark(Mark::Gap)} $($operands)+))
    };
    ($form:literal $width:ident $fixed:tt $mnemonic:literal; $($operands:tt)+) => {
        row!(@ $form $width $fixed $mnemonic pieces!({Piece::Mark(Mark::Gap)} $($operands)+))
    };
}

mod table;

/// All rows, in the order in which the first that fits gives the text of an instruction.
pub fn text_rows() -> &'static [TextRow]
    ensures { map row_view result.now ≡ texts }
{
    &ROWS
}

/// The rows from one of them on.
fn behind(rows: &'static [TextRow], start: u16) -> &'static [TextRow]
    ensures { result.now ≡ drop start rows.now }
{
    let start = usize::from(start);
    if start < rows.len() {
        &rows[start..]
    } else {
        &[]
    }
}

/// The pair at a place, or zeros.
fn pair_at(pairs: &[(u16, u16)], place: usize) -> (u16, u16)
    ensures { result ≡ unwrap_or (slice_get pairs.now place) (0, 0) }
{
    pairs.get(place).copied().unwrap_or((0, 0))
}

/// Where the rows of a form and a width begin.
fn start_of(number: u32, width: Width) -> u16
    ensures { result ≡ start_at number width }
{
    let starts = pair_at(&STARTS, number as usize);
    match width {
        Width::Narrow => starts.0,
        Width::Wide => starts.1,
    }
}

/// All rows of a form and a width, and those behind them.
pub fn rows_from(number: u32, width: Width) -> &'static [TextRow]
    ensures { map row_view result.now ≡ drop (start_at number width) texts }
{
    behind(text_rows(), start_of(number, width))
}

//! What an operation of data does with its registers: bits 8:5 of the first halfword, S, Rd and Rn tell it, in codes
//! with a constant as in those with a shifted register.

ghost use Rattle.std.specs.Prelude.{◌≡◌, ◌==◌, ◌&&◌, if◌then◌else◌};
ghost use Rattle.tz_decode.specs.DataClasses.{class_of};
ghost use Rattle.tz_decode.specs.declared.classes.DataClass.TheVariants as classes;
ghost use Rattle.tz_table.specs.Fields.{bits};

use crate::fields::field;
use tz_table::DataOp;

/// What an operation of data reads and writes; its operand is the constant or the shifted register.
#[derive(Clone, Copy)]
pub enum DataClass {
    /// Rn and the operand give Rd.
    Plain(DataOp),
    /// Rn, which may be SP, and the operand give Rd.
    Sum(DataOp),
    /// The operand gives Rd.
    Move,
    /// The operand inverted gives Rd.
    MoveNot,
    /// Rn and the operand give flags alone.
    Test(DataOp),
    /// Rn, which may be SP, and the operand give flags alone.
    Comparison(DataOp),
    /// No operation has the code.
    Undefined,
}

/// The class where Rd isn't 15; where it is, with S the one that gives flags alone.
fn or_flags(class: DataClass, of_flags: DataClass, first: u16, second: u16) -> DataClass
    ensures { result ≡ (if bits second 8 4 == 15 && bits first 4 1 == 1 then of_flags else if bits second 8 4 == 15 then classes.Undefined else class) }
{
    let rd = field(second, 8, 4);
    if rd == 15 && field(first, 4, 1) == 1 {
        of_flags
    } else if rd == 15 {
        DataClass::Undefined
    } else {
        class
    }
}

/// The class where Rn isn't 15; where it is, the move.
fn or_move(class: DataClass, moved: DataClass, first: u16) -> DataClass
    ensures { result ≡ (if bits first 0 4 == 15 then moved else class) }
{
    if field(first, 0, 4) == 15 {
        moved
    } else {
        class
    }
}

/// The class of an operation of data.
pub fn data_class(first: u16, second: u16) -> DataClass
    ensures { result ≡ class_of (bits first 5 4) first second }
{
    match field(first, 5, 4) {
        0 => or_flags(
            DataClass::Plain(DataOp::And),
            DataClass::Test(DataOp::Tst),
            first,
            second,
        ),
        1 => DataClass::Plain(DataOp::Bic),
        2 => or_move(DataClass::Plain(DataOp::Orr), DataClass::Move, first),
        3 => or_move(DataClass::Plain(DataOp::Orn), DataClass::MoveNot, first),
        4 => or_flags(
            DataClass::Plain(DataOp::Eor),
            DataClass::Test(DataOp::Teq),
            first,
            second,
        ),
        8 => or_flags(
            DataClass::Sum(DataOp::Add),
            DataClass::Comparison(DataOp::Cmn),
            first,
            second,
        ),
        10 => DataClass::Plain(DataOp::Adc),
        11 => DataClass::Plain(DataOp::Sbc),
        13 => or_flags(
            DataClass::Sum(DataOp::Sub),
            DataClass::Comparison(DataOp::Cmp),
            first,
            second,
        ),
        14 => DataClass::Plain(DataOp::Rsb),
        _ => DataClass::Undefined,
    }
}

//! The text of each kind of piece, from the nine values of an instruction.
//!
//! Each call appends to a line and says how much room it needs.

ghost use Rattle.std.specs.Prelude.{ℕ, ◌≡◌, ◌≤◌, ◌<◌, ◌+◌, ◌*◌, ◌%◌, ◌^◌, ◌++◌};
ghost use Rattle.arrayvec.specs.ArrayString.{array_string_len};
ghost use Rattle.tz_syntax.specs.Rows.{somes};
ghost use Rattle.tz_syntax.specs.Pieces.{value_at as value_at_of, number_at as number_at_of, target as target_of, program_counter as program_counter_of, constant_text, expanded_text, address_text, listed_text, list_text, shift_text, letter_text, letters_text, masks_text, mark_text, mark_most, piece_text, piece_most, pieces_text, pieces_most};

use crate::digits::{push_decimal, push_hex_word, push_signed};
use crate::names::{condition_name, register_name, shift_name, special_name};
use crate::row::{Mark, Piece};
use arrayvec::ArrayString;
use tz_bits::expand_imm_c;

/// The value at a place; 0 past the end.
pub fn value_at(values: &[i32; 9], place: u8) -> i32
    ensures { result ≡ value_at_of values.now place }
{
    values.get(usize::from(place)).copied().unwrap_or(0)
}

/// The same without its sign.
pub fn number_at(values: &[i32; 9], place: u8) -> u32
    ensures { result ≡ number_at_of values.now place }
{
    value_at(values, place).unsigned_abs()
}

/// The address that an offset leads to.
fn target(base: u32, offset: i32) -> u32
    ensures { result ≡ target_of base offset }
{
    base.wrapping_add(offset.cast_unsigned())
}

/// The address of the instruction plus 4, as the instruction reads it.
fn program_counter(pc: u32) -> u32
    ensures { result ≡ program_counter_of pc }
{
    pc.wrapping_add(4)
}

/// A constant or an offset.
fn push_constant<const N: usize>(line: &mut ArrayString<N>, value: i32)
    requires { array_string_len line.old + 12 ≤ N }
    ensures bytes { line.new.bytes ≡ line.old.bytes ++ constant_text value }
    ensures len { array_string_len line.new ≤ array_string_len line.old + 12 }
{
    line.push_str("#");
    push_signed(line, value);
}

/// The constant that twelve bits stand for.
fn push_expanded<const N: usize>(line: &mut ArrayString<N>, number: u32)
    requires { array_string_len line.old + 11 ≤ N }
    ensures bytes { line.new.bytes ≡ line.old.bytes ++ expanded_text number }
    ensures len { array_string_len line.new ≤ array_string_len line.old + 11 }
{
    line.push_str("#");
    if number < 4096
        && let Some((value, _)) = expand_imm_c(number as u16, false)
    {
        push_decimal(line, value);
    }
}

/// The address that the offset at a place leads to.
fn push_target<const N: usize>(line: &mut ArrayString<N>, base: u32, values: &[i32; 9], place: u8)
    requires { array_string_len line.old + 10 ≤ N }
    ensures bytes { line.new.bytes ≡ line.old.bytes ++ address_text (target_of base (value_at_of values.now place)) }
    ensures len { array_string_len line.new ≤ array_string_len line.old + 10 }
{
    line.push_str("0x");
    push_hex_word(line, target(base, value_at(values, place)));
}

/// A register of a list, where the list has it, behind a comma where it isn't the lowest.
fn push_listed<const N: usize>(line: &mut ArrayString<N>, list: u32, register: u32)
    requires room { array_string_len line.old + 5 ≤ N }
    requires register { register < 16 }
    ensures bytes { line.new.bytes ≡ line.old.bytes ++ listed_text list register }
    ensures len { array_string_len line.new ≤ array_string_len line.old + 5 }
{
    if (list >> register) % 2 == 1 {
        if list % (1 << register) != 0 {
            line.push_str(", ");
        }
        line.push_str(register_name(register));
    }
}

/// A list of registers.
fn push_list<const N: usize>(line: &mut ArrayString<N>, list: u32)
    requires { array_string_len line.old + 82 ≤ N }
    ensures bytes { line.new.bytes ≡ line.old.bytes ++ list_text list }
    ensures len { array_string_len line.new ≤ array_string_len line.old + 82 }
{
    line.push_str("{");
    for register in 0..16 {
        push_listed(line, list, register);
    }
    line.push_str("}");
}

/// A shift of the operand before it, by the number of its kind, and the amount at a place.
fn push_shift<const N: usize>(line: &mut ArrayString<N>, kind: u32, values: &[i32; 9], place: u8)
    requires { array_string_len line.old + 18 ≤ N }
    ensures bytes { line.new.bytes ≡ line.old.bytes ++ shift_text kind (value_at_of values.now place) }
    ensures len { array_string_len line.new ≤ array_string_len line.old + 18 }
{
    let amount = value_at(values, place);
    if amount == 0 {
        return;
    }
    if kind == 4 {
        line.push_str(", rrx");
    } else {
        line.push_str(", ");
        line.push_str(shift_name(kind));
        line.push_str(" #");
        push_signed(line, amount);
    }
}

/// The letter that bit `bit` of an IT mask gives.
fn push_letter<const N: usize>(line: &mut ArrayString<N>, cond: u32, mask: u32, bit: u32)
    requires room { array_string_len line.old + 1 ≤ N }
    requires bit { bit < 4 }
    ensures bytes { line.new.bytes ≡ line.old.bytes ++ letter_text cond mask bit }
    ensures len { array_string_len line.new ≤ array_string_len line.old + 1 }
{
    if mask % (1 << bit) == 0 {
        return;
    }
    if (mask >> bit) % 2 == cond % 2 {
        line.push_str("t");
    } else {
        line.push_str("e");
    }
}

/// The letters behind `it`.
fn push_letters<const N: usize>(line: &mut ArrayString<N>, cond: u32, mask: u32)
    requires { array_string_len line.old + 3 ≤ N }
    ensures bytes { line.new.bytes ≡ line.old.bytes ++ letters_text cond mask }
    ensures len { array_string_len line.new ≤ array_string_len line.old + 3 }
{
    push_letter(line, cond, mask, 3);
    push_letter(line, cond, mask, 2);
    push_letter(line, cond, mask, 1);
}

/// The masks that a change of state names.
fn push_masks<const N: usize>(line: &mut ArrayString<N>, i: u32, f: u32)
    requires { array_string_len line.old + 2 ≤ N }
    ensures bytes { line.new.bytes ≡ line.old.bytes ++ masks_text i f }
    ensures len { array_string_len line.new ≤ array_string_len line.old + 2 }
{
    if i == 1 {
        line.push_str("i");
    }
    if f == 1 {
        line.push_str("f");
    }
}

/// A mark. Each text is pushed where its length is known: so the compiler makes no call of it.
fn push_mark<const N: usize>(line: &mut ArrayString<N>, mark: Mark)
    requires { array_string_len line.old + mark_most mark ≤ N }
    ensures bytes { line.new.bytes ≡ line.old.bytes ++ mark_text mark }
    ensures len { array_string_len line.new ≤ array_string_len line.old + mark_most mark }
{
    match mark {
        Mark::Gap => line.push_str(" "),
        Mark::Comma => line.push_str(", "),
        Mark::Open => line.push_str("["),
        Mark::Close => line.push_str("]"),
        Mark::Back => line.push_str("!"),
        Mark::Pc => line.push_str("pc"),
        Mark::Doubled => line.push_str(", lsl #1"),
    }
}

/// A piece of the text of the instruction with these values at `pc`.
fn push_piece<const N: usize>(line: &mut ArrayString<N>, piece: Piece, values: &[i32; 9], pc: u32)
    requires { array_string_len line.old + piece_most piece ≤ N }
    ensures bytes { line.new.bytes ≡ line.old.bytes ++ piece_text piece values.now pc }
    ensures len { array_string_len line.new ≤ array_string_len line.old + piece_most piece }
{
    match piece {
        Piece::Mark(mark) => push_mark(line, mark),
        Piece::Register(a) => line.push_str(register_name(number_at(values, a))),
        Piece::Number(a) => push_constant(line, value_at(values, a)),
        Piece::Expanded(a) => push_expanded(line, number_at(values, a)),
        Piece::Target(a) => push_target(line, program_counter(pc), values, a),
        Piece::AlignedTarget(a) => push_target(line, program_counter(pc) / 4 * 4, values, a),
        Piece::List(a) => push_list(line, number_at(values, a)),
        Piece::Shift(a, b) => push_shift(line, number_at(values, a), values, b),
        Piece::Left(a) => push_shift(line, 0, values, a),
        Piece::Right(a) => push_shift(line, 2, values, a),
        Piece::Rotated(a) => push_shift(line, 3, values, a),
        Piece::Special(a) => line.push_str(special_name(number_at(values, a))),
        Piece::Condition(a) => line.push_str(condition_name(number_at(values, a))),
        Piece::Letters(a, b) => push_letters(line, number_at(values, a), number_at(values, b)),
        Piece::Masks(a, b) => push_masks(line, number_at(values, a), number_at(values, b)),
    }
}

/// The pieces of the text of the instruction with these values at `pc`.
#[tactic(auto, unfolding(crate::specs::Pieces::pieces_text))]
pub fn push_pieces<const N: usize>(
    line: &mut ArrayString<N>,
    pieces: &[Option<Piece>],
    values: &[i32; 9],
    pc: u32,
)
    requires { array_string_len line.old + pieces_most (somes pieces.now) ≤ N }
    ensures bytes { line.new.bytes ≡ line.old.bytes ++ pieces_text (somes pieces.now) values.now pc }
    ensures len { array_string_len line.new ≤ array_string_len line.old + pieces_most (somes pieces.now) }
{
    for piece in pieces {
        if let Some(piece) = *piece {
            push_piece(line, piece, values, pc);
        }
    }
}

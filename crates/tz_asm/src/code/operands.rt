//! Operands as they are written: the value of each, and the tokens behind it. An operand that has its shape but a
//! value that no instruction has, as a constant that is too large, has the value None.

ghost use Rattle.std.specs.Prelude.{◌≡◌, ◌==◌, ◌<◌, ◌≤◌, ◌^◌, IfSome, MatchOption, None, Some, drop, length, option_map, pos};
ghost use Rattle.std.specs.List.{list_any};
ghost use Rattle.tz_asm.specs.Front.{views};
ghost use Rattle.tz_asm.specs.CodedOperands.{amount_of, amount_operand, entry_at, expanded_operand, expanded_value, is_label, label_at, label_named, list_behind, list_operand, masks_of, name_at, named_operand, number_operand, shift_at, shift_by, shift_named, shift_operand, target_at, with_register, written_amount};
ghost use Rattle.tz_asm.specs.CodeViews.{operand_view, shift_view, target_view};
ghost use Rattle.tz_syntax.specs.Spelling.{condition_of, register_of, special_of};

use crate::code::bits::{field_of, least_bits, whole_of};
use crate::code::front::{constant_at, mark_at, signed_at, word_at};
use tz_syntax::{Token, spells};

/// The value of an operand, and the tokens behind it.
#[derive(Clone, Copy)]
pub struct Operand<'t, 's> {
    pub value: Option<i32>,
    pub rest: &'t [Token<'s>],
}

/// A shift: the number of its kind, its amount, and the tokens behind it.
#[derive(Clone, Copy)]
pub struct Shift<'t, 's> {
    pub kind: u8,
    pub amount: Option<i32>,
    pub rest: &'t [Token<'s>],
}

/// A target: where it leads, whether a label says so, and the tokens behind it.
#[derive(Clone, Copy)]
pub struct Target<'t, 's> {
    pub address: Option<u32>,
    pub labelled: bool,
    pub rest: &'t [Token<'s>],
}

/// An operand that a word names by its number.
fn named<'t, 's>(number: Option<u32>, rest: &'t [Token<'s>]) -> Option<Operand<'t, 's>>
    requires { IfSome number (λ n. n < 256) }
    ensures { option_map operand_view result ≡ named_operand number (views rest.now) }
{
    match number {
        None => None,
        Some(number) => Some(Operand {
            value: Some(number as i32),
            rest,
        }),
    }
}

pub fn register_operand<'t, 's>(tokens: &'t [Token<'s>]) -> Option<Operand<'t, 's>>
    ensures { option_map operand_view result ≡ name_at register_of (views tokens.now) }
{
    match word_at(tokens) {
        None => None,
        Some((word, rest)) => named(tz_syntax::register_of(word), rest),
    }
}

pub fn condition_operand<'t, 's>(tokens: &'t [Token<'s>]) -> Option<Operand<'t, 's>>
    ensures { option_map operand_view result ≡ name_at condition_of (views tokens.now) }
{
    match word_at(tokens) {
        None => None,
        Some((word, rest)) => named(tz_syntax::condition_of(word), rest),
    }
}

/// A special register.
pub fn special_operand<'t, 's>(tokens: &'t [Token<'s>]) -> Option<Operand<'t, 's>>
    ensures { option_map operand_view result ≡ name_at special_of (views tokens.now) }
{
    match word_at(tokens) {
        None => None,
        Some((word, rest)) => named(tz_syntax::special_of(word), rest),
    }
}

/// A constant or an offset.
#[tactic(auto, unfolding(crate::specs::CodedOperands::number_operand))]
pub fn number_operand<'t, 's>(tokens: &'t [Token<'s>]) -> Option<Operand<'t, 's>>
    ensures { option_map operand_view result ≡ number_operand (views tokens.now) }
{
    match constant_at(tokens) {
        None => None,
        Some((negative, number, rest)) => Some(Operand {
            value: field_of(negative, number),
            rest,
        }),
    }
}

/// The least twelve bits that stand for a number with its sign.
fn expanded(negative: bool, number: u32) -> Option<i32>
    ensures { result ≡ expanded_value negative number }
{
    match whole_of(negative, number) {
        None => None,
        Some(number) => match least_bits(number) {
            None => None,
            Some(bits) => Some(i32::from(bits)),
        },
    }
}

/// A constant that twelve bits stand for: its value is the least that do.
#[tactic(auto, unfolding(crate::specs::CodedOperands::expanded_operand))]
pub fn expanded_operand<'t, 's>(tokens: &'t [Token<'s>]) -> Option<Operand<'t, 's>>
    ensures { option_map operand_view result ≡ expanded_operand (views tokens.now) }
{
    match constant_at(tokens) {
        None => None,
        Some((negative, number, rest)) => Some(Operand {
            value: expanded(negative, number),
            rest,
        }),
    }
}

/// A shift of a kind with its amount.
fn shift_by<'t, 's>(kind: u32, tokens: &'t [Token<'s>]) -> Option<Shift<'t, 's>>
    requires { kind < 4 }
    ensures { option_map shift_view result ≡ shift_by kind (views tokens.now) }
{
    match number_operand(tokens) {
        None => None,
        Some(amount) => Some(Shift {
            kind: kind as u8,
            amount: amount.value,
            rest: amount.rest,
        }),
    }
}

/// A shift by its name. The amount of `rrx` is 1.
#[tactic(auto, unfolding(crate::specs::CodedOperands::shift_named))]
fn shift_named<'t, 's>(word: &[u8], rest: &'t [Token<'s>]) -> Option<Shift<'t, 's>>
    ensures { option_map shift_view result ≡ shift_named word.now (views rest.now) }
{
    if spells(word, b"rrx") {
        return Some(Shift {
            kind: 4,
            amount: Some(1),
            rest,
        });
    }
    match tz_syntax::shift_of(word) {
        None => None,
        Some(kind) => shift_by(kind, rest),
    }
}

/// A shift.
#[tactic(auto, unfolding(crate::specs::CodedOperands::shift_at))]
fn shift_at<'t, 's>(tokens: &'t [Token<'s>]) -> Option<Shift<'t, 's>>
    ensures { option_map shift_view result ≡ shift_at (views tokens.now) }
{
    match word_at(tokens) {
        None => None,
        Some((word, rest)) => shift_named(word, rest),
    }
}

/// A shift behind a comma. Where there is no comma it is left out, which is one to the left by 0.
#[tactic(auto, unfolding(crate::specs::CodedOperands::shift_operand))]
pub fn shift_operand<'t, 's>(tokens: &'t [Token<'s>]) -> Option<Shift<'t, 's>>
    ensures { option_map shift_view result ≡ shift_operand (views tokens.now) }
{
    match mark_at(tokens, b',') {
        None => Some(Shift {
            kind: 0,
            amount: Some(0),
            rest: tokens,
        }),
        Some(behind) => shift_at(behind),
    }
}

/// The amount of a shift of a kind.
fn amount_of<'t, 's>(kind: u8, shift: Option<Shift<'t, 's>>) -> Option<Operand<'t, 's>>
    ensures { option_map operand_view result ≡ amount_of kind (option_map shift_view shift.entry) }
{
    match shift {
        None => None,
        Some(shift) => {
            if shift.kind == kind {
                Some(Operand {
                    value: shift.amount,
                    rest: shift.rest,
                })
            } else {
                None
            }
        }
    }
}

/// The amount of a shift of one kind behind a comma, or 0 where there is no comma.
#[tactic(auto, unfolding(crate::specs::CodedOperands::amount_operand))]
pub fn amount_operand<'t, 's>(kind: u8, tokens: &'t [Token<'s>]) -> Option<Operand<'t, 's>>
    ensures { option_map operand_view result ≡ amount_operand kind (views tokens.now) }
{
    match mark_at(tokens, b',') {
        None => Some(Operand {
            value: Some(0),
            rest: tokens,
        }),
        Some(behind) => amount_of(kind, shift_at(behind)),
    }
}

/// The amount of a shift to the left behind a comma, which isn't left out.
#[tactic(auto, unfolding(crate::specs::CodedOperands::written_amount))]
pub fn written_amount<'t, 's>(tokens: &'t [Token<'s>]) -> Option<Operand<'t, 's>>
    ensures { option_map operand_view result ≡ written_amount (views tokens.now) }
{
    match mark_at(tokens, b',') {
        None => None,
        Some(behind) => amount_of(0, shift_at(behind)),
    }
}

/// A list with one register more, where the registers ascend.
fn with_register(register: u32, list: Option<u32>) -> Option<u32>
    requires { register < 16 }
    ensures list { result ≡ with_register register list }
    ensures below { IfSome result (λ list. list < 2 ^ 16) }
{
    match list {
        None => None,
        Some(list) => {
            let bit = 1 << register;
            if list < bit { Some(list + bit) } else { None }
        }
    }
}

/// A register of a list and the mark behind it, which are two tokens.
fn entry_at(tokens: &[Token]) -> Option<(u32, u8)>
    ensures read { MatchOption result (entry_at (views tokens.now) ≡ None) (λ read. entry_at (views tokens.now) ≡ Some (read.0, read.1, views (drop 2 tokens.now))) }
    ensures below { IfSome result (λ read. read.0 < 16) }
    ensures within { IfSome result (λ read. 2 ≤ length tokens.now) }
{
    match tokens {
        [Token::Word(word), Token::Mark(mark), ..] => match tz_syntax::register_of(word) {
            None => None,
            Some(register) => Some((register, *mark)),
        },
        _ => None,
    }
}

/// A list as a value.
fn list_value(list: Option<u32>) -> Option<i32>
    requires { IfSome list (λ list. list < 2 ^ 16) }
    ensures { result ≡ option_map pos list }
{
    match list {
        None => None,
        Some(list) => Some(list as i32),
    }
}

/// The tokens from a place on.
fn from_place<'t, 's>(tokens: &'t [Token<'s>], place: usize) -> &'t [Token<'s>]
    requires { place ≤ length tokens.now }
    ensures { result.now ≡ drop place tokens.now }
{
    &tokens[place..]
}

/// The rest of a list of registers, behind its brace.
fn list_behind<'t, 's>(tokens: &'t [Token<'s>]) -> Option<Operand<'t, 's>>
    ensures { option_map operand_view result ≡ list_behind (Some 0) (views tokens.now) }
{
    let mut place = 0;
    let mut list = Some(0);
    while let Some((register, mark)) = entry_at(from_place(tokens, place)) {
        let longer = with_register(register, list);
        if mark == b'}' {
            return Some(Operand {
                value: list_value(longer),
                rest: from_place(tokens, place + 2),
            });
        }
        if mark != b',' {
            return None;
        }
        list = longer;
        place += 2;
    }
    None
}

/// A list of registers between braces.
#[tactic(auto, unfolding(crate::specs::CodedOperands::list_operand))]
pub fn list_operand<'t, 's>(tokens: &'t [Token<'s>]) -> Option<Operand<'t, 's>>
    ensures { option_map operand_view result ≡ list_operand (views tokens.now) }
{
    match mark_at(tokens, b'{') {
        None => None,
        Some(behind) => list_behind(behind),
    }
}

/// Which masks a word names: `i`, `f`, or both.
#[tactic(auto, unfolding(crate::specs::CodedOperands::masks_of))]
pub fn masks_of(word: &[u8]) -> Option<(u8, u8)>
    ensures { result ≡ masks_of word.now }
{
    if spells(word, b"i") {
        Some((1, 0))
    } else if spells(word, b"f") {
        Some((0, 1))
    } else if spells(word, b"if") {
        Some((1, 1))
    } else {
        None
    }
}

/// Whether a word may be a label: it has no `.` and is no register.
#[tactic(auto, unfolding(crate::specs::CodedOperands::is_label))]
pub fn is_label(word: &[u8]) -> bool
    ensures { result ≡ is_label word.now }
{
    !has_dot(word) && tz_syntax::register_of(word).is_none()
}

/// Whether a `.` stands in a word.
pub fn has_dot(word: &[u8]) -> bool
    ensures { result ≡ list_any (λ b. b == 46) word.now }
{
    word.contains(&b'.')
}

/// A label by its word.
fn label_named<'t, 's>(label: u32, word: &[u8], rest: &'t [Token<'s>]) -> Option<Target<'t, 's>>
    ensures { option_map target_view result ≡ label_named label word.now (views rest.now) }
{
    if is_label(word) {
        Some(Target {
            address: Some(label),
            labelled: true,
            rest,
        })
    } else {
        None
    }
}

/// A label.
#[tactic(auto, unfolding(crate::specs::CodedOperands::label_at))]
pub fn label_at<'t, 's>(label: u32, tokens: &'t [Token<'s>]) -> Option<Target<'t, 's>>
    ensures { option_map target_view result ≡ label_at label (views tokens.now) }
{
    match word_at(tokens) {
        None => None,
        Some((word, rest)) => label_named(label, word, rest),
    }
}

/// A label or a number.
#[tactic(auto, unfolding(crate::specs::CodedOperands::target_at))]
pub fn target_at<'t, 's>(label: u32, tokens: &'t [Token<'s>]) -> Option<Target<'t, 's>>
    ensures { option_map target_view result ≡ target_at label (views tokens.now) }
{
    match word_at(tokens) {
        Some((word, rest)) => label_named(label, word, rest),
        None => match signed_at(tokens) {
            None => None,
            Some((negative, number, rest)) => Some(Target {
                address: whole_of(negative, number),
                labelled: false,
                rest,
            }),
        },
    }
}

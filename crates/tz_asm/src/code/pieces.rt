//! Operands read by the pieces of a row's text, one piece after another.

ghost use Rattle.std.specs.Prelude.{◌≡◌, option_map};
ghost use Rattle.tz_asm.specs.Front.{views};
ghost use Rattle.tz_asm.specs.Pieces.{label_load_read, mark_read, masks_read, pc_at, piece_read, pieces_read};
ghost use Rattle.tz_asm.specs.CodeViews.{progress_view, site_view};
ghost use Rattle.tz_syntax.specs.Rows.{somes};

use crate::code::bits::{aligned_base_of, base_of};
use crate::code::front::{mark_at, word_at};
use crate::code::operands::{
    amount_operand, condition_operand, expanded_operand, label_at, list_operand, masks_of,
    number_operand, register_operand, shift_operand, special_operand, target_at, written_amount,
};
use crate::code::progress::{
    Reading, behind_any_target, behind_doubled, behind_even_target, behind_mark, behind_masks,
    behind_operand, behind_shift,
};
use tz_syntax::{Mark, Piece, Token, spells};

/// Where a statement stands, and what its label stands for.
#[derive(Clone, Copy)]
pub struct Site {
    pub place: u32,
    pub label: u32,
}

/// The name of the program counter.
#[tactic(auto, unfolding(crate::specs::Pieces::pc_at))]
fn pc_at<'t, 's>(tokens: &'t [Token<'s>]) -> Option<&'t [Token<'s>]>
    ensures { option_map (λ rest. views rest.now) result ≡ pc_at (views tokens.now) }
{
    match word_at(tokens) {
        None => None,
        Some((word, rest)) => if spells(word, b"pc") {
            Some(rest)
        } else {
            None
        },
    }
}

/// A name of masks.
#[tactic(auto, unfolding(crate::specs::Pieces::masks_read))]
fn masks_read<'t, 's>(reading: Reading<'t, 's>, i: u8, f: u8) -> Option<Reading<'t, 's>>
    ensures { option_map progress_view result ≡ masks_read i f (progress_view reading.entry) }
{
    match word_at(reading.rest) {
        None => None,
        Some((word, rest)) => behind_masks(reading, (i, f), masks_of(word), rest),
    }
}

/// A mark.
#[tactic(auto, unfolding(crate::specs::Pieces::mark_read))]
fn mark_read<'t, 's>(reading: Reading<'t, 's>, mark: Mark) -> Option<Reading<'t, 's>>
    ensures { option_map progress_view result ≡ mark_read mark (progress_view reading.entry) }
{
    match mark {
        Mark::Gap => Some(reading),
        Mark::Comma => behind_mark(reading, mark_at(reading.rest, b',')),
        Mark::Open => behind_mark(reading, mark_at(reading.rest, b'[')),
        Mark::Close => behind_mark(reading, mark_at(reading.rest, b']')),
        Mark::Back => behind_mark(reading, mark_at(reading.rest, b'!')),
        Mark::Pc => behind_mark(reading, pc_at(reading.rest)),
        Mark::Doubled => behind_doubled(reading, written_amount(reading.rest)),
    }
}

/// A piece.
#[tactic(auto, unfolding(crate::specs::Pieces::piece_read))]
fn piece_read<'t, 's>(reading: Reading<'t, 's>, piece: Piece, site: Site) -> Option<Reading<'t, 's>>
    ensures { option_map progress_view result ≡ piece_read piece (site_view site) (progress_view reading.entry) }
{
    let rest = reading.rest;
    match piece {
        Piece::Mark(mark) => mark_read(reading, mark),
        Piece::Register(a) => behind_operand(reading, a, register_operand(rest)),
        Piece::Number(a) => behind_operand(reading, a, number_operand(rest)),
        Piece::Expanded(a) => behind_operand(reading, a, expanded_operand(rest)),
        Piece::Target(a) => behind_even_target(
            reading,
            a,
            base_of(site.place),
            target_at(site.label, rest),
        ),
        Piece::AlignedTarget(a) => behind_even_target(
            reading,
            a,
            aligned_base_of(site.place),
            target_at(site.label, rest),
        ),
        Piece::List(a) => behind_operand(reading, a, list_operand(rest)),
        Piece::Shift(a, b) => behind_shift(reading, a, b, shift_operand(rest)),
        Piece::Left(a) => behind_operand(reading, a, amount_operand(0, rest)),
        Piece::Right(a) => behind_operand(reading, a, amount_operand(2, rest)),
        Piece::Rotated(a) => behind_operand(reading, a, amount_operand(3, rest)),
        Piece::Special(a) => behind_operand(reading, a, special_operand(rest)),
        Piece::Condition(a) => behind_operand(reading, a, condition_operand(rest)),
        Piece::Letters(_, _) => Some(reading),
        Piece::Masks(a, b) => masks_read(reading, a, b),
    }
}

/// Pieces, one after another.
#[tactic(auto, unfolding(crate::specs::Pieces::pieces_read))]
pub fn pieces_read<'t, 's>(
    reading: Reading<'t, 's>,
    pieces: &[Option<Piece>],
    site: Site,
) -> Option<Reading<'t, 's>>
    ensures { option_map progress_view result ≡ pieces_read (somes pieces.now) (site_view site) (progress_view reading.entry) }
{
    let mut read = reading;
    for piece in pieces {
        if let Some(piece) = *piece {
            match piece_read(read, piece, site) {
                None => return None,
                Some(behind) => read = behind,
            }
        }
    }
    Some(read)
}

/// `rt, label`: a load of the word at a label, which may be odd.
#[tactic(auto, unfolding(crate::specs::Pieces::label_load_read))]
pub fn label_load_read<'t, 's>(reading: Reading<'t, 's>, site: Site) -> Option<Reading<'t, 's>>
    ensures { option_map progress_view result ≡ label_load_read (site_view site) (progress_view reading.entry) }
{
    match behind_operand(reading, 5, register_operand(reading.rest)) {
        None => None,
        Some(register) => match behind_mark(register, mark_at(register.rest, b',')) {
            None => None,
            Some(comma) => {
                let target = label_at(site.label, comma.rest);
                behind_any_target(comma, 6, aligned_base_of(site.place), target)
            }
        },
    }
}

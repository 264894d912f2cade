//! Slots and the parts of codes that they take.

use crate::coding::Coding;
use crate::limit::Limit;

/// A halfword of a code.
#[derive(Clone, Copy)]
pub enum Half {
    First,
    Second,
}

/// Bits `low` to `low + width - 1` of a halfword, which hold bits `shift` to `shift + width - 1` of a
/// number.
#[derive(Clone, Copy)]
pub struct Part {
    pub half: Half,
    pub low: u8,
    pub width: u8,
    pub shift: u8,
}

/// The parts of a field, from the highest bits of its number down.
#[derive(Clone, Copy)]
pub enum Parts {
    Zero,
    One(Part),
    Two(Part, Part),
    Three(Part, Part, Part),
    Four(Part, Part, Part, Part),
    Five(Part, Part, Part, Part, Part),
}

/// Where a field lies and what it may be.
#[derive(Clone, Copy)]
pub struct CodeSlot {
    pub coding: Coding,
    pub limit: Limit,
    pub parts: Parts,
}

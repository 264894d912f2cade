//! What channels of the mover do at the beginning of a step (own).

use tz_model::Channel;

/// A move of a channel that goes.
#[derive(Clone, Copy)]
pub struct Move {
    pub before: Channel,
    pub after: Channel,
    /// The word that it moved, 0 where it moved none.
    pub word: u32,
    /// Whether it pended its interrupt.
    pub pends: bool,
}

/// The moves of a step, one of each channel that goes.
#[derive(Clone, Copy)]
pub struct Moves {
    pub secure: Option<Move>,
    pub nonsecure: Option<Move>,
}

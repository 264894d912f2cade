//! The channels of the mover, a peripheral of boards that have it (own).

/// A channel, which moves words of memory for a side.
#[derive(Clone, Copy)]
pub struct Channel {
    /// Where the next word is read, a multiple of 4.
    pub src: u32,
    /// Where it is written, a multiple of 4.
    pub dst: u32,
    /// How many words are left.
    pub count: u16,
    /// GO 0, DONE 1, ERROR 2, IE 3 and IRQ 15:8.
    pub ctrl: u32,
}

/// The channels of both sides.
#[derive(Clone, Copy)]
pub struct Channels {
    pub secure: Channel,
    pub nonsecure: Channel,
}

//! Where accesses go.

/// Where the bytes of an access are.
#[derive(Clone, Copy)]
pub enum Place {
    /// Regions of the board.
    Memory,
    /// The private peripheral space: the system registers, and what is beside them.
    System,
}

//! What an operation on two words gives.

/// The result of a data operation, and the flags C and V after it.
#[derive(Clone, Copy)]
pub struct Computed {
    pub value: u32,
    pub carry: bool,
    pub overflow: bool,
}

//! The families of instructions.

/// The family of an instruction, by the crate that runs it.
#[derive(Clone, Copy)]
pub enum Family {
    /// Data processing.
    Alu,
    LoadStore,
    Branch,
    System,
}

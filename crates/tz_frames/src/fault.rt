//! What a fault does, as a line of the table of faults has it.

use tz_model::Side;

/// The exceptions that faults and SVC pend. Each but SVCall has a status register of its own.
#[derive(Clone, Copy)]
pub enum FaultException {
    /// With MMFSR of a side.
    MemManage,
    /// With BFSR.
    BusFault,
    /// With UFSR of a side.
    UsageFault,
    /// With HFSR.
    HardFault,
    /// With SFSR.
    SecureFault,
    SVCall,
}

/// The register that gets the address of a fault.
#[derive(Clone, Copy)]
pub enum FaultAddress {
    Unwritten,
    /// Of a side.
    Mmfar(u32),
    Bfar(u32),
    Sfar(u32),
}

/// What a fault sets and pends: bits of the status register of its exception, an address register, and the exception;
/// each of the same side, where it is banked.
#[derive(Clone, Copy)]
pub struct FaultEffect {
    pub status: u32,
    pub address: FaultAddress,
    pub exception: FaultException,
    pub side: Side,
}

//! The bits of the fault status registers, by the manual's names (DDI0553, chapter D1.2: CFSR, HFSR, SFSR). Those of
//! CFSR count within their part: MMFSR, BFSR or UFSR.

// ---- MMFSR, CFSR from bit 0 on

/// An MPU refuses a fetch.
pub const IACCVIOL: u32 = 1 << 0;
/// An MPU refuses an access.
pub const DACCVIOL: u32 = 1 << 1;
/// An MPU refuses to read a word of a frame.
pub const MUNSTKERR: u32 = 1 << 3;
/// An MPU refuses to write a word of a frame.
pub const MSTKERR: u32 = 1 << 4;
/// MMFAR has the address.
pub const MMARVALID: u32 = 1 << 7;
/// All its bits.
pub const MMFSR_BITS: u32 = IACCVIOL | DACCVIOL | MUNSTKERR | MSTKERR | MMARVALID;

// ---- BFSR, CFSR from bit 8 on

/// A fetch fails on the bus.
pub const IBUSERR: u32 = 1 << 0;
/// An access fails on the bus.
pub const PRECISERR: u32 = 1 << 1;
/// A word of a frame can't be read on the bus.
pub const UNSTKERR: u32 = 1 << 3;
/// A word of a frame can't be written on the bus.
pub const STKERR: u32 = 1 << 4;
/// BFAR has the address.
pub const BFARVALID: u32 = 1 << 7;
/// All its bits.
pub const BFSR_BITS: u32 = IBUSERR | PRECISERR | UNSTKERR | STKERR | BFARVALID;

// ---- UFSR, CFSR from bit 16 on

/// A code is no instruction.
pub const UNDEFINSTR: u32 = 1 << 0;
/// Code runs with T of 0.
pub const INVSTATE: u32 = 1 << 1;
/// A value to return by, or a word that it leads to, isn't valid.
pub const INVPC: u32 = 1 << 2;
/// A code is that of a coprocessor that isn't there.
pub const NOCP: u32 = 1 << 3;
/// A stack pointer goes below its limit.
pub const STKOF: u32 = 1 << 4;
/// An access isn't aligned.
pub const UNALIGNED: u32 = 1 << 8;
/// A number is divided by 0.
pub const DIVBYZERO: u32 = 1 << 9;
/// All its bits.
pub const UFSR_BITS: u32 = UNDEFINSTR | INVSTATE | INVPC | NOCP | STKOF | UNALIGNED | DIVBYZERO;

// ---- HFSR

/// A vector can't be read.
pub const VECTTBL: u32 = 1 << 1;
/// An exception becomes HardFault, since it can't be taken itself.
pub const FORCED: u32 = 1 << 30;
/// BKPT runs where no debugger is.
pub const DEBUGEVT: u32 = 1 << 31;
/// All its bits.
pub const HFSR_BITS: u32 = VECTTBL | FORCED | DEBUGEVT;

// ---- SFSR

/// Non-secure code goes on at a Secure address that is no entry point.
pub const INVEP: u32 = 1 << 0;
/// An additional frame doesn't begin with the integrity signature.
pub const INVIS: u32 = 1 << 1;
/// Non-secure code returns by a value that it may not return by.
pub const INVER: u32 = 1 << 2;
/// Attribution refuses an access.
pub const AUVIOL: u32 = 1 << 3;
/// Secure code goes on at a Non-secure address.
pub const INVTRAN: u32 = 1 << 4;
/// SFAR has the address.
pub const SFARVALID: u32 = 1 << 6;
/// All its bits.
pub const SFSR_BITS: u32 = INVEP | INVIS | INVER | AUVIOL | INVTRAN | SFARVALID;

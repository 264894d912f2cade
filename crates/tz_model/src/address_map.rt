//! Ranges of addresses, by their first and last addresses (DDI0553, the system address map, `SecurityCheck`).

// ---- where the default map lets no code run

pub const PERIPHERAL_FIRST: u32 = 0x4000_0000;

pub const PERIPHERAL_LAST: u32 = 0x5FFF_FFFF;
/// Devices, and above them what is the system's.
pub const DEVICE_FIRST: u32 = 0xA000_0000;

// ---- the private peripheral space

pub const PRIVATE_FIRST: u32 = 0xE000_0000;

pub const PRIVATE_LAST: u32 = 0xE00F_FFFF;
/// ITM, DWT and FPB.
pub const ITM_FIRST: u32 = 0xE000_0000;

pub const FPB_LAST: u32 = 0xE000_2FFF;
/// The system control space.
pub const SCS_FIRST: u32 = 0xE000_E000;

pub const SCS_LAST: u32 = 0xE000_EFFF;
/// The registers of the SAU in it, SAU_CTRL to SAU_RLAR.
pub const SAU_FIRST: u32 = 0xE000_EDD0;

pub const SAU_LAST: u32 = 0xE000_EDE0;
/// The alias of the system control space, the Non-secure view.
pub const SCS_NS_FIRST: u32 = 0xE002_E000;

pub const SCS_NS_LAST: u32 = 0xE002_EFFF;
/// TPIU and ETM.
pub const TPIU_FIRST: u32 = 0xE004_0000;

pub const ETM_LAST: u32 = 0xE004_1FFF;

pub const ROM_TABLE_FIRST: u32 = 0xE00F_F000;

pub const ROM_TABLE_LAST: u32 = 0xE00F_FFFF;

// ---- above it

/// Code from here on is Secure, whoever fetches it.
pub const SECURE_CODE_FIRST: u32 = 0xF000_0000;

//! The bits of ICSR, AIRCR and SHCSR by their places; a field has the place of its lowest bit (DDI0553, chapter D1.2).

pub(crate) const ICSR_RETTOBASE: u32 = 11;

pub(crate) const ICSR_VECTPENDING: u32 = 12;

pub(crate) const ICSR_ISRPENDING: u32 = 22;

pub(crate) const ICSR_PENDSTCLR: u32 = 25;

pub(crate) const ICSR_PENDSTSET: u32 = 26;

pub(crate) const ICSR_PENDSVCLR: u32 = 27;

pub(crate) const ICSR_PENDSVSET: u32 = 28;

pub(crate) const ICSR_PENDNMICLR: u32 = 30;

pub(crate) const ICSR_PENDNMISET: u32 = 31;

pub(crate) const AIRCR_PRIGROUP: u32 = 8;

pub(crate) const AIRCR_BFHFNMINS: u32 = 13;

pub(crate) const AIRCR_PRIS: u32 = 14;

pub(crate) const AIRCR_VECTKEY: u32 = 16;
/// The key that a write has to have.
pub(crate) const VECTKEY: u32 = 0x05FA;
/// What is read in its place.
pub(crate) const VECTKEYSTAT: u32 = 0xFA05;

pub(crate) const SHCSR_MEMFAULTACT: u32 = 0;

pub(crate) const SHCSR_BUSFAULTACT: u32 = 1;

pub(crate) const SHCSR_HARDFAULTACT: u32 = 2;

pub(crate) const SHCSR_USGFAULTACT: u32 = 3;

pub(crate) const SHCSR_SECUREFAULTACT: u32 = 4;

pub(crate) const SHCSR_NMIACT: u32 = 5;

pub(crate) const SHCSR_SVCALLACT: u32 = 7;

pub(crate) const SHCSR_PENDSVACT: u32 = 10;

pub(crate) const SHCSR_SYSTICKACT: u32 = 11;

pub(crate) const SHCSR_USGFAULTPENDED: u32 = 12;

pub(crate) const SHCSR_MEMFAULTPENDED: u32 = 13;

pub(crate) const SHCSR_BUSFAULTPENDED: u32 = 14;

pub(crate) const SHCSR_SVCALLPENDED: u32 = 15;

pub(crate) const SHCSR_MEMFAULTENA: u32 = 16;

pub(crate) const SHCSR_BUSFAULTENA: u32 = 17;

pub(crate) const SHCSR_USGFAULTENA: u32 = 18;

pub(crate) const SHCSR_SECUREFAULTENA: u32 = 19;

pub(crate) const SHCSR_SECUREFAULTPENDED: u32 = 20;

pub(crate) const SHCSR_HARDFAULTPENDED: u32 = 21;

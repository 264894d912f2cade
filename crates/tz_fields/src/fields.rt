//! The fields of a state that have a word of their own, but for slots and memory; and the registers of channels, whose
//! words stand behind those of slots.
//!
//! A state as words is a list of such fields in an order; the word of each tells what it holds. `fields` of
//! `StateWords` has the order, `word_of` reads a field and `with_word` writes it.

use tz_model::Side;
use tz_state::MoverRegister;

/// What stands once in a core beside the fields of the units: whose code runs, its registers, the monitor.
#[derive(Clone, Copy)]
pub enum RunningField {
    Side,
    Locked,
    Sleep,
    Event,
    /// R0 to R12.
    General(u8),
    Lr,
    Pc,
    Xpsr,
    /// In bytes, 0 where the monitor holds nothing.
    MonitorSize,
    MonitorAddress,
}

/// What each side has its own of.
#[derive(Clone, Copy)]
pub enum BankedField {
    Msp,
    Psp,
    Msplim,
    Psplim,
    Primask,
    Basepri,
    Faultmask,
    Control,
    Vtor,
    Ccr,
    Ufsr,
    Mmfsr,
    Mmfar,
    Prigroup,
    MpuCtrl,
    MpuRnr,
    Mair0,
    Mair1,
    /// RBAR and RLAR of a region, whatever RNR names.
    MpuRbar(u8),
    MpuRlar(u8),
    SystCsr,
    SystRvr,
    SystCvr,
}

/// What both sides share: the SAU, the fault registers that aren't banked, the bits of AIRCR.
#[derive(Clone, Copy)]
pub enum SharedField {
    SauCtrl,
    SauRnr,
    /// RBAR and RLAR of a region, whatever RNR names.
    SauRbar(u8),
    SauRlar(u8),
    Sfsr,
    Sfar,
    Bfsr,
    Bfar,
    Hfsr,
    Pris,
    Bfhfnmins,
}

/// A field with a word.
#[derive(Clone, Copy)]
pub enum Field {
    Running(RunningField),
    Banked(Side, BankedField),
    Shared(SharedField),
}

/// A register of the channel of a side, of a board with a mover.
#[derive(Clone, Copy)]
pub struct ChannelField {
    pub side: Side,
    pub register: MoverRegister,
}

//! The bits of CTRL, RBAR and RLAR of the SAU and of the MPUs, each as the word that has it alone (DDI0553, SAU_CTRL,
//! SAU_RLAR, MPU_CTRL, MPU_RBAR, MPU_RLAR).

// ---- SAU_CTRL

pub const SAU_CTRL_ALLNS: u32 = 1 << 1;

// ---- SAU_RLAR

pub const SAU_RLAR_ENABLE: u32 = 1 << 0;

pub const SAU_RLAR_NSC: u32 = 1 << 1;

// ---- MPU_CTRL

pub const MPU_CTRL_HFNMIENA: u32 = 1 << 1;

pub const MPU_CTRL_PRIVDEFENA: u32 = 1 << 2;

// ---- MPU_RBAR

/// AP, bit 0: unprivileged code too.
pub const MPU_RBAR_AP_0: u32 = 1 << 1;
/// AP, bit 1: reads alone.
pub const MPU_RBAR_AP_1: u32 = 1 << 2;

// ---- MPU_RLAR

pub const MPU_RLAR_PXN: u32 = 1 << 4;

//! The registers of an MPU by their addresses.

ghost use Rattle.std.specs.Prelude.{◌≡◌};
ghost use Rattle.tz_state.specs.UnitRegisters.{mpu_register};

use tz_state::MpuRegister;

/// The register at an address, or none.
pub fn register_at(addr: u32) -> Option<MpuRegister>
    ensures { result ≡ mpu_register addr }
{
    match addr {
        0xe000_ed90 => Some(MpuRegister::Type),
        0xe000_ed94 => Some(MpuRegister::Ctrl),
        0xe000_ed98 => Some(MpuRegister::Rnr),
        0xe000_ed9c => Some(MpuRegister::Rbar(0)),
        0xe000_eda0 => Some(MpuRegister::Rlar(0)),
        0xe000_eda4 => Some(MpuRegister::Rbar(1)),
        0xe000_eda8 => Some(MpuRegister::Rlar(1)),
        0xe000_edac => Some(MpuRegister::Rbar(2)),
        0xe000_edb0 => Some(MpuRegister::Rlar(2)),
        0xe000_edb4 => Some(MpuRegister::Rbar(3)),
        0xe000_edb8 => Some(MpuRegister::Rlar(3)),
        0xe000_edc0 => Some(MpuRegister::Mair0),
        0xe000_edc4 => Some(MpuRegister::Mair1),
        _ => None,
    }
}

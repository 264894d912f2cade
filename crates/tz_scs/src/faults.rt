//! CFSR, HFSR, MMFAR, BFAR, SFSR and SFAR (DDI0553, chapter D1.2).

ghost use Rattle.std.specs.Prelude.{◌≡◌, ◌%◌, ◌/◌, ◌^◌};
ghost use Rattle.tz_state.specs.FaultRegisters.{own_status, with_own_status, if_bus, if_secure, cfsr_of, fault_value, cleared, with_bus_seen, with_security_seen, cfsr_cleared, fault_written};

use crate::views::{sees_bus, sees_secure};
use tz_model::Side;
use tz_regs::{BusStatus, SecurityStatus, SideStatus, Status};
use tz_state::FaultRegister;

/// The registers of a side.
pub(crate) fn own_status(side: Side, status: &Status) -> &SideStatus
    ensures { result.now ≡ own_status side status.now }
{
    match side {
        Side::Secure => &status.s,
        Side::NonSecure => &status.ns,
    }
}

/// Replaces the registers of a side.
pub(crate) fn put_own_status(status: &mut Status, side: Side, own: SideStatus)
    ensures { status.new ≡ with_own_status side status.old own }
{
    match side {
        Side::Secure => status.s = own,
        Side::NonSecure => status.ns = own,
    }
}

/// A word that the view shows with BusFault.
fn if_bus(side: Side, bfhfnmins: bool, value: u32) -> u32
    ensures { result ≡ if_bus side bfhfnmins value }
{
    if sees_bus(side, bfhfnmins) { value } else { 0 }
}

/// A word that Secure code alone sees.
fn if_secure(side: Side, value: u32) -> u32
    ensures { result ≡ if_secure side value }
{
    if sees_secure(side) { value } else { 0 }
}

/// CFSR of its three parts.
fn cfsr_of(mmfsr: u32, bfsr: u32, ufsr: u32) -> u32
    ensures { result ≡ cfsr_of mmfsr bfsr ufsr }
{
    mmfsr % 0x100 | bfsr % 0x100 * 0x100 | ufsr % 0x1_0000 * 0x1_0000
}

/// What a register shows to a side, while AIRCR.BFHFNMINS is as told.
pub(crate) fn fault_value(
    status: &Status,
    side: Side,
    bfhfnmins: bool,
    register: FaultRegister,
) -> u32
    ensures { result ≡ fault_value side bfhfnmins status.now register }
{
    let own = own_status(side, status);
    match register {
        FaultRegister::Cfsr => cfsr_of(
            own.mmfsr,
            if_bus(side, bfhfnmins, status.bus.bfsr),
            own.ufsr,
        ),
        FaultRegister::Hfsr => if_bus(side, bfhfnmins, status.bus.hfsr),
        FaultRegister::Mmfar => own.mmfar,
        FaultRegister::Bfar => if_bus(side, bfhfnmins, status.bus.bfar),
        FaultRegister::Sfsr => if_secure(side, status.security.sfsr),
        FaultRegister::Sfar => if_secure(side, status.security.sfar),
    }
}

/// A word in which ones clear.
fn cleared(old: u32, ones: u32) -> u32
    ensures { result ≡ cleared old ones }
{
    old & !ones
}

/// Replaces the registers of BusFault and HardFault, where the view has them.
fn put_bus(status: &mut Status, side: Side, bfhfnmins: bool, bus: BusStatus)
    ensures { status.new ≡ with_bus_seen side bfhfnmins status.old bus }
{
    if sees_bus(side, bfhfnmins) {
        status.bus = bus;
    }
}

/// Replaces the registers of SecureFault, where the view has them.
fn put_security(status: &mut Status, side: Side, security: SecurityStatus)
    ensures { status.new ≡ with_security_seen side status.old security }
{
    if sees_secure(side) {
        status.security = security;
    }
}

/// MMFSR and UFSR after a write of CFSR.
fn cfsr_cleared(own: SideStatus, ones: u32) -> SideStatus
    ensures { result ≡ cfsr_cleared own ones }
{
    SideStatus {
        mmfsr: cleared(own.mmfsr, ones % 0x100),
        ufsr: cleared(own.ufsr, ones / 0x1_0000),
        ..own
    }
}

/// BFSR after a write of CFSR.
fn bfsr_cleared(bus: BusStatus, ones: u32) -> BusStatus
    ensures { result ≡ record bus { bfsr = cleared bus.bfsr (ones / 2 ^ 8 % 2 ^ 8) } }
{
    BusStatus {
        bfsr: cleared(bus.bfsr, ones / 0x100 % 0x100),
        ..bus
    }
}

/// Writes a register by a side, while AIRCR.BFHFNMINS is as told.
pub(crate) fn write_fault(
    status: &mut Status,
    side: Side,
    bfhfnmins: bool,
    register: FaultRegister,
    value: u32,
)
    ensures { status.new ≡ fault_written side bfhfnmins status.old register value }
{
    let mut own = *own_status(side, status);
    let mut bus = status.bus;
    let mut security = status.security;
    match register {
        FaultRegister::Cfsr => {
            put_own_status(status, side, cfsr_cleared(own, value));
            put_bus(status, side, bfhfnmins, bfsr_cleared(bus, value));
        }
        FaultRegister::Hfsr => {
            bus.hfsr = cleared(bus.hfsr, value);
            put_bus(status, side, bfhfnmins, bus);
        }
        FaultRegister::Mmfar => {
            own.mmfar = value;
            put_own_status(status, side, own);
        }
        FaultRegister::Bfar => {
            bus.bfar = value;
            put_bus(status, side, bfhfnmins, bus);
        }
        FaultRegister::Sfsr => {
            security.sfsr = cleared(security.sfsr, value);
            put_security(status, side, security);
        }
        FaultRegister::Sfar => {
            security.sfar = value;
            put_security(status, side, security);
        }
    }
}

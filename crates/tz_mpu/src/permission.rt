//! What a region and the default map permit.

ghost use Rattle.std.specs.Prelude.{◌≡◌, true, false};
ghost use Rattle.tz_state.specs.Protection.{is_executable, default_permits, may_read, may_write, has_pxn, may_run, region_permits};

use tz_model::Profile;
use tz_model::address_map::{DEVICE_FIRST, PERIPHERAL_FIRST, PERIPHERAL_LAST};
use tz_state::unit_bits::{MPU_RBAR_AP_0, MPU_RBAR_AP_1, MPU_RLAR_PXN};
use tz_state::{Bounds, Kind};

/// What is permitted at an address.
#[derive(Clone, Copy)]
pub struct Permitted {
    pub read: bool,
    pub write: bool,
    pub execute: bool,
}

/// Whether the default map lets code run at an address.
fn is_executable(addr: u32) -> bool
    ensures { result ≡ is_executable addr }
{
    !((addr >= PERIPHERAL_FIRST && addr <= PERIPHERAL_LAST) || addr >= DEVICE_FIRST)
}

/// Whether the default map permits an access: all but fetches from where devices are.
pub fn default_permits(kind: Kind, addr: u32) -> bool
    ensures { result ≡ default_permits kind addr }
{
    match kind {
        Kind::Read => true,
        Kind::Write => true,
        Kind::Fetch => is_executable(addr),
    }
}

/// RBAR.AP, bit 0: unprivileged code too.
fn may_read(bounds: &Bounds, privileged: bool) -> bool
    ensures { result ≡ may_read bounds.now privileged }
{
    privileged || bounds.rbar / MPU_RBAR_AP_0 % 2 == 1
}

/// RBAR.AP, bit 1: reads alone.
fn may_write(bounds: &Bounds, privileged: bool) -> bool
    ensures { result ≡ may_write bounds.now privileged }
{
    may_read(bounds, privileged) && bounds.rbar / MPU_RBAR_AP_1 % 2 == 0
}

/// Whether a region keeps privileged code from running: RLAR.PXN, which the profile `V80` doesn't have.
pub fn has_pxn(profile: Profile, bounds: &Bounds) -> bool
    ensures { result ≡ has_pxn profile bounds.now }
{
    match profile {
        Profile::V80 => false,
        Profile::V81 => bounds.rlar / MPU_RLAR_PXN % 2 == 1,
    }
}

/// RBAR.XN: no code runs here; RLAR.PXN: no privileged code.
fn may_run(profile: Profile, bounds: &Bounds, privileged: bool) -> bool
    ensures { result ≡ may_run profile bounds.now privileged }
{
    may_read(bounds, privileged)
        && bounds.rbar % 2 == 0
        && !(privileged && has_pxn(profile, bounds))
}

/// Whether a region permits an access.
pub fn region_permits(profile: Profile, bounds: &Bounds, kind: Kind, privileged: bool) -> bool
    ensures { result ≡ region_permits profile bounds.now kind privileged }
{
    match kind {
        Kind::Read => may_read(bounds, privileged),
        Kind::Write => may_write(bounds, privileged),
        Kind::Fetch => may_run(profile, bounds, privileged),
    }
}

/// Where nothing is permitted.
pub fn nothing() -> Permitted
    ensures { result ≡ record { read = false; write = false; execute = false } }
{
    Permitted {
        read: false,
        write: false,
        execute: false,
    }
}

/// All that the default map permits at an address.
pub fn permitted_by_default(addr: u32) -> Permitted
    ensures { result ≡ record { read = true; write = true; execute = is_executable addr } }
{
    Permitted {
        read: true,
        write: true,
        execute: is_executable(addr),
    }
}

/// All that a region permits.
pub fn permitted_by_region(profile: Profile, bounds: &Bounds, privileged: bool) -> Permitted
    ensures { result ≡ record { read = may_read bounds.now privileged; write = may_write bounds.now privileged; execute = may_run profile bounds.now privileged } }
{
    Permitted {
        read: may_read(bounds, privileged),
        write: may_write(bounds, privileged),
        execute: may_run(profile, bounds, privileged),
    }
}

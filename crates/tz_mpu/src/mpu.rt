//! One MPU.

ghost use Rattle.std.specs.Prelude.{◌≡◌, ◌≤◌, ◌<◌, ◌&&◌, None, Some, MatchOption, MatchResult, false, length, replicate, slice_set};
ghost use Rattle.tz_state.specs.Difference.{mpu_differs};
ghost use Rattle.tz_state.specs.declared.request.Kind.TheVariants.{Read, Write, Fetch};
ghost use Rattle.tz_state.specs.Protection.{permits, permission, permission_by, mpu_region, is_mpu_on, has_privileged_default, default_permits};
ghost use Rattle.tz_state.specs.Regions.{no_bounds, holding};
ghost use Rattle.tz_state.specs.UnitRegisters.{bounds_at, selected, mpu_register, mpu_value, mpu_read, with_mpu_value, rlar_bits, reset_mpu};
ghost use Rattle.tz_mpu.specs.Units.{with_registers, with_written};

use crate::holders::{Holders, find_holders};
use crate::permission::{
    Permitted, default_permits, nothing, permitted_by_default, permitted_by_region, region_permits,
};
use crate::register::register_at;
use arrayvec::ArrayVec;
use std::marker::Model;
use thiserror::Error;
use tz_model::Profile;
use tz_state::unit_bits::{MPU_CTRL_HFNMIENA, MPU_CTRL_PRIVDEFENA};
use tz_state::{Bounds, Kind, MpuRegister};

/// The MPU refuses an access.
#[derive(Clone, Copy, Debug, Error)]
#[error("the MPU refuses the access")]
pub struct MpuFault;

/// The MPU of a state: CTRL, RNR, both MAIRs and RBAR and RLAR of each region; and whether one was written since
/// that was last asked.
#[derive(Drop)]
pub struct Mpu {
    profile: Profile,
    ctrl: u32,
    rnr: u32,
    mair0: u32,
    mair1: u32,
    regions: ArrayVec<Bounds, 16>,
    changed: bool,
}

impl Model for Mpu {
    ghost use Rattle.tz_mpu.specs.Units.{MpuValue};

    ghost Value = { MpuValue };

    ghost view = { λ m. record {
      profile = m.profile;
      mpu = record { ctrl = m.ctrl; rnr = m.rnr; mair0 = m.mair0; mair1 = m.mair1; regions = m.regions.items };
      changed = m.changed;
    } };
}

/// The bits of RLAR: PXN only on the profile that has it.
fn rlar_bits(profile: Profile, value: u32) -> u32
    ensures { result ≡ rlar_bits profile value }
{
    match profile {
        Profile::V80 => value / 32 * 32 + value % 16,
        Profile::V81 => value,
    }
}

/// Regions that aren't enabled.
fn unset(count: u8) -> ArrayVec<Bounds, 16>
    requires { count ≤ 16 }
    ensures { result.items ≡ replicate count no_bounds }
{
    let mut regions = ArrayVec::new();
    for _ in 0..count {
        regions.push(Bounds { rbar: 0, rlar: 0 });
    }
    regions
}

/// Makes regions as others are. Those of one board are as many, and are copied where they stand.
fn copy_bounds(bounds: &mut ArrayVec<Bounds, 16>, other: &ArrayVec<Bounds, 16>)
    ensures { bounds.new.items ≡ other.now.items }
{
    if bounds.len() == other.len() {
        bounds.as_mut_slice().copy_from_slice(other.as_slice());
    } else {
        bounds.clear();
        let _fits = bounds.try_extend_from_slice(other.as_slice());
    }
}

impl Mpu {
    /// An MPU with so many regions, at most 16: off, with zeros in all registers.
    #[tactic(auto, unfolding(tz_state::specs::UnitRegisters::reset_mpu))]
    pub fn new(regions: u8, profile: Profile) -> Mpu
        requires { regions ≤ 16 }
        ensures { result ≡ record { profile = profile; mpu = reset_mpu regions; changed = false } }
    {
        Mpu {
            profile,
            ctrl: 0,
            rnr: 0,
            mair0: 0,
            mair1: 0,
            regions: unset(regions),
            changed: false,
        }
    }

    /// CTRL.ENABLE, and at a negative execution priority CTRL.HFNMIENA too.
    fn is_on(&self, negative: bool) -> bool
        ensures { result ≡ is_mpu_on self.now.mpu negative }
    {
        self.ctrl % 2 == 1 && (self.ctrl / MPU_CTRL_HFNMIENA % 2 == 1 || !negative)
    }

    /// The default map, where the MPU leaves it to privileged code (CTRL.PRIVDEFENA).
    fn lets_default(&self, addr: u32, kind: Kind, privileged: bool) -> bool
        ensures { result ≡ (privileged && has_privileged_default self.now.mpu && default_permits kind addr) }
    {
        privileged && self.ctrl / MPU_CTRL_PRIVDEFENA % 2 == 1 && default_permits(kind, addr)
    }

    /// What the regions of an MPU that is on permit.
    fn check_regions(&self, addr: u32, kind: Kind, privileged: bool) -> Result<Option<u8>, MpuFault>
        ensures { MatchResult result
            (λ region. permission_by self.now.profile self.now.mpu kind privileged addr (holding 0 self.now.mpu.regions addr) ≡ Some region)
            (λ _. permission_by self.now.profile self.now.mpu kind privileged addr (holding 0 self.now.mpu.regions addr) ≡ None) }
    {
        match find_holders(&self.regions, addr) {
            Holders::Nothing => {
                if self.lets_default(addr, kind, privileged) {
                    return Ok(None);
                }
            }
            Holders::One(index, bounds) => {
                if region_permits(self.profile, &bounds, kind, privileged) {
                    return Ok(Some(index));
                }
            }
            Holders::Several => (),
        }
        Err(MpuFault)
    }

    /// Whether the MPU permits a byte of an access (DDI0553, `MPUCheck`), and by which region; none is the
    /// default map. `negative` says that the execution priority is below 0.
    ///
    /// # Errors
    ///
    /// `MpuFault` where it doesn't: no region holds the address and the default map doesn't count, the region
    /// doesn't permit the access, or several regions hold the address.
    #[tactic(auto, unfolding(tz_state::specs::Protection::permission))]
    pub fn check(
        &self,
        addr: u32,
        kind: Kind,
        privileged: bool,
        negative: bool,
    ) -> Result<Option<u8>, MpuFault>
        ensures { MatchResult result
            (λ region. permission self.now.profile self.now.mpu addr kind privileged negative ≡ Some region)
            (λ _. permission self.now.profile self.now.mpu addr kind privileged negative ≡ None) }
    {
        if self.is_on(negative) {
            return self.check_regions(addr, kind, privileged);
        }
        if default_permits(kind, addr) {
            return Ok(None);
        }
        Err(MpuFault)
    }

    /// All that the MPU permits at a byte, as `check` tells it of each kind of access: the regions are looked
    /// through once.
    #[tactic(auto, unfolding(tz_state::specs::Protection::permission))]
    pub fn permitted(&self, addr: u32, privileged: bool, negative: bool) -> Permitted
        ensures read { result.read ≡ permits self.now.profile self.now.mpu addr Read privileged negative }
        ensures write { result.write ≡ permits self.now.profile self.now.mpu addr Write privileged negative }
        ensures execute { result.execute ≡ permits self.now.profile self.now.mpu addr Fetch privileged negative }
    {
        if !self.is_on(negative) {
            return permitted_by_default(addr);
        }
        match find_holders(&self.regions, addr) {
            Holders::Nothing => {
                if privileged && self.ctrl / MPU_CTRL_PRIVDEFENA % 2 == 1 {
                    permitted_by_default(addr)
                } else {
                    nothing()
                }
            }
            Holders::One(_, bounds) => permitted_by_region(self.profile, &bounds, privileged),
            Holders::Several => nothing(),
        }
    }

    /// The one enabled region that holds an address, where the MPU is on; what TT tells of it.
    #[tactic(auto, unfolding(tz_state::specs::Protection::mpu_region))]
    pub fn examine(&self, addr: u32, negative: bool) -> Option<u8>
        ensures { result ≡ mpu_region self.now.mpu addr negative }
    {
        if !self.is_on(negative) {
            return None;
        }
        match find_holders(&self.regions, addr) {
            Holders::One(index, _) => Some(index),
            _ => None,
        }
    }

    /// RBAR and RLAR of a region, or none where there is no such region.
    pub fn region(&self, index: u8) -> Option<(u32, u32)>
        ensures { MatchOption result (length self.now.mpu.regions ≤ index)
            (λ pair. (index < length self.now.mpu.regions)
            × (bounds_at self.now.mpu.regions index ≡ record { rbar = pair.0; rlar = pair.1 })) }
    {
        let bounds = self.regions.get(usize::from(index))?;
        Some((bounds.rbar, bounds.rlar))
    }

    /// The number of the region that RNR and an alias select.
    fn selected(&self, alias: u8) -> usize
        ensures { result ≡ selected self.now.mpu alias }
    {
        if alias == 0 {
            self.rnr as usize
        } else {
            (self.rnr / 4 * 4) as usize + usize::from(alias)
        }
    }

    /// The registers of the region that RNR and an alias select, or zeros where there is none.
    fn selected_bounds(&self, alias: u8) -> Bounds
        ensures { result ≡ bounds_at self.now.mpu.regions (selected self.now.mpu alias) }
    {
        match self.regions.get(self.selected(alias)) {
            Some(bounds) => *bounds,
            None => Bounds { rbar: 0, rlar: 0 },
        }
    }

    /// The value of a register by its name.
    pub fn value(&self, register: MpuRegister) -> u32
        ensures { result ≡ mpu_value self.now.mpu register }
    {
        match register {
            MpuRegister::Type => self.regions.len() as u32 * 256,
            MpuRegister::Ctrl => self.ctrl,
            MpuRegister::Rnr => self.rnr,
            MpuRegister::Rbar(alias) => self.selected_bounds(alias).rbar,
            MpuRegister::Rlar(alias) => self.selected_bounds(alias).rlar,
            MpuRegister::Mair0 => self.mair0,
            MpuRegister::Mair1 => self.mair1,
        }
    }

    /// The register at an address (DDI0553, chapter D1.2), and 0 where there is none.
    pub fn read(&self, addr: u32) -> u32
        ensures { result ≡ mpu_read self.now.mpu (mpu_register addr) }
    {
        match register_at(addr) {
            None => 0,
            Some(register) => self.value(register),
        }
    }

    /// Replaces the registers of the region that RNR and an alias select, if there is one.
    fn replace_selected(&mut self, alias: u8, bounds: Bounds)
        ensures { self.new ≡ record self.old { mpu = record self.old.mpu { regions = slice_set self.old.mpu.regions (selected self.old.mpu alias) bounds } } }
    {
        let index = self.selected(alias);
        if index < self.regions.len() {
            self.regions[index] = bounds;
        }
    }

    /// Whether a register was written since this was last asked, or since the MPU was made: by its name, at its
    /// address, or as those of another MPU.
    pub fn take_changed(&mut self) -> bool
        ensures told { result ≡ self.old.changed }
        ensures taken { self.new ≡ record self.old { changed = false } }
    {
        let changed = self.changed;
        self.changed = false;
        changed
    }

    /// Writes a register by its name: each keeps the bits that it has, TYPE none.
    pub fn set(&mut self, register: MpuRegister, value: u32)
        ensures { self.new ≡ with_registers self.old (with_mpu_value self.old.profile self.old.mpu register value) }
    {
        match register {
            MpuRegister::Type => (),
            MpuRegister::Ctrl => self.ctrl = value % 8,
            MpuRegister::Rnr => self.rnr = value % 256,
            MpuRegister::Rbar(alias) => {
                let bounds = self.selected_bounds(alias);
                self.replace_selected(
                    alias,
                    Bounds {
                        rbar: value,
                        ..bounds
                    },
                );
            }
            MpuRegister::Rlar(alias) => {
                let bounds = self.selected_bounds(alias);
                let rlar = rlar_bits(self.profile, value);
                self.replace_selected(alias, Bounds { rlar, ..bounds });
            }
            MpuRegister::Mair0 => self.mair0 = value,
            MpuRegister::Mair1 => self.mair1 = value,
        }
        self.changed = true;
    }

    /// Writes the register at an address, if there is one: each keeps the bits that it has, TYPE none.
    pub fn write(&mut self, addr: u32, value: u32)
        ensures { self.new ≡ with_written self.old (mpu_register addr) value }
    {
        if let Some(register) = register_at(addr) {
            self.set(register, value);
        }
    }

    /// Makes the registers as those of another MPU are. The profile stays. No memory is taken.
    pub fn copy_registers(&mut self, other: &Mpu)
        ensures { self.new ≡ with_registers self.old other.now.mpu }
    {
        self.ctrl = other.ctrl;
        self.rnr = other.rnr;
        self.mair0 = other.mair0;
        self.mair1 = other.mair1;
        copy_bounds(&mut self.regions, &other.regions);
        self.changed = true;
    }

    /// Whether the registers of two MPUs differ.
    #[tactic(auto, unfolding(tz_state::specs::Difference::mpu_differs))]
    pub fn differs(&self, other: &Mpu) -> bool
        ensures { result ≡ mpu_differs self.now.mpu other.now.mpu }
    {
        !(self.ctrl == other.ctrl
            && self.rnr == other.rnr
            && self.mair0 == other.mair0
            && self.mair1 == other.mair1
            && self.regions.as_slice() == other.regions.as_slice())
    }
}

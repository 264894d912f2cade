//! The SAU's registers by their addresses (DDI0553, chapter D1.2).

ghost use Rattle.std.specs.Prelude.{◌≡◌, MatchOption, ◌≤◌, ◌<◌, length, slice_set};
ghost use Rattle.tz_state.specs.UnitRegisters.{bounds_at, sau_register, sau_value, with_sau_value, sau_read};
ghost use Rattle.tz_sau.specs.Unit.{with_registers, with_written};

use crate::unit::Sau;
use tz_state::{Bounds, SauRegister};

/// The register at an address.
fn register_at(addr: u32) -> Option<SauRegister>
    ensures { result ≡ sau_register addr }
{
    match addr {
        0xe000_edd0 => Some(SauRegister::Ctrl),
        0xe000_edd4 => Some(SauRegister::Type),
        0xe000_edd8 => Some(SauRegister::Rnr),
        0xe000_eddc => Some(SauRegister::Rbar),
        0xe000_ede0 => Some(SauRegister::Rlar),
        _ => None,
    }
}

impl Sau {
    /// RBAR and RLAR of a region by its number; none where there is no such region.
    pub fn region(&self, index: u8) -> Option<(u32, u32)>
        ensures { MatchOption result (length self.now.sau.regions ≤ index)
            (λ pair. (index < length self.now.sau.regions) × (bounds_at self.now.sau.regions index ≡ record { rbar = pair.0; rlar = pair.1 })) }
    {
        let bounds = self.bounds.get(index as usize)?;
        Some((bounds.rbar, bounds.rlar))
    }

    /// The value of a register by its name; RBAR and RLAR are zero where RNR names no region.
    pub fn value(&self, register: SauRegister) -> u32
        ensures { result ≡ sau_value self.now.sau register }
    {
        match register {
            SauRegister::Ctrl => self.ctrl,
            SauRegister::Type => self.bounds.len() as u32,
            SauRegister::Rnr => self.rnr,
            SauRegister::Rbar => self.selected().rbar,
            SauRegister::Rlar => self.selected().rlar,
        }
    }

    /// The register at an address; one that isn't there reads zero.
    pub fn read(&self, addr: u32) -> u32
        ensures { result ≡ sau_read self.now.sau (sau_register addr) }
    {
        match register_at(addr) {
            None => 0,
            Some(register) => self.value(register),
        }
    }

    /// The region that RNR names.
    fn selected(&self) -> Bounds
        ensures { result ≡ bounds_at self.now.sau.regions self.now.sau.rnr }
    {
        match self.bounds.get(self.rnr as usize) {
            None => Bounds { rbar: 0, rlar: 0 },
            Some(bounds) => *bounds,
        }
    }

    /// Replaces the region that RNR names, where there is one.
    fn replace_selected(&mut self, bounds: Bounds)
        ensures { self.new ≡ record self.old { sau = record self.old.sau { regions = slice_set self.old.sau.regions self.old.sau.rnr bounds } } }
    {
        let index = self.rnr as usize;
        if index < self.bounds.len() {
            self.bounds[index] = bounds;
        }
    }

    /// Writes a register by its name: each keeps the bits that it has, TYPE none. RBAR and RLAR take no write
    /// where RNR names no region.
    pub fn set(&mut self, register: SauRegister, value: u32)
        ensures { self.new ≡ with_registers self.old (with_sau_value self.old.sau register value) }
    {
        match register {
            SauRegister::Ctrl => self.ctrl = value % 4,
            SauRegister::Type => {}
            SauRegister::Rnr => self.rnr = value % 256,
            SauRegister::Rbar => {
                let bounds = self.selected();
                self.replace_selected(Bounds {
                    rbar: value / 32 * 32,
                    rlar: bounds.rlar,
                });
            }
            SauRegister::Rlar => {
                let bounds = self.selected();
                self.replace_selected(Bounds {
                    rbar: bounds.rbar,
                    rlar: value / 32 * 32 + value % 4,
                });
            }
        }
        self.changed = true;
    }

    /// Writes the register at an address; one that isn't there takes no write.
    pub fn write(&mut self, addr: u32, value: u32)
        ensures { self.new ≡ with_written self.old (sau_register addr) value }
    {
        if let Some(register) = register_at(addr) {
            self.set(register, value);
        }
    }
}

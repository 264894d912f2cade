//! The exclusive monitor: one address and size, or nothing.

ghost use Rattle.std.specs.Prelude.{◌≡◌, MatchOption, Some, None};
ghost use Rattle.tz_state.specs.State.{is_held, with_monitor};

use crate::bus::Bus;
use tz_model::Size;
use tz_state::Exclusive;

/// Whether the monitor holds an address and a size.
fn is_held(monitor: &Option<Exclusive>, addr: u32, size: Size) -> bool
    ensures { result ≡ is_held monitor.now (record { addr = addr; size = size }) }
{
    match monitor {
        None => false,
        Some(held) => held.addr == addr && held.size == size,
    }
}

impl Bus {
    /// The monitor holds this address and size.
    pub fn monitor_set(&mut self, addr: u32, size: Size)
        ensures { self.new.state ≡ with_monitor self.old.state (Some (record { addr = addr; size = size })) }
    {
        self.monitor = Some(Exclusive { addr, size });
    }

    /// Whether the monitor holds this address and size; it holds nothing after.
    pub fn monitor_take(&mut self, addr: u32, size: Size) -> bool
        ensures held { result ≡ is_held self.old.state.monitor (record { addr = addr; size = size }) }
        ensures after { self.new.state ≡ with_monitor self.old.state None }
    {
        let held = is_held(&self.monitor, addr, size);
        self.monitor_clear();
        held
    }

    /// The monitor holds nothing.
    pub fn monitor_clear(&mut self)
        ensures { self.new.state ≡ with_monitor self.old.state None }
    {
        self.monitor = None;
    }

    /// What the monitor holds.
    pub fn monitor(&self) -> Option<(u32, Size)>
        ensures { MatchOption result (self.now.state.monitor ≡ None) (λ e. self.now.state.monitor ≡ Some (record { addr = e.0; size = e.1 })) }
    {
        let held = self.monitor?;
        Some((held.addr, held.size))
    }
}

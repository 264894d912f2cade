//! A double of frames, for tests: a table of words, with an address whose accesses fail.

ghost use Rattle.std.specs.Prelude.{◌≡◌, ◌≤◌, ◌+◌, ◌*◌, length};
ghost use Rattle.tz_model.specs.Words.{wrap};

use crate::{TableEntry, TablePort};
use tz_frames::Frames;
use tz_model::{Fault, Port, Side, Size};

/// Frames onto a table; whoever asks, each look is answered as the table port answers it.
#[derive(Drop)]
pub struct TableFrames {
    pub port: TablePort,
    pub vtor_s: u32,
    pub vtor_ns: u32,
}

impl TableFrames {
    /// Frames onto these words, whose looks at one address fail, with these vector tables, and with room for
    /// as many stores as there are left of 32.
    pub fn new(table: &[TableEntry], failing: Option<u32>, vtor_s: u32, vtor_ns: u32) -> TableFrames
        requires { length table.now ≤ 16 }
        ensures entries { result.port.entries.items ≡ table.now }
        ensures failing { result.port.failing ≡ failing }
        ensures secure { result.vtor_s ≡ vtor_s }
        ensures nonsecure { result.vtor_ns ≡ vtor_ns }
    {
        TableFrames {
            port: TablePort::new(table, failing),
            vtor_s,
            vtor_ns,
        }
    }
}

impl Frames for TableFrames {
    ghost use Rattle.std.specs.Prelude.{ℕ, ◌-◌, length};
    ghost use Rattle.tz_testing.specs.Tables.{FramesValue, table_looks};

    ghost Held = { FramesValue };

    ghost held = { λ f. record { table = record { entries = f.port.entries.items; failing = f.port.failing }; vtor_s = f.vtor_s; vtor_ns = f.vtor_ns } };

    ghost answer = { table_looks };

    ghost room = { λ f. 32 - length f.port.entries.items };

    ghost Lent = { ℕ };

    ghost lent = { λ _. 0 };

    fn vector(&mut self, number: u16, side: Side) -> Result<u32, Fault> {
        let vtor = match side {
            Side::Secure => self.vtor_s,
            Side::NonSecure => self.vtor_ns,
        };
        let addr = vtor.wrapping_add(4 * u32::from(number));
        self.port.load(addr, Size::Word, true, false)
    }

    fn secure_load(&mut self, addr: u32) -> Result<u32, Fault> {
        self.port.load(addr, Size::Word, true, false)
    }

    fn frame_load(&mut self, addr: u32, _side: Side, _privileged: bool) -> Result<u32, Fault> {
        self.port.load(addr, Size::Word, true, false)
    }

    fn frame_store(
        &mut self,
        addr: u32,
        _side: Side,
        _privileged: bool,
        value: u32,
    ) -> Result<(), Fault> {
        self.port.store(addr, Size::Word, value, true, false)
    }
}

//! A double of the port, for tests: a table of numbers, with an address whose accesses fail.

ghost use Rattle.std.specs.Prelude.{◌≡◌, ◌≤◌, length};
ghost use Rattle.tz_testing.specs.TablePorts.{last_at, fails_at};

use arrayvec::ArrayVec;
use tz_model::{Fault, Port, Size, cut_to};

/// A number at an address.
#[derive(Clone, Copy, Default)]
pub struct TableEntry {
    pub addr: u32,
    pub value: u32,
}

/// A port onto a table. A load gives the last number at its address, or 0, cut to its size; a store adds
/// an entry with the number that it writes. Accesses of `failing` fail with `Precise`.
#[derive(Drop)]
pub struct TablePort {
    pub entries: ArrayVec<TableEntry, 32>,
    pub failing: Option<u32>,
}

impl TablePort {
    /// A port onto these entries, with room for as many stores as there are left of 32.
    pub fn new(table: &[TableEntry], failing: Option<u32>) -> TablePort
        requires { length table.now ≤ 16 }
        ensures entries { result.entries.items ≡ table.now }
        ensures failing { result.failing ≡ failing }
    {
        let mut entries = ArrayVec::new();
        for entry in table {
            entries.push(*entry);
        }
        TablePort { entries, failing }
    }

    /// Whether an access of this address fails.
    fn fails(&self, addr: u32) -> bool
        ensures { result ≡ fails_at self.now.failing addr }
    {
        match self.failing {
            None => false,
            Some(failing) => failing == addr,
        }
    }
}

/// The last number at an address, or 0.
fn last_at(entries: &[TableEntry], addr: u32) -> u32
    ensures { result ≡ last_at addr entries.now 0 }
{
    let mut found = 0;
    for entry in entries {
        if entry.addr == addr {
            found = entry.value;
        }
    }
    found
}

impl Port for TablePort {
    ghost use Rattle.std.specs.Prelude.{ℕ, ◌-◌, length};
    ghost use Rattle.tz_testing.specs.TablePorts.{TableValue, table_answer};

    ghost Held = { TableValue };

    ghost held = { λ p. record { entries = p.entries.items; failing = p.failing } };

    ghost answer = { table_answer };

    ghost room = { λ p. 32 - length p.entries.items };

    ghost Lent = { ℕ };

    ghost lent = { λ _. 0 };

    fn load(
        &mut self,
        addr: u32,
        size: Size,
        _must_align: bool,
        _user: bool,
    ) -> Result<u32, Fault> {
        if self.fails(addr) {
            return Err(Fault::Precise(addr));
        }
        Ok(cut_to(size, last_at(&self.entries, addr)))
    }

    fn store(
        &mut self,
        addr: u32,
        size: Size,
        value: u32,
        _must_align: bool,
        _user: bool,
    ) -> Result<(), Fault> {
        if self.fails(addr) {
            return Err(Fault::Precise(addr));
        }
        self.entries.push(TableEntry {
            addr,
            value: cut_to(size, value),
        });
        Ok(())
    }
}

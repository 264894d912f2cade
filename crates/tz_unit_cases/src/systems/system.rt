//! Accesses to the system registers.

use crate::systems::machine::Machine;
use crate::words::{side_at, size_at, tell_number};
use tz_access::is_aligned;
use tz_scs::System;
use tz_testing::Case;

/// The system registers, and what they stand in.
fn system_of(machine: &mut Machine) -> System<'_> {
    System {
        core: &mut machine.core,
        exceptions: &mut machine.exceptions,
        bus: &mut machine.bus,
    }
}

/// Reads the words at addresses, and shows them: `read SIDE SIZE ADDRESS ..`.
pub fn read(machine: &mut Machine, case: &mut Case<'_>) {
    let side = side_at(case, 1);
    let size = size_at(case, 2);
    let mut system = system_of(machine);
    for word in case.behind(3).split_whitespace() {
        let addr = case.number_in(word);
        if !is_aligned(size, addr) {
            return case.refuse();
        }
        let value = system.read(addr, size, side);
        tell_number(case, value);
    }
}

/// Writes a value to addresses: `write SIDE SIZE VALUE ADDRESS ..`.
pub fn write(machine: &mut Machine, case: &mut Case<'_>) {
    let side = side_at(case, 1);
    let size = size_at(case, 2);
    let value = case.number(3);
    let mut system = system_of(machine);
    for word in case.behind(4).split_whitespace() {
        let addr = case.number_in(word);
        if !is_aligned(size, addr) {
            return case.refuse();
        }
        system.write(addr, size, side, value);
    }
}

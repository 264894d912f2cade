//! Memory with no check but the map's, and the exclusive monitor.

use crate::units::asked::Asked;
use crate::units::faults::{tell_number, tell_truth, tell_write};
use tz_access::Bus;
use tz_testing::Case;

/// Puts halfwords into memory, whatever the kind of its region, which have to be mapped.
fn put(bus: &mut Bus, asked: &Asked, case: &mut Case<'_>) {
    let mut at = asked.numbers[0];
    for half in asked.numbers.get(1..asked.count).unwrap_or(&[]) {
        let [low, high] = case.half_in(*half).to_le_bytes();
        if bus.place(at, low).is_err() || bus.place(at.wrapping_add(1), high).is_err() {
            return case.refuse();
        }
        at = at.wrapping_add(2);
    }
    case.tell("put");
}

/// A plain access, or a step of the exclusive monitor.
pub enum PlainStep {
    Write,
    Read,
    Place,
    Put,
    Exclusive,
    Take,
    Clear,
    Held,
}

/// Takes a step: `write ADDRESS NUMBER` and `read ADDRESS` with a size; `place ADDRESS BYTE`, which tells
/// whether it is mapped; `put ADDRESS HALF ..`; `exclusive ADDRESS` with a size,
/// which sets the monitor; `take ADDRESS` with a size, whether the monitor holds it, which then holds nothing; `clear`;
/// and `held`, the address that the monitor holds.
pub fn step(bus: &mut Bus, step: &PlainStep, asked: &Asked, case: &mut Case<'_>) {
    let [addr, number, ..] = asked.numbers;
    match (step, asked.count) {
        (PlainStep::Write, 2) => tell_write(case, &bus.write(addr, asked.size, number)),
        (PlainStep::Read, 1) => tell_number(case, bus.read(addr, asked.size).ok(), "not mapped"),
        (PlainStep::Place, 2) => {
            let byte = case.byte_in(number);
            tell_truth(case, bus.place(addr, byte).is_ok())
        }
        (PlainStep::Put, _) => put(bus, asked, case),
        (PlainStep::Exclusive, 1) => {
            bus.monitor_set(addr, asked.size);
            case.tell("set")
        }
        (PlainStep::Take, 1) => tell_truth(case, bus.monitor_take(addr, asked.size)),
        (PlainStep::Clear, 0) => {
            bus.monitor_clear();
            case.tell("cleared")
        }
        (PlainStep::Held, 0) => match bus.monitor() {
            Some((addr, _)) => case.tell_hex(addr),
            None => case.tell("none"),
        },
        _ => case.refuse(),
    }
}

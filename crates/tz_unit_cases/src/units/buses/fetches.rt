//! Fetches.

use crate::units::asked::Asked;
use crate::units::faults::tell_fault;
use tz_access::Bus;
use tz_model::{Fault, Fetched};
use tz_testing::Case;

/// Tells a fetched instruction, which is of one halfword or of two, or the gateway, and its halfwords, or its fault.
fn tell(case: &mut Case<'_>, answer: &Result<Fetched, Fault>) {
    match answer {
        Ok(fetched) => {
            case.tell(match (fetched.code.second, fetched.gateway) {
                (None, false) => "short ",
                (None, true) => "short gateway ",
                (Some(_), false) => "long ",
                (Some(_), true) => "gateway ",
            });
            case.tell_hex(u32::from(fetched.code.first));
            if let Some(second) = fetched.code.second {
                case.tell(" ");
                case.tell_hex(u32::from(second));
            }
        }
        Err(fault) => tell_fault(case, fault),
    }
}

/// A fetch.
pub enum FetchStep {
    Fetch,
    Told,
}

/// Takes a step: `fetch ADDRESS` of a side; and `told ADDRESS`, the same, and whether it met Secure memory.
pub fn step(bus: &mut Bus, step: &FetchStep, asked: &Asked, case: &mut Case<'_>) {
    let addr = asked.numbers[0];
    let Asked {
        side,
        privileged,
        secure_privileged,
        negative,
        ..
    } = *asked;
    match (step, asked.count) {
        (FetchStep::Fetch, 1) => {
            let answer = bus.fetch(addr, side, privileged, secure_privileged, negative);
            tell(case, &answer)
        }
        (FetchStep::Told, 1) => {
            let told = bus.fetch_told(addr, side, privileged, secure_privileged, negative);
            tell(case, &told.answer);
            case.tell(if told.touched { " touched" } else { "" })
        }
        _ => case.refuse(),
    }
}

//! Accesses with their checks.

use crate::units::asked::Asked;
use crate::units::buses::list_in;
use crate::units::faults::{tell_fault, tell_number};
use tz_access::{Bus, Place};
use tz_model::{Fault, Size};
use tz_state::{Asker, Request};
use tz_testing::Case;

/// Tells where an access goes, or its fault.
fn tell_place(case: &mut Case<'_>, answer: &Result<Place, Fault>) {
    match answer {
        Ok(Place::Memory) => case.tell("memory"),
        Ok(Place::System) => case.tell("system"),
        Err(fault) => tell_fault(case, fault),
    }
}

/// Where an access goes, whose kind, size and alignment are asked.
fn checked(bus: &mut Bus, asked: &Asked) -> Result<Place, Fault> {
    bus.check(&Request {
        addr: asked.numbers[0],
        size: asked.size,
        kind: asked.kind,
        side: asked.side,
        privileged: asked.privileged,
        negative: asked.negative,
        must_align: asked.aligned,
    })
}

/// Makes two stores in turn, tells the word at the address of the first, and puts back what both overwrote.
fn undo(bus: &mut Bus, asker: &Asker, asked: &Asked, case: &mut Case<'_>) {
    let [addr, value, other, last, ..] = asked.numbers;
    let mut written = list_in(case);
    let _first = bus.store(asker, asked.size, addr, value, false, false, &mut written);
    let _second = bus.store(asker, asked.size, other, last, false, false, &mut written);
    tell_number(case, bus.read(addr, Size::Word).ok(), "not mapped");
    match &written {
        Some(list) => bus.undo(list),
        None => {}
    }
}

/// An access with its checks.
pub enum AccessStep {
    Check,
    Store,
    Load,
    Undo,
}

/// Takes a step: `check ADDRESS`, where an access goes; `store ADDRESS NUMBER`, where the store goes;
/// `load ADDRESS`, the number there, but of a system register; and `undo ADDRESS NUMBER ADDRESS NUMBER`, the word at the
/// first address after both stores, which are then undone.
pub fn step(bus: &mut Bus, step: &AccessStep, asked: &Asked, case: &mut Case<'_>) {
    let asker = Asker {
        side: asked.side,
        privileged: asked.privileged,
        negative: asked.negative,
        aligned: false,
    };
    let [addr, value, ..] = asked.numbers;
    let (aligned, user) = (asked.aligned, asked.unprivileged);
    match (step, asked.count) {
        (AccessStep::Check, 1) => tell_place(case, &checked(bus, asked)),
        (AccessStep::Store, 2) => {
            let mut written = None;
            let answer = bus.store(&asker, asked.size, addr, value, aligned, user, &mut written);
            tell_place(case, &answer)
        }
        (AccessStep::Load, 1) => match bus.load(&asker, asked.size, addr, aligned, user) {
            Ok(found) => tell_number(case, found, "system"),
            Err(fault) => tell_fault(case, &fault),
        },
        (AccessStep::Undo, 4) => undo(bus, &asker, asked, case),
        _ => case.refuse(),
    }
}

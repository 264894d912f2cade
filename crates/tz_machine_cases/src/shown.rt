//! A machine as a line.

use tz_core::Machine;
use tz_model::{Side, Size, Sleep};
use tz_nvic::{Exceptions, PLACES};
use tz_regs::Core;
use tz_testing::{Case, side_word};

/// Tells the fault registers that aren't 0, HFSR last.
pub fn tell_status(case: &mut Case<'_>, core: &Core) {
    let status = &core.status;
    let values = [
        ("ufsr_s", status.s.ufsr),
        ("mmfsr_s", status.s.mmfsr),
        ("mmfar_s", status.s.mmfar),
        ("ufsr_ns", status.ns.ufsr),
        ("mmfsr_ns", status.ns.mmfsr),
        ("mmfar_ns", status.ns.mmfar),
        ("bfsr", status.bus.bfsr),
        ("bfar", status.bus.bfar),
        ("sfsr", status.security.sfsr),
        ("sfar", status.security.sfar),
        ("hfsr", status.bus.hfsr),
    ];
    for (name, value) in values.iter() {
        if *value != 0 {
            case.tell_value(name, *value);
        }
    }
}

/// Tells a word, and an exception by its number and its side.
pub fn tell_exception(case: &mut Case<'_>, word: &str, number: u16, side: Side) {
    case.tell_word(word);
    case.tell(" ");
    case.tell_decimal(i64::from(number));
    case.tell(side_word(side));
}

/// Tells the exceptions that are pending or active, in the order of their numbers.
fn tell_slots(case: &mut Case<'_>, exceptions: &Exceptions) {
    for index in 0..PLACES {
        let state = exceptions.at(index);
        let slot = exceptions.slot_at(index);
        if state.pending {
            tell_exception(case, "pends", slot.number, slot.side);
        }
        if state.active {
            tell_exception(case, "active", slot.number, slot.side);
        }
    }
}

/// Tells whether a machine is locked, sleeps or runs, and where; its fault registers that aren't 0, HFSR last; and the
/// exceptions that are pending or active.
pub fn tell_machine(case: &mut Case<'_>, machine: &Machine) {
    let core = machine.core();
    case.tell(if core.run.locked {
        "locked at "
    } else if matches!(core.run.sleep, Sleep::Awake) {
        "runs at "
    } else {
        "sleeps at "
    });
    case.tell_hex(core.registers.pc);
    tell_status(case, core);
    tell_slots(case, machine.exceptions());
}

/// Where the return address lies of an exception whose LR this is, and which was taken over code on a main stack: above
/// the additional frame where a Non-secure exception was taken over Secure code.
fn return_place(core: &Core, lr: u32) -> u32 {
    if lr / 0x40 % 2 == 0 {
        core.stacks_ns.msp.wrapping_add(0x18)
    } else if lr % 2 == 1 {
        core.stacks_s.msp.wrapping_add(0x18)
    } else {
        core.stacks_s.msp.wrapping_add(0x40)
    }
}

/// Tells an exception that was taken: the stacked return address, the fault registers, the exceptions, and the number
/// and LR of the exception.
pub fn tell_taken(case: &mut Case<'_>, machine: &Machine, number: u16, lr: u32) {
    let place = return_place(machine.core(), lr);
    case.tell("from ");
    match machine.bus().read(place, Size::Word) {
        Ok(back) => case.tell_hex(back),
        Err(_) => case.tell("nowhere"),
    }
    tell_status(case, machine.core());
    tell_slots(case, machine.exceptions());
    case.tell(" X ");
    case.tell_decimal(i64::from(number));
    case.tell(" ");
    case.tell_hex(lr);
}

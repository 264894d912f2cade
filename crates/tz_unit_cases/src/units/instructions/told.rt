//! What an instruction did, as a line: how it went on, and what it changed.

use crate::units::faults::tell_fault;
use tz_model::{Fault, Outcome};
use tz_regs::{Core, Registers};
use tz_testing::{Case, TablePort};

/// Tells how an instruction went on, or its fault.
fn tell_going(case: &mut Case<'_>, outcome: &Result<Outcome, Fault>) {
    let (way, target) = match outcome {
        Ok(Outcome::Next) => return case.tell("next"),
        Ok(Outcome::Sleep { .. }) => return case.tell("sleep"),
        Ok(Outcome::Jump(target)) => ("jump ", *target),
        Ok(Outcome::Exchange { target, ns: false }) => ("exchange ", *target),
        Ok(Outcome::Exchange { target, ns: true }) => ("exchange ns ", *target),
        Ok(Outcome::Call(target)) => ("call ns ", *target),
        Err(fault) => return tell_fault(case, fault),
    };
    case.tell(way);
    case.tell_hex(target);
}

/// Tells a value where it changed.
fn tell(case: &mut Case<'_>, name: &str, before: u32, after: u32) {
    if before != after {
        case.tell_value(name, after);
    }
}

/// R0 to R12.
static GENERAL: [&str; 13] = [
    "r0", "r1", "r2", "r3", "r4", "r5", "r6", "r7", "r8", "r9", "r10", "r11", "r12",
];

/// Tells the registers that changed, but for SP, with N, Z, C, V and Q as binary digits.
fn tell_registers(case: &mut Case<'_>, before: &Registers, after: &Registers) {
    for (index, name) in GENERAL.iter().enumerate() {
        tell(case, name, before.general[index], after.general[index]);
    }
    tell(case, "lr", before.lr, after.lr);
    tell(case, "pc", before.pc, after.pc);
    tell(case, "it", u32::from(before.it), u32::from(after.it));
    tell(case, "t", u32::from(before.t), u32::from(after.t));
    let apsr = &after.apsr;
    if before.apsr.word() != apsr.word() {
        case.tell(" flags ");
        for flag in [apsr.n, apsr.z, apsr.c, apsr.v, apsr.q] {
            case.tell(if flag { "1" } else { "0" });
        }
    }
}

/// Tells how an instruction went on, or its fault, and what changed.
pub fn tell_step(
    case: &mut Case<'_>,
    outcome: &Result<Outcome, Fault>,
    before: &Core,
    after: &Core,
) {
    tell_going(case, outcome);
    tell_registers(case, &before.registers, &after.registers);
    tell(case, "msp", before.stacks_s.msp, after.stacks_s.msp);
    tell(case, "psp", before.stacks_s.psp, after.stacks_s.psp);
    tell(case, "msp", before.stacks_ns.msp, after.stacks_ns.msp);
    tell(case, "psp", before.stacks_ns.psp, after.stacks_ns.psp)
}

/// Tells the stores that were made, those of the table that stand after the first `before`.
pub fn tell_stores(case: &mut Case<'_>, port: &TablePort, before: usize) {
    for entry in port.entries.iter().skip(before) {
        case.tell(" [");
        case.tell_hex(entry.addr);
        case.tell("] ");
        case.tell_hex(entry.value);
    }
}

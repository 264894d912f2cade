//! Faults and words as texts.

use tz_mem::Refused;
use tz_model::{Fault, Side};
use tz_testing::Case;

/// Tells a fault, and its address where it has one.
pub fn tell_fault(case: &mut Case<'_>, fault: &Fault) {
    let (words, addr) = match fault {
        Fault::Undef => ("undef", None),
        Fault::DivZero => ("div zero", None),
        Fault::StackLimit(Side::Secure) => ("limit s", None),
        Fault::StackLimit(Side::NonSecure) => ("limit ns", None),
        Fault::Unaligned => ("unaligned", None),
        Fault::Violation(addr) => ("violation", Some(*addr)),
        Fault::DataAccess(addr, Side::Secure) => ("access s", Some(*addr)),
        Fault::DataAccess(addr, Side::NonSecure) => ("access ns", Some(*addr)),
        Fault::Precise(addr) => ("precise", Some(*addr)),
        Fault::Exec(Side::Secure) => ("exec s", None),
        Fault::Exec(Side::NonSecure) => ("exec ns", None),
        Fault::ExecBus => ("exec bus", None),
        Fault::EntryPoint => ("entry point", None),
        Fault::Transition => ("transition", None),
        _ => ("other fault", None),
    };
    case.tell(words);
    if let Some(addr) = addr {
        case.tell(" ");
        case.tell_hex(addr);
    }
}

/// Tells a word that was read, or the fault.
pub fn tell_word(case: &mut Case<'_>, answer: &Result<u32, Fault>) {
    match answer {
        Ok(word) => case.tell_hex(*word),
        Err(fault) => tell_fault(case, fault),
    }
}

/// Tells a number that may not be there.
pub fn tell_number(case: &mut Case<'_>, number: Option<u32>, otherwise: &str) {
    match number {
        Some(number) => case.tell_hex(number),
        None => case.tell(otherwise),
    }
}

/// Tells the number of a region that may not be there.
pub fn tell_index(case: &mut Case<'_>, index: Option<u8>, otherwise: &str) {
    match index {
        Some(index) => case.tell_decimal(i64::from(index)),
        None => case.tell(otherwise),
    }
}

/// Tells RBAR and RLAR of a region that may not be there.
pub fn tell_region(case: &mut Case<'_>, region: Option<(u32, u32)>) {
    match region {
        Some((rbar, rlar)) => {
            case.tell_hex(rbar);
            case.tell(" ");
            case.tell_hex(rlar);
        }
        None => case.tell("none"),
    }
}

/// Tells whether something is so.
pub fn tell_truth(case: &mut Case<'_>, truth: bool) {
    case.tell(if truth { "yes" } else { "no" })
}

/// Tells what a write came to.
pub fn tell_write(case: &mut Case<'_>, outcome: &Result<(), Refused>) {
    case.tell(match outcome {
        Ok(()) => "written",
        Err(Refused::ReadOnly) => "read only",
        Err(Refused::NotMapped) => "not mapped",
    })
}

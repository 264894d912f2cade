//! The calls of a bench, and how they end.

use crate::bench::Bench;
use crate::shown::tell_exception;
use tz_excret::{Entered, Left, enter, leave, raise_fault};
use tz_frames::{Entering, Refusal};
use tz_gate::{branch_ns, call_ns, function_return, secure_gateway};
use tz_model::{Fault, Profile, Side, Slot};
use tz_stack::{StackFault, pop_additional, pop_basic, push_additional, push_basic};
use tz_testing::{Case, meant, profile_in, side_word};

/// Tells a fault of a frame.
fn tell_fault(case: &mut Case<'_>, fault: &StackFault) {
    match fault {
        StackFault::Limit(side) | StackFault::Access(Fault::StackLimit(side)) => {
            case.tell(" limit ");
            case.tell(side_word(*side))
        }
        StackFault::Access(Fault::InvPc(side)) => {
            case.tell(" invpc ");
            case.tell(side_word(*side))
        }
        StackFault::Access(Fault::ExcReturn) => case.tell(" inver"),
        StackFault::Access(Fault::Precise(addr)) => case.tell_value("precise", *addr),
        StackFault::Access(_) => case.tell(" other fault"),
        StackFault::Signature => case.tell(" signature"),
    }
}

/// A call with a number: a basic frame is pushed with a return address, or an additional one, to the process stack
/// where the number isn't 0; or code goes to a target on the other side, or back.
pub enum Call {
    PushBasic,
    PushAdditional,
    SecureGateway,
    BranchNs,
    CallNs,
    FunctionReturn,
}

/// Makes a call, and tells how it ends.
pub fn called(case: &mut Case<'_>, bench: &mut Bench, call: &Call, value: u32) {
    if bench.frames.port.entries.len() > 22 {
        return case.refuse();
    }
    let (core, frames) = (&mut bench.core, &mut bench.frames);
    let mut pushed = Ok(());
    let mut gone = Ok(());
    match call {
        Call::PushBasic => pushed = push_basic(core, frames, value),
        Call::PushAdditional => pushed = push_additional(core, frames, value != 0, true),
        Call::SecureGateway => secure_gateway(core),
        Call::BranchNs => branch_ns(core, value),
        Call::CallNs => gone = call_ns(core, &mut frames.port, value, 0x1004),
        Call::FunctionReturn => gone = function_return(core, frames),
    }
    match (pushed, gone) {
        (Ok(()), Ok(())) => case.tell(" ok"),
        (Err(fault), _) => tell_fault(case, &fault),
        (_, Err(fault)) => tell_fault(case, &StackFault::Access(fault)),
    }
}

/// A frame that is read: a basic frame of a Non-secure stack, or an additional frame.
pub enum PoppedFrame {
    Basic,
    Additional,
}

/// Reads a frame at an address, and tells its registers.
pub fn popped(case: &mut Case<'_>, bench: &mut Bench, frame: &PoppedFrame, sp: u32) {
    let found = match frame {
        PoppedFrame::Basic => match pop_basic(&mut bench.frames, sp, Side::NonSecure, true) {
            Ok(b) => Ok([b.r0, b.r1, b.r2, b.r3, b.r12, b.lr, b.back, b.retpsr]),
            Err(fault) => Err(fault),
        },
        PoppedFrame::Additional => match pop_additional(&mut bench.frames, sp, true) {
            Ok(c) => Ok([c.r4, c.r5, c.r6, c.r7, c.r8, c.r9, c.r10, c.r11]),
            Err(fault) => Err(fault),
        },
    };
    match found {
        Ok(registers) => {
            for register in &registers {
                case.tell(" ");
                case.tell_hex(*register);
            }
        }
        Err(fault) => tell_fault(case, &fault),
    }
}

/// Tells how a call ends, what is taken where anything is, and whether the call touched Secure state.
fn tell_end(case: &mut Case<'_>, name: &str, slot: Option<Slot>, touched: bool) {
    match slot {
        Some(slot) => tell_exception(case, name, slot.number, slot.side),
        None => case.tell_word(name),
    }
    if touched {
        case.tell(" touched");
    }
}

/// Tells what went wrong in an entry: its first frame that has faulted, an exception whose vector couldn't be read, and
/// such a last one.
fn tell_entry(case: &mut Case<'_>, entry: &Entering) {
    if let Some(frame) = &entry.frame {
        case.tell(if frame.additional {
            " additional frame"
        } else {
            " basic frame"
        });
        tell_fault(case, &frame.fault);
    }
    if let Some(slot) = entry.vector {
        tell_exception(case, "unread", slot.number, slot.side);
    }
    if let Some(slot) = entry.last {
        tell_exception(case, "last", slot.number, slot.side);
    }
}

/// Tells why a return was refused.
fn tell_refusal(case: &mut Case<'_>, refusal: &Refusal) {
    case.tell(" refused");
    match refusal {
        Refusal::Value(fault) => {
            case.tell(" value");
            tell_fault(case, &StackFault::Access(*fault));
        }
        Refusal::Frame(fault) => {
            case.tell(" frame");
            tell_fault(case, fault);
        }
        Refusal::Mode(side) => {
            case.tell(" mode ");
            case.tell(side_word(*side));
        }
    }
}

/// Enters what pends over code at PC, by a version of the architecture.
pub fn entered(case: &mut Case<'_>, bench: &mut Bench, version: &str) {
    if bench.frames.port.entries.len() > 14 {
        return case.refuse();
    }
    let profile = profile_in(case, version);
    let back = bench.core.registers.pc;
    let (name, slot, entry) = match enter(
        &mut bench.core,
        &mut bench.exceptions,
        &mut bench.frames,
        back,
        profile,
    ) {
        Entered::Taken { slot, entry } => ("taken", Some(slot), entry),
        Entered::Lockup { entry } => ("locks", None, entry),
    };
    tell_end(case, name, slot, entry.touched);
    tell_entry(case, &entry);
}

/// Returns by a value, or by LR.
pub fn left(case: &mut Case<'_>, bench: &mut Bench, value: &str) {
    if bench.frames.port.entries.len() > 22 {
        return case.refuse();
    }
    let value = match value {
        "lr" => bench.core.registers.lr,
        _ => case.number_in(value),
    };
    let left = leave(
        &mut bench.core,
        &mut bench.exceptions,
        &mut bench.frames,
        value,
        Profile::V80,
    );
    let (name, slot, refused, entry) = match left {
        Left::Resumed { touched } => return tell_end(case, "resumed", None, touched),
        Left::Chained {
            slot,
            refused,
            entry,
        } => ("chained", Some(slot), refused, entry),
        Left::Lockup { refused, entry } => ("locks", None, refused, entry),
    };
    tell_end(case, name, slot, entry.touched);
    if let Some(refusal) = &refused {
        tell_refusal(case, refusal);
    }
    tell_entry(case, &entry);
}

/// Faults by their names. Their address is 0x30, and their MPU that of the Secure side.
static FAULTS: [(&str, Fault); 8] = [
    ("undefined", Fault::Undef),
    ("coprocessor", Fault::NoCp),
    ("data", Fault::DataAccess(0x30, Side::Secure)),
    ("execution", Fault::Exec(Side::Secure)),
    ("bus", Fault::Precise(0x30)),
    ("attribution", Fault::Violation(0x30)),
    ("breakpoint", Fault::Breakpoint),
    ("call", Fault::Call),
];

/// Raises the fault of a name, and tells whether the core has to lock.
pub fn raised(case: &mut Case<'_>, bench: &mut Bench, name: &str) {
    match meant(&FAULTS, name) {
        Some(fault) => {
            let locks = raise_fault(&mut bench.core, &mut bench.exceptions, *fault);
            case.tell(if locks { " locks true" } else { " locks false" });
        }
        None => case.refuse(),
    }
}

//! System instructions.

use crate::words::tell_flag;
use tz_access::Bus;
use tz_model::{BarrierOp, Fault, Insn, Outcome, Side, Size};
use tz_regs::Core;
use tz_system::execute;
use tz_testing::{Case, meant};

/// The name of an instruction: of one that names registers or state, or of one with a number or nothing.
enum Name {
    Mrs,
    Msr,
    Cps,
    Tt,
    Lazy,
    Barrier,
    Other(OtherName),
}

enum OtherName {
    Hint,
    Svc,
    Bkpt,
    Udf,
    Sg,
    Preload,
}

static NAMES: [(&str, Name); 12] = [
    ("mrs", Name::Mrs),
    ("msr", Name::Msr),
    ("cps", Name::Cps),
    ("tt", Name::Tt),
    ("lazy", Name::Lazy),
    ("barrier", Name::Barrier),
    ("hint", Name::Other(OtherName::Hint)),
    ("svc", Name::Other(OtherName::Svc)),
    ("bkpt", Name::Other(OtherName::Bkpt)),
    ("udf", Name::Other(OtherName::Udf)),
    ("sg", Name::Other(OtherName::Sg)),
    ("preload", Name::Other(OtherName::Preload)),
];

/// The instruction of a step.
fn named(case: &mut Case<'_>) -> Insn {
    let name = case.word(1);
    match meant(&NAMES, name) {
        Some(Name::Mrs) => Insn::ReadSpecial {
            rd: case.byte(2),
            sysm: case.byte(3),
        },
        Some(Name::Msr) => Insn::WriteSpecial {
            sysm: case.byte(2),
            rn: case.byte(3),
        },
        Some(Name::Cps) => Insn::ChangeState {
            disable: case.flag(2),
            i: case.flag(3),
            f: case.flag(4),
        },
        Some(Name::Tt) => Insn::TestTarget {
            a: case.flag(2),
            t: case.flag(3),
            rd: case.byte(4),
            rn: case.byte(5),
        },
        Some(Name::Lazy) => Insn::LazyState {
            load: case.flag(2),
            rn: case.byte(3),
        },
        Some(Name::Barrier) => Insn::Barrier {
            op: barrier(case),
            option: case.byte(3),
        },
        Some(Name::Other(name)) => other(case, name),
        None => {
            case.refuse();
            Insn::Preload
        }
    }
}

/// An instruction with a number, or with nothing.
fn other(case: &mut Case<'_>, name: &OtherName) -> Insn {
    match name {
        OtherName::Hint => Insn::Hint { op: case.byte(2) },
        OtherName::Svc => Insn::Supervisor { imm: case.half(2) },
        OtherName::Bkpt => Insn::Breakpoint { imm: case.half(2) },
        OtherName::Udf => Insn::Undefined { imm: case.half(2) },
        OtherName::Sg => Insn::SecureGateway,
        OtherName::Preload => Insn::Preload,
    }
}

static BARRIERS: [(&str, BarrierOp); 4] = [
    ("clrex", BarrierOp::Clrex),
    ("dsb", BarrierOp::Dsb),
    ("dmb", BarrierOp::Dmb),
    ("isb", BarrierOp::Isb),
];

/// The barrier of a word.
fn barrier(case: &mut Case<'_>) -> BarrierOp {
    match meant(&BARRIERS, case.word(2)) {
        Some(op) => *op,
        None => {
            case.refuse();
            BarrierOp::Clrex
        }
    }
}

/// Does an instruction, and shows how it ends.
pub fn run(core: &mut Core, bus: &mut Bus, priority: i32, case: &mut Case<'_>) {
    let insn = named(case);
    case.tell_word(match execute(&insn, core, bus, priority) {
        Ok(Outcome::Next) => "next",
        Ok(Outcome::Sleep { event: true }) => "sleeps for an event",
        Ok(Outcome::Sleep { event: false }) => "sleeps",
        Ok(_) => "elsewhere",
        Err(Fault::Undef) => "undefined",
        Err(Fault::StackLimit(Side::NonSecure)) => "limit n",
        Err(Fault::StackLimit(Side::Secure)) => "limit s",
        Err(Fault::Breakpoint) => "breakpoint",
        Err(Fault::Call) => "call",
        Err(_) => "another fault",
    });
}

/// `monitor ADDRESS` makes the monitor hold a word; `monitor held` shows whether it holds something.
pub fn monitor(bus: &mut Bus, case: &mut Case<'_>) {
    if case.word(1) == "held" {
        return tell_flag(case, bus.monitor().is_some());
    }
    bus.monitor_set(case.number(1), Size::Word);
}

//! The core before an instruction.

use crate::systems::set_named;
use crate::words::side_in;
use tz_regs::{Apsr, Core};
use tz_testing::{Case, meant};

/// Whether a digit is 1, and not 0.
fn is_one(case: &mut Case<'_>, digit: u8) -> bool {
    if digit != b'0' && digit != b'1' {
        case.refuse();
    }
    digit == b'1'
}

/// The flags that the digits of N, Z, C, V and Q say.
fn flags_of(case: &mut Case<'_>, digits: &str) -> Apsr {
    let (n, z, c, v, q) = match digits.as_bytes() {
        [n, z, c, v, q] => (*n, *z, *c, *v, *q),
        _ => (b'?', b'?', b'?', b'?', b'?'),
    };
    Apsr {
        n: is_one(case, n),
        z: is_one(case, z),
        c: is_one(case, c),
        v: is_one(case, v),
        q: is_one(case, q),
    }
}

/// A value of a core: R0 to R14 by its number, or another with a name of its own.
enum Value {
    Register(u8),
    It,
    Pc,
    Spsel,
    CcrS,
    CcrNs,
}

static VALUES: [(&str, Value); 20] = [
    ("r0", Value::Register(0)),
    ("r1", Value::Register(1)),
    ("r2", Value::Register(2)),
    ("r3", Value::Register(3)),
    ("r4", Value::Register(4)),
    ("r5", Value::Register(5)),
    ("r6", Value::Register(6)),
    ("r7", Value::Register(7)),
    ("r8", Value::Register(8)),
    ("r9", Value::Register(9)),
    ("r10", Value::Register(10)),
    ("r11", Value::Register(11)),
    ("r12", Value::Register(12)),
    ("sp", Value::Register(13)),
    ("lr", Value::Register(14)),
    ("it", Value::It),
    ("pc", Value::Pc),
    ("spsel", Value::Spsel),
    ("ccr_s", Value::CcrS),
    ("ccr_ns", Value::CcrNs),
];

/// Sets what a name says to a number: one of `VALUES`, or else a register of the side that runs.
fn set_number(case: &mut Case<'_>, core: &mut Core, name: &str, value: u32) {
    match meant(&VALUES, name) {
        Some(Value::Register(n)) if *n < 15 => core.put(*n, value),
        Some(Value::It) => core.registers.it = case.byte_in(value),
        Some(Value::Pc) => core.registers.pc = value,
        Some(Value::Spsel) => core.set_control(core.side(), value.wrapping_mul(2)),
        Some(Value::CcrS) => core.status.s.ccr = value,
        Some(Value::CcrNs) => core.status.ns.ccr = value,
        _ => set_named(case, core, core.side(), name, value),
    }
}

/// The core that a case says: the side that runs, and words `NAME=VALUE`. Stacks and SPSEL are those of the side that
/// runs. All else is zero.
pub fn core_of(case: &mut Case<'_>) -> Core {
    let mut core = Core::reset(0, 0, 0, 1, false);
    for word in case.field(2).split_whitespace() {
        match word.split_once('=') {
            Some(("flags", digits)) => core.registers.apsr = flags_of(case, digits),
            Some((name, value)) => {
                let value = case.number_in(value);
                set_number(case, &mut core, name, value);
            }
            None => core.run.side = side_in(case, word),
        }
    }
    core
}

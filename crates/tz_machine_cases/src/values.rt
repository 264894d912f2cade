//! Values of a core by their names.

use tz_model::Side;
use tz_regs::{Apsr, Core, Stacks};
use tz_testing::{Case, meant};

/// R0 to R12, SP or LR.
fn register_value(case: &mut Case<'_>, core: &Core, name: &str) -> u32 {
    let number = case.number_in(name.strip_prefix('r').unwrap_or(""));
    let number = case.byte_in(number);
    if number < 15 {
        core.get(number)
    } else {
        case.refuse();
        0
    }
}

/// A value of a core: a register of a side's stacks by the side and a dot, R0 to R14, or another.
pub fn core_value(case: &mut Case<'_>, core: &Core, name: &str) -> u32 {
    let values = [
        ("s.msp", core.stacks_s.msp),
        ("s.psp", core.stacks_s.psp),
        ("ns.msp", core.stacks_ns.msp),
        ("ns.psp", core.stacks_ns.psp),
        ("nonsecure", u32::from(core.run.side == Side::NonSecure)),
        ("locked", u32::from(core.run.locked)),
        ("pc", core.registers.pc),
        ("it", u32::from(core.registers.it)),
        ("t", u32::from(core.registers.t)),
        ("n", u32::from(core.registers.apsr.n)),
        ("ipsr", u32::from(core.registers.ipsr)),
        ("xpsr", core.special(3)),
        ("faultmask", core.faultmask(Side::Secure)),
    ];
    match meant(&values, name) {
        Some(value) => *value,
        None => register_value(case, core, name),
    }
}

/// The flags of a word.
fn flags_of(word: u32) -> Apsr {
    Apsr {
        n: word / 0x8000_0000 % 2 == 1,
        z: word / 0x4000_0000 % 2 == 1,
        c: word / 0x2000_0000 % 2 == 1,
        v: word / 0x1000_0000 % 2 == 1,
        q: word / 0x0800_0000 % 2 == 1,
    }
}

/// What is set of the stacks of a side.
enum StackValue {
    Msp,
    Psp,
    Msplim,
    Psplim,
    Spsel,
}

/// What is set of a core.
enum Value {
    Stack(Side, StackValue),
    Registers,
    Nonsecure,
    Lr,
    Pc,
    It,
    T,
    Ipsr,
    Apsr,
    Faultmask,
}

static VALUES: [(&str, Value); 19] = [
    ("s.msp", Value::Stack(Side::Secure, StackValue::Msp)),
    ("s.psp", Value::Stack(Side::Secure, StackValue::Psp)),
    ("s.msplim", Value::Stack(Side::Secure, StackValue::Msplim)),
    ("s.psplim", Value::Stack(Side::Secure, StackValue::Psplim)),
    ("s.spsel", Value::Stack(Side::Secure, StackValue::Spsel)),
    ("ns.msp", Value::Stack(Side::NonSecure, StackValue::Msp)),
    ("ns.psp", Value::Stack(Side::NonSecure, StackValue::Psp)),
    (
        "ns.msplim",
        Value::Stack(Side::NonSecure, StackValue::Msplim),
    ),
    (
        "ns.psplim",
        Value::Stack(Side::NonSecure, StackValue::Psplim),
    ),
    ("ns.spsel", Value::Stack(Side::NonSecure, StackValue::Spsel)),
    ("registers", Value::Registers),
    ("nonsecure", Value::Nonsecure),
    ("lr", Value::Lr),
    ("pc", Value::Pc),
    ("it", Value::It),
    ("t", Value::T),
    ("ipsr", Value::Ipsr),
    ("apsr", Value::Apsr),
    ("faultmask", Value::Faultmask),
];

/// Sets a stack pointer, a limit or SPSEL of a side.
fn set_stack(stacks: &mut Stacks, name: &StackValue, value: u32) {
    match name {
        StackValue::Msp => stacks.msp = value,
        StackValue::Psp => stacks.psp = value,
        StackValue::Msplim => stacks.msplim = value,
        StackValue::Psplim => stacks.psplim = value,
        StackValue::Spsel => stacks.spsel = value != 0,
    }
}

/// Sets a value of a core, by the names of `core_value`; `registers` are R0 to R12, which are set to numbers in turn.
pub fn set_value(case: &mut Case<'_>, core: &mut Core, name: &str, value: u32) {
    match meant(&VALUES, name) {
        Some(Value::Stack(Side::Secure, name)) => set_stack(&mut core.stacks_s, name, value),
        Some(Value::Stack(Side::NonSecure, name)) => set_stack(&mut core.stacks_ns, name, value),
        Some(Value::Registers) => {
            let mut next = value;
            for register in core.registers.general.iter_mut() {
                *register = next;
                next = next.wrapping_add(1);
            }
        }
        Some(Value::Nonsecure) if value == 1 => core.run.side = Side::NonSecure,
        Some(Value::Lr) => core.registers.lr = value,
        Some(Value::Pc) => core.registers.pc = value,
        Some(Value::It) => core.registers.it = case.byte_in(value),
        Some(Value::T) => core.registers.t = value != 0,
        Some(Value::Ipsr) if value < 512 => core.registers.ipsr = value as u16,
        Some(Value::Apsr) => core.registers.apsr = flags_of(value),
        Some(Value::Faultmask) => core.masks.s.faultmask = value != 0,
        _ => case.refuse(),
    }
}

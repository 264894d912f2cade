//! Cases of a machine: what it is when it takes an exception or locks, and step by step.

use crate::report::{kind_text, tell_report};
use crate::shown::{tell_machine, tell_taken};
use crate::source::machine_of;
use crate::values::core_value;
use tz_core::Machine;
use tz_model::{Profile, Report, Side, Size, StepKind};
use tz_nvic::Exceptions;
use tz_testing::{Case, events_of, meant, number_of};

/// The most steps before what is told.
const MOST: u32 = 200;

/// Makes steps until the machine locks, until its code stands at an address, and without an address until it takes an
/// exception, but at most `MOST`: what the last of them was.
fn run(machine: &mut Machine, address: Option<u32>) -> StepKind {
    let mut kind = StepKind::Idle;
    for _ in 0..MOST {
        if machine.locked() || address == Some(machine.core().registers.pc) {
            return kind;
        }
        let report = machine.step(&[]);
        kind = report.kind;
        if address.is_none() && matches!(kind, StepKind::Taken { .. }) {
            return kind;
        }
    }
    kind
}

/// The registers of units that are values of a machine, by their address and side.
static UNITS: [(&str, (u32, Side)); 3] = [
    ("sau_ctrl", (0xE000_EDD0, Side::Secure)),
    ("s.mpu_ctrl", (0xE000_ED94, Side::Secure)),
    ("ns.mpu_ctrl", (0xE000_ED94, Side::NonSecure)),
];

/// Tells a value of a machine by its name: a register of its units, a word of memory by its address, or a value of its
/// core.
fn tell_value(case: &mut Case<'_>, machine: &Machine, name: &str) {
    let bus = machine.bus();
    let value = match (meant(&UNITS, name), number_of(name)) {
        (Some((address, side)), _) => bus.register(*address, *side),
        (None, Some(address)) => match bus.read(address, Size::Word) {
            Ok(word) => word,
            Err(_) => return case.refuse(),
        },
        (None, None) => core_value(case, machine.core(), name),
    };
    case.tell(name);
    case.tell(" ");
    case.tell_hex(value);
}

/// Tells a machine that runs until it takes an exception or locks, and values of it.
pub fn ended(case: &mut Case<'_>) {
    let Some(mut machine) = machine_of(case, Profile::V80) else {
        return case.refuse();
    };
    match run(&mut machine, None) {
        StepKind::Taken { number, lr } => tell_taken(case, &machine, number, lr),
        _ => tell_machine(case, &machine),
    }
    for name in case.field_or_empty(4).split_whitespace() {
        case.tell("; ");
        tell_value(case, &machine, name);
    }
}

/// Tells CVR and CSR of the Secure SysTick, and then of the Non-secure one.
fn tell_timers(case: &mut Case<'_>, exceptions: &Exceptions) {
    let s = exceptions.timer(Side::Secure);
    let ns = exceptions.timer(Side::NonSecure);
    case.tell_hex(s.cvr);
    case.tell(" ");
    case.tell_hex(s.csr);
    case.tell(", ");
    case.tell_hex(ns.cvr);
    case.tell(" ");
    case.tell_hex(ns.csr);
}

/// What is asked of a step, but for values.
enum Part {
    Report,
    Kind,
    Shown,
    Timers,
    Event,
}

static PARTS: [(&str, Part); 5] = [
    ("report", Part::Report),
    ("kind", Part::Kind),
    ("shown", Part::Shown),
    ("timers", Part::Timers),
    ("event", Part::Event),
];

/// Tells what is asked of a step and of the machine after it: the report, its kind, the machine as a line, both timers,
/// the event flag, or a value.
fn tell_part(case: &mut Case<'_>, machine: &Machine, report: &Report, part: &str) {
    match meant(&PARTS, part) {
        Some(Part::Report) => tell_report(case, report),
        Some(Part::Kind) => case.tell(kind_text(report.kind)),
        Some(Part::Shown) => tell_machine(case, machine),
        Some(Part::Timers) => tell_timers(case, machine.exceptions()),
        Some(Part::Event) => case.tell(if machine.core().event {
            "event"
        } else {
            "no event"
        }),
        None => tell_value(case, machine, part),
    }
}

/// Makes a step, at which the events before a colon are due, and tells what is asked.
fn tell_step(case: &mut Case<'_>, machine: &mut Machine, asked: &str) {
    let (due, parts) = asked.split_once(':').unwrap_or(("", asked));
    let (events, count) = events_of(case, due);
    let report = machine.step(&events[..count.min(3)]);
    for (index, part) in parts.split_whitespace().enumerate() {
        if index != 0 {
            case.tell("; ");
        }
        tell_part(case, machine, &report, part);
    }
}

/// Tells what is asked of each step of a machine whose code stands at an address before them. A slash divides the
/// steps, and their answers.
pub fn stepped(case: &mut Case<'_>, profile: Profile) {
    let Some(mut machine) = machine_of(case, profile) else {
        return case.refuse();
    };
    let address = case.field(4);
    let address = case.number_in(address);
    let _kind = run(&mut machine, Some(address));
    for (index, asked) in case.field(5).split('/').enumerate() {
        if index != 0 {
            case.tell(" / ");
        }
        tell_step(case, &mut machine, asked);
    }
}

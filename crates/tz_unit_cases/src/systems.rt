//! The system level: special registers and system instructions, exceptions, priorities, timers and the system
//! registers.
//!
//! A case names a machine, the steps that are done to it one after another, and all that the steps show, in order. A
//! step is words. The machines stand in cases of their own, `define | NAME | PARTS | STEPS => ready`.

mod blocks;
mod instructions;
mod looks;
mod machine;
mod priorities;
mod registers;
mod slots;
mod system;
mod timers;

use crate::words::{side_at, tell_flag};
use machine::{Machine, machine_of};
pub use registers::set_named;
use registers::{ChangeStep, ShowStep};
use slots::SlotStep;
use timers::TimerStep;
use tz_nvic::Exceptions;
use tz_regs::Core;
use tz_testing::{Case, case_of, field_of, meant};

/// The case that defines the machine of a name. Empty where none does.
fn definition<'a>(cases: &'a str, name: &str) -> &'a str {
    for line in cases.lines() {
        let (_, case) = case_of(line);
        if case.starts_with("define") && field_of(case, 1).unwrap_or("") == name {
            return case;
        }
    }
    ""
}

/// A step that changes the machine itself or reaches its bus.
enum MachineStep {
    Keep,
    At,
    Read,
    Write,
    Unit,
    Do,
    Monitor,
}

/// A step of looks and priorities.
enum LookStep {
    First,
    Execution,
    Takes,
    Becomes,
    Chosen,
    Settle,
    Known,
    Size,
}

/// A step, by what it is done to.
enum Step {
    Change(ChangeStep),
    Show(ShowStep),
    ItBlock,
    Met,
    Machine(MachineStep),
    Look(LookStep),
    Slot(SlotStep),
    Timer(TimerStep),
}

static STEPS: [(&str, Step); 44] = [
    ("code", Step::Change(ChangeStep::Code)),
    ("set", Step::Change(ChangeStep::Set)),
    ("put", Step::Change(ChangeStep::Put)),
    ("side", Step::Change(ChangeStep::Side)),
    ("load", Step::Change(ChangeStep::Load)),
    ("limited", Step::Change(ChangeStep::Limited)),
    ("boot", Step::Change(ChangeStep::Boot)),
    ("banked", Step::Show(ShowStep::Banked)),
    ("common", Step::Show(ShowStep::Common)),
    ("general", Step::Show(ShowStep::General)),
    ("special", Step::Show(ShowStep::Special)),
    ("changed", Step::Show(ShowStep::Changed)),
    ("it", Step::ItBlock),
    ("met", Step::Met),
    ("keep", Step::Machine(MachineStep::Keep)),
    ("at", Step::Machine(MachineStep::At)),
    ("read", Step::Machine(MachineStep::Read)),
    ("write", Step::Machine(MachineStep::Write)),
    ("unit", Step::Machine(MachineStep::Unit)),
    ("do", Step::Machine(MachineStep::Do)),
    ("monitor", Step::Machine(MachineStep::Monitor)),
    ("first", Step::Look(LookStep::First)),
    ("execution", Step::Look(LookStep::Execution)),
    ("takes", Step::Look(LookStep::Takes)),
    ("becomes", Step::Look(LookStep::Becomes)),
    ("chosen", Step::Look(LookStep::Chosen)),
    ("settle", Step::Look(LookStep::Settle)),
    ("known", Step::Look(LookStep::Known)),
    ("size", Step::Look(LookStep::Size)),
    ("slot", Step::Slot(SlotStep::Change)),
    ("target", Step::Slot(SlotStep::Target)),
    ("given", Step::Slot(SlotStep::Given)),
    ("place", Step::Slot(SlotStep::Place)),
    ("stands", Step::Slot(SlotStep::Stands)),
    ("places", Step::Slot(SlotStep::Places)),
    ("due", Step::Slot(SlotStep::Due)),
    ("pending", Step::Slot(SlotStep::Pending)),
    ("pris", Step::Timer(TimerStep::Pris)),
    ("bfhfnmins", Step::Timer(TimerStep::Bfhfnmins)),
    ("group", Step::Timer(TimerStep::Group)),
    ("timer", Step::Timer(TimerStep::Set)),
    ("tick", Step::Timer(TimerStep::Tick)),
    ("timers", Step::Timer(TimerStep::Show)),
    ("switches", Step::Timer(TimerStep::Switches)),
];

/// Does a step that changes the machine itself or reaches its bus.
fn machine_step(machine: &mut Machine, step: &MachineStep, case: &mut Case<'_>) {
    match step {
        MachineStep::Keep => machine.before = machine.core,
        MachineStep::At => priorities::set_priority(&mut machine.priority, case),
        MachineStep::Read => system::read(machine, case),
        MachineStep::Write => system::write(machine, case),
        MachineStep::Unit => {
            let side = side_at(case, 1);
            let addr = case.number(2);
            machine.bus.set_register(addr, side, case.number(3));
        }
        MachineStep::Do => {
            let priority = machine.priority;
            instructions::run(&mut machine.core, &mut machine.bus, priority, case)
        }
        MachineStep::Monitor => instructions::monitor(&mut machine.bus, case),
    }
}

/// Does a step of looks and priorities.
fn look(core: &Core, exceptions: &mut Exceptions, step: &LookStep, case: &mut Case<'_>) {
    match step {
        LookStep::First => looks::show_first(core, exceptions, case),
        LookStep::Execution => priorities::show_execution(core, exceptions, case),
        LookStep::Takes => priorities::show_taken(core, exceptions, false, case),
        LookStep::Becomes => priorities::show_taken(core, exceptions, true, case),
        LookStep::Chosen => looks::show_chosen(exceptions, case),
        LookStep::Settle => looks::settle(exceptions),
        LookStep::Known => looks::show_known(exceptions, case),
        LookStep::Size => tell_flag(case, looks::has_no_size()),
    }
}

/// Does a step.
fn do_step(machine: &mut Machine, case: &mut Case<'_>) {
    let name = case.word(0);
    match meant(&STEPS, name) {
        Some(Step::Change(change)) => {
            registers::change(&machine.start, &mut machine.core, change, case)
        }
        Some(Step::Show(show)) => registers::show(&machine.before, &machine.core, show, case),
        Some(Step::ItBlock) => blocks::step(&mut machine.core, case),
        Some(Step::Met) => blocks::met(case),
        Some(Step::Machine(step)) => machine_step(machine, step, case),
        Some(Step::Look(shown)) => look(&machine.core, &mut machine.exceptions, shown, case),
        Some(Step::Slot(step)) => slots::step(&mut machine.exceptions, step, case),
        Some(Step::Timer(step)) => timers::step(&mut machine.exceptions, step, case),
        None => case.refuse(),
    }
}

/// Does steps in order.
fn run<'a>(machine: &mut Machine, steps: &'a str, case: &mut Case<'a>) {
    for each in steps.split(';') {
        if !each.trim().is_empty() {
            case.begin(each);
            do_step(machine, case);
        }
    }
}

/// Tells what steps show on the machine that the case defines, which a case begins with.
fn show<'a>(case: &mut Case<'a>, steps: &'a str) {
    let parts = case.field(2);
    let preparing = case.field(3);
    case.begin(parts);
    let made = machine_of(case);
    if let Some(mut machine) = case.kept(made) {
        run(&mut machine, preparing, case);
        machine.start = machine.core;
        machine.before = machine.core;
        run(&mut machine, steps, case);
    }
}

/// Prepares the machine that the case defines.
pub fn defined(case: &mut Case<'_>) {
    show(case, "");
    case.tell("ready");
}

/// Tells what the steps of the case show on the machine of a name. With its steps read, it becomes the case that
/// defines it.
pub fn followed(case: &mut Case<'_>) {
    let name = case.field(1);
    let steps = case.field(2);
    let defining = definition(case.cases, name);
    case.turn_to(defining);
    show(case, steps);
}

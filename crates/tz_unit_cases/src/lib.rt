//! The system level, the units that guard memory, and the instructions that stand by themselves, as cases ask them.
//!
//! The program `tz_ask_cases` has the cases, in files whose heads tell what the fields are. A case's first field is its
//! kind.
#![tactic(auto)]

mod systems;
mod units;
mod words;

use tz_testing::{Case, meant};
use units::instructions::Family;
use units::{buses, instructions, memories, mpus, tables};

/// A kind of cases: the definition of a machine, steps on one, an instruction that stands by itself, and steps on the
/// bus, on an MPU, on memory and on the double of frames.
enum Kind {
    Define,
    System,
    Instruction(Family),
    Bus,
    Mpu,
    Memory,
    Table,
}

static KINDS: [(&str, Kind); 9] = [
    ("define", Kind::Define),
    ("system", Kind::System),
    ("data", Kind::Instruction(Family::Data)),
    ("loadstore", Kind::Instruction(Family::LoadStore)),
    ("branch", Kind::Instruction(Family::Branch)),
    ("bus", Kind::Bus),
    ("mpu", Kind::Mpu),
    ("memory", Kind::Memory),
    ("table", Kind::Table),
];

/// Tells a case of a kind its answer.
pub fn answer(case: &mut Case<'_>, kind: &str) {
    match meant(&KINDS, kind) {
        Some(Kind::Define) => systems::defined(case),
        Some(Kind::System) => systems::followed(case),
        Some(Kind::Instruction(family)) => instructions::answer(case, family),
        Some(Kind::Bus) => buses::answer(case),
        Some(Kind::Mpu) => mpus::answer(case),
        Some(Kind::Memory) => memories::answer(case),
        Some(Kind::Table) => tables::answer(case),
        None => case.refuse(),
    }
}

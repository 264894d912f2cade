//! Steps in turn: a field has them between `;`, and each begins with its name.

use crate::units::asked::{Asked, asked_by};
use tz_testing::Case;

/// What takes steps.
pub trait Steps {
    /// Takes a step, and tells its answer. The case is unread where there is no such step with so many numbers.
    fn step(&mut self, name: &str, asked: &Asked, case: &mut Case<'_>);
}

/// The name of a step, and the words behind it.
pub fn parts_of(step: &str) -> (&str, &str) {
    step.split_once(' ').unwrap_or((step, ""))
}

/// Takes the steps of a field in turn, and tells their answers. The case is unread where there is none.
pub fn take_all<S: Steps>(case: &mut Case<'_>, unit: &mut S, field: &str) {
    for step in field.split(';') {
        let (name, words) = parts_of(step.trim());
        let asked = asked_by(case, words);
        case.divide("; ");
        unit.step(name, &asked, case);
    }
}

/// Takes the steps before a case, if any, whose answers aren't told, and those of the case, which are the next field.
pub fn take_both<S: Steps>(case: &mut Case<'_>, unit: &mut S, index: usize) {
    let before = case.field(index);
    if !before.is_empty() {
        take_all(case, unit, before);
        case.forget();
    }
    let steps = case.field(index.saturating_add(1));
    take_all(case, unit, steps);
}

//! Priorities, and what they let happen.

use crate::systems::slots::slot_of;
use crate::words::{tell_count, tell_flag};
use tz_model::Side;
use tz_nvic::Exceptions;
use tz_prio::{Taken, can_take, escalate, execution_priority, is_negative, raw_priority};
use tz_regs::Core;
use tz_testing::Case;

/// Sets the execution priority that instructions are told, which may be below 0: `at PRIORITY`.
pub fn set_priority(priority: &mut i32, case: &mut Case<'_>) {
    match case.word(1).parse::<i32>() {
        Ok(number) => *priority = number,
        Err(_) => case.refuse(),
    }
}

/// Shows the priority that active slots give, the execution priority, and whether that is negative.
pub fn show_execution(core: &Core, exceptions: &Exceptions, case: &mut Case<'_>) {
    tell_count(case, raw_priority(exceptions));
    tell_count(case, execution_priority(core, exceptions));
    tell_flag(case, is_negative(core, exceptions))
}

/// Shows whether an exception can be taken, `takes NUMBER SIDE`, or what it becomes, `becomes NUMBER SIDE`.
pub fn show_taken(core: &Core, exceptions: &Exceptions, becomes: bool, case: &mut Case<'_>) {
    let slot = slot_of(case);
    if !exceptions.exists(slot) {
        return case.refuse();
    }
    if !becomes {
        return tell_flag(case, can_take(core, exceptions, slot));
    }
    case.tell_word(match escalate(core, exceptions, slot) {
        Taken::AsIs => "as is",
        Taken::Hard(Side::Secure) => "hard s",
        Taken::Hard(Side::NonSecure) => "hard ns",
        Taken::Lockup => "lockup",
    })
}

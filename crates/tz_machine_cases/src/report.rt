//! The report of a step as a line.

use tz_model::{CrossKind, Report, StepKind, Way};
use tz_testing::{Case, side_word};

/// What a step was, in a word.
pub fn kind_text(kind: StepKind) -> &'static str {
    match kind {
        StepKind::Locked => "locked",
        StepKind::Idle => "idle",
        StepKind::Taken { .. } => "taken",
        StepKind::Ran { .. } => "ran",
    }
}

/// Tells what a step was: an exception that was taken with its number and LR, an instruction with its address.
fn tell_kind(case: &mut Case<'_>, kind: StepKind) {
    case.tell(kind_text(kind));
    match kind {
        StepKind::Locked | StepKind::Idle => (),
        StepKind::Taken { number, lr } => {
            case.tell(" ");
            case.tell_decimal(i64::from(number));
            case.tell(" ");
            case.tell_hex(lr);
        }
        StepKind::Ran { pc, .. } => {
            case.tell(" ");
            case.tell_hex(pc);
        }
    }
}

/// Tells how a step crossed out of Secure state.
fn tell_crossing(case: &mut Case<'_>, way: Way) {
    case.tell(", ");
    case.tell(match way.kind {
        CrossKind::Return => "return",
        CrossKind::Call => "call",
        CrossKind::ExcReturn => "excreturn",
        CrossKind::Chain => "chain",
        CrossKind::Preempt => "preempt",
        CrossKind::Refused => "refused",
    });
    case.tell(" ");
    case.tell_decimal(i64::from(way.number));
    if let Some(lr) = way.lr {
        case.tell(" ");
        case.tell_hex(lr);
    }
}

/// Tells the sides at the start and the end of a step, whether it looked at Secure state, what it was, and how it
/// crossed out of Secure state, where it did.
pub fn tell_report(case: &mut Case<'_>, report: &Report) {
    case.tell(side_word(report.start));
    case.tell(" to ");
    case.tell(side_word(report.end));
    case.tell(if report.touched { ", touched, " } else { ", " });
    tell_kind(case, report.kind);
    if let Some(way) = report.way {
        tell_crossing(case, way);
    }
}

//! The report of cases: those whose answers aren't the wanted ones.

use crate::case::Case;
use crate::files::{case_of, repeated};
use std::alloc::{AllocError, Global};

/// What is asked of cases.
pub trait Answers {
    /// Tells a case its answer.
    fn answer(&self, case: &mut Case<'_>);
}

/// Tells a case its answer, and gives the one that is wanted.
fn ask<'a, A: Answers>(answers: &A, text: &'a str, case: &mut Case<'a>) -> &'a str {
    match text.split_once("=>") {
        Some((fields, wanted)) => {
            case.ask(fields);
            answers.answer(case);
            case.end();
            wanted.trim()
        }
        None => {
            case.ask("");
            case.refuse();
            ""
        }
    }
}

/// Tells a report of a case where its answer isn't the wanted one. Whether it is.
fn tell_case(report: &mut Case<'_>, place: &str, case: &Case<'_>, wanted: &str) -> bool {
    let found = case.answer();
    if matches!(found, Some(found) if found == wanted) {
        return true;
    }
    report.tell(place);
    match found {
        Some(found) => {
            report.tell(": found ");
            report.tell(found);
            report.tell(", not ");
            report.tell(wanted);
            report.tell("\n");
        }
        None => report.tell(": unread\n"),
    }
    false
}

/// The report of a text with a line for each case.
fn report_of<A: Answers>(alloc: Global, answers: &A, cases: &str) -> Result<String, AllocError> {
    let mut case = Case::new(alloc, cases);
    let mut report = Case::new(alloc, cases);
    let mut count = 0i64;
    let mut differing = 0i64;
    for line in cases.lines() {
        if !line.is_empty() {
            count = count.saturating_add(1);
            let (place, text) = case_of(line);
            let wanted = ask(answers, text, &mut case);
            if !tell_case(&mut report, place, &case, wanted) {
                differing = differing.saturating_add(1);
            }
        }
    }
    report.tell_decimal(count);
    report.tell(" cases, ");
    report.tell_decimal(differing);
    report.tell(" differ\n");
    report.share(&case);
    report.text()
}

/// The report of the cases of files: those whose answers aren't the wanted ones, by their places, and how many cases
/// there are. One case stands for all in turn, and the report is told as an answer is. Fails for want of
/// memory alone.
pub fn told<A: Answers>(alloc: Global, answers: &A, cases: &str) -> Result<String, AllocError> {
    let whole = repeated(alloc, cases)?;
    report_of(alloc, answers, whole.as_str())
}

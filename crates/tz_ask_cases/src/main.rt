//! The crates of the machine and its parts, case by case.
//!
//! The words of the command line name files of cases, whose heads tell what the fields are. A case's first field is its
//! kind. The answers were worked out by hand from DDI0553 and the board's map. The program prints the cases whose
//! answer isn't the wanted one, and how many cases there are. What cases ask is done by `tz_machine_cases` and
//! `tz_unit_cases`. Nothing stands on it.
#![tactic(auto)]

use std::{env, fs, io};
use tz_testing::{Answers, Case, add_file, told};

/// The crates below, as cases ask them.
struct Crates;

impl Answers for Crates {
    fn answer(&self, case: &mut Case<'_>) {
        let kind = case.field(0);
        if !tz_machine_cases::answer(case, kind) {
            tz_unit_cases::answer(case, kind);
        }
    }
}

fn main(rt: HostRuntime) -> io::Result<()> {
    let mut cases = String::new(rt.alloc());
    for (index, name) in env::args(&rt)?.enumerate() {
        // The first word is the program's.
        if index != 0 {
            let file = fs::read_to_string(&rt, name.as_str())?;
            add_file(&mut cases, name.as_str(), file.as_str())?;
        }
    }
    let text = told(rt.alloc(), &Crates, cases.as_str())?;
    print!(rt; "{text}")
}

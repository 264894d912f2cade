//! The machine, as cases ask it: its steps, entries of exceptions and returns from them, and frames over tables of
//! words.
//!
//! The program `tz_ask_cases` has the cases, in files whose heads tell what the fields are. A case's first field is its
//! kind.
//!
//! Cases of a machine, `ended` and `steps`, have the words that Secure code writes first, as `ADDRESS=WORD`, then
//! Secure code at 0x10000400 and Non-secure code at 0x00200400, whose lines are divided by `;`, and then what is seen
//! in the end, or where the code stands before the steps, and the steps. Cases of a bench, `frame`, `gate` and `entry`,
//! have words that set it up, call and look.
#![tactic(auto)]

mod bench;
mod calls;
mod report;
mod shown;
mod source;
mod steps;
mod values;

use tz_model::Profile;
use tz_testing::{Case, meant};

/// Registers 0x10 to 0x1c, as the cases of frames have them.
const FRAME: &str = "registers=0x10 lr=0x1e";

/// Secure code at 0x1000 in an IT block with its stacks, as the cases of calls between the sides have it.
const GATE: &str = "pc=0x1000 lr=0x1e it=0x48 s.msp=0x200 s.psp=0x300";

/// Code at 0x10000200 with its stacks, N set, and the faults of both sides enabled with priority 0, as the cases of
/// entries and returns have them.
const ENTRY: &str =
    "registers=0x100 lr=0x0eeeeee1 pc=0x10000200 apsr=0x80000000 t=1 s.msp=0x30001000 s.psp=0x30002000 \
ns.msp=0x20001000 ns.psp=0x20002000 enable=5s enable=6s enable=6ns enable=7s";

/// A kind of cases: of a machine, which runs until it takes an exception or locks, or step by step; or of a bench, with
/// the words that set it up.
enum Kind {
    Ended,
    Steps(Profile),
    Bench(&'static str),
}

static KINDS: [(&str, Kind); 6] = [
    ("ended", Kind::Ended),
    ("steps", Kind::Steps(Profile::V80)),
    ("steps of v8.1", Kind::Steps(Profile::V81)),
    ("frame", Kind::Bench(FRAME)),
    ("gate", Kind::Bench(GATE)),
    ("entry", Kind::Bench(ENTRY)),
];

/// Tells a case of a kind its answer. Whether there is such a kind.
pub fn answer(case: &mut Case<'_>, kind: &str) -> bool {
    match meant(&KINDS, kind) {
        Some(Kind::Ended) => steps::ended(case),
        Some(Kind::Steps(profile)) => steps::stepped(case, *profile),
        Some(Kind::Bench(base)) => bench::followed(case, base),
        None => return false,
    }
    true
}

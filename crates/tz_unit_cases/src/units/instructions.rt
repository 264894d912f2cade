//! Instructions: the code or the name of one, what stands in the core before it, and for loads, stores and branches the
//! table that memory is and the address that fails. The answer is how it goes on and what it changes.

mod named;
mod start;
mod told;

use crate::units::words::set_port;
use named::insn_of;
use start::core_of;
use told::{tell_step, tell_stores};
use tz_testing::{Case, TablePort};

/// A family of instructions. Data processing reaches no memory.
#[derive(Clone, Copy, PartialEq, Eq)]
pub enum Family {
    Data,
    Branch,
    LoadStore,
}

/// Tells what an instruction of a family does, and which stores it makes.
pub fn answer(case: &mut Case<'_>, family: &Family) {
    let insn = insn_of(case);
    let before = core_of(case);
    let mut port = TablePort::new(&[], None);
    if *family != Family::Data {
        set_port(case, &mut port, 3);
    }
    let kept = port.entries.len();
    if kept > 16 {
        return case.refuse();
    }
    let mut after = before;
    let outcome = match family {
        Family::Data => tz_alu::execute(&insn, &mut after),
        Family::Branch => tz_branch::execute(&insn, &mut after, &mut port),
        Family::LoadStore => tz_loadstore::execute(&insn, &mut after, &mut port),
    };
    tell_step(case, &outcome, &before, &after);
    tell_stores(case, &port, kept);
}

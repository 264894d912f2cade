//! The words and numbers of a table, with the address that fails.

use tz_testing::{Case, TableEntry, TablePort};

/// Adds the entries that the field at a place says, words `ADDRESS=NUMBER`, to a table of at most 16, and sets the
/// address that fails, which the field behind it says where it isn't empty.
pub fn set_port(case: &mut Case<'_>, port: &mut TablePort, index: usize) {
    for word in case.field(index).split_whitespace() {
        let (addr, value) = word.split_once('=').unwrap_or((word, ""));
        let addr = case.number_in(addr);
        let value = case.number_in(value);
        if port.entries.len() >= 16 || port.entries.try_push(TableEntry { addr, value }).is_err() {
            case.refuse();
        }
    }
    let failing = case.field(index.saturating_add(1));
    if !failing.is_empty() {
        port.failing = Some(case.number_in(failing));
    }
}

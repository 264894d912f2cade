//! What needs a look at the slots, with a count of looks that stands in proofs alone.

ghost use Rattle.std.specs.Prelude.{◌≡◌, ◌<◌};

use crate::words::{tell_count, tell_flag};
use std::marker::Brand;
use std::mem::size_of;
use std::sync::ledger::{Blank, Ledger};
use tz_model::Side;
use tz_nvic::{Exceptions, Steps};
use tz_prio::{takes_first, wakes};
use tz_regs::Core;
use tz_testing::{Case, side_word};

/// The number and the side of the chosen exception, whether the first can be taken, and whether it would be with both
/// PRIMASKs 0.
fn found_by<L: Ledger>(
    blank: Blank,
    core: &Core,
    exceptions: &Exceptions,
) -> (Option<(u16, Side)>, bool, bool)
    requires name { blank.name ≡ L.name }
    requires parts { blank.parts ≡ L.parts }
    requires some_part { 0 < blank.parts }
{
    let mut looks = Steps::<L>::start(blank);
    let chosen = match exceptions.chosen(&mut looks) {
        Some(slot) => Some((slot.number, slot.side)),
        None => None,
    };
    let takes = takes_first(core, exceptions, &mut looks);
    (chosen, takes, wakes(core, exceptions, &mut looks))
}

/// The same, with a count of its own.
fn found(core: &Core, exceptions: &Exceptions) -> (Option<(u16, Side)>, bool, bool) {
    found_by::<Brand>(Blank::new(1), core, exceptions)
}

/// Looks for the chosen exception where it isn't known.
fn settle_by<L: Ledger>(blank: Blank, exceptions: &mut Exceptions)
    requires name { blank.name ≡ L.name }
    requires parts { blank.parts ≡ L.parts }
    requires some_part { 0 < blank.parts }
{
    let mut looks = Steps::<L>::start(blank);
    exceptions.settle(&mut looks);
}

/// The same, with a count of its own.
pub fn settle(exceptions: &mut Exceptions) {
    settle_by::<Brand>(Blank::new(1), exceptions);
}

/// Shows the number and the side of the chosen exception, or `none`.
pub fn show_chosen(exceptions: &Exceptions, case: &mut Case<'_>) {
    let (chosen, _, _) = found(&Core::new(), exceptions);
    match chosen {
        Some((number, side)) => {
            tell_count(case, i32::from(number));
            case.tell_word(side_word(side))
        }
        None => case.tell_word("none"),
    }
}

/// Shows the chosen exception; the least priority of what is active, four above the manual's; whether an interrupt is
/// pending; and RETTOBASE in the handler of a number: `known NUMBER`.
pub fn show_known(exceptions: &Exceptions, case: &mut Case<'_>) {
    show_chosen(exceptions, case);
    tell_count(case, exceptions.raw_priority() as i32);
    tell_flag(case, exceptions.is_interrupt_pending());
    let number = case.half(1);
    tell_flag(case, exceptions.returns_to_base(number));
}

/// Shows whether the first exception is taken, and whether it ends a sleep.
pub fn show_first(core: &Core, exceptions: &Exceptions, case: &mut Case<'_>) {
    let (_, takes, wakes) = found(core, exceptions);
    tell_flag(case, takes);
    tell_flag(case, wakes)
}

/// Whether the count of looks takes no byte.
pub fn has_no_size() -> bool {
    size_of::<Steps<Brand>>() == 0
}

//! The exception that comes first, after a look at the slots where one has changed. The looks aren't counted for
//! anyone.

ghost use Rattle.std.specs.Prelude.{◌≡◌, ◌<◌, true, IfSome};
ghost use Rattle.tz_state.specs.Slots.{exists};
ghost use Rattle.tz_state.specs.Priority as first;
ghost use Rattle.tz_state.specs.Execution as told;

use std::marker::Brand;
use std::sync::ledger::{Blank, Ledger};
use tz_model::Slot;
use tz_nvic::Exceptions;
use tz_prio::takes_first;
use tz_ready::Steps;
use tz_regs::Core;

/// Whether the exception that comes first can be taken, with a ledger of the looks.
fn takes_counted<L: Ledger>(blank: Blank, core: &Core, exceptions: &mut Exceptions) -> bool
    requires name { blank.name ≡ L.name }
    requires parts { blank.parts ≡ L.parts }
    requires some_part { 0 < blank.parts }
    ensures same { exceptions.new ≡ exceptions.old }
    ensures takes { result ≡ told.takes_first exceptions.old core.now.masks }
{
    let mut looks = Steps::<L>::start(blank);
    exceptions.settle(&mut looks);
    takes_first(core, exceptions, &mut looks)
}

/// The exception that comes first, with a ledger of the looks.
fn chosen_counted<L: Ledger>(blank: Blank, exceptions: &mut Exceptions) -> Option<Slot>
    requires name { blank.name ≡ L.name }
    requires parts { blank.parts ≡ L.parts }
    requires some_part { 0 < blank.parts }
    ensures same { exceptions.new ≡ exceptions.old }
    ensures is { result ≡ first.chosen exceptions.old }
    ensures exists { IfSome result (λ slot. exists exceptions.old slot ≡ true) }
{
    let mut looks = Steps::<L>::start(blank);
    exceptions.settle(&mut looks);
    exceptions.chosen(&mut looks)
}

/// Whether the exception that comes first (DDI0553, `PendingExceptionDetails`) is there, and its group priority is
/// below the execution priority. The slots are looked at once after a change.
#[inline(always)]
pub fn takes_first_uncounted(core: &Core, exceptions: &mut Exceptions) -> bool
    ensures same { exceptions.new ≡ exceptions.old }
    ensures takes { result ≡ told.takes_first exceptions.old core.now.masks }
{
    takes_counted::<Brand>(Blank::new(1), core, exceptions)
}

/// The exception that comes first, None exactly where none is pending and enabled. It exists.
pub(crate) fn chosen(exceptions: &mut Exceptions) -> Option<Slot>
    ensures same { exceptions.new ≡ exceptions.old }
    ensures is { result ≡ first.chosen exceptions.old }
    ensures exists { IfSome result (λ slot. exists exceptions.old slot ≡ true) }
{
    chosen_counted::<Brand>(Blank::new(1), exceptions)
}

//! Exceptions of the system, of numbers below 16, as the view of a side shows them; and SHPR1 to SHPR3
//! (DDI0553, chapter D1.2).

ghost use Rattle.std.specs.Prelude.{◌≡◌, ◌≤◌, IsTrue, true};
ghost use Rattle.tz_state.specs.Slots.{is_system};
ghost use Rattle.tz_state.specs.ControlRegisters.{sees_number, slot_seen, with_number, has_byte, byte_seen, with_byte_seen, shpr_value, shpr_written};

use crate::views::{sees_bus, sees_secure};
use tz_model::{Side, Slot};
use tz_nvic::Exceptions;
use tz_state::SlotState;
use tz_state::exception::{
    BUS_FAULT, MEM_MANAGE, NMI, PEND_SV, SECURE_FAULT, SV_CALL, SYS_TICK, USAGE_FAULT,
};

/// Whether a view shows a number.
pub(crate) fn sees_number(exceptions: &Exceptions, side: Side, number: u16) -> bool
    ensures { result ≡ sees_number side exceptions.now number }
{
    if number == SECURE_FAULT {
        sees_secure(side)
    } else if number == NMI || number == BUS_FAULT {
        sees_bus(side, exceptions.fault_side())
    } else {
        true
    }
}

/// What is kept of a number of the system, on the view's side where it is banked.
pub(crate) fn slot_seen(exceptions: &Exceptions, side: Side, number: u16) -> SlotState
    requires { is_system number ≡ true }
    ensures { result ≡ slot_seen side exceptions.now number }
{
    exceptions.at(exceptions.place_of(Slot { number, side }))
}

/// Replaces what is kept of it.
pub(crate) fn put_number(exceptions: &mut Exceptions, side: Side, number: u16, state: SlotState)
    requires { is_system number ≡ true }
    ensures { exceptions.new ≡ with_number side exceptions.old number true state }
{
    let place = exceptions.place_of(Slot { number, side });
    exceptions.put_at(place, state);
}

/// Whether a number has a priority that can be written.
fn has_byte(number: u16) -> bool
    ensures is { result ≡ has_byte number }
    ensures system { IsTrue result → is_system number ≡ true }
{
    matches!(
        number,
        MEM_MANAGE | BUS_FAULT | USAGE_FAULT | SECURE_FAULT | SV_CALL | PEND_SV | SYS_TICK
    )
}

/// The byte of a number in SHPR.
fn byte_seen(exceptions: &Exceptions, side: Side, number: u16) -> u8
    ensures { result ≡ byte_seen side exceptions.now number }
{
    if has_byte(number) && sees_number(exceptions, side, number) {
        slot_seen(exceptions, side, number).priority
    } else {
        0
    }
}

fn write_byte(exceptions: &mut Exceptions, side: Side, number: u16, byte: u8)
    ensures { exceptions.new ≡ with_byte_seen side exceptions.old number byte }
{
    if has_byte(number) && sees_number(exceptions, side, number) {
        let state = SlotState {
            priority: byte,
            ..slot_seen(exceptions, side, number)
        };
        put_number(exceptions, side, number, state);
    }
}

/// What the word of SHPR shows whose first byte is that of a number.
pub(crate) fn shpr_value(exceptions: &Exceptions, side: Side, number: u16) -> u32
    requires { number ≤ 12 }
    ensures { result ≡ shpr_value side exceptions.now number }
{
    u32::from_le_bytes([
        byte_seen(exceptions, side, number),
        byte_seen(exceptions, side, number + 1),
        byte_seen(exceptions, side, number + 2),
        byte_seen(exceptions, side, number + 3),
    ])
}

/// Writes the word of SHPR whose first byte is that of a number.
#[tactic(auto, unfolding(tz_state::specs::ControlRegisters::shpr_written))]
pub(crate) fn write_shpr(exceptions: &mut Exceptions, side: Side, number: u16, value: u32)
    requires { number ≤ 12 }
    ensures { exceptions.new ≡ shpr_written side exceptions.old number value }
{
    let [first, second, third, fourth] = value.to_le_bytes();
    write_byte(exceptions, side, number, first);
    write_byte(exceptions, side, number + 1, second);
    write_byte(exceptions, side, number + 2, third);
    write_byte(exceptions, side, number + 3, fourth);
}

//! ICSR, AIRCR, VTOR, CCR and SHCSR (DDI0553, chapter D1.2).

ghost use Rattle.std.specs.Prelude.{◌≡◌, ◌<◌, true};
ghost use Rattle.tz_state.specs.Slots.{is_system};
ghost use Rattle.tz_state.specs.Pieces.{bit_at};
ghost use Rattle.tz_state.specs.Priority.{chosen};
ghost use Rattle.tz_state.specs.ControlRegisters.{shows_active, shows_pending, shows_enabled, pending_number, icsr_value, pends, icsr_written, aircr_value, has_key, aircr_written, vtor_written, ccr_value, ccr_written, shcsr_value, enables, shcsr_written};

use crate::bits::*;
use crate::numbers::{put_number, sees_number, slot_seen};
use crate::pieces::{flag, is_bit};
use std::marker::Brand;
use std::sync::ledger::{Blank, Ledger};
use tz_model::{Side, Slot};
use tz_nvic::Exceptions;
use tz_ready::Steps;
use tz_regs::SideStatus;
use tz_regs::register_bits::{CCR_BITS, CCR_RES1};
use tz_state::SlotState;
use tz_state::exception::{
    BUS_FAULT, HARD_FAULT, MEM_MANAGE, NMI, PEND_SV, SECURE_FAULT, SV_CALL, SYS_TICK, USAGE_FAULT,
};

/// The bit that tells a number of the system active.
fn active_flag(exceptions: &Exceptions, side: Side, number: u16, bit: u32) -> u32
    requires number { is_system number ≡ true }
    requires bit { bit < 32 }
    ensures { result ≡ bit_at (shows_active side exceptions.now number) bit }
{
    let shows = sees_number(exceptions, side, number) && slot_seen(exceptions, side, number).active;
    flag(shows, bit)
}

/// The bit that tells a number of the system pending.
fn pending_flag(exceptions: &Exceptions, side: Side, number: u16, bit: u32) -> u32
    requires number { is_system number ≡ true }
    requires bit { bit < 32 }
    ensures { result ≡ bit_at (shows_pending side exceptions.now number) bit }
{
    let shows = sees_number(exceptions, side, number)
        && slot_seen(exceptions, side, number).pending;
    flag(shows, bit)
}

/// The bit that tells a number of the system enabled.
fn enabled_flag(exceptions: &Exceptions, side: Side, number: u16, bit: u32) -> u32
    requires number { is_system number ≡ true }
    requires bit { bit < 32 }
    ensures { result ≡ bit_at (shows_enabled side exceptions.now number) bit }
{
    let shows = sees_number(exceptions, side, number)
        && slot_seen(exceptions, side, number).enabled;
    flag(shows, bit)
}

/// VECTPENDING. Non-secure code learns of a Secure exception that there is one, by the number 1.
fn pending_number(side: Side, chosen: Option<Slot>) -> u32
    ensures is { result ≡ pending_number side chosen }
    ensures few { result < 65536 }
{
    match chosen {
        None => 0,
        Some(slot) => match side {
            Side::Secure => u32::from(slot.number),
            Side::NonSecure => {
                if slot.side == Side::NonSecure {
                    u32::from(slot.number)
                } else {
                    1
                }
            }
        },
    }
}

/// The exception that comes first, by a search whose looks aren't counted for anyone.
fn chosen_counted<L: Ledger>(blank: Blank, exceptions: &Exceptions) -> Option<Slot>
    requires name { blank.name ≡ L.name }
    requires parts { blank.parts ≡ L.parts }
    requires some_part { 0 < blank.parts }
    ensures { result ≡ chosen exceptions.now }
{
    let mut looks = Steps::<L>::start(blank);
    exceptions.chosen(&mut looks)
}

/// What ICSR shows, where `ipsr` is the number of the exception that is handled, 0 for none.
pub(crate) fn icsr_value(exceptions: &Exceptions, side: Side, ipsr: u16) -> u32
    ensures { result ≡ icsr_value side exceptions.now ipsr }
{
    let first = chosen_counted::<Brand>(Blank::new(1), exceptions);
    u32::from(ipsr)
        | flag(exceptions.returns_to_base(ipsr), ICSR_RETTOBASE)
        | pending_number(side, first) * (1 << ICSR_VECTPENDING)
        | flag(exceptions.is_interrupt_pending(), ICSR_ISRPENDING)
        | pending_flag(exceptions, side, SYS_TICK, ICSR_PENDSTSET)
        | pending_flag(exceptions, side, PEND_SV, ICSR_PENDSVSET)
        | pending_flag(exceptions, side, NMI, ICSR_PENDNMISET)
}

/// Pends a number of the system, or makes it not pending, where the view shows it; to do both pends it.
fn move_pending(exceptions: &mut Exceptions, side: Side, number: u16, set: bool, clear: bool)
    requires { is_system number ≡ true }
    ensures { exceptions.new ≡ pends side exceptions.old number set clear }
{
    if sees_number(exceptions, side, number) {
        let state = slot_seen(exceptions, side, number);
        let pending = set || !clear && state.pending;
        put_number(exceptions, side, number, SlotState { pending, ..state });
    }
}

/// Writes ICSR: PENDSTSET and PENDSTCLR, PENDSVSET and PENDSVCLR, PENDNMISET and PENDNMICLR.
#[tactic(auto, unfolding(tz_state::specs::ControlRegisters::icsr_written))]
pub(crate) fn write_icsr(exceptions: &mut Exceptions, side: Side, value: u32)
    ensures { exceptions.new ≡ icsr_written side exceptions.old value }
{
    move_pending(
        exceptions,
        side,
        SYS_TICK,
        is_bit(value, ICSR_PENDSTSET),
        is_bit(value, ICSR_PENDSTCLR),
    );
    move_pending(
        exceptions,
        side,
        PEND_SV,
        is_bit(value, ICSR_PENDSVSET),
        is_bit(value, ICSR_PENDSVCLR),
    );
    move_pending(
        exceptions,
        side,
        NMI,
        is_bit(value, ICSR_PENDNMISET),
        is_bit(value, ICSR_PENDNMICLR),
    );
}

/// What AIRCR shows; PRIS is Secure alone.
pub(crate) fn aircr_value(exceptions: &Exceptions, side: Side) -> u32
    ensures { result ≡ aircr_value side exceptions.now }
{
    let key = VECTKEYSTAT << AIRCR_VECTKEY;
    let bfhfnmins = flag(exceptions.fault_side(), AIRCR_BFHFNMINS);
    let prigroup = u32::from(exceptions.grouping(side)) * (1 << AIRCR_PRIGROUP);
    match side {
        Side::Secure => key | flag(exceptions.pris(), AIRCR_PRIS) | bfhfnmins | prigroup,
        Side::NonSecure => key | bfhfnmins | prigroup,
    }
}

/// Whether a word has the key of AIRCR.
fn has_key(value: u32) -> bool
    ensures { result ≡ has_key value }
{
    value >> AIRCR_VECTKEY == VECTKEY
}

/// Writes AIRCR, where the word has the key: PRIGROUP of the view's side, and by the Secure view PRIS and
/// BFHFNMINS. BFHFNMINS stays while NMI, BusFault or a HardFault is pending or active.
pub(crate) fn write_aircr(exceptions: &mut Exceptions, side: Side, value: u32)
    ensures { exceptions.new ≡ aircr_written side exceptions.old value }
{
    if has_key(value) {
        exceptions.set_grouping(side, ((value >> AIRCR_PRIGROUP) % 8) as u8);
        match side {
            Side::Secure => {
                exceptions.set_fault_side(is_bit(value, AIRCR_BFHFNMINS));
                exceptions.set_pris(is_bit(value, AIRCR_PRIS));
            }
            Side::NonSecure => {}
        }
    }
}

/// The registers of a side with VTOR written.
pub(crate) fn vtor_written(own: SideStatus, value: u32) -> SideStatus
    ensures { result ≡ vtor_written own value }
{
    SideStatus {
        vtor: value / 128 * 128,
        ..own
    }
}

/// What CCR shows.
pub(crate) fn ccr_value(own: &SideStatus) -> u32
    ensures { result ≡ ccr_value own.now }
{
    own.ccr | CCR_RES1
}

/// The registers of a side with CCR written: UNALIGN_TRP and DIV_0_TRP.
pub(crate) fn ccr_written(own: SideStatus, value: u32) -> SideStatus
    ensures { result ≡ ccr_written own value }
{
    SideStatus {
        ccr: value & CCR_BITS,
        ..own
    }
}

/// What SHCSR shows.
pub(crate) fn shcsr_value(exceptions: &Exceptions, side: Side) -> u32
    ensures { result ≡ shcsr_value side exceptions.now }
{
    active_flag(exceptions, side, MEM_MANAGE, SHCSR_MEMFAULTACT)
        | active_flag(exceptions, side, BUS_FAULT, SHCSR_BUSFAULTACT)
        | active_flag(exceptions, side, HARD_FAULT, SHCSR_HARDFAULTACT)
        | active_flag(exceptions, side, USAGE_FAULT, SHCSR_USGFAULTACT)
        | active_flag(exceptions, side, SECURE_FAULT, SHCSR_SECUREFAULTACT)
        | active_flag(exceptions, side, NMI, SHCSR_NMIACT)
        | active_flag(exceptions, side, SV_CALL, SHCSR_SVCALLACT)
        | active_flag(exceptions, side, PEND_SV, SHCSR_PENDSVACT)
        | active_flag(exceptions, side, SYS_TICK, SHCSR_SYSTICKACT)
        | pending_flag(exceptions, side, USAGE_FAULT, SHCSR_USGFAULTPENDED)
        | pending_flag(exceptions, side, MEM_MANAGE, SHCSR_MEMFAULTPENDED)
        | pending_flag(exceptions, side, BUS_FAULT, SHCSR_BUSFAULTPENDED)
        | pending_flag(exceptions, side, SV_CALL, SHCSR_SVCALLPENDED)
        | enabled_flag(exceptions, side, MEM_MANAGE, SHCSR_MEMFAULTENA)
        | enabled_flag(exceptions, side, BUS_FAULT, SHCSR_BUSFAULTENA)
        | enabled_flag(exceptions, side, USAGE_FAULT, SHCSR_USGFAULTENA)
        | enabled_flag(exceptions, side, SECURE_FAULT, SHCSR_SECUREFAULTENA)
        | pending_flag(exceptions, side, SECURE_FAULT, SHCSR_SECUREFAULTPENDED)
        | pending_flag(exceptions, side, HARD_FAULT, SHCSR_HARDFAULTPENDED)
}

/// Enables or disables a number of the system, where the view shows it.
fn enable(exceptions: &mut Exceptions, side: Side, number: u16, on: bool)
    requires { is_system number ≡ true }
    ensures { exceptions.new ≡ enables side exceptions.old number on }
{
    if sees_number(exceptions, side, number) {
        let state = slot_seen(exceptions, side, number);
        put_number(
            exceptions,
            side,
            number,
            SlotState {
                enabled: on,
                ..state
            },
        );
    }
}

/// Writes SHCSR: what is enabled, and nothing else.
#[tactic(auto, unfolding(tz_state::specs::ControlRegisters::shcsr_written))]
pub(crate) fn write_shcsr(exceptions: &mut Exceptions, side: Side, value: u32)
    ensures { exceptions.new ≡ shcsr_written side exceptions.old value }
{
    enable(
        exceptions,
        side,
        MEM_MANAGE,
        is_bit(value, SHCSR_MEMFAULTENA),
    );
    enable(
        exceptions,
        side,
        BUS_FAULT,
        is_bit(value, SHCSR_BUSFAULTENA),
    );
    enable(
        exceptions,
        side,
        USAGE_FAULT,
        is_bit(value, SHCSR_USGFAULTENA),
    );
    enable(
        exceptions,
        side,
        SECURE_FAULT,
        is_bit(value, SHCSR_SECUREFAULTENA),
    );
}

//! The parts of the public state, in two machines.

ghost use Rattle.std.specs.Prelude.{◌≡◌, ◌==◌, not, false, ◌∷◌, []};
ghost use Rattle.tz_state.specs.Difference.{sau_differs, mpu_differs, exceptions_differ as differ};
ghost use Rattle.tz_twin.specs.Writing.{with_timers_of};
ghost use Rattle.tz_iso.specs.Marks.{Marked};
ghost use Rattle.tz_iso.specs.Parts.{is_same_sp, is_same_limits, is_same_control, is_same_side_masks, is_same_masks, is_same_side_faults, is_same_bus_faults, is_same_faults, is_same_timer, is_same_timers, is_same_monitor, is_same_sleep, is_same_rest, is_same_channel};
ghost use Rattle.tz_iso.specs.What.{first_apart, public_apart};

use crate::answer::What;
use crate::compared::{bytes_differ, exceptions_differ, sau_differs};
use crate::handed::is_same_flag;
use crate::marks::Marks;
use tz_access::Bus;
use tz_core::Machine;
use tz_model::{Channel, Side, Sleep};
use tz_nvic::Exceptions;
use tz_regs::{BusStatus, Masks, SideMasks, SideStatus, Stacks};
use tz_state::Timer;

/// Whether MSP and PSP are the same.
fn is_same_sp(a: &Stacks, b: &Stacks) -> bool
    ensures { result ≡ is_same_sp a.now b.now }
{
    a.msp == b.msp && a.psp == b.psp
}

/// Whether MSPLIM and PSPLIM are the same.
fn is_same_limits(a: &Stacks, b: &Stacks) -> bool
    ensures { result ≡ is_same_limits a.now b.now }
{
    a.msplim == b.msplim && a.psplim == b.psplim
}

/// Whether CONTROL is the same.
fn is_same_control(a: &Stacks, b: &Stacks) -> bool
    ensures { result ≡ is_same_control a.now b.now }
{
    is_same_flag(a.npriv, b.npriv) && is_same_flag(a.spsel, b.spsel)
}

/// Whether the masks of a side are the same.
fn is_same_side_masks(a: &SideMasks, b: &SideMasks) -> bool
    ensures { result ≡ is_same_side_masks a.now b.now }
{
    is_same_flag(a.primask, b.primask)
        && a.basepri == b.basepri
        && is_same_flag(a.faultmask, b.faultmask)
}

/// Whether the masks of both sides are the same.
fn is_same_masks(a: &Masks, b: &Masks) -> bool
    ensures { result ≡ is_same_masks a.now b.now }
{
    is_same_side_masks(&a.s, &b.s) && is_same_side_masks(&a.ns, &b.ns)
}

/// Whether the fault registers of a side are the same.
fn is_same_side_faults(a: &SideStatus, b: &SideStatus) -> bool
    ensures { result ≡ is_same_side_faults a.now b.now }
{
    a.ufsr == b.ufsr && a.mmfsr == b.mmfsr && a.mmfar == b.mmfar
}

/// Whether the fault registers of BusFault and HardFault are the same.
fn is_same_bus_faults(a: &BusStatus, b: &BusStatus) -> bool
    ensures { result ≡ is_same_bus_faults a.now b.now }
{
    a.bfsr == b.bfsr && a.bfar == b.bfar && a.hfsr == b.hfsr
}

/// Whether the fault registers that are public are the same.
fn is_same_faults(m: &Machine, n: &Machine) -> bool
    ensures { result ≡ is_same_faults m.now n.now }
{
    let a = &m.core().status;
    let b = &n.core().status;
    let open = m.exceptions().fault_side() && n.exceptions().fault_side();
    is_same_side_faults(&a.ns, &b.ns) && (!open || is_same_bus_faults(&a.bus, &b.bus))
}

/// Whether a timer is the same.
fn is_same_timer(a: Timer, b: Timer) -> bool
    ensures { result ≡ is_same_timer a b }
{
    a.csr == b.csr && a.rvr == b.rvr && a.cvr == b.cvr
}

/// Whether the timers of both sides are the same.
pub fn is_same_timers(e: &Exceptions, f: &Exceptions) -> bool
    ensures { result ≡ is_same_timers e.now f.now }
{
    is_same_timer(e.timer(Side::Secure), f.timer(Side::Secure))
        && is_same_timer(e.timer(Side::NonSecure), f.timer(Side::NonSecure))
}

/// Whether the exclusive monitor holds the same, or nothing, in both.
fn is_same_monitor(b: &Bus, c: &Bus) -> bool
    ensures { result ≡ is_same_monitor b.now.state.monitor c.now.state.monitor }
{
    match b.monitor() {
        None => c.monitor().is_none(),
        Some((addr, size)) => match c.monitor() {
            None => false,
            Some((other, wide)) => addr == other && size == wide,
        },
    }
}

/// Whether both wait for the same, or neither waits.
fn is_same_sleep(a: Sleep, b: Sleep) -> bool
    ensures { result ≡ is_same_sleep a b }
{
    match a {
        Sleep::Awake => matches!(b, Sleep::Awake),
        Sleep::Wfi => matches!(b, Sleep::Wfi),
        Sleep::Wfe => matches!(b, Sleep::Wfe),
    }
}

/// Whether the exclusive monitor, the event flag, and what the core waits for are the same.
fn is_same_rest(m: &Machine, n: &Machine) -> bool
    ensures { result ≡ is_same_rest m.now n.now }
{
    let a = m.core();
    let b = n.core();
    is_same_monitor(m.bus(), n.bus())
        && is_same_flag(a.event, b.event)
        && is_same_sleep(a.run.sleep, b.run.sleep)
}

/// Whether a channel of the mover is the same.
fn is_same_channel(a: &Channel, b: &Channel) -> bool
    ensures { result ≡ is_same_channel a.now b.now }
{
    a.src == b.src && a.dst == b.dst && a.count == b.count && a.ctrl == b.ctrl
}

/// What of the stacks isn't the same.
fn stacks_apart(a: &Stacks, b: &Stacks) -> Option<What>
    ensures { result ≡ first_apart ((is_same_sp a.now b.now, What.Sp) ∷ (is_same_limits a.now b.now, What.Limit) ∷ (is_same_control a.now b.now, What.Control) ∷ []) }
{
    if !is_same_sp(a, b) {
        return Some(What::Sp);
    }
    if !is_same_limits(a, b) {
        return Some(What::Limit);
    }
    if !is_same_control(a, b) {
        return Some(What::Control);
    }
    None
}

/// Which of the units that guard memory isn't the same.
fn units_apart(marks: &Marks, b: &Bus, c: &Bus) -> Option<What>
    requires { marks.now.all ≡ false → b.now.state.sau ≡ c.now.state.sau }
    ensures { result ≡ first_apart ((not (sau_differs b.now.state.sau c.now.state.sau), What.Sau) ∷ (not (mpu_differs b.now.state.mpu_ns c.now.state.mpu_ns), What.Mpu) ∷ []) }
{
    if sau_differs(marks, b, c) {
        return Some(What::Sau);
    }
    if b.mpu(Side::NonSecure).differs(c.mpu(Side::NonSecure)) {
        return Some(What::Mpu);
    }
    None
}

/// What of what the core waits for, or of the mover, isn't the same.
fn last_apart(m: &Machine, n: &Machine) -> Option<What>
    ensures { result ≡ first_apart ((is_same_rest m.now n.now, What.Sleep) ∷ (is_same_channel m.now.core.status.ns.channel n.now.core.status.ns.channel, What.Mover) ∷ []) }
{
    if !is_same_rest(m, n) {
        return Some(What::Sleep);
    }
    let a = &m.core().status.ns.channel;
    let b = &n.core().status.ns.channel;
    if !is_same_channel(a, b) {
        return Some(What::Mover);
    }
    None
}

/// What of the exceptions, or of the parts after them, isn't the same.
fn rest_apart(marks: &Marks, m: &Machine, n: &Machine) -> Option<What>
    requires { marks.now.exceptions ≡ false → m.now.exceptions ≡ with_timers_of m.now.exceptions n.now.exceptions }
    ensures { result ≡ first_apart ((not (differ m.now.exceptions n.now.exceptions), What.Exceptions) ∷ (is_same_timers m.now.exceptions n.now.exceptions, What.Systick) ∷ (is_same_rest m.now n.now, What.Sleep) ∷ (is_same_channel m.now.core.status.ns.channel n.now.core.status.ns.channel, What.Mover) ∷ []) }
{
    if exceptions_differ(marks, m.exceptions(), n.exceptions()) {
        return Some(What::Exceptions);
    }
    if !is_same_timers(m.exceptions(), n.exceptions()) {
        return Some(What::Systick);
    }
    last_apart(m, n)
}

/// What of the status registers, or of the parts after them, isn't the same.
fn status_apart(marks: &Marks, m: &Machine, n: &Machine) -> Option<What>
    requires { marks.now.exceptions ≡ false → m.now.exceptions ≡ with_timers_of m.now.exceptions n.now.exceptions }
    ensures { result ≡ first_apart ((m.now.core.status.ns.vtor == n.now.core.status.ns.vtor, What.Vtor) ∷ (m.now.core.status.ns.ccr == n.now.core.status.ns.ccr, What.Ccr) ∷ (is_same_faults m.now n.now, What.Fault) ∷ (not (differ m.now.exceptions n.now.exceptions), What.Exceptions) ∷ (is_same_timers m.now.exceptions n.now.exceptions, What.Systick) ∷ (is_same_rest m.now n.now, What.Sleep) ∷ (is_same_channel m.now.core.status.ns.channel n.now.core.status.ns.channel, What.Mover) ∷ []) }
{
    let a = &m.core().status.ns;
    let b = &n.core().status.ns;
    if a.vtor != b.vtor {
        return Some(What::Vtor);
    }
    if a.ccr != b.ccr {
        return Some(What::Ccr);
    }
    if !is_same_faults(m, n) {
        return Some(What::Fault);
    }
    rest_apart(marks, m, n)
}

/// The first part of the public state that isn't the same.
pub fn public_apart(marks: &Marks, m: &Machine, n: &Machine) -> Option<What>
    requires same { m.now.bus.board.regions ≡ n.now.bus.board.regions }
    requires marked { Marked marks.now m.now n.now }
    ensures { result ≡ public_apart m.now n.now }
{
    if bytes_differ(marks, m.bus(), n.bus()) {
        return Some(What::Bytes);
    }
    if let Some(what) = stacks_apart(&m.core().stacks_ns, &n.core().stacks_ns) {
        return Some(what);
    }
    if !is_same_masks(&m.core().masks, &n.core().masks) {
        return Some(What::Mask);
    }
    if let Some(what) = units_apart(marks, m.bus(), n.bus()) {
        return Some(what);
    }
    status_apart(marks, m, n)
}

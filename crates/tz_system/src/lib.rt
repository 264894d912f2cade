//! System instructions: special registers, masks, hints, barriers, TT, and the exceptions that code raises
//! (DDI0553, chapter C2).
//!
//! Each function does one form, as `tz_sem`'s `specs/System.antt` defines it. Registers and masks are
//! written by `tz_regs` alone. Of the bus TT asks its word, and CLREX clears the monitor; nothing else of the
//! machine is known here.
#![tactic(auto)]

ghost use Rattle.std.specs.Prelude.{◌≡◌};
ghost use Rattle.tz_table.specs.declared.instruction.Insn.TheVariants.{Barrier};
ghost use Rattle.tz_regs.specs.Registers.{reg_of};
ghost use Rattle.tz_regs.specs.Special.{named_of};
ghost use Rattle.tz_state.specs.Target.{target_word};
ghost use Rattle.tz_sem.specs.Exec.{cleared_by, system_over};
ghost use Rattle.tz_sem.specs.Local.{finished_named};
ghost use Rattle.tz_sem.specs.System.{passes, waits_for_event, finish_hint, finish_read, finish_write, asked, finish_test, finish_lazy};

use tz_access::Bus;
use tz_model::{Fault, Outcome};
use tz_regs::Core;
use tz_state::Probe;
use tz_table::{BarrierOp, Insn, Side};

/// Goes on with nothing changed.
fn pass(core: &Core) -> Result<Outcome, Fault>
    ensures { finished_named core.now (passes (named_of core.now)) ≡ (core.now, result) }
{
    Ok(Outcome::Next)
}

/// WFE: clears the event flag where it is set, else sleeps until an event.
fn wait_for_event(core: &mut Core) -> Result<Outcome, Fault>
    ensures { finished_named core.old (waits_for_event (named_of core.old)) ≡ (core.new, result) }
{
    if core.event {
        core.event = false;
        Ok(Outcome::Next)
    } else {
        Ok(Outcome::Sleep { event: true })
    }
}

/// WFE (2), WFI (3) and SEV (4); the other hints do nothing.
fn hint(core: &mut Core, op: u8) -> Result<Outcome, Fault>
    ensures { finished_named core.old (finish_hint op (named_of core.old)) ≡ (core.new, result) }
{
    match op {
        2 => wait_for_event(core),
        3 => Ok(Outcome::Sleep { event: false }),
        4 => {
            core.event = true;
            Ok(Outcome::Next)
        }
        _ => pass(core),
    }
}

/// Barriers do nothing, but CLREX, which clears the exclusive monitor.
fn barrier(bus: &mut Bus, op: BarrierOp)
    ensures { bus.new.state ≡ cleared_by (Barrier op 0) bus.old.state }
{
    match op {
        BarrierOp::Clrex => bus.monitor_clear(),
        _ => {}
    }
}

/// MRS.
fn read(core: &mut Core, rd: u8, sysm: u8) -> Result<Outcome, Fault>
    ensures { finished_named core.old (finish_read rd sysm (named_of core.old)) ≡ (core.new, result) }
{
    let value = core.special(sysm);
    core.put(rd, value);
    Ok(Outcome::Next)
}

/// MSR.
fn write(core: &mut Core, sysm: u8, value: u32, priority: i32) -> Result<Outcome, Fault>
    ensures { finished_named core.old (finish_write priority sysm value (named_of core.old)) ≡ (core.new, result) }
{
    match core.set_special(sysm, value, priority) {
        Ok(()) => Ok(Outcome::Next),
        Err(_) => Err(Fault::StackLimit(Side::NonSecure)),
    }
}

/// VLSTM and VLLDM, which find no floating-point unit.
fn lazy_state(core: &Core) -> Result<Outcome, Fault>
    ensures { finished_named core.now (finish_lazy core.now.run.side (named_of core.now)) ≡ (core.now, result) }
{
    match core.side() {
        Side::Secure => pass(core),
        Side::NonSecure => Err(Fault::Undef),
    }
}

/// What TT asks: `user` for an access without privilege, `alternate` at the Non-secure MPU, with the privilege
/// there.
fn asked(core: &Core, alternate: bool, user: bool, rn: u8, priority: i32) -> Probe
    ensures { result ≡ asked priority alternate user rn (named_of core.now) }
{
    let own = core.stacks(core.side());
    let looked_at = if alternate { &core.stacks_ns } else { own };
    Probe {
        addr: core.registers.reg(own, rn),
        side: core.side(),
        privileged: looked_at.privileged(core.registers.ipsr),
        negative: priority < 0,
        alternate,
        user,
    }
}

/// TT; its forms TTA and TTAT are undefined in Non-secure state.
fn test(core: &mut Core, bus: &Bus, probe: &Probe, rd: u8) -> Result<Outcome, Fault>
    ensures { finished_named core.old (finish_test core.old.run.side probe.now.alternate rd (named_of core.old) (target_word bus.now.state probe.now)) ≡ (core.new, result) }
{
    if probe.alternate && core.side() == Side::NonSecure {
        return Err(Fault::Undef);
    }
    let word = bus.test_target(
        probe.addr,
        probe.side,
        probe.privileged,
        probe.negative,
        probe.alternate,
        probe.user,
    );
    core.put(rd, word);
    Ok(Outcome::Next)
}

/// Does a system instruction at an execution priority (DDI0553, chapter C2), but for PC and the IT state.
///
/// `Undef` for VLSTM, VLLDM, TTA and TTAT in Non-secure state, UDF, and instructions of other families;
/// `StackLimit(NonSecure)` exactly where MSR would write SP_NS below its limit; `Breakpoint`
/// for BKPT, and `Call` for SVC. A fault leaves the core as it was. The bus is changed by CLREX alone.
pub fn execute(insn: &Insn, core: &mut Core, bus: &mut Bus, priority: i32) -> Result<Outcome, Fault>
    ensures { system_over priority insn.now core.old bus.old.state ≡ record { core = core.new; held = bus.new.state; outcome = result } }
{
    match *insn {
        Insn::Hint { op } => hint(core, op),
        Insn::Barrier { op, .. } => {
            barrier(bus, op);
            pass(core)
        }
        Insn::ChangeState { disable, i, f } => {
            core.change_state(disable, i, f, priority);
            Ok(Outcome::Next)
        }
        Insn::ReadSpecial { rd, sysm } => read(core, rd, sysm),
        Insn::WriteSpecial { rn, sysm } => {
            let value = core.registers.reg(core.stacks(core.side()), rn);
            write(core, sysm, value, priority)
        }
        Insn::TestTarget { a, t, rd, rn } => {
            let probe = asked(core, a, t, rn, priority);
            test(core, bus, &probe, rd)
        }
        Insn::SecureGateway => pass(core),
        Insn::LazyState { .. } => lazy_state(core),
        Insn::Supervisor { .. } => Err(Fault::Call),
        Insn::Breakpoint { .. } => Err(Fault::Breakpoint),
        _ => Err(Fault::Undef),
    }
}

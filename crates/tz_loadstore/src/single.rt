//! Loads and stores of one register.

ghost use Rattle.std.specs.Prelude.{◌≡◌, ◌≢◌, ◌≤◌, ◌+◌, [], ◌∷◌, slice_index};
ghost use Rattle.tz_table.specs.declared.instruction.Insn.TheVariants.{Load, Store, StoreRelease};
ghost use Rattle.tz_model.specs.Ports.{Load as Read, Store as Write, always_aligned, as_running};
ghost use Rattle.tz_sem.specs.Exec.{load_store_over, over};
ghost use Rattle.tz_sem.specs.Local.{reg, gives, local_of};

use crate::addresses::{place, refusal, reg};
use crate::results::{extend, finish_load, put, write_back};
use tz_model::{ALIGNED_BY_CCR, ALWAYS_ALIGNED, AS_RUNNING, Address, Fault, Outcome, Port, Size};
use tz_regs::Core;

/// A load, which has to be aligned where it goes to PC.
#[tactic(auto, unfolding(tz_model::specs::Ports::answers))]
pub(crate) fn load<P: Port>(
    core: &mut Core,
    port: &mut P,
    size: Size,
    signed: bool,
    rt: u8,
    address: &Address,
    user: bool,
) -> Result<Outcome, Fault>
    ensures executes { load_store_over P.answer (Load size signed rt address.now user) core.old (P.held port.old) ≡ record { core = core.new; held = P.held port.new; outcome = result } }
    ensures room { P.room port.new ≡ P.room port.old }
    ensures lent { P.lent port.new ≡ P.lent port.old }
{
    if let Some(fault) = refusal(core, address) {
        return Err(fault);
    }
    match port.load(place(core, address), size, rt == 15, user) {
        Ok(value) => Ok(finish_load(core, address, rt, extend(signed, size, value))),
        Err(fault) => Err(fault),
    }
}

/// Stores one register of a size at an address; `user` asks as unprivileged code.
#[tactic(auto, unfolding(tz_model::specs::Ports::answers))]
pub(crate) fn store<P: Port>(
    core: &mut Core,
    port: &mut P,
    size: Size,
    rt: u8,
    address: &Address,
    user: bool,
) -> Result<Outcome, Fault>
    requires { P.room port.old ≢ 0 }
    ensures executes { load_store_over P.answer (Store size rt address.now user) core.old (P.held port.old) ≡ record { core = core.new; held = P.held port.new; outcome = result } }
    ensures room { P.room port.old ≤ P.room port.new + 1 }
    ensures lent { P.lent port.new ≡ P.lent port.old }
{
    if let Some(fault) = refusal(core, address) {
        return Err(fault);
    }
    match port.store(
        place(core, address),
        size,
        reg(core, rt),
        ALIGNED_BY_CCR,
        user,
    ) {
        Ok(()) => {
            write_back(core, address);
            Ok(Outcome::Next)
        }
        Err(fault) => Err(fault),
    }
}

/// A load of a register that has to be aligned.
#[tactic(auto, unfolding(tz_model::specs::Ports::answers))]
pub(crate) fn load_aligned<P: Port>(
    core: &mut Core,
    port: &mut P,
    size: Size,
    rt: u8,
    addr: u32,
) -> Result<Outcome, Fault>
    ensures executes { over P.answer core.old (P.held port.old) (Read size addr always_aligned as_running ∷ []) (λ words. gives (local_of core.old) rt (slice_index words 0)) ≡ record { core = core.new; held = P.held port.new; outcome = result } }
    ensures room { P.room port.new ≡ P.room port.old }
    ensures lent { P.lent port.new ≡ P.lent port.old }
{
    match port.load(addr, size, ALWAYS_ALIGNED, AS_RUNNING) {
        Ok(value) => {
            put(core, rt, value);
            Ok(Outcome::Next)
        }
        Err(fault) => Err(fault),
    }
}

/// A store that releases: it has to be aligned.
#[tactic(auto, using(tz_sem::proofs::Local::core_kept), unfolding(tz_model::specs::Ports::answers))]
pub(crate) fn store_release<P: Port>(
    core: &Core,
    port: &mut P,
    size: Size,
    rt: u8,
    rn: u8,
) -> Result<Outcome, Fault>
    requires { P.room port.old ≢ 0 }
    ensures executes { load_store_over P.answer (StoreRelease size rt rn) core.now (P.held port.old) ≡ record { core = core.now; held = P.held port.new; outcome = result } }
    ensures room { P.room port.old ≤ P.room port.new + 1 }
    ensures lent { P.lent port.new ≡ P.lent port.old }
{
    match port.store(
        reg(core, rn),
        size,
        reg(core, rt),
        ALWAYS_ALIGNED,
        AS_RUNNING,
    ) {
        Ok(()) => Ok(Outcome::Next),
        Err(fault) => Err(fault),
    }
}

/// A store that is exclusive, and is made: it has to be aligned, and a register tells that it was made.
#[tactic(auto, unfolding(tz_model::specs::Ports::answers))]
pub(crate) fn store_exclusive<P: Port>(
    core: &mut Core,
    port: &mut P,
    size: Size,
    rd: u8,
    rt: u8,
    addr: u32,
) -> Result<Outcome, Fault>
    requires { P.room port.old ≢ 0 }
    ensures executes { over P.answer core.old (P.held port.old) (Write size addr (reg (local_of core.old) rt) always_aligned as_running ∷ []) (λ words. gives (local_of core.old) rd 0) ≡ record { core = core.new; held = P.held port.new; outcome = result } }
    ensures room { P.room port.old ≤ P.room port.new + 1 }
    ensures lent { P.lent port.new ≡ P.lent port.old }
{
    match port.store(addr, size, reg(core, rt), ALWAYS_ALIGNED, AS_RUNNING) {
        Ok(()) => {
            put(core, rd, 0);
            Ok(Outcome::Next)
        }
        Err(fault) => Err(fault),
    }
}

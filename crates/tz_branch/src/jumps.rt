//! Branches that leave the core as it is.

ghost use Rattle.std.specs.Prelude.{◌≡◌, [], ◌∷◌, slice_index};
ghost use Rattle.tz_model.specs.Words.{wrap, word_of};
ghost use Rattle.tz_sem.specs.Local.{reg, local_of, finished_in};
ghost use Rattle.tz_sem.specs.Branch.{target_at, taken_if, finish_zero, finish_exchange, entry_of, finish_table};
ghost use Rattle.tz_sem.specs.Exec.{over};

use tz_model::{ALIGNED_BY_CCR, AS_RUNNING, Fault, Outcome, Port, Side, Size};
use tz_regs::Core;

/// A register of the running code.
pub fn reg(core: &Core, index: u8) -> u32
    ensures { result ≡ reg (local_of core.now) index }
{
    core.registers.reg(core.stacks(core.run.side), index)
}

/// The address at this offset from the instruction's address plus 4.
pub fn target(core: &Core, offset: i32) -> u32
    ensures { result ≡ target_at (local_of core.now) offset }
{
    core.registers
        .pc
        .wrapping_add(4)
        .wrapping_add(offset.cast_unsigned())
}

/// A branch that is taken or not.
#[tactic(auto, using(tz_sem::proofs::Local::core_kept))]
pub fn branch_if(core: &Core, taken: bool, offset: i32) -> Result<Outcome, Fault>
    ensures { finished_in core.now (taken_if taken offset (local_of core.now)) ≡ (core.now, result) }
{
    if taken {
        Ok(Outcome::Jump(target(core, offset)))
    } else {
        Ok(Outcome::Next)
    }
}

/// CBZ and CBNZ.
pub fn branch_zero(core: &Core, nonzero: bool, rn: u8, offset: i32) -> Result<Outcome, Fault>
    ensures { finished_in core.now (finish_zero nonzero rn offset (local_of core.now)) ≡ (core.now, result) }
{
    branch_if(core, (reg(core, rn) == 0) != nonzero, offset)
}

/// BX and BXNS.
#[tactic(auto, using(tz_sem::proofs::Local::core_kept))]
pub fn exchange(core: &Core, rm: u8, ns: bool) -> Result<Outcome, Fault>
    ensures { finished_in core.now (finish_exchange rm ns (local_of core.now)) ≡ (core.now, result) }
{
    if ns && core.run.side == Side::NonSecure {
        return Err(Fault::Undef);
    }
    Ok(Outcome::Exchange {
        target: reg(core, rm),
        ns,
    })
}

/// The load of TBB or TBH.
fn load_entry<P: Port>(core: &Core, port: &mut P, half: bool, rn: u8, rm: u8) -> Result<u32, Fault>
    ensures answer { P.answer (P.held port.old) (entry_of half rn rm (local_of core.now)) ≡ (P.held port.new, result) }
    ensures room { P.room port.new ≡ P.room port.old }
    ensures lent { P.lent port.new ≡ P.lent port.old }
{
    let index = reg(core, rm);
    let table = reg(core, rn);
    if half {
        port.load(
            table.wrapping_add(index.wrapping_mul(2)),
            Size::Half,
            ALIGNED_BY_CCR,
            AS_RUNNING,
        )
    } else {
        port.load(
            table.wrapping_add(index),
            Size::Byte,
            ALIGNED_BY_CCR,
            AS_RUNNING,
        )
    }
}

/// TBB and TBH.
#[tactic(auto, using(tz_sem::proofs::Local::core_kept), unfolding(tz_model::specs::Ports::answers))]
pub fn table_branch<P: Port>(
    core: &Core,
    port: &mut P,
    half: bool,
    rn: u8,
    rm: u8,
) -> Result<Outcome, Fault>
    ensures executes { over P.answer core.now (P.held port.old) (entry_of half rn rm (local_of core.now) ∷ []) (λ words. finish_table (slice_index words 0) (local_of core.now)) ≡ record { core = core.now; held = P.held port.new; outcome = result } }
    ensures room { P.room port.new ≡ P.room port.old }
    ensures lent { P.lent port.new ≡ P.lent port.old }
{
    match load_entry(core, port, half, rn, rm) {
        Ok(entry) => {
            let next = core.registers.pc.wrapping_add(4);
            Ok(Outcome::Jump(next.wrapping_add(entry.wrapping_mul(2))))
        }
        Err(fault) => Err(fault),
    }
}

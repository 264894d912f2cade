//! Loads and stores of two registers: two words in a row, which have to be aligned.

ghost use Rattle.std.specs.Prelude.{◌≡◌, ◌≤◌, ◌+◌};
ghost use Rattle.tz_table.specs.declared.instruction.Insn.TheVariants.{LoadPair, StorePair};
ghost use Rattle.tz_sem.specs.Exec.{load_store_over};

use crate::addresses::{place, refusal, reg};
use crate::results::{finish_pair, write_back};
use tz_model::{ALWAYS_ALIGNED, AS_RUNNING, Address, Fault, Outcome, Port, Size};
use tz_regs::Core;

/// A load of two registers.
#[tactic(auto, unfolding(tz_model::specs::Ports::answers))]
pub(crate) fn load_pair<P: Port>(
    core: &mut Core,
    port: &mut P,
    rt: u8,
    rt2: u8,
    address: &Address,
) -> Result<Outcome, Fault>
    ensures executes { load_store_over P.answer (LoadPair rt rt2 address.now) core.old (P.held port.old) ≡ record { core = core.new; held = P.held port.new; outcome = result } }
    ensures room { P.room port.new ≡ P.room port.old }
    ensures lent { P.lent port.new ≡ P.lent port.old }
{
    if let Some(fault) = refusal(core, address) {
        return Err(fault);
    }
    let addr = place(core, address);
    match port.load(addr, Size::Word, ALWAYS_ALIGNED, AS_RUNNING) {
        Ok(first) => match port.load(addr.wrapping_add(4), Size::Word, ALWAYS_ALIGNED, AS_RUNNING) {
            Ok(second) => {
                finish_pair(core, address, rt, first, rt2, second);
                Ok(Outcome::Next)
            }
            Err(fault) => Err(fault),
        },
        Err(fault) => Err(fault),
    }
}

/// A store of two registers. Where the second word can't be stored, the first stands.
#[tactic(auto, unfolding(tz_model::specs::Ports::answers))]
pub(crate) fn store_pair<P: Port>(
    core: &mut Core,
    port: &mut P,
    rt: u8,
    rt2: u8,
    address: &Address,
) -> Result<Outcome, Fault>
    requires { 2 ≤ P.room port.old }
    ensures executes { load_store_over P.answer (StorePair rt rt2 address.now) core.old (P.held port.old) ≡ record { core = core.new; held = P.held port.new; outcome = result } }
    ensures room { P.room port.old ≤ P.room port.new + 2 }
    ensures lent { P.lent port.new ≡ P.lent port.old }
{
    if let Some(fault) = refusal(core, address) {
        return Err(fault);
    }
    let addr = place(core, address);
    match port.store(addr, Size::Word, reg(core, rt), ALWAYS_ALIGNED, AS_RUNNING) {
        Ok(()) => match port.store(
            addr.wrapping_add(4),
            Size::Word,
            reg(core, rt2),
            ALWAYS_ALIGNED,
            AS_RUNNING,
        ) {
            Ok(()) => {
                write_back(core, address);
                Ok(Outcome::Next)
            }
            Err(fault) => Err(fault),
        },
        Err(fault) => Err(fault),
    }
}

//! Loads and stores: of one register, of two, of a list, exclusive ones, and those that acquire and release
//! (DDI0553, chapter C2).
//!
//! An instruction makes its accesses over any port, and leaves the registers of the running code. `execute`
//! is proved to do what `tz_sem`'s `specs/LoadStore.antt` says: what refuses the instruction, its accesses,
//! and then its registers, in this order. The exclusive monitor isn't known here: a store exclusive is one
//! that the monitor lets through.
#![tactic(auto)]

ghost use Rattle.std.specs.Prelude.{◌≡◌, ◌≤◌, ◌+◌};
ghost use Rattle.tz_sem.specs.Exec.{load_store_over};

mod addresses;
mod lists;
mod many;
mod pairs;
mod results;
mod single;

use crate::many::{load_many, store_many};
use crate::pairs::{load_pair, store_pair};
use crate::single::{load, load_aligned, store, store_exclusive, store_release};
pub use addresses::{at_offset, place, refusal, reg};
pub use lists::{is_listed, listed};
pub use many::{lowest, past_words, write_back_past};
pub use results::{extend, finish_load, write_back};
use tz_model::{Fault, Insn, Outcome, Port};
use tz_regs::Core;

/// Runs an instruction of this family.
///
/// Faults: `StackLimit` of the running side where the base would get below the limit of SP, before any
/// access; else the fault of the first access that fails; `Undef` for the instructions of other families.
/// At a fault the core is as it was, whatever was loaded before, and the stores before it stand.
#[tactic(auto, using(tz_sem::proofs::Local::core_kept), unfolding(tz_model::specs::Ports::answers))]
pub fn execute<P: Port>(insn: &Insn, core: &mut Core, port: &mut P) -> Result<Outcome, Fault>
    requires { 14 ≤ P.room port.old }
    ensures executes { load_store_over P.answer insn.now core.old (P.held port.old) ≡ record { core = core.new; held = P.held port.new; outcome = result } }
    ensures room { P.room port.old ≤ P.room port.new + 14 }
    ensures lent { P.lent port.new ≡ P.lent port.old }
{
    match *insn {
        Insn::Load {
            size,
            signed,
            rt,
            address,
            user,
        } => load(core, port, size, signed, rt, &address, user),
        Insn::Store {
            size,
            rt,
            address,
            user,
        } => store(core, port, size, rt, &address, user),
        Insn::LoadPair { rt, rt2, address } => load_pair(core, port, rt, rt2, &address),
        Insn::StorePair { rt, rt2, address } => store_pair(core, port, rt, rt2, &address),
        Insn::LoadMany {
            rn,
            list,
            down,
            back,
        } => load_many(core, port, rn, list, down, back),
        Insn::StoreMany {
            rn,
            list,
            down,
            back,
        } => store_many(core, port, rn, list, down, back),
        Insn::LoadExclusive {
            size,
            rt,
            rn,
            offset,
            ..
        } => {
            let addr = at_offset(core, rn, offset);
            load_aligned(core, port, size, rt, addr)
        }
        Insn::StoreExclusive {
            size,
            rd,
            rt,
            rn,
            offset,
            ..
        } => {
            let addr = at_offset(core, rn, offset);
            store_exclusive(core, port, size, rd, rt, addr)
        }
        Insn::LoadAcquire { size, rt, rn } => {
            let addr = reg(core, rn);
            load_aligned(core, port, size, rt, addr)
        }
        Insn::StoreRelease { size, rt, rn } => store_release(core, port, size, rt, rn),
        Insn::Preload => Ok(Outcome::Next),
        _ => Err(Fault::Undef),
    }
}

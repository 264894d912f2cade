//! Calls, which leave LR, and IT.

ghost use Rattle.std.specs.Prelude.{◌≡◌, ◌+◌};
ghost use Rattle.tz_model.specs.Words.{even_of};
ghost use Rattle.tz_sem.specs.Local.{local_of, finished_in};
ghost use Rattle.tz_sem.specs.Branch.{finish_link, links, call_ns, finish_call, finish_it};

use crate::jumps::{reg, target};
use tz_model::{Fault, Outcome, Side};
use tz_regs::Core;

/// An address with bit 0 set.
fn odd(addr: u32) -> u32
    ensures { result ≡ even_of addr + 1 }
{
    addr / 2 * 2 + 1
}

/// BL.
#[tactic(auto, using(tz_sem::proofs::Local::registers_put))]
pub fn branch_link(core: &mut Core, offset: i32) -> Result<Outcome, Fault>
    ensures { finished_in core.old (finish_link offset (local_of core.old)) ≡ (core.new, result) }
{
    let to = target(core, offset);
    core.registers.lr = odd(core.registers.pc.wrapping_add(4));
    Ok(Outcome::Jump(to))
}

/// BLX, of two bytes.
#[tactic(auto, using(tz_sem::proofs::Local::registers_put))]
fn link(core: &mut Core, to: u32) -> Result<Outcome, Fault>
    ensures { finished_in core.old (links (local_of core.old) to) ≡ (core.new, result) }
{
    core.registers.lr = odd(core.registers.pc.wrapping_add(2));
    core.registers.t = to % 2 == 1;
    Ok(Outcome::Jump(to / 2 * 2))
}

/// BLXNS.
#[tactic(auto, using(tz_sem::proofs::Local::core_kept))]
fn call_ns(core: &mut Core, to: u32) -> Result<Outcome, Fault>
    ensures { finished_in core.old (call_ns core.old.run.side (local_of core.old) to) ≡ (core.new, result) }
{
    match core.run.side {
        Side::NonSecure => Err(Fault::Undef),
        Side::Secure => {
            if to % 2 == 1 {
                link(core, to)
            } else {
                Ok(Outcome::Call(to))
            }
        }
    }
}

/// BLX and BLXNS.
pub fn call_exchange(core: &mut Core, rm: u8, ns: bool) -> Result<Outcome, Fault>
    ensures { finished_in core.old (finish_call rm ns (local_of core.old)) ≡ (core.new, result) }
{
    let to = reg(core, rm);
    if ns {
        call_ns(core, to)
    } else {
        link(core, to)
    }
}

/// Begins an IT block: the state of the condition and the mask, which the next instructions read.
#[tactic(auto, using(tz_sem::proofs::Local::registers_put))]
pub fn if_then(core: &mut Core, cond: u8, mask: u8) -> Result<Outcome, Fault>
    ensures { finished_in core.old (finish_it cond mask (local_of core.old)) ≡ (core.new, result) }
{
    core.registers.begin_it(cond, mask);
    Ok(Outcome::Next)
}

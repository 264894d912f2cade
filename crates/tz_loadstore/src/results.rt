//! What loads and stores leave in registers.

ghost use Rattle.std.specs.Prelude.{◌≡◌, Ok};
ghost use Rattle.tz_sem.specs.Local.{put, local_of, with_local, finished_in};
ghost use Rattle.tz_sem.specs.LoadStore.{based, extended_to, register_loaded, offset_at};

use crate::addresses::at_offset;
use tz_bits::sign_extend;
use tz_model::{Address, Outcome, Side, Size};
use tz_regs::Core;

/// Writes a register of the running code.
#[inline(always)]
pub(crate) fn put(core: &mut Core, index: u8, value: u32)
    ensures { core.new ≡ with_local core.old (put (local_of core.old) index value) }
{
    let ipsr = core.registers.ipsr;
    match core.run.side {
        Side::Secure => core.stacks_s.set_reg(ipsr, index, value),
        Side::NonSecure => core.stacks_ns.set_reg(ipsr, index, value),
    }
    core.registers.set_reg(index, value);
}

/// Moves a base by an offset.
fn move_base(core: &mut Core, rn: u8, offset: i32)
    ensures { core.new ≡ with_local core.old (put (local_of core.old) rn (offset_at (local_of core.old) rn offset)) }
{
    let value = at_offset(core, rn, offset);
    put(core, rn, value);
}

/// Gives the base of an access its new value, where it gets one.
#[tactic(auto, using(tz_sem::proofs::Local::core_kept))]
#[inline(always)]
pub fn write_back(core: &mut Core, address: &Address)
    ensures { core.new ≡ with_local core.old (based address.now (local_of core.old)) }
{
    match *address {
        Address::Pre { rn, offset } => move_base(core, rn, offset),
        Address::Post { rn, offset } => move_base(core, rn, offset),
        _ => {}
    }
}

/// A number of a size as a word.
pub fn extend(signed: bool, size: Size, value: u32) -> u32
    ensures { result ≡ extended_to signed size value }
{
    match (signed, size) {
        (true, Size::Byte) => sign_extend(value, 8),
        (true, Size::Half) => sign_extend(value, 16),
        _ => value,
    }
}

/// The base and the register of a load get their values; a load of PC exchanges.
#[tactic(auto, using(crate::proofs::Puts::put_after))]
#[inline(always)]
pub fn finish_load(core: &mut Core, address: &Address, rt: u8, word: u32) -> Outcome
    ensures { finished_in core.old (register_loaded rt (based address.now (local_of core.old)) word) ≡ (core.new, Ok result) }
{
    write_back(core, address);
    if rt == 15 {
        return Outcome::Exchange {
            target: word,
            ns: false,
        };
    }
    put(core, rt, word);
    Outcome::Next
}

/// The base and the registers of a load of two get their values.
#[tactic(auto, using(crate::proofs::Puts::put_after))]
pub(crate) fn finish_pair(
    core: &mut Core,
    address: &Address,
    rt: u8,
    first: u32,
    rt2: u8,
    second: u32,
)
    ensures { core.new ≡ with_local core.old (put (put (based address.now (local_of core.old)) rt first) rt2 second) }
{
    write_back(core, address);
    put(core, rt, first);
    put(core, rt2, second);
}

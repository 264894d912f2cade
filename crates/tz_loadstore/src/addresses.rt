//! Where loads and stores go, and the limit that a base keeps.

ghost use Rattle.std.specs.Prelude.{◌≡◌};
ghost use Rattle.tz_sem.specs.Local.{reg, local_of};
ghost use Rattle.tz_sem.specs.LoadStore.{below_limit, literal_at, offset_at, place_of, refusal_of};

use tz_bits::shift_c;
use tz_model::{Address, Fault, Shift};
use tz_regs::Core;

/// A register of the running code by its number: R0 to R12, SP, LR, and PC as the address of the instruction plus 4.
#[inline(always)]
pub fn reg(core: &Core, index: u8) -> u32
    ensures { result ≡ reg (local_of core.now) index }
{
    core.registers.reg(core.stacks(core.run.side), index)
}

/// The place of a literal.
fn literal(core: &Core, offset: i32) -> u32
    ensures { result ≡ literal_at (local_of core.now) offset }
{
    let base = core.registers.pc.wrapping_add(4) / 4 * 4;
    base.wrapping_add(offset.cast_unsigned())
}

/// A register of the running code plus an offset, past the end of the address space from 0 on.
#[inline(always)]
pub fn at_offset(core: &Core, rn: u8, offset: i32) -> u32
    ensures { result ≡ offset_at (local_of core.now) rn offset }
{
    reg(core, rn).wrapping_add(offset.cast_unsigned())
}

/// The address that an access of the running code goes to.
#[inline(always)]
pub fn place(core: &Core, address: &Address) -> u32
    ensures { result ≡ place_of address.now (local_of core.now) }
{
    match *address {
        Address::Offset { rn, offset } => at_offset(core, rn, offset),
        Address::Pre { rn, offset } => at_offset(core, rn, offset),
        Address::Post { rn, .. } => reg(core, rn),
        Address::Index { rn, rm, amount } => {
            let (index, _) = shift_c(reg(core, rm), Shift::Lsl, u32::from(amount), false);
            reg(core, rn).wrapping_add(index)
        }
        Address::Literal { offset } => literal(core, offset),
    }
}

/// The fault of a base that would get below its limit; only SP has one.
pub(crate) fn below_limit(core: &Core, rn: u8, value: u32) -> Option<Fault>
    ensures { result ≡ below_limit rn value (local_of core.now) }
{
    let side = core.run.side;
    if rn == 13 && value < core.stacks(side).limit(core.registers.ipsr) {
        Some(Fault::StackLimit(side))
    } else {
        None
    }
}

/// The fault of an address before any access.
#[inline(always)]
pub fn refusal(core: &Core, address: &Address) -> Option<Fault>
    ensures { result ≡ refusal_of address.now (local_of core.now) }
{
    match *address {
        Address::Pre { rn, offset } => below_limit(core, rn, at_offset(core, rn, offset)),
        Address::Post { rn, offset } => below_limit(core, rn, at_offset(core, rn, offset)),
        _ => None,
    }
}

//! Logical operations and sums, with a constant or a shifted register as the second operand.

ghost use Rattle.std.specs.Prelude.{◌≡◌, ℕ, Bool, ◌&&◌, ◌==◌, nat_lt, unwrap_or};
ghost use Rattle.tz_bits.specs.Shifts.{shifted, carry_after};
ghost use Rattle.tz_bits.specs.Constants.{imm_of};
ghost use Rattle.tz_regs.specs.Registers.{pointer_limit_of};
ghost use Rattle.tz_sem.specs.Alu.{places as places_of, is_comparison as compares, is_limited as limits, concluded, operated, finish_constant, finish_register, finish_shift, finish_add_wide};
ghost use Rattle.tz_alu.specs.Part.{part, left};

use crate::operations::compute;
use crate::results::{put, set_flags};
use tz_bits::{expand_imm_c, shift_c};
use tz_model::{DataOp, Fault, Flags, Outcome, Shift, Side};
use tz_regs::{Registers, Stacks};
use tz_sem::Computed;

/// The places of a shift; RRX moves by one.
fn places(kind: Shift, amount: u8) -> u32
    ensures { result ≡ places_of kind amount }
{
    match kind {
        Shift::Rrx => 1,
        _ => u32::from(amount),
    }
}

/// A value after a shift, with the carry that it leaves.
pub(crate) fn shift(value: u32, kind: Shift, amount: u8, carry: bool) -> (u32, bool)
    ensures { result ≡ (shifted value kind (places_of kind amount) carry, carry_after value kind (places_of kind amount) carry) }
{
    shift_c(value, kind, places(kind, amount), carry)
}

/// A constant with its carry; bits of no code count as 0.
#[inline(always)]
fn constant(imm12: u16, carry: bool) -> (u32, bool)
    ensures { result ≡ unwrap_or (imm_of imm12 carry) (0, carry) }
{
    // Most constants are a byte.
    if imm12 < 0x100 {
        return (u32::from(imm12), carry);
    }
    expand_imm_c(imm12, carry).unwrap_or((0, carry))
}

/// Whether an operation gives no register a value.
fn is_comparison(op: DataOp) -> bool
    ensures { result ≡ compares op }
{
    matches!(op, DataOp::Tst | DataOp::Teq | DataOp::Cmn | DataOp::Cmp)
}

/// Whether SP, as a destination, is compared with its limit.
fn is_limited(op: DataOp) -> bool
    ensures { result ≡ limits op }
{
    matches!(op, DataOp::Add | DataOp::Sub)
}

/// Whether a result is an SP below its limit.
fn is_below_limit(registers: &Registers, own: &Stacks, op: DataOp, rd: u8, value: u32) -> bool
    ensures { result ≡ (rd == 13 && limits op && nat_lt value (pointer_limit_of registers.now.ipsr own.now)) }
{
    rd == 13 && is_limited(op) && value < own.limit(registers.ipsr)
}

/// Sets the flags by the result of an operation and gives the destination its value: a write of PC is a
/// plain branch, and a sum doesn't take SP below its limit.
fn conclude(
    side: Side,
    registers: &mut Registers,
    own: &mut Stacks,
    op: DataOp,
    flags: Flags,
    rd: u8,
    by: &Computed,
) -> Result<Outcome, Fault>
    ensures { (ccr : ℕ) → left side ccr registers.old own.old (concluded op flags rd by.now) ≡ (part side ccr registers.new own.new, result) }
{
    if is_comparison(op) {
        set_flags(registers, flags, by);
        Ok(Outcome::Next)
    } else if rd < 13 {
        // most destinations, told apart from SP, LR and PC by one test
        set_flags(registers, flags, by);
        registers.general[usize::from(rd)] = by.value;
        Ok(Outcome::Next)
    } else if rd == 15 {
        set_flags(registers, flags, by);
        Ok(Outcome::Jump(by.value / 2 * 2))
    } else if is_below_limit(registers, own, op, rd, by.value) {
        Err(Fault::StackLimit(side))
    } else {
        set_flags(registers, flags, by);
        put(registers, own, rd, by.value);
        Ok(Outcome::Next)
    }
}

/// An operation on two words, of which the second left a carry.
fn operate(
    side: Side,
    registers: &mut Registers,
    own: &mut Stacks,
    op: DataOp,
    flags: Flags,
    rd: u8,
    x: u32,
    second: (u32, bool),
) -> Result<Outcome, Fault>
    ensures { (ccr : ℕ) → left side ccr registers.old own.old (operated op flags rd x second.0 second.1) ≡ (part side ccr registers.new own.new, result) }
{
    let (y, carry) = second;
    let by = compute(op, x, y, carry, registers.apsr.c, registers.apsr.v);
    conclude(side, registers, own, op, flags, rd, &by)
}

/// An operation on a register and a constant. It and the next are compiled into the step, as `run` is.
#[inline(always)]
pub(crate) fn with_constant(
    side: Side,
    registers: &mut Registers,
    own: &mut Stacks,
    op: DataOp,
    flags: Flags,
    rd: u8,
    rn: u8,
    imm12: u16,
) -> Result<Outcome, Fault>
    ensures { (ccr : ℕ) → left side ccr registers.old own.old (finish_constant op flags rd rn imm12) ≡ (part side ccr registers.new own.new, result) }
{
    let x = registers.reg(own, rn);
    let second = constant(imm12, registers.apsr.c);
    operate(side, registers, own, op, flags, rd, x, second)
}

/// An operation on a register and a shifted one.
#[inline(always)]
pub(crate) fn with_register(
    side: Side,
    registers: &mut Registers,
    own: &mut Stacks,
    op: DataOp,
    flags: Flags,
    rd: u8,
    rn: u8,
    rm: u8,
    kind: Shift,
    amount: u8,
) -> Result<Outcome, Fault>
    ensures { (ccr : ℕ) → left side ccr registers.old own.old (finish_register op flags rd rn rm kind amount) ≡ (part side ccr registers.new own.new, result) }
{
    let x = registers.reg(own, rn);
    let second = shift(registers.reg(own, rm), kind, amount, registers.apsr.c);
    operate(side, registers, own, op, flags, rd, x, second)
}

/// A shift by the low byte of a register.
pub(crate) fn shift_by_register(
    side: Side,
    registers: &mut Registers,
    own: &mut Stacks,
    kind: Shift,
    flags: Flags,
    rd: u8,
    rn: u8,
    rm: u8,
) -> Result<Outcome, Fault>
    ensures { (ccr : ℕ) → left side ccr registers.old own.old (finish_shift kind flags rd rn rm) ≡ (part side ccr registers.new own.new, result) }
{
    let amount = (registers.reg(own, rm) % 256) as u8;
    let second = shift(registers.reg(own, rn), kind, amount, registers.apsr.c);
    operate(side, registers, own, DataOp::Mov, flags, rd, 0, second)
}

/// A sum with a constant that is added or taken off as it stands.
pub(crate) fn add_wide(
    side: Side,
    registers: &mut Registers,
    own: &mut Stacks,
    sub: bool,
    rd: u8,
    rn: u8,
    imm: u16,
) -> Result<Outcome, Fault>
    ensures { (ccr : ℕ) → left side ccr registers.old own.old (finish_add_wide sub rd rn imm) ≡ (part side ccr registers.new own.new, result) }
{
    let op = if sub { DataOp::Sub } else { DataOp::Add };
    let x = registers.reg(own, rn);
    operate(
        side,
        registers,
        own,
        op,
        Flags::Never,
        rd,
        x,
        (u32::from(imm), false),
    )
}

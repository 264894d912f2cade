//! Multiplications and divisions of registers.

ghost use Rattle.std.specs.Prelude.{◌≡◌, ℕ};
ghost use Rattle.tz_table.specs.declared.units.Side.{Side};
ghost use Rattle.tz_sem.specs.Alu.{traps_division as traps, finish_multiply, finish_multiply_long, finish_divide};
ghost use Rattle.tz_alu.specs.Part.{part, left};

use crate::products::{divide, multiply, multiply_long};
use crate::results::{put, tell_product};
use tz_model::{Fault, Flags, LongOp, MultiplyOp, Outcome};
use tz_regs::register_bits::CCR_DIV_0_TRP;
use tz_regs::{Registers, Stacks};

/// The low word of a product of registers.
pub(crate) fn multiply_registers(
    registers: &mut Registers,
    own: &mut Stacks,
    op: MultiplyOp,
    flags: Flags,
    rd: u8,
    rn: u8,
    rm: u8,
    ra: u8,
) -> Result<Outcome, Fault>
    ensures { (side : Side) (ccr : ℕ) → left side ccr registers.old own.old (finish_multiply op flags rd rn rm ra) ≡ (part side ccr registers.new own.new, result) }
{
    let value = multiply(
        op,
        registers.reg(own, rn),
        registers.reg(own, rm),
        registers.reg(own, ra),
    );
    tell_product(registers, flags, value);
    put(registers, own, rd, value);
    Ok(Outcome::Next)
}

/// A product of registers in two words.
pub(crate) fn multiply_long_registers(
    registers: &mut Registers,
    own: &mut Stacks,
    op: LongOp,
    lo: u8,
    hi: u8,
    rn: u8,
    rm: u8,
) -> Result<Outcome, Fault>
    ensures { (side : Side) (ccr : ℕ) → left side ccr registers.old own.old (finish_multiply_long op lo hi rn rm) ≡ (part side ccr registers.new own.new, result) }
{
    let (low, high) = multiply_long(
        op,
        registers.reg(own, rn),
        registers.reg(own, rm),
        registers.reg(own, lo),
        registers.reg(own, hi),
    );
    put(registers, own, lo, low);
    put(registers, own, hi, high);
    Ok(Outcome::Next)
}

/// CCR.DIV_0_TRP.
fn traps_division(ccr: u32) -> bool
    ensures { result ≡ traps ccr }
{
    ccr / CCR_DIV_0_TRP % 2 == 1
}

/// A quotient of registers. `DivZero` exactly where the divisor is 0 and CCR.DIV_0_TRP is set.
pub(crate) fn divide_registers(
    ccr: u32,
    registers: &mut Registers,
    own: &mut Stacks,
    signed: bool,
    rd: u8,
    rn: u8,
    rm: u8,
) -> Result<Outcome, Fault>
    ensures { (side : Side) → left side ccr registers.old own.old (finish_divide signed rd rn rm) ≡ (part side ccr registers.new own.new, result) }
{
    let divisor = registers.reg(own, rm);
    if traps_division(ccr) && divisor == 0 {
        Err(Fault::DivZero)
    } else {
        let quotient = divide(signed, registers.reg(own, rn), divisor);
        put(registers, own, rd, quotient);
        Ok(Outcome::Next)
    }
}

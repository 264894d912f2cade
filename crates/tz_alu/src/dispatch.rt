//! The choice of the form by the instruction.

ghost use Rattle.std.specs.Prelude.{◌≡◌};
ghost use Rattle.tz_sem.specs.Alu.{finish_alu};
ghost use Rattle.tz_alu.specs.Part.{part, left};

use crate::data::{add_wide, shift_by_register, with_constant, with_register};
use crate::multiplies::{divide_registers, multiply_long_registers, multiply_registers};
use crate::values::{
    extend_register, give_address, move_wide, reverse_register, saturate_register, take_field,
};
use tz_model::{Fault, Insn, Outcome, Side};
use tz_regs::{Registers, Stacks};

/// Runs an instruction of code of a side with this CCR. It is compiled into the step, where its parts are registers.
#[inline(always)]
pub(crate) fn run(
    insn: &Insn,
    side: Side,
    ccr: u32,
    registers: &mut Registers,
    own: &mut Stacks,
) -> Result<Outcome, Fault>
    ensures { left side ccr registers.old own.old (finish_alu insn.now) ≡ (part side ccr registers.new own.new, result) }
{
    match *insn {
        Insn::DataImm {
            op,
            flags,
            rd,
            rn,
            imm12,
        } => with_constant(side, registers, own, op, flags, rd, rn, imm12),
        Insn::DataReg {
            op,
            flags,
            rd,
            rn,
            rm,
            shift,
            amount,
        } => with_register(side, registers, own, op, flags, rd, rn, rm, shift, amount),
        Insn::ShiftReg {
            kind,
            flags,
            rd,
            rn,
            rm,
        } => shift_by_register(side, registers, own, kind, flags, rd, rn, rm),
        Insn::AddWide { sub, rd, rn, imm } => add_wide(side, registers, own, sub, rd, rn, imm),
        Insn::Adr { rd, offset } => give_address(registers, own, rd, offset),
        Insn::MovWide { top, rd, imm } => move_wide(registers, own, top, rd, imm),
        Insn::Saturate {
            signed,
            rd,
            rn,
            bits,
            asr,
            amount,
        } => saturate_register(registers, own, signed, rd, rn, bits, asr, amount),
        Insn::BitField {
            op,
            rd,
            rn,
            low,
            width,
        } => take_field(registers, own, op, rd, rn, low, width),
        Insn::Extend { op, rd, rm, rotate } => extend_register(registers, own, op, rd, rm, rotate),
        Insn::Reverse { op, rd, rm } => reverse_register(registers, own, op, rd, rm),
        Insn::Multiply {
            op,
            flags,
            rd,
            rn,
            rm,
            ra,
        } => multiply_registers(registers, own, op, flags, rd, rn, rm, ra),
        Insn::MultiplyLong { op, lo, hi, rn, rm } => multiply_long_registers(
            registers, own, op, lo, hi, rn, rm,
        ),
        Insn::Divide { signed, rd, rn, rm } => divide_registers(
            ccr, registers, own, signed, rd, rn, rm,
        ),
        _ => Err(Fault::Undef),
    }
}

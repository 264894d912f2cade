//! What may stand in an IT block, and what runs there whatever the condition.

ghost use Rattle.std.specs.Prelude.{◌≡◌};
ghost use Rattle.tz_sem.specs.ItRules.{is_plain_move, is_barred, writes_pc, is_misplaced, is_secure_only, ignores_condition, is_passed_over};

use tz_model::{DataOp, Flags, Insn, Shift, Side};
use tz_regs::Registers;

/// MOVS of 16 bits, register to register.
fn is_plain_move(op: DataOp, flags: Flags, kind: Shift, amount: u8) -> bool
    ensures { result ≡ is_plain_move op flags kind amount }
{
    match (op, flags, kind) {
        (DataOp::Mov, Flags::OutsideIt, Shift::Lsl) => amount == 0,
        _ => false,
    }
}

/// Whether an instruction never stands in an IT block.
fn is_barred(insn: &Insn) -> bool
    ensures { result ≡ is_barred insn.now }
{
    match *insn {
        Insn::IfThen { .. }
        | Insn::BranchZero { .. }
        | Insn::BranchIf { .. }
        | Insn::ChangeState { .. } => true,
        Insn::DataReg {
            op,
            flags,
            shift,
            amount,
            ..
        } => is_plain_move(op, flags, shift, amount),
        _ => false,
    }
}

/// Whether an instruction is a branch or another write of PC.
fn writes_pc(insn: &Insn) -> bool
    ensures { result ≡ writes_pc insn.now }
{
    match *insn {
        Insn::Branch { .. }
        | Insn::BranchLink { .. }
        | Insn::TableBranch { .. }
        | Insn::BranchExchange { .. }
        | Insn::CallExchange { .. } => true,
        Insn::DataReg { rd, .. } => rd == 15,
        Insn::Load { rt, .. } => rt == 15,
        Insn::LoadMany { list, .. } => list >= 0x8000,
        _ => false,
    }
}

/// Whether an instruction stands where it may not.
pub fn is_misplaced(insn: &Insn, registers: &Registers) -> bool
    ensures { result ≡ is_misplaced insn.now registers.now }
{
    registers.in_it_block()
        && (is_barred(insn) || writes_pc(insn) && !registers.is_last_in_it_block())
}

/// Whether an instruction is undefined in Non-secure state.
fn is_secure_only(insn: &Insn) -> bool
    ensures { result ≡ is_secure_only insn.now }
{
    match *insn {
        Insn::BranchExchange { ns, .. } | Insn::CallExchange { ns, .. } => ns,
        Insn::TestTarget { a, .. } => a,
        Insn::LazyState { .. } => true,
        _ => false,
    }
}

/// Whether an instruction runs whatever the condition.
pub fn ignores_condition(side: Side, insn: &Insn) -> bool
    ensures { result ≡ ignores_condition side insn.now }
{
    match *insn {
        Insn::Breakpoint { .. } | Insn::Undefined { .. } => true,
        _ => match side {
            Side::Secure => false,
            Side::NonSecure => is_secure_only(insn),
        },
    }
}

/// Whether registers stand in an IT block whose condition fails, so that the instruction is skipped.
pub fn is_passed_over(registers: &Registers) -> bool
    ensures { result ≡ is_passed_over registers.now }
{
    registers.in_it_block() && !registers.apsr.condition_holds(registers.it / 16)
}

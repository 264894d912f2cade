//! What instructions leave: values of registers, and flags.

ghost use Rattle.std.specs.Prelude.{◌≡◌, if◌then◌else◌};
ghost use Rattle.tz_regs.specs.Registers.{with_n_and_z, with_reg, with_reg_stacks};
ghost use Rattle.tz_sem.specs.Alu.{flags_by, sets_flags};

use tz_model::Flags;
use tz_regs::{Registers, Stacks};
use tz_sem::Computed;

/// Writes R0 to R12, SP or LR. SP isn't compared with its limit.
pub(crate) fn put(registers: &mut Registers, own: &mut Stacks, rd: u8, value: u32)
    ensures registers { registers.new ≡ with_reg registers.old rd value }
    ensures stacks { own.new ≡ with_reg_stacks registers.old.ipsr own.old rd value }
{
    own.set_reg(registers.ipsr, rd, value);
    registers.set_reg(rd, value);
}

/// Whether an instruction sets the flags.
fn is_setting(registers: &Registers, flags: Flags) -> bool
    ensures { result ≡ sets_flags flags registers.now }
{
    match flags {
        Flags::Never => false,
        Flags::Always => true,
        Flags::OutsideIt => !registers.in_it_block(),
    }
}

/// Sets N, Z, C and V by an operation, where its instruction sets the flags.
pub(crate) fn set_flags(registers: &mut Registers, flags: Flags, by: &Computed)
    ensures { registers.new ≡ record registers.old { apsr = if sets_flags flags registers.old then flags_by by.now registers.old.apsr else registers.old.apsr } }
{
    if is_setting(registers, flags) {
        registers.apsr.tell(by.value);
        registers.apsr.c = by.carry;
        registers.apsr.v = by.overflow;
    }
}

/// Tells a product in N and Z, where its instruction sets the flags.
pub(crate) fn tell_product(registers: &mut Registers, flags: Flags, value: u32)
    ensures { registers.new ≡ record registers.old { apsr = if sets_flags flags registers.old then with_n_and_z value registers.old.apsr else registers.old.apsr } }
{
    if is_setting(registers, flags) {
        registers.apsr.tell(value);
    }
}

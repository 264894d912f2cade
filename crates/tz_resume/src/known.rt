//! What the machine's types say of its state.

ghost use Rattle.std.specs.Prelude.{◌≡◌, ◌<◌, ◌^◌, ℕ, length, slice_index};
ghost use Rattle.tz_resume.specs.Steps.{IsTyped};

use tz_access::Bus;
use tz_nvic::Exceptions;
use tz_regs::{Core, Registers, Stacks};

/// R0 to R12, LR and PC are words, and the IT state has 8 bits.
fn know_registers(registers: &Registers)
    ensures thirteen { length registers.now.general ≡ 13 }
    ensures words { (i : ℕ) → slice_index registers.now.general i < 2 ^ 32 }
    ensures lr { registers.now.lr < 2 ^ 32 }
    ensures pc { registers.now.pc < 2 ^ 32 }
    ensures it { registers.now.it < 2 ^ 8 }
{
    let _lr = registers.lr;
    let _pc = registers.pc;
    let _it = registers.it;
    let _general = registers.general;
    let _first = registers.general[0];
}

/// Both stack pointers are words.
fn know_stacks(stacks: &Stacks)
    ensures msp { stacks.now.msp < 2 ^ 32 }
    ensures psp { stacks.now.psp < 2 ^ 32 }
{
    let _msp = stacks.msp;
    let _psp = stacks.psp;
}

/// The state that a core, its exceptions and the bus are.
pub fn know_state(core: &Core, exceptions: &Exceptions, bus: &Bus)
    ensures { IsTyped (record { core = core.now; exceptions = exceptions.now; bus = bus.now.state }) }
{
    know_registers(&core.registers);
    know_stacks(&core.stacks_s);
    exceptions.know_slots();
    bus.know_filled();
}

//! Bytes and halfwords of a register.

ghost use Rattle.std.specs.Prelude.{◌≡◌, ◌%◌, true};
ghost use Rattle.tz_state.specs.Access.{is_aligned};
ghost use Rattle.tz_state.specs.Views.{part_of, with_part, control_narrow, fault_narrow, narrow_of};

use tz_model::Size;
use tz_state::{ControlRegister, FaultRegister, Narrow, Register};

/// The number of a size that stands at an address in its word.
pub(crate) fn part_of(word: u32, addr: u32, size: Size) -> u32
    requires { is_aligned size addr ≡ true }
    ensures { result ≡ part_of word (addr % 4) size }
{
    let bytes = word.to_le_bytes();
    let lane = (addr % 4) as usize;
    match size {
        Size::Byte => u32::from(bytes[lane]),
        Size::Half => u32::from(u16::from_le_bytes([bytes[lane], bytes[lane + 1]])),
        Size::Word => word,
    }
}

/// A word with the low part of a number, of a size, put at an address in it.
pub(crate) fn with_part(word: u32, addr: u32, size: Size, value: u32) -> u32
    requires { is_aligned size addr ≡ true }
    ensures { result ≡ with_part word (addr % 4) size value }
{
    let mut bytes = word.to_le_bytes();
    let lane = (addr % 4) as usize;
    match size {
        Size::Byte => {
            bytes[lane] = (value % 0x100) as u8;
            u32::from_le_bytes(bytes)
        }
        Size::Half => {
            bytes[lane] = (value % 0x100) as u8;
            bytes[lane + 1] = (value / 0x100 % 0x100) as u8;
            u32::from_le_bytes(bytes)
        }
        Size::Word => value,
    }
}

fn control_narrow(register: ControlRegister) -> Narrow
    ensures { result ≡ control_narrow register }
{
    match register {
        ControlRegister::Shpr1 | ControlRegister::Shpr2 | ControlRegister::Shpr3 => Narrow::Keeps,
        _ => Narrow::Ignored,
    }
}

fn fault_narrow(register: FaultRegister) -> Narrow
    ensures { result ≡ fault_narrow register }
{
    match register {
        FaultRegister::Cfsr => Narrow::Zeros,
        _ => Narrow::Ignored,
    }
}

/// What a write of a byte or a halfword does to a register.
pub(crate) fn narrow_of(register: Register) -> Narrow
    ensures { result ≡ narrow_of register }
{
    match register {
        Register::Priorities(_) => Narrow::Keeps,
        Register::Control(register) => control_narrow(register),
        Register::Fault(register) => fault_narrow(register),
        _ => Narrow::Ignored,
    }
}

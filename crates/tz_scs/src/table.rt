//! Where the system registers stand (DDI0553, chapter D1.2), by pages of the table of offsets.

ghost use Rattle.std.specs.Prelude.{◌≡◌, ◌/◌, ◌%◌};
ghost use Rattle.tz_state.specs.RegisterTable.{register_in, timer_rows, nvic_rows, mover_rows, control_rows, mpu_rows, sau_rows, register_at};

use tz_state::{
    Bank, ControlRegister, FaultRegister, MoverRegister, MpuRegister, Register, SauRegister,
    TimerRegister,
};

/// ICTR and the registers of SysTick.
fn timer_row(offset: u32) -> Option<Register>
    ensures { result ≡ register_in timer_rows offset }
{
    match offset {
        0x004 => Some(Register::Ictr),
        0x010 => Some(Register::Timer(TimerRegister::Csr)),
        0x014 => Some(Register::Timer(TimerRegister::Rvr)),
        0x018 => Some(Register::Timer(TimerRegister::Cvr)),
        0x01C => Some(Register::Timer(TimerRegister::Calib)),
        _ => None,
    }
}

/// The arrays of the NVIC, by blocks of 128 bytes.
fn nvic_row(offset: u32) -> Option<Register>
    ensures { result ≡ register_in (nvic_rows (offset % 128 / 4)) (offset / 128) }
{
    let word = (offset % 128 / 4) as u8;
    match offset / 128 {
        2 => Some(Register::Bits(Bank::Enable, word)),
        3 => Some(Register::Bits(Bank::Disable, word)),
        4 => Some(Register::Bits(Bank::Pend, word)),
        5 => Some(Register::Bits(Bank::Unpend, word)),
        6 => Some(Register::Bits(Bank::Active, word)),
        7 => Some(Register::Bits(Bank::Target, word)),
        8 => Some(Register::Priorities(word)),
        9 => Some(Register::Priorities(32 + word)),
        _ => None,
    }
}

/// The mover.
fn mover_row(offset: u32) -> Option<Register>
    ensures { result ≡ register_in mover_rows offset }
{
    match offset {
        0xC00 => Some(Register::Mover(MoverRegister::Src)),
        0xC04 => Some(Register::Mover(MoverRegister::Dst)),
        0xC08 => Some(Register::Mover(MoverRegister::Count)),
        0xC0C => Some(Register::Mover(MoverRegister::Ctrl)),
        _ => None,
    }
}

/// The system control block with the registers of faults.
fn control_row(offset: u32) -> Option<Register>
    ensures { result ≡ register_in control_rows offset }
{
    match offset {
        0xD00 => Some(Register::Control(ControlRegister::Cpuid)),
        0xD04 => Some(Register::Control(ControlRegister::Icsr)),
        0xD08 => Some(Register::Control(ControlRegister::Vtor)),
        0xD0C => Some(Register::Control(ControlRegister::Aircr)),
        0xD14 => Some(Register::Control(ControlRegister::Ccr)),
        0xD18 => Some(Register::Control(ControlRegister::Shpr1)),
        0xD1C => Some(Register::Control(ControlRegister::Shpr2)),
        0xD20 => Some(Register::Control(ControlRegister::Shpr3)),
        0xD24 => Some(Register::Control(ControlRegister::Shcsr)),
        0xD28 => Some(Register::Fault(FaultRegister::Cfsr)),
        0xD2C => Some(Register::Fault(FaultRegister::Hfsr)),
        0xD34 => Some(Register::Fault(FaultRegister::Mmfar)),
        0xD38 => Some(Register::Fault(FaultRegister::Bfar)),
        _ => None,
    }
}

/// An MPU.
fn mpu_row(offset: u32) -> Option<Register>
    ensures { result ≡ register_in mpu_rows offset }
{
    match offset {
        0xD90 => Some(Register::Mpu(MpuRegister::Type)),
        0xD94 => Some(Register::Mpu(MpuRegister::Ctrl)),
        0xD98 => Some(Register::Mpu(MpuRegister::Rnr)),
        0xD9C => Some(Register::Mpu(MpuRegister::Rbar(0))),
        0xDA0 => Some(Register::Mpu(MpuRegister::Rlar(0))),
        0xDA4 => Some(Register::Mpu(MpuRegister::Rbar(1))),
        0xDA8 => Some(Register::Mpu(MpuRegister::Rlar(1))),
        0xDAC => Some(Register::Mpu(MpuRegister::Rbar(2))),
        0xDB0 => Some(Register::Mpu(MpuRegister::Rlar(2))),
        0xDB4 => Some(Register::Mpu(MpuRegister::Rbar(3))),
        0xDB8 => Some(Register::Mpu(MpuRegister::Rlar(3))),
        0xDC0 => Some(Register::Mpu(MpuRegister::Mair0)),
        0xDC4 => Some(Register::Mpu(MpuRegister::Mair1)),
        _ => None,
    }
}

/// The SAU, SFSR, SFAR and STIR.
fn sau_row(offset: u32) -> Option<Register>
    ensures { result ≡ register_in sau_rows offset }
{
    match offset {
        0xDD0 => Some(Register::Sau(SauRegister::Ctrl)),
        0xDD4 => Some(Register::Sau(SauRegister::Type)),
        0xDD8 => Some(Register::Sau(SauRegister::Rnr)),
        0xDDC => Some(Register::Sau(SauRegister::Rbar)),
        0xDE0 => Some(Register::Sau(SauRegister::Rlar)),
        0xDE4 => Some(Register::Fault(FaultRegister::Sfsr)),
        0xDE8 => Some(Register::Fault(FaultRegister::Sfar)),
        0xF00 => Some(Register::Stir),
        _ => None,
    }
}

/// The register whose word has an offset, in bytes from the start of the system control space; `None` where there is none.
pub fn register_at(offset: u32) -> Option<Register>
    ensures { result ≡ register_at offset }
{
    if offset < 0x100 {
        timer_row(offset)
    } else if offset < 0xC00 {
        nvic_row(offset)
    } else if offset < 0xD00 {
        mover_row(offset)
    } else if offset < 0xD90 {
        control_row(offset)
    } else if offset < 0xDD0 {
        mpu_row(offset)
    } else {
        sau_row(offset)
    }
}

//! The names of the system registers (DDI0553, chapter D1.2), and what an address in the private space is called.

ghost use Rattle.std.specs.Prelude.{◌≡◌, ◌≤◌, ◌+◌, ◌++◌, Some, decimal, length};
ghost use Rattle.arrayvec.specs.ArrayString.{array_string_len};
ghost use Rattle.tz_state.specs.RegisterTable.{register_at};
ghost use Rattle.tz_full.specs.RegisterNames.{timer_name, bank_name, control_name, fault_name, mover_name, mpu_name, sau_name, register_name, is_there, named, name_at};

use crate::text::Text;
use tz_model::address_map::{SCS_FIRST, SCS_LAST, SCS_NS_FIRST, SCS_NS_LAST};
use tz_scs::register_at;
use tz_state::{
    Bank, ControlRegister, FaultRegister, MoverRegister, MpuRegister, Register, SauRegister,
    TimerRegister,
};
use tz_syntax::push_decimal;

fn timer_name(register: TimerRegister) -> &'static str
    ensures name { result.now ≡ timer_name register }
    ensures short { length result.now ≤ 11 }
{
    match register {
        TimerRegister::Csr => "SYST_CSR",
        TimerRegister::Rvr => "SYST_RVR",
        TimerRegister::Cvr => "SYST_CVR",
        TimerRegister::Calib => "SYST_CALIB",
    }
}

fn bank_name(bank: Bank) -> &'static str
    ensures name { result.now ≡ bank_name bank }
    ensures short { length result.now ≤ 9 }
{
    match bank {
        Bank::Enable => "NVIC_ISER",
        Bank::Disable => "NVIC_ICER",
        Bank::Pend => "NVIC_ISPR",
        Bank::Unpend => "NVIC_ICPR",
        Bank::Active => "NVIC_IABR",
        Bank::Target => "NVIC_ITNS",
    }
}

fn control_name(register: ControlRegister) -> &'static str
    ensures name { result.now ≡ control_name register }
    ensures short { length result.now ≤ 11 }
{
    match register {
        ControlRegister::Cpuid => "CPUID",
        ControlRegister::Icsr => "ICSR",
        ControlRegister::Vtor => "VTOR",
        ControlRegister::Aircr => "AIRCR",
        ControlRegister::Ccr => "CCR",
        ControlRegister::Shpr1 => "SHPR1",
        ControlRegister::Shpr2 => "SHPR2",
        ControlRegister::Shpr3 => "SHPR3",
        ControlRegister::Shcsr => "SHCSR",
    }
}

fn fault_name(register: FaultRegister) -> &'static str
    ensures name { result.now ≡ fault_name register }
    ensures short { length result.now ≤ 11 }
{
    match register {
        FaultRegister::Cfsr => "CFSR",
        FaultRegister::Hfsr => "HFSR",
        FaultRegister::Mmfar => "MMFAR",
        FaultRegister::Bfar => "BFAR",
        FaultRegister::Sfsr => "SFSR",
        FaultRegister::Sfar => "SFAR",
    }
}

fn mover_name(register: MoverRegister) -> &'static str
    ensures name { result.now ≡ mover_name register }
    ensures short { length result.now ≤ 11 }
{
    match register {
        MoverRegister::Src => "MOVER_SRC",
        MoverRegister::Dst => "MOVER_DST",
        MoverRegister::Count => "MOVER_COUNT",
        MoverRegister::Ctrl => "MOVER_CTRL",
    }
}

fn mpu_name(register: MpuRegister) -> &'static str
    ensures name { result.now ≡ mpu_name register }
    ensures short { length result.now ≤ 11 }
{
    match register {
        MpuRegister::Type => "MPU_TYPE",
        MpuRegister::Ctrl => "MPU_CTRL",
        MpuRegister::Rnr => "MPU_RNR",
        MpuRegister::Rbar(0) => "MPU_RBAR",
        MpuRegister::Rbar(1) => "MPU_RBAR_A1",
        MpuRegister::Rbar(2) => "MPU_RBAR_A2",
        MpuRegister::Rbar(_) => "MPU_RBAR_A3",
        MpuRegister::Rlar(0) => "MPU_RLAR",
        MpuRegister::Rlar(1) => "MPU_RLAR_A1",
        MpuRegister::Rlar(2) => "MPU_RLAR_A2",
        MpuRegister::Rlar(_) => "MPU_RLAR_A3",
        MpuRegister::Mair0 => "MPU_MAIR0",
        MpuRegister::Mair1 => "MPU_MAIR1",
    }
}

fn sau_name(register: SauRegister) -> &'static str
    ensures name { result.now ≡ sau_name register }
    ensures short { length result.now ≤ 11 }
{
    match register {
        SauRegister::Ctrl => "SAU_CTRL",
        SauRegister::Type => "SAU_TYPE",
        SauRegister::Rnr => "SAU_RNR",
        SauRegister::Rbar => "SAU_RBAR",
        SauRegister::Rlar => "SAU_RLAR",
    }
}

/// The name of an array of the NVIC, and the number of a word of it.
fn push_numbered(text: &mut Text, name: &str, word: u8)
    requires short { length name.now ≤ 9 }
    requires room { array_string_len text.old + 19 ≤ 4096 }
    ensures bytes { text.new.bytes ≡ text.old.bytes ++ (name.now ++ decimal word) }
    ensures len { array_string_len text.new ≤ array_string_len text.old + 19 }
{
    text.push_str(name);
    push_decimal(text, u32::from(word));
}

/// The name of a register.
fn push_register_name(text: &mut Text, register: Register)
    requires { array_string_len text.old + 19 ≤ 4096 }
    ensures bytes { text.new.bytes ≡ text.old.bytes ++ register_name register }
    ensures len { array_string_len text.new ≤ array_string_len text.old + 19 }
{
    match register {
        Register::Ictr => text.push_str("ICTR"),
        Register::Stir => text.push_str("STIR"),
        Register::Timer(register) => text.push_str(timer_name(register)),
        Register::Bits(bank, word) => push_numbered(text, bank_name(bank), word),
        Register::Priorities(word) => push_numbered(text, "NVIC_IPR", word),
        Register::Control(register) => text.push_str(control_name(register)),
        Register::Fault(register) => text.push_str(fault_name(register)),
        Register::Mover(register) => text.push_str(mover_name(register)),
        Register::Mpu(register) => text.push_str(mpu_name(register)),
        Register::Sau(register) => text.push_str(sau_name(register)),
    }
}

/// Whether a register is there: those of the mover where the board has one.
fn is_there(mover: bool, register: Register) -> bool
    ensures { result ≡ is_there mover register }
{
    match register {
        Register::Mover(_) => mover,
        _ => true,
    }
}

/// The name of a register that is there, and what stands behind it.
fn push_named(text: &mut Text, mover: bool, register: Register, suffix: &str)
    requires { array_string_len text.old + 19 + length suffix.now ≤ 4096 }
    ensures bytes { text.new.bytes ≡ text.old.bytes ++ named mover (Some register) suffix.now }
    ensures len { array_string_len text.new ≤ array_string_len text.old + 19 + length suffix.now }
{
    if is_there(mover, register) {
        push_register_name(text, register);
        text.push_str(suffix);
    } else {
        text.push_str("reserved");
    }
}

/// The name of the register whose word has an offset, and what stands behind it.
fn push_at_offset(text: &mut Text, mover: bool, offset: u32, suffix: &str)
    requires { array_string_len text.old + 19 + length suffix.now ≤ 4096 }
    ensures bytes { text.new.bytes ≡ text.old.bytes ++ named mover (register_at offset) suffix.now }
    ensures len { array_string_len text.new ≤ array_string_len text.old + 19 + length suffix.now }
{
    match register_at(offset) {
        None => text.push_str("reserved"),
        Some(register) => push_named(text, mover, register, suffix),
    }
}

/// The register whose word holds an address, with `_NS` where the alias of the Non-secure view has it; `reserved` where
/// there is none, as are those of the mover on a board without one.
#[tactic(auto, unfolding(crate::specs::RegisterNames::name_at))]
pub fn push_name_at(text: &mut Text, mover: bool, addr: u32)
    requires { array_string_len text.old + 22 ≤ 4096 }
    ensures bytes { text.new.bytes ≡ text.old.bytes ++ name_at mover addr }
    ensures len { array_string_len text.new ≤ array_string_len text.old + 22 }
{
    if addr >= SCS_FIRST && addr <= SCS_LAST {
        push_at_offset(text, mover, (addr - SCS_FIRST) / 4 * 4, "");
    } else if addr >= SCS_NS_FIRST && addr <= SCS_NS_LAST {
        push_at_offset(text, mover, (addr - SCS_NS_FIRST) / 4 * 4, "_NS");
    } else {
        text.push_str("reserved");
    }
}

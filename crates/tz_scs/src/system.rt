//! Reads and writes of the system registers.

ghost use Rattle.std.specs.Prelude.{◌≡◌, ◌%◌, true, MatchOption};
ghost use Rattle.tz_state.specs.Access.{is_aligned};
ghost use Rattle.tz_state.specs.declared.register.Register.TheVariants.{Sau};
ghost use Rattle.tz_state.specs.SystemRegisters.{control_value, control_written, sau_seen, value_of, after_read, written};
ghost use Rattle.tz_state.specs.Views.{narrow_of, narrow_written, sized_written, system_value, system_read, system_written};
ghost use Rattle.tz_scs.specs.Lent.{state_of, SameLoans, SameSystem, machine_of, system_of, with_system};

use crate::channels::{channel_after, channel_seen, put_own_channel};
use crate::control;
use crate::faults::{fault_value, own_status, put_own_status, write_fault};
use crate::interrupts::{bank_value, priorities_value, write_bank, write_priorities, write_stir};
use crate::numbers::{shpr_value, write_shpr};
use crate::parts::{narrow_of, part_of, with_part};
use crate::timers::{timer_read, timer_value, timer_written};
use crate::views::found_at;
use tz_access::Bus;
use tz_model::{Side, Size};
use tz_nvic::Exceptions;
use tz_regs::{Core, Status};
use tz_state::{ControlRegister, Narrow, Register, SauRegister, ViewedRegister};

/// The state that the system registers stand in, with the number of the exception that is handled.
#[derive(Drop)]
pub struct SystemRegisters<'a> {
    /// IPSR, 0 in Thread mode.
    pub ipsr: u16,
    pub status: &'a mut Status,
    pub exceptions: &'a mut Exceptions,
    pub bus: &'a mut Bus,
}

impl SystemRegisters<'_> {
    fn control_value(&self, view: Side, register: ControlRegister) -> u32
        ensures { result ≡ control_value view (state_of self.now) register }
    {
        match register {
            ControlRegister::Cpuid => 0x410F_D213,
            ControlRegister::Icsr => control::icsr_value(self.exceptions, view, self.ipsr),
            ControlRegister::Vtor => own_status(view, self.status).vtor,
            ControlRegister::Aircr => control::aircr_value(self.exceptions, view),
            ControlRegister::Ccr => control::ccr_value(own_status(view, self.status)),
            ControlRegister::Shpr1 => shpr_value(self.exceptions, view, 4),
            ControlRegister::Shpr2 => shpr_value(self.exceptions, view, 8),
            ControlRegister::Shpr3 => shpr_value(self.exceptions, view, 12),
            ControlRegister::Shcsr => control::shcsr_value(self.exceptions, view),
        }
    }

    fn write_control(&mut self, view: Side, register: ControlRegister, value: u32)
        ensures loans { SameLoans self.old self.new }
        ensures is { state_of self.new ≡ control_written view (state_of self.old) register value }
    {
        match register {
            ControlRegister::Cpuid => {}
            ControlRegister::Icsr => control::write_icsr(self.exceptions, view, value),
            ControlRegister::Vtor => {
                let own = control::vtor_written(*own_status(view, self.status), value);
                put_own_status(self.status, view, own);
            }
            ControlRegister::Aircr => control::write_aircr(self.exceptions, view, value),
            ControlRegister::Ccr => {
                let own = control::ccr_written(*own_status(view, self.status), value);
                put_own_status(self.status, view, own);
            }
            ControlRegister::Shpr1 => write_shpr(self.exceptions, view, 4, value),
            ControlRegister::Shpr2 => write_shpr(self.exceptions, view, 8, value),
            ControlRegister::Shpr3 => write_shpr(self.exceptions, view, 12, value),
            ControlRegister::Shcsr => control::write_shcsr(self.exceptions, view, value),
        }
    }

    fn sau_value(&self, view: Side, register: SauRegister) -> u32
        ensures { result ≡ sau_seen view self.now.bus.now.state.sau register }
    {
        match view {
            Side::Secure => self.bus.sau_register(register),
            Side::NonSecure => 0,
        }
    }

    fn write_sau(&mut self, view: Side, register: SauRegister, value: u32)
        ensures loans { SameLoans self.old self.new }
        ensures is { state_of self.new ≡ written view (state_of self.old) (Sau register) value }
    {
        match view {
            Side::Secure => self.bus.set_sau_register(register, value),
            Side::NonSecure => {}
        }
    }

    /// What a register shows to a side.
    fn value_of(&self, view: Side, register: Register) -> u32
        ensures { result ≡ value_of view (state_of self.now) register }
    {
        match register {
            Register::Ictr => u32::from(self.exceptions.interrupts()).saturating_sub(1) / 32,
            Register::Stir => 0,
            Register::Timer(register) => timer_value(self.exceptions.timer(view), register),
            Register::Bits(bank, word) => bank_value(self.exceptions, view, bank, word),
            Register::Priorities(word) => priorities_value(self.exceptions, view, word),
            Register::Control(register) => self.control_value(view, register),
            Register::Fault(register) => fault_value(
                self.status,
                view,
                self.exceptions.fault_side(),
                register,
            ),
            Register::Mover(register) => channel_seen(
                self.bus.board().mover,
                own_status(view, self.status).channel,
                register,
            ),
            Register::Mpu(register) => self.bus.mpu_register(view, register),
            Register::Sau(register) => self.sau_value(view, register),
        }
    }

    /// What a read by a side changes: that of SYST_CSR clears COUNTFLAG.
    fn after_read(&mut self, view: Side, register: Register)
        ensures loans { SameLoans self.old self.new }
        ensures is { state_of self.new ≡ after_read view (state_of self.old) register }
    {
        match register {
            Register::Timer(register) => {
                let timer = timer_read(self.exceptions.timer(view), register);
                self.exceptions.put_timer(view, timer);
            }
            Register::Ictr
            | Register::Stir
            | Register::Bits(_, _)
            | Register::Priorities(_)
            | Register::Control(_)
            | Register::Fault(_)
            | Register::Mover(_)
            | Register::Mpu(_)
            | Register::Sau(_) => {}
        }
    }

    /// Writes a word by a side.
    fn write_word(&mut self, view: Side, register: Register, value: u32)
        ensures loans { SameLoans self.old self.new }
        ensures is { state_of self.new ≡ written view (state_of self.old) register value }
    {
        match register {
            Register::Ictr => {}
            Register::Stir => write_stir(self.exceptions, view, value),
            Register::Timer(register) => {
                let timer = timer_written(self.exceptions.timer(view), register, value);
                self.exceptions.put_timer(view, timer);
            }
            Register::Bits(bank, word) => write_bank(self.exceptions, view, bank, word, value),
            Register::Priorities(word) => write_priorities(self.exceptions, view, word, value),
            Register::Control(register) => self.write_control(view, register, value),
            Register::Fault(register) => write_fault(
                self.status,
                view,
                self.exceptions.fault_side(),
                register,
                value,
            ),
            Register::Mover(register) => {
                let channel = own_status(view, self.status).channel;
                let after = channel_after(self.bus.board().mover, channel, register, value);
                put_own_channel(self.status, view, after);
            }
            Register::Mpu(register) => self.bus.set_mpu_register(view, register, value),
            Register::Sau(register) => self.write_sau(view, register, value),
        }
    }

    /// The word that a write of a byte or a halfword makes of a register, None where it is ignored.
    fn word_with(&self, found: ViewedRegister, addr: u32, size: Size, value: u32) -> Option<u32>
        requires { is_aligned size addr ≡ true }
        ensures { MatchOption result
            (narrow_written found.view (state_of self.now) found.register (narrow_of found.register) (addr % 4) size value ≡ state_of self.now)
            (λ word. narrow_written found.view (state_of self.now) found.register (narrow_of found.register) (addr % 4) size value ≡ written found.view (state_of self.now) found.register word) }
    {
        match narrow_of(found.register) {
            Narrow::Keeps => {
                let word = self.value_of(found.view, found.register);
                Some(with_part(word, addr, size, value))
            }
            Narrow::Zeros => Some(with_part(0, addr, size, value)),
            Narrow::Ignored => None,
        }
    }

    /// Writes a number of a size to a register.
    fn write_sized(&mut self, found: ViewedRegister, addr: u32, size: Size, value: u32)
        requires { is_aligned size addr ≡ true }
        ensures loans { SameLoans self.old self.new }
        ensures is { state_of self.new ≡ sized_written found.view (state_of self.old) found.register (addr % 4) size value }
    {
        let written = match size {
            Size::Byte | Size::Half => self.word_with(found, addr, size, value),
            Size::Word => Some(value),
        };
        if let Some(word) = written {
            self.write_word(found.view, found.register, word);
        }
    }

    /// Reads as code of a side does, at an aligned address: the bytes of the register's word, and zero where the
    /// code finds no register. A read of SYST_CSR clears COUNTFLAG.
    pub fn read(&mut self, addr: u32, size: Size, side: Side) -> u32
        requires { is_aligned size addr ≡ true }
        ensures loans { SameLoans self.old self.new }
        ensures value { result ≡ system_value side (state_of self.old) addr size }
        ensures state { state_of self.new ≡ system_read side (state_of self.old) addr }
    {
        match found_at(side, addr) {
            None => 0,
            Some(found) => {
                let word = self.value_of(found.view, found.register);
                self.after_read(found.view, found.register);
                part_of(word, addr, size)
            }
        }
    }

    /// Writes as code of a side does, at an aligned address; where the code finds no register, nothing changes.
    /// Of a byte or a halfword the low part of `value` counts.
    pub fn write(&mut self, addr: u32, size: Size, side: Side, value: u32)
        requires { is_aligned size addr ≡ true }
        ensures loans { SameLoans self.old self.new }
        ensures state { state_of self.new ≡ system_written side (state_of self.old) addr size value }
    {
        match found_at(side, addr) {
            None => {}
            Some(found) => self.write_sized(found, addr, size, value),
        }
    }
}

/// A core with its exceptions and the bus, lent together.
#[derive(Drop)]
pub struct System<'a> {
    pub core: &'a mut Core,
    pub exceptions: &'a mut Exceptions,
    pub bus: &'a mut Bus,
}

impl System<'_> {
    /// Reads as `SystemRegisters::read` does; the rest of the core stays as it was.
    pub fn read(&mut self, addr: u32, size: Size, side: Side) -> u32
        requires { is_aligned size addr ≡ true }
        ensures loans { SameSystem self.old self.new }
        ensures value { result ≡ system_value side (system_of (machine_of self.old)) addr size }
        ensures state { machine_of self.new ≡ with_system (machine_of self.old) (system_read side (system_of (machine_of self.old)) addr) }
    {
        let mut registers = SystemRegisters {
            ipsr: self.core.registers.ipsr,
            status: &mut self.core.status,
            exceptions: self.exceptions,
            bus: self.bus,
        };
        registers.read(addr, size, side)
    }

    /// Writes as `SystemRegisters::write` does; the rest of the core stays as it was.
    pub fn write(&mut self, addr: u32, size: Size, side: Side, value: u32)
        requires { is_aligned size addr ≡ true }
        ensures loans { SameSystem self.old self.new }
        ensures state { machine_of self.new ≡ with_system (machine_of self.old) (system_written side (system_of (machine_of self.old)) addr size value) }
    {
        let mut registers = SystemRegisters {
            ipsr: self.core.registers.ipsr,
            status: &mut self.core.status,
            exceptions: self.exceptions,
            bus: self.bus,
        };
        registers.write(addr, size, side, value);
    }
}

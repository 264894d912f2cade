//! The registers of the SAU and of the MPUs, by their names and by their addresses (DDI0553, chapter D1.2).

ghost use Rattle.std.specs.Prelude.{◌≡◌};
ghost use Rattle.tz_state.specs.State.{mpu_of, with_mpu};
ghost use Rattle.tz_state.specs.UnitRegisters.{sau_value, with_sau_value, mpu_value, with_mpu_value};
ghost use Rattle.tz_access.specs.Registers.{is_of_sau, unit_read, unit_written};

use crate::bus::Bus;
use tz_model::Side;
use tz_model::address_map::{SAU_FIRST, SAU_LAST};
use tz_state::{MpuRegister, SauRegister};

/// Whether an address is one of the SAU's registers.
fn is_of_sau(addr: u32) -> bool
    ensures { result ≡ is_of_sau addr }
{
    addr >= SAU_FIRST && addr <= SAU_LAST
}

impl Bus {
    /// The value of a register of the SAU.
    pub fn sau_register(&self, register: SauRegister) -> u32
        ensures { result ≡ sau_value self.now.state.sau register }
    {
        self.sau.value(register)
    }

    /// Writes a register of the SAU, the bits that it has.
    pub fn set_sau_register(&mut self, register: SauRegister, value: u32)
        ensures { self.new.state ≡ record self.old.state { sau = with_sau_value self.old.state.sau register value } }
    {
        self.sau.set(register, value);
        self.kept.empty_where(self.sau.take_changed());
    }

    /// The value of a register of the MPU of a side.
    pub fn mpu_register(&self, side: Side, register: MpuRegister) -> u32
        ensures { result ≡ mpu_value (mpu_of side self.now.state) register }
    {
        self.mpu(side).value(register)
    }

    /// Writes a register of the MPU of a side, the bits that it has on the board's profile.
    pub fn set_mpu_register(&mut self, side: Side, register: MpuRegister, value: u32)
        ensures { self.new.state ≡ with_mpu self.old.state side (with_mpu_value self.old.state.board.profile (mpu_of side self.old.state) register value) }
    {
        match side {
            Side::Secure => {
                self.mpu_s.set(register, value);
                self.kept.empty_where(self.mpu_s.take_changed());
            }
            Side::NonSecure => {
                self.mpu_ns.set(register, value);
                self.kept.empty_where(self.mpu_ns.take_changed());
            }
        }
    }

    /// The register of the SAU, or of the MPU of a side, at an address; one that isn't there reads zero.
    pub fn register(&self, addr: u32, side: Side) -> u32
        ensures { result ≡ unit_read self.now.state side addr }
    {
        if is_of_sau(addr) {
            self.sau.read(addr)
        } else {
            self.mpu(side).read(addr)
        }
    }

    /// Writes the register of the SAU, or of the MPU of a side, at an address; one that isn't there takes
    /// no write. Tests are its users.
    pub fn set_register(&mut self, addr: u32, side: Side, value: u32)
        ensures { self.new.state ≡ unit_written self.old.state side addr value }
    {
        if is_of_sau(addr) {
            self.sau.write(addr, value);
            self.kept.empty_where(self.sau.take_changed());
        } else {
            match side {
                Side::Secure => {
                    self.mpu_s.write(addr, value);
                    self.kept.empty_where(self.mpu_s.take_changed());
                }
                Side::NonSecure => {
                    self.mpu_ns.write(addr, value);
                    self.kept.empty_where(self.mpu_ns.take_changed());
                }
            }
        }
    }
}

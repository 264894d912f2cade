//! Which registers are in use, and reads and writes by number.

ghost use Rattle.std.specs.Prelude.{◌≡◌, ◌<◌, ◌≤◌, MatchResult};
ghost use Rattle.tz_regs.specs.Banks.{stacks_of, with_stacks};
ghost use Rattle.tz_regs.specs.Special.{named_of, with_named};
ghost use Rattle.tz_regs.specs.Registers.{is_handler, is_privileged, uses_process, pointer_of, pointer_limit_of, with_pointer, sp_of, reg_of, with_reg, with_reg_stacks, with_n_and_z, side_in, sp_in, before_in};

use crate::parts::{Apsr, Before, Core, Registers, Stacks};
use crate::special::StackLimit;
use tz_model::Side;

impl Stacks {
    /// Whether code of this side is privileged, with this number of an exception (DDI0553,
    /// `CurrentModeIsPrivileged`).
    pub fn privileged(&self, ipsr: u16) -> bool
        ensures { result ≡ is_privileged ipsr self.now }
    {
        ipsr != 0 || !self.npriv
    }

    /// Whether PSP is in use.
    pub fn uses_process(&self, ipsr: u16) -> bool
        ensures { result ≡ uses_process ipsr self.now }
    {
        ipsr == 0 && self.spsel
    }

    /// The stack pointer in use.
    pub fn pointer(&self, ipsr: u16) -> u32
        ensures { result ≡ pointer_of ipsr self.now }
    {
        if self.uses_process(ipsr) {
            self.psp
        } else {
            self.msp
        }
    }

    /// The limit of the stack pointer in use.
    pub fn limit(&self, ipsr: u16) -> u32
        ensures { result ≡ pointer_limit_of ipsr self.now }
    {
        if self.uses_process(ipsr) {
            self.psplim
        } else {
            self.msplim
        }
    }

    /// Writes the stack pointer in use.
    pub fn set_pointer(&mut self, ipsr: u16, value: u32)
        ensures { self.new ≡ with_pointer ipsr self.old value }
    {
        if self.uses_process(ipsr) {
            self.psp = value / 4 * 4;
        } else {
            self.msp = value / 4 * 4;
        }
    }

    /// Writes the stack pointer in use where `index` is 13.
    pub fn set_reg(&mut self, ipsr: u16, index: u8, value: u32)
        ensures { self.new ≡ with_reg_stacks ipsr self.old index value }
    {
        if index == 13 {
            self.set_pointer(ipsr, value);
        }
    }
}

impl Apsr {
    /// Tells a value in N and Z.
    pub fn tell(&mut self, value: u32)
        ensures { self.new ≡ with_n_and_z value self.old }
    {
        self.n = value >= 0x8000_0000;
        self.z = value == 0;
    }
}

impl Registers {
    /// R0 to R12, SP of these stacks, and LR; any other number is PC, which reads as the instruction's
    /// address plus 4.
    #[inline(always)]
    pub fn reg(&self, own: &Stacks, index: u8) -> u32
        ensures { result ≡ reg_of self.now own.now index }
    {
        match index {
            0..=12 => self.general[usize::from(index)],
            13 => own.pointer(self.ipsr),
            14 => self.lr,
            _ => self.pc.wrapping_add(4),
        }
    }

    /// Writes R0 to R12 or LR; other numbers change nothing.
    pub fn set_reg(&mut self, index: u8, value: u32)
        ensures { self.new ≡ with_reg self.old index value }
    {
        match index {
            0..=12 => self.general[usize::from(index)] = value,
            14 => self.lr = value,
            _ => {}
        }
    }
}

impl Core {
    /// The state that the core is in; a locked core counts as Secure.
    pub fn running_side(&self) -> Side
        ensures { result ≡ side_in self.now }
    {
        if self.run.locked {
            Side::Secure
        } else {
            self.run.side
        }
    }

    /// The stacks of a side.
    pub fn stacks(&self, side: Side) -> &Stacks
        ensures { result.now ≡ stacks_of side self.now }
    {
        match side {
            Side::Secure => &self.stacks_s,
            Side::NonSecure => &self.stacks_ns,
        }
    }

    /// Whether an exception is handled.
    pub fn handler(&self) -> bool
        ensures { result ≡ is_handler self.now.registers.ipsr }
    {
        self.registers.ipsr != 0
    }

    /// Whether code of a side is privileged (DDI0553, `CurrentModeIsPrivileged`).
    pub fn privileged(&self, side: Side) -> bool
        ensures { result ≡ is_privileged self.now.registers.ipsr (stacks_of side self.now) }
    {
        self.stacks(side).privileged(self.registers.ipsr)
    }

    /// The stack pointer in use.
    pub fn pointer(&self) -> u32
        ensures { result ≡ sp_in self.now }
    {
        self.stacks(self.run.side).pointer(self.registers.ipsr)
    }

    /// R0 to R12, SP or LR.
    pub fn get(&self, n: u8) -> u32
        requires { n < 15 }
        ensures { result ≡ reg_of self.now.registers (stacks_of self.now.run.side self.now) n }
    {
        self.registers.reg(self.stacks(self.run.side), n)
    }

    /// Writes R0 to R12, SP or LR. SP has no bits 1:0, and isn't compared with its limit.
    pub fn set(&mut self, n: u8, value: u32)
        requires { n < 15 }
        ensures { self.new ≡ with_stacks self.old.run.side (record self.old { registers = with_reg self.old.registers n value }) (with_reg_stacks self.old.registers.ipsr (stacks_of self.old.run.side self.old) n value) }
    {
        self.put(n, value);
    }

    /// Writes R0 to R12, SP or LR as `set` does; other numbers change nothing.
    pub fn put(&mut self, n: u8, value: u32)
        ensures { self.new ≡ with_named self.old (record (named_of self.old) { registers = with_reg self.old.registers n value; own = with_reg_stacks self.old.registers.ipsr (stacks_of self.old.run.side self.old) n value }) }
    {
        match self.run.side {
            Side::Secure => self.stacks_s.set_reg(self.registers.ipsr, n, value),
            Side::NonSecure => self.stacks_ns.set_reg(self.registers.ipsr, n, value),
        }
        self.registers.set_reg(n, value);
    }

    /// MSP of a side, or PSP with `process`.
    pub fn sp(&self, side: Side, process: bool) -> u32
        ensures { result ≡ sp_of process (stacks_of side self.now) }
    {
        if process {
            self.stacks(side).psp
        } else {
            self.stacks(side).msp
        }
    }

    /// Writes the stack pointer in use. `StackLimit` exactly where the value is below its limit; then
    /// nothing changes. Tests are its users.
    pub fn set_sp_checked(&mut self, value: u32) -> Result<(), StackLimit>
        ensures { MatchResult result
            (λ _. (pointer_limit_of self.old.registers.ipsr (stacks_of self.old.run.side self.old) ≤ value) × (self.new ≡ with_stacks self.old.run.side self.old (with_pointer self.old.registers.ipsr (stacks_of self.old.run.side self.old) value)))
            (λ _. (value < pointer_limit_of self.old.registers.ipsr (stacks_of self.old.run.side self.old)) × (self.new ≡ self.old)) }
    {
        let ipsr = self.registers.ipsr;
        if value < self.stacks(self.run.side).limit(ipsr) {
            return Err(StackLimit);
        }
        match self.run.side {
            Side::Secure => self.stacks_s.set_pointer(ipsr, value),
            Side::NonSecure => self.stacks_ns.set_pointer(ipsr, value),
        }
        Ok(())
    }

    /// What the report of a step needs of the core before it.
    pub fn before(&self) -> Before
        ensures { result ≡ before_in self.now }
    {
        Before {
            side: self.running_side(),
            registers: self.registers,
            sp: self.pointer(),
        }
    }
}

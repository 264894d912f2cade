//! Writers of the parts. Each keeps the bits that the manual's register has, and changes nothing else. Steps write
//! the parts themselves. A state that is read from words is a user of the calls from `set_msp` on; of the others tests are.

ghost use Rattle.std.specs.Prelude.{◌≡◌, ◌/◌, ◌*◌, ◌%◌, ◌^◌, ◌==◌};
ghost use Rattle.tz_model.specs.Words.{even_of};
ghost use Rattle.tz_regs.specs.Banks.{stacks_of, with_stacks, masks_of, with_masks};
ghost use Rattle.tz_regs.specs.Registers.{word_aligned};
ghost use Rattle.tz_regs.specs.RegisterBits.{control_spsel};

use crate::parts::Core;
use crate::register_bits::CONTROL_SPSEL;
use tz_model::{Side, Sleep};

impl Core {
    /// Writes the state that code runs in.
    pub fn set_side(&mut self, value: Side)
        ensures { self.new ≡ record self.old { run = record self.old.run { side = value } } }
    {
        self.run.side = value;
    }

    /// Locks or unlocks the core.
    pub fn set_locked(&mut self, value: bool)
        ensures { self.new ≡ record self.old { run = record self.old.run { locked = value } } }
    {
        self.run.locked = value;
    }

    /// Writes whether the core sleeps.
    pub fn set_sleep(&mut self, value: Sleep)
        ensures { self.new ≡ record self.old { run = record self.old.run { sleep = value } } }
    {
        self.run.sleep = value;
    }

    /// Writes the event flag.
    pub fn set_event(&mut self, value: bool)
        ensures { self.new ≡ record self.old { event = value } }
    {
        self.event = value;
    }

    /// Writes LR.
    pub fn set_lr(&mut self, value: u32)
        ensures { self.new ≡ record self.old { registers = record self.old.registers { lr = value } } }
    {
        self.registers.lr = value;
    }

    /// Writes PC, without bit 0.
    pub fn set_pc(&mut self, value: u32)
        ensures { self.new ≡ record self.old { registers = record self.old.registers { pc = even_of value } } }
    {
        self.registers.pc = value / 2 * 2;
    }

    /// Writes EPSR.IT.
    pub fn set_it(&mut self, value: u8)
        ensures { self.new ≡ record self.old { registers = record self.old.registers { it = value } } }
    {
        self.registers.it = value;
    }

    /// Writes IPSR, of nine bits.
    pub fn set_ipsr(&mut self, value: u16)
        ensures { self.new ≡ record self.old { registers = record self.old.registers { ipsr = value % 512 } } }
    {
        self.registers.ipsr = value % 512;
    }

    /// Writes APSR.N.
    pub fn set_n(&mut self, value: bool)
        ensures { self.new ≡ record self.old { registers = record self.old.registers { apsr = record self.old.registers.apsr { n = value } } } }
    {
        self.registers.apsr.n = value;
    }

    /// Writes APSR.Z.
    pub fn set_z(&mut self, value: bool)
        ensures { self.new ≡ record self.old { registers = record self.old.registers { apsr = record self.old.registers.apsr { z = value } } } }
    {
        self.registers.apsr.z = value;
    }

    /// Writes APSR.C.
    pub fn set_c(&mut self, value: bool)
        ensures { self.new ≡ record self.old { registers = record self.old.registers { apsr = record self.old.registers.apsr { c = value } } } }
    {
        self.registers.apsr.c = value;
    }

    /// Writes APSR.V.
    pub fn set_v(&mut self, value: bool)
        ensures { self.new ≡ record self.old { registers = record self.old.registers { apsr = record self.old.registers.apsr { v = value } } } }
    {
        self.registers.apsr.v = value;
    }

    /// Writes APSR.Q.
    pub fn set_q(&mut self, value: bool)
        ensures { self.new ≡ record self.old { registers = record self.old.registers { apsr = record self.old.registers.apsr { q = value } } } }
    {
        self.registers.apsr.q = value;
    }

    /// Writes EPSR.T.
    pub fn set_t(&mut self, value: bool)
        ensures { self.new ≡ record self.old { registers = record self.old.registers { t = value } } }
    {
        self.registers.t = value;
    }

    /// Writes MSP of a side, without bits 1:0.
    pub fn set_msp(&mut self, side: Side, value: u32)
        ensures { self.new ≡ with_stacks side self.old (record (stacks_of side self.old) { msp = word_aligned value }) }
    {
        match side {
            Side::Secure => self.stacks_s.msp = value / 4 * 4,
            Side::NonSecure => self.stacks_ns.msp = value / 4 * 4,
        }
    }

    /// Writes PSP of a side, without bits 1:0.
    pub fn set_psp(&mut self, side: Side, value: u32)
        ensures { self.new ≡ with_stacks side self.old (record (stacks_of side self.old) { psp = word_aligned value }) }
    {
        match side {
            Side::Secure => self.stacks_s.psp = value / 4 * 4,
            Side::NonSecure => self.stacks_ns.psp = value / 4 * 4,
        }
    }

    /// Writes MSPLIM of a side, without bits 2:0.
    pub fn set_msplim(&mut self, side: Side, value: u32)
        ensures { self.new ≡ with_stacks side self.old (record (stacks_of side self.old) { msplim = value / 8 * 8 }) }
    {
        match side {
            Side::Secure => self.stacks_s.msplim = value / 8 * 8,
            Side::NonSecure => self.stacks_ns.msplim = value / 8 * 8,
        }
    }

    /// Writes PSPLIM of a side, without bits 2:0.
    pub fn set_psplim(&mut self, side: Side, value: u32)
        ensures { self.new ≡ with_stacks side self.old (record (stacks_of side self.old) { psplim = value / 8 * 8 }) }
    {
        match side {
            Side::Secure => self.stacks_s.psplim = value / 8 * 8,
            Side::NonSecure => self.stacks_ns.psplim = value / 8 * 8,
        }
    }

    /// Writes PRIMASK of a side, bit 0.
    pub fn set_primask(&mut self, side: Side, value: u32)
        ensures { self.new ≡ record self.old { masks = with_masks side self.old.masks (record (masks_of side self.old.masks) { primask = value % 2 == 1 }) } }
    {
        match side {
            Side::Secure => self.masks.s.primask = value % 2 == 1,
            Side::NonSecure => self.masks.ns.primask = value % 2 == 1,
        }
    }

    /// Writes BASEPRI of a side, bits 7:0.
    pub fn set_basepri(&mut self, side: Side, value: u32)
        ensures { self.new ≡ record self.old { masks = with_masks side self.old.masks (record (masks_of side self.old.masks) { basepri = value % 256 }) } }
    {
        match side {
            Side::Secure => self.masks.s.basepri = (value % 256) as u8,
            Side::NonSecure => self.masks.ns.basepri = (value % 256) as u8,
        }
    }

    /// Writes FAULTMASK of a side, bit 0.
    pub fn set_faultmask(&mut self, side: Side, value: u32)
        ensures { self.new ≡ record self.old { masks = with_masks side self.old.masks (record (masks_of side self.old.masks) { faultmask = value % 2 == 1 }) } }
    {
        match side {
            Side::Secure => self.masks.s.faultmask = value % 2 == 1,
            Side::NonSecure => self.masks.ns.faultmask = value % 2 == 1,
        }
    }

    /// Writes CONTROL of a side, nPRIV and SPSEL.
    pub fn set_control(&mut self, side: Side, value: u32)
        ensures { self.new ≡ with_stacks side self.old (record (stacks_of side self.old) { npriv = value % 2 == 1; spsel = value / 2 ^ control_spsel % 2 == 1 }) }
    {
        match side {
            Side::Secure => {
                self.stacks_s.npriv = value % 2 == 1;
                self.stacks_s.spsel = value / CONTROL_SPSEL % 2 == 1;
            }
            Side::NonSecure => {
                self.stacks_ns.npriv = value % 2 == 1;
                self.stacks_ns.spsel = value / CONTROL_SPSEL % 2 == 1;
            }
        }
    }
}

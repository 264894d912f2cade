//! Writers of the configuration and of the fault registers, as `Status` has them. Faults, entries and stores write `Status`
//! itself; a state that is read from words, and tests, are the users of these calls.

ghost use Rattle.std.specs.Prelude.{◌≡◌, ◌/◌, ◌*◌, bit_and};
ghost use Rattle.tz_regs.specs.Banks.{status_of, with_status};
ghost use Rattle.tz_regs.specs.FaultBits.{mmfsr_bits, bfsr_bits, ufsr_bits, hfsr_bits, sfsr_bits};
ghost use Rattle.tz_regs.specs.RegisterBits.{ccr_bits};

use crate::fault_bits::{BFSR_BITS, HFSR_BITS, MMFSR_BITS, SFSR_BITS, UFSR_BITS};
use crate::parts::Core;
use crate::register_bits::CCR_BITS;
use tz_model::Side;

impl Core {
    /// Writes VTOR of a side, bits 31:7.
    pub fn set_vtor(&mut self, side: Side, value: u32)
        ensures { self.new ≡ with_status side self.old (record (status_of side self.old) { vtor = value / 128 * 128 }) }
    {
        match side {
            Side::Secure => self.status.s.vtor = value / 128 * 128,
            Side::NonSecure => self.status.ns.vtor = value / 128 * 128,
        }
    }

    /// Writes CCR of a side: UNALIGN_TRP and DIV_0_TRP.
    pub fn set_ccr(&mut self, side: Side, value: u32)
        ensures { self.new ≡ with_status side self.old (record (status_of side self.old) { ccr = bit_and value ccr_bits }) }
    {
        match side {
            Side::Secure => self.status.s.ccr = value & CCR_BITS,
            Side::NonSecure => self.status.ns.ccr = value & CCR_BITS,
        }
    }

    /// Writes UFSR of a side, CFSR from bit 16 on: UNDEFINSTR to STKOF, UNALIGNED, DIVBYZERO.
    pub fn set_ufsr(&mut self, side: Side, value: u32)
        ensures { self.new ≡ with_status side self.old (record (status_of side self.old) { ufsr = bit_and value ufsr_bits }) }
    {
        match side {
            Side::Secure => self.status.s.ufsr = value & UFSR_BITS,
            Side::NonSecure => self.status.ns.ufsr = value & UFSR_BITS,
        }
    }

    /// Writes MMFSR of a side: IACCVIOL, DACCVIOL, MUNSTKERR, MSTKERR, MMARVALID.
    pub fn set_mmfsr(&mut self, side: Side, value: u32)
        ensures { self.new ≡ with_status side self.old (record (status_of side self.old) { mmfsr = bit_and value mmfsr_bits }) }
    {
        match side {
            Side::Secure => self.status.s.mmfsr = value & MMFSR_BITS,
            Side::NonSecure => self.status.ns.mmfsr = value & MMFSR_BITS,
        }
    }

    /// Writes MMFAR of a side.
    pub fn set_mmfar(&mut self, side: Side, value: u32)
        ensures { self.new ≡ with_status side self.old (record (status_of side self.old) { mmfar = value }) }
    {
        match side {
            Side::Secure => self.status.s.mmfar = value,
            Side::NonSecure => self.status.ns.mmfar = value,
        }
    }

    /// Writes SFSR: INVEP, INVIS, INVER, AUVIOL, INVTRAN, SFARVALID.
    pub fn set_sfsr(&mut self, value: u32)
        ensures { self.new ≡ record self.old { status = record self.old.status { security = record self.old.status.security { sfsr = bit_and value sfsr_bits } } } }
    {
        self.status.security.sfsr = value & SFSR_BITS;
    }

    /// Writes SFAR.
    pub fn set_sfar(&mut self, value: u32)
        ensures { self.new ≡ record self.old { status = record self.old.status { security = record self.old.status.security { sfar = value } } } }
    {
        self.status.security.sfar = value;
    }

    /// Writes BFSR, CFSR from bit 8 on: IBUSERR, PRECISERR, UNSTKERR, STKERR, BFARVALID.
    pub fn set_bfsr(&mut self, value: u32)
        ensures { self.new ≡ record self.old { status = record self.old.status { bus = record self.old.status.bus { bfsr = bit_and value bfsr_bits } } } }
    {
        self.status.bus.bfsr = value & BFSR_BITS;
    }

    /// Writes BFAR.
    pub fn set_bfar(&mut self, value: u32)
        ensures { self.new ≡ record self.old { status = record self.old.status { bus = record self.old.status.bus { bfar = value } } } }
    {
        self.status.bus.bfar = value;
    }

    /// Writes HFSR: VECTTBL, FORCED, DEBUGEVT.
    pub fn set_hfsr(&mut self, value: u32)
        ensures { self.new ≡ record self.old { status = record self.old.status { bus = record self.old.status.bus { hfsr = bit_and value hfsr_bits } } } }
    {
        self.status.bus.hfsr = value & HFSR_BITS;
    }
}

//! Readers of the parts, each as the word or flag of the manual's register. The program reads most parts as they stand;
//! tests are the users of the other calls.

ghost use Rattle.std.specs.Prelude.{◌≡◌};
ghost use Rattle.tz_regs.specs.Banks.{stacks_of, masks_of, status_of};
ghost use Rattle.tz_regs.specs.Special.{number_of, control_of};

use crate::parts::{Core, SideMasks, SideStatus};
use tz_model::{Side, Sleep};

impl Core {
    /// The state that code runs in; a locked core keeps it.
    pub fn side(&self) -> Side
        ensures { result ≡ self.now.run.side }
    {
        self.run.side
    }

    /// Whether the core is locked.
    pub fn locked(&self) -> bool
        ensures { result ≡ self.now.run.locked }
    {
        self.run.locked
    }

    /// Whether the core sleeps.
    pub fn sleep(&self) -> Sleep
        ensures { result ≡ self.now.run.sleep }
    {
        self.run.sleep
    }

    /// The event flag.
    pub fn event(&self) -> bool
        ensures { result ≡ self.now.event }
    {
        self.event
    }

    /// The link register: where a call goes back to, or an EXC_RETURN value.
    pub fn lr(&self) -> u32
        ensures { result ≡ self.now.registers.lr }
    {
        self.registers.lr
    }

    /// The address of the next instruction.
    pub fn pc(&self) -> u32
        ensures { result ≡ self.now.registers.pc }
    {
        self.registers.pc
    }

    /// EPSR.IT.
    pub fn it(&self) -> u8
        ensures { result ≡ self.now.registers.it }
    {
        self.registers.it
    }

    /// The number of the exception that runs, 0 in Thread mode.
    pub fn ipsr(&self) -> u16
        ensures { result ≡ self.now.registers.ipsr }
    {
        self.registers.ipsr
    }

    /// APSR.N.
    pub fn n(&self) -> bool
        ensures { result ≡ self.now.registers.apsr.n }
    {
        self.registers.apsr.n
    }

    /// APSR.Z.
    pub fn z(&self) -> bool
        ensures { result ≡ self.now.registers.apsr.z }
    {
        self.registers.apsr.z
    }

    /// APSR.C.
    pub fn c(&self) -> bool
        ensures { result ≡ self.now.registers.apsr.c }
    {
        self.registers.apsr.c
    }

    /// APSR.V.
    pub fn v(&self) -> bool
        ensures { result ≡ self.now.registers.apsr.v }
    {
        self.registers.apsr.v
    }

    /// APSR.Q.
    pub fn q(&self) -> bool
        ensures { result ≡ self.now.registers.apsr.q }
    {
        self.registers.apsr.q
    }

    /// EPSR.T.
    pub fn t(&self) -> bool
        ensures { result ≡ self.now.registers.t }
    {
        self.registers.t
    }

    /// The masks of a side.
    pub fn masks(&self, side: Side) -> &SideMasks
        ensures { result.now ≡ masks_of side self.now.masks }
    {
        match side {
            Side::Secure => &self.masks.s,
            Side::NonSecure => &self.masks.ns,
        }
    }

    /// The configuration and the fault registers of a side.
    pub fn side_status(&self, side: Side) -> &SideStatus
        ensures { result.now ≡ status_of side self.now }
    {
        match side {
            Side::Secure => &self.status.s,
            Side::NonSecure => &self.status.ns,
        }
    }

    /// MSP of a side.
    pub fn msp(&self, side: Side) -> u32
        ensures { result ≡ (stacks_of side self.now).msp }
    {
        self.stacks(side).msp
    }

    /// PSP of a side.
    pub fn psp(&self, side: Side) -> u32
        ensures { result ≡ (stacks_of side self.now).psp }
    {
        self.stacks(side).psp
    }

    /// MSPLIM of a side.
    pub fn msplim(&self, side: Side) -> u32
        ensures { result ≡ (stacks_of side self.now).msplim }
    {
        self.stacks(side).msplim
    }

    /// PSPLIM of a side.
    pub fn psplim(&self, side: Side) -> u32
        ensures { result ≡ (stacks_of side self.now).psplim }
    {
        self.stacks(side).psplim
    }

    /// PRIMASK of a side.
    pub fn primask(&self, side: Side) -> u32
        ensures { result ≡ number_of (masks_of side self.now.masks).primask }
    {
        u32::from(self.masks(side).primask)
    }

    /// BASEPRI of a side.
    pub fn basepri(&self, side: Side) -> u32
        ensures { result ≡ (masks_of side self.now.masks).basepri }
    {
        u32::from(self.masks(side).basepri)
    }

    /// FAULTMASK of a side.
    pub fn faultmask(&self, side: Side) -> u32
        ensures { result ≡ number_of (masks_of side self.now.masks).faultmask }
    {
        u32::from(self.masks(side).faultmask)
    }

    /// CONTROL of a side.
    pub fn control(&self, side: Side) -> u32
        ensures { result ≡ control_of (stacks_of side self.now) }
    {
        self.stacks(side).control()
    }

    /// VTOR of a side.
    pub fn vtor(&self, side: Side) -> u32
        ensures { result ≡ (status_of side self.now).vtor }
    {
        self.side_status(side).vtor
    }

    /// CCR of a side.
    pub fn ccr(&self, side: Side) -> u32
        ensures { result ≡ (status_of side self.now).ccr }
    {
        self.side_status(side).ccr
    }

    /// UFSR of a side.
    pub fn ufsr(&self, side: Side) -> u32
        ensures { result ≡ (status_of side self.now).ufsr }
    {
        self.side_status(side).ufsr
    }

    /// MMFSR of a side.
    pub fn mmfsr(&self, side: Side) -> u32
        ensures { result ≡ (status_of side self.now).mmfsr }
    {
        self.side_status(side).mmfsr
    }

    /// MMFAR of a side.
    pub fn mmfar(&self, side: Side) -> u32
        ensures { result ≡ (status_of side self.now).mmfar }
    {
        self.side_status(side).mmfar
    }

    /// Which SecureFaults there were.
    pub fn sfsr(&self) -> u32
        ensures { result ≡ self.now.status.security.sfsr }
    {
        self.status.security.sfsr
    }

    /// The address of a SecureFault, while SFARVALID is 1.
    pub fn sfar(&self) -> u32
        ensures { result ≡ self.now.status.security.sfar }
    {
        self.status.security.sfar
    }

    /// Which BusFaults there were.
    pub fn bfsr(&self) -> u32
        ensures { result ≡ self.now.status.bus.bfsr }
    {
        self.status.bus.bfsr
    }

    /// The address of a BusFault, while BFARVALID is 1.
    pub fn bfar(&self) -> u32
        ensures { result ≡ self.now.status.bus.bfar }
    {
        self.status.bus.bfar
    }

    /// Why there were HardFaults.
    pub fn hfsr(&self) -> u32
        ensures { result ≡ self.now.status.bus.hfsr }
    {
        self.status.bus.hfsr
    }
}

//! The core after a reset.

ghost use Rattle.std.specs.Prelude.{◌≡◌, false};
ghost use Rattle.tz_regs.specs.Reset.{reset_stacks, no_masks, no_channel, reset_status, reset_core};

use crate::parts::{
    Apsr, BusStatus, Core, Masks, Registers, Running, SecurityStatus, SideMasks, SideStatus,
    Stacks, Status,
};
use tz_model::{Channel, Side, Sleep};

impl Stacks {
    fn reset(msp: u32) -> Stacks
        ensures { result ≡ reset_stacks msp }
    {
        Stacks {
            msp: msp / 4 * 4,
            psp: 0,
            msplim: 0,
            psplim: 0,
            npriv: false,
            spsel: false,
        }
    }
}

impl SideMasks {
    fn none() -> SideMasks
        ensures { result ≡ no_masks }
    {
        SideMasks {
            primask: false,
            basepri: 0,
            faultmask: false,
        }
    }
}

/// A channel that doesn't go, whose registers are zero.
fn no_channel() -> Channel
    ensures { result ≡ no_channel }
{
    Channel {
        src: 0,
        dst: 0,
        count: 0,
        ctrl: 0,
    }
}

impl SideStatus {
    fn reset(vtor: u32) -> SideStatus
        ensures { result ≡ reset_status vtor }
    {
        SideStatus {
            vtor,
            ccr: 0,
            ufsr: 0,
            mmfsr: 0,
            mmfar: 0,
            channel: no_channel(),
        }
    }
}

impl Registers {
    fn reset(start: u32) -> Registers
        ensures { result ≡ (reset_core 0 0 0 start false).registers }
    {
        Registers {
            general: [0; 13],
            lr: 0xffff_ffff,
            pc: start / 2 * 2,
            apsr: Apsr {
                n: false,
                z: false,
                c: false,
                v: false,
                q: false,
            },
            it: 0,
            t: start % 2 == 1,
            ipsr: 0,
        }
    }
}

impl Core {
    /// The core after a reset, with these vector tables, stack pointer and start (DDI0553, `TakeReset`):
    /// Secure state, Thread mode; bit 0 of the start is T.
    pub fn reset(vtor_s: u32, vtor_ns: u32, sp: u32, start: u32, locked: bool) -> Core
        ensures { result ≡ reset_core vtor_s vtor_ns sp start locked }
    {
        Core {
            run: Running {
                side: Side::Secure,
                locked,
                sleep: Sleep::Awake,
            },
            registers: Registers::reset(start),
            stacks_s: Stacks::reset(sp),
            stacks_ns: Stacks::reset(0),
            masks: Masks {
                s: SideMasks::none(),
                ns: SideMasks::none(),
            },
            event: false,
            status: Status {
                s: SideStatus::reset(vtor_s),
                ns: SideStatus::reset(vtor_ns),
                security: SecurityStatus { sfsr: 0, sfar: 0 },
                bus: BusStatus {
                    bfsr: 0,
                    bfar: 0,
                    hfsr: 0,
                },
            },
        }
    }

    /// The core after a reset with vector tables, MSP, PC and T that are zero.
    pub fn new() -> Core
        ensures { result ≡ reset_core 0 0 0 0 false }
    {
        Core::reset(0, 0, 0, 0, false)
    }
}

//! The manual's names of exceptions.

ghost use Rattle.std.specs.Prelude.{◌≡◌, ◌≤◌, length};
ghost use Rattle.tz_tell.specs.ExceptionNames.{system_name};

use tz_state::exception::{
    BUS_FAULT, HARD_FAULT, MEM_MANAGE, NMI, PEND_SV, SECURE_FAULT, SV_CALL, SYS_TICK, USAGE_FAULT,
};

/// The manual's name of a number of the system, at most 11 bytes; `reserved` where no exception has the number.
#[tactic(auto, unfolding(crate::specs::ExceptionNames::system_name))]
pub fn system_name(number: u16) -> &'static str
    ensures name { result.now ≡ system_name number }
    ensures short { length result.now ≤ 11 }
{
    match number {
        NMI => "NMI",
        HARD_FAULT => "HardFault",
        MEM_MANAGE => "MemManage",
        BUS_FAULT => "BusFault",
        USAGE_FAULT => "UsageFault",
        SECURE_FAULT => "SecureFault",
        SV_CALL => "SVCall",
        PEND_SV => "PendSV",
        SYS_TICK => "SysTick",
        _ => "reserved",
    }
}

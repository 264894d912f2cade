//! SYST_CSR, SYST_RVR, SYST_CVR and SYST_CALIB of a timer (DDI0553, chapter D1.2).

ghost use Rattle.std.specs.Prelude.{◌≡◌};
ghost use Rattle.tz_state.specs.TimerRegisters.{unflagged, timer_value, timer_read, timer_written};

use tz_state::systick_bits::SYST_CSR_COUNTFLAG;
use tz_state::{Timer, TimerRegister};

/// What a register shows.
pub(crate) fn timer_value(timer: Timer, register: TimerRegister) -> u32
    ensures { result ≡ timer_value timer register }
{
    match register {
        TimerRegister::Csr => timer.csr,
        TimerRegister::Rvr => timer.rvr,
        TimerRegister::Cvr => timer.cvr,
        TimerRegister::Calib => 0,
    }
}

/// SYST_CSR with COUNTFLAG 0.
fn unflagged(csr: u32) -> u32
    ensures { result ≡ unflagged csr }
{
    csr % SYST_CSR_COUNTFLAG
}

/// The timer after a read: that of SYST_CSR clears COUNTFLAG.
pub(crate) fn timer_read(timer: Timer, register: TimerRegister) -> Timer
    ensures { result ≡ timer_read timer register }
{
    match register {
        TimerRegister::Csr => Timer {
            csr: unflagged(timer.csr),
            ..timer
        },
        TimerRegister::Rvr | TimerRegister::Cvr | TimerRegister::Calib => timer,
    }
}

/// The timer after a write: SYST_CSR keeps COUNTFLAG, and SYST_CVR becomes 0 and clears it.
pub(crate) fn timer_written(timer: Timer, register: TimerRegister, value: u32) -> Timer
    ensures { result ≡ timer_written timer register value }
{
    match register {
        TimerRegister::Csr => Timer {
            csr: value % 8 | timer.csr & SYST_CSR_COUNTFLAG,
            ..timer
        },
        TimerRegister::Rvr => Timer {
            rvr: value % 0x100_0000,
            ..timer
        },
        TimerRegister::Cvr => Timer {
            csr: unflagged(timer.csr),
            cvr: 0,
            ..timer
        },
        TimerRegister::Calib => timer,
    }
}

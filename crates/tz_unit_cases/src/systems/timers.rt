//! The timers and the switches of both sides.

use crate::words::{side_at, tell_count, tell_flag, tell_number};
use tz_model::Side;
use tz_nvic::{Exceptions, Timer};
use tz_testing::Case;

/// A step of the timers or of the switches.
pub enum TimerStep {
    Pris,
    Bfhfnmins,
    Group,
    Set,
    Tick,
    Show,
    Switches,
}

/// Sets PRIGROUP of a side: `group SIDE NUMBER`.
fn group(exceptions: &mut Exceptions, case: &mut Case<'_>) {
    let side = side_at(case, 1);
    let n = case.byte(2);
    if n > 7 {
        return case.refuse();
    }
    exceptions.set_grouping(side, n);
}

/// Sets a timer to the bits that it has, or puts one there as it is: `timer set SIDE CSR RVR CVR`, `timer put ..`.
fn set(exceptions: &mut Exceptions, case: &mut Case<'_>) {
    let side = side_at(case, 2);
    let timer = Timer {
        csr: case.number(3),
        rvr: case.number(4),
        cvr: case.number(5),
    };
    match case.word(1) {
        "set" => exceptions.set_timer(side, timer),
        "put" => exceptions.put_timer(side, timer),
        _ => case.refuse(),
    }
}

/// Does a step of the timers or of the switches: `pris FLAG` and `bfhfnmins FLAG` set a switch; `tick TIMES` counts
/// both timers; `timers SIDE` shows CSR, RVR and CVR of the timer of a side; `switches` shows PRIS, BFHFNMINS, and
/// PRIGROUP of the Secure and of the Non-secure side; or another.
pub fn step(exceptions: &mut Exceptions, step: &TimerStep, case: &mut Case<'_>) {
    match step {
        TimerStep::Pris => exceptions.set_pris(case.flag(1)),
        TimerStep::Bfhfnmins => exceptions.set_fault_side(case.flag(1)),
        TimerStep::Group => group(exceptions, case),
        TimerStep::Set => set(exceptions, case),
        TimerStep::Tick => {
            for _ in 0..case.byte(1) {
                exceptions.tick();
            }
        }
        TimerStep::Show => {
            let timer = exceptions.timer(side_at(case, 1));
            tell_number(case, timer.csr);
            tell_number(case, timer.rvr);
            tell_number(case, timer.cvr)
        }
        TimerStep::Switches => {
            tell_flag(case, exceptions.pris());
            tell_flag(case, exceptions.fault_side());
            tell_count(case, i32::from(exceptions.grouping(Side::Secure)));
            tell_count(case, i32::from(exceptions.grouping(Side::NonSecure)))
        }
    }
}

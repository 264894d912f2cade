//! Entry from running code (DDI0553, `ExceptionEntry`).

ghost use Rattle.std.specs.Prelude.{◌≡◌, ◌≤◌, ◌+◌};
ghost use Rattle.tz_frames.specs.Enter.{interrupted, enters};
ghost use Rattle.tz_excret.specs.Room.{need};

use crate::choices::{CHOICES, fail_frame, lock, make_choices};
use crate::raise::raise_frame_fault;
use crate::sides::is_secure;
use crate::work::Work;
use tz_frames::{Entered, Entering, Frames};
use tz_model::Profile;
use tz_nvic::Exceptions;
use tz_regs::Core;
use tz_stack::push_basic;

/// An entry that interrupts the running code.
fn interrupted(core: &Core) -> Entering
    ensures { result ≡ interrupted core.now }
{
    Entering {
        secure: is_secure(core.run.side),
        thread: !core.handler(),
        dcrs: true,
        skip: false,
        needed_additional: false,
        frame: None,
        vector: None,
        last: None,
        touched: false,
    }
}

/// Interrupts the running code, which goes on at `back` later, and takes the exception that comes first (DDI0553,
/// `ExceptionEntry`, `PushStack`, `ExceptionTaken`): the basic frame goes to its stack, the additional one where
/// Secure code is interrupted by a Non-secure exception, and the core handles the exception from its vector. A frame
/// or a vector that fails pends its fault first, so that another exception may be taken than the one that came
/// first before. It stores at most 18 words.
///
/// `Taken` tells the exception. Either tells the entry: the first frame that has faulted, vectors that couldn't be
/// read, and whether one of a Secure exception was. `Lockup` where a fault of the
/// entry can't be taken, even as HardFault, where the vector of NMI or HardFault fails, or where no exception pends:
/// then the core is locked.
#[tactic(auto, unfolding(tz_frames::specs::Enter::enters))]
pub fn enter<P: Frames>(
    core: &mut Core,
    exceptions: &mut Exceptions,
    port: &mut P,
    back: u32,
    profile: Profile,
) -> Entered
    requires { 18 ≤ P.room port.old }
    ensures does { enters P.answer profile core.old exceptions.old (P.held port.old) back ≡ record { core = core.new; exceptions = exceptions.new; held = P.held port.new; result = result } }
    ensures room { P.room port.old ≤ P.room port.new + 18 }
    ensures lent { P.lent port.new ≡ P.lent port.old }
{
    let side = core.run.side;
    let mut entry = interrupted(core);
    if let Err(fault) = push_basic(core, port, back) {
        fail_frame(&mut entry, false, fault);
        if raise_frame_fault(core, exceptions, true, side, fault) {
            return lock(core, &entry);
        }
    }
    let mut work = Work {
        core,
        exceptions,
        port,
        profile,
    };
    make_choices(&mut work, &mut entry, CHOICES)
}

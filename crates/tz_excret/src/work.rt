//! What an entry or a return works on.

use tz_model::Profile;
use tz_nvic::Exceptions;
use tz_regs::Core;

/// The core, the exceptions and the frames, lent together, and the profile of the board.
#[derive(Drop)]
pub(crate) struct Work<'a, P> {
    pub core: &'a mut Core,
    pub exceptions: &'a mut Exceptions,
    pub port: &'a mut P,
    pub profile: Profile,
}

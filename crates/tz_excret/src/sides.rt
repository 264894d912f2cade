//! Sides, by the bits that tell them.

ghost use Rattle.std.specs.Prelude.{◌≡◌};
ghost use Rattle.tz_regs.specs.Banks.{stacks_of, with_stacks};
ghost use Rattle.tz_frames.specs.Enter.{is_secure};
ghost use Rattle.tz_frames.specs.Leave.{side_of_bit};

use tz_model::Side;
use tz_regs::Core;

/// Whether a side is the Secure one.
pub(crate) fn is_secure(side: Side) -> bool
    ensures { result ≡ is_secure side }
{
    match side {
        Side::Secure => true,
        Side::NonSecure => false,
    }
}

/// The side that a bit of an EXC_RETURN value tells: the Secure one where it is set.
pub fn side_of_bit(secure: bool) -> Side
    ensures { result ≡ side_of_bit secure }
{
    if secure {
        Side::Secure
    } else {
        Side::NonSecure
    }
}

/// Writes CONTROL.SPSEL of a side.
pub(crate) fn set_spsel(core: &mut Core, side: Side, on: bool)
    ensures { core.new ≡ with_stacks side core.old (record (stacks_of side core.old) { spsel = on }) }
{
    match side {
        Side::Secure => core.stacks_s.spsel = on,
        Side::NonSecure => core.stacks_ns.spsel = on,
    }
}

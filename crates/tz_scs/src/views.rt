//! What the view of a side shows: registers by their addresses, and what goes with BusFault and SecureFault.

ghost use Rattle.std.specs.Prelude.{◌≡◌};
ghost use Rattle.tz_state.specs.ControlRegisters.{sees_bus, sees_secure};
ghost use Rattle.tz_state.specs.Views.{found_by, alias_found, found_at};

use crate::table::register_at;
use tz_model::Side;
use tz_model::address_map::{SCS_FIRST, SCS_LAST, SCS_NS_FIRST, SCS_NS_LAST};
use tz_state::{Register, ViewedRegister};

/// Whether a view shows NMI, BusFault and what goes with them, while AIRCR.BFHFNMINS is as told.
pub(crate) fn sees_bus(side: Side, bfhfnmins: bool) -> bool
    ensures { result ≡ sees_bus side bfhfnmins }
{
    match side {
        Side::Secure => true,
        Side::NonSecure => bfhfnmins,
    }
}

/// Whether a view shows what is Secure alone.
pub(crate) fn sees_secure(side: Side) -> bool
    ensures { result ≡ sees_secure side }
{
    match side {
        Side::Secure => true,
        Side::NonSecure => false,
    }
}

fn found_by(view: Side, register: Option<Register>) -> Option<ViewedRegister>
    ensures { result ≡ found_by view register }
{
    match register {
        None => None,
        Some(register) => Some(ViewedRegister { view, register }),
    }
}

/// The alias gives Secure code the Non-secure view, and nothing to Non-secure code.
fn alias_found(side: Side, addr: u32) -> Option<ViewedRegister>
    ensures { result ≡ alias_found side addr }
{
    match side {
        Side::Secure => {
            if addr >= SCS_NS_FIRST && addr <= SCS_NS_LAST {
                found_by(Side::NonSecure, register_at((addr - SCS_NS_FIRST) / 4 * 4))
            } else {
                None
            }
        }
        Side::NonSecure => None,
    }
}

/// The register that code of a side finds at an address, and whose view it has of it: its own in the system
/// control space.
pub(crate) fn found_at(side: Side, addr: u32) -> Option<ViewedRegister>
    ensures { result ≡ found_at side addr }
{
    if addr >= SCS_FIRST && addr <= SCS_LAST {
        found_by(side, register_at((addr - SCS_FIRST) / 4 * 4))
    } else {
        alias_found(side, addr)
    }
}

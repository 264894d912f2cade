//! The bytes of an access, and blocks of 32 bytes.

ghost use Rattle.std.specs.Prelude.{◌≡◌, ◌/◌, ◌==◌};
ghost use Rattle.tz_access.specs.Checks.{last_of};

use tz_model::Size;

/// The address of the last byte of an access, modulo 2^32.
pub fn last_of(size: Size, addr: u32) -> u32
    ensures { result ≡ last_of size addr }
{
    match size {
        Size::Byte => addr,
        Size::Half => addr.wrapping_add(1),
        Size::Word => addr.wrapping_add(3),
    }
}

/// Whether two addresses are in one block of 32 bytes.
pub fn is_one_block(addr: u32, other: u32) -> bool
    ensures { result ≡ (addr / 32 == other / 32) }
{
    addr / 32 == other / 32
}

//! Fields of codes, as the limits of rows name them.

ghost use Rattle.std.specs.Prelude.{◌≡◌, ◌+◌, ◌&&◌, ◌≤◌};
ghost use Rattle.tz_table.specs.Fields.{bits};
ghost use Rattle.tz_table.specs.Terms.{imm12_of, imm5_of, high_register as high_register_of};

/// The bits of a halfword from `low` on, at most eight of them.
pub fn field(halfword: u16, low: u32, width: u32) -> u8
    requires { (1 ≤ width) × (width ≤ 8) × (low + width ≤ 16) }
    ensures { result ≡ bits halfword low width }
{
    long_field(halfword, low, width) as u8
}

/// The bits of a halfword from `low` on, at most twelve of them.
#[tactic(auto, using(crate::proofs::Numbers::one_left))]
pub fn long_field(halfword: u16, low: u32, width: u32) -> u16
    requires { (1 ≤ width) × (width ≤ 12) × (low + width ≤ 16) }
    ensures { result ≡ bits halfword low width }
{
    (halfword >> low) % (1 << width)
}

/// The register of a narrow code that has its highest bit apart.
pub fn high_register(first: u16) -> u8
    ensures { result ≡ high_register_of first }
{
    field(first, 7, 1) * 8 + field(first, 0, 3)
}

/// The twelve bits of a constant.
pub fn imm12(first: u16, second: u16) -> u16
    ensures { result ≡ imm12_of first second }
{
    u16::from(field(first, 10, 1)) * 2048
        + u16::from(field(second, 12, 3)) * 256
        + u16::from(field(second, 0, 8))
}

/// The five bits of an amount.
pub fn imm5(second: u16) -> u8
    ensures { result ≡ imm5_of second }
{
    field(second, 12, 3) * 4 + field(second, 6, 2)
}

/// Both of two tests.
pub fn both(a: bool, b: bool) -> bool
    ensures { result ≡ (a && b) }
{
    a && b
}

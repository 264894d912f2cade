//! Products and quotients.

ghost use Rattle.std.specs.Prelude.{◌≡◌, ◌+◌, ◌*◌, ◌^◌, ◌<◌, ◌*ℤ◌, true};
ghost use Rattle.tz_sem.specs.Operations.{signed_value, low_bits, multiplied, long_product, multiplied_long, quotient, divided};

use tz_model::{LongOp, MultiplyOp};

/// The low word of a product, with or without the addend `a`.
pub(crate) fn multiply(op: MultiplyOp, x: u32, y: u32, a: u32) -> u32
    ensures { result ≡ multiplied op x y a }
{
    let product = x.wrapping_mul(y);
    match op {
        MultiplyOp::Mul => product,
        MultiplyOp::Mla => a.wrapping_add(product),
        MultiplyOp::Mls => a.wrapping_sub(product),
    }
}

/// `SInt(x) * SInt(y)`, for which 64 bits are enough.
fn signed_product(x: u32, y: u32) -> i64
    ensures { result ≡ signed_value x *ℤ signed_value y }
{
    i64::from(x.cast_signed()) * i64::from(y.cast_signed())
}

/// `hi:lo`.
fn joined(lo: u32, hi: u32) -> u64
    ensures { result ≡ hi * 2 ^ 32 + lo }
{
    u64::from(hi) * 0x1_0000_0000 + u64::from(lo)
}

/// The low 64 bits of a product, with or without the addend `hi:lo`.
fn product_bits(op: LongOp, x: u32, y: u32, lo: u32, hi: u32) -> u64
    ensures { result ≡ low_bits (long_product op x y lo hi) 64 }
{
    match op {
        LongOp::Smull => signed_product(x, y).cast_unsigned(),
        LongOp::Umull => u64::from(x) * u64::from(y),
        LongOp::Smlal => signed_product(x, y)
            .wrapping_add(joined(lo, hi).cast_signed())
            .cast_unsigned(),
        LongOp::Umlal => (u64::from(x) * u64::from(y)).wrapping_add(joined(lo, hi)),
    }
}

/// The low and the high word of a product, with or without the addend `hi:lo`.
pub(crate) fn multiply_long(op: LongOp, x: u32, y: u32, lo: u32, hi: u32) -> (u32, u32)
    ensures { result ≡ multiplied_long op x y lo hi }
{
    let product = product_bits(op, x, y, lo, hi);
    ((product & 0xffff_ffff) as u32, (product >> 32) as u32)
}

/// The signed quotient rounded towards zero, as a word: the least number by -1 is itself.
fn signed_quotient(x: u32, y: u32) -> u32
    requires { 0 < y }
    ensures { result ≡ quotient true x y }
{
    x.cast_signed()
        .wrapping_div(y.cast_signed())
        .cast_unsigned()
}

/// The quotient rounded towards zero, or 0 where `y` is 0.
pub(crate) fn divide(signed: bool, x: u32, y: u32) -> u32
    ensures { result ≡ divided signed x y }
{
    if y == 0 {
        0
    } else if signed {
        signed_quotient(x, y)
    } else {
        x / y
    }
}

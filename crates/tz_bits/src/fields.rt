//! Fields of a word, and their continuation by a sign.

ghost use Rattle.std.specs.Prelude.{◌≡◌, ◌+◌, ◌≤◌};
ghost use Rattle.tz_bits.specs.Words.{sign_extended};
ghost use Rattle.tz_table.specs.Fields.{bits};

/// The bits of `value` from `low` on, `width` of them: `value<low + width - 1 : low>`.
#[tactic(auto, using(crate::proofs::Masks::low_mask))]
pub fn bit_field(value: u32, low: u32, width: u32) -> u32
    requires { low + width ≤ 32 }
    ensures { result ≡ bits value low width }
{
    if width == 0 {
        0
    } else {
        (value >> low) & (u32::MAX >> (32 - width))
    }
}

/// `SignExtend(value<bits - 1 : 0>, 32)`: the low `bits` bits, 1 to 32, continued by the highest of
/// them.
#[tactic(auto, using(crate::proofs::Masks::extensions))]
pub fn sign_extend(value: u32, bits: u32) -> u32
    requires { (1 ≤ bits) × (bits ≤ 32) }
    ensures { result ≡ sign_extended value bits }
{
    let low = bit_field(value, 0, bits);
    if low < 1 << (bits - 1) {
        low
    } else {
        low + (u32::MAX - (u32::MAX >> (32 - bits)))
    }
}

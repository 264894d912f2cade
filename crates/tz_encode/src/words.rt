//! The words in which limits are said: tests of registers, lists and constants by number.
//!
//! `tz_table` has tests of these names for the fields of codes, which are bytes and halfwords. A value of an
//! instruction may be any number, and most numbers fit no field: so the tests stand here again for words.
//! What they mean stands once, in the definitions that both are proved to be.
//!
//! The parts of a test are joined by `&` and `|`: they are comparisons, so a branch around one saves nothing.

ghost use Rattle.std.specs.Prelude.{◌≡◌};
ghost use Rattle.tz_encode.specs.Limits.{is_bare as is_bare_of};
ghost use Rattle.tz_table.specs.Limits.{plain as plain_of, can_add_high as can_add_high_of, can_compare_high as can_compare_high_of, can_exchange as can_exchange_of, is_single as is_single_of, is_listed as is_listed_of, can_store_many as can_store_many_of, copies_zero as copies_zero_of, is_special as is_special_of, can_load as can_load_of, can_store as can_store_of};

/// Neither SP nor PC.
pub fn plain(r: u32) -> bool
    ensures { result ≡ plain_of r }
{
    (r != 13) & (r != 15)
}

/// Not PC plus PC.
pub fn can_add_high(rd: u32, rm: u32) -> bool
    ensures { result ≡ can_add_high_of rd rm }
{
    !((rd == 15) & (rm == 15))
}

/// A comparison that names a register from R8 on, and no PC.
pub fn can_compare_high(rn: u32, rm: u32) -> bool
    ensures { result ≡ can_compare_high_of rn rm }
{
    !((rn < 8) & (rm < 8)) & (rn != 15) & (rm != 15)
}

/// A branch to a register: no PC, and with `ns` no SP.
pub fn can_exchange(rm: u32, ns: u32) -> bool
    ensures { result ≡ can_exchange_of rm ns }
{
    (rm != 15) & !((ns == 1) & (rm == 13))
}

/// One bit of four.
pub fn is_single(mask: u32) -> bool
    ensures { result ≡ is_single_of mask }
{
    (mask == 1) | (mask == 2) | (mask == 4) | (mask == 8)
}

/// Bit `k` of a list of registers.
#[tactic(auto, using(crate::proofs::Listed::past_list))]
pub fn is_listed(list: u32, k: u32) -> bool
    ensures { result ≡ is_listed_of list k }
{
    if k < 32 { (list >> k) % 2 == 1 } else { false }
}

/// A narrow store of several registers: some are listed, and none before a listed base.
#[tactic(auto, using(crate::proofs::Listed::past_list))]
pub fn can_store_many(rn: u32, list: u32) -> bool
    ensures { result ≡ can_store_many_of rn list }
{
    if rn < 32 {
        (list != 0) & (!is_listed(list, rn) | (list % (1 << rn) == 0))
    } else {
        list != 0
    }
}

/// Twelve bits that are no constant.
pub fn copies_zero(imm12: u32) -> bool
    ensures { result ≡ copies_zero_of imm12 }
{
    let kind = imm12 / 256;
    ((kind == 1) | (kind == 2) | (kind == 3)) & (imm12 % 256 == 0)
}

/// A move that sets no flags and doesn't shift otherwise than left.
pub fn is_bare(flags: u32, shift: u32) -> bool
    ensures { result ≡ is_bare_of flags shift }
{
    (flags == 0) & (shift == 0)
}

/// The numbers of special registers (SYSm).
pub fn is_special(sysm: u32) -> bool
    ensures { result ≡ is_special_of sysm }
{
    (sysm < 4)
        | (5 <= sysm) & (sysm <= 11)
        | (16 <= sysm) & (sysm <= 20)
        | (0x88 <= sysm) & (sysm <= 0x8b)
        | (sysm == 0x90)
        | (sysm == 0x91)
        | (sysm == 0x93)
        | (sysm == 0x94)
        | (sysm == 0x98)
}

/// A load; sizes are 0 byte, 1 half, 2 word.
pub fn can_load(size: u32, rt: u32) -> bool
    ensures { result ≡ can_load_of size rt }
{
    (size == 2) | plain(rt)
}

/// Whether a store of this size has this register: never PC, and SP for a word alone.
pub fn can_store(size: u32, rt: u32) -> bool
    ensures { result ≡ can_store_of size rt }
{
    (rt != 15) & ((size == 2) | (rt != 13))
}

//! What limits allow.
//!
//! Each limit is a test of the value, without its sign, and of the values at the places that the limit
//! names. Its comparisons are joined by `&` and `|`, as in `words`; `&&` and `||` stand where what is behind
//! them must not be worked out, or isn't cheap.

ghost use Rattle.std.specs.Prelude.{◌≡◌, ◌+◌, ◌&&◌, ◌||◌, ◌==◌, not, nat_le, count_ones, if◌then◌else◌};
ghost use Rattle.tz_encode.specs.Limits.{allows as allows_of, limit_holds as limit_holds_of, is_bare as is_bare_of, number_at as number_at_of};
ghost use Rattle.tz_table.specs.Limits.{not_zero, not_pc, is_listed as is_listed_of, plain as plain_of};

use crate::limit::Limit;
use crate::values::number_at as at;
use crate::words;

/// A narrow load of several registers: the base is listed exactly where it isn't written back.
fn is_load_list(back: u32, base: u32, list: u32) -> bool
    ensures { result ≡ (not_zero list && (if back == 1 then not (is_listed_of list base) else is_listed_of list base)) }
{
    let listed = words::is_listed(list, base);
    list != 0 && (if back == 1 { !listed } else { listed })
}

/// A wide load or store of several registers: at least two, not both LR and PC, and no base that is
/// written back.
fn is_many(back: u32, base: u32, list: u32) -> bool
    ensures { result ≡ (nat_le 2 (count_ones list) && not (is_listed_of list 14 && is_listed_of list 15) && not (back == 1 && is_listed_of list base)) }
{
    let both = words::is_listed(list, 14) & words::is_listed(list, 15);
    let again = (back == 1) & words::is_listed(list, base);
    (list.count_ones() >= 2) & !both & !again
}

/// The base of two registers, whose places follow that of `back`: no PC, and neither of them where it is
/// written back.
fn is_pair_base(base: u32, earlier: &[i32], back: u8, first: u8, second: u8) -> bool
    ensures { result ≡ (not_pc base && not (nat_le 2 (number_at_of earlier.now back) && (base == number_at_of earlier.now first || base == number_at_of earlier.now second))) }
{
    let is_listed = (base == at(earlier, first)) | (base == at(earlier, second));
    (base != 15) & !((at(earlier, back) >= 2) & is_listed)
}

/// The register at a place is neither SP nor PC.
fn is_plain(earlier: &[i32], place: u8) -> bool
    ensures { result ≡ plain_of (number_at_of earlier.now place) }
{
    words::plain(at(earlier, place))
}

/// A move whose flags and shift stand at these places sets no flags and doesn't shift otherwise than left.
fn is_bare(earlier: &[i32], flags: u8, shift: u8) -> bool
    ensures { result ≡ is_bare_of (number_at_of earlier.now flags) (number_at_of earlier.now shift) }
{
    words::is_bare(at(earlier, flags), at(earlier, shift))
}

/// A field of bits that ends below bit 32.
fn ends_in_word(low: u32, width: u32) -> bool
    ensures { result ≡ nat_le (low + width) 32 }
{
    low <= 32 && width <= 32 - low
}

/// `n` may stand in a slot with the limit beside the values of the places before it.
fn allows(limit: Limit, earlier: &[i32], n: u32) -> bool
    ensures { result ≡ allows_of limit earlier.now n }
{
    match limit {
        Limit::Any => true,
        Limit::Below(bound) => n < bound,
        Limit::NonZero => n != 0,
        Limit::Plain => words::plain(n),
        Limit::NotPc => n != 15,
        Limit::NotSp => n != 13,
        Limit::NotBothPc(rd) => words::can_add_high(at(earlier, rd), n),
        Limit::HighOperand(rn) => words::can_compare_high(at(earlier, rn), n),
        Limit::Target(ns) => words::can_exchange(n, at(earlier, ns)),
        Limit::Either(other) => (n == 1) | (at(earlier, other) == 1),
        Limit::ItMask(cond) => (n != 0) & ((at(earlier, cond) != 14) | words::is_single(n)),
        Limit::StoreList(rn) => words::can_store_many(at(earlier, rn), n),
        Limit::LoadList(back, rn) => is_load_list(at(earlier, back), at(earlier, rn), n),
        Limit::ManyList(back, rn) => is_many(at(earlier, back), at(earlier, rn), n),
        Limit::PlainOther(other) => words::plain(n) & (n != at(earlier, other)),
        Limit::BaseOther(other) => (n != 15) & (n != at(earlier, other)),
        Limit::PairBase(back, rt, rt2) => is_pair_base(n, earlier, back, rt, rt2),
        Limit::SumResult(shift) => words::plain(n) | (n == 13) & (at(earlier, shift) == 0),
        Limit::SumOperand(rd) => (n != 15) & (is_plain(earlier, rd) | (n == 13)),
        Limit::SumAmount(rd) => is_plain(earlier, rd) | (n <= 3),
        Limit::MoveResult(flags, shift) => words::plain(n)
            | (n == 13) & is_bare(earlier, flags, shift),
        Limit::MoveSource(flags, shift, rd) => words::plain(n)
            | (n == 13) & is_plain(earlier, rd) & is_bare(earlier, flags, shift),
        Limit::MoveAmount(rd, rm) => is_plain(earlier, rd) & is_plain(earlier, rm) | (n == 0),
        Limit::Constant => !words::copies_zero(n),
        Limit::Saturation(asr) => !((at(earlier, asr) == 1) & (n == 0)),
        Limit::WidthFrom(low) => ends_in_word(at(earlier, low), n),
        Limit::Special => words::is_special(n),
        Limit::LoadSign(size) => !((n == 1) & (at(earlier, size) == 2)),
        Limit::LoadResult(size) => words::can_load(at(earlier, size), n),
        Limit::StoreSource(size) => words::can_store(at(earlier, size), n),
    }
}

/// The limit holds of the value beside those of the places before it.
pub fn limit_holds(limit: Limit, earlier: &[i32], value: i32) -> bool
    ensures { result ≡ limit_holds_of limit earlier.now value }
{
    allows(limit, earlier, value.unsigned_abs())
}

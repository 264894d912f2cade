//! The limits of rows, each a test of the fields that it names. Registers are numbers, 13 is SP and 15
//! is PC.

ghost use Rattle.std.specs.Prelude.{◌≡◌, ◌<◌};
ghost use Rattle.tz_table.specs.Limits.{plain as plain_of, plain2 as plain2_of, plain3 as plain3_of, plain4 as plain4_of, plain_base as plain_base_of, plain2_same as plain2_same_of, can_add_high as can_add_high_of, can_compare_high as can_compare_high_of, can_exchange as can_exchange_of, is_single as is_single_of, can_begin as can_begin_of, is_listed as is_listed_of, can_store_many as can_store_many_of, can_move_many as can_move_many_of, can_store_pair as can_store_pair_of, can_load_pair as can_load_pair_of, can_load_pair_literal as can_load_pair_literal_of, can_store_exclusive as can_store_exclusive_of, can_branch_table as can_branch_table_of, copies_zero as copies_zero_of, can_add as can_add_of, can_add_register as can_add_register_of, can_move as can_move_of, can_set as can_set_of, can_set_from as can_set_from_of, can_add_constant as can_add_constant_of, can_compare as can_compare_of, can_saturate as can_saturate_of, can_extract as can_extract_of, can_insert as can_insert_of, can_clear as can_clear_of, can_multiply_long as can_multiply_long_of, is_special as is_special_of, can_name as can_name_of, can_load as can_load_of, can_store as can_store_of, can_load_back as can_load_back_of, can_store_back as can_store_back_of, can_load_index as can_load_index_of, can_store_index as can_store_index_of};

/// Neither SP nor PC.
pub fn plain(r: u8) -> bool
    ensures { result ≡ plain_of r }
{
    r != 13 && r != 15
}

/// Both plain.
pub fn plain2(a: u8, b: u8) -> bool
    ensures { result ≡ plain2_of a b }
{
    plain(a) && plain(b)
}

/// All three plain.
pub fn plain3(a: u8, b: u8, c: u8) -> bool
    ensures { result ≡ plain3_of a b c }
{
    plain(a) && plain(b) && plain(c)
}

/// All four plain.
pub fn plain4(a: u8, b: u8, c: u8, d: u8) -> bool
    ensures { result ≡ plain4_of a b c d }
{
    plain(a) && plain(b) && plain(c) && plain(d)
}

/// A plain register, and a base that isn't PC.
pub fn plain_base(r: u8, rn: u8) -> bool
    ensures { result ≡ plain_base_of r rn }
{
    plain(r) && rn != 15
}

/// Plain registers, the second of them written twice.
pub fn plain2_same(a: u8, b: u8, again: u8) -> bool
    ensures { result ≡ plain2_same_of a b again }
{
    plain2(a, b) && b == again
}

/// Not PC plus PC.
pub fn can_add_high(rd: u8, rm: u8) -> bool
    ensures { result ≡ can_add_high_of rd rm }
{
    !(rd == 15 && rm == 15)
}

/// A comparison that names a register from R8 on, and no PC.
pub fn can_compare_high(rn: u8, rm: u8) -> bool
    ensures { result ≡ can_compare_high_of rn rm }
{
    !(rn < 8 && rm < 8) && rn != 15 && rm != 15
}

/// A branch to a register: no PC, and with `ns` no SP.
pub fn can_exchange(rm: u8, ns: u8) -> bool
    ensures { result ≡ can_exchange_of rm ns }
{
    rm != 15 && !(ns == 1 && rm == 13)
}

/// One bit of four.
fn is_single(mask: u8) -> bool
    ensures { result ≡ is_single_of mask }
{
    mask == 1 || mask == 2 || mask == 4 || mask == 8
}

/// An IT block: 15 is no condition, and 14 takes no else.
pub fn can_begin(cond: u8, mask: u8) -> bool
    ensures { result ≡ can_begin_of cond mask }
{
    cond != 15 && (cond != 14 || is_single(mask))
}

/// Bit `k` of a list of registers.
pub fn is_listed(list: u16, k: u8) -> bool
    requires { k < 16 }
    ensures { result ≡ is_listed_of list k }
{
    (list >> k) % 2 == 1
}

/// A narrow store of several registers.
pub fn can_store_many(rn: u8, list: u16) -> bool
    requires { rn < 16 }
    ensures { result ≡ can_store_many_of rn list }
{
    list != 0 && (!is_listed(list, rn) || list % (1 << rn) == 0)
}

/// A wide load or store of several registers.
pub fn can_move_many(back: u8, rn: u8, list: u16) -> bool
    requires { rn < 16 }
    ensures { result ≡ can_move_many_of back rn list }
{
    let both = is_listed(list, 14) && is_listed(list, 15);
    let base = back == 1 && is_listed(list, rn);
    rn != 15 && list.count_ones() >= 2 && !both && !base
}

/// A store of two registers.
pub fn can_store_pair(back: u8, rn: u8, rt: u8, rt2: u8) -> bool
    ensures { result ≡ can_store_pair_of back rn rt rt2 }
{
    plain2(rt, rt2) && !(back == 1 && (rn == rt || rn == rt2))
}

/// A load of two registers.
pub fn can_load_pair(back: u8, rn: u8, rt: u8, rt2: u8) -> bool
    ensures { result ≡ can_load_pair_of back rn rt rt2 }
{
    can_store_pair(back, rn, rt, rt2) && rt != rt2
}

/// A load of two registers relative to PC.
pub fn can_load_pair_literal(rt: u8, rt2: u8) -> bool
    ensures { result ≡ can_load_pair_literal_of rt rt2 }
{
    plain2(rt, rt2) && rt != rt2
}

/// Whether a store-exclusive has these registers: the one of its outcome is neither the base nor a stored one, and none is
/// SP or PC but the base, which may be SP.
pub fn can_store_exclusive(rd: u8, rt: u8, rn: u8) -> bool
    ensures { result ≡ can_store_exclusive_of rd rt rn }
{
    plain2(rd, rt) && rn != 15 && rd != rn && rd != rt
}

/// Whether a table branch has these registers: the base isn't SP, and the index neither SP nor PC.
pub fn can_branch_table(rn: u8, rm: u8) -> bool
    ensures { result ≡ can_branch_table_of rn rm }
{
    rn != 13 && plain(rm)
}

/// Twelve bits that are no constant.
fn copies_zero(imm12: u16) -> bool
    ensures { result ≡ copies_zero_of imm12 }
{
    let kind = imm12 / 256;
    (kind == 1 || kind == 2 || kind == 3) && imm12 % 256 == 0
}

/// A sum with a constant.
pub fn can_add(rd: u8, rn: u8) -> bool
    ensures { result ≡ can_add_of rd rn }
{
    rn != 15 && (plain(rd) || rd == 13 && rn == 13)
}

/// A sum with a shifted register.
pub fn can_add_register(rd: u8, rn: u8, rm: u8, kind: u8, amount: u8) -> bool
    ensures { result ≡ can_add_register_of rd rn rm kind amount }
{
    let to_sp = rd == 13 && rn == 13 && kind == 0 && amount <= 3;
    rn != 15 && plain(rm) && (plain(rd) || to_sp)
}

/// A move of a register.
pub fn can_move(sets: u8, rd: u8, rm: u8, kind: u8, amount: u8) -> bool
    ensures { result ≡ can_move_of sets rd rm kind amount }
{
    let bare = sets == 0 && kind == 0 && amount == 0;
    let one_sp = rd != 15 && rm != 15 && !(rd == 13 && rm == 13);
    plain2(rd, rm) || bare && one_sp
}

/// A move or a test of one register with a constant.
pub fn can_set(r: u8, imm12: u16) -> bool
    ensures { result ≡ can_set_of r imm12 }
{
    plain(r) && !copies_zero(imm12)
}

/// An operation of a register and a constant.
pub fn can_set_from(rd: u8, rn: u8, imm12: u16) -> bool
    ensures { result ≡ can_set_from_of rd rn imm12 }
{
    plain2(rd, rn) && !copies_zero(imm12)
}

/// A sum with a constant of the modified kind.
pub fn can_add_constant(rd: u8, rn: u8, imm12: u16) -> bool
    ensures { result ≡ can_add_constant_of rd rn imm12 }
{
    can_add(rd, rn) && !copies_zero(imm12)
}

/// A comparison with a constant.
pub fn can_compare(rn: u8, imm12: u16) -> bool
    ensures { result ≡ can_compare_of rn imm12 }
{
    rn != 15 && !copies_zero(imm12)
}

/// A saturation.
pub fn can_saturate(rd: u8, rn: u8, asr: u8, amount: u8) -> bool
    ensures { result ≡ can_saturate_of rd rn asr amount }
{
    plain2(rd, rn) && !(asr == 1 && amount == 0)
}

/// The choice of a bit field.
pub fn can_extract(rd: u8, rn: u8, low: u8, less_one: u8) -> bool
    requires { (low < 32) × (less_one < 32) }
    ensures { result ≡ can_extract_of rd rn low less_one }
{
    plain2(rd, rn) && low + less_one + 1 <= 32
}

/// The insertion of a bit field.
pub fn can_insert(rd: u8, rn: u8, low: u8, high: u8) -> bool
    ensures { result ≡ can_insert_of rd rn low high }
{
    plain2(rd, rn) && low <= high
}

/// The clearing of a bit field.
pub fn can_clear(rd: u8, low: u8, high: u8) -> bool
    ensures { result ≡ can_clear_of rd low high }
{
    plain(rd) && low <= high
}

/// A multiplication with two results.
pub fn can_multiply_long(lo: u8, hi: u8, rn: u8, rm: u8) -> bool
    ensures { result ≡ can_multiply_long_of lo hi rn rm }
{
    plain4(lo, hi, rn, rm) && lo != hi
}

/// The numbers of special registers (SYSm).
fn is_special(sysm: u8) -> bool
    ensures { result ≡ is_special_of sysm }
{
    sysm < 4
        || (5 <= sysm && sysm <= 11)
        || (16 <= sysm && sysm <= 20)
        || (0x88 <= sysm && sysm <= 0x8b)
        || sysm == 0x90
        || sysm == 0x91
        || sysm == 0x93
        || sysm == 0x94
        || sysm == 0x98
}

/// A move from or to a special register.
pub fn can_name(r: u8, sysm: u8) -> bool
    ensures { result ≡ can_name_of r sysm }
{
    plain(r) && is_special(sysm)
}

/// A load; sizes are 0 byte, 1 half, 2 word.
pub fn can_load(size: u8, rt: u8) -> bool
    ensures { result ≡ can_load_of size rt }
{
    size == 2 || plain(rt)
}

/// Whether a store of this size has this register: never PC, and SP for a word alone.
pub fn can_store(size: u8, rt: u8) -> bool
    ensures { result ≡ can_store_of size rt }
{
    rt != 15 && (size == 2 || rt != 13)
}

/// A load that writes its base back.
pub fn can_load_back(size: u8, rt: u8, rn: u8) -> bool
    ensures { result ≡ can_load_back_of size rt rn }
{
    can_load(size, rt) && rn != rt
}

/// A store that writes its base back.
pub fn can_store_back(size: u8, rt: u8, rn: u8) -> bool
    ensures { result ≡ can_store_back_of size rt rn }
{
    can_store(size, rt) && rn != rt
}

/// A load from a sum of registers.
pub fn can_load_index(size: u8, rt: u8, rm: u8) -> bool
    ensures { result ≡ can_load_index_of size rt rm }
{
    can_load(size, rt) && plain(rm)
}

/// A store to a sum of registers.
pub fn can_store_index(size: u8, rt: u8, rm: u8) -> bool
    ensures { result ≡ can_store_index_of size rt rm }
{
    can_store(size, rt) && plain(rm)
}

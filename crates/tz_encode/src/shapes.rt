//! The slots of each row of the instruction table.
//!
//! A line has the eight slots of its row: the four fields of the form, then the four numbers, as
//! `tz_bits` orders them. `_` is a field that is 0, and `(= 2)` one that is 2. `(First 3 4; Plain)`
//! stands for bits 6:3 of the first halfword, of which the limit comes behind `;`. A field of several
//! parts has `half low width shift` for each, the highest bits of its number first.

ghost use Rattle.std.specs.Prelude.{◌≡◌, slice_get};

use crate::coding::Coding;
use crate::limit::Limit;
use crate::slot::{CodeSlot, Half, Part, Parts};

/// Bits of a halfword and where they lie in the number.
macro_rules! part {
    ([$half:ident $low:literal $width:literal $shift:literal]) => {
        Part { half: Half::$half, low: $low, width: $width, shift: $shift }
    };
}

/// Up to five parts.
macro_rules! parts {
    () => {
        Parts::Zero
    };
    ($a:tt) => {
        Parts::One(part!($a))
    };
    ($a:tt $b:tt) => {
        Parts::Two(part!($a), part!($b))
    };
    ($a:tt $b:tt $c:tt) => {
        Parts::Three(part!($a), part!($b), part!($c))
    };
    ($a:tt $b:tt $c:tt $d:tt) => {
        Parts::Four(part!($a), part!($b), part!($c), part!($d))
    };
    ($a:tt $b:tt $c:tt $d:tt $e:tt) => {
        Parts::Five(part!($a), part!($b), part!($c), part!($d), part!($e))
    };
}

/// A slot with these parts.
macro_rules! slot {
    ($coding:expr, $limit:expr $(, $half:ident $low:literal $width:literal $shift:literal)*) => {
        CodeSlot { coding: $coding, limit: $limit, parts: parts!($([$half $low $width $shift])*) }
    };
}

/// A slot as a line of the table has it. `(zero ..)` are bits that no value tells, 0 in a written code;
/// `(same 5)` is the value at place 5; `(shift; ..)`, `(high; ..)`, `(imm5; ..)` and `(imm12 ..; ..)` are
/// the fields of several parts that many rows share.
macro_rules! field {
    (_) => {
        slot!(Coding::Is(0), Limit::Any)
    };
    ((= $value:literal)) => {
        slot!(Coding::Is($value), Limit::Any)
    };
    ((zero $half:ident $low:literal $width:literal)) => {
        slot!(Coding::Is(0), Limit::Any, $half $low $width 0)
    };
    ((same $place:literal)) => {
        slot!(Coding::Same($place), Limit::Any)
    };
    ((kind)) => {
        slot!(Coding::Kind, Limit::Any)
    };
    ((unlisted)) => {
        slot!(Coding::Unlisted, Limit::Any)
    };
    ((shift; $limit:ident $(($($place:literal),*))?)) => {
        slot!(Coding::Amount, Limit::$limit $(($($place),*))?, Second 4 2 5, Second 12 3 2, Second 6 2 0)
    };
    ((high; $limit:ident $(($($place:literal),*))?)) => {
        slot!(Coding::Natural, Limit::$limit $(($($place),*))?, First 7 1 3, First 0 3 0)
    };
    ((imm5; $limit:ident $(($($place:literal),*))?)) => {
        slot!(Coding::Natural, Limit::$limit $(($($place),*))?, Second 12 3 2, Second 6 2 0)
    };
    ((imm12 $coding:ident; $limit:ident)) => {
        slot!(Coding::$coding, Limit::$limit, First 10 1 11, Second 12 3 8, Second 0 8 0)
    };
    (($half:ident $low:literal $width:literal)) => {
        slot!(Coding::Natural, Limit::Any, $half $low $width 0)
    };
    (($half:ident $low:literal $width:literal; $limit:ident $(($($place:literal),*))?)) => {
        slot!(Coding::Natural, Limit::$limit $(($($place),*))?, $half $low $width 0)
    };
    (($coding:ident $(($value:literal))?; $limit:ident $(($($place:literal),*))?; $($parts:tt)*)) => {
        slot!(Coding::$coding $(($value))?, Limit::$limit $(($($place),*))?, $($parts)*)
    };
}

/// A line of the table.
macro_rules! shape {
    ($a:tt $b:tt $c:tt $d:tt; $e:tt $f:tt $g:tt $h:tt) => {
        [
            field!($a),
            field!($b),
            field!($c),
            field!($d),
            field!($e),
            field!($f),
            field!($g),
            field!($h),
        ]
    };
}

/// The slots of all rows, in the order of the table.
pub static SHAPES: [[CodeSlot; 8]; 189] = [
    // lsls rd, rm, #i; movs rd, rm where i is 0
    shape!((= 2) _ _ _; (First 0 3) _ (First 3 3) (First 6 5)),
    // lsrs rd, rm, #i; 0 is 32
    shape!((= 2) (= 1) _ _; (First 0 3) _ (First 3 3) (Right; Any; First 6 5 0)),
    // asrs rd, rm, #i; 0 is 32
    shape!((= 2) (= 2) _ _; (First 0 3) _ (First 3 3) (Right; Any; First 6 5 0)),
    // adds rd, rn, rm
    shape!((= 2) _ _ _; (First 0 3) (First 3 3) (First 6 3) _),
    // subs rd, rn, rm
    shape!((= 2) _ _ _; (First 0 3) (First 3 3) (First 6 3) _),
    // adds rd, rn, #i
    shape!((= 2) _ _ _; (First 0 3) (First 3 3) (First 6 3) _),
    // subs rd, rn, #i
    shape!((= 2) _ _ _; (First 0 3) (First 3 3) (First 6 3) _),
    // movs rd, #i
    shape!((= 2) _ _ _; (First 8 3) _ (First 0 8) _),
    // cmp rn, #i
    shape!((= 1) _ _ _; _ (First 8 3) (First 0 8) _),
    // adds rd, rd, #i
    shape!((= 2) _ _ _; (First 8 3) (same 5) (First 0 8) _),
    // subs rd, rd, #i
    shape!((= 2) _ _ _; (First 8 3) (same 5) (First 0 8) _),
    // ands rd, rd, rm
    shape!((= 2) _ _ _; (First 0 3) (same 5) (First 3 3) _),
    // eors rd, rd, rm
    shape!((= 2) _ _ _; (First 0 3) (same 5) (First 3 3) _),
    // lsls rd, rd, rm
    shape!(_ (= 2) _ _; (First 0 3) (same 5) (First 3 3) _),
    // lsrs rd, rd, rm
    shape!((= 1) (= 2) _ _; (First 0 3) (same 5) (First 3 3) _),
    // asrs rd, rd, rm
    shape!((= 2) (= 2) _ _; (First 0 3) (same 5) (First 3 3) _),
    // adcs rd, rd, rm
    shape!((= 2) _ _ _; (First 0 3) (same 5) (First 3 3) _),
    // sbcs rd, rd, rm
    shape!((= 2) _ _ _; (First 0 3) (same 5) (First 3 3) _),
    // rors rd, rd, rm
    shape!((= 3) (= 2) _ _; (First 0 3) (same 5) (First 3 3) _),
    // tst rn, rm
    shape!((= 1) _ _ _; _ (First 0 3) (First 3 3) _),
    // rsbs rd, rn, #0
    shape!((= 2) _ _ _; (First 0 3) (First 3 3) _ _),
    // cmp rn, rm
    shape!((= 1) _ _ _; _ (First 0 3) (First 3 3) _),
    // cmn rn, rm
    shape!((= 1) _ _ _; _ (First 0 3) (First 3 3) _),
    // orrs rd, rd, rm
    shape!((= 2) _ _ _; (First 0 3) (same 5) (First 3 3) _),
    // muls rd, rn, rd
    shape!((= 2) _ _ _; (First 0 3) (First 3 3) (same 5) _),
    // bics rd, rd, rm
    shape!((= 2) _ _ _; (First 0 3) (same 5) (First 3 3) _),
    // mvns rd, rm
    shape!((= 2) _ _ _; (First 0 3) _ (First 3 3) _),
    // add rd, rd, rm; not both PC
    shape!(_ _ _ _; (high; Any) (same 5) (First 3 4; NotBothPc(5)) _),
    // cmp rn, rm; not both below 8, no PC
    shape!((= 1) _ _ _; _ (high; NotPc) (First 3 4; HighOperand(6)) _),
    // mov rd, rm
    shape!(_ _ _ _; (high; Any) _ (First 3 4) _),
    // bx rm, bxns rm; no PC, with s no SP
    shape!((First 2 1) _ _ _; (First 3 4; Target(1)) _ _ _),
    // blx rm, blxns rm; no PC, with s no SP
    shape!((First 2 1) _ _ _; (First 3 4; Target(1)) _ _ _),
    // ldr rt, [pc, #4i]
    shape!((= 2) _ (= 4) _; (First 8 3) (Natural; Any; First 0 8 2) _ _),
    // str rt, [rn, rm]
    shape!((= 2) _ _ _; (First 0 3) (First 3 3) (First 6 3) _),
    // strh rt, [rn, rm]
    shape!((= 1) _ _ _; (First 0 3) (First 3 3) (First 6 3) _),
    // strb rt, [rn, rm]
    shape!(_ _ _ _; (First 0 3) (First 3 3) (First 6 3) _),
    // ldrsb rt, [rn, rm]
    shape!(_ (= 1) _ _; (First 0 3) (First 3 3) (First 6 3) _),
    // ldr rt, [rn, rm]
    shape!((= 2) _ _ _; (First 0 3) (First 3 3) (First 6 3) _),
    // ldrh rt, [rn, rm]
    shape!((= 1) _ _ _; (First 0 3) (First 3 3) (First 6 3) _),
    // ldrb rt, [rn, rm]
    shape!(_ _ _ _; (First 0 3) (First 3 3) (First 6 3) _),
    // ldrsh rt, [rn, rm]
    shape!((= 1) (= 1) _ _; (First 0 3) (First 3 3) (First 6 3) _),
    // str rt, [rn, #4i]
    shape!((= 2) (= 1) _ _; (First 0 3) (First 3 3) (Natural; Any; First 6 5 2) _),
    // ldr rt, [rn, #4i]
    shape!((= 2) _ (= 1) _; (First 0 3) (First 3 3) (Natural; Any; First 6 5 2) _),
    // strb rt, [rn, #i]
    shape!(_ (= 1) _ _; (First 0 3) (First 3 3) (First 6 5) _),
    // ldrb rt, [rn, #i]
    shape!(_ _ (= 1) _; (First 0 3) (First 3 3) (First 6 5) _),
    // strh rt, [rn, #2i]
    shape!((= 1) (= 1) _ _; (First 0 3) (First 3 3) (Natural; Any; First 6 5 1) _),
    // ldrh rt, [rn, #2i]
    shape!((= 1) _ (= 1) _; (First 0 3) (First 3 3) (Natural; Any; First 6 5 1) _),
    // str rt, [sp, #4i]
    shape!((= 2) (= 1) _ _; (First 8 3) (= 13) (Natural; Any; First 0 8 2) _),
    // ldr rt, [sp, #4i]
    shape!((= 2) _ (= 1) _; (First 8 3) (= 13) (Natural; Any; First 0 8 2) _),
    // adr rd, target
    shape!(_ _ _ _; (First 8 3) (Natural; Any; First 0 8 2) _ _),
    // add rd, sp, #4i
    shape!(_ _ _ _; (First 8 3) (= 13) (Natural; Any; First 0 8 2) _),
    // add sp, sp, #4i; sub
    shape!((First 7 1) _ _ _; (= 13) (= 13) (Natural; Any; First 0 7 2) _),
    // cbz rn, target; cbnz
    shape!((First 11 1) _ _ _; (First 0 3) (Natural; Any; First 9 1 6, First 3 5 1) _ _),
    // sxth rd, rm
    shape!(_ _ _ _; (First 0 3) (First 3 3) _ _),
    // sxtb rd, rm
    shape!(_ _ _ _; (First 0 3) (First 3 3) _ _),
    // uxth rd, rm
    shape!(_ _ _ _; (First 0 3) (First 3 3) _ _),
    // uxtb rd, rm
    shape!(_ _ _ _; (First 0 3) (First 3 3) _ _),
    // push {list, lr}; not empty
    shape!((= 1) (= 1) _ _; (= 13) (Natural; NonZero; First 8 1 14, First 0 8 0) _ _),
    // pop {list, pc}; not empty
    shape!(_ (= 1) _ _; (= 13) (Natural; NonZero; First 8 1 15, First 0 8 0) _ _),
    // cpsie if, cpsid if; i or f
    shape!((First 4 1) (First 1 1) (First 0 1; Either(2)) _; _ _ _ _),
    // rev rd, rm
    shape!(_ _ _ _; (First 0 3) (First 3 3) _ _),
    // rev16 rd, rm
    shape!(_ _ _ _; (First 0 3) (First 3 3) _ _),
    // revsh rd, rm
    shape!(_ _ _ _; (First 0 3) (First 3 3) _ _),
    // bkpt #i
    shape!(_ _ _ _; (First 0 8) _ _ _),
    // it c, ite c ..; k not 0, c not 15
    shape!(_ _ _ _; (First 4 4; Below(15)) (First 0 4; ItMask(5)) _ _),
    // nop, yield, wfe, wfi, sev, hint #o
    shape!(_ _ _ _; (First 4 4) _ _ _),
    // stm rn!, {list}; not empty
    shape!(_ (= 1) _ _; (First 8 3) (First 0 8; StoreList(5)) _ _),
    // ldm rn!, {list}; rn not written back where it is in the list
    shape!(_ (unlisted) _ _; (First 8 3) (First 0 8; LoadList(2, 5)) _ _),
    // beq target ..; c up to 13
    shape!(_ _ _ _; (First 8 4; Below(14)) (Signed(256); Any; First 0 8 1) _ _),
    // udf #i
    shape!(_ _ _ _; (First 0 8) _ _ _),
    // svc #i
    shape!(_ _ _ _; (First 0 8) _ _ _),
    // b target
    shape!(_ _ _ _; (Signed(2048); Any; First 0 11 1) _ _ _),
    // ldm.w rn, {list}; pop.w
    shape!(_ (First 5 1) _ _; (First 0 4; NotPc) (Natural; ManyList(2, 5); Second 15 1 15, Second 14 1 14, Second 0 13 0) _ _),
    // stm.w rn, {list}
    shape!(_ (First 5 1) _ _; (First 0 4; NotPc) (Natural; ManyList(2, 5); Second 14 1 14, Second 0 13 0) _ _),
    // ldmdb rn, {list}
    shape!((= 1) (First 5 1) _ _; (First 0 4; NotPc) (Natural; ManyList(2, 5); Second 15 1 15, Second 14 1 14, Second 0 13 0) _ _),
    // stmdb rn, {list}; push.w
    shape!((= 1) (First 5 1) _ _; (First 0 4; NotPc) (Natural; ManyList(2, 5); Second 14 1 14, Second 0 13 0) _ _),
    // ldrd rt, rt2, [rn, #4i]; p or w
    shape!((Natural; NonZero; First 5 1 1, First 8 1 0) _ _ _; (Second 12 4; Plain) (Second 8 4; PlainOther(5)) (First 0 4; PairBase(1, 5, 6)) (Sign; Any; First 7 1 12, Second 0 8 2)),
    // strd rt, rt2, [rn, #4i]; p or w
    shape!((Natural; NonZero; First 5 1 1, First 8 1 0) _ _ _; (Second 12 4; Plain) (Second 8 4; Plain) (First 0 4; PairBase(1, 5, 6)) (Sign; Any; First 7 1 12, Second 0 8 2)),
    // ldrd rt, rt2, [pc, #4i]
    shape!((= 4) _ _ _; (Second 12 4; Plain) (Second 8 4; PlainOther(5)) (Sign; Any; First 7 1 12, Second 0 8 2) _),
    // strex rd, rt, [rn, #4i]
    shape!((= 2) _ _ _; (Second 8 4; Plain) (Second 12 4; PlainOther(5)) (First 0 4; BaseOther(5)) (Natural; Any; Second 0 8 2)),
    // tt rd, rn; ttt, tta, ttat
    shape!((Second 7 1) (Second 6 1) _ _; (Second 8 4; Plain) (First 0 4; NotPc) _ _),
    // ldrex rt, [rn, #4i]
    shape!((= 2) _ _ _; (Second 12 4; Plain) (First 0 4; NotPc) (Natural; Any; Second 0 8 2) _),
    // strexb rd, rt, [rn]
    shape!(_ _ _ _; (Second 0 4; Plain) (Second 12 4; PlainOther(5)) (First 0 4; BaseOther(5)) _),
    // strexh rd, rt, [rn]
    shape!((= 1) _ _ _; (Second 0 4; Plain) (Second 12 4; PlainOther(5)) (First 0 4; BaseOther(5)) _),
    // stlb rt, [rn]
    shape!(_ _ _ _; (Second 12 4; Plain) (First 0 4; NotPc) _ _),
    // stlh rt, [rn]
    shape!((= 1) _ _ _; (Second 12 4; Plain) (First 0 4; NotPc) _ _),
    // stl rt, [rn]
    shape!((= 2) _ _ _; (Second 12 4; Plain) (First 0 4; NotPc) _ _),
    // stlexb rd, rt, [rn]
    shape!(_ (= 1) _ _; (Second 0 4; Plain) (Second 12 4; PlainOther(5)) (First 0 4; BaseOther(5)) _),
    // stlexh rd, rt, [rn]
    shape!((= 1) (= 1) _ _; (Second 0 4; Plain) (Second 12 4; PlainOther(5)) (First 0 4; BaseOther(5)) _),
    // stlex rd, rt, [rn]
    shape!((= 2) (= 1) _ _; (Second 0 4; Plain) (Second 12 4; PlainOther(5)) (First 0 4; BaseOther(5)) _),
    // ldrexb rt, [rn]
    shape!(_ _ _ _; (Second 12 4; Plain) (First 0 4; NotPc) _ _),
    // ldrexh rt, [rn]
    shape!((= 1) _ _ _; (Second 12 4; Plain) (First 0 4; NotPc) _ _),
    // ldab rt, [rn]
    shape!(_ _ _ _; (Second 12 4; Plain) (First 0 4; NotPc) _ _),
    // ldah rt, [rn]
    shape!((= 1) _ _ _; (Second 12 4; Plain) (First 0 4; NotPc) _ _),
    // lda rt, [rn]
    shape!((= 2) _ _ _; (Second 12 4; Plain) (First 0 4; NotPc) _ _),
    // ldaexb rt, [rn]
    shape!(_ (= 1) _ _; (Second 12 4; Plain) (First 0 4; NotPc) _ _),
    // ldaexh rt, [rn]
    shape!((= 1) (= 1) _ _; (Second 12 4; Plain) (First 0 4; NotPc) _ _),
    // ldaex rt, [rn]
    shape!((= 2) (= 1) _ _; (Second 12 4; Plain) (First 0 4; NotPc) _ _),
    // tbb [rn, rm]; tbh [rn, rm, lsl #1]
    shape!((Second 4 1) _ _ _; (First 0 4; NotSp) (Second 0 4; Plain) _ _),
    // and.w rd, rn, rm, shift; with s ands.w
    shape!((First 4 1) (kind) _ _; (Second 8 4; Plain) (First 0 4; Plain) (Second 0 4; Plain) (shift; Any)),
    // tst.w rn, rm, shift
    shape!((= 1) (kind) _ _; _ (First 0 4; Plain) (Second 0 4; Plain) (shift; Any)),
    // bic.w rd, rn, rm, shift; with s bics.w
    shape!((First 4 1) (kind) _ _; (Second 8 4; Plain) (First 0 4; Plain) (Second 0 4; Plain) (shift; Any)),
    // orr.w rd, rn, rm, shift; with s orrs.w
    shape!((First 4 1) (kind) _ _; (Second 8 4; Plain) (First 0 4; Plain) (Second 0 4; Plain) (shift; Any)),
    // mov.w rd, rm, shift; with s movs.w
    shape!((First 4 1) (kind) _ _; (Second 8 4; MoveResult(1, 2)) _ (Second 0 4; MoveSource(1, 2, 5)) (shift; MoveAmount(5, 7))),
    // orn.w rd, rn, rm, shift; with s orns.w
    shape!((First 4 1) (kind) _ _; (Second 8 4; Plain) (First 0 4; Plain) (Second 0 4; Plain) (shift; Any)),
    // mvn.w rd, rm, shift; with s mvns.w
    shape!((First 4 1) (kind) _ _; (Second 8 4; Plain) _ (Second 0 4; Plain) (shift; Any)),
    // eor.w rd, rn, rm, shift; with s eors.w
    shape!((First 4 1) (kind) _ _; (Second 8 4; Plain) (First 0 4; Plain) (Second 0 4; Plain) (shift; Any)),
    // teq.w rn, rm, shift
    shape!((= 1) (kind) _ _; _ (First 0 4; Plain) (Second 0 4; Plain) (shift; Any)),
    // add.w rd, rn, rm, shift; with s adds.w
    shape!((First 4 1) (kind) _ _; (Second 8 4; SumResult(2)) (First 0 4; SumOperand(5)) (Second 0 4; Plain) (shift; SumAmount(5))),
    // cmn.w rn, rm, shift
    shape!((= 1) (kind) _ _; _ (First 0 4; NotPc) (Second 0 4; Plain) (shift; Any)),
    // adc.w rd, rn, rm, shift; with s adcs.w
    shape!((First 4 1) (kind) _ _; (Second 8 4; Plain) (First 0 4; Plain) (Second 0 4; Plain) (shift; Any)),
    // sbc.w rd, rn, rm, shift; with s sbcs.w
    shape!((First 4 1) (kind) _ _; (Second 8 4; Plain) (First 0 4; Plain) (Second 0 4; Plain) (shift; Any)),
    // sub.w rd, rn, rm, shift; with s subs.w
    shape!((First 4 1) (kind) _ _; (Second 8 4; SumResult(2)) (First 0 4; SumOperand(5)) (Second 0 4; Plain) (shift; SumAmount(5))),
    // cmp.w rn, rm, shift
    shape!((= 1) (kind) _ _; _ (First 0 4; NotPc) (Second 0 4; Plain) (shift; Any)),
    // rsb.w rd, rn, rm, shift; with s rsbs.w
    shape!((First 4 1) (kind) _ _; (Second 8 4; Plain) (First 0 4; Plain) (Second 0 4; Plain) (shift; Any)),
    // and.w rd, rn, #i; with s ands.w
    shape!((First 4 1) _ _ _; (Second 8 4; Plain) (First 0 4; Plain) (imm12 Natural; Constant) _),
    // tst.w rn, #i
    shape!((= 1) _ _ _; _ (First 0 4; Plain) (imm12 Natural; Constant) _),
    // bic.w rd, rn, #i; with s bics.w
    shape!((First 4 1) _ _ _; (Second 8 4; Plain) (First 0 4; Plain) (imm12 Natural; Constant) _),
    // orr.w rd, rn, #i; with s orrs.w
    shape!((First 4 1) _ _ _; (Second 8 4; Plain) (First 0 4; Plain) (imm12 Natural; Constant) _),
    // mov.w rd, #i; with s movs.w
    shape!((First 4 1) _ _ _; (Second 8 4; Plain) _ (imm12 Natural; Constant) _),
    // orn.w rd, rn, #i; with s orns.w
    shape!((First 4 1) _ _ _; (Second 8 4; Plain) (First 0 4; Plain) (imm12 Natural; Constant) _),
    // mvn.w rd, #i; with s mvns.w
    shape!((First 4 1) _ _ _; (Second 8 4; Plain) _ (imm12 Natural; Constant) _),
    // eor.w rd, rn, #i; with s eors.w
    shape!((First 4 1) _ _ _; (Second 8 4; Plain) (First 0 4; Plain) (imm12 Natural; Constant) _),
    // teq.w rn, #i
    shape!((= 1) _ _ _; _ (First 0 4; Plain) (imm12 Natural; Constant) _),
    // add.w rd, rn, #i; with s adds.w
    shape!((First 4 1) _ _ _; (Second 8 4; SumResult(3)) (First 0 4; SumOperand(5)) (imm12 Natural; Constant) _),
    // cmn.w rn, #i
    shape!((= 1) _ _ _; _ (First 0 4; NotPc) (imm12 Natural; Constant) _),
    // adc.w rd, rn, #i; with s adcs.w
    shape!((First 4 1) _ _ _; (Second 8 4; Plain) (First 0 4; Plain) (imm12 Natural; Constant) _),
    // sbc.w rd, rn, #i; with s sbcs.w
    shape!((First 4 1) _ _ _; (Second 8 4; Plain) (First 0 4; Plain) (imm12 Natural; Constant) _),
    // sub.w rd, rn, #i; with s subs.w
    shape!((First 4 1) _ _ _; (Second 8 4; SumResult(3)) (First 0 4; SumOperand(5)) (imm12 Natural; Constant) _),
    // cmp.w rn, #i
    shape!((= 1) _ _ _; _ (First 0 4; NotPc) (imm12 Natural; Constant) _),
    // rsb.w rd, rn, #i; with s rsbs.w
    shape!((First 4 1) _ _ _; (Second 8 4; Plain) (First 0 4; Plain) (imm12 Natural; Constant) _),
    // addw rd, rn, #i
    shape!(_ _ _ _; (Second 8 4; SumResult(3)) (First 0 4; SumOperand(5)) (imm12 Natural; Any) _),
    // subw rd, rn, #i
    shape!((= 1) _ _ _; (Second 8 4; SumResult(3)) (First 0 4; SumOperand(5)) (imm12 Natural; Any) _),
    // adr.w rd, target, after the instruction
    shape!(_ _ _ _; (Second 8 4; Plain) (imm12 Natural; Any) _ _),
    // adr.w rd, target, before the instruction
    shape!(_ _ _ _; (Second 8 4; Plain) (imm12 Minus; Any) _ _),
    // movw rd, #j:i; movt
    shape!((First 7 1) _ _ _; (Second 8 4; Plain) (Natural; Any; First 0 4 12, First 10 1 11, Second 12 3 8, Second 0 8 0) _ _),
    // ssat rd, #b + 1, rn, shift; asr by 0 is no code
    shape!((= 1) (First 5 1) _ _; (Second 8 4; Plain) (First 0 4; Plain) (Above(1); Any; Second 0 5 0) (imm5; Saturation(2))),
    // usat rd, #b, rn, shift; asr by 0 is no code
    shape!(_ (First 5 1) _ _; (Second 8 4; Plain) (First 0 4; Plain) (Second 0 5) (imm5; Saturation(2))),
    // sbfx rd, rn, #i, #w + 1; together at most 32
    shape!(_ _ _ _; (Second 8 4; Plain) (First 0 4; Plain) (imm5; Any) (Above(1); WidthFrom(7); Second 0 5 0)),
    // ubfx rd, rn, #i, #w + 1; together at most 32
    shape!(_ _ _ _; (Second 8 4; Plain) (First 0 4; Plain) (imm5; Any) (Above(1); WidthFrom(7); Second 0 5 0)),
    // bfi rd, rn, #i, #m - i + 1
    shape!(_ _ _ _; (Second 8 4; Plain) (First 0 4; Plain) (imm5; Any) (UpTo; NonZero; Second 0 5 0)),
    // bfc rd, #i, #m - i + 1
    shape!(_ _ _ _; (Second 8 4; Plain) _ (imm5; Any) (UpTo; NonZero; Second 0 5 0)),
    // beq.w target ..; c up to 13
    shape!(_ _ _ _; (First 6 4; Below(14)) (Signed(1048576); Any; First 10 1 20, Second 11 1 19, Second 13 1 18, First 0 6 12, Second 0 11 1) _ _),
    // b.w target
    shape!(_ _ _ _; (Far; Any; First 10 1 24, Second 13 1 23, Second 11 1 22, First 0 10 12, Second 0 11 1) _ _ _),
    // bl target
    shape!(_ _ _ _; (Far; Any; First 10 1 24, Second 13 1 23, Second 11 1 22, First 0 10 12, Second 0 11 1) _ _ _),
    // msr special, rn
    shape!(_ _ _ _; (First 0 4; Plain) (Second 0 8; Special) _ _),
    // mrs rd, special
    shape!(_ _ _ _; (Second 8 4; Plain) (Second 0 8; Special) _ _),
    // nop.w, yield.w, wfe.w, wfi.w, sev.w, hint.w #o
    shape!(_ _ _ _; (Second 0 8) _ _ _),
    // clrex
    shape!(_ _ _ _; (= 15) _ _ _),
    // dsb #x
    shape!(_ _ _ _; (Second 0 4) _ _ _),
    // dmb #x
    shape!(_ _ _ _; (Second 0 4) _ _ _),
    // isb #x
    shape!(_ _ _ _; (Second 0 4) _ _ _),
    // udf.w #i
    shape!(_ _ _ _; (Natural; Any; First 0 4 12, Second 0 12 0) _ _ _),
    // ldr.w rt, [rn, #i]; b, h, sb, sh
    shape!((First 5 2; Below(3)) (First 8 1; LoadSign(1)) (= 1) _; (Second 12 4; LoadResult(1)) (First 0 4; NotPc) (Second 0 12) _),
    // str.w rt, [rn, #i]; b, h
    shape!((First 5 2; Below(3)) (= 1) _ _; (Second 12 4; StoreSource(1)) (First 0 4; NotPc) (Second 0 12) _),
    // pld
    shape!(_ _ _ _; (zero First 0 4) _ _ _),
    // ldr.w rt, [rn, #-i]; b, h, sb, sh
    shape!((First 5 2; Below(3)) (First 8 1; LoadSign(1)) (= 1) _; (Second 12 4; LoadResult(1)) (First 0 4; NotPc) (Minus; Any; Second 0 8 0) _),
    // str.w rt, [rn, #-i]; b, h
    shape!((First 5 2; Below(3)) (= 1) _ _; (Second 12 4; StoreSource(1)) (First 0 4; NotPc) (Minus; Any; Second 0 8 0) _),
    // pld
    shape!(_ _ _ _; (zero First 0 4) _ _ _),
    // ldrt rt, [rn, #i]; b, h, sb, sh
    shape!((First 5 2; Below(3)) (First 8 1; LoadSign(1)) (= 1) (= 1); (Second 12 4; Plain) (First 0 4; NotPc) (Second 0 8) _),
    // strt rt, [rn, #i]; b, h
    shape!((First 5 2; Below(3)) (= 1) (= 1) _; (Second 12 4; Plain) (First 0 4; NotPc) (Second 0 8) _),
    // ldr rt, [rn, #i]! and ldr rt, [rn], #i; b, h, sb, sh
    shape!((First 5 2; Below(3)) (First 8 1; LoadSign(1)) (Above(2); Any; Second 10 1 0) _; (Second 12 4; LoadResult(1)) (First 0 4; BaseOther(5)) (Sign; Any; Second 9 1 12, Second 0 8 0) _),
    // str rt, [rn, #i]! and str rt, [rn], #i; b, h
    shape!((First 5 2; Below(3)) (Above(2); Any; Second 10 1 0) _ _; (Second 12 4; StoreSource(1)) (First 0 4; BaseOther(5)) (Sign; Any; Second 9 1 12, Second 0 8 0) _),
    // ldr.w rt, [rn, rm, lsl #i]; b, h, sb, sh
    shape!((First 5 2; Below(3)) (First 8 1; LoadSign(1)) _ _; (Second 12 4; LoadResult(1)) (First 0 4; NotPc) (Second 0 4; Plain) (Second 4 2)),
    // str.w rt, [rn, rm, lsl #i]; b, h
    shape!((First 5 2; Below(3)) _ _ _; (Second 12 4; StoreSource(1)) (First 0 4; NotPc) (Second 0 4; Plain) (Second 4 2)),
    // pld
    shape!(_ _ _ _; (zero First 0 4) (zero Second 0 4) _ _),
    // ldr.w rt, [pc, #i]; b, h, sb, sh
    shape!((First 5 2; Below(3)) (First 8 1; LoadSign(1)) (= 4) _; (Second 12 4; LoadResult(1)) (Sign; Any; First 7 1 12, Second 0 12 0) _ _),
    // pld
    shape!(_ _ _ _; _ _ _ _),
    // lsl.w rd, rn, rm; lsr.w, asr.w, ror.w; with s lsls.w ..
    shape!((First 5 2) (First 4 1) _ _; (Second 8 4; Plain) (First 0 4; Plain) (Second 0 4; Plain) _),
    // sxth.w rd, rm, ror #8r
    shape!(_ _ _ _; (Second 8 4; Plain) (Second 0 4; Plain) (Natural; Any; Second 4 2 3) _),
    // uxth.w rd, rm, ror #8r
    shape!(_ _ _ _; (Second 8 4; Plain) (Second 0 4; Plain) (Natural; Any; Second 4 2 3) _),
    // sxtb.w rd, rm, ror #8r
    shape!(_ _ _ _; (Second 8 4; Plain) (Second 0 4; Plain) (Natural; Any; Second 4 2 3) _),
    // uxtb.w rd, rm, ror #8r
    shape!(_ _ _ _; (Second 8 4; Plain) (Second 0 4; Plain) (Natural; Any; Second 4 2 3) _),
    // rev.w rd, rm; k is m
    shape!(_ _ _ _; (Second 8 4; Plain) (Second 0 4; Plain) (Again; Any; First 0 4 0) _),
    // rev16.w rd, rm; k is m
    shape!(_ _ _ _; (Second 8 4; Plain) (Second 0 4; Plain) (Again; Any; First 0 4 0) _),
    // rbit rd, rm; k is m
    shape!(_ _ _ _; (Second 8 4; Plain) (Second 0 4; Plain) (Again; Any; First 0 4 0) _),
    // revsh.w rd, rm; k is m
    shape!(_ _ _ _; (Second 8 4; Plain) (Second 0 4; Plain) (Again; Any; First 0 4 0) _),
    // clz rd, rm; k is m
    shape!(_ _ _ _; (Second 8 4; Plain) (Second 0 4; Plain) (Again; Any; First 0 4 0) _),
    // mla rd, rn, rm, ra
    shape!(_ _ _ _; (Second 8 4; Plain) (First 0 4; Plain) (Second 0 4; Plain) (Second 12 4; Plain)),
    // mul.w rd, rn, rm
    shape!(_ _ _ _; (Second 8 4; Plain) (First 0 4; Plain) (Second 0 4; Plain) _),
    // mls rd, rn, rm, ra
    shape!(_ _ _ _; (Second 8 4; Plain) (First 0 4; Plain) (Second 0 4; Plain) (Second 12 4; Plain)),
    // smull rl, rh, rn, rm; l not h
    shape!(_ _ _ _; (Second 12 4; Plain) (Second 8 4; PlainOther(5)) (First 0 4; Plain) (Second 0 4; Plain)),
    // umull rl, rh, rn, rm; l not h
    shape!(_ _ _ _; (Second 12 4; Plain) (Second 8 4; PlainOther(5)) (First 0 4; Plain) (Second 0 4; Plain)),
    // smlal rl, rh, rn, rm; l not h
    shape!(_ _ _ _; (Second 12 4; Plain) (Second 8 4; PlainOther(5)) (First 0 4; Plain) (Second 0 4; Plain)),
    // umlal rl, rh, rn, rm; l not h
    shape!(_ _ _ _; (Second 12 4; Plain) (Second 8 4; PlainOther(5)) (First 0 4; Plain) (Second 0 4; Plain)),
    // sdiv rd, rn, rm
    shape!((= 1) _ _ _; (Second 8 4; Plain) (First 0 4; Plain) (Second 0 4; Plain) _),
    // udiv rd, rn, rm
    shape!(_ _ _ _; (Second 8 4; Plain) (First 0 4; Plain) (Second 0 4; Plain) _),
    // sg
    shape!(_ _ _ _; _ _ _ _),
    // vlstm rn, vlldm rn
    shape!((First 4 1) _ _ _; (First 0 4; NotPc) _ _ _),
];

/// The slots at the place, if there are any.
fn get(shapes: &[[CodeSlot; 8]], index: usize) -> Option<[CodeSlot; 8]>
    ensures { result ≡ slice_get shapes.now index }
{
    shapes.get(index).copied()
}

/// The slots of the row at `index` of the instruction table: None exactly where `index` isn't below the
/// count of rows.
pub fn slots_at(index: usize) -> Option<[CodeSlot; 8]>
    ensures { result ≡ slice_get SHAPES index }
{
    get(&SHAPES, index)
}

//! The rows as data: a code stands in a row where its bits under the masks are the values and its limits
//! hold. Where two rows share bits, limits keep them apart. Masks and values follow from the row's pattern,
//! of which the digits are fixed bits, and the letters bits of fields.

ghost use Rattle.std.specs.Prelude.{◌≡◌, length, slice_get};
ghost use Rattle.tz_table.specs.Rows.{rows_of};
ghost use Rattle.tz_table.specs.Table.{rows, OneRow};

use crate::units::Width;

/// A row of the instruction table.
#[derive(Clone, Copy)]
pub struct Row {
    pub width: Width,
    pub first_mask: u16,
    pub first_value: u16,
    pub second_mask: u16,
    pub second_value: u16,
    /// The number of the variant with its operation, shared by all rows of that instruction.
    pub form: u16,
}

/// 1 for a fixed bit, and 0 for one of a field.
macro_rules! fixed {
    (0) => {
        1
    };
    (1) => {
        1
    };
    ($letter:ident) => {
        0
    };
}

/// 1 for a bit that is fixed as 1.
macro_rules! one {
    (0) => {
        0
    };
    (1) => {
        1
    };
    ($letter:ident) => {
        0
    };
}

/// What `$bit` gives of each bit of a halfword, the highest first, as a number.
macro_rules! number {
    ($bit:ident, [$a:tt $b:tt $c:tt $d:tt $e:tt $f:tt $g:tt $h:tt $i:tt $j:tt $k:tt $l:tt $m:tt $n:tt $o:tt $p:tt]) => {
        $bit!($a) * 0x8000
            + $bit!($b) * 0x4000
            + $bit!($c) * 0x2000
            + $bit!($d) * 0x1000
            + $bit!($e) * 0x800
            + $bit!($f) * 0x400
            + $bit!($g) * 0x200
            + $bit!($h) * 0x100
            + $bit!($i) * 0x80
            + $bit!($j) * 0x40
            + $bit!($k) * 0x20
            + $bit!($l) * 0x10
            + $bit!($m) * 8
            + $bit!($n) * 4
            + $bit!($o) * 2
            + $bit!($p)
    };
}

/// A row by its pattern, a halfword or two, and its form.
macro_rules! row {
    ($first:tt, $form:literal) => {
        Row {
            width: Width::Narrow,
            first_mask: number!(fixed, $first),
            first_value: number!(one, $first),
            second_mask: 0,
            second_value: 0,
            form: $form,
        }
    };
    ($first:tt, $second:tt, $form:literal) => {
        Row {
            width: Width::Wide,
            first_mask: number!(fixed, $first),
            first_value: number!(one, $first),
            second_mask: number!(fixed, $second),
            second_value: number!(one, $second),
            form: $form,
        }
    };
}

pub static ROWS: [Row; 189] = [
    // lsls rd, rm, #i; movs rd, rm where i is 0
    row!([0 0 0 0 0 i i i i i m m m d d d], 26),
    // lsrs rd, rm, #i; 0 is 32
    row!([0 0 0 0 1 i i i i i m m m d d d], 26),
    // asrs rd, rm, #i; 0 is 32
    row!([0 0 0 1 0 i i i i i m m m d d d], 26),
    // adds rd, rn, rm
    row!([0 0 0 1 1 0 0 m m m n n n d d d], 21),
    // subs rd, rn, rm
    row!([0 0 0 1 1 0 1 m m m n n n d d d], 24),
    // adds rd, rn, #i
    row!([0 0 0 1 1 1 0 i i i n n n d d d], 5),
    // subs rd, rn, #i
    row!([0 0 0 1 1 1 1 i i i n n n d d d], 8),
    // movs rd, #i
    row!([0 0 1 0 0 d d d i i i i i i i i], 10),
    // cmp rn, #i
    row!([0 0 1 0 1 n n n i i i i i i i i], 15),
    // adds rd, rd, #i
    row!([0 0 1 1 0 d d d i i i i i i i i], 5),
    // subs rd, rd, #i
    row!([0 0 1 1 1 d d d i i i i i i i i], 8),
    // ands rd, rd, rm
    row!([0 1 0 0 0 0 0 0 0 0 m m m d d d], 16),
    // eors rd, rd, rm
    row!([0 1 0 0 0 0 0 0 0 1 m m m d d d], 20),
    // lsls rd, rd, rm
    row!([0 1 0 0 0 0 0 0 1 0 m m m d d d], 32),
    // lsrs rd, rd, rm
    row!([0 1 0 0 0 0 0 0 1 1 m m m d d d], 32),
    // asrs rd, rd, rm
    row!([0 1 0 0 0 0 0 1 0 0 m m m d d d], 32),
    // adcs rd, rd, rm
    row!([0 1 0 0 0 0 0 1 0 1 m m m d d d], 22),
    // sbcs rd, rd, rm
    row!([0 1 0 0 0 0 0 1 1 0 m m m d d d], 23),
    // rors rd, rd, rm
    row!([0 1 0 0 0 0 0 1 1 1 m m m d d d], 32),
    // tst rn, rm
    row!([0 1 0 0 0 0 1 0 0 0 m m m n n n], 28),
    // rsbs rd, rn, #0
    row!([0 1 0 0 0 0 1 0 0 1 n n n d d d], 9),
    // cmp rn, rm
    row!([0 1 0 0 0 0 1 0 1 0 m m m n n n], 31),
    // cmn rn, rm
    row!([0 1 0 0 0 0 1 0 1 1 m m m n n n], 30),
    // orrs rd, rd, rm
    row!([0 1 0 0 0 0 1 1 0 0 m m m d d d], 18),
    // muls rd, rn, rd
    row!([0 1 0 0 0 0 1 1 0 1 n n n d d d], 50),
    // bics rd, rd, rm
    row!([0 1 0 0 0 0 1 1 1 0 m m m d d d], 17),
    // mvns rd, rm
    row!([0 1 0 0 0 0 1 1 1 1 m m m d d d], 27),
    // add rd, rd, rm; not both PC
    row!([0 1 0 0 0 1 0 0 d m m m m d d d], 21),
    // cmp rn, rm; not both below 8, no PC
    row!([0 1 0 0 0 1 0 1 n m m m m n n n], 31),
    // mov rd, rm
    row!([0 1 0 0 0 1 1 0 d m m m m d d d], 26),
    // bx rm, bxns rm; no PC, with s no SP
    row!([0 1 0 0 0 1 1 1 0 m m m m s 0 0], 74),
    // blx rm, blxns rm; no PC, with s no SP
    row!([0 1 0 0 0 1 1 1 1 m m m m s 0 0], 75),
    // ldr rt, [pc, #4i]
    row!([0 1 0 0 1 t t t i i i i i i i i], 58),
    // str rt, [rn, rm]
    row!([0 1 0 1 0 0 0 m m m n n n t t t], 59),
    // strh rt, [rn, rm]
    row!([0 1 0 1 0 0 1 m m m n n n t t t], 59),
    // strb rt, [rn, rm]
    row!([0 1 0 1 0 1 0 m m m n n n t t t], 59),
    // ldrsb rt, [rn, rm]
    row!([0 1 0 1 0 1 1 m m m n n n t t t], 58),
    // ldr rt, [rn, rm]
    row!([0 1 0 1 1 0 0 m m m n n n t t t], 58),
    // ldrh rt, [rn, rm]
    row!([0 1 0 1 1 0 1 m m m n n n t t t], 58),
    // ldrb rt, [rn, rm]
    row!([0 1 0 1 1 1 0 m m m n n n t t t], 58),
    // ldrsh rt, [rn, rm]
    row!([0 1 0 1 1 1 1 m m m n n n t t t], 58),
    // str rt, [rn, #4i]
    row!([0 1 1 0 0 i i i i i n n n t t t], 59),
    // ldr rt, [rn, #4i]
    row!([0 1 1 0 1 i i i i i n n n t t t], 58),
    // strb rt, [rn, #i]
    row!([0 1 1 1 0 i i i i i n n n t t t], 59),
    // ldrb rt, [rn, #i]
    row!([0 1 1 1 1 i i i i i n n n t t t], 58),
    // strh rt, [rn, #2i]
    row!([1 0 0 0 0 i i i i i n n n t t t], 59),
    // ldrh rt, [rn, #2i]
    row!([1 0 0 0 1 i i i i i n n n t t t], 58),
    // str rt, [sp, #4i]
    row!([1 0 0 1 0 t t t i i i i i i i i], 59),
    // ldr rt, [sp, #4i]
    row!([1 0 0 1 1 t t t i i i i i i i i], 58),
    // adr rd, target
    row!([1 0 1 0 0 d d d i i i i i i i i], 34),
    // add rd, sp, #4i
    row!([1 0 1 0 1 d d d i i i i i i i i], 33),
    // add sp, sp, #4i; sub
    row!([1 0 1 1 0 0 0 0 s i i i i i i i], 33),
    // cbz rn, target; cbnz
    row!([1 0 1 1 z 0 i 1 i i i i i n n n], 72),
    // sxth rd, rm
    row!([1 0 1 1 0 0 1 0 0 0 m m m d d d], 41),
    // sxtb rd, rm
    row!([1 0 1 1 0 0 1 0 0 1 m m m d d d], 42),
    // uxth rd, rm
    row!([1 0 1 1 0 0 1 0 1 0 m m m d d d], 43),
    // uxtb rd, rm
    row!([1 0 1 1 0 0 1 0 1 1 m m m d d d], 44),
    // push {list, lr}; not empty
    row!([1 0 1 1 0 1 0 m l l l l l l l l], 63),
    // pop {list, pc}; not empty
    row!([1 0 1 1 1 1 0 p l l l l l l l l], 62),
    // cpsie if, cpsid if; i or f
    row!([1 0 1 1 0 1 1 0 0 1 1 d 0 0 i f], 82),
    // rev rd, rm
    row!([1 0 1 1 1 0 1 0 0 0 m m m d d d], 45),
    // rev16 rd, rm
    row!([1 0 1 1 1 0 1 0 0 1 m m m d d d], 46),
    // revsh rd, rm
    row!([1 0 1 1 1 0 1 0 1 1 m m m d d d], 48),
    // bkpt #i
    row!([1 0 1 1 1 1 1 0 i i i i i i i i], 89),
    // it c, ite c ..; k not 0, c not 15
    row!([1 0 1 1 1 1 1 1 c c c c k k k k], 76),
    // nop, yield, wfe, wfi, sev, hint #o
    row!([1 0 1 1 1 1 1 1 o o o o 0 0 0 0], 77),
    // stm rn!, {list}; not empty
    row!([1 1 0 0 0 n n n l l l l l l l l], 63),
    // ldm rn!, {list}; rn not written back where it is in the list
    row!([1 1 0 0 1 n n n l l l l l l l l], 62),
    // beq target ..; c up to 13
    row!([1 1 0 1 c c c c i i i i i i i i], 70),
    // udf #i
    row!([1 1 0 1 1 1 1 0 i i i i i i i i], 90),
    // svc #i
    row!([1 1 0 1 1 1 1 1 i i i i i i i i], 88),
    // b target
    row!([1 1 1 0 0 i i i i i i i i i i i], 69),
    // ldm.w rn, {list}; pop.w
    row!([1 1 1 0 1 0 0 0 1 0 w 1 n n n n], [p m 0 l l l l l l l l l l l l l], 62),
    // stm.w rn, {list}
    row!([1 1 1 0 1 0 0 0 1 0 w 0 n n n n], [0 m 0 l l l l l l l l l l l l l], 63),
    // ldmdb rn, {list}
    row!([1 1 1 0 1 0 0 1 0 0 w 1 n n n n], [p m 0 l l l l l l l l l l l l l], 62),
    // stmdb rn, {list}; push.w
    row!([1 1 1 0 1 0 0 1 0 0 w 0 n n n n], [0 m 0 l l l l l l l l l l l l l], 63),
    // ldrd rt, rt2, [rn, #4i]; p or w
    row!([1 1 1 0 1 0 0 p u 1 w 1 n n n n], [t t t t v v v v i i i i i i i i], 60),
    // strd rt, rt2, [rn, #4i]; p or w
    row!([1 1 1 0 1 0 0 p u 1 w 0 n n n n], [t t t t v v v v i i i i i i i i], 61),
    // ldrd rt, rt2, [pc, #4i]
    row!([1 1 1 0 1 0 0 1 u 1 0 1 1 1 1 1], [t t t t v v v v i i i i i i i i], 60),
    // strex rd, rt, [rn, #4i]
    row!([1 1 1 0 1 0 0 0 0 1 0 0 n n n n], [t t t t d d d d i i i i i i i i], 66),
    // tt rd, rn; ttt, tta, ttat
    row!([1 1 1 0 1 0 0 0 0 1 0 0 n n n n], [1 1 1 1 d d d d a t 0 0 0 0 0 0], 85),
    // ldrex rt, [rn, #4i]
    row!([1 1 1 0 1 0 0 0 0 1 0 1 n n n n], [t t t t 1 1 1 1 i i i i i i i i], 65),
    // strexb rd, rt, [rn]
    row!([1 1 1 0 1 0 0 0 1 1 0 0 n n n n], [t t t t 1 1 1 1 0 1 0 0 d d d d], 66),
    // strexh rd, rt, [rn]
    row!([1 1 1 0 1 0 0 0 1 1 0 0 n n n n], [t t t t 1 1 1 1 0 1 0 1 d d d d], 66),
    // stlb rt, [rn]
    row!([1 1 1 0 1 0 0 0 1 1 0 0 n n n n], [t t t t 1 1 1 1 1 0 0 0 1 1 1 1], 68),
    // stlh rt, [rn]
    row!([1 1 1 0 1 0 0 0 1 1 0 0 n n n n], [t t t t 1 1 1 1 1 0 0 1 1 1 1 1], 68),
    // stl rt, [rn]
    row!([1 1 1 0 1 0 0 0 1 1 0 0 n n n n], [t t t t 1 1 1 1 1 0 1 0 1 1 1 1], 68),
    // stlexb rd, rt, [rn]
    row!([1 1 1 0 1 0 0 0 1 1 0 0 n n n n], [t t t t 1 1 1 1 1 1 0 0 d d d d], 66),
    // stlexh rd, rt, [rn]
    row!([1 1 1 0 1 0 0 0 1 1 0 0 n n n n], [t t t t 1 1 1 1 1 1 0 1 d d d d], 66),
    // stlex rd, rt, [rn]
    row!([1 1 1 0 1 0 0 0 1 1 0 0 n n n n], [t t t t 1 1 1 1 1 1 1 0 d d d d], 66),
    // ldrexb rt, [rn]
    row!([1 1 1 0 1 0 0 0 1 1 0 1 n n n n], [t t t t 1 1 1 1 0 1 0 0 1 1 1 1], 65),
    // ldrexh rt, [rn]
    row!([1 1 1 0 1 0 0 0 1 1 0 1 n n n n], [t t t t 1 1 1 1 0 1 0 1 1 1 1 1], 65),
    // ldab rt, [rn]
    row!([1 1 1 0 1 0 0 0 1 1 0 1 n n n n], [t t t t 1 1 1 1 1 0 0 0 1 1 1 1], 67),
    // ldah rt, [rn]
    row!([1 1 1 0 1 0 0 0 1 1 0 1 n n n n], [t t t t 1 1 1 1 1 0 0 1 1 1 1 1], 67),
    // lda rt, [rn]
    row!([1 1 1 0 1 0 0 0 1 1 0 1 n n n n], [t t t t 1 1 1 1 1 0 1 0 1 1 1 1], 67),
    // ldaexb rt, [rn]
    row!([1 1 1 0 1 0 0 0 1 1 0 1 n n n n], [t t t t 1 1 1 1 1 1 0 0 1 1 1 1], 65),
    // ldaexh rt, [rn]
    row!([1 1 1 0 1 0 0 0 1 1 0 1 n n n n], [t t t t 1 1 1 1 1 1 0 1 1 1 1 1], 65),
    // ldaex rt, [rn]
    row!([1 1 1 0 1 0 0 0 1 1 0 1 n n n n], [t t t t 1 1 1 1 1 1 1 0 1 1 1 1], 65),
    // tbb [rn, rm]; tbh [rn, rm, lsl #1]
    row!([1 1 1 0 1 0 0 0 1 1 0 1 n n n n], [1 1 1 1 0 0 0 0 0 0 0 h m m m m], 73),
    // and.w rd, rn, rm, shift; with s ands.w
    row!([1 1 1 0 1 0 1 0 0 0 0 s n n n n], [0 i i i d d d d i i t t m m m m], 16),
    // tst.w rn, rm, shift
    row!([1 1 1 0 1 0 1 0 0 0 0 1 n n n n], [0 i i i 1 1 1 1 i i t t m m m m], 28),
    // bic.w rd, rn, rm, shift; with s bics.w
    row!([1 1 1 0 1 0 1 0 0 0 1 s n n n n], [0 i i i d d d d i i t t m m m m], 17),
    // orr.w rd, rn, rm, shift; with s orrs.w
    row!([1 1 1 0 1 0 1 0 0 1 0 s n n n n], [0 i i i d d d d i i t t m m m m], 18),
    // mov.w rd, rm, shift; with s movs.w
    row!([1 1 1 0 1 0 1 0 0 1 0 s 1 1 1 1], [0 i i i d d d d i i t t m m m m], 26),
    // orn.w rd, rn, rm, shift; with s orns.w
    row!([1 1 1 0 1 0 1 0 0 1 1 s n n n n], [0 i i i d d d d i i t t m m m m], 19),
    // mvn.w rd, rm, shift; with s mvns.w
    row!([1 1 1 0 1 0 1 0 0 1 1 s 1 1 1 1], [0 i i i d d d d i i t t m m m m], 27),
    // eor.w rd, rn, rm, shift; with s eors.w
    row!([1 1 1 0 1 0 1 0 1 0 0 s n n n n], [0 i i i d d d d i i t t m m m m], 20),
    // teq.w rn, rm, shift
    row!([1 1 1 0 1 0 1 0 1 0 0 1 n n n n], [0 i i i 1 1 1 1 i i t t m m m m], 29),
    // add.w rd, rn, rm, shift; with s adds.w
    row!([1 1 1 0 1 0 1 1 0 0 0 s n n n n], [0 i i i d d d d i i t t m m m m], 21),
    // cmn.w rn, rm, shift
    row!([1 1 1 0 1 0 1 1 0 0 0 1 n n n n], [0 i i i 1 1 1 1 i i t t m m m m], 30),
    // adc.w rd, rn, rm, shift; with s adcs.w
    row!([1 1 1 0 1 0 1 1 0 1 0 s n n n n], [0 i i i d d d d i i t t m m m m], 22),
    // sbc.w rd, rn, rm, shift; with s sbcs.w
    row!([1 1 1 0 1 0 1 1 0 1 1 s n n n n], [0 i i i d d d d i i t t m m m m], 23),
    // sub.w rd, rn, rm, shift; with s subs.w
    row!([1 1 1 0 1 0 1 1 1 0 1 s n n n n], [0 i i i d d d d i i t t m m m m], 24),
    // cmp.w rn, rm, shift
    row!([1 1 1 0 1 0 1 1 1 0 1 1 n n n n], [0 i i i 1 1 1 1 i i t t m m m m], 31),
    // rsb.w rd, rn, rm, shift; with s rsbs.w
    row!([1 1 1 0 1 0 1 1 1 1 0 s n n n n], [0 i i i d d d d i i t t m m m m], 25),
    // and.w rd, rn, #i; with s ands.w
    row!([1 1 1 1 0 i 0 0 0 0 0 s n n n n], [0 i i i d d d d i i i i i i i i], 0),
    // tst.w rn, #i
    row!([1 1 1 1 0 i 0 0 0 0 0 1 n n n n], [0 i i i 1 1 1 1 i i i i i i i i], 12),
    // bic.w rd, rn, #i; with s bics.w
    row!([1 1 1 1 0 i 0 0 0 0 1 s n n n n], [0 i i i d d d d i i i i i i i i], 1),
    // orr.w rd, rn, #i; with s orrs.w
    row!([1 1 1 1 0 i 0 0 0 1 0 s n n n n], [0 i i i d d d d i i i i i i i i], 2),
    // mov.w rd, #i; with s movs.w
    row!([1 1 1 1 0 i 0 0 0 1 0 s 1 1 1 1], [0 i i i d d d d i i i i i i i i], 10),
    // orn.w rd, rn, #i; with s orns.w
    row!([1 1 1 1 0 i 0 0 0 1 1 s n n n n], [0 i i i d d d d i i i i i i i i], 3),
    // mvn.w rd, #i; with s mvns.w
    row!([1 1 1 1 0 i 0 0 0 1 1 s 1 1 1 1], [0 i i i d d d d i i i i i i i i], 11),
    // eor.w rd, rn, #i; with s eors.w
    row!([1 1 1 1 0 i 0 0 1 0 0 s n n n n], [0 i i i d d d d i i i i i i i i], 4),
    // teq.w rn, #i
    row!([1 1 1 1 0 i 0 0 1 0 0 1 n n n n], [0 i i i 1 1 1 1 i i i i i i i i], 13),
    // add.w rd, rn, #i; with s adds.w
    row!([1 1 1 1 0 i 0 1 0 0 0 s n n n n], [0 i i i d d d d i i i i i i i i], 5),
    // cmn.w rn, #i
    row!([1 1 1 1 0 i 0 1 0 0 0 1 n n n n], [0 i i i 1 1 1 1 i i i i i i i i], 14),
    // adc.w rd, rn, #i; with s adcs.w
    row!([1 1 1 1 0 i 0 1 0 1 0 s n n n n], [0 i i i d d d d i i i i i i i i], 6),
    // sbc.w rd, rn, #i; with s sbcs.w
    row!([1 1 1 1 0 i 0 1 0 1 1 s n n n n], [0 i i i d d d d i i i i i i i i], 7),
    // sub.w rd, rn, #i; with s subs.w
    row!([1 1 1 1 0 i 0 1 1 0 1 s n n n n], [0 i i i d d d d i i i i i i i i], 8),
    // cmp.w rn, #i
    row!([1 1 1 1 0 i 0 1 1 0 1 1 n n n n], [0 i i i 1 1 1 1 i i i i i i i i], 15),
    // rsb.w rd, rn, #i; with s rsbs.w
    row!([1 1 1 1 0 i 0 1 1 1 0 s n n n n], [0 i i i d d d d i i i i i i i i], 9),
    // addw rd, rn, #i
    row!([1 1 1 1 0 i 1 0 0 0 0 0 n n n n], [0 i i i d d d d i i i i i i i i], 33),
    // subw rd, rn, #i
    row!([1 1 1 1 0 i 1 0 1 0 1 0 n n n n], [0 i i i d d d d i i i i i i i i], 33),
    // adr.w rd, target, after the instruction
    row!([1 1 1 1 0 i 1 0 0 0 0 0 1 1 1 1], [0 i i i d d d d i i i i i i i i], 34),
    // adr.w rd, target, before the instruction
    row!([1 1 1 1 0 i 1 0 1 0 1 0 1 1 1 1], [0 i i i d d d d i i i i i i i i], 34),
    // movw rd, #j:i; movt
    row!([1 1 1 1 0 i 1 0 t 1 0 0 j j j j], [0 i i i d d d d i i i i i i i i], 35),
    // ssat rd, #b + 1, rn, shift; asr by 0 is no code
    row!([1 1 1 1 0 0 1 1 0 0 s 0 n n n n], [0 i i i d d d d i i 0 b b b b b], 36),
    // usat rd, #b, rn, shift; asr by 0 is no code
    row!([1 1 1 1 0 0 1 1 1 0 s 0 n n n n], [0 i i i d d d d i i 0 b b b b b], 36),
    // sbfx rd, rn, #i, #w + 1; together at most 32
    row!([1 1 1 1 0 0 1 1 0 1 0 0 n n n n], [0 i i i d d d d i i 0 w w w w w], 37),
    // ubfx rd, rn, #i, #w + 1; together at most 32
    row!([1 1 1 1 0 0 1 1 1 1 0 0 n n n n], [0 i i i d d d d i i 0 w w w w w], 38),
    // bfi rd, rn, #i, #m - i + 1
    row!([1 1 1 1 0 0 1 1 0 1 1 0 n n n n], [0 i i i d d d d i i 0 m m m m m], 39),
    // bfc rd, #i, #m - i + 1
    row!([1 1 1 1 0 0 1 1 0 1 1 0 1 1 1 1], [0 i i i d d d d i i 0 m m m m m], 40),
    // beq.w target ..; c up to 13
    row!([1 1 1 1 0 s c c c c i i i i i i], [1 0 j 0 k i i i i i i i i i i i], 70),
    // b.w target
    row!([1 1 1 1 0 s h h h h h h h h h h], [1 0 j 1 k i i i i i i i i i i i], 69),
    // bl target
    row!([1 1 1 1 0 s h h h h h h h h h h], [1 1 j 1 k i i i i i i i i i i i], 71),
    // msr special, rn
    row!([1 1 1 1 0 0 1 1 1 0 0 0 n n n n], [1 0 0 0 1 0 0 0 y y y y y y y y], 84),
    // mrs rd, special
    row!([1 1 1 1 0 0 1 1 1 1 1 0 1 1 1 1], [1 0 0 0 d d d d y y y y y y y y], 83),
    // nop.w, yield.w, wfe.w, wfi.w, sev.w, hint.w #o
    row!([1 1 1 1 0 0 1 1 1 0 1 0 1 1 1 1], [1 0 0 0 0 0 0 0 o o o o o o o o], 77),
    // clrex
    row!([1 1 1 1 0 0 1 1 1 0 1 1 1 1 1 1], [1 0 0 0 1 1 1 1 0 0 1 0 1 1 1 1], 78),
    // dsb #x
    row!([1 1 1 1 0 0 1 1 1 0 1 1 1 1 1 1], [1 0 0 0 1 1 1 1 0 1 0 0 x x x x], 79),
    // dmb #x
    row!([1 1 1 1 0 0 1 1 1 0 1 1 1 1 1 1], [1 0 0 0 1 1 1 1 0 1 0 1 x x x x], 80),
    // isb #x
    row!([1 1 1 1 0 0 1 1 1 0 1 1 1 1 1 1], [1 0 0 0 1 1 1 1 0 1 1 0 x x x x], 81),
    // udf.w #i
    row!([1 1 1 1 0 1 1 1 1 1 1 1 i i i i], [1 0 1 0 i i i i i i i i i i i i], 90),
    // ldr.w rt, [rn, #i]; b, h, sb, sh
    row!([1 1 1 1 1 0 0 x 1 z z 1 n n n n], [t t t t i i i i i i i i i i i i], 58),
    // str.w rt, [rn, #i]; b, h
    row!([1 1 1 1 1 0 0 0 1 z z 0 n n n n], [t t t t i i i i i i i i i i i i], 59),
    // pld
    row!([1 1 1 1 1 0 0 x 1 0 0 1 n n n n], [1 1 1 1 i i i i i i i i i i i i], 64),
    // ldr.w rt, [rn, #-i]; b, h, sb, sh
    row!([1 1 1 1 1 0 0 x 0 z z 1 n n n n], [t t t t 1 1 0 0 i i i i i i i i], 58),
    // str.w rt, [rn, #-i]; b, h
    row!([1 1 1 1 1 0 0 0 0 z z 0 n n n n], [t t t t 1 1 0 0 i i i i i i i i], 59),
    // pld
    row!([1 1 1 1 1 0 0 x 0 0 0 1 n n n n], [1 1 1 1 1 1 0 0 i i i i i i i i], 64),
    // ldrt rt, [rn, #i]; b, h, sb, sh
    row!([1 1 1 1 1 0 0 x 0 z z 1 n n n n], [t t t t 1 1 1 0 i i i i i i i i], 58),
    // strt rt, [rn, #i]; b, h
    row!([1 1 1 1 1 0 0 0 0 z z 0 n n n n], [t t t t 1 1 1 0 i i i i i i i i], 59),
    // ldr rt, [rn, #i]! and ldr rt, [rn], #i; b, h, sb, sh
    row!([1 1 1 1 1 0 0 x 0 z z 1 n n n n], [t t t t 1 p u 1 i i i i i i i i], 58),
    // str rt, [rn, #i]! and str rt, [rn], #i; b, h
    row!([1 1 1 1 1 0 0 0 0 z z 0 n n n n], [t t t t 1 p u 1 i i i i i i i i], 59),
    // ldr.w rt, [rn, rm, lsl #i]; b, h, sb, sh
    row!([1 1 1 1 1 0 0 x 0 z z 1 n n n n], [t t t t 0 0 0 0 0 0 i i m m m m], 58),
    // str.w rt, [rn, rm, lsl #i]; b, h
    row!([1 1 1 1 1 0 0 0 0 z z 0 n n n n], [t t t t 0 0 0 0 0 0 i i m m m m], 59),
    // pld
    row!([1 1 1 1 1 0 0 x 0 0 0 1 n n n n], [1 1 1 1 0 0 0 0 0 0 i i m m m m], 64),
    // ldr.w rt, [pc, #i]; b, h, sb, sh
    row!([1 1 1 1 1 0 0 x u z z 1 1 1 1 1], [t t t t i i i i i i i i i i i i], 58),
    // pld
    row!([1 1 1 1 1 0 0 x u 0 0 1 1 1 1 1], [1 1 1 1 i i i i i i i i i i i i], 64),
    // lsl.w rd, rn, rm; lsr.w, asr.w, ror.w; with s lsls.w ..
    row!([1 1 1 1 1 0 1 0 0 t t s n n n n], [1 1 1 1 d d d d 0 0 0 0 m m m m], 32),
    // sxth.w rd, rm, ror #8r
    row!([1 1 1 1 1 0 1 0 0 0 0 0 1 1 1 1], [1 1 1 1 d d d d 1 0 r r m m m m], 41),
    // uxth.w rd, rm, ror #8r
    row!([1 1 1 1 1 0 1 0 0 0 0 1 1 1 1 1], [1 1 1 1 d d d d 1 0 r r m m m m], 43),
    // sxtb.w rd, rm, ror #8r
    row!([1 1 1 1 1 0 1 0 0 1 0 0 1 1 1 1], [1 1 1 1 d d d d 1 0 r r m m m m], 42),
    // uxtb.w rd, rm, ror #8r
    row!([1 1 1 1 1 0 1 0 0 1 0 1 1 1 1 1], [1 1 1 1 d d d d 1 0 r r m m m m], 44),
    // rev.w rd, rm; k is m
    row!([1 1 1 1 1 0 1 0 1 0 0 1 k k k k], [1 1 1 1 d d d d 1 0 0 0 m m m m], 45),
    // rev16.w rd, rm; k is m
    row!([1 1 1 1 1 0 1 0 1 0 0 1 k k k k], [1 1 1 1 d d d d 1 0 0 1 m m m m], 46),
    // rbit rd, rm; k is m
    row!([1 1 1 1 1 0 1 0 1 0 0 1 k k k k], [1 1 1 1 d d d d 1 0 1 0 m m m m], 47),
    // revsh.w rd, rm; k is m
    row!([1 1 1 1 1 0 1 0 1 0 0 1 k k k k], [1 1 1 1 d d d d 1 0 1 1 m m m m], 48),
    // clz rd, rm; k is m
    row!([1 1 1 1 1 0 1 0 1 0 1 1 k k k k], [1 1 1 1 d d d d 1 0 0 0 m m m m], 49),
    // mla rd, rn, rm, ra
    row!([1 1 1 1 1 0 1 1 0 0 0 0 n n n n], [a a a a d d d d 0 0 0 0 m m m m], 51),
    // mul.w rd, rn, rm
    row!([1 1 1 1 1 0 1 1 0 0 0 0 n n n n], [1 1 1 1 d d d d 0 0 0 0 m m m m], 50),
    // mls rd, rn, rm, ra
    row!([1 1 1 1 1 0 1 1 0 0 0 0 n n n n], [a a a a d d d d 0 0 0 1 m m m m], 52),
    // smull rl, rh, rn, rm; l not h
    row!([1 1 1 1 1 0 1 1 1 0 0 0 n n n n], [l l l l h h h h 0 0 0 0 m m m m], 53),
    // umull rl, rh, rn, rm; l not h
    row!([1 1 1 1 1 0 1 1 1 0 1 0 n n n n], [l l l l h h h h 0 0 0 0 m m m m], 54),
    // smlal rl, rh, rn, rm; l not h
    row!([1 1 1 1 1 0 1 1 1 1 0 0 n n n n], [l l l l h h h h 0 0 0 0 m m m m], 55),
    // umlal rl, rh, rn, rm; l not h
    row!([1 1 1 1 1 0 1 1 1 1 1 0 n n n n], [l l l l h h h h 0 0 0 0 m m m m], 56),
    // sdiv rd, rn, rm
    row!([1 1 1 1 1 0 1 1 1 0 0 1 n n n n], [1 1 1 1 d d d d 1 1 1 1 m m m m], 57),
    // udiv rd, rn, rm
    row!([1 1 1 1 1 0 1 1 1 0 1 1 n n n n], [1 1 1 1 d d d d 1 1 1 1 m m m m], 57),
    // sg
    row!([1 1 1 0 1 0 0 1 0 1 1 1 1 1 1 1], [1 1 1 0 1 0 0 1 0 1 1 1 1 1 1 1], 86),
    // vlstm rn, vlldm rn
    row!([1 1 1 0 1 1 0 0 0 0 1 l n n n n], [0 0 0 0 1 0 1 0 0 0 0 0 0 0 0 0], 87),
];

/// The row at the place, if there is one.
fn get(rows: &[Row], index: usize) -> Option<Row>
    ensures { result ≡ slice_get rows.now index }
{
    rows.get(index).copied()
}

/// How many rows the table has. No code is in two of them.
pub fn row_count() -> usize
    ensures count { result ≡ length rows }
    ensures one_row { OneRow }
{
    ROWS.len()
}

/// The row at `index`, in the manual's order: None exactly where `index` isn't below the count.
pub fn row_at(index: usize) -> Option<Row>
    ensures { result ≡ slice_get (rows_of rows) index }
{
    get(&ROWS, index)
}

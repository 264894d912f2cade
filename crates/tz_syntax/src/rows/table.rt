//! The text of each form and width: the lines that `crate::rows` explains.

use crate::row::{Mark, Piece, TextRow};
use tz_table::Width;

/// All rows, by the number of the form, those of 16 bits first.
pub static ROWS: [TextRow; 305] = [
    // DataImm And: flags
    row!(0 Wide [(1 0)] "and.w"; reg 5, reg 6, imm 7),
    row!(0 Wide [(1 1)] "ands.w"; reg 5, reg 6, imm 7),
    // DataImm Bic: flags
    row!(1 Wide [(1 0)] "bic.w"; reg 5, reg 6, imm 7),
    row!(1 Wide [(1 1)] "bics.w"; reg 5, reg 6, imm 7),
    // DataImm Orr: flags
    row!(2 Wide [(1 0)] "orr.w"; reg 5, reg 6, imm 7),
    row!(2 Wide [(1 1)] "orrs.w"; reg 5, reg 6, imm 7),
    // DataImm Orn: flags
    row!(3 Wide [(1 0)] "orn"; reg 5, reg 6, imm 7),
    row!(3 Wide [(1 1)] "orns"; reg 5, reg 6, imm 7),
    // DataImm Eor: flags
    row!(4 Wide [(1 0)] "eor.w"; reg 5, reg 6, imm 7),
    row!(4 Wide [(1 1)] "eors.w"; reg 5, reg 6, imm 7),
    // DataImm Add: flags
    row!(5 Narrow [(1 2)] "adds"; reg 5, reg 6, imm 7),
    row!(5 Wide [(1 0)] "add.w"; reg 5, reg 6, imm 7),
    row!(5 Wide [(1 1)] "adds.w"; reg 5, reg 6, imm 7),
    // DataImm Adc: flags
    row!(6 Wide [(1 0)] "adc.w"; reg 5, reg 6, imm 7),
    row!(6 Wide [(1 1)] "adcs.w"; reg 5, reg 6, imm 7),
    // DataImm Sbc: flags
    row!(7 Wide [(1 0)] "sbc.w"; reg 5, reg 6, imm 7),
    row!(7 Wide [(1 1)] "sbcs.w"; reg 5, reg 6, imm 7),
    // DataImm Sub: flags
    row!(8 Narrow [(1 2)] "subs"; reg 5, reg 6, imm 7),
    row!(8 Wide [(1 0)] "sub.w"; reg 5, reg 6, imm 7),
    row!(8 Wide [(1 1)] "subs.w"; reg 5, reg 6, imm 7),
    // DataImm Rsb: flags
    row!(9 Narrow [(1 2)] "rsbs"; reg 5, reg 6, imm 7),
    row!(9 Wide [(1 0)] "rsb.w"; reg 5, reg 6, imm 7),
    row!(9 Wide [(1 1)] "rsbs.w"; reg 5, reg 6, imm 7),
    // DataImm Mov: flags
    row!(10 Narrow [(1 2)] "movs"; reg 5, imm 7),
    row!(10 Wide [(1 0)] "mov.w"; reg 5, imm 7),
    row!(10 Wide [(1 1)] "movs.w"; reg 5, imm 7),
    // DataImm Mvn: flags
    row!(11 Wide [(1 0)] "mvn.w"; reg 5, imm 7),
    row!(11 Wide [(1 1)] "mvns.w"; reg 5, imm 7),
    // DataImm Tst: flags
    row!(12 Wide [(1 1)] "tst.w"; reg 6, imm 7),
    // DataImm Teq: flags
    row!(13 Wide [(1 1)] "teq"; reg 6, imm 7),
    // DataImm Cmn: flags
    row!(14 Wide [(1 1)] "cmn.w"; reg 6, imm 7),
    // DataImm Cmp: flags
    row!(15 Narrow [(1 1)] "cmp"; reg 6, imm 7),
    row!(15 Wide [(1 1)] "cmp.w"; reg 6, imm 7),
    // DataReg And: flags, shift
    row!(16 Narrow [(1 2)] "ands"; reg 5, reg 6, reg 7),
    row!(16 Wide [(1 0)] "and.w"; reg 5, reg 6, shifted 7 2 8),
    row!(16 Wide [(1 1)] "ands.w"; reg 5, reg 6, shifted 7 2 8),
    // DataReg Bic: flags, shift
    row!(17 Narrow [(1 2)] "bics"; reg 5, reg 6, reg 7),
    row!(17 Wide [(1 0)] "bic.w"; reg 5, reg 6, shifted 7 2 8),
    row!(17 Wide [(1 1)] "bics.w"; reg 5, reg 6, shifted 7 2 8),
    // DataReg Orr: flags, shift
    row!(18 Narrow [(1 2)] "orrs"; reg 5, reg 6, reg 7),
    row!(18 Wide [(1 0)] "orr.w"; reg 5, reg 6, shifted 7 2 8),
    row!(18 Wide [(1 1)] "orrs.w"; reg 5, reg 6, shifted 7 2 8),
    // DataReg Orn: flags, shift
    row!(19 Wide [(1 0)] "orn"; reg 5, reg 6, shifted 7 2 8),
    row!(19 Wide [(1 1)] "orns"; reg 5, reg 6, shifted 7 2 8),
    // DataReg Eor: flags, shift
    row!(20 Narrow [(1 2)] "eors"; reg 5, reg 6, reg 7),
    row!(20 Wide [(1 0)] "eor.w"; reg 5, reg 6, shifted 7 2 8),
    row!(20 Wide [(1 1)] "eors.w"; reg 5, reg 6, shifted 7 2 8),
    // DataReg Add: flags, shift
    row!(21 Narrow [(1 2)] "adds"; reg 5, reg 6, reg 7),
    row!(21 Narrow [(1 0)] "add"; reg 5, reg 6, reg 7),
    row!(21 Wide [(1 0)] "add.w"; reg 5, reg 6, shifted 7 2 8),
    row!(21 Wide [(1 1)] "adds.w"; reg 5, reg 6, shifted 7 2 8),
    // DataReg Adc: flags, shift
    row!(22 Narrow [(1 2)] "adcs"; reg 5, reg 6, reg 7),
    row!(22 Wide [(1 0)] "adc.w"; reg 5, reg 6, shifted 7 2 8),
    row!(22 Wide [(1 1)] "adcs.w"; reg 5, reg 6, shifted 7 2 8),
    // DataReg Sbc: flags, shift
    row!(23 Narrow [(1 2)] "sbcs"; reg 5, reg 6, reg 7),
    row!(23 Wide [(1 0)] "sbc.w"; reg 5, reg 6, shifted 7 2 8),
    row!(23 Wide [(1 1)] "sbcs.w"; reg 5, reg 6, shifted 7 2 8),
    // DataReg Sub: flags, shift
    row!(24 Narrow [(1 2)] "subs"; reg 5, reg 6, reg 7),
    row!(24 Wide [(1 0)] "sub.w"; reg 5, reg 6, shifted 7 2 8),
    row!(24 Wide [(1 1)] "subs.w"; reg 5, reg 6, shifted 7 2 8),
    // DataReg Rsb: flags, shift
    row!(25 Wide [(1 0)] "rsb.w"; reg 5, reg 6, shifted 7 2 8),
    row!(25 Wide [(1 1)] "rsbs.w"; reg 5, reg 6, shifted 7 2 8),
    // DataReg Mov: flags, shift
    row!(26 Narrow [(1 0)] "mov"; reg 5, reg 7),
    row!(26 Narrow [(1 2) (2 0) (8 0)] "movs"; reg 5, reg 7),
    row!(26 Narrow [(1 2) (2 0)] "lsls"; reg 5, reg 7, num 8),
    row!(26 Narrow [(1 2) (2 1)] "lsrs"; reg 5, reg 7, num 8),
    row!(26 Narrow [(1 2) (2 2)] "asrs"; reg 5, reg 7, num 8),
    row!(26 Wide [(1 0)] "mov.w"; reg 5, shifted 7 2 8),
    row!(26 Wide [(1 1)] "movs.w"; reg 5, shifted 7 2 8),
    // DataReg Mvn: flags, shift
    row!(27 Narrow [(1 2)] "mvns"; reg 5, reg 7),
    row!(27 Wide [(1 0)] "mvn.w"; reg 5, shifted 7 2 8),
    row!(27 Wide [(1 1)] "mvns.w"; reg 5, shifted 7 2 8),
    // DataReg Tst: flags, shift
    row!(28 Narrow [(1 1)] "tst"; reg 6, reg 7),
    row!(28 Wide [(1 1)] "tst.w"; reg 6, shifted 7 2 8),
    // DataReg Teq: flags, shift
    row!(29 Wide [(1 1)] "teq"; reg 6, shifted 7 2 8),
    // DataReg Cmn: flags, shift
    row!(30 Narrow [(1 1)] "cmn"; reg 6, reg 7),
    row!(30 Wide [(1 1)] "cmn.w"; reg 6, shifted 7 2 8),
    // DataReg Cmp: flags, shift
    row!(31 Narrow [(1 1)] "cmp"; reg 6, reg 7),
    row!(31 Wide [(1 1)] "cmp.w"; reg 6, shifted 7 2 8),
    // ShiftReg: kind, flags
    row!(32 Narrow [(1 0) (2 2)] "lsls"; reg 5, reg 6, reg 7),
    row!(32 Narrow [(1 1) (2 2)] "lsrs"; reg 5, reg 6, reg 7),
    row!(32 Narrow [(1 2) (2 2)] "asrs"; reg 5, reg 6, reg 7),
    row!(32 Narrow [(1 3) (2 2)] "rors"; reg 5, reg 6, reg 7),
    row!(32 Wide [(1 0) (2 0)] "lsl.w"; reg 5, reg 6, reg 7),
    row!(32 Wide [(1 0) (2 1)] "lsls.w"; reg 5, reg 6, reg 7),
    row!(32 Wide [(1 1) (2 0)] "lsr.w"; reg 5, reg 6, reg 7),
    row!(32 Wide [(1 1) (2 1)] "lsrs.w"; reg 5, reg 6, reg 7),
    row!(32 Wide [(1 2) (2 0)] "asr.w"; reg 5, reg 6, reg 7),
    row!(32 Wide [(1 2) (2 1)] "asrs.w"; reg 5, reg 6, reg 7),
    row!(32 Wide [(1 3) (2 0)] "ror.w"; reg 5, reg 6, reg 7),
    row!(32 Wide [(1 3) (2 1)] "rors.w"; reg 5, reg 6, reg 7),
    // AddWide: sub
    row!(33 Narrow [(1 0)] "add"; reg 5, reg 6, num 7),
    row!(33 Narrow [(1 1)] "sub"; reg 5, reg 6, num 7),
    row!(33 Wide [(1 0)] "addw"; reg 5, reg 6, num 7),
    row!(33 Wide [(1 1)] "subw"; reg 5, reg 6, num 7),
    // Adr
    row!(34 Narrow [] "adr"; reg 5, aligned 6),
    row!(34 Wide [] "adr.w"; reg 5, aligned 6),
    // MovWide: top
    row!(35 Wide [(1 0)] "movw"; reg 5, num 6),
    row!(35 Wide [(1 1)] "movt"; reg 5, num 6),
    // Saturate: signed, asr
    row!(36 Wide [(1 1) (2 0)] "ssat"; reg 5, num 7, left 6 8),
    row!(36 Wide [(1 1) (2 1)] "ssat"; reg 5, num 7, right 6 8),
    row!(36 Wide [(1 0) (2 0)] "usat"; reg 5, num 7, left 6 8),
    row!(36 Wide [(1 0) (2 1)] "usat"; reg 5, num 7, right 6 8),
    // BitField Sbfx
    row!(37 Wide [] "sbfx"; reg 5, reg 6, num 7, num 8),
    // BitField Ubfx
    row!(38 Wide [] "ubfx"; reg 5, reg 6, num 7, num 8),
    // BitField Bfi
    row!(39 Wide [] "bfi"; reg 5, reg 6, num 7, num 8),
    // BitField Bfc
    row!(40 Wide [] "bfc"; reg 5, num 7, num 8),
    // Extend Sxth
    row!(41 Narrow [] "sxth"; reg 5, reg 6),
    row!(41 Wide [] "sxth.w"; reg 5, rotated 6 7),
    // Extend Sxtb
    row!(42 Narrow [] "sxtb"; reg 5, reg 6),
    row!(42 Wide [] "sxtb.w"; reg 5, rotated 6 7),
    // Extend Uxth
    row!(43 Narrow [] "uxth"; reg 5, reg 6),
    row!(43 Wide [] "uxth.w"; reg 5, rotated 6 7),
    // Extend Uxtb
    row!(44 Narrow [] "uxtb"; reg 5, reg 6),
    row!(44 Wide [] "uxtb.w"; reg 5, rotated 6 7),
    // Reverse Rev
    row!(45 Narrow [] "rev"; reg 5, reg 6),
    row!(45 Wide [] "rev.w"; reg 5, reg 6),
    // Reverse Rev16
    row!(46 Narrow [] "rev16"; reg 5, reg 6),
    row!(46 Wide [] "rev16.w"; reg 5, reg 6),
    // Reverse Rbit
    row!(47 Wide [] "rbit"; reg 5, reg 6),
    // Reverse Revsh
    row!(48 Narrow [] "revsh"; reg 5, reg 6),
    row!(48 Wide [] "revsh.w"; reg 5, reg 6),
    // Reverse Clz
    row!(49 Wide [] "clz"; reg 5, reg 6),
    // Multiply Mul: flags
    row!(50 Narrow [(1 2)] "muls"; reg 5, reg 6, reg 7),
    row!(50 Wide [(1 0)] "mul.w"; reg 5, reg 6, reg 7),
    // Multiply Mla: flags
    row!(51 Wide [(1 0)] "mla"; reg 5, reg 6, reg 7, reg 8),
    // Multiply Mls: flags
    row!(52 Wide [(1 0)] "mls"; reg 5, reg 6, reg 7, reg 8),
    // MultiplyLong Smull
    row!(53 Wide [] "smull"; reg 5, reg 6, reg 7, reg 8),
    // MultiplyLong Umull
    row!(54 Wide [] "umull"; reg 5, reg 6, reg 7, reg 8),
    // MultiplyLong Smlal
    row!(55 Wide [] "smlal"; reg 5, reg 6, reg 7, reg 8),
    // MultiplyLong Umlal
    row!(56 Wide [] "umlal"; reg 5, reg 6, reg 7, reg 8),
    // Divide: signed
    row!(57 Wide [(1 1)] "sdiv"; reg 5, reg 6, reg 7),
    row!(57 Wide [(1 0)] "udiv"; reg 5, reg 6, reg 7),
    // Load: size, signed, address, user
    row!(58 Narrow [(1 2) (2 0) (3 1) (4 0)] "ldr"; reg 5, at 6 7),
    row!(58 Narrow [(1 0) (2 0) (3 1) (4 0)] "ldrb"; reg 5, at 6 7),
    row!(58 Narrow [(1 1) (2 0) (3 1) (4 0)] "ldrh"; reg 5, at 6 7),
    row!(58 Narrow [(1 2) (2 0) (3 0) (4 0)] "ldr"; reg 5, at_sum 6 7),
    row!(58 Narrow [(1 0) (2 0) (3 0) (4 0)] "ldrb"; reg 5, at_sum 6 7),
    row!(58 Narrow [(1 1) (2 0) (3 0) (4 0)] "ldrh"; reg 5, at_sum 6 7),
    row!(58 Narrow [(1 0) (2 1) (3 0) (4 0)] "ldrsb"; reg 5, at_sum 6 7),
    row!(58 Narrow [(1 1) (2 1) (3 0) (4 0)] "ldrsh"; reg 5, at_sum 6 7),
    row!(58 Narrow [(1 2) (2 0) (3 4) (4 0)] "ldr"; reg 5, at_pc 6),
    row!(58 Wide [(1 2) (2 0) (3 1) (4 0)] "ldr.w"; reg 5, at 6 7),
    row!(58 Wide [(1 2) (2 0) (3 0) (4 0)] "ldr.w"; reg 5, at_scaled 6 7 8),
    row!(58 Wide [(1 2) (2 0) (3 3) (4 0)] "ldr.w"; reg 5, at_pre 6 7),
    row!(58 Wide [(1 2) (2 0) (3 2) (4 0)] "ldr.w"; reg 5, at_base 6, num 7),
    row!(58 Wide [(1 2) (2 0) (3 4) (4 0)] "ldr.w"; reg 5, at_pc 6),
    row!(58 Wide [(1 0) (2 0) (3 1) (4 0)] "ldrb.w"; reg 5, at 6 7),
    row!(58 Wide [(1 0) (2 0) (3 0) (4 0)] "ldrb.w"; reg 5, at_scaled 6 7 8),
    row!(58 Wide [(1 0) (2 0) (3 3) (4 0)] "ldrb.w"; reg 5, at_pre 6 7),
    row!(58 Wide [(1 0) (2 0) (3 2) (4 0)] "ldrb.w"; reg 5, at_base 6, num 7),
    row!(58 Wide [(1 0) (2 0) (3 4) (4 0)] "ldrb.w"; reg 5, at_pc 6),
    row!(58 Wide [(1 1) (2 0) (3 1) (4 0)] "ldrh.w"; reg 5, at 6 7),
    row!(58 Wide [(1 1) (2 0) (3 0) (4 0)] "ldrh.w"; reg 5, at_scaled 6 7 8),
    row!(58 Wide [(1 1) (2 0) (3 3) (4 0)] "ldrh.w"; reg 5, at_pre 6 7),
    row!(58 Wide [(1 1) (2 0) (3 2) (4 0)] "ldrh.w"; reg 5, at_base 6, num 7),
    row!(58 Wide [(1 1) (2 0) (3 4) (4 0)] "ldrh.w"; reg 5, at_pc 6),
    row!(58 Wide [(1 0) (2 1) (3 1) (4 0)] "ldrsb.w"; reg 5, at 6 7),
    row!(58 Wide [(1 0) (2 1) (3 0) (4 0)] "ldrsb.w"; reg 5, at_scaled 6 7 8),
    row!(58 Wide [(1 0) (2 1) (3 3) (4 0)] "ldrsb.w"; reg 5, at_pre 6 7),
    row!(58 Wide [(1 0) (2 1) (3 2) (4 0)] "ldrsb.w"; reg 5, at_base 6, num 7),
    row!(58 Wide [(1 0) (2 1) (3 4) (4 0)] "ldrsb.w"; reg 5, at_pc 6),
    row!(58 Wide [(1 1) (2 1) (3 1) (4 0)] "ldrsh.w"; reg 5, at 6 7),
    row!(58 Wide [(1 1) (2 1) (3 0) (4 0)] "ldrsh.w"; reg 5, at_scaled 6 7 8),
    row!(58 Wide [(1 1) (2 1) (3 3) (4 0)] "ldrsh.w"; reg 5, at_pre 6 7),
    row!(58 Wide [(1 1) (2 1) (3 2) (4 0)] "ldrsh.w"; reg 5, at_base 6, num 7),
    row!(58 Wide [(1 1) (2 1) (3 4) (4 0)] "ldrsh.w"; reg 5, at_pc 6),
    row!(58 Wide [(1 2) (2 0) (3 1) (4 1)] "ldrt"; reg 5, at 6 7),
    row!(58 Wide [(1 0) (2 0) (3 1) (4 1)] "ldrbt"; reg 5, at 6 7),
    row!(58 Wide [(1 1) (2 0) (3 1) (4 1)] "ldrht"; reg 5, at 6 7),
    row!(58 Wide [(1 0) (2 1) (3 1) (4 1)] "ldrsbt"; reg 5, at 6 7),
    row!(58 Wide [(1 1) (2 1) (3 1) (4 1)] "ldrsht"; reg 5, at 6 7),
    // Store: size, address, user
    row!(59 Narrow [(1 2) (2 1) (3 0)] "str"; reg 5, at 6 7),
    row!(59 Narrow [(1 0) (2 1) (3 0)] "strb"; reg 5, at 6 7),
    row!(59 Narrow [(1 1) (2 1) (3 0)] "strh"; reg 5, at 6 7),
    row!(59 Narrow [(1 2) (2 0) (3 0)] "str"; reg 5, at_sum 6 7),
    row!(59 Narrow [(1 0) (2 0) (3 0)] "strb"; reg 5, at_sum 6 7),
    row!(59 Narrow [(1 1) (2 0) (3 0)] "strh"; reg 5, at_sum 6 7),
    row!(59 Wide [(1 2) (2 1) (3 0)] "str.w"; reg 5, at 6 7),
    row!(59 Wide [(1 2) (2 0) (3 0)] "str.w"; reg 5, at_scaled 6 7 8),
    row!(59 Wide [(1 2) (2 3) (3 0)] "str.w"; reg 5, at_pre 6 7),
    row!(59 Wide [(1 2) (2 2) (3 0)] "str.w"; reg 5, at_base 6, num 7),
    row!(59 Wide [(1 0) (2 1) (3 0)] "strb.w"; reg 5, at 6 7),
    row!(59 Wide [(1 0) (2 0) (3 0)] "strb.w"; reg 5, at_scaled 6 7 8),
    row!(59 Wide [(1 0) (2 3) (3 0)] "strb.w"; reg 5, at_pre 6 7),
    row!(59 Wide [(1 0) (2 2) (3 0)] "strb.w"; reg 5, at_base 6, num 7),
    row!(59 Wide [(1 1) (2 1) (3 0)] "strh.w"; reg 5, at 6 7),
    row!(59 Wide [(1 1) (2 0) (3 0)] "strh.w"; reg 5, at_scaled 6 7 8),
    row!(59 Wide [(1 1) (2 3) (3 0)] "strh.w"; reg 5, at_pre 6 7),
    row!(59 Wide [(1 1) (2 2) (3 0)] "strh.w"; reg 5, at_base 6, num 7),
    row!(59 Wide [(1 2) (2 1) (3 1)] "strt"; reg 5, at 6 7),
    row!(59 Wide [(1 0) (2 1) (3 1)] "strbt"; reg 5, at 6 7),
    row!(59 Wide [(1 1) (2 1) (3 1)] "strht"; reg 5, at 6 7),
    // LoadPair: address
    row!(60 Wide [(1 1)] "ldrd"; reg 5, reg 6, at 7 8),
    row!(60 Wide [(1 3)] "ldrd"; reg 5, reg 6, at_pre 7 8),
    row!(60 Wide [(1 2)] "ldrd"; reg 5, reg 6, at_base 7, num 8),
    row!(60 Wide [(1 4)] "ldrd"; reg 5, reg 6, at_pc 7),
    // StorePair: address
    row!(61 Wide [(1 1)] "strd"; reg 5, reg 6, at 7 8),
    row!(61 Wide [(1 3)] "strd"; reg 5, reg 6, at_pre 7 8),
    row!(61 Wide [(1 2)] "strd"; reg 5, reg 6, at_base 7, num 8),
    // LoadMany: down, back
    row!(62 Narrow [(1 0) (2 1) (5 13)] "pop"; list 6),
    row!(62 Narrow [(1 0) (2 1)] "ldm"; back 5, list 6),
    row!(62 Narrow [(1 0) (2 0)] "ldm"; reg 5, list 6),
    row!(62 Wide [(1 0) (2 1) (5 13)] "pop.w"; list 6),
    row!(62 Wide [(1 0) (2 1)] "ldm.w"; back 5, list 6),
    row!(62 Wide [(1 0) (2 0)] "ldm.w"; reg 5, list 6),
    row!(62 Wide [(1 1) (2 1)] "ldmdb"; back 5, list 6),
    row!(62 Wide [(1 1) (2 0)] "ldmdb"; reg 5, list 6),
    // StoreMany: down, back
    row!(63 Narrow [(1 1) (2 1) (5 13)] "push"; list 6),
    row!(63 Narrow [(1 0) (2 1)] "stm"; back 5, list 6),
    row!(63 Wide [(1 1) (2 1) (5 13)] "push.w"; list 6),
    row!(63 Wide [(1 0) (2 1)] "stm.w"; back 5, list 6),
    row!(63 Wide [(1 0) (2 0)] "stm.w"; reg 5, list 6),
    row!(63 Wide [(1 1) (2 1)] "stmdb"; back 5, list 6),
    row!(63 Wide [(1 1) (2 0)] "stmdb"; reg 5, list 6),
    // Preload
    row!(64 Wide [] "pld"),
    // LoadExclusive: size, acquire
    row!(65 Wide [(1 2) (2 0)] "ldrex"; reg 5, at 6 7),
    row!(65 Wide [(1 0) (2 0)] "ldrexb"; reg 5, at_base 6),
    row!(65 Wide [(1 1) (2 0)] "ldrexh"; reg 5, at_base 6),
    row!(65 Wide [(1 2) (2 1)] "ldaex"; reg 5, at_base 6),
    row!(65 Wide [(1 0) (2 1)] "ldaexb"; reg 5, at_base 6),
    row!(65 Wide [(1 1) (2 1)] "ldaexh"; reg 5, at_base 6),
    // StoreExclusive: size, release
    row!(66 Wide [(1 2) (2 0)] "strex"; reg 5, reg 6, at 7 8),
    row!(66 Wide [(1 0) (2 0)] "strexb"; reg 5, reg 6, at_base 7),
    row!(66 Wide [(1 1) (2 0)] "strexh"; reg 5, reg 6, at_base 7),
    row!(66 Wide [(1 2) (2 1)] "stlex"; reg 5, reg 6, at_base 7),
    row!(66 Wide [(1 0) (2 1)] "stlexb"; reg 5, reg 6, at_base 7),
    row!(66 Wide [(1 1) (2 1)] "stlexh"; reg 5, reg 6, at_base 7),
    // LoadAcquire: size
    row!(67 Wide [(1 2)] "lda"; reg 5, at_base 6),
    row!(67 Wide [(1 0)] "ldab"; reg 5, at_base 6),
    row!(67 Wide [(1 1)] "ldah"; reg 5, at_base 6),
    // StoreRelease: size
    row!(68 Wide [(1 2)] "stl"; reg 5, at_base 6),
    row!(68 Wide [(1 0)] "stlb"; reg 5, at_base 6),
    row!(68 Wide [(1 1)] "stlh"; reg 5, at_base 6),
    // Branch
    row!(69 Narrow [] "b"; target 5),
    row!(69 Wide [] "b.w"; target 5),
    // BranchIf
    row!(70 Narrow [(5 0)] "beq"; target 6),
    row!(70 Narrow [(5 1)] "bne"; target 6),
    row!(70 Narrow [(5 2)] "bcs"; target 6),
    row!(70 Narrow [(5 3)] "bcc"; target 6),
    row!(70 Narrow [(5 4)] "bmi"; target 6),
    row!(70 Narrow [(5 5)] "bpl"; target 6),
    row!(70 Narrow [(5 6)] "bvs"; target 6),
    row!(70 Narrow [(5 7)] "bvc"; target 6),
    row!(70 Narrow [(5 8)] "bhi"; target 6),
    row!(70 Narrow [(5 9)] "bls"; target 6),
    row!(70 Narrow [(5 10)] "bge"; target 6),
    row!(70 Narrow [(5 11)] "blt"; target 6),
    row!(70 Narrow [(5 12)] "bgt"; target 6),
    row!(70 Narrow [(5 13)] "ble"; target 6),
    row!(70 Wide [(5 0)] "beq.w"; target 6),
    row!(70 Wide [(5 1)] "bne.w"; target 6),
    row!(70 Wide [(5 2)] "bcs.w"; target 6),
    row!(70 Wide [(5 3)] "bcc.w"; target 6),
    row!(70 Wide [(5 4)] "bmi.w"; target 6),
    row!(70 Wide [(5 5)] "bpl.w"; target 6),
    row!(70 Wide [(5 6)] "bvs.w"; target 6),
    row!(70 Wide [(5 7)] "bvc.w"; target 6),
    row!(70 Wide [(5 8)] "bhi.w"; target 6),
    row!(70 Wide [(5 9)] "bls.w"; target 6),
    row!(70 Wide [(5 10)] "bge.w"; target 6),
    row!(70 Wide [(5 11)] "blt.w"; target 6),
    row!(70 Wide [(5 12)] "bgt.w"; target 6),
    row!(70 Wide [(5 13)] "ble.w"; target 6),
    // BranchLink
    row!(71 Wide [] "bl"; target 5),
    // BranchZero: nonzero
    row!(72 Narrow [(1 0)] "cbz"; reg 5, target 6),
    row!(72 Narrow [(1 1)] "cbnz"; reg 5, target 6),
    // TableBranch: half
    row!(73 Wide [(1 0)] "tbb"; at_sum 5 6),
    row!(73 Wide [(1 1)] "tbh"; at_doubled 5 6),
    // BranchExchange: ns
    row!(74 Narrow [(1 0)] "bx"; reg 5),
    row!(74 Narrow [(1 1)] "bxns"; reg 5),
    // CallExchange: ns
    row!(75 Narrow [(1 0)] "blx"; reg 5),
    row!(75 Narrow [(1 1)] "blxns"; reg 5),
    // IfThen
    row!(76 Narrow [] "it"; letters 5 6; condition 5),
    // Hint
    row!(77 Narrow [(5 0)] "nop"),
    row!(77 Narrow [(5 1)] "yield"),
    row!(77 Narrow [(5 2)] "wfe"),
    row!(77 Narrow [(5 3)] "wfi"),
    row!(77 Narrow [(5 4)] "sev"),
    row!(77 Narrow [] "hint"; num 5),
    row!(77 Wide [(5 0)] "nop.w"),
    row!(77 Wide [(5 1)] "yield.w"),
    row!(77 Wide [(5 2)] "wfe.w"),
    row!(77 Wide [(5 3)] "wfi.w"),
    row!(77 Wide [(5 4)] "sev.w"),
    row!(77 Wide [] "hint.w"; num 5),
    // Barrier Clrex, with the one option of its code
    row!(78 Wide [(5 15)] "clrex"),
    // Barrier Dsb
    row!(79 Wide [] "dsb"; num 5),
    // Barrier Dmb
    row!(80 Wide [] "dmb"; num 5),
    // Barrier Isb
    row!(81 Wide [] "isb"; num 5),
    // ChangeState: disable, i, f
    row!(82 Narrow [(1 0)] "cpsie"; masks 2 3),
    row!(82 Narrow [(1 1)] "cpsid"; masks 2 3),
    // ReadSpecial
    row!(83 Wide [] "mrs"; reg 5, special 6),
    // WriteSpecial
    row!(84 Wide [] "msr"; special 6, reg 5),
    // TestTarget: a, t
    row!(85 Wide [(1 0) (2 0)] "tt"; reg 5, reg 6),
    row!(85 Wide [(1 0) (2 1)] "ttt"; reg 5, reg 6),
    row!(85 Wide [(1 1) (2 0)] "tta"; reg 5, reg 6),
    row!(85 Wide [(1 1) (2 1)] "ttat"; reg 5, reg 6),
    // SecureGateway
    row!(86 Wide [] "sg"),
    // LazyState: load
    row!(87 Wide [(1 0)] "vlstm"; reg 5),
    row!(87 Wide [(1 1)] "vlldm"; reg 5),
    // Supervisor
    row!(88 Narrow [] "svc"; num 5),
    // Breakpoint
    row!(89 Narrow [] "bkpt"; num 5),
    // Undefined
    row!(90 Narrow [] "udf"; num 5),
    row!(90 Wide [] "udf.w"; num 5),
];

/// Where the rows of 16 bits and those of 32 bits of each form begin; 0 where there are none.
pub static STARTS: [(u16, u16); 91] = [
    (0, 0),
    (0, 2),
    (0, 4),
    (0, 6),
    (0, 8),
    (10, 11),
    (0, 13),
    (0, 15),
    (17, 18),
    (20, 21),
    (23, 24),
    (0, 26),
    (0, 28),
    (0, 29),
    (0, 30),
    (31, 32),
    (33, 34),
    (36, 37),
    (39, 40),
    (0, 42),
    (44, 45),
    (47, 49),
    (51, 52),
    (54, 55),
    (57, 58),
    (0, 60),
    (62, 67),
    (69, 70),
    (72, 73),
    (0, 74),
    (75, 76),
    (77, 78),
    (79, 83),
    (91, 93),
    (95, 96),
    (0, 97),
    (0, 99),
    (0, 103),
    (0, 104),
    (0, 105),
    (0, 106),
    (107, 108),
    (109, 110),
    (111, 112),
    (113, 114),
    (115, 116),
    (117, 118),
    (0, 119),
    (120, 121),
    (0, 122),
    (123, 124),
    (0, 125),
    (0, 126),
    (0, 127),
    (0, 128),
    (0, 129),
    (0, 130),
    (0, 131),
    (133, 142),
    (172, 178),
    (0, 193),
    (0, 197),
    (200, 203),
    (208, 210),
    (0, 215),
    (0, 216),
    (0, 222),
    (0, 228),
    (0, 231),
    (234, 235),
    (236, 250),
    (0, 264),
    (265, 0),
    (0, 267),
    (269, 0),
    (271, 0),
    (273, 0),
    (274, 280),
    (0, 286),
    (0, 287),
    (0, 288),
    (0, 289),
    (290, 0),
    (0, 292),
    (0, 293),
    (0, 294),
    (0, 298),
    (0, 299),
    (301, 0),
    (302, 0),
    (303, 304),
];

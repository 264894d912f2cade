//! The instructions, named as DDI0553, chapter C2, has them.
//!
//! A register is its number, 0 to 15 (13 is SP, 14 is LR, 15 is PC). A field that a form doesn't use
//! is 0. `Insn` derives nothing but `Clone` and `Copy`: comparing 43 variants is dear to prove, and no
//! call compares two instructions.

use crate::units::{Shift, Size};

/// Whether a data instruction sets the flags.
#[derive(Clone, Copy)]
pub enum Flags {
    Never,
    Always,
    /// Outside an IT block alone.
    OutsideIt,
}

/// Where a load or a store reads or writes.
#[derive(Clone, Copy)]
pub enum Address {
    /// Register plus offset.
    Offset { rn: u8, offset: i32 },
    /// Register plus offset, which the register then holds.
    Pre { rn: u8, offset: i32 },
    /// The register, which then grows by the offset.
    Post { rn: u8, offset: i32 },
    /// Register plus register shifted left by `amount`.
    Index { rn: u8, rm: u8, amount: u8 },
    /// The instruction's address plus 4, aligned to 4, plus offset.
    Literal { offset: i32 },
}

/// The operation of a data instruction.
#[derive(Clone, Copy)]
pub enum DataOp {
    And,
    Bic,
    Orr,
    Orn,
    Eor,
    Add,
    Adc,
    Sbc,
    Sub,
    Rsb,
    Mov,
    Mvn,
    Tst,
    Teq,
    Cmn,
    Cmp,
}

/// The operation of a bit field instruction.
#[derive(Clone, Copy)]
pub enum FieldOp {
    Sbfx,
    Ubfx,
    Bfi,
    Bfc,
}

/// The operation of an extension.
#[derive(Clone, Copy)]
pub enum ExtendOp {
    Sxth,
    Sxtb,
    Uxth,
    Uxtb,
}

/// The operation of a reversal or a count of leading zeros.
#[derive(Clone, Copy)]
pub enum ReverseOp {
    Rev,
    Rev16,
    Rbit,
    Revsh,
    Clz,
}

/// The operation of a multiplication with a result of 32 bits.
#[derive(Clone, Copy)]
pub enum MultiplyOp {
    Mul,
    Mla,
    Mls,
}

/// The operation of a multiplication with a result of 64 bits.
#[derive(Clone, Copy)]
pub enum LongOp {
    Smull,
    Umull,
    Smlal,
    Umlal,
}

/// A barrier, or the clearing of the exclusive monitor.
#[derive(Clone, Copy)]
pub enum BarrierOp {
    Clrex,
    Dsb,
    Dmb,
    Isb,
}

/// An instruction.
#[derive(Clone, Copy)]
pub enum Insn {
    // Data processing.
    DataImm {
        op: DataOp,
        flags: Flags,
        rd: u8,
        rn: u8,
        imm12: u16,
    },
    DataReg {
        op: DataOp,
        flags: Flags,
        rd: u8,
        rn: u8,
        rm: u8,
        shift: Shift,
        amount: u8,
    },
    ShiftReg {
        kind: Shift,
        flags: Flags,
        rd: u8,
        rn: u8,
        rm: u8,
    },
    AddWide {
        sub: bool,
        rd: u8,
        rn: u8,
        imm: u16,
    },
    Adr {
        rd: u8,
        offset: i32,
    },
    MovWide {
        top: bool,
        rd: u8,
        imm: u16,
    },
    Saturate {
        signed: bool,
        rd: u8,
        rn: u8,
        bits: u8,
        asr: bool,
        amount: u8,
    },
    BitField {
        op: FieldOp,
        rd: u8,
        rn: u8,
        low: u8,
        width: u8,
    },
    Extend {
        op: ExtendOp,
        rd: u8,
        rm: u8,
        rotate: u8,
    },
    Reverse {
        op: ReverseOp,
        rd: u8,
        rm: u8,
    },
    Multiply {
        op: MultiplyOp,
        flags: Flags,
        rd: u8,
        rn: u8,
        rm: u8,
        ra: u8,
    },
    MultiplyLong {
        op: LongOp,
        lo: u8,
        hi: u8,
        rn: u8,
        rm: u8,
    },
    Divide {
        signed: bool,
        rd: u8,
        rn: u8,
        rm: u8,
    },

    // Loads and stores.
    Load {
        size: Size,
        signed: bool,
        rt: u8,
        address: Address,
        user: bool,
    },
    Store {
        size: Size,
        rt: u8,
        address: Address,
        user: bool,
    },
    LoadPair {
        rt: u8,
        rt2: u8,
        address: Address,
    },
    StorePair {
        rt: u8,
        rt2: u8,
        address: Address,
    },
    LoadMany {
        rn: u8,
        list: u16,
        down: bool,
        back: bool,
    },
    StoreMany {
        rn: u8,
        list: u16,
        down: bool,
        back: bool,
    },
    Preload,
    LoadExclusive {
        size: Size,
        acquire: bool,
        rt: u8,
        rn: u8,
        offset: i32,
    },
    StoreExclusive {
        size: Size,
        release: bool,
        rd: u8,
        rt: u8,
        rn: u8,
        offset: i32,
    },
    LoadAcquire {
        size: Size,
        rt: u8,
        rn: u8,
    },
    StoreRelease {
        size: Size,
        rt: u8,
        rn: u8,
    },

    // Branches.
    Branch {
        offset: i32,
    },
    BranchIf {
        cond: u8,
        offset: i32,
    },
    BranchLink {
        offset: i32,
    },
    BranchZero {
        nonzero: bool,
        rn: u8,
        offset: i32,
    },
    TableBranch {
        half: bool,
        rn: u8,
        rm: u8,
    },
    BranchExchange {
        rm: u8,
        ns: bool,
    },
    CallExchange {
        rm: u8,
        ns: bool,
    },
    IfThen {
        cond: u8,
        mask: u8,
    },

    // System.
    Hint {
        op: u8,
    },
    Barrier {
        op: BarrierOp,
        option: u8,
    },
    ChangeState {
        disable: bool,
        i: bool,
        f: bool,
    },
    ReadSpecial {
        rd: u8,
        sysm: u8,
    },
    WriteSpecial {
        rn: u8,
        sysm: u8,
    },
    TestTarget {
        a: bool,
        t: bool,
        rd: u8,
        rn: u8,
    },
    SecureGateway,
    LazyState {
        load: bool,
        rn: u8,
    },
    Supervisor {
        imm: u16,
    },
    Breakpoint {
        imm: u16,
    },
    Undefined {
        imm: u16,
    },
}

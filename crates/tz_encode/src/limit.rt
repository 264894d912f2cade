//! What a field may be beside the fields before it, where its bits could hold more.
//!
//! A place in a limit is that of an earlier field.

/// Which values a field may have. Registers are numbers: 13 is SP, 15 is PC.
#[derive(Clone, Copy)]
pub enum Limit {
    /// All.
    Any,
    /// Those below a number.
    Below(u32),
    /// All but 0.
    NonZero,
    /// Neither SP nor PC.
    Plain,
    NotPc,
    NotSp,
    /// Not PC beside PC.
    NotBothPc(u8),
    /// Not PC, and not below 8 beside a register below 8.
    HighOperand(u8),
    /// Not PC, and not SP where the bit NS is set.
    Target(u8),
    /// 1, or beside a 1.
    Either(u8),
    /// Not 0, and a single bit beside the condition AL.
    ItMask(u8),
    /// Not empty; of the listed registers the base comes first, if it is one of them.
    StoreList(u8),
    /// Not empty; lists the base at the second place exactly where the first place has 0.
    LoadList(u8, u8),
    /// At least two registers, not both LR and PC, and not the base at the second place where the first
    /// place has 1.
    ManyList(u8, u8),
    /// Neither SP nor PC nor the register at that place.
    PlainOther(u8),
    /// Neither PC nor the register at that place.
    BaseOther(u8),
    /// Not PC; where the address at the first place writes back, neither of the registers at the others.
    PairBase(u8, u8, u8),
    /// The result of a sum: neither PC, nor SP where its register is shifted otherwise than left.
    SumResult(u8),
    /// The first operand of a sum with this result: not PC; SP where the result is SP.
    SumOperand(u8),
    /// The amount of a sum with this result: at most 3 where that is SP.
    SumAmount(u8),
    /// The result of a move with these flags and this shift: SP only where it shifts and sets nothing.
    MoveResult(u8, u8),
    /// The source of such a move; SP then only where the result, at the third place, isn't.
    MoveSource(u8, u8, u8),
    /// The amount of a move between these registers: 0 where one is SP.
    MoveAmount(u8, u8),
    /// Twelve bits that are a constant (`T32ExpandImm_C`).
    Constant,
    /// Not 0 where the shift is ASR.
    Saturation(u8),
    /// The width of a field that begins at that place's bit and ends below bit 32.
    WidthFrom(u8),
    /// The number of a special register (SYSm).
    Special,
    /// A sign of a load of that size: none of a word.
    LoadSign(u8),
    /// The register of a load of that size: a byte or a half not into SP or PC.
    LoadResult(u8),
    /// The register of a store of that size: no PC, and SP only of a word.
    StoreSource(u8),
}

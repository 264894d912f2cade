//! Instructions that are tried, of which a number or an address is left open, and texts of some.

use crate::tests::doubles::hold;
use tz_syntax::instruction_text;
use tz_table::{Address, DataOp, Flags, Insn, Size, Width};

/// ADDS rd, rn, #imm12.
pub fn add(rd: u8, rn: u8, imm12: u16) -> Insn {
    Insn::DataImm {
        op: DataOp::Add,
        flags: Flags::OutsideIt,
        rd,
        rn,
        imm12,
    }
}

/// MOVS r0, #imm12.
pub fn mov(imm12: u16) -> Insn {
    Insn::DataImm {
        op: DataOp::Mov,
        flags: Flags::OutsideIt,
        rd: 0,
        rn: 0,
        imm12,
    }
}

/// STREX rd, r3, [r2, #16].
pub fn store_exclusive(rd: u8) -> Insn {
    Insn::StoreExclusive {
        size: Size::Word,
        release: false,
        rd,
        rt: 3,
        rn: 2,
        offset: 16,
    }
}

/// TT rd, r2.
pub fn test_target(rd: u8) -> Insn {
    Insn::TestTarget {
        a: false,
        t: false,
        rd,
        rn: 2,
    }
}

/// LDRD r0, r1 from the address.
pub fn load_pair(address: Address) -> Insn {
    Insn::LoadPair {
        rt: 0,
        rt2: 1,
        address,
    }
}

#[test]
fn texts(rt: HostRuntime) {
    let back = Insn::Branch { offset: -4 };
    let texts = [
        (mov(5), Width::Narrow, 0x0020_0040, "movs r0, #5"),
        (back, Width::Narrow, 0x0020_0042, "b 0x00200042"),
        (test_target(0), Width::Wide, 0, "tt r0, r2"),
        (
            store_exclusive(0),
            Width::Wide,
            0,
            "strex r0, r3, [r2, #16]",
        ),
    ];
    for (insn, width, pc, text) in texts.iter() {
        let found = instruction_text(insn, *width, *pc);
        hold(&rt, found.as_str() == *text, text);
    }
}

//! Refusals that were worked by hand from the rows of the table.

use crate::tests::instructions::{add, load_pair, mov, store_exclusive, test_target};
use tz_encode::{EncodeError, FieldName, encode};
use tz_table::{Address, Insn, Width};

#[test]
fn no_form(rt: HostRuntime) {
    let index = Address::Index {
        rn: 2,
        rm: 3,
        amount: 0,
    };
    for (insn, width) in [
        (mov(5), Width::Wide),
        (Insn::SecureGateway, Width::Narrow),
        (test_target(1), Width::Narrow),
        (load_pair(index), Width::Wide),
        (Insn::IfThen { cond: 0, mask: 8 }, Width::Wide),
    ] {
        assert!(rt; encode(&insn, width) == Err(EncodeError::NoForm));
    }
}

#[test]
fn out_of_range(rt: HostRuntime) {
    for (insn, width, name) in [
        (mov(256), Width::Narrow, FieldName::Imm12),
        // The last row of the form wants one register for both; the first holds the registers, not 8.
        (add(0, 1, 8), Width::Narrow, FieldName::Rn),
        (add(8, 8, 1), Width::Narrow, FieldName::Rd),
        (store_exclusive(2), Width::Wide, FieldName::Rn),
        (store_exclusive(13), Width::Wide, FieldName::Rd),
        (test_target(13), Width::Wide, FieldName::Rd),
        (Insn::Branch { offset: 1 }, Width::Narrow, FieldName::Offset),
        (Insn::Hint { op: 16 }, Width::Narrow, FieldName::Op),
        (
            Insn::WriteSpecial { rn: 13, sysm: 4 },
            Width::Wide,
            FieldName::Rn,
        ),
        (
            Insn::WriteSpecial { rn: 0, sysm: 4 },
            Width::Wide,
            FieldName::Sysm,
        ),
    ] {
        assert!(rt; encode(&insn, width) == Err(EncodeError::Range(name)));
    }
}

//! An addition and a load, field by field.

use tz_bits::{FieldName, field_name, values};
use tz_table::{Address, DataOp, Flags, Insn, Shift, Size};

#[test]
fn numbers_of_an_addition(rt: HostRuntime) {
    let insn = Insn::DataReg {
        op: DataOp::Add,
        flags: Flags::OutsideIt,
        rd: 4,
        rn: 5,
        rm: 6,
        shift: Shift::Lsr,
        amount: 7,
    };
    assert!(rt; values(&insn) == [21, 2, 1, 0, 0, 4, 5, 6, 7]);
    let names = [
        (0, Some(FieldName::Rd)),
        (3, Some(FieldName::Amount)),
        (4, None),
    ];
    for (index, name) in names {
        assert!(rt; field_name(&insn, index) == name);
    }
}

#[test]
fn numbers_of_a_literal_load(rt: HostRuntime) {
    let insn = Insn::Load {
        size: Size::Half,
        signed: true,
        rt: 3,
        address: Address::Literal { offset: -20 },
        user: false,
    };
    assert!(rt; values(&insn) == [58, 1, 1, 4, 0, 3, -20, 0, 0]);
    let names = [
        (0, Some(FieldName::Rt)),
        (1, Some(FieldName::Offset)),
        (2, None),
    ];
    for (index, name) in names {
        assert!(rt; field_name(&insn, index) == name);
    }
}

//! The codes of 32 bits, by their leading bits, and those of coprocessors.

ghost use Rattle.std.specs.Prelude.{◌≡◌, ◌≤◌};
ghost use Rattle.tz_table.specs.Fields.{bits};
ghost use Rattle.tz_table.specs.Table.{decode_of};

use crate::arithmetic::arithmetic;
use crate::branches::branches;
use crate::constants::{constants, plain_constants};
use crate::fields::{field, long_field};
use crate::loads::transfers;
use crate::multiples::multiples;
use crate::registers::registers;
use tz_table::{Decoded, Insn, Width};

/// The codes of 32 bits.
#[tactic(auto, using(crate::proofs::WideLaws::wide))]
pub fn wide(first: u16, second: u16) -> Decoded
    requires { 0xe800 ≤ first }
    ensures { result ≡ decode_of first second }
{
    match field(first, 11, 5) {
        29 => match field(first, 9, 2) {
            0 => multiples(first, second),
            1 => registers(first, second),
            _ => lazy_state(first, second),
        },
        30 => {
            if field(second, 15, 1) == 1 {
                branches(first, second)
            } else if field(first, 9, 1) == 0 {
                constants(first, second)
            } else {
                plain_constants(first, second)
            }
        }
        _ => match field(first, 9, 2) {
            0 => transfers(first, second),
            1 => arithmetic(first, second),
            _ => Decoded::NoCoprocessor,
        },
    }
}

/// The codes 111011, which belong to coprocessors but for VLSTM and VLLDM.
#[tactic(auto, using(crate::proofs::WideLaws::lazy_state))]
fn lazy_state(first: u16, second: u16) -> Decoded
    requires { bits first 10 6 ≡ 59 }
    ensures { result ≡ decode_of first second }
{
    let rn = field(first, 0, 4);
    if long_field(first, 5, 11) != 0x761 {
        Decoded::NoCoprocessor
    } else if long_field(second, 0, 16) != 0x0a00 {
        Decoded::NoCoprocessor
    } else if rn == 15 {
        Decoded::NoCoprocessor
    } else {
        let load = field(first, 4, 1) == 1;
        Decoded::One(Insn::LazyState { load, rn }, Width::Wide)
    }
}

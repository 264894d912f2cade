//! IT blocks and conditions.

use crate::words::{tell_flag, tell_number};
use tz_regs::{Apsr, Core};
use tz_testing::Case;

/// Steps of an IT block: `it begin COND MASK`, `it advance`, and `it show`, which shows IT, whether it is in a block,
/// and whether in the last instruction of one.
pub fn step(core: &mut Core, case: &mut Case<'_>) {
    let registers = &mut core.registers;
    match case.word(1) {
        "begin" => registers.begin_it(case.byte(2), case.byte(3)),
        "advance" => registers.advance_it(),
        "show" => {
            tell_number(case, u32::from(registers.it));
            tell_flag(case, registers.in_it_block());
            tell_flag(case, registers.is_last_in_it_block());
        }
        _ => case.refuse(),
    }
}

/// Shows the flags that meet a condition: `met COND`. Bit `8 n + 4 z + 2 c + v` is set where N, Z, C and V meet it.
pub fn met(case: &mut Case<'_>) {
    let cond = case.byte(1);
    let mut met = 0u32;
    for flags in 0..16u32 {
        let apsr = Apsr {
            n: flags / 8 % 2 == 1,
            z: flags / 4 % 2 == 1,
            c: flags / 2 % 2 == 1,
            v: flags % 2 == 1,
            q: false,
        };
        if apsr.condition_holds(cond) {
            met |= 1 << flags;
        }
    }
    tell_number(case, met);
}

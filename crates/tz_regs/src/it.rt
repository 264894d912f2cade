//! The IT state.

ghost use Rattle.std.specs.Prelude.{◌≡◌};
ghost use Rattle.tz_regs.specs.ItState.{in_it_block, is_last_in_it_block, it_advanced, it_of, pair_holds, condition_holds};

use crate::parts::{Apsr, Registers};

impl Apsr {
    /// The first of a pair of conditions.
    fn pair_holds(&self, pair: u8) -> bool
        ensures { result ≡ pair_holds pair self.now }
    {
        match pair {
            0 => self.z,
            1 => self.c,
            2 => self.n,
            3 => self.v,
            4 => self.c && !self.z,
            5 => self.n == self.v,
            6 => !self.z && self.n == self.v,
            _ => true,
        }
    }

    /// Whether a condition holds, 0 to 15 (DDI0553, `ConditionHolds`).
    pub fn condition_holds(&self, cond: u8) -> bool
        ensures { result ≡ condition_holds cond self.now }
    {
        let holds = self.pair_holds(cond / 2);
        if cond % 2 == 1 && cond != 15 {
            !holds
        } else {
            holds
        }
    }
}

impl Registers {
    /// Whether code is in an IT block.
    pub fn in_it_block(&self) -> bool
        ensures { result ≡ in_it_block self.now.it }
    {
        self.it % 16 != 0
    }

    /// Whether the instruction is the last of its IT block.
    pub fn is_last_in_it_block(&self) -> bool
        ensures { result ≡ is_last_in_it_block self.now.it }
    {
        self.it % 16 == 8
    }

    /// Moves the IT state on by an instruction (DDI0553, `ITAdvance`).
    pub fn advance_it(&mut self)
        ensures { self.new ≡ record self.old { it = it_advanced self.old.it } }
    {
        self.it = if self.it % 8 == 0 {
            0
        } else {
            self.it / 32 * 32 + self.it % 16 * 2 % 32
        };
    }

    /// Begins an IT block.
    pub fn begin_it(&mut self, cond: u8, mask: u8)
        ensures { self.new ≡ record self.old { it = it_of cond mask } }
    {
        self.it = ((u32::from(cond) * 16 + u32::from(mask)) % 256) as u8;
    }
}

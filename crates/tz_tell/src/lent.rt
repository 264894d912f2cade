//! A state in its parts, lent to what tells of it.

ghost use Rattle.std.specs.Prelude.{◌≡◌};

use std::marker::Model;
use tz_access::Bus;
use tz_model::Board;
use tz_nvic::Exceptions;
use tz_regs::Core;

/// The parts of a state: whoever tells of a state needs no more of the machine than these, and changes none of them.
#[derive(Drop)]
pub struct LentState<'a> {
    core: &'a Core,
    exceptions: &'a Exceptions,
    bus: &'a Bus,
}

impl<'a> Model for LentState<'a> {
    ghost use Rattle.std.specs.FinMap as map;
    ghost use Rattle.std.specs.Ordering.{nat_cmp};
    ghost use Rattle.std.specs.Coded.{codes, coded_ℕ};
    ghost use Rattle.tz_state.specs.State.{State};

    ghost Value = { State };

    ghost coded = { Prim.hlevel (codes, map.code {R = nat_cmp} coded_ℕ coded_ℕ) };

    ghost view = { λ s. record { core = s.core.now; exceptions = s.exceptions.now; bus = s.bus.now.state } };
}

impl<'a> LentState<'a> {
    /// The state that has these parts.
    pub fn new(core: &'a Core, exceptions: &'a Exceptions, bus: &'a Bus) -> LentState<'a>
        ensures { result ≡ record { core = core.now; exceptions = exceptions.now; bus = bus.now.state } }
    {
        LentState {
            core,
            exceptions,
            bus,
        }
    }

    /// The board.
    pub fn board(&self) -> &'a Board
        ensures { result.now ≡ self.now.bus.board }
    {
        self.bus.board()
    }

    /// The core.
    pub fn core(&self) -> &'a Core
        ensures { result.now ≡ self.now.core }
    {
        self.core
    }

    /// The exceptions, with both timers.
    pub fn exceptions(&self) -> &'a Exceptions
        ensures { result.now ≡ self.now.exceptions }
    {
        self.exceptions
    }

    /// Memory, with the units that guard it.
    pub fn bus(&self) -> &'a Bus
        ensures { result.now.state ≡ self.now.bus }
    {
        self.bus
    }
}

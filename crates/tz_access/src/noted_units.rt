//! The registers of the units that guard memory, noted and put back. No memory is taken.

ghost use Rattle.std.specs.Prelude.{◌≡◌};
ghost use Rattle.tz_access.specs.Units.{reset_units, units_of, with_units};

use crate::bus::Bus;
use std::marker::Model;
use tz_model::Board;
use tz_mpu::Mpu;
use tz_sau::Sau;
use tz_state::Exclusive;

/// The registers of the SAU and of both MPUs, with what the exclusive monitor holds.
#[derive(Drop)]
pub struct Units {
    sau: Sau,
    mpu_s: Mpu,
    mpu_ns: Mpu,
    monitor: Option<Exclusive>,
}

impl Model for Units {
    ghost use Rattle.tz_access.specs.Units.{UnitsValue};

    ghost Value = { UnitsValue };

    ghost view = { λ u. record {
      sau = u.sau.sau;
      mpu_s = u.mpu_s.mpu;
      mpu_ns = u.mpu_ns.mpu;
      monitor = u.monitor;
    } };
}

impl Units {
    /// Those of a board as it starts, with which the monitor holds nothing.
    pub fn new(board: &Board) -> Units
        ensures { result ≡ reset_units board.now }
    {
        Units {
            sau: Sau::new(board),
            mpu_s: Mpu::new(board.mpu_secure, board.profile),
            mpu_ns: Mpu::new(board.mpu_nonsecure, board.profile),
            monitor: None,
        }
    }
}

impl Bus {
    /// Notes the registers of the units, and what the monitor holds.
    pub fn note_units(&self, units: &mut Units)
        ensures { units.new ≡ units_of self.now.state }
    {
        units.sau.copy_registers(&self.sau);
        units.mpu_s.copy_registers(&self.mpu_s);
        units.mpu_ns.copy_registers(&self.mpu_ns);
        units.monitor = self.monitor;
    }

    /// Puts back the registers of the units, and what the monitor holds.
    pub fn put_units(&mut self, units: &Units)
        ensures { self.new.state ≡ with_units self.old.state units.now }
    {
        self.sau.copy_registers(&units.sau);
        self.mpu_s.copy_registers(&units.mpu_s);
        self.mpu_ns.copy_registers(&units.mpu_ns);
        self.monitor = units.monitor;
        let attribution = self.sau.take_changed();
        let protection = self.mpu_s.take_changed() | self.mpu_ns.take_changed();
        self.kept.empty_where(attribution | protection);
    }
}

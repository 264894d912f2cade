//! The SAU and the board's regions beside it.

ghost use Rattle.std.specs.Prelude.{◌≡◌, false};
ghost use Rattle.tz_state.specs.Difference.{sau_differs};

use arrayvec::ArrayVec;
use std::marker::Model;
use tz_model::Region;
use tz_state::Bounds;

/// The SAU of a board, with the board's regions, and whether one of its registers was written since that was last
/// asked.
#[derive(Drop)]
pub struct Sau {
    pub(crate) regions: [Region; 32],
    pub(crate) region_count: usize,
    pub(crate) bounds: ArrayVec<Bounds, 8>,
    pub(crate) ctrl: u32,
    pub(crate) rnr: u32,
    pub(crate) changed: bool,
}

impl Model for Sau {
    ghost use Rattle.std.specs.Prelude.{take, ◌≤◌};
    ghost use Rattle.tz_sau.specs.Unit.{SauValue};

    ghost Value = { SauValue };

    ghost view = { λ s. record {
      regions = take s.region_count s.regions;
      sau = record { ctrl = s.ctrl; rnr = s.rnr; regions = s.bounds.items };
      changed = s.changed;
    } };

    ghost invariant = { λ s. s.region_count ≤ 32 };
}

impl Sau {
    /// Whether a register was written since this was last asked, or since the SAU was made: by its name, at its
    /// address, or as those of another SAU.
    pub fn take_changed(&mut self) -> bool
        ensures told { result ≡ self.old.changed }
        ensures taken { self.new ≡ record self.old { changed = false } }
    {
        let changed = self.changed;
        self.changed = false;
        changed
    }

    /// Whether the registers of two SAUs differ.
    #[tactic(auto, unfolding(tz_state::specs::Difference::sau_differs))]
    pub fn differs(&self, other: &Sau) -> bool
        ensures { result ≡ sau_differs self.now.sau other.now.sau }
    {
        !(self.ctrl == other.ctrl
            && self.rnr == other.rnr
            && self.bounds.as_slice() == other.bounds.as_slice())
    }
}

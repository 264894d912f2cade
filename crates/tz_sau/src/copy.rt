//! The SAU's registers as they were, or as another's are. No memory is taken.

ghost use Rattle.std.specs.Prelude.{◌≡◌};
ghost use Rattle.tz_sau.specs.Unit.{with_registers};

use crate::unit::Sau;
use arrayvec::ArrayVec;
use tz_state::Bounds;

/// Makes regions as others are. Those of one board are as many, and are copied where they stand.
fn copy_bounds(bounds: &mut ArrayVec<Bounds, 8>, other: &ArrayVec<Bounds, 8>)
    ensures { bounds.new.items ≡ other.now.items }
{
    if bounds.len() == other.len() {
        bounds.as_mut_slice().copy_from_slice(other.as_slice());
    } else {
        bounds.clear();
        let _fits = bounds.try_extend_from_slice(other.as_slice());
    }
}

impl Sau {
    /// Makes the registers as those of another SAU are. The board's regions stay.
    pub fn copy_registers(&mut self, other: &Sau)
        ensures { self.new ≡ with_registers self.old other.now.sau }
    {
        copy_bounds(&mut self.bounds, &other.bounds);
        self.ctrl = other.ctrl;
        self.rnr = other.rnr;
        self.changed = true;
    }
}

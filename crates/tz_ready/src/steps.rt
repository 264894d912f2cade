//! A count of looks, which stands in proofs alone.
//!
//! The count is the total of a ledger, whose tokens take no bytes and do nothing when the program
//! runs. One ledger has one counter, and no call lowers it.

ghost use Rattle.std.specs.Prelude.{◌≡◌, ◌+◌, ◌<◌};

use std::marker::Model;
use std::sync::ledger::{Blank, Book, Ledger, Share};

/// The number of looks counted so far.
#[derive(Drop)]
pub struct Steps<L: Ledger> {
    total: Book<L>,
    counted: Share<L>,
}

impl<L: Ledger> Model for Steps<L> {
    ghost use Rattle.std.specs.Prelude.{ℕ, ◌<◌};

    ghost Value = { ℕ };

    ghost view = { λ s. s.total.total };

    ghost invariant = { λ s. 0 < s.counted.parts };
}

impl<L: Ledger> Steps<L> {
    /// The counter of a new ledger, of at least one part. It has counted nothing yet.
    pub fn start(blank: Blank) -> Steps<L>
        requires name { blank.name ≡ L.name }
        requires parts { blank.parts ≡ L.parts }
        requires some_part { 0 < blank.parts }
        ensures { result ≡ 0 }
    {
        let (total, counted) = blank.open::<L>();
        Steps { total, counted }
    }

    /// Counts one look.
    pub fn look(&mut self)
        ensures { self.new ≡ self.old + 1 }
    {
        self.total.add(&mut self.counted, 1);
    }
}

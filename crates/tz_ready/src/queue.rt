//! The lists.

ghost use Rattle.std.specs.Prelude.{◌≡◌, ◌<◌};
ghost use Rattle.tz_ready.specs.Threads.{number_of};

use tz_table::Side;

/// A list: that of a level of a side. A lower level comes first.
#[derive(Clone, Copy, PartialEq, Eq)]
pub struct Queue {
    pub level: u8,
    pub side: Side,
}

impl Queue {
    /// Its number among the lists of both sides, the Secure ones first.
    pub(crate) fn number(self) -> usize
        ensures is { result ≡ number_of self }
        ensures few { result < 512 }
    {
        match self.side {
            Side::Secure => usize::from(self.level),
            Side::NonSecure => 256 + usize::from(self.level),
        }
    }
}

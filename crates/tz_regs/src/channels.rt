//! The channels of the mover, which stand with the status of their sides.

ghost use Rattle.std.specs.Prelude.{◌≡◌};
ghost use Rattle.tz_regs.specs.Banks.{channels_of, with_channels};

use crate::parts::Core;
use tz_model::Channels;

impl Core {
    /// The channels of both sides.
    pub fn channels(&self) -> Channels
        ensures { result ≡ channels_of self.now }
    {
        Channels {
            secure: self.status.s.channel,
            nonsecure: self.status.ns.channel,
        }
    }

    /// Writes the channels of both sides.
    pub fn put_channels(&mut self, channels: Channels)
        ensures { self.new ≡ with_channels self.old channels }
    {
        self.status.s.channel = channels.secure;
        self.status.ns.channel = channels.nonsecure;
    }
}

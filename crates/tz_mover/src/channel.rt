//! A channel: whether it goes, and how it is after a move.

ghost use Rattle.std.specs.Prelude.{◌≡◌, ◌≢◌, ◌<◌};
ghost use Rattle.tz_state.specs.Moves.{goes, stopped, after_word, irq_of};
ghost use Rattle.tz_state.specs.MoverBits.{mover_done, mover_error};

use tz_model::Channel;
use tz_state::mover_bits::{MOVER_DONE, MOVER_ERROR, MOVER_IRQ_0};

/// CTRL.GO.
pub fn goes(channel: &Channel) -> bool
    ensures { result ≡ goes channel.now }
{
    channel.ctrl % 2 == 1
}

/// The channel with GO 0 and DONE 1.
pub fn done(channel: Channel) -> Channel
    ensures { result ≡ stopped mover_done channel }
{
    Channel {
        ctrl: channel.ctrl / 2 * 2 | MOVER_DONE,
        ..channel
    }
}

/// The channel with GO 0 and ERROR 1.
pub fn failed(channel: Channel) -> Channel
    ensures { result ≡ stopped mover_error channel }
{
    Channel {
        ctrl: channel.ctrl / 2 * 2 | MOVER_ERROR,
        ..channel
    }
}

/// The channel after a word was moved: SRC and DST are one word further, and after the last word it is done.
pub fn after_word(channel: Channel) -> Channel
    requires { channel.count ≢ 0 }
    ensures { result ≡ after_word channel }
{
    let past = Channel {
        src: channel.src.wrapping_add(4),
        dst: channel.dst.wrapping_add(4),
        count: channel.count - 1,
        ctrl: channel.ctrl,
    };
    if channel.count == 1 { done(past) } else { past }
}

/// CTRL.IRQ.
pub fn irq_of(channel: &Channel) -> u32
    ensures is { result ≡ irq_of channel.now }
    ensures few { result < 256 }
{
    channel.ctrl / MOVER_IRQ_0 % 0x100
}

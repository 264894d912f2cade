//! SRC, DST, COUNT and CTRL of a channel of the mover (own).

ghost use Rattle.std.specs.Prelude.{◌≡◌};
ghost use Rattle.tz_state.specs.MoverRegisters.{channel_value, channel_written, channel_seen, channel_after};
ghost use Rattle.tz_state.specs.SystemRegisters.{with_own_channel};

use crate::faults::{own_status, put_own_status};
use tz_model::{Channel, Side};
use tz_regs::Status;
use tz_state::MoverRegister;
use tz_state::mover_bits::MOVER_CTRL_WRITTEN;

/// What a register shows.
fn channel_value(channel: Channel, register: MoverRegister) -> u32
    ensures { result ≡ channel_value channel register }
{
    match register {
        MoverRegister::Src => channel.src,
        MoverRegister::Dst => channel.dst,
        MoverRegister::Count => u32::from(channel.count),
        MoverRegister::Ctrl => channel.ctrl,
    }
}

/// What a register shows of a board that has a mover or none.
pub(crate) fn channel_seen(mover: bool, channel: Channel, register: MoverRegister) -> u32
    ensures { result ≡ channel_seen mover channel register }
{
    if mover {
        channel_value(channel, register)
    } else {
        0
    }
}

/// The channel after a write: SRC and DST have no bits 1:0, and CTRL has GO, IE and IRQ as written, and neither DONE nor
/// ERROR.
fn channel_written(channel: Channel, register: MoverRegister, value: u32) -> Channel
    ensures { result ≡ channel_written channel register value }
{
    match register {
        MoverRegister::Src => Channel {
            src: value / 4 * 4,
            ..channel
        },
        MoverRegister::Dst => Channel {
            dst: value / 4 * 4,
            ..channel
        },
        MoverRegister::Count => Channel {
            count: (value % 0x1_0000) as u16,
            ..channel
        },
        MoverRegister::Ctrl => Channel {
            ctrl: value & MOVER_CTRL_WRITTEN,
            ..channel
        },
    }
}

/// The channel after a write, of a board that has a mover or none.
pub(crate) fn channel_after(
    mover: bool,
    channel: Channel,
    register: MoverRegister,
    value: u32,
) -> Channel
    ensures { result ≡ channel_after mover channel register value }
{
    if mover {
        channel_written(channel, register, value)
    } else {
        channel
    }
}

/// Replaces the channel of a side.
pub(crate) fn put_own_channel(status: &mut Status, side: Side, channel: Channel)
    ensures { status.new ≡ with_own_channel side status.old channel }
{
    let mut own = *own_status(side, status);
    own.channel = channel;
    put_own_status(status, side, own);
}

//! The channels of the mover, of a board that has one.

ghost use Rattle.std.specs.Prelude.{◌≡◌, ◌≤◌, ◌+◌, ◌++◌, length};
ghost use Rattle.arrayvec.specs.ArrayString.{array_string_len};
ghost use Rattle.tz_show.specs.Mover.{channel_rows, channels_text, mover_text};

use crate::bits::BitNames;
use crate::rows::{Text, push_pair, push_row};
use tz_model::Channel;
use tz_regs::Status;

/// The registers of a channel, by what stands before each.
#[tactic(auto, unfolding(crate::specs::Mover::channel_rows))]
fn push_channel(text: &mut Text, channel: &Channel, ctrl: &str, src: &str, dst: &str, count: &str)
    requires { array_string_len text.old + length ctrl.now + length src.now + length dst.now + length count.now + 163 ≤ 48000 }
    ensures bytes { text.new.bytes ≡ text.old.bytes ++ channel_rows channel.now ctrl.now src.now dst.now count.now }
    ensures len { array_string_len text.new ≤ array_string_len text.old + length ctrl.now + length src.now + length dst.now + length count.now + 163 }
{
    push_row(text, ctrl, channel.ctrl, BitNames::MoverCtrl);
    push_pair(text, src, channel.src, dst, channel.dst);
    push_row(text, count, u32::from(channel.count), BitNames::Plain);
}

/// The registers of both channels.
#[tactic(auto, unfolding(crate::specs::Mover::channels_text))]
fn push_channels(text: &mut Text, status: &Status)
    requires { array_string_len text.old + 469 ≤ 48000 }
    ensures bytes { text.new.bytes ≡ text.old.bytes ++ channels_text status.now }
    ensures len { array_string_len text.new ≤ array_string_len text.old + 469 }
{
    text.push_str("\nMover\n");
    push_channel(
        text,
        &status.s.channel,
        "  MOVER_CTRL_S   ",
        "  MOVER_SRC_S    ",
        "  MOVER_DST_S    ",
        "  MOVER_COUNT_S  ",
    );
    push_channel(
        text,
        &status.ns.channel,
        "  MOVER_CTRL_NS  ",
        "  MOVER_SRC_NS   ",
        "  MOVER_DST_NS   ",
        "  MOVER_COUNT_NS ",
    );
}

/// The section of the mover, where the board has one.
#[tactic(auto, unfolding(crate::specs::Mover::mover_text))]
pub fn push_mover(text: &mut Text, mover: bool, status: &Status)
    requires { array_string_len text.old + 469 ≤ 48000 }
    ensures bytes { text.new.bytes ≡ text.old.bytes ++ mover_text mover status.now }
    ensures len { array_string_len text.new ≤ array_string_len text.old + 469 }
{
    if mover {
        push_channels(text, status);
    }
}

//! From which stack pointer a return takes the frame (DDI0553, `ExceptionReturn`, `PopStack`).

ghost use Rattle.std.specs.Prelude.{◌≡◌};
ghost use Rattle.tz_tell.specs.FramePointer.{frame_uses_process, frame_pointer};

use tz_excret::side_of_bit;
use tz_frames::Returning;
use tz_regs::Core;

/// Whether PSP is the stack pointer from which a return takes the frame, by the core that returns.
pub fn frame_uses_process(core: &Core, returning: &Returning) -> bool
    ensures { result ≡ frame_uses_process core.now returning.now }
{
    let process = if returning.es == returning.secure {
        returning.process
    } else {
        core.stacks(side_of_bit(returning.secure)).spsel
    };
    returning.thread && process
}

/// The stack pointer from which a return takes the frame, by the core that returns.
pub fn frame_pointer(core: &Core, returning: &Returning) -> u32
    ensures { result ≡ frame_pointer core.now returning.now }
{
    core.sp(
        side_of_bit(returning.secure),
        frame_uses_process(core, returning),
    )
}

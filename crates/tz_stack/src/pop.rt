//! Frames that are read.

ghost use Rattle.std.specs.Prelude.{◌≡◌};
ghost use Rattle.tz_table.specs.declared.units.Side.TheVariants.{Secure};
ghost use Rattle.tz_frames.specs.Stack.{reads, callee_read, popped_basic, popped_additional};

use crate::push::SIGNATURE;
use crate::words::{load_word, load_words};
use tz_frames::{Basic, Callee, Frames, StackFault};
use tz_model::Side;

/// Reads a basic frame of a side at an address, with this privilege (DDI0553, `PopStack`).
///
/// `Access` with the fault of the first word that can't be read.
pub fn pop_basic<P: Frames>(
    port: &mut P,
    sp: u32,
    side: Side,
    privileged: bool,
) -> Result<Basic, StackFault>
    ensures read { result ≡ popped_basic P.answer (P.held port.old) sp side privileged }
    ensures kept { P.held port.new ≡ P.held port.old }
    ensures room { P.room port.new ≡ P.room port.old }
    ensures lent { P.lent port.new ≡ P.lent port.old }
{
    let words: [u32; 8] = load_words(port, sp, side, privileged)?;
    Ok(Basic {
        r0: words[0],
        r1: words[1],
        r2: words[2],
        r3: words[3],
        r12: words[4],
        lr: words[5],
        back: words[6],
        retpsr: words[7],
    })
}

/// Reads R4 to R11 of an additional frame, and the word below them, from its second word up.
fn load_callee<P: Frames>(port: &mut P, addr: u32, privileged: bool) -> Result<Callee, StackFault>
    ensures read { result ≡ callee_read (reads P.answer Secure privileged (P.held port.old) addr 9) }
    ensures kept { P.held port.new ≡ P.held port.old }
    ensures room { P.room port.new ≡ P.room port.old }
    ensures lent { P.lent port.new ≡ P.lent port.old }
{
    let words: [u32; 9] = load_words(port, addr, Side::Secure, privileged)?;
    Ok(Callee {
        r4: words[1],
        r5: words[2],
        r6: words[3],
        r7: words[4],
        r8: words[5],
        r9: words[6],
        r10: words[7],
        r11: words[8],
    })
}

/// Reads an additional frame of the Secure side at an address, with this privilege (DDI0553, `PopStack`).
///
/// `Access` with the fault of the first word that can't be read. `Signature` where the first word isn't the
/// integrity signature; then no other is read.
pub fn pop_additional<P: Frames>(
    port: &mut P,
    sp: u32,
    privileged: bool,
) -> Result<Callee, StackFault>
    ensures read { result ≡ popped_additional P.answer (P.held port.old) sp privileged }
    ensures kept { P.held port.new ≡ P.held port.old }
    ensures room { P.room port.new ≡ P.room port.old }
    ensures lent { P.lent port.new ≡ P.lent port.old }
{
    let signature = load_word(port, sp, Side::Secure, privileged)?;
    if signature != SIGNATURE {
        return Err(StackFault::Signature);
    }
    load_callee(port, sp.wrapping_add(4), privileged)
}

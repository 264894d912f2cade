//! Words of a frame.

ghost use Rattle.std.specs.Prelude.{◌≡◌, ◌≤◌, ◌+◌, length};
ghost use Rattle.std.specs.Result.{result_err};
ghost use Rattle.tz_frames.specs.Stack.{written, word_read, reads};

use tz_frames::{Frames, StackFault};
use tz_model::{Fault, Side};

/// Writes words from an address up. Where one can't be written, those before it stand.
#[tactic(auto, unfolding(tz_frames::specs::Stack::written))]
pub(crate) fn store_words<P: Frames>(
    port: &mut P,
    base: u32,
    side: Side,
    privileged: bool,
    words: &[u32],
) -> Result<(), Fault>
    requires { length words.now ≤ P.room port.old }
    ensures written { written P.answer side privileged (P.held port.old) base words.now ≡ (P.held port.new, result_err result) }
    ensures room { P.room port.old ≤ P.room port.new + length words.now }
    ensures lent { P.lent port.new ≡ P.lent port.old }
{
    let mut addr = base;
    for word in words {
        if let Err(fault) = port.frame_store(addr, side, privileged, *word) {
            return Err(fault);
        }
        addr = addr.wrapping_add(4);
    }
    Ok(())
}

/// Reads a word.
pub(crate) fn load_word<P: Frames>(
    port: &mut P,
    addr: u32,
    side: Side,
    privileged: bool,
) -> Result<u32, StackFault>
    ensures read { result ≡ word_read P.answer side privileged (P.held port.old) addr }
    ensures kept { P.held port.new ≡ P.held port.old }
    ensures room { P.room port.new ≡ P.room port.old }
    ensures lent { P.lent port.new ≡ P.lent port.old }
{
    match port.frame_load(addr, side, privileged) {
        Ok(word) => Ok(word),
        Err(fault) => Err(StackFault::Access(fault)),
    }
}

/// Reads so many words from an address up, or the first fault.
pub(crate) fn load_words<P: Frames, const N: usize>(
    port: &mut P,
    base: u32,
    side: Side,
    privileged: bool,
) -> Result<[u32; N], StackFault>
    ensures read { result ≡ reads P.answer side privileged (P.held port.old) base N }
    ensures kept { P.held port.new ≡ P.held port.old }
    ensures room { P.room port.new ≡ P.room port.old }
    ensures lent { P.lent port.new ≡ P.lent port.old }
{
    let mut words = [0; N];
    let mut addr = base;
    for index in 0..N {
        match load_word(port, addr, side, privileged) {
            Ok(word) => words[index] = word,
            Err(fault) => return Err(fault),
        }
        addr = addr.wrapping_add(4);
    }
    Ok(words)
}

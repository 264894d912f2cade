//! What stands at the front of the bytes of a run: a byte alone, a halfword alone, or a code.

ghost use Rattle.std.specs.Prelude.{◌≡◌, ◌<◌, ◌≤◌, ◌+◌, length};
ghost use Rattle.tz_text.specs.Fronts.{begun, first_alone, half_at, read_front, second_half, size_of};

use tz_decode::needs_second;
use tz_table::Code;

/// What stands at the front of a run.
#[derive(Clone, Copy)]
pub enum Front {
    /// A byte that begins no halfword.
    Byte(u8),
    /// A halfword that begins no instruction.
    Half(u16),
    /// A code with all of its halfwords.
    Whole(Code),
}

/// The halfword at a place, the low byte first.
fn half_at(bytes: &[u8], place: usize) -> u16
    requires { place + 1 < length bytes.now }
    ensures { result ≡ half_at bytes.now place }
{
    u16::from(bytes[place]) + 256 * u16::from(bytes[place + 1])
}

/// The second halfword, where there is one.
fn second_half(bytes: &[u8]) -> Option<u16>
    ensures { result ≡ second_half bytes.now }
{
    if bytes.len() < 4 {
        return None;
    }
    Some(half_at(bytes, 2))
}

/// What a halfword begins, with the one behind it.
fn begun(first: u16, second: Option<u16>) -> Front
    ensures { result ≡ begun first second }
{
    if !needs_second(first) {
        return Front::Whole(Code {
            first,
            second: None,
        });
    }
    match second {
        None => Front::Half(first),
        Some(second) => Front::Whole(Code {
            first,
            second: Some(second),
        }),
    }
}

/// What the bytes from an address on begin with, whether or not a code there is an instruction.
pub fn read_front(at: u32, bytes: &[u8]) -> Front
    requires { 0 < length bytes.now }
    ensures { result ≡ read_front at bytes.now }
{
    if at % 2 == 1 || bytes.len() < 2 {
        return Front::Byte(bytes[0]);
    }
    begun(half_at(bytes, 0), second_half(bytes))
}

/// The first halfword of a code, alone.
pub fn first_alone(front: Front) -> Front
    ensures { result ≡ first_alone front }
{
    match front {
        Front::Byte(byte) => Front::Byte(byte),
        Front::Half(half) => Front::Half(half),
        Front::Whole(code) => Front::Half(code.first),
    }
}

/// How many bytes stand there: 1, 2 or 4.
pub fn size_of(front: Front) -> usize
    ensures { result ≡ size_of front }
{
    match front {
        Front::Byte(_) => 1,
        Front::Half(_) => 2,
        Front::Whole(code) => match code.second {
            None => 2,
            Some(_) => 4,
        },
    }
}

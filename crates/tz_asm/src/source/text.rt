//! Texts between `"` in a line, byte by byte.

ghost use Rattle.std.specs.Prelude.{◌≡◌, IfOk, false, option_map};
ghost use Rattle.tz_asm.specs.Texts.{escaped_turn, plain_turn, quoted_at, text_from, turn_of};

use std::alloc::AllocError;

/// What a character of a text does.
#[derive(Clone, Copy)]
pub enum Turn {
    /// It ends the text.
    Ends,
    /// The next one is escaped.
    Escapes,
    /// It stands for this byte.
    Puts(u8),
    /// It can't stand in a text.
    Fails,
}

/// What a line says before its first `"` and behind it, if one stands before its comment.
pub fn quoted_at(line: &[u8]) -> Option<(&[u8], &[u8])>
    ensures { option_map (λ at. (at.0.now, at.1.now)) result ≡ quoted_at line.now }
{
    for (place, byte) in line.iter().enumerate() {
        if *byte == b';' {
            return None;
        }
        if *byte == b'"' {
            return Some((&line[..place], &line[place + 1..]));
        }
    }
    None
}

/// What a character behind a `\` does.
fn escaped_turn(byte: u8) -> Turn
    ensures { escaped_turn byte ≡ result }
{
    if byte == b'n' {
        Turn::Puts(b'\n')
    } else if byte == b'0' {
        Turn::Puts(0)
    } else if byte == b'\\' {
        Turn::Puts(b'\\')
    } else if byte == b'"' {
        Turn::Puts(b'"')
    } else {
        Turn::Fails
    }
}

/// What any other character does.
fn plain_turn(byte: u8) -> Turn
    ensures { plain_turn byte ≡ result }
{
    if byte == b'"' {
        Turn::Ends
    } else if byte == b'\\' {
        Turn::Escapes
    } else if 32 <= byte && byte <= 126 {
        Turn::Puts(byte)
    } else {
        Turn::Fails
    }
}

/// What a character does, behind a `\` or not.
#[tactic(auto, unfolding(crate::specs::Texts::turn_of))]
fn turn_of(escaped: bool, byte: u8) -> Turn
    ensures { turn_of escaped byte ≡ result }
{
    if escaped {
        escaped_turn(byte)
    } else {
        plain_turn(byte)
    }
}

/// Reads a text from behind its first `"` on, in place of what `bytes` had, and gives what stands behind
/// its last one; none where it has no end, or a character that can't stand in it. The error is want of
/// memory.
pub fn read_text<'s>(line: &'s [u8], bytes: &mut Vec<u8>) -> Result<Option<&'s [u8]>, AllocError>
    ensures { IfOk result (λ behind. text_from false line.now
        ≡ option_map (λ rest. (bytes.new.items, rest.now)) behind) }
{
    bytes.clear();
    let mut escaped = false;
    for (place, byte) in line.iter().enumerate() {
        match turn_of(escaped, *byte) {
            Turn::Ends => return Ok(Some(&line[place + 1..])),
            Turn::Escapes => escaped = true,
            Turn::Puts(put) => {
                bytes.push(put)?;
                escaped = false;
            }
            Turn::Fails => return Ok(None),
        }
    }
    Ok(None)
}

//! The names of registers that differ, as pieces.

ghost use Rattle.std.specs.Prelude.{◌≡◌, ◌≤◌, ◌+◌, ◌++◌, codes, length, take};
ghost use Rattle.tz_text.specs.Line.{change_name};
ghost use Rattle.tz_text.specs.Room.{IsText};

use crate::room::Line;

/// The names of R0 to R12, SP, LR and APSR, between a space and `=`, with the number of their bytes.
static NAMES: [([u8; 8], usize); 16] = [
    (*b" r0=    ", 4),
    (*b" r1=    ", 4),
    (*b" r2=    ", 4),
    (*b" r3=    ", 4),
    (*b" r4=    ", 4),
    (*b" r5=    ", 4),
    (*b" r6=    ", 4),
    (*b" r7=    ", 4),
    (*b" r8=    ", 4),
    (*b" r9=    ", 4),
    (*b" r10=   ", 5),
    (*b" r11=   ", 5),
    (*b" r12=   ", 5),
    (*b" sp=    ", 4),
    (*b" lr=    ", 4),
    (*b" apsr=  ", 6),
];

/// A name between a space and `=`. A number that stands for no register has none.
#[inline(always)]
fn named(name: u8) -> ([u8; 8], usize)
    ensures piece { take result.1 result.0 ≡ codes " " ++ change_name name ++ codes "=" }
    ensures text { IsText (take result.1 result.0) }
    ensures short { result.1 ≤ 6 }
{
    let place = name as usize;
    if place < NAMES.len() {
        NAMES[place]
    } else {
        (*b" =      ", 2)
    }
}

/// Appends the name of a register that differs, between a space and `=`.
#[inline(always)]
pub fn push_change_name(line: &mut Line, name: u8)
    requires { length line.old.bytes + 6 ≤ 768 }
    ensures bytes { line.new.bytes ≡ line.old.bytes ++ codes " " ++ change_name name ++ codes "=" }
    ensures len { length line.new.bytes ≤ length line.old.bytes + 6 }
{
    let (piece, len) = named(name);
    line.push_front(&piece, len);
}

//! What the top call asks a shelf for, and in which pieces it writes: each line is a piece, and so is an ELF image.

use crate::tests::doubles::{files, hold};
use crate::tests::failing::words_of;
use std::alloc::{AllocError, Global};
use std::test::Fail;
use tz_cli::top;
use tz_testing::{FailingShelf, FailingSink};

/// The worked images, an image of two segments that touch, the second one first; a board on which they lie, a script, and a
/// source of two segments with an instruction each.
static FILES: [(&str, &str); 6] = [
    (
        "S",
        "10000000 0010003041000010\n10000040 0048044740002000\n",
    ),
    ("N", "00200040 0520fee7\n"),
    ("T", "10008004 7fe900\n10008000 05207fe9\n"),
    (
        "B",
        "secure_vtor = 0x10000000
nonsecure_vtor = 0x00200000
interrupts = 1
sau_regions = 0
mpu_secure = 0
mpu_nonsecure = 0
[[region]]
base = 0x10000000
size = 0x8000
kind = \"rom\"
side = \"secure\"
[[region]]
base = 0x00200000
size = 0x8000
kind = \"rom\"
side = \"nonsecure\"
",
    ),
    ("C", "5 nmi\n"),
    (
        "A",
        ".org 0x00200000\nmovs r0, #5\n.org 0x00200040\nmovs r0, #5\n",
    ),
];

/// What a line asked for and wrote: its shelf, standard output and standard error.
fn asked_and_written(
    alloc: Global,
    line: &str,
) -> Result<(FailingShelf, FailingSink, FailingSink), AllocError> {
    let words = words_of(alloc, line)?;
    let mut out = FailingSink::new(alloc, Vec::new(alloc));
    let mut err = FailingSink::new(alloc, Vec::new(alloc));
    let mut shelf = FailingShelf::new(alloc, files(alloc, &FILES)?, Vec::new(alloc));
    let _status = top(alloc, &words, &mut shelf, &mut out, &mut err);
    Ok((shelf, out, err))
}

/// A line, the names that are asked for, and the bytes that are written at the end of each piece on standard output and on
/// standard error.
static PIECES: [(&str, &str, &[usize], &[usize]); 13] = [
    ("tzrun run @demo S N @none 4", " S N", &[4, 8, 50, 81], &[]),
    ("tzrun run B S N C 2", " B S N C", &[4, 8], &[]),
    ("tzrun run @demo S N C 0", " S N C", &[], &[]),
    ("tzrun run @demo X N C 4", " X", &[], &[14]),
    ("tzrun run @demo S X C 4", " S X", &[], &[14]),
    ("tzrun run C S N C 4", " C", &[], &[6]),
    ("tzrun run @demo S N @none 10000001", "", &[], &[12]),
    ("tzrun run B S", "", &[], &[6]),
    ("tzrun dis @demo T s", " T", &[26, 47, 70], &[]),
    ("tzrun dis B N ns", " B N", &[26, 53], &[]),
    ("tzrun asm A", " A", &[14, 28], &[]),
    ("tzrun asm A --form elf", " A", &[120], &[]),
    ("tzrun asm X --form elf", " X", &[], &[14]),
];

/// No name is asked for that no word gives, none twice, and neither the built-in board nor the empty script.
#[test]
fn names_and_pieces(rt: HostRuntime) -> Result<(), Fail> {
    for &(line, asked, written, told) in PIECES.iter() {
        let (shelf, out, err) = asked_and_written(rt.alloc(), line)?;
        hold(&rt, shelf.asked() == asked, line);
        hold(&rt, out.ends() == written && err.ends() == told, line);
    }
    Ok(())
}

//! Machines on the built-in board, from cases.
//!
//! Secure code writes words in turn and goes on at a place of its own. The handler of exception N stands 0x800 and 16 N
//! bytes behind its side's vectors.

use std::alloc::{AllocError, Global};
use tz_asm::assemble;
use tz_board::demo_board;
use tz_core::Machine;
use tz_model::{Image, Profile};
use tz_testing::Case;

/// The Secure vectors, with a stack pointer and a start, and the code that writes words. MSP_NS is set first, and R4 is
/// where the Non-secure code stands.
const SECURE: &str = ".org 0x10000000
 .word 0x30001000
 .word 0x10000081
 .word 0x10000821
 .word 0x10000831
 .word 0x10000841
 .word 0x10000851
 .word 0x10000861
 .word 0x10000871
 .word 0x10000881
 .word 0x10000891
 .word 0x100008A1
 .word 0x100008B1
 .word 0x100008C1
 .word 0x100008D1
 .word 0x100008E1
 .word 0x100008F1
 .word 0x10000901
 .word 0x10000911
 .word 0x10000921
 .word 0x10000931
 .word 0x10000941
 .word 0x10000951
 .word 0x10000961
 .word 0x10000971
.org 0x10000080
 ldr r0, stack
 msr msp_ns, r0
 ldr r0, table
 ldr r3, after
 ldr r4, nonsecure
next: ldm r0!, {r1, r2}
 cbz r1, done
 str r2, [r1, #0]
 b next
done: bx r3
.align 4
stack: .word 0x20001000
table: .word writes
after: .word 0x10000401
nonsecure: .word 0x00200400
writes:
";

/// Where the Secure code goes on, behind the words that it writes.
const SECURE_CODE: &str = " .word 0
 .word 0
.org 0x10000400
";

/// The Non-secure vectors, of which nothing reads the first two words.
const NONSECURE: &str = ".org 0x00200000
 .word 0
 .word 0
 .word 0x00200821
 .word 0x00200831
 .word 0x00200841
 .word 0x00200851
 .word 0x00200861
 .word 0x00200871
 .word 0x00200881
 .word 0x00200891
 .word 0x002008A1
 .word 0x002008B1
 .word 0x002008C1
 .word 0x002008D1
 .word 0x002008E1
 .word 0x002008F1
 .word 0x00200901
 .word 0x00200911
 .word 0x00200921
 .word 0x00200931
 .word 0x00200941
 .word 0x00200951
 .word 0x00200961
 .word 0x00200971
";

/// Where the Non-secure code stands.
const NONSECURE_CODE: &str = ".org 0x00200400
";

/// A source: vectors, the addresses and words that are written, and lines of code at a place of its own. It is told as
/// an answer is.
fn source_of(
    alloc: Global,
    vectors: &str,
    writes: &str,
    place: &str,
    code: &str,
) -> Result<String, AllocError> {
    let mut text = Case::new(alloc, "");
    text.tell(vectors);
    for each in writes.split_whitespace() {
        let (address, word) = each.split_once('=').unwrap_or((each, ""));
        text.tell(" .word ");
        text.tell(address);
        text.tell("\n .word ");
        text.tell(word);
        text.tell("\n");
    }
    text.tell(place);
    for line in code.split(';') {
        text.tell(line.trim());
        text.tell("\n");
    }
    text.text()
}

/// The image of a source, where it has one.
fn image_of(case: &mut Case<'_>, source: Result<String, AllocError>) -> Option<Image> {
    let source = case.kept(source)?;
    let bytes = source.as_bytes();
    if bytes.len() < 0x1_0000_0000 {
        assemble(case.alloc, bytes).ok()
    } else {
        None
    }
}

/// The machine of images on the built-in board.
fn machine_over(
    alloc: Global,
    profile: Profile,
    secure: &Image,
    nonsecure: &Image,
) -> Result<Machine, AllocError> {
    let mut board = demo_board(alloc)?;
    board.profile = profile;
    Machine::new(alloc, &board, secure, nonsecure)
}

/// The machine of a case, from its fields 1 to 3: the words that Secure code writes, that code, and Non-secure code.
pub fn machine_of(case: &mut Case<'_>, profile: Profile) -> Option<Machine> {
    let writes = case.field(1);
    let code = case.field(2);
    let source = source_of(case.alloc, SECURE, writes, SECURE_CODE, code);
    let secure = image_of(case, source)?;
    let code = case.field(3);
    let source = source_of(case.alloc, NONSECURE, "", NONSECURE_CODE, code);
    let nonsecure = image_of(case, source)?;
    let made = machine_over(case.alloc, profile, &secure, &nonsecure);
    case.kept(made)
}

//! The images of a generated job, beside those that assembling their sources gives.

ghost use Rattle.std.specs.Prelude.{◌<◌, ◌^◌, length};

use std::alloc::Global;
use std::test::Fail;
use tz_asm::assemble;
use tz_model::Image;
use tz_run::make_job;

/// A Secure image up to its operation.
static FRONT: &str = ".org 0x10000000
.word 0x30001000
.word reset+1
.org 0x10000040
reset: ldr r0, nsp
 msr msp_ns, r0
 ldr r0, itns
 movs r1, #1
 str r1, [r0, #0]
 ldr r0, key
 ldr r1, cell
 str r0, [r1, #0]
 movs r1, #0
 ldr r0, entry
 bxns r0
body: ldr r1, cell
 ldr r2, [r1, #0]
 ";

/// Behind the operation's mnemonic, up to the key.
static MIDDLE: &str = " r2, r2, r0
 str r2, [r1, #0]
 movs r0, #0
 movs r1, #0
 movs r2, #0
 bxns lr
.align 4
nsp: .word 0x20001000
itns: .word 0xe000e380
key: .word ";

/// Behind the key.
static BACK: &str = "
cell: .word 0x30000000
entry: .word 0x00200080
.org 0x10008000
 sg
 b.w body
";

/// The Non-secure image.
static NONSECURE: &str = ".org 0x00200000
.word 0x20001000
.word main+1
.org 0x00200040
.word tick+1
.org 0x00200080
main: ldr r0, iser
 movs r1, #1
 str r1, [r0, #0]
loop: ldr r3, gate
 blx r3
 adds r4, r4, #1
 b loop
tick: adds r5, r5, #1
 bx lr
.align 4
iser: .word 0xe000e100
gate: .word 0x10008001
";

/// The image of a Secure source with an operation and a key.
fn secure(alloc: Global, operation: &str, key: &str) -> Result<Image, Fail>
    requires operation { length operation.now < 100 }
    requires key { length key.now < 100 }
{
    let mut source = Vec::new(alloc);
    source.extend_from_slice(FRONT.as_bytes())?;
    source.extend_from_slice(operation.as_bytes())?;
    source.extend_from_slice(MIDDLE.as_bytes())?;
    source.extend_from_slice(key.as_bytes())?;
    source.extend_from_slice(BACK.as_bytes())?;
    Ok(assemble(alloc, &source)?)
}

/// Whether two images have the same segments, in the same order.
fn are_same(first: &Image, second: &Image) -> bool {
    if first.segments.len() != second.segments.len() {
        return false;
    }
    for (one, other) in first.segments.iter().zip(second.segments.iter()) {
        if one.base != other.base || one.bytes.as_slice() != other.bytes.as_slice() {
            return false;
        }
    }
    true
}

/// A seed and the keys that its first two draws give.
static JOBS: [(u32, &str, &str); 3] = [
    (0, "15470", "18256"),
    (7, "15648", "59866"),
    (3, "15547", "36089"),
];

#[test]
fn images_of_jobs(rt: HostRuntime) -> Result<(), Fail> {
    let alloc = rt.alloc();
    let nonsecure = assemble(alloc, NONSECURE.as_bytes())?;
    for &(seed, first, second) in JOBS.iter() {
        assert!(rt; first.len() < 100 && second.len() < 100);
        let job = make_job(alloc, seed, 1000)?;
        assert!(rt; are_same(&job.first, &secure(alloc, "eors", first)?));
        assert!(rt; are_same(&job.second, &secure(alloc, "orrs", second)?));
        assert!(rt; are_same(&job.nonsecure, &nonsecure));
    }
    Ok(())
}

//! Images whose segments aren't in the order of their addresses: they stay in the order of the file.

ghost use Rattle.std.specs.Prelude.{◌<◌, ◌^◌, length};

use std::alloc::Global;
use std::test::Fail;
use tz_board::demo_board;
use tz_elf::read_image;
use tz_model::{Image, Side};
use tz_testing::MemorySink;
use tz_text::disassemble;

/// The base of a segment.
fn base(image: &Image, index: usize) -> u32 {
    match image.segments.get(index) {
        Some(segment) => segment.base,
        None => 0,
    }
}

/// The bases of the first four segments of a plain image, 0 where there is none.
fn bases(alloc: Global, file: &[u8], side: Side) -> Result<[u32; 4], Fail>
    requires { length file.now < 2 ^ 32 }
{
    let mut out = MemorySink::new(alloc, 1000)?;
    let image = read_image(alloc, file, &demo_board(alloc)?, side)?;
    let bases = [
        base(&image, 0),
        base(&image, 1),
        base(&image, 2),
        base(&image, 3),
    ];
    let listed = disassemble(image, &mut out);
    listed?;
    Ok(bases)
}

/// A plain image, its side, and the bases of its segments.
static FILES: [(&[u8], Side, [u32; 4]); 3] = [
    (
        b"10000001 00\n10000000 11\n10000002 22",
        Side::Secure,
        [0x1000_0001, 0x1000_0000, 0x1000_0002, 0],
    ),
    (
        b"10000004 0011\n10000000 2233\n10000002 4455",
        Side::Secure,
        [0x1000_0004, 0x1000_0000, 0x1000_0002, 0],
    ),
    (
        b"20000002 0102\n00200040 0520fe",
        Side::NonSecure,
        [0x2000_0002, 0x0020_0040, 0, 0],
    ),
];

#[test]
fn segments_in_order(rt: HostRuntime) -> Result<(), Fail> {
    for &(file, side, want) in FILES.iter() {
        assert!(rt; file.len() < 1000);
        assert!(rt; bases(rt.alloc(), file, side)? == want);
    }
    Ok(())
}

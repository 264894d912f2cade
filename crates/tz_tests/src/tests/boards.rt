//! The values that a board file gives, and those of the built-in board.

use std::test::Fail;
use tz_board::{demo_board, read_board};
use tz_model::{Board, Profile, RegionKind, RegionSide};

/// A board file.
static FILE: &str = "secure_vtor = 0x10000000
nonsecure_vtor = 0x00200000
interrupts = 8
sau_regions = 2
mpu_secure = 8
mpu_nonsecure = 8
profile = \"v8.1\"
[[region]]
base = 0x10000000
size = 0x8000
kind = \"rom\"
side = \"secure\"
[[region]]
base = 0x20000000
size = 0x8000
kind = \"ram\"
side = \"nonsecure\"
[[sau]]
base = 0x20000000
limit = 0x20007FFF
nsc = false
";

/// Whether a board has these numbers: its own, how many regions of both kinds it has, and those of its last region and of
/// the last one of the SAU.
fn has_numbers(board: &Board, wanted: &[usize; 16]) -> bool {
    let (Some(region), Some(sau)) = (board.regions.last(), board.sau.last()) else {
        return false;
    };
    let numbers = [
        board.secure_vtor as usize,
        board.nonsecure_vtor as usize,
        board.interrupts as usize,
        board.sau_regions as usize,
        board.mpu_secure as usize,
        board.mpu_nonsecure as usize,
        (board.profile == Profile::V81) as usize,
        board.regions.len(),
        board.sau.len(),
        region.base as usize,
        region.size as usize,
        (region.kind == RegionKind::Ram) as usize,
        (region.side == RegionSide::NonSecure) as usize,
        sau.base as usize,
        sau.limit as usize,
        sau.nsc as usize,
    ];
    numbers == *wanted
}

/// What a board file gives.
static READ: [usize; 16] = [
    0x1000_0000,
    0x0020_0000,
    8,
    2,
    8,
    8,
    1,
    2,
    1,
    0x2000_0000,
    0x8000,
    1,
    1,
    0x2000_0000,
    0x2000_7fff,
    0,
];

/// What the built-in board is.
static DEMO: [usize; 16] = [
    0x1000_0000,
    0x0020_0000,
    8,
    8,
    8,
    8,
    0,
    5,
    3,
    0x2000_0000,
    0x8000,
    1,
    1,
    0x1000_8000,
    0x1000_ffff,
    1,
];

#[test]
fn values_of_boards(rt: HostRuntime) -> Result<(), Fail> {
    let board = read_board(rt.alloc(), FILE.as_bytes())?;
    assert!(rt; has_numbers(&board, &READ));
    let demo = demo_board(rt.alloc())?;
    assert!(rt; has_numbers(&demo, &DEMO));
    Ok(())
}

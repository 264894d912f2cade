//! The built-in board, which programs call `@demo`.

ghost use Rattle.std.specs.Prelude.{◌≡◌, IfOk};
ghost use Rattle.tz_board.specs.Demo.{demo, demo_regions, demo_sau};

use std::alloc::{AllocError, Global};
use tz_model::{Board, Profile, Region, RegionKind, RegionSide, SauRegion};

/// The memory map of the built-in board.
fn demo_regions(alloc: Global) -> Result<Vec<Region>, AllocError>
    ensures { IfOk result (λ v. v.items ≡ demo_regions) }
{
    Ok(vec![in alloc;
        Region {
            base: 0x1000_0000,
            size: 0x8000,
            kind: RegionKind::Rom,
            side: RegionSide::Secure
        },
        Region {
            base: 0x1000_8000,
            size: 0x8000,
            kind: RegionKind::Rom,
            side: RegionSide::Nsc
        },
        Region {
            base: 0x0020_0000,
            size: 0x1_0000,
            kind: RegionKind::Rom,
            side: RegionSide::NonSecure
        },
        Region {
            base: 0x3000_0000,
            size: 0x8000,
            kind: RegionKind::Ram,
            side: RegionSide::Secure
        },
        Region {
            base: 0x2000_0000,
            size: 0x8000,
            kind: RegionKind::Ram,
            side: RegionSide::NonSecure
        },
    ]?)
}

/// The SAU of the built-in board at boot.
fn demo_sau(alloc: Global) -> Result<Vec<SauRegion>, AllocError>
    ensures { IfOk result (λ v. v.items ≡ demo_sau) }
{
    Ok(vec![in alloc;
        SauRegion {
            base: 0x0020_0000,
            limit: 0x0020_FFFF,
            nsc: false
        },
        SauRegion {
            base: 0x2000_0000,
            limit: 0x2000_7FFF,
            nsc: false
        },
        SauRegion {
            base: 0x1000_8000,
            limit: 0x1000_FFFF,
            nsc: true
        },
    ]?)
}

/// The built-in board. The only error is want of memory.
pub fn demo_board(alloc: Global) -> Result<Board, AllocError>
    ensures { IfOk result (λ b. b ≡ demo) }
{
    let regions = demo_regions(alloc)?;
    let sau = demo_sau(alloc)?;
    Ok(Board {
        secure_vtor: 0x1000_0000,
        nonsecure_vtor: 0x0020_0000,
        interrupts: 8,
        sau_regions: 8,
        mpu_secure: 8,
        mpu_nonsecure: 8,
        profile: Profile::V80,
        mover: false,
        regions,
        sau,
    })
}

//! Boards: the memory map, the attribution that the design fixes (the IDAU), and what the machine
//! starts with.
//!
//! A `Board` always meets the ranges of the board file: `IsBoard` says which they are.

ghost use Rattle.std.specs.Prelude.{◌≡◌, IfOk};

use std::alloc::{AllocError, Global};
use std::marker::Model;

/// What a region takes.
#[derive(Clone, Copy, PartialEq, Eq)]
pub enum RegionKind {
    /// Reads and fetches.
    Rom,
    /// Reads, fetches and writes.
    Ram,
}

/// How memory is attributed: Secure, Secure but callable from Non-secure code, or Non-secure.
#[derive(Clone, Copy, PartialEq, Eq)]
pub enum RegionSide {
    Secure,
    Nsc,
    NonSecure,
}

/// Which version of the protected memory system architecture the board has.
#[derive(Clone, Copy, PartialEq, Eq)]
pub enum Profile {
    V80,
    V81,
}

/// A region of the memory map: `size` bytes from `base` on.
#[derive(Clone, Copy)]
pub struct Region {
    pub base: u32,
    pub size: u32,
    pub kind: RegionKind,
    pub side: RegionSide,
}

/// A region of the SAU at boot, from `base` to `limit`, its last byte.
#[derive(Clone, Copy)]
pub struct SauRegion {
    pub base: u32,
    pub limit: u32,
    pub nsc: bool,
}

/// A board.
#[derive(Drop)]
pub struct Board {
    /// The Secure vector table at boot, a multiple of 128.
    pub secure_vtor: u32,
    /// The Non-secure vector table at boot, a multiple of 128.
    pub nonsecure_vtor: u32,
    /// The number of external interrupts, 1 to 240.
    pub interrupts: u16,
    /// The number of SAU regions, at most 8.
    pub sau_regions: u8,
    /// The numbers of MPU regions of the two sides, at most 16 each.
    pub mpu_secure: u8,
    pub mpu_nonsecure: u8,
    pub profile: Profile,
    /// Whether there is a mover, with a channel of each side.
    pub mover: bool,
    /// The memory map: 1 to 32 regions, no two of which share a byte, of 4 MiB at most together.
    pub regions: Vec<Region>,
    /// The SAU at boot. It starts enabled exactly where this list isn't empty.
    pub sau: Vec<SauRegion>,
}

impl Model for Board {
    ghost use Rattle.tz_model.specs.Board.{BoardValue, IsBoard};

    ghost Value = { BoardValue };

    ghost view = { λ b. record {
      secure_vtor = b.secure_vtor;
      nonsecure_vtor = b.nonsecure_vtor;
      interrupts = b.interrupts;
      sau_regions = b.sau_regions;
      mpu_secure = b.mpu_secure;
      mpu_nonsecure = b.mpu_nonsecure;
      profile = b.profile;
      mover = b.mover;
      regions = b.regions.items;
      sau = b.sau.items;
    } };

    ghost invariant = { λ b. IsBoard (record {
      secure_vtor = b.secure_vtor;
      nonsecure_vtor = b.nonsecure_vtor;
      interrupts = b.interrupts;
      sau_regions = b.sau_regions;
      mpu_secure = b.mpu_secure;
      mpu_nonsecure = b.mpu_nonsecure;
      profile = b.profile;
      mover = b.mover;
      regions = b.regions.items;
      sau = b.sau.items;
    }) };
}

impl Board {
    /// A board that is equal to this one. Fails for want of memory alone.
    pub fn duplicate(&self, alloc: Global) -> Result<Board, AllocError>
        ensures { IfOk result (λ b. b ≡ self.now) }
    {
        let regions = Vec::from_slice(alloc, &self.regions)?;
        let sau = Vec::from_slice(alloc, &self.sau)?;
        Ok(Board {
            secure_vtor: self.secure_vtor,
            nonsecure_vtor: self.nonsecure_vtor,
            interrupts: self.interrupts,
            sau_regions: self.sau_regions,
            mpu_secure: self.mpu_secure,
            mpu_nonsecure: self.mpu_nonsecure,
            profile: self.profile,
            mover: self.mover,
            regions,
            sau,
        })
    }
}

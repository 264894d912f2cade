//! The bus: memory, the units that guard it, and the exclusive monitor.

ghost use Rattle.std.specs.Prelude.{◌≡◌, IfOk, MatchResult, OnOk, OnErr, IfErr, true, false};
ghost use Rattle.tz_mem.specs.Values.{IsRefusal};
ghost use Rattle.tz_state.specs.Access.{is_mapped, is_writable};
ghost use Rattle.tz_state.specs.Memory.{every, value_at, with_value, with_byte, with_bytes};
ghost use Rattle.tz_state.specs.State.{mpu_of, with_memory};
ghost use Rattle.tz_state.specs.UnitRegisters.{reset_bus};
ghost use Rattle.tz_state.specs.Zeros.{zero_memory};

use crate::look_up::LookUps;
use std::alloc::{AllocError, Global};
use std::marker::Model;
use tz_mem::{Memory, NotMapped, Refused};
use tz_model::{Board, Segment, Side, Size};
use tz_mpu::Mpu;
use tz_sau::Sau;
use tz_state::Exclusive;

/// Memory with what guards it; beside that, which is no part of any state, what the units said last of blocks of 32
/// bytes. It is kept while their registers stay.
#[derive(Drop)]
pub struct Bus {
    pub(crate) board: Board,
    pub(crate) memory: Memory,
    pub(crate) sau: Sau,
    pub(crate) mpu_s: Mpu,
    pub(crate) mpu_ns: Mpu,
    pub(crate) monitor: Option<Exclusive>,
    pub(crate) kept: LookUps,
}

impl Model for Bus {
    ghost use Rattle.std.specs.Prelude.{◌≡◌};
    ghost use Rattle.std.specs.Coded.{codes, coded_ℕ};
    ghost use Rattle.std.specs.FinMap as map;
    ghost use Rattle.std.specs.Ordering.{nat_cmp};
    ghost use Rattle.tz_access.specs.LookUps.{AreSeen, guards_by};
    ghost use Rattle.tz_access.specs.Seen.{BusValue};

    ghost Value = { BusValue };

    ghost coded = { Prim.hlevel (codes, map.code {R = nat_cmp} coded_ℕ coded_ℕ) };

    ghost view = { λ b. record {
      state = record {
        sau = b.sau.sau;
        mpu_s = b.mpu_s.mpu;
        mpu_ns = b.mpu_ns.mpu;
        monitor = b.monitor;
        memory = b.memory.bytes;
        board = b.board;
      };
      kept = b.kept;
    } };

    ghost invariant = { λ b.
        (b.memory.regions ≡ b.board.regions)
        × (b.sau.regions ≡ b.board.regions)
        × (b.mpu_s.profile ≡ b.board.profile)
        × (b.mpu_ns.profile ≡ b.board.profile)
        × AreSeen (guards_by b.board b.sau.sau b.mpu_s.mpu b.mpu_ns.mpu) b.kept.data_places
        × AreSeen (guards_by b.board b.sau.sau b.mpu_s.mpu b.mpu_ns.mpu) b.kept.code_places };
}

impl Bus {
    /// Zeros in all regions of a board, the SAU as the board starts it, and both MPUs off.
    ///
    /// # Errors
    ///
    /// `AllocError` where memory runs out.
    pub fn new(alloc: Global, board: &Board) -> Result<Bus, AllocError>
        ensures { IfOk result (λ b. b.state ≡ reset_bus board.now (zero_memory board.now.regions)) }
    {
        let memory = Memory::new(alloc, board)?;
        let copy = board.duplicate(alloc)?;
        Ok(Bus {
            memory,
            sau: Sau::new(board),
            mpu_s: Mpu::new(board.mpu_secure, board.profile),
            mpu_ns: Mpu::new(board.mpu_nonsecure, board.profile),
            monitor: None,
            kept: LookUps::new(),
            board: copy,
        })
    }

    /// The number of a size at an address, with no check but the map's.
    ///
    /// # Errors
    ///
    /// `NotMapped` where no region holds some byte of it.
    pub fn read(&self, addr: u32, size: Size) -> Result<u32, NotMapped>
        ensures { MatchResult result
            (λ value. (every (is_mapped self.now.state.board.regions) addr size ≡ true) × (value ≡ value_at self.now.state.memory size addr))
            (λ _. every (is_mapped self.now.state.board.regions) addr size ≡ false) }
    {
        self.memory.read(addr, size)
    }

    /// Writes the low part of a number, of a size, at an address, with no check but the map's.
    ///
    /// # Errors
    ///
    /// `NotMapped` where no region holds some byte, `ReadOnly` where regions hold all bytes and that of some
    /// byte is `rom`; nothing changes then.
    #[inline(always)]
    pub fn write(&mut self, addr: u32, size: Size, value: u32) -> Result<(), Refused>
        ensures written { OnOk result (self.new.state ≡ with_memory self.old.state (with_value self.old.state.memory size addr value)) }
        ensures takes { OnOk result (every (is_writable self.old.state.board.regions) addr size ≡ true) }
        ensures refused { OnErr result (every (is_writable self.old.state.board.regions) addr size ≡ false) }
        ensures cause { IfErr result (λ e. IsRefusal e self.old.state.board.regions addr size) }
        ensures kept { OnErr result (self.new.state ≡ self.old.state) }
    {
        self.memory.write(addr, size, value)
    }

    /// Puts a byte at an address, whatever the kind of its region.
    ///
    /// # Errors
    ///
    /// `NotMapped` where no region holds the address; nothing changes then.
    pub fn place(&mut self, addr: u32, byte: u8) -> Result<(), NotMapped>
        ensures { MatchResult result
            (λ _. (is_mapped self.old.state.board.regions addr ≡ true) × (self.new.state ≡ with_memory self.old.state (with_byte self.old.state.memory addr byte)))
            (λ _. (is_mapped self.old.state.board.regions addr ≡ false) × (self.new.state ≡ self.old.state)) }
    {
        self.memory.place(addr, byte)
    }

    /// Puts the bytes of a segment of an image, in `rom` too. Bytes that no region holds are left out.
    pub fn put_segment(&mut self, segment: &Segment)
        ensures { self.new.state ≡ with_memory self.old.state (with_bytes self.old.state.memory segment.now.base segment.now.bytes) }
    {
        self.memory.put_segment(segment);
    }

    /// The board.
    pub fn board(&self) -> &Board
        ensures { result.now ≡ self.now.state.board }
    {
        &self.board
    }

    /// The SAU, with the board's regions.
    pub fn sau(&self) -> &Sau
        ensures regions { result.now.regions ≡ self.now.state.board.regions }
        ensures sau { result.now.sau ≡ self.now.state.sau }
    {
        &self.sau
    }

    /// The MPU of a side.
    pub fn mpu(&self, side: Side) -> &Mpu
        ensures profile { result.now.profile ≡ self.now.state.board.profile }
        ensures mpu { result.now.mpu ≡ mpu_of side self.now.state }
    {
        match side {
            Side::Secure => &self.mpu_s,
            Side::NonSecure => &self.mpu_ns,
        }
    }
}

//! The reader of board files.

ghost use Rattle.std.specs.Prelude.{◌≡◌, ◌^◌, ◌<◌, ◌≤◌, length, IfOk, IfErr, IsTrue, Ok};
ghost use Rattle.toml.specs.View.{table_view};
ghost use Rattle.tz_model.specs.Board.{are_regions, are_sau_regions};
ghost use Rattle.tz_board.specs.Boards.{board_in, board_of, board_with, document_of, documented, bounded_number_at, numbers_at, within_limits};
ghost use Rattle.tz_board.specs.BoardErrors.{AreWithin, IsBoardRefusal, numbers_of, place_of};

use crate::error::{BoardError, Key, Place};
use crate::{keys, limits, tables};
use std::alloc::Global;
use toml::Table;
use tz_model::{Board, Profile, Region, SauRegion};

/// The numbers at the top of a board file.
#[derive(Clone, Copy)]
struct Numbers {
    secure_vtor: u32,
    nonsecure_vtor: u32,
    interrupts: u8,
    sau_regions: u8,
    mpu_secure: u8,
    mpu_nonsecure: u8,
}

/// A small number at the top.
fn count(table: &Table, key: Key, low: u8, high: u8) -> Result<u8, BoardError>
    ensures ok { IfOk result (λ n. bounded_number_at (place_of (Place.Top key)) low high 1 (table_view table.now) ≡ Ok n) }
    ensures err { IfErr result (λ e. IsBoardRefusal e (bounded_number_at (place_of (Place.Top key)) low high 1 (table_view table.now))) }
    ensures within { IfOk result (λ n. (low ≤ n) × (n ≤ high)) }
{
    let number = keys::number(table, Place::Top(key), u32::from(low), u32::from(high), 1)?;
    Ok(number as u8)
}

/// The numbers at the top.
fn read_numbers(table: &Table) -> Result<Numbers, BoardError>
    ensures ok { IfOk result (λ n. numbers_at (table_view table.now) ≡ Ok (numbers_of n)) }
    ensures err { IfErr result (λ e. IsBoardRefusal e (numbers_at (table_view table.now))) }
    ensures within { IfOk result AreWithin }
{
    let secure_vtor = keys::number(table, Place::Top(Key::SecureVtor), 0, 0xFFFF_FFFF, 128)?;
    let nonsecure_vtor = keys::number(table, Place::Top(Key::NonsecureVtor), 0, 0xFFFF_FFFF, 128)?;
    let interrupts = count(table, Key::Interrupts, 1, 240)?;
    let sau_regions = count(table, Key::SauRegions, 0, 8)?;
    let mpu_secure = count(table, Key::MpuSecure, 0, 16)?;
    let mpu_nonsecure = count(table, Key::MpuNonsecure, 0, 16)?;
    Ok(Numbers {
        secure_vtor,
        nonsecure_vtor,
        interrupts,
        sau_regions,
        mpu_secure,
        mpu_nonsecure,
    })
}

/// The board of these parts, if it is within the limits.
fn board_within(
    numbers: Numbers,
    profile: Profile,
    mover: bool,
    regions: Vec<Region>,
    sau: Vec<SauRegion>,
) -> Result<Board, BoardError>
    requires numbers { AreWithin numbers }
    requires some_regions { 0 < length regions.items }
    requires regions { IsTrue (are_regions regions.items) }
    requires sau { IsTrue (are_sau_regions sau.items) }
    ensures ok { IfOk result (λ b. within_limits (board_with (numbers_of numbers) profile mover regions.items sau.items) ≡ Ok b) }
    ensures err { IfErr result (λ e. IsBoardRefusal e (within_limits (board_with (numbers_of numbers) profile mover regions.items sau.items))) }
{
    if !limits::is_small(&regions, &sau, numbers.sau_regions) {
        return Err(BoardError::TooMany);
    }
    if let Some((earlier, later)) = limits::first_overlap(&regions) {
        return Err(BoardError::Overlap(earlier, later));
    }
    Ok(Board {
        secure_vtor: numbers.secure_vtor,
        nonsecure_vtor: numbers.nonsecure_vtor,
        interrupts: u16::from(numbers.interrupts),
        sau_regions: numbers.sau_regions,
        mpu_secure: numbers.mpu_secure,
        mpu_nonsecure: numbers.mpu_nonsecure,
        profile,
        mover,
        regions,
        sau,
    })
}

/// The board in a document.
#[tactic(auto, unfolding(crate::specs::Boards::board_in))]
fn board_in(alloc: Global, table: &Table) -> Result<Board, BoardError>
    ensures ok { IfOk result (λ b. board_in (table_view table.now) ≡ Ok b) }
    ensures err { IfErr result (λ e. IsBoardRefusal e (board_in (table_view table.now))) }
{
    let numbers = read_numbers(table)?;
    let profile = keys::read_profile(table, Place::Top(Key::Profile))?;
    let mover = keys::read_mover(table, Place::Top(Key::Mover))?;
    let regions = tables::regions(alloc, table)?;
    let sau = tables::sau(alloc, table)?;
    board_within(numbers, profile, mover, regions, sau)
}

/// The document in the bytes of a file.
fn document(alloc: Global, bytes: &[u8]) -> Result<Table, BoardError>
    ensures ok { IfOk result (λ t. documented (document_of bytes.now) ≡ Ok (table_view t)) }
    ensures err { IfErr result (λ e. IsBoardRefusal e (documented (document_of bytes.now))) }
{
    let Ok(text) = std::str::from_utf8(bytes) else {
        return Err(BoardError::NotToml);
    };
    match toml::table_from_str(alloc, text) {
        Ok(table) => Ok(table),
        Err(error) => {
            if error.is_memory() {
                Err(BoardError::Memory)
            } else {
                Err(BoardError::NotToml)
            }
        }
    }
}

/// Reads a board file: the board that it describes, or the first reason to refuse it. Want of memory
/// may be answered in place of either.
#[tactic(auto, unfolding(crate::specs::Boards::board_of))]
pub fn read_board(alloc: Global, bytes: &[u8]) -> Result<Board, BoardError>
    requires { length bytes.now < 2 ^ 32 }
    ensures ok { IfOk result (λ b. board_of bytes.now ≡ Ok b) }
    ensures err { IfErr result (λ e. IsBoardRefusal e (board_of bytes.now)) }
{
    let table = document(alloc, bytes)?;
    board_in(alloc, &table)
}

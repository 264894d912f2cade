//! The words of a state file before those of the state: what the file is, the number of steps, and the board.
//!
//! Each word is told by its index. What is written goes by that, and so does what is compared where a file is
//! read.

ghost use Rattle.std.specs.Prelude.{◌≡◌, ◌+◌, ◌^◌, ◌<◌, length, slice_get};
ghost use Rattle.tz_fields.specs.StateWords.{word_count};
ghost use Rattle.tz_snap.specs.StateFile.{profile_number, profile_word, kind_number, side_number, region_words, board_words, head_words, head_count};

use tz_fields::word_count;
use tz_model::{Board, Profile, Region, RegionKind, RegionSide};

/// The word that a state file begins with.
pub const MAGIC: u32 = 0x545A_5331;

/// The most steps that lead to a state in a file.
pub const MOST_STEPS: u32 = 10_000_000;

fn profile_number(profile: Profile) -> u32
    ensures { result ≡ profile_number profile }
{
    match profile {
        Profile::V80 => 0,
        Profile::V81 => 1,
    }
}

/// The profile, and 2 more where the board has a mover.
fn profile_word(board: &Board) -> u32
    ensures { result ≡ profile_word board.now }
{
    profile_number(board.profile) + if board.mover { 2 } else { 0 }
}

fn kind_number(kind: RegionKind) -> u32
    ensures { result ≡ kind_number kind }
{
    match kind {
        RegionKind::Rom => 0,
        RegionKind::Ram => 1,
    }
}

fn side_number(side: RegionSide) -> u32
    ensures { result ≡ side_number side }
{
    match side {
        RegionSide::Secure => 0,
        RegionSide::Nsc => 1,
        RegionSide::NonSecure => 2,
    }
}

/// The word at an index among those of regions.
fn region_word(regions: &[Region], index: u32) -> Option<u32>
    ensures { result ≡ slice_get (region_words regions.now) index }
{
    let place = (index / 4) as usize;
    if regions.len() <= place {
        return None;
    }
    let region = regions[place];
    match index % 4 {
        0 => Some(region.base),
        1 => Some(region.size),
        2 => Some(kind_number(region.kind)),
        _ => Some(side_number(region.side)),
    }
}

/// The word at an index among those of a board.
#[tactic(auto, using(crate::proofs::HeadWords::regions_at))]
pub fn board_word(board: &Board, index: u32) -> Option<u32>
    ensures { result ≡ slice_get (board_words board.now) index }
{
    match index {
        0 => Some(board.secure_vtor),
        1 => Some(board.nonsecure_vtor),
        2 => Some(u32::from(board.interrupts)),
        3 => Some(u32::from(board.sau_regions)),
        4 => Some(u32::from(board.mpu_secure)),
        5 => Some(u32::from(board.mpu_nonsecure)),
        6 => Some(profile_word(board)),
        7 => Some(board.regions.len() as u32),
        _ => region_word(&board.regions, index - 8),
    }
}

/// The word at an index among those before the state's, of a file of so many steps.
#[tactic(auto, using(crate::proofs::HeadWords::board_at))]
pub fn head_word(board: &Board, step: u32, index: u32) -> Option<u32>
    ensures { result ≡ slice_get (head_words board.now step) index }
{
    match index {
        0 => Some(MAGIC),
        1 => Some(step),
        _ => board_word(board, index - 2),
    }
}

/// How many words stand before those of the state.
#[tactic(auto, using(crate::proofs::HeadWords::length_head))]
pub fn head_count(board: &Board) -> u32
    ensures { result ≡ head_count board.now }
{
    10 + 4 * board.regions.len() as u32
}

/// How many words the files of a board have.
pub fn file_count(board: &Board) -> u32
    ensures is { result ≡ head_count board.now + word_count board.now }
    ensures few { result < 2 ^ 24 }
{
    // (what every board meets is known where one of its fields is read)
    let _regions = board.regions.len();
    head_count(board) + word_count(board)
}

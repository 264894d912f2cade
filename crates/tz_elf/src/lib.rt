//! Image files: plain images and ELF32 images are read into the segments that the machine starts with, and
//! written.
//!
//! A file is accepted exactly where its bytes are an image for the side and the board, and else the
//! first refusal is told by its code and its place. What is written reads back as the same bytes at the
//! same addresses. Nothing is known here of what an image's code does.
#![tactic(auto)]

ghost use Rattle.std.specs.Prelude.{◌≡◌, ◌^◌, ◌<◌, length, Ok, IfOk, IfErr};
ghost use Rattle.tz_elf.specs.Images.{image_of, segments_of};
ghost use Rattle.tz_elf.specs.Placement.{placed_in};
ghost use Rattle.tz_elf.specs.Refusals.{IsImageRefusal};

mod elf;
mod elf_writer;
mod error;
mod placed;
mod placement;
mod plain;
mod plain_writer;

use elf::read_elf;
pub use elf_writer::write_image;
pub use error::ElfError;
use placement::regions_for;
use plain::read_plain;
pub use plain_writer::write_plain;
use std::alloc::Global;
use tz_model::{Board, Image, Region, Segment, Side};

/// Reads the segments of a file, which may stand in some of all regions.
fn read_segments(
    alloc: Global,
    bytes: &[u8],
    regions: &[Region],
    usable: &[Region],
) -> Result<Vec<Segment>, ElfError>
    requires { length bytes.now < 2 ^ 32 }
    ensures ok { IfOk result (λ v. segments_of (placed_in regions.now usable.now) bytes.now ≡ Ok v.items) }
    ensures err { IfErr result (λ e. IsImageRefusal e (segments_of (placed_in regions.now usable.now) bytes.now)) }
{
    if !bytes.is_empty() && bytes[0] == 0x7F {
        read_elf(alloc, bytes, regions, usable)
    } else {
        read_plain(alloc, bytes, regions, usable)
    }
}

/// Reads the image of a file for a side of a board: an ELF32 image where the first byte is 0x7F, else a
/// plain image.
///
/// The error is the first refusal. A plain image is tested line by line: `Hex`, `Outside`, `WrongSide`,
/// `Overlap`. Of an ELF image first the file header is: `Magic`, `HeaderCut` below 52 bytes,
/// `ClassOrOrder`, `TypeOrMachine`, `HeaderCut` for the table of program headers; and then each program
/// header that brings bytes: `SegmentCut`, `Outside`, `WrongSide`, `Overlap`. `Memory` comes only where
/// memory runs out.
///
/// The time grows with the file, times the logarithm of the number of segments. Beside the segments, of each
/// its range of addresses is kept while the file is read, in 16 bytes and their place in an ordered map.
pub fn read_image(alloc: Global, bytes: &[u8], board: &Board, side: Side) -> Result<Image, ElfError>
    requires { length bytes.now < 2 ^ 32 }
    ensures ok { IfOk result (λ i. image_of bytes.now board.now side ≡ Ok i) }
    ensures err { IfErr result (λ e. IsImageRefusal e (image_of bytes.now board.now side)) }
{
    let regions = board.regions.as_slice();
    let usable = match regions_for(alloc, side, regions) {
        Ok(usable) => usable,
        Err(_) => return Err(ElfError::Memory),
    };
    match read_segments(alloc, bytes, regions, usable.as_slice()) {
        Ok(segments) => Ok(Image { segments }),
        Err(error) => Err(error),
    }
}

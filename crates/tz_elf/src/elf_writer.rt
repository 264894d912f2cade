//! ELF images as they are written: a file header, a program header for each segment, and the bytes of the
//! segments in order.
//!
//! A written image reads back as the addresses and bytes of the image, whatever the board. It has no
//! sections and no entry point: the machine starts by its vector tables.

ghost use Rattle.std.specs.Prelude.{◌≡◌, ◌+◌, ◌*◌, ◌<◌, ◌≤◌, ◌++◌, length, Ok, IfOk, OnOk};
ghost use Rattle.tz_model.specs.Board.{most_bytes};
ghost use Rattle.tz_model.specs.Image.{bytes_in};
ghost use Rattle.tz_elf.specs.ElfImage.{elf_bytes, entries_bytes, entry_bytes, header_bytes};
ghost use Rattle.tz_elf.specs.Images.{pairs_in, pairs_of};

use std::alloc::{AllocError, Global};
use tz_model::{Image, Segment};

/// The file header up to the number of program headers.
const FIXED_HEADER: [u8; 44] = [
    0x7F, b'E', b'L', b'F', 1, 1, 1, 0, // 32 bits, low byte first, version 1
    0, 0, 0, 0, 0, 0, 0, 0, // the rest of e_ident
    2, 0, 40, 0, 1, 0, 0, 0, // e_type, e_machine, e_version
    0, 0, 0, 0, 52, 0, 0, 0, // e_entry, e_phoff
    0, 0, 0, 0, 0, 0, 0, 0, // e_shoff, e_flags
    52, 0, 32, 0, // e_ehsize, e_phentsize
];

/// Writes the file header for so many program headers.
fn write_header(count: u16, file: &mut Vec<u8>) -> Result<(), AllocError>
    ensures { OnOk result (file.new.items ≡ file.old.items ++ header_bytes count) }
{
    file.extend_from_slice(FIXED_HEADER.as_slice())?;
    file.extend_from_slice(count.to_le_bytes().as_slice())?;
    file.extend_from_slice([0; 6].as_slice())?;
    Ok(())
}

/// Writes the program header of so many bytes at an offset, which are put at a base.
fn write_entry(offset: u32, base: u32, size: u32, file: &mut Vec<u8>) -> Result<(), AllocError>
    ensures { OnOk result (file.new.items ≡ file.old.items ++ entry_bytes offset base size) }
{
    for word in [1, offset, base, base, size, size, 7, 1].as_slice() {
        file.extend_from_slice(word.to_le_bytes().as_slice())?;
    }
    Ok(())
}

/// Writes the program headers of segments.
fn write_entries(segments: &[Segment], file: &mut Vec<u8>) -> Result<(), AllocError>
    requires few { length segments.now < 65536 }
    requires small { bytes_in segments.now ≤ most_bytes }
    ensures { OnOk result (file.new.items
        ≡ file.old.items ++ entries_bytes (52 + 32 * length segments.now) segments.now) }
{
    let mut offset = 52 + 32 * segments.len() as u32;
    for segment in segments {
        let bytes = segment.bytes.as_slice();
        let size = bytes.len() as u32;
        write_entry(offset, segment.base, size, file)?;
        offset += size;
    }
    Ok(())
}

/// The ELF image of an image: 52 bytes, 32 for each segment, and the segments' bytes. It fails only where
/// memory does.
pub fn write_image(alloc: Global, image: &Image) -> Result<Vec<u8>, AllocError>
    requires { length image.now.segments < 65536 }
    ensures bytes { IfOk result (λ v. v.items ≡ elf_bytes image.now.segments) }
    ensures reads_back { IfOk result (λ v. pairs_of v.items ≡ Ok (pairs_in image.now.segments)) }
{
    let segments = image.segments.as_slice();
    let mut file = Vec::new(alloc);
    write_header(segments.len() as u16, &mut file)?;
    write_entries(segments, &mut file)?;
    for segment in segments {
        let bytes = segment.bytes.as_slice();
        file.extend_from_slice(bytes)?;
    }
    Ok(file)
}

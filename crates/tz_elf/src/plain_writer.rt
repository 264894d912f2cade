//! Plain images as they are written: each segment as lines of 64 bytes, the last with what is left, in
//! lower-case digits.
//!
//! A written image reads back as the addresses and bytes of the image, whatever the board.

ghost use Rattle.std.specs.Prelude.{◌≡◌, ◌+◌, ◌^◌, ◌<◌, ◌≤◌, ℕ, [], ◌∷◌, ◌++◌, slice_index, Ok, IfOk, OnOk};
ghost use Rattle.tz_model.specs.Image.{end_of};
ghost use Rattle.tz_elf.specs.Images.{pairs_in, pairs_of};
ghost use Rattle.tz_elf.specs.PlainImage.{line_text, plain_text, segment_text};

use std::alloc::{AllocError, Global};
use tz_model::{Image, Segment};

/// The most bytes of a line.
const LINE_BYTES: usize = 64;

/// Writes a line of bytes from an address on.
fn write_line(alloc: Global, base: u32, bytes: &[u8], text: &mut Vec<u8>) -> Result<(), AllocError>
    ensures { OnOk result (text.new.items ≡ text.old.items ++ (line_text base bytes.now ++ 10 ∷ [])) }
{
    let address = hex::encode(alloc, base.to_be_bytes())?;
    let digits = hex::encode(alloc, bytes)?;
    text.extend_from_slice(address.as_bytes())?;
    text.push(b' ')?;
    text.extend_from_slice(digits.as_bytes())?;
    text.push(b'\n')?;
    Ok(())
}

/// Writes the lines of a segment.
fn write_segment(alloc: Global, segment: &Segment, text: &mut Vec<u8>) -> Result<(), AllocError>
    requires { end_of segment.now ≤ 2 ^ 32 }
    ensures text { OnOk result (text.new.items ≡ text.old.items ++ segment_text segment.now) }
    ensures bytes { OnOk result ((k : ℕ) → slice_index segment.now.bytes k < 256) }
{
    let base = segment.base;
    let bytes = segment.bytes.as_slice();
    let mut at: usize = 0;
    while at < bytes.len() {
        let end = (at + LINE_BYTES).min(bytes.len());
        write_line(alloc, base + at as u32, &bytes[at..end], text)?;
        at = end;
    }
    Ok(())
}

/// The plain image of an image, which is empty where no segment has bytes. It fails only where memory
/// does.
pub fn write_plain(alloc: Global, image: &Image) -> Result<Vec<u8>, AllocError>
    ensures text { IfOk result (λ v. v.items ≡ plain_text image.now.segments) }
    ensures reads_back { IfOk result (λ v. pairs_of v.items ≡ Ok (pairs_in image.now.segments)) }
{
    let mut text = Vec::new(alloc);
    let segments = image.segments.as_slice();
    for segment in segments {
        write_segment(alloc, segment, &mut text)?;
    }
    Ok(text)
}

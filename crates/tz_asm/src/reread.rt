//! What an image file says, whatever board it is read for, and what the assembler's files say.
//!
//! A board may refuse a file. Where it doesn't, the image has the addresses and bytes that the file says by
//! itself; and a file that the assembler writes of a source says those of the source's segments. So the two
//! laws together: an image that is assembled is read with the same bytes, in either form, on each board that
//! takes it.

ghost use Rattle.std.specs.Prelude.{◌≡◌, ℕ, List, Ok};
ghost use Rattle.tz_table.specs.declared.units.Side.{Side};
ghost use Rattle.tz_model.specs.Board.{BoardValue};
ghost use Rattle.tz_model.specs.Image.{ImageValue, SegmentValue};
ghost use Rattle.tz_asm.specs.Told.{assembled};
ghost use Rattle.tz_elf.specs.ElfImage.{elf_bytes};
ghost use Rattle.tz_elf.specs.Images.{image_of, pairs_in, pairs_of};
ghost use Rattle.tz_elf.specs.PlainImage.{plain_text};

/// The image of a file has the addresses and bytes that the file says.
pub fn image_has_its_pairs()
    ensures { (file : List ℕ) (board : BoardValue) (side : Side) (image : ImageValue)
        → image_of file board side ≡ Ok image → pairs_of file ≡ Ok (pairs_in image.segments) }
{}

/// The files of the segments that a source gives, a plain one and an ELF one, have their addresses and bytes.
pub fn assembled_reads_back()
    ensures { (source : List ℕ) (segments : List SegmentValue) → assembled source ≡ Ok segments
        → (pairs_of (plain_text segments) ≡ Ok (pairs_in segments)) × (pairs_of (elf_bytes segments) ≡ Ok (pairs_in segments)) }
{}

//! The law that joins the instruction table and the texts: each instruction that a code means has a text.
//!
//! So a line of text never stops behind a code that is an instruction, and what a disassembler shows
//! without one is no instruction. Nothing here runs.

ghost use Rattle.std.specs.Prelude.{◌≡◌, ◌≢◌, ℕ, []};
ghost use Rattle.tz_table.specs.Table.{decode_of};
ghost use Rattle.tz_table.specs.declared.decoded.Decoded.TheVariants.{One};
ghost use Rattle.tz_table.specs.declared.instruction.Insn.{Insn};
ghost use Rattle.tz_table.specs.declared.units.Width.{Width};
ghost use Rattle.tz_syntax.specs.Text.{text_of};

/// The instruction that a code means has a text of its width at every address, which isn't empty.
pub fn decoded_is_spelled()
    ensures { (first second pc : ℕ) (insn : Insn) (width : Width) → decode_of first second ≡ One insn width → text_of insn width pc ≢ [] }
{}

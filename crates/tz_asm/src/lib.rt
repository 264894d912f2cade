//! The assembler: source in, an image out.
//!
//! It goes over the source twice. The first pass tells the value of each label, and the second puts the
//! bytes. Both keep track of the place by the same function, so they can't disagree. What a line says is read
//! by the module `source`, and what a statement's code is comes from the module `code`. What a source gives,
//! and which refusal comes first, is said by this crate's definitions.
//!
//! Beside `assemble` stand `list`, which gives a source's listing and is refused alike, and two laws, in the module
//! `reread`: what the files that are written of an image say.
#![tactic(auto)]

ghost use Rattle.std.specs.Prelude.{◌≡◌, ◌<◌, ◌^◌, IfErr, IfOk, Ok, length};
ghost use Rattle.tz_asm.specs.Errors.{IsRefusal};
ghost use Rattle.tz_asm.specs.Told.{assembled};

mod code;
mod error;
mod first_pass;
mod growing;
mod layout;
mod listing;
mod places;
mod reading;
mod reread;
mod second_pass;
mod source;
mod values;
mod written;

pub use code::{Uncoded, code_of, coded_once, coded_width, has_shape, is_label, width_of};
pub use error::AsmError;
use first_pass::first_pass;
pub use listing::{list, listed_as_assembled, places_ascend};
pub use reread::{assembled_reads_back, image_has_its_pairs};
use second_pass::second_pass;
use std::alloc::Global;
use tz_model::Image;

/// Assembles source, or tells the first refusal of it. First come, by line, and within a line in this
/// order, `Token`, `Mnemonic`, `Operands`, `TwoLabels`, `OrgBackwards` and `TooLarge`; and then, by line,
/// `NoLabel` and `Range`. `Memory` comes only where memory runs out.
///
/// The time grows with the source and the image, times the logarithm of the number of labels.
pub fn assemble(alloc: Global, source: &[u8]) -> Result<Image, AsmError>
    requires { length source.now < 2 ^ 32 }
    ensures ok { IfOk result (λ i. assembled source.now ≡ Ok i.segments) }
    ensures few { IfOk result (λ i. length i.segments < 65536) }
    ensures err { IfErr result (λ e. IsRefusal e (assembled source.now)) }
{
    let places = match first_pass(alloc, source) {
        Ok(places) => places,
        Err(error) => return Err(error),
    };
    match second_pass(alloc, source, &places) {
        Ok(segments) => Ok(Image { segments }),
        Err(error) => Err(error),
    }
}

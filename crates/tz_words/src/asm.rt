//! The words of `asm`: the name of a file, and the option `--form`.

ghost use Rattle.std.specs.Prelude.{◌≡◌, [], IfOk, map, string_bytes, option_map, unwrap_or};
ghost use Rattle.tz_words.specs.Asm.{asm_behind, asm_parts, form_named, form_of};
ghost use Rattle.tz_words.specs.Commands.{Asm, command_in};
ghost use Rattle.tz_words.specs.Found.{parts_in};

use crate::command::Command;
use crate::leaf::matches;
use clap::ArgMatches;
use std::alloc::{AllocError, Global};

static FORMS: [&str; 3] = ["hex", "elf", "list"];

/// The form of what is written of a source.
#[derive(Clone, Copy)]
pub enum Form {
    /// A plain image.
    Hex,
    /// An ELF32 file.
    Elf,
    /// A listing.
    Listing,
}

/// What `asm` is told.
#[derive(Clone, Copy)]
pub struct AsmWords<'a> {
    /// The name of the source's file.
    pub source: &'a str,
    /// The form of what is written.
    pub form: Form,
}

/// The form of a name.
fn form_named(name: &str) -> Option<Form>
    ensures { result ≡ form_named name.now }
{
    match name {
        "hex" => Some(Form::Hex),
        "elf" => Some(Form::Elf),
        "list" => Some(Form::Listing),
        _ => None,
    }
}

/// The form that the option's values choose.
fn form_in(values: Option<&[&str]>) -> Option<Form>
    ensures { result ≡ form_of (unwrap_or (option_map (λ s. map (λ v. v.now) s.now) values.entry) []) }
{
    match values {
        None | Some([]) => Some(Form::Hex),
        Some([name]) => form_named(name),
        _ => None,
    }
}

/// The words of `asm` in what clap found.
fn asm_found<'a>(found: &ArgMatches<'a>) -> Option<Command<'a>>
    ensures { option_map command_in result ≡ option_map Asm (asm_parts (parts_in found.now)) }
{
    let Some(form) = form_in(found.get_strs("option")) else {
        return None;
    };
    match found.get_strs("words") {
        Some(&[source]) => Some(Command::Asm(AsmWords { source, form })),
        _ => None,
    }
}

/// `SOURCE [--form hex, elf or list]`, as they stand behind `asm`; `None` where they are refused.
pub fn asm_command<'a>(
    alloc: Global,
    words: &'a [String],
) -> Result<Option<Command<'a>>, AllocError>
    ensures { IfOk result (λ r. option_map command_in r ≡ option_map Asm (asm_behind (map string_bytes words.now))) }
{
    match matches(alloc, "form", FORMS.as_slice(), words) {
        Ok(Some(found)) => Ok(asm_found(&found)),
        Ok(None) => Ok(None),
        Err(error) => Err(error),
    }
}

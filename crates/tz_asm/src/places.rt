//! Labels and their values.

ghost use Rattle.std.specs.Prelude.{◌≡◌, IfErr, Ok, OnOk, Some, option_map};
ghost use Rattle.tz_asm.specs.Errors.{IsRefusal};
ghost use Rattle.tz_asm.specs.Places.{defined, places_in, value_named};

use crate::error::AsmError;
use crate::values::Value;
use std::collections::BTreeMap;

/// The value of each label, or none where an `.equ` gave it none.
pub type Places<'s> = BTreeMap<&'s [u8], Option<Value>>;

/// Adds a label that a line defines, if it does, with its value.
#[tactic(auto, unfolding(crate::specs::Places::defined))]
pub fn define<'s>(
    places: &mut Places<'s>,
    line: u32,
    label: Option<&'s [u8]>,
    value: Option<Value>,
) -> Result<(), AsmError>
    ensures ok { OnOk result (defined line (option_map (λ name. name.now) label.entry) value (places_in places.old)
        ≡ Ok (places_in places.new)) }
    ensures err { IfErr result (λ e. IsRefusal e (defined line
        (option_map (λ name. name.now) label.entry) value (places_in places.old))) }
{
    let Some(name) = label else {
        return Ok(());
    };
    match places.insert(name, value) {
        Ok(None) => Ok(()),
        Ok(Some(_)) => Err(AsmError::TwoLabels(line)),
        Err(_) => Err(AsmError::Memory),
    }
}

/// The value of a label that has one.
pub fn value_named<'s>(places: &Places<'s>, name: &'s [u8]) -> Option<Value>
    ensures { value_named (places_in places.now) name.now ≡ result }
{
    match places.get(&name).copied() {
        Some(value) => value,
        None => None,
    }
}

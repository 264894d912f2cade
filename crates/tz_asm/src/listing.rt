//! The listing of a source: each line with where its bytes go and what they are, and behind the lines the
//! labels.
//!
//! It goes over the source as the second pass does, by the same layout and the same bytes, and puts lines of
//! text in place of segments. So a source is listed where it is assembled, and refused for the same cause. What
//! the columns are is said by this crate's definitions; no label is looked for but in the map of the first pass.

ghost use Rattle.std.specs.Prelude.{◌≡◌, ◌+◌, ◌*◌, ◌<◌, ◌≤◌, ◌^◌, ◌++◌, ◌∷◌, [], IfErr, IfOk, Ok, OnOk, codes, flat_map, length, option_map};
ghost use Rattle.arrayvec.specs.ArrayString.{array_string_len};
ghost use Rattle.tz_asm.specs.Errors.{IsRefusal};
ghost use Rattle.tz_asm.specs.Layouts.{IsLayout};
ghost use Rattle.tz_asm.specs.Listing.{code_text, data_text, equ_text, head_text, label_text, line_text, listed, listed_turn, listed_with, listing_view, no_lines, noted, number_text, placed_text, PlacesAscend, RefusedAlike, value_text, whole};
ghost use Rattle.tz_asm.specs.Places.{places_in};
ghost use Rattle.tz_asm.specs.Views.{line_view, statement_view};
ghost use Rattle.tz_syntax.specs.Digits.{hex_byte};

use crate::error::AsmError;
use crate::first_pass::first_pass;
use crate::layout::Layout;
use crate::places::{Places, value_named};
use crate::reading::{said_by, tokens_in};
use crate::source::{SourceLine, Statement};
use crate::values::Value;
use crate::written::write_statement;
use arrayvec::ArrayString;
use std::alloc::{AllocError, Global};
use tz_syntax::{Token, first_line, push_decimal, push_hex_byte, push_hex_word};

/// What stands before the bar of a line.
type Head = ArrayString<32>;

/// Appends a number in 8 digits, or in 16.
#[tactic(auto, unfolding(crate::specs::Listing::number_text))]
fn push_number(text: &mut Head, number: u64)
    requires { array_string_len text.old + 16 ≤ 32 }
    ensures bytes { text.new.bytes ≡ text.old.bytes ++ number_text number }
    ensures len { array_string_len text.new ≤ array_string_len text.old + 16 }
{
    if number < 0x1_0000_0000 {
        push_hex_word(text, number as u32);
    } else {
        push_hex_word(text, (number / 0x1_0000_0000) as u32);
        push_hex_word(text, (number % 0x1_0000_0000) as u32);
    }
}

/// Appends bytes in two digits each.
fn push_bytes(text: &mut Head, bytes: &[u8])
    requires { array_string_len text.old + 2 * length bytes.now ≤ 32 }
    ensures bytes { text.new.bytes ≡ text.old.bytes ++ flat_map hex_byte bytes.now }
    ensures len { array_string_len text.new ≡ array_string_len text.old + 2 * length bytes.now }
{
    for byte in bytes {
        push_hex_byte(text, *byte);
    }
}

/// Appends a halfword of a code by its two bytes.
fn push_halfword(text: &mut Head, low: u8, high: u8)
    requires { array_string_len text.old + 4 ≤ 32 }
    ensures bytes { text.new.bytes ≡ text.old.bytes ++ (hex_byte high ++ hex_byte low) }
    ensures len { array_string_len text.new ≡ array_string_len text.old + 4 }
{
    push_hex_byte(text, high);
    push_hex_byte(text, low);
}

/// Appends the bytes of a code, halfword by halfword.
#[tactic(auto, unfolding(crate::specs::Listing::code_text))]
fn push_halfwords(text: &mut Head, bytes: &[u8])
    requires { array_string_len text.old + 9 ≤ 32 }
    ensures { text.new.bytes ≡ text.old.bytes ++ code_text bytes.now }
{
    match bytes {
        [a, b] => push_halfword(text, *a, *b),
        [a, b, c, d] => {
            push_halfword(text, *a, *b);
            text.push_str(" ");
            push_halfword(text, *c, *d);
        }
        _ => {}
    }
}

/// Appends bytes that are no code: all of them, or the first ones and how many there are.
#[tactic(auto, unfolding(crate::specs::Listing::data_text))]
fn push_data(text: &mut Head, bytes: &[u8])
    requires room { array_string_len text.old + 20 ≤ 32 }
    requires few { length bytes.now < 2 ^ 32 }
    ensures { text.new.bytes ≡ text.old.bytes ++ data_text bytes.now }
{
    if bytes.len() > 8 {
        push_bytes(text, &bytes[..4]);
        text.push_str("..");
        push_decimal(text, bytes.len() as u32);
    } else {
        push_bytes(text, bytes);
    }
}

/// Appends what a statement places.
#[tactic(auto, unfolding(crate::specs::Listing::placed_text))]
fn push_placed(text: &mut Head, statement: &Statement<'_, '_>, bytes: &[u8])
    requires room { array_string_len text.old + 20 ≤ 32 }
    requires few { length bytes.now < 2 ^ 32 }
    ensures { text.new.bytes ≡ text.old.bytes ++ placed_text (statement_view statement.now) bytes.now }
{
    match *statement {
        Statement::Instruction(_, _, _) => push_halfwords(text, bytes),
        _ => push_data(text, bytes),
    }
}

/// What stands before the bar of a line whose statement puts these bytes at a place.
#[tactic(auto, unfolding(crate::specs::Listing::head_text))]
fn head_of(place: u64, statement: &Statement<'_, '_>, bytes: &[u8]) -> Head
    requires few { length bytes.now < 2 ^ 32 }
    requires placed { 0 < length bytes.now → place < 2 ^ 32 }
    ensures { result.bytes ≡ head_text place (statement_view statement.now) bytes.now }
{
    let mut head = Head::new();
    if bytes.is_empty() {
        return head;
    }
    push_hex_word(&mut head, place as u32);
    head.push_str("  ");
    push_placed(&mut head, statement, bytes);
    head
}

/// Appends a line of source behind its head.
#[tactic(auto, unfolding(crate::specs::Listing::line_text))]
fn push_line(lines: &mut Vec<u8>, head: &Head, text: &[u8]) -> Result<(), AllocError>
    ensures { OnOk result (lines.new.items ≡ lines.old.items ++ line_text head.now.bytes text.now) }
{
    let margin = b"                             |  ".as_slice();
    lines.extend_from_slice(head.as_str().as_bytes())?;
    lines.extend_from_slice(&margin[head.len()..])?;
    lines.extend_from_slice(text)?;
    lines.push(b'\n')?;
    Ok(())
}

/// Appends a name behind its number and a mark.
fn push_named(names: &mut Vec<u8>, number: &Head, mark: &str, name: &[u8]) -> Result<(), AllocError>
    ensures { OnOk result (names.new.items ≡ names.old.items ++ (number.now.bytes ++ mark.now ++ name.now ++ 10 ∷ [])) }
{
    names.extend_from_slice(number.as_str().as_bytes())?;
    names.extend_from_slice(mark.as_bytes())?;
    names.extend_from_slice(name)?;
    names.push(b'\n')?;
    Ok(())
}

/// Appends the label of a line at a place, if it has one.
#[tactic(auto, unfolding(crate::specs::Listing::label_text))]
fn push_label(labels: &mut Vec<u8>, place: u64, label: Option<&[u8]>) -> Result<(), AllocError>
    ensures { OnOk result (labels.new.items ≡ labels.old.items ++ label_text place (option_map (λ name. name.now) label.entry)) }
{
    let Some(name) = label else {
        return Ok(());
    };
    let mut number = Head::new();
    push_number(&mut number, place);
    push_named(labels, &number, " ", name)
}

/// The text of a value.
#[tactic(auto, unfolding(crate::specs::Listing::value_text))]
fn value_text(value: Value) -> Head
    ensures { result.bytes ≡ value_text value }
{
    let mut text = Head::new();
    if value.negative && value.size != 0 {
        text.push_str("-");
    }
    push_number(&mut text, value.size);
    text
}

/// Appends the name that a statement gives a value, if it is an `.equ`.
#[tactic(auto, unfolding(crate::specs::Listing::equ_text))]
fn push_equ<'s>(
    values: &mut Vec<u8>,
    places: &Places<'s>,
    statement: &Statement<'_, 's>,
) -> Result<(), AllocError>
    ensures { OnOk result (values.new.items ≡ values.old.items ++ equ_text (places_in places.now) (statement_view statement.now)) }
{
    match *statement {
        Statement::Equ(name, _) => match value_named(places, name) {
            Some(value) => push_named(values, &value_text(value), " = ", name),
            None => Ok(()),
        },
        _ => Ok(()),
    }
}

/// What the lines so far give: lines of text, each whole.
#[derive(Drop)]
pub struct Listing {
    /// The lines of the source.
    lines: Vec<u8>,
    /// The labels.
    labels: Vec<u8>,
    /// The names with values.
    values: Vec<u8>,
}

impl Listing {
    /// No lines.
    fn new(alloc: Global) -> Listing
        ensures { listing_view result ≡ no_lines }
    {
        Listing {
            lines: Vec::new(alloc),
            labels: Vec::new(alloc),
            values: Vec::new(alloc),
        }
    }

    /// Appends a line of source that says this and puts these bytes at a place.
    #[tactic(auto, unfolding(crate::specs::Listing::noted))]
    fn note<'s>(
        &mut self,
        places: &Places<'s>,
        place: u64,
        said: &SourceLine<'_, 's>,
        bytes: &[u8],
        text: &[u8],
    ) -> Result<(), AllocError>
        requires few { length bytes.now < 2 ^ 32 }
        requires placed { 0 < length bytes.now → place < 2 ^ 32 }
        ensures { OnOk result (listing_view self.new
            ≡ noted (places_in places.now) place (line_view said.now) bytes.now text.now (listing_view self.old)) }
    {
        let head = head_of(place, &said.statement, bytes);
        push_line(&mut self.lines, &head, text)?;
        push_label(&mut self.labels, place, said.label)?;
        push_equ(&mut self.values, places, &said.statement)
    }

    /// All of it as one text.
    fn whole(self) -> Result<Vec<u8>, AllocError>
        ensures { IfOk result (λ v. v.items ≡ whole (listing_view self)) }
    {
        let Listing {
            mut lines,
            mut labels,
            values,
        } = self;
        labels.extend_from_slice(&values)?;
        if !labels.is_empty() {
            lines.push(b'\n')?;
            lines.extend_from_slice(&labels)?;
        }
        Ok(lines)
    }
}

/// A line's turn: it is put behind the lines before, and the layout behind it is told.
fn list_turn<'s>(
    line: u32,
    text: &'s [u8],
    tokens: &mut Vec<Token<'s>>,
    text_bytes: &mut Vec<u8>,
    places: &Places<'s>,
    layout: Layout,
    bytes: &mut Vec<u8>,
    listing: &mut Listing,
) -> Result<Layout, AsmError>
    requires { IsLayout layout }
    ensures ok { IfOk result (λ next. listed_turn line (places_in places.now) layout (listing_view listing.old) text.now
        ≡ Ok (next, listing_view listing.new)) }
    ensures within { IfOk result (λ next. IsLayout next) }
    ensures err { IfErr result (λ e. IsRefusal e
        (listed_turn line (places_in places.now) layout (listing_view listing.old) text.now)) }
{
    let found = match tokens_in(line, text, tokens, text_bytes) {
        Ok(found) => found,
        Err(error) => return Err(error),
    };
    let said = match said_by(line, tokens.as_slice(), found, text_bytes.as_slice()) {
        Ok(said) => said,
        Err(error) => return Err(error),
    };
    let next = match layout.advance(line, &said.statement) {
        Ok(next) => next,
        Err(error) => return Err(error),
    };
    if let Err(error) = write_statement(places, line, layout.place, &said.statement, bytes) {
        return Err(error);
    }
    match listing.note(places, layout.place, &said, bytes.as_slice(), text) {
        Ok(()) => Ok(next),
        Err(_) => Err(AsmError::Memory),
    }
}

/// The listing of a source whose labels have these places.
fn list_with<'s>(alloc: Global, source: &'s [u8], places: &Places<'s>) -> Result<Vec<u8>, AsmError>
    requires { length source.now < 2 ^ 32 }
    ensures ok { IfOk result (λ v. listed_with source.now (places_in places.now) ≡ Ok v.items) }
    ensures err { IfErr result (λ e. IsRefusal e (listed_with source.now (places_in places.now))) }
{
    let mut tokens = Vec::new(alloc);
    let mut text_bytes = Vec::new(alloc);
    let mut bytes = Vec::new(alloc);
    let mut listing = Listing::new(alloc);
    let mut layout = Layout::start();
    let mut rest = source;
    let mut line: u64 = 1;
    while !rest.is_empty() {
        let (text, after) = first_line(rest);
        match list_turn(
            line as u32,
            text,
            &mut tokens,
            &mut text_bytes,
            places,
            layout,
            &mut bytes,
            &mut listing,
        ) {
            Ok(next) => layout = next,
            Err(error) => return Err(error),
        }
        line += 1;
        rest = after;
    }
    match listing.whole() {
        Ok(text) => Ok(text),
        Err(_) => Err(AsmError::Memory),
    }
}

/// Lists a source, or tells the first refusal of it, which is that of `assemble`. `Memory` comes only where
/// memory runs out.
///
/// The time grows with the source, the image and the listing, times the logarithm of the number of labels.
pub fn list(alloc: Global, source: &[u8]) -> Result<Vec<u8>, AsmError>
    requires { length source.now < 2 ^ 32 }
    ensures ok { IfOk result (λ v. listed source.now ≡ Ok v.items) }
    ensures err { IfErr result (λ e. IsRefusal e (listed source.now)) }
{
    let places = match first_pass(alloc, source) {
        Ok(places) => places,
        Err(error) => return Err(error),
    };
    list_with(alloc, source, &places)
}

/// A source is listed where it is assembled, and else both are the same refusal.
pub fn listed_as_assembled()
    ensures { RefusedAlike }
{}

/// No statement takes the place back, so the labels of a listing ascend.
pub fn places_ascend()
    ensures { PlacesAscend }
{}

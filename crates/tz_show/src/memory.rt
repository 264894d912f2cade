//! Memory as a dump: 16 bytes a line, in hexadecimal and as text, each line with the attribution of its first byte.

ghost use Rattle.std.specs.Prelude.{◌≡◌, ◌≤◌, ◌<◌, ◌+◌, ◌*◌, ◌/◌, ◌^◌, ◌++◌, ◌∷◌, [], length, nat_lt};
ghost use Rattle.arrayvec.specs.ArrayString.{array_string_len};
ghost use Rattle.tz_model.specs.Outside.{HasCause, Put};
ghost use Rattle.tz_show.specs.Dump.{attribution_mark, byte_address, shown_byte, shown_character, shown_text, byte_text, character_text, bytes_line, dump_line, range_text, ranges_text};
ghost use Rattle.tz_show.specs.Rows.{texts_below};

use crate::rows::{Text, push_where};
use tz_access::Bus;
use tz_model::{RegionSide, Side, Sink, SinkError, Size};
use tz_syntax::{push_hex_byte, push_hex_word};
use tz_words::Range;

#[tactic(auto, unfolding(crate::specs::Dump::attribution_mark))]
fn attribution_mark(side: RegionSide) -> &'static str
    ensures mark { result.now ≡ attribution_mark side }
    ensures short { length result.now ≡ 7 }
{
    match side {
        RegionSide::Secure => "  S    ",
        RegionSide::Nsc => "  NSC  ",
        RegionSide::NonSecure => "  NS   ",
    }
}

/// The byte at an address in two digits, where a region holds it.
#[tactic(auto, unfolding(crate::specs::Dump::shown_byte))]
fn push_shown_byte(text: &mut Text, bus: &Bus, addr: u32)
    requires { array_string_len text.old + 2 ≤ 48000 }
    ensures bytes { text.new.bytes ≡ text.old.bytes ++ shown_byte bus.now.state addr }
    ensures len { array_string_len text.new ≡ array_string_len text.old + 2 }
{
    match bus.read(addr, Size::Byte) {
        Ok(byte) => push_hex_byte(text, (byte % 256) as u8),
        Err(_) => text.push_str("--"),
    }
}

/// A printable character of ASCII, or a dot.
fn shown_character(byte: u32) -> char
    ensures character { shown_character byte ≡ result ∷ [] }
    ensures ascii { result < 128 }
{
    if byte >= 32 && byte < 127 {
        char::from(byte as u8)
    } else {
        '.'
    }
}

/// The byte at an address as a character, where a region holds it.
#[tactic(auto, unfolding(crate::specs::Dump::shown_text))]
fn push_shown_text(text: &mut Text, bus: &Bus, addr: u32)
    requires { array_string_len text.old + 1 ≤ 48000 }
    ensures bytes { text.new.bytes ≡ text.old.bytes ++ shown_text bus.now.state addr }
    ensures len { array_string_len text.new ≡ array_string_len text.old + 1 }
{
    match bus.read(addr, Size::Byte) {
        Ok(byte) => text.push(shown_character(byte)),
        Err(_) => text.push_str("."),
    }
}

/// Whether a range has so many bytes and more.
fn has_more(range: &Range, from: u32, k: u32) -> bool
    requires { k < 16 }
    ensures { result ≡ nat_lt (from + k) range.now.count }
{
    from < range.count && k < range.count - from
}

/// A column of a line.
#[tactic(auto, unfolding(crate::specs::Dump::byte_text))]
fn push_byte(text: &mut Text, bus: &Bus, range: &Range, from: u32, k: u32)
    requires below { k < 16 }
    requires room { array_string_len text.old + 4 ≤ 48000 }
    ensures bytes { text.new.bytes ≡ text.old.bytes ++ byte_text bus.now.state range.now from k }
    ensures len { array_string_len text.new ≤ array_string_len text.old + 4 }
{
    push_where(text, k == 8, " ");
    text.push_str(" ");
    if has_more(range, from, k) {
        push_shown_byte(text, bus, range.first.wrapping_add(from).wrapping_add(k));
    } else {
        text.push_str("  ");
    }
}

/// A character behind the columns.
#[tactic(auto, unfolding(crate::specs::Dump::character_text))]
fn push_character(text: &mut Text, bus: &Bus, range: &Range, from: u32, k: u32)
    requires below { k < 16 }
    requires room { array_string_len text.old + 1 ≤ 48000 }
    ensures bytes { text.new.bytes ≡ text.old.bytes ++ character_text bus.now.state range.now from k }
    ensures len { array_string_len text.new ≤ array_string_len text.old + 1 }
{
    if has_more(range, from, k) {
        push_shown_text(text, bus, range.first.wrapping_add(from).wrapping_add(k));
    }
}

/// The columns of a line.
fn push_bytes(text: &mut Text, bus: &Bus, range: &Range, from: u32)
    requires { array_string_len text.old + 64 ≤ 48000 }
    ensures bytes { text.new.bytes ≡ text.old.bytes ++ texts_below (byte_text bus.now.state range.now from) 16 }
    ensures len { array_string_len text.new ≤ array_string_len text.old + 64 }
{
    for k in 0..16u32 {
        push_byte(text, bus, range, from, k);
    }
}

/// The characters behind them.
fn push_characters(text: &mut Text, bus: &Bus, range: &Range, from: u32)
    requires { array_string_len text.old + 16 ≤ 48000 }
    ensures bytes { text.new.bytes ≡ text.old.bytes ++ texts_below (character_text bus.now.state range.now from) 16 }
    ensures len { array_string_len text.new ≤ array_string_len text.old + 16 }
{
    for k in 0..16u32 {
        push_character(text, bus, range, from, k);
    }
}

/// The line of 16 bytes from a number on.
#[tactic(auto, unfolding(crate::specs::Dump::bytes_line))]
fn push_line(text: &mut Text, bus: &Bus, range: &Range, from: u32)
    requires { array_string_len text.old + 99 ≤ 48000 }
    ensures bytes { text.new.bytes ≡ text.old.bytes ++ bytes_line bus.now.state range.now from }
    ensures len { array_string_len text.new ≤ array_string_len text.old + 99 }
{
    let addr = range.first.wrapping_add(from);
    text.push_str(attribution_mark(bus.sau().data_attribution(Side::Secure, addr)));
    push_hex_word(text, addr);
    text.push_str(" ");
    push_bytes(text, bus, range, from);
    text.push_str("  ");
    push_characters(text, bus, range, from);
    text.push_str("\n");
}

/// Writes a line of a range as one put. The text is what it is made in.
fn put_line<O: Sink>(
    text: &mut Text,
    bus: &Bus,
    range: &Range,
    k: u32,
    out: &mut O,
) -> Result<(), SinkError>
    requires { 16 * k < 2 ^ 32 }
    ensures put { Put (O.written out.old) (O.written out.new) (O.space out.old) (O.space out.new) (dump_line bus.now.state range.now k) result }
    ensures cause { HasCause (O.faults out.old) (O.faults out.new) (result ≡ Err SinkError.Failed) }
{
    text.clear();
    push_line(text, bus, range, 16 * k);
    out.put(text.as_str().as_bytes())
}

/// How many lines the bytes of a range need.
fn line_count(range: &Range) -> u32
    ensures is { result ≡ (range.now.count + 15) / 16 }
    ensures few { 16 * result < 2 ^ 32 + 16 }
{
    range.count / 16 + if range.count % 16 == 0 { 0 } else { 1 }
}

/// Writes the lines of a range, each as one put.
fn put_lines<O: Sink>(bus: &Bus, range: &Range, out: &mut O) -> Result<(), SinkError>
    ensures put { Put (O.written out.old) (O.written out.new) (O.space out.old) (O.space out.new) (texts_below (dump_line bus.now.state range.now) ((range.now.count + 15) / 16)) result }
    ensures cause { HasCause (O.faults out.old) (O.faults out.new) (result ≡ Err SinkError.Failed) }
{
    let mut text = Text::new();
    for k in 0..line_count(range) {
        if let Err(error) = put_line(&mut text, bus, range, k, out) {
            return Err(error);
        }
    }
    Ok(())
}

/// Writes a range behind its heading.
fn put_range<O: Sink>(bus: &Bus, range: &Range, out: &mut O) -> Result<(), SinkError>
    ensures put { Put (O.written out.old) (O.written out.new) (O.space out.old) (O.space out.new) (range_text bus.now.state range.now) result }
    ensures cause { HasCause (O.faults out.old) (O.faults out.new) (result ≡ Err SinkError.Failed) }
{
    if let Err(error) = out.put(b"\nMemory\n") {
        return Err(error);
    }
    put_lines(bus, range, out)
}

/// Writes all ranges.
#[tactic(auto, unfolding(crate::specs::Dump::ranges_text))]
pub fn put_ranges<O: Sink>(bus: &Bus, ranges: &[Range], out: &mut O) -> Result<(), SinkError>
    ensures put { Put (O.written out.old) (O.written out.new) (O.space out.old) (O.space out.new) (ranges_text bus.now.state ranges.now) result }
    ensures cause { HasCause (O.faults out.old) (O.faults out.new) (result ≡ Err SinkError.Failed) }
{
    for range in ranges {
        if let Err(error) = put_range(bus, range, out) {
            return Err(error);
        }
    }
    Ok(())
}

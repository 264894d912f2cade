//! Where the bytes of a source go, line by line.

ghost use Rattle.std.specs.Prelude.{◌≡◌, ◌+◌, ◌<◌, ◌≤◌, ◌^◌, IfErr, IfOk, OnOk, Ok, length};
ghost use Rattle.tz_asm.specs.Errors.{IsRefusal};
ghost use Rattle.tz_asm.specs.Layouts.{IsLayout, advance, byte_count, go_to, org_place, padding, put, size_bytes, start, text_count, width_bytes};
ghost use Rattle.tz_asm.specs.Views.{statement_view};

use crate::error::AsmError;
use crate::source::{Signed, Statement};
use tz_table::{Size, Width};

/// One past the last address.
const PAST_ADDRESSES: u64 = 0x1_0000_0000;

/// The most bytes of an image.
const MOST_BYTES: u64 = 0x40_0000;

/// The most segments of an image.
const MOST_SEGMENTS: u32 = 65_535;

/// What the lines so far leave to those behind them.
#[derive(Clone, Copy)]
pub struct Layout {
    /// The place of the next byte, which may be past the last address.
    pub place: u64,
    /// Whether the next byte stands in the segment of the byte before it.
    pub inside: bool,
    /// How many bytes there are.
    pub bytes: u64,
    /// How many segments have bytes.
    pub segments: u32,
    /// The line of the `.org` that the next segment begins behind.
    pub org_line: u32,
}

impl Layout {
    /// The layout before the first line.
    pub fn start() -> Layout
        ensures start { result ≡ start }
        ensures within { IsLayout result }
    {
        Layout {
            place: 0,
            inside: false,
            bytes: 0,
            segments: 0,
            org_line: 0,
        }
    }

    /// The layout behind so many more bytes in a line.
    #[tactic(auto, unfolding(crate::specs::Layouts::put))]
    fn put(self, line: u32, count: u64) -> Result<Layout, AsmError>
        requires within { IsLayout self }
        requires small { count ≤ 2 ^ 63 }
        ensures ok { IfOk result (λ l. put line count self ≡ Ok l) }
        ensures within { IfOk result (λ l. IsLayout l) }
        ensures fits { OnOk result (self.place + count ≤ 2 ^ 32) }
        ensures err { IfErr result (λ e. IsRefusal e (put line count self)) }
    {
        if count == 0 {
            return Ok(self);
        }
        let place = self.place + count;
        let bytes = self.bytes + count;
        if place > PAST_ADDRESSES || bytes > MOST_BYTES {
            return Err(AsmError::TooLarge(line));
        }
        if self.inside {
            return Ok(Layout {
                place,
                inside: true,
                bytes,
                segments: self.segments,
                org_line: self.org_line,
            });
        }
        if self.segments >= MOST_SEGMENTS {
            return Err(AsmError::TooLarge(self.org_line));
        }
        Ok(Layout {
            place,
            inside: true,
            bytes,
            segments: self.segments + 1,
            org_line: self.org_line,
        })
    }

    /// The layout behind an `.org` to a place, or to none.
    #[tactic(auto, unfolding(crate::specs::Layouts::go_to))]
    fn go_to(self, line: u32, place: Option<u32>) -> Result<Layout, AsmError>
        requires within { IsLayout self }
        ensures ok { IfOk result (λ l. go_to line place self ≡ Ok l) }
        ensures within { IfOk result (λ l. IsLayout l) }
        ensures err { IfErr result (λ e. IsRefusal e (go_to line place self)) }
    {
        let Some(place) = place else {
            return Err(AsmError::OrgBackwards(line));
        };
        let place = u64::from(place);
        if place < self.place {
            return Err(AsmError::OrgBackwards(line));
        }
        if place == self.place {
            return Ok(self);
        }
        Ok(Layout {
            place,
            inside: false,
            bytes: self.bytes,
            segments: self.segments,
            org_line: line,
        })
    }

    /// The layout behind a statement in a line. The refusals are `OrgBackwards` and `TooLarge`.
    #[tactic(auto, unfolding(crate::specs::Layouts::advance, crate::specs::Layouts::byte_count))]
    pub fn advance(self, line: u32, statement: &Statement<'_, '_>) -> Result<Layout, AsmError>
        requires within { IsLayout self }
        ensures ok { IfOk result (λ l. advance line (statement_view statement.now) self ≡ Ok l) }
        ensures within { IfOk result (λ l. IsLayout l) }
        ensures fits { OnOk result (self.place + byte_count self.place (statement_view statement.now) ≤ 2 ^ 32) }
        ensures err { IfErr result (λ e. IsRefusal e (advance line (statement_view statement.now) self)) }
    {
        match *statement {
            Statement::Nothing => self.put(line, 0),
            Statement::Org(number) => self.go_to(line, org_place(number)),
            Statement::Align(multiple) => self.put(line, padding(multiple, self.place)),
            Statement::Data(size, _) => self.put(line, size_bytes(size)),
            Statement::Equ(_, _) => self.put(line, 0),
            Statement::Space(count) => self.put(line, u64::from(count)),
            Statement::Text(bytes, ends) => self.put(line, text_count(bytes, ends)),
            Statement::Instruction(width, _, _) => self.put(line, width_bytes(width)),
        }
    }
}

/// The place that an `.org` names: none where the number is negative.
fn org_place(number: Signed) -> Option<u32>
    ensures { org_place number ≡ result }
{
    if number.negative && number.size != 0 {
        None
    } else {
        Some(number.size)
    }
}

/// How many bytes lie between a place and the next multiple.
pub fn padding(multiple: u32, place: u64) -> u64
    ensures value { padding multiple place ≡ result }
    ensures small { result < 2 ^ 32 }
{
    if multiple == 0 {
        return 0;
    }
    let multiple = u64::from(multiple);
    let over = place % multiple;
    if over == 0 { 0 } else { multiple - over }
}

/// How many bytes a value of a size has.
pub fn size_bytes(size: Size) -> u64
    ensures value { size_bytes size ≡ result }
    ensures small { result < 2 ^ 32 }
{
    match size {
        Size::Byte => 1,
        Size::Half => 2,
        Size::Word => 4,
    }
}

/// How many bytes a text has, with the zero byte that it may end with.
fn text_count(bytes: &[u8], ends: bool) -> u64
    ensures value { text_count (length bytes.now) ends ≡ result }
    ensures small { result ≤ 2 ^ 63 }
{
    let count = bytes.len() as u64;
    if ends { count + 1 } else { count }
}

/// How many bytes a code of a width has.
fn width_bytes(width: Width) -> u64
    ensures value { width_bytes width ≡ result }
    ensures small { result < 2 ^ 32 }
{
    match width {
        Width::Narrow => 2,
        Width::Wide => 4,
    }
}

//! The values at the keys of a board file, one key at a time: absent, of a wrong kind, out of range.

ghost use Rattle.std.specs.Prelude.{◌≡◌, ◌<◌, ◌≤◌, ◌%◌, IfOk, IfErr, Ok, option_map};
ghost use Rattle.toml.specs.View.{table_view, view};
ghost use Rattle.tz_board.specs.Boards.{found_at, flag_at, in_range, kind_at, bounded_number_at, mover_at, profile_at, profile_named, side_at, text_at};
ghost use Rattle.tz_board.specs.BoardErrors.{IsBoardRefusal, place_of};

use crate::error::{BoardError, Place};
use toml::{Table, Value};
use tz_model::{Profile, RegionKind, RegionSide};

/// What the table holds at the key of a place.
pub fn value_at<'a>(table: &'a Table, place: Place) -> Option<&'a Value>
    ensures { found_at (place_of place) (table_view table.now) ≡ option_map (λ v. view v.now) result }
{
    table.get(place.key().text())
}

/// The number, if it is from `low` to `high` and a multiple of `unit`.
fn in_range(place: Place, number: i64, low: u32, high: u32, unit: u32) -> Result<u32, BoardError>
    requires { 0 < unit }
    ensures ok { IfOk result (λ n. in_range (place_of place) low high unit number ≡ Ok n) }
    ensures err { IfErr result (λ e. IsBoardRefusal e (in_range (place_of place) low high unit number)) }
    ensures within { IfOk result (λ n. (low ≤ n) × (n ≤ high) × (n % unit ≡ 0)) }
{
    let Ok(n) = u32::try_from(number) else {
        return Err(BoardError::Range(place));
    };
    if low <= n && n <= high && n % unit == 0 {
        Ok(n)
    } else {
        Err(BoardError::Range(place))
    }
}

/// The number at a key, from `low` to `high`, a multiple of `unit`.
pub fn number(
    table: &Table,
    place: Place,
    low: u32,
    high: u32,
    unit: u32,
) -> Result<u32, BoardError>
    requires { 0 < unit }
    ensures ok { IfOk result (λ n. bounded_number_at (place_of place) low high unit (table_view table.now) ≡ Ok n) }
    ensures err { IfErr result (λ e. IsBoardRefusal e (bounded_number_at (place_of place) low high unit (table_view table.now))) }
    ensures within { IfOk result (λ n. (low ≤ n) × (n ≤ high) × (n % unit ≡ 0)) }
{
    match value_at(table, place) {
        None => Err(BoardError::Missing(place)),
        Some(value) => match value.as_integer() {
            None => Err(BoardError::WrongKind(place)),
            Some(number) => in_range(place, number, low, high, unit),
        },
    }
}

/// The text at a key.
fn text<'a>(table: &'a Table, place: Place) -> Result<&'a str, BoardError>
    ensures ok { IfOk result (λ t. text_at (place_of place) (table_view table.now) ≡ Ok t.now) }
    ensures err { IfErr result (λ e. IsBoardRefusal e (text_at (place_of place) (table_view table.now))) }
{
    match value_at(table, place) {
        None => Err(BoardError::Missing(place)),
        Some(value) => match value.as_str() {
            None => Err(BoardError::WrongKind(place)),
            Some(text) => Ok(text),
        },
    }
}

/// The boolean at a key.
pub fn flag(table: &Table, place: Place) -> Result<bool, BoardError>
    ensures ok { IfOk result (λ b. flag_at (place_of place) (table_view table.now) ≡ Ok b) }
    ensures err { IfErr result (λ e. IsBoardRefusal e (flag_at (place_of place) (table_view table.now))) }
{
    match value_at(table, place) {
        None => Err(BoardError::Missing(place)),
        Some(value) => match value.as_bool() {
            None => Err(BoardError::WrongKind(place)),
            Some(flag) => Ok(flag),
        },
    }
}

/// What a region takes.
pub fn kind(table: &Table, place: Place) -> Result<RegionKind, BoardError>
    ensures ok { IfOk result (λ k. kind_at (place_of place) (table_view table.now) ≡ Ok k) }
    ensures err { IfErr result (λ e. IsBoardRefusal e (kind_at (place_of place) (table_view table.now))) }
{
    match text(table, place)? {
        "rom" => Ok(RegionKind::Rom),
        "ram" => Ok(RegionKind::Ram),
        _ => Err(BoardError::Range(place)),
    }
}

/// How a region is attributed.
pub fn side(table: &Table, place: Place) -> Result<RegionSide, BoardError>
    ensures ok { IfOk result (λ s. side_at (place_of place) (table_view table.now) ≡ Ok s) }
    ensures err { IfErr result (λ e. IsBoardRefusal e (side_at (place_of place) (table_view table.now))) }
{
    match text(table, place)? {
        "secure" => Ok(RegionSide::Secure),
        "nsc" => Ok(RegionSide::Nsc),
        "nonsecure" => Ok(RegionSide::NonSecure),
        _ => Err(BoardError::Range(place)),
    }
}

fn profile_named(place: Place, text: &str) -> Result<Profile, BoardError>
    ensures ok { IfOk result (λ p. profile_named (place_of place) text.now ≡ Ok p) }
    ensures err { IfErr result (λ e. IsBoardRefusal e (profile_named (place_of place) text.now)) }
{
    match text {
        "v8.0" => Ok(Profile::V80),
        "v8.1" => Ok(Profile::V81),
        _ => Err(BoardError::Range(place)),
    }
}

/// The profile, which is `v8.0` where the file has none.
pub fn read_profile(table: &Table, place: Place) -> Result<Profile, BoardError>
    ensures ok { IfOk result (λ p. profile_at (place_of place) (table_view table.now) ≡ Ok p) }
    ensures err { IfErr result (λ e. IsBoardRefusal e (profile_at (place_of place) (table_view table.now))) }
{
    match value_at(table, place) {
        None => Ok(Profile::V80),
        Some(value) => match value.as_str() {
            None => Err(BoardError::WrongKind(place)),
            Some(text) => profile_named(place, text),
        },
    }
}

/// Whether there is a mover, which the board hasn't where the file says nothing.
pub fn read_mover(table: &Table, place: Place) -> Result<bool, BoardError>
    ensures ok { IfOk result (λ b. mover_at (place_of place) (table_view table.now) ≡ Ok b) }
    ensures err { IfErr result (λ e. IsBoardRefusal e (mover_at (place_of place) (table_view table.now))) }
{
    match value_at(table, place) {
        None => Ok(false),
        Some(_) => flag(table, place),
    }
}

//! The tables of a board file: its regions and SAU regions, each with its keys in their order.

ghost use Rattle.std.specs.Prelude.{◌≡◌, ◌<◌, ◌≤◌, ◌-◌, ◌%◌, IfOk, IfErr, IsTrue, length, Ok, Some};
ghost use Rattle.toml.specs.View.{items_view, table_view, view};
ghost use Rattle.tz_model.specs.Board.{are_regions, are_sau_regions, is_region, is_sau_region};
ghost use Rattle.tz_board.specs.Boards.{each, last_in_block, of_kind, region_in, regions_at, regions_listed, sau_at, sau_listed, sau_region_in, tables_in, tables_of};
ghost use Rattle.tz_board.specs.BoardErrors.{IsBoardRefusal, place_of};
ghost use Rattle.tz_board.specs.Tables.{views};

use crate::error::{BoardError, Key, Place};
use crate::keys;
use std::alloc::Global;
use toml::{Table, Value};
use tz_model::{Region, SauRegion};

/// How many bytes a region that begins at an address may have.
fn room(base: u32) -> u32
    ensures { result ≡ 0xE0000000 - base }
{
    0xE000_0000u32.saturating_sub(base)
}

/// A region, in the table at an index.
fn region(table: &Table, index: u32) -> Result<Region, BoardError>
    ensures ok { IfOk result (λ r. region_in index (table_view table.now) ≡ Ok r) }
    ensures err { IfErr result (λ e. IsBoardRefusal e (region_in index (table_view table.now))) }
    ensures good { IfOk result (λ r. IsTrue (is_region r)) }
{
    let base = keys::number(table, Place::Region(index, Key::Base), 0, 0xFFFF_FFFF, 32)?;
    let size = keys::number(table, Place::Region(index, Key::Size), 32, room(base), 32)?;
    let kind = keys::kind(table, Place::Region(index, Key::Kind))?;
    let side = keys::side(table, Place::Region(index, Key::Side))?;
    Ok(Region {
        base,
        size,
        kind,
        side,
    })
}

/// The number, if it is the last byte of a block of 32.
fn last_in_block(place: Place, number: u32) -> Result<u32, BoardError>
    ensures ok { IfOk result (λ n. last_in_block (place_of place) number ≡ Ok n) }
    ensures err { IfErr result (λ e. IsBoardRefusal e (last_in_block (place_of place) number)) }
    ensures last { IfOk result (λ n. (n ≡ number) × (n % 32 ≡ 31)) }
{
    if number % 32 == 31 {
        Ok(number)
    } else {
        Err(BoardError::Range(place))
    }
}

/// An SAU region, in the table at an index.
fn sau_region(table: &Table, index: u32) -> Result<SauRegion, BoardError>
    ensures ok { IfOk result (λ r. sau_region_in index (table_view table.now) ≡ Ok r) }
    ensures err { IfErr result (λ e. IsBoardRefusal e (sau_region_in index (table_view table.now))) }
    ensures good { IfOk result (λ r. IsTrue (is_sau_region r)) }
{
    let place = Place::Sau(index, Key::Limit);
    let base = keys::number(table, Place::Sau(index, Key::Base), 0, 0xFFFF_FFFF, 32)?;
    let limit = last_in_block(place, keys::number(table, place, base, 0xFFFF_FFFF, 1)?)?;
    let nsc = keys::flag(table, Place::Sau(index, Key::Nsc))?;
    Ok(SauRegion { base, limit, nsc })
}

/// The values as tables, if all of them are tables.
fn as_tables<'a>(
    alloc: Global,
    values: &'a [Value],
    place: Place,
) -> Result<Vec<&'a Table>, BoardError>
    ensures ok { IfOk result (λ v. tables_of (items_view values.now) ≡ Some (views v.items)) }
    ensures err { IfErr result (λ e. IsBoardRefusal e (of_kind (place_of place) (tables_of (items_view values.now)))) }
{
    let mut tables = Vec::new(alloc);
    for value in values {
        match value.as_table() {
            None => return Err(BoardError::WrongKind(place)),
            Some(table) => match tables.push(table) {
                Ok(()) => {}
                Err(_) => return Err(BoardError::Memory),
            },
        }
    }
    Ok(tables)
}

/// The tables of a list of tables.
fn tables<'a>(alloc: Global, value: &'a Value, place: Place) -> Result<Vec<&'a Table>, BoardError>
    ensures ok { IfOk result (λ v. tables_in (place_of place) (view value.now) ≡ Ok (views v.items)) }
    ensures err { IfErr result (λ e. IsBoardRefusal e (tables_in (place_of place) (view value.now))) }
{
    match value.as_array() {
        None => Err(BoardError::WrongKind(place)),
        Some(values) => as_tables(alloc, values, place),
    }
}

/// The regions in their tables.
fn each_region(alloc: Global, tables: &[&Table]) -> Result<Vec<Region>, BoardError>
    ensures ok { IfOk result (λ v. each region_in 0 (views tables.now) ≡ Ok v.items) }
    ensures err { IfErr result (λ e. IsBoardRefusal e (each region_in 0 (views tables.now))) }
    ensures count { IfOk result (λ v. length v.items ≡ length tables.now) }
    ensures good { IfOk result (λ v. IsTrue (are_regions v.items)) }
{
    let mut regions = Vec::new(alloc);
    for (index, table) in tables.iter().enumerate() {
        let Ok(number) = u32::try_from(index) else {
            return Err(BoardError::Memory);
        };
        match region(table, number) {
            Ok(region) => match regions.push(region) {
                Ok(()) => {}
                Err(_) => return Err(BoardError::Memory),
            },
            Err(error) => return Err(error),
        }
    }
    Ok(regions)
}

/// The SAU regions in their tables.
fn each_sau_region(alloc: Global, tables: &[&Table]) -> Result<Vec<SauRegion>, BoardError>
    ensures ok { IfOk result (λ v. each sau_region_in 0 (views tables.now) ≡ Ok v.items) }
    ensures err { IfErr result (λ e. IsBoardRefusal e (each sau_region_in 0 (views tables.now))) }
    ensures good { IfOk result (λ v. IsTrue (are_sau_regions v.items)) }
{
    let mut regions = Vec::new(alloc);
    for (index, table) in tables.iter().enumerate() {
        let Ok(number) = u32::try_from(index) else {
            return Err(BoardError::Memory);
        };
        match sau_region(table, number) {
            Ok(region) => match regions.push(region) {
                Ok(()) => {}
                Err(_) => return Err(BoardError::Memory),
            },
            Err(error) => return Err(error),
        }
    }
    Ok(regions)
}

/// The regions of a list of tables, which isn't empty.
fn regions_listed(alloc: Global, value: &Value) -> Result<Vec<Region>, BoardError>
    ensures ok { IfOk result (λ v. regions_listed (view value.now) ≡ Ok v.items) }
    ensures err { IfErr result (λ e. IsBoardRefusal e (regions_listed (view value.now))) }
    ensures some { IfOk result (λ v. 0 < length v.items) }
    ensures good { IfOk result (λ v. IsTrue (are_regions v.items)) }
{
    let place = Place::Top(Key::Region);
    let tables = tables(alloc, value, place)?;
    if tables.is_empty() {
        return Err(BoardError::Missing(place));
    }
    each_region(alloc, &tables)
}

/// The regions of a board.
pub fn regions(alloc: Global, table: &Table) -> Result<Vec<Region>, BoardError>
    ensures ok { IfOk result (λ v. regions_at (table_view table.now) ≡ Ok v.items) }
    ensures err { IfErr result (λ e. IsBoardRefusal e (regions_at (table_view table.now))) }
    ensures some { IfOk result (λ v. 0 < length v.items) }
    ensures good { IfOk result (λ v. IsTrue (are_regions v.items)) }
{
    let place = Place::Top(Key::Region);
    match keys::value_at(table, place) {
        None => Err(BoardError::Missing(place)),
        Some(value) => regions_listed(alloc, value),
    }
}

/// The SAU regions of a list of tables.
fn sau_listed(alloc: Global, value: &Value) -> Result<Vec<SauRegion>, BoardError>
    ensures ok { IfOk result (λ v. sau_listed (view value.now) ≡ Ok v.items) }
    ensures err { IfErr result (λ e. IsBoardRefusal e (sau_listed (view value.now))) }
    ensures good { IfOk result (λ v. IsTrue (are_sau_regions v.items)) }
{
    let tables = tables(alloc, value, Place::Top(Key::Sau))?;
    each_sau_region(alloc, &tables)
}

/// The SAU regions of a board, of which there may be none.
pub fn sau(alloc: Global, table: &Table) -> Result<Vec<SauRegion>, BoardError>
    ensures ok { IfOk result (λ v. sau_at (table_view table.now) ≡ Ok v.items) }
    ensures err { IfErr result (λ e. IsBoardRefusal e (sau_at (table_view table.now))) }
    ensures good { IfOk result (λ v. IsTrue (are_sau_regions v.items)) }
{
    match keys::value_at(table, Place::Top(Key::Sau)) {
        None => Ok(Vec::new(alloc)),
        Some(value) => sau_listed(alloc, value),
    }
}

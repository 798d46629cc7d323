//! Tables with the masks of their hosts.

ghost use Rattle.std.specs.Prelude.{◌≡◌, ◌<◌, ◌≤◌, ◌==◌, ◌||◌, ◌&&◌, [], All, ℕ, find, fold, length, map, nat_lt, not, option_copied, position, IfOk};
ghost use Rattle.std.specs.BTreeMap.{values};
ghost use Rattle.std.specs.List.{list_any};
ghost use Rattle.std.specs.Str.{bytes_eq};
ghost use Rattle.cj_model.specs.Cluster.Masks.{in_mask};
ghost use Rattle.cj_model.specs.Database.Tables.{Rises, put_by};
ghost use Rattle.cj_place.specs.Layouts.{by_row};
ghost use Rattle.cj_place.specs.Layouts as layouts;
ghost use Rattle.cj_place.specs.Kept.{HasMask, IsMasked, mask_in};

use cj_model::{BACKEND_LIMIT, Duplicate, Name, NoMemory, PlaceRow, PlaceRows, has_bit, with_bit};
use std::alloc::Global;
use std::cmp::Ordering;
use std::collections::BTreeMap;

/// A row, and the mask of its hosts.
#[derive(Drop)]
pub struct HostRow {
    pub given: PlaceRow,
    pub mask: u32,
}

impl Duplicate for HostRow {
    fn copy(&self, alloc: Global) -> Result<HostRow, NoMemory> {
        Ok(HostRow {
            given: self.given.copy(alloc)?,
            mask: self.mask,
        })
    }
}

fn place_in(names: &[Name], name: &Name) -> Option<usize>
    ensures { result ≡ position (λ n. bytes_eq n name.now) names.now }
{
    names.iter().position(|n| n.is(name))
}

/// The number of the backend with this name, if there is one.
pub fn number_of(names: &[Name], name: &Name) -> Option<u8>
    requires { length names.now ≤ BACKEND_LIMIT }
    ensures { result ≡ position (λ n. bytes_eq n name.now) names.now }
{
    match place_in(names, name) {
        Some(b) => Some(b as u8),
        None => None,
    }
}

fn with_host(names: &[Name], mask: u32, host: &Name) -> u32
    requires { length names.now ≤ BACKEND_LIMIT }
    ensures { (b : ℕ) → in_mask result b ≡ (in_mask mask b || (nat_lt b (length names.now) && layouts.backend_number names.now host.now == b)) }
{
    match number_of(names, host) {
        Some(b) => with_bit(mask, b),
        None => mask,
    }
}

fn mask_of(names: &[Name], hosts: &[Name]) -> u32
    requires { length names.now ≤ BACKEND_LIMIT }
    ensures { HasMask names.now hosts.now result }
{
    let mut mask = 0;
    for host in hosts {
        mask = with_host(names, mask, host);
    }
    mask
}

fn host_row(names: &[Name], given: PlaceRow) -> HostRow
    requires { length names.now ≤ BACKEND_LIMIT }
    ensures given { result.given ≡ given }
    ensures mask { IsMasked names.now result }
{
    let mask = mask_of(names, given.hosts.as_slice());
    HostRow { given, mask }
}

/// A map of the rows with their masks, in the order of their tables' names.
fn rows_by_table(
    alloc: Global,
    names: &[Name],
    rows: PlaceRows,
) -> Result<BTreeMap<Vec<u8>, HostRow>, NoMemory>
    requires { length names.now ≤ BACKEND_LIMIT }
    ensures masks { IfOk result (λ placed. All (IsMasked names.now) (values placed)) }
    ensures rows { IfOk result (λ placed. map (λ row. row.given) (values placed) ≡ fold (put_by by_row) [] rows) }
{
    let mut placed = BTreeMap::new(alloc);
    for row in rows.into_vec() {
        let table = Vec::from_slice(alloc, row.table.as_slice())?;
        placed.insert(table, host_row(names, row))?;
    }
    Ok(placed)
}

/// The rows in rising name of their table, with their masks.
pub fn host_rows(alloc: Global, names: &[Name], rows: PlaceRows) -> Result<Vec<HostRow>, NoMemory>
    requires { length names.now ≤ BACKEND_LIMIT }
    ensures masks { IfOk result (λ made. All (IsMasked names.now) made.items) }
    ensures rows { IfOk result (λ made. map (λ row. row.given) made.items ≡ fold (put_by by_row) [] rows) }
{
    let placed = rows_by_table(alloc, names, rows)?;
    let mut made = Vec::with_capacity(alloc, placed.len())?;
    for row in placed.into_values() {
        made.push(row)?;
    }
    Ok(made)
}

/// The row of a table, by binary search.
fn find_row<'a>(rows: &'a [HostRow], table: &Name) -> Option<&'a HostRow>
    requires { Rises by_row (map (λ row. row.given) rows.now) }
    ensures { option_copied result ≡ find (λ row. bytes_eq row.given.table table.now) rows.now }
{
    if rows.is_empty() {
        return None;
    }
    let middle = rows.len() / 2;
    let row = &rows[middle];
    match table.as_slice().cmp(row.given.table.as_slice()) {
        Ordering::Less => find_row(&rows[..middle], table),
        Ordering::Equal => Some(row),
        Ordering::Greater => find_row(&rows[middle + 1..], table),
    }
}

/// The mask of the row of a table; 0 if there is no such row.
pub fn mask_at(rows: &[HostRow], table: &Name) -> u32
    requires { Rises by_row (map (λ row. row.given) rows.now) }
    ensures { result ≡ mask_in rows.now table.now }
{
    match find_row(rows, table) {
        Some(row) => row.mask,
        None => 0,
    }
}

/// Whether the mask of some row has backend `b` and not backend `other`.
pub fn has_beyond(rows: &[HostRow], b: u8, other: u8) -> bool
    requires backend { b < 32 }
    requires other { other < 32 }
    ensures { result ≡ list_any (λ row. in_mask row.mask b && not (in_mask row.mask other)) rows.now }
{
    rows.iter()
        .any(|row| has_bit(row.mask, b) && !has_bit(row.mask, other))
}

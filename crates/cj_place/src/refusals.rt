//! Which placements are refused, and why.

ghost use Rattle.std.specs.Prelude.{◌≡◌, [], find, map, not, option_copied, option_map, IfOk};
ghost use Rattle.std.specs.List.{list_all, list_any};
ghost use Rattle.std.specs.Str.{bytes_eq};
ghost use Rattle.cj_place.specs.Refusals.{bad_level, is_among, refusal_of_placement, some_row};
ghost use Rattle.cj_place.specs.Refusals as refusals;

use crate::error::PlaceError;
use cj_model::{BACKEND_LIMIT, Level, ListOf, Name, Names, NoMemory, PlaceRow};
use std::alloc::Global;
use std::collections::BTreeSet;

fn is_among(names: &[Name], name: &Name) -> bool
    ensures { result ≡ refusals.is_among names.now name.now }
{
    names.iter().any(|other| other.is(name))
}

fn has_table(rows: &[PlaceRow], table: &Name) -> bool
    ensures { result ≡ list_any (λ row. bytes_eq row.table table.now) rows.now }
{
    rows.iter().any(|row| row.table.is(table))
}

/// The first name that is among those before it, by a set of these.
fn repeated_by_set(alloc: Global, names: &[Name]) -> Result<Option<Name>, NoMemory>
    ensures { IfOk result (λ name. name ≡ refusals.repeated [] names.now) }
{
    let mut seen = BTreeSet::new(alloc);
    for name in names {
        if !seen.insert(name.as_slice())? {
            return Ok(Some(name.copy()));
        }
    }
    Ok(None)
}

/// The first name that is among those before it, by comparing it with each of these; allocates nothing.
fn repeated_by_scan(names: &[Name]) -> Option<Name>
    ensures { result ≡ refusals.repeated [] names.now }
{
    for (i, name) in names.iter().enumerate() {
        if is_among(&names[..i], name) {
            return Some(name.copy());
        }
    }
    None
}

/// The first name that is among those before it. Without memory for a set this needs more time.
fn repeated(alloc: Global, names: &[Name]) -> Option<Name>
    ensures { result ≡ refusals.repeated [] names.now }
{
    match repeated_by_set(alloc, names) {
        Ok(name) => name,
        Err(_) => repeated_by_scan(names),
    }
}

fn tables_of(alloc: Global, rows: &[PlaceRow]) -> Result<Names, NoMemory>
    ensures { IfOk result (λ tables. tables ≡ map (λ row. row.table) rows.now) }
{
    let mut tables = ListOf::new(alloc);
    for row in rows {
        tables.push(row.table.copy())?;
    }
    Ok(tables)
}

fn repeated_table_by_scan(rows: &[PlaceRow]) -> Option<Name>
    ensures { result ≡ refusals.repeated [] (map (λ row. row.table) rows.now) }
{
    for (i, row) in rows.iter().enumerate() {
        if has_table(&rows[..i], &row.table) {
            return Some(row.table.copy());
        }
    }
    None
}

fn repeated_table(alloc: Global, rows: &[PlaceRow]) -> Option<Name>
    ensures { result ≡ refusals.repeated [] (map (λ row. row.table) rows.now) }
{
    match tables_of(alloc, rows) {
        Ok(tables) => repeated(alloc, tables.as_slice()),
        Err(_) => repeated_table_by_scan(rows),
    }
}

fn repeated_host(alloc: Global, rows: &[PlaceRow]) -> Option<Name>
    ensures { result ≡ some_row (λ row. refusals.repeated [] row.hosts) rows.now }
{
    for row in rows {
        if let Some(name) = repeated(alloc, row.hosts.as_slice()) {
            return Some(name);
        }
    }
    None
}

fn twice(alloc: Global, backends: &[Name], rows: &[PlaceRow]) -> Option<Name>
    ensures { result ≡ refusals.twice backends.now rows.now }
{
    if let Some(name) = repeated(alloc, backends) {
        return Some(name);
    }
    if let Some(name) = repeated_table(alloc, rows) {
        return Some(name);
    }
    repeated_host(alloc, rows)
}

fn stranger_of(backends: &[Name], hosts: &[Name]) -> Option<Name>
    ensures { result ≡ find (λ host. not (refusals.is_among backends.now host)) hosts.now }
{
    for host in hosts {
        if !is_among(backends, host) {
            return Some(host.copy());
        }
    }
    None
}

fn stranger(backends: &[Name], rows: &[PlaceRow]) -> Option<Name>
    ensures { result ≡ refusals.stranger backends.now rows.now }
{
    for row in rows {
        if let Some(name) = stranger_of(backends, row.hosts.as_slice()) {
            return Some(name);
        }
    }
    None
}

fn table_of(row: Option<&PlaceRow>) -> Option<Name>
    ensures { result ≡ option_map (λ row. row.table) (option_copied row.entry) }
{
    match row {
        Some(row) => Some(row.table.copy()),
        None => None,
    }
}

fn no_host(rows: &[PlaceRow]) -> Option<Name>
    ensures { result ≡ refusals.no_host rows.now }
{
    table_of(rows.iter().find(|row| row.hosts.len() == 0))
}

fn many_hosts(rows: &[PlaceRow]) -> Option<Name>
    ensures { result ≡ refusals.many_hosts rows.now }
{
    table_of(rows.iter().find(|row| row.hosts.len() > 1))
}

fn has_all(backends: &[Name], hosts: &[Name]) -> bool
    ensures { result ≡ list_all (refusals.is_among hosts.now) backends.now }
{
    backends.iter().all(|backend| is_among(hosts, backend))
}

fn not_all(backends: &[Name], rows: &[PlaceRow]) -> Option<Name>
    ensures { result ≡ refusals.not_all backends.now rows.now }
{
    table_of(
        rows.iter()
            .find(|row| !has_all(backends, row.hosts.as_slice())),
    )
}

/// Why the level doesn't allow the rows, if it doesn't.
fn refused_by_level(level: Level, backends: &[Name], rows: &[PlaceRow]) -> Option<PlaceError>
    ensures { result ≡ bad_level level backends.now rows.now }
{
    match level {
        Level::Raidb0 => many_hosts(rows).map(PlaceError::ManyHosts),
        Level::Raidb1 => not_all(backends, rows).map(PlaceError::NotAll),
        Level::Raidb2 => None,
    }
}

/// Why the rows make no placement of this level over the backends; `None` if they do.
pub fn refusal(
    alloc: Global,
    level: Level,
    backends: &[Name],
    rows: &[PlaceRow],
) -> Option<PlaceError>
    ensures { result ≡ refusal_of_placement level backends.now rows.now }
{
    if backends.is_empty() || backends.len() > BACKEND_LIMIT as usize {
        return Some(PlaceError::BackendCount);
    }
    if let Some(name) = twice(alloc, backends, rows) {
        return Some(PlaceError::Twice(name));
    }
    if let Some(name) = stranger(backends, rows) {
        return Some(PlaceError::Stranger(name));
    }
    if let Some(table) = no_host(rows) {
        return Some(PlaceError::NoHost(table));
    }
    refused_by_level(level, backends, rows)
}

//! The changes of a write.

ghost use Rattle.std.specs.Prelude.{IfOk};
ghost use Rattle.cj_model.specs.Database.Outcomes.{IsOutcome};

use crate::changes::Changes;
use crate::error::LiteError;
use crate::reading::rows_written;
use crate::small::{add_table, rows_seen, written};
use crate::table::LiteTable;
use cj_model::{Duplicate, LOCKED, Outcome, ROW_LIMIT, ROWS_FULL, Refusal, Row, Value, Write};
use cj_table::Tables;
use sqlite::{Connection, MemStore};
use std::alloc::Global;

fn key_of(alloc: Global, row: &Row, place: usize) -> Result<Value, LiteError> {
    match row.as_slice().get(place) {
        Some(key) => Ok(key.copy(alloc)?),
        None => Err(LiteError::Fault),
    }
}

/// The changes that remove the rows of these keys.
fn removals(alloc: Global, keys: &[Value]) -> Result<Changes, LiteError> {
    let mut changes = Changes::new(alloc);
    for key in keys {
        changes.put(key.copy(alloc)?, None)?;
    }
    Ok(changes)
}

/// The changes that turn the rows of the keys `before` into the rows `after`.
pub fn changes_between(
    alloc: Global,
    place: usize,
    before: &[Value],
    after: Vec<Row>,
) -> Result<Changes, LiteError> {
    let mut changes = removals(alloc, before)?;
    for row in after {
        let key = key_of(alloc, &row, place)?;
        changes.put(key, Some(row))?;
    }
    Ok(changes)
}

/// Copies of the rows' keys, their values at index `place`.
pub fn keys_of(alloc: Global, place: usize, rows: &[Row]) -> Result<Vec<Value>, LiteError> {
    let mut keys = Vec::new(alloc);
    for row in rows {
        keys.push(key_of(alloc, row, place)?)?;
    }
    Ok(keys)
}

/// Carries out a write that was done in a small database: the rows at these keys become those of the small
/// database.
fn carry_out(
    alloc: Global,
    conn: &mut Connection<MemStore>,
    table: &mut LiteTable,
    tx: u64,
    keys: &[Value],
    small: &Tables,
    done: u64,
) -> Result<Outcome, LiteError>
    ensures { IfOk result IsOutcome }
{
    let rows = rows_seen(alloc, small, 0, &table.schema().table)?;
    let others = table.count(tx).saturating_sub(keys.len());
    let count = others.saturating_add(rows.len());
    if count > ROW_LIMIT {
        return Ok(Outcome::Refused(Refusal {
            code: ROWS_FULL,
            a: count as u64,
            b: 0,
        }));
    }
    let changes = changes_between(alloc, table.key(), keys, rows)?;
    table.change(alloc, conn, tx, changes, count)?;
    Ok(Outcome::Done(done))
}

/// Carries out a write of transaction `tx`, 0 for none, in its table, or refuses it. After an error with
/// `tx` 0 the table is unchanged; with another `tx` its draft may have some of the changes.
pub fn write_table(
    alloc: Global,
    conn: &mut Connection<MemStore>,
    table: &mut LiteTable,
    tx: u64,
    write: &Write,
) -> Result<Outcome, LiteError>
    ensures { IfOk result IsOutcome }
{
    if let Some(other) = table.other_writer(tx) {
        return Ok(Outcome::Refused(Refusal {
            code: LOCKED,
            a: other,
            b: 0,
        }));
    }
    let rows = rows_written(alloc, conn, table, tx, write)?;
    let keys = keys_of(alloc, table.key(), &rows)?;
    let mut small = Tables::new(alloc);
    add_table(alloc, &mut small, table.schema(), rows)?;
    match written(&mut small, write)? {
        Outcome::Done(done) => carry_out(alloc, conn, table, tx, &keys, &small, done),
        refused => Ok(refused),
    }
}

//! Whole tables that are put into a database.

ghost use Rattle.std.specs.Prelude.{◌≡◌, IfOk};
ghost use Rattle.cj_model.specs.Database.Tables.{column_names, is_distinct};
ghost use Rattle.cj_table.specs.Put as put;

use crate::slots::put_slot;
use cj_dml::{has_misfit, is_column, puts};
use cj_model::{COLUMN_LIMIT, Column, NoMemory, ROW_LIMIT, Rows, Schema};
use cj_ptree::Shared;
use cj_rowstore::StoredTable;
use std::alloc::Global;

/// Whether all columns have different names.
fn differ(mut columns: &[Column]) -> bool
    ensures { result ≡ is_distinct (column_names columns.entry.now) }
{
    while let [column, rest @ ..] = columns {
        if is_column(rest, &column.name) {
            return false;
        }
        columns = rest;
    }
    true
}

/// Whether a table may have this schema.
fn is_schema(schema: &Schema) -> bool
    ensures { result ≡ put.is_schema schema.now }
{
    let columns = schema.columns.as_slice();
    columns.len() <= COLUMN_LIMIT && (schema.key as usize) < columns.len() && differ(columns)
}

/// Whether the rows may be those of a table of this schema, unless two have one key.
fn may_be_table(schema: &Schema, rows: &Rows) -> bool
    ensures { result ≡ put.may_be_table schema.now rows.now }
{
    is_schema(schema)
        && rows.len() <= ROW_LIMIT
        && !has_misfit(schema.columns.as_slice(), rows.as_slice())
}

/// The stored table with these rows; none where the schema and rows make no table.
fn slot_made(alloc: Global, schema: Schema, rows: Rows) -> Result<Option<StoredTable>, NoMemory>
    ensures { IfOk result (λ made. made ≡ put.slot_made schema rows) }
{
    if !may_be_table(&schema, &rows) {
        return Ok(None);
    }
    let count = rows.len();
    let Some(changes) = puts(alloc, schema.key as usize, rows)? else {
        return Ok(None);
    };
    let slot = StoredTable::of(alloc, schema, changes, count)?;
    Ok(Some(slot))
}

/// Puts a table with these rows, in place of one of its name. False, with the slots unchanged, if the
/// schema and rows make no table. `NoMemory` leaves the slots unchanged too.
pub fn put_table(
    alloc: Global,
    slots: &mut Vec<Shared<StoredTable>>,
    schema: Schema,
    rows: Rows,
) -> Result<bool, NoMemory>
    ensures { put.PutsTable slots.old.items schema rows result slots.new.items }
{
    let Some(slot) = slot_made(alloc, schema, rows)? else {
        return Ok(false);
    };
    put_slot(slots, Shared::of(alloc, slot))?;
    Ok(true)
}

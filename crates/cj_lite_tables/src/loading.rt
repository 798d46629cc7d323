//! Tables that are loaded into SQLite.

ghost use Rattle.std.specs.Prelude.{◌≡◌, IfOk};
ghost use Rattle.cj_model.specs.Database.Storable.{writers};
ghost use Rattle.cj_model.specs.Database.Tables.{IsDatabase};

use crate::error::LiteError;
use crate::table::LiteTable;
use crate::writing::{changes_between, keys_of};
use cj_model::{Db, Duplicate, NoMemory, Row, Slot, Table, Value};
use cj_table::Tables;
use sqlite::{Connection, MemStore};
use std::alloc::Global;

/// Replaces the rows of these keys by these rows, as transaction `tx`, 0 for none, sees them.
fn fill(
    alloc: Global,
    conn: &mut Connection<MemStore>,
    table: &mut LiteTable,
    tx: u64,
    keys: &[Value],
    rows: Vec<Row>,
) -> Result<(), LiteError> {
    let count = rows.len();
    let changes = changes_between(alloc, table.key(), keys, rows)?;
    table.change(alloc, conn, tx, changes, count)
}

/// Loads one table: its rows into SQLite, and its draft.
fn loaded_table(
    alloc: Global,
    conn: &mut Connection<MemStore>,
    slot: &Slot,
) -> Result<LiteTable, LiteError> {
    let Table { schema, rows } = slot.base.copy(alloc)?;
    let mut table = LiteTable::create(alloc, conn, schema)?;
    let keys = keys_of(alloc, table.key(), rows.as_slice())?;
    fill(alloc, conn, &mut table, 0, &[], rows.into_vec())?;
    if let Some(draft) = &slot.draft {
        let rows = draft.table.rows.copy(alloc)?;
        fill(alloc, conn, &mut table, draft.tx, &keys, rows.into_vec())?;
    }
    Ok(table)
}

/// Loads the tables of a database: their rows into SQLite, and their drafts.
pub fn loaded_tables(
    alloc: Global,
    conn: &mut Connection<MemStore>,
    db: &Db,
) -> Result<Vec<LiteTable>, LiteError> {
    let mut tables = Vec::new(alloc);
    for slot in db.as_slice() {
        tables.push(loaded_table(alloc, conn, slot)?)?;
    }
    Ok(tables)
}

/// The transactions that have a draft in a database, in rising number. Fails only with `NoMemory`.
pub fn writers_in(alloc: Global, db: Db) -> Result<Vec<u64>, NoMemory>
    requires { IsDatabase db }
    ensures { IfOk result (λ found. found.items ≡ writers db) }
{
    let tables = Tables::from_db(alloc, db)?;
    tables.writers()
}

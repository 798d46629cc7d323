//! Conversion between databases of the vocabulary and databases of trees.

ghost use Rattle.std.specs.Prelude.{◌≡◌, All, None, Some, IfOk, OnOk};
ghost use Rattle.cj_model.specs.Database.Tables.{IsSlot, IsTable, Rises, by_key};
ghost use Rattle.cj_rowstore.specs.RowEntries.{TurnsInto};
ghost use Rattle.cj_rowstore.specs.RowEntries as entries;

use cj_model::{Db, Draft, Duplicate, NoMemory, Row, Rows, Slot, Table, copies};
use cj_ptree::Shared;
use cj_rowstore::{RowMap, Scan, StoredTable, View, key_of};
use std::alloc::Global;

/// The changes that put each row at its key.
fn puts(alloc: Global, place: usize, rows: Rows) -> Result<RowMap, NoMemory>
    ensures { IfOk result (λ changes. changes ≡ entries.puts place rows) }
{
    let mut changes = RowMap::new(alloc);
    for row in rows.into_vec() {
        let key = key_of(alloc, row.as_slice(), place)?;
        changes.insert(key, Some(row))?;
    }
    Ok(changes)
}

/// The changes that turn the old rows into the new ones, both in rising key. A row that stays as it is
/// needs no change.
fn changes_to(alloc: Global, place: usize, old: Scan, new: Rows) -> Result<RowMap, NoMemory>
    requires old { Rises (by_key place) old }
    requires new { Rises (by_key place) new }
    ensures { IfOk result (λ changes. TurnsInto place old.entry new changes) }
{
    let mut changes = puts(alloc, place, new)?;
    changes.rises();
    for row in old {
        let key = key_of(alloc, row, place)?;
        changes.settle(key, row)?;
    }
    Ok(changes)
}

/// The stored form of a table, without a draft.
fn stored_table(alloc: Global, table: Table) -> Result<StoredTable, NoMemory>
    requires { IsTable table }
    ensures { IfOk result (λ stored. stored ≡ record { base = table; draft = None }) }
{
    let Table { schema, rows } = table;
    let count = rows.len();
    let changes = puts(alloc, schema.key as usize, rows)?;
    let stored = StoredTable::of(alloc, schema, changes, count)?;
    Ok(stored)
}

/// Makes this the draft of a stored table that has none.
fn put_draft(alloc: Global, stored: &mut StoredTable, draft: Draft) -> Result<(), NoMemory>
    requires none { stored.old.draft ≡ None }
    requires slot { IsSlot (record { base = stored.old.base; draft = Some draft }) }
    ensures { OnOk result (stored.new ≡ record { base = stored.old.base; draft = Some draft }) }
{
    let Draft { tx, table } = draft;
    let Table { schema: _, rows } = table;
    let count = rows.len();
    let place = stored.schema().key as usize;
    let changes = changes_to(alloc, place, stored.scan(tx), rows)?;
    stored.change(tx, changes, count)
}

/// The stored form of a slot.
fn stored_slot(alloc: Global, slot: Slot) -> Result<StoredTable, NoMemory>
    requires { IsSlot slot }
    ensures { IfOk result (λ stored. stored ≡ slot) }
{
    let Slot { base, draft } = slot;
    let mut stored = stored_table(alloc, base)?;
    match draft {
        Some(draft) => {
            put_draft(alloc, &mut stored, draft)?;
            Ok(stored)
        }
        None => Ok(stored),
    }
}

/// The stored form of a database: rows are moved, and keys copied. Fails only with `NoMemory`.
pub fn stored_slots(alloc: Global, db: Db) -> Result<Vec<Shared<StoredTable>>, NoMemory>
    requires { All IsSlot db }
    ensures { IfOk result (λ slots. slots.items ≡ db) }
{
    let mut slots = Vec::new(alloc);
    for slot in db.into_vec() {
        let stored = stored_slot(alloc, slot)?;
        slots.push(Shared::of(alloc, stored))?;
    }
    Ok(slots)
}

fn copied_rows(alloc: Global, scan: Scan) -> Result<Rows, NoMemory>
    ensures { IfOk result (λ rows. rows ≡ scan.entry) }
{
    let mut rows = Rows::new(alloc);
    for row in scan {
        rows.push(Row::from_vec(copies(alloc, row)?))?;
    }
    Ok(rows)
}

fn copied_table(alloc: Global, view: &View) -> Result<Table, NoMemory>
    ensures { IfOk result (λ table. table ≡ view.now) }
{
    Ok(Table {
        schema: view.schema().copy(alloc)?,
        rows: copied_rows(alloc, view.scan())?,
    })
}

fn copied_draft(alloc: Global, stored: &StoredTable) -> Result<Option<Draft>, NoMemory>
    requires { IsSlot stored.now }
    ensures { IfOk result (λ draft. draft ≡ stored.now.draft) }
{
    match stored.writer() {
        Some(tx) => Ok(Some(Draft {
            tx,
            table: copied_table(alloc, &View::of(stored, tx))?,
        })),
        None => Ok(None),
    }
}

fn copied_slot(alloc: Global, stored: &StoredTable) -> Result<Slot, NoMemory>
    requires { IsSlot stored.now }
    ensures { IfOk result (λ slot. slot ≡ stored.now) }
{
    Ok(Slot {
        base: copied_table(alloc, &View::of(stored, 0))?,
        draft: copied_draft(alloc, stored)?,
    })
}

/// A copy of stored slots as a database of the vocabulary. Fails only with `NoMemory`.
pub fn copied_slots(alloc: Global, slots: &[Shared<StoredTable>]) -> Result<Db, NoMemory>
    requires { All IsSlot slots.now }
    ensures { IfOk result (λ db. db ≡ slots.now) }
{
    let mut db = Db::new(alloc);
    for slot in slots {
        db.push(copied_slot(alloc, slot.get())?)?;
    }
    Ok(db)
}

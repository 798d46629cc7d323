//! Tables with their rows, and databases.

use crate::list::ListOf;
use crate::memory::{Duplicate, NoMemory};
use crate::schema::Schema;
use crate::value::Value;
use std::alloc::Global;

/// The values of a row, in the order of the columns.
pub type Row = ListOf<Value>;

pub type Rows = ListOf<Row>;

/// A table: its schema, and its rows in rising order of the primary key.
#[derive(Drop)]
pub struct Table {
    pub schema: Schema,
    pub rows: Rows,
}

/// What a transaction has made of a table, and not yet committed.
#[derive(Drop)]
pub struct Draft {
    /// The transaction, above 0.
    pub tx: u64,
    pub table: Table,
}

/// A table as committed, and the draft of the transaction that writes it.
#[derive(Drop)]
pub struct Slot {
    pub base: Table,
    pub draft: Option<Draft>,
}

/// A database: slots in rising name of their table.
pub type Db = ListOf<Slot>;

impl Duplicate for Table {
    fn copy(&self, alloc: Global) -> Result<Table, NoMemory> {
        Ok(Table {
            schema: self.schema.copy(alloc)?,
            rows: self.rows.copy(alloc)?,
        })
    }
}

impl Duplicate for Draft {
    fn copy(&self, alloc: Global) -> Result<Draft, NoMemory> {
        Ok(Draft {
            tx: self.tx,
            table: self.table.copy(alloc)?,
        })
    }
}

impl Duplicate for Slot {
    fn copy(&self, alloc: Global) -> Result<Slot, NoMemory> {
        Ok(Slot {
            base: self.base.copy(alloc)?,
            draft: self.draft.copy(alloc)?,
        })
    }
}

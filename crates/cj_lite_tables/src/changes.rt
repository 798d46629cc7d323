//! Changes of rows, by key.

use crate::error::LiteError;
use crate::statements::Statements;
use crate::values::{parameter, parameters};
use cj_model::{Duplicate, Row, Value};
use sqlite::{MemStore, Transaction};
use std::alloc::Global;
use std::collections::BTreeMap;

/// Keys, each with the row that it gets, or with none where its row is removed.
#[derive(Drop)]
pub struct Changes {
    rows: BTreeMap<Value, Option<Row>>,
}

fn put_all(
    alloc: Global,
    conn: &mut Transaction<'_, MemStore>,
    statements: &Statements,
    rows: &BTreeMap<Value, Option<Row>>,
) -> Result<(), LiteError> {
    for row in rows.values() {
        if let Some(row) = row {
            let values = parameters(alloc, row)?;
            conn.execute_prepared(statements.put.as_statement(), &values)?;
        }
    }
    Ok(())
}

impl Changes {
    /// No changes, without allocation.
    pub fn new(alloc: Global) -> Changes {
        Changes {
            rows: BTreeMap::new(alloc),
        }
    }

    /// The change at a key; none if the key has no change.
    pub fn get(&self, key: &Value) -> Option<&Option<Row>> {
        self.rows.get(key)
    }

    /// Puts a change at a key, in place of an earlier one. `None` as row removes the row. Fails only with
    /// `LiteError::NoMemory`.
    pub fn put(&mut self, key: Value, row: Option<Row>) -> Result<(), LiteError> {
        self.rows.insert(key, row)?;
        Ok(())
    }

    /// Adds later changes, which replace earlier ones at the same keys. An error may leave some of them
    /// added.
    pub fn absorb(&mut self, later: Changes) -> Result<(), LiteError> {
        let Changes { rows } = later;
        for (key, row) in rows {
            self.put(key, row)?;
        }
        Ok(())
    }

    /// Copies of the rows that the changes put.
    pub fn standing(&self, alloc: Global) -> Result<Vec<Row>, LiteError> {
        let mut standing = Vec::new(alloc);
        for row in self.rows.values() {
            if let Some(row) = row {
                standing.push(row.copy(alloc)?)?;
            }
        }
        Ok(standing)
    }

    /// Makes the changes in a transaction of SQLite, which the caller commits. Rows are removed from the
    /// last key on, and put from the first on, so that SQLite's lists of rows move little.
    pub fn run(
        &self,
        alloc: Global,
        conn: &mut Transaction<'_, MemStore>,
        statements: &Statements,
    ) -> Result<(), LiteError> {
        for (key, row) in self.rows.iter().rev() {
            if row.is_none() {
                conn.execute_prepared(statements.remove.as_statement(), &[parameter(key)])?;
            }
        }
        put_all(alloc, conn, statements, &self.rows)
    }
}

//! A table in SQLite, and the uncommitted changes of one transaction to it.

use crate::changes::Changes;
use crate::error::LiteError;
use crate::search::Search;
use crate::statements::Statements;
use crate::values::{parameter, row_of};
use cj_model::{Duplicate, Kind, Name, Row, Schema, Text, Value};
use sqlite::{Connection, MemStore, Rows, Transaction};
use std::alloc::Global;

/// The uncommitted changes of one transaction to a table, which SQLite does not have.
pub struct LiteDraft {
    /// The transaction's number, above 0.
    pub tx: u64,
    pub changes: Changes,
    /// The number of the table's rows after the changes.
    pub count: usize,
}

// Written out, so that a caller does not prove again how each part is dropped.
impl Drop for LiteDraft {
    fn drop(self) {
        let LiteDraft {
            tx: _,
            changes: _,
            count: _,
        } = self;
    }
}

/// A table whose committed rows are in SQLite.
pub struct LiteTable {
    schema: Schema,
    statements: Statements,
    /// The number of rows in SQLite.
    count: usize,
    draft: Option<LiteDraft>,
}

// Written out, so that a caller does not prove again how each part is dropped.
impl Drop for LiteTable {
    fn drop(self) {
        let LiteTable {
            schema: _,
            statements: _,
            count: _,
            draft: _,
        } = self;
    }
}

/// The least value of a kind.
fn least(alloc: Global, kind: Kind) -> Result<Value, LiteError> {
    match kind {
        Kind::Integer => Ok(Value::Int(i64::MIN)),
        Kind::Text => match Text::of(Vec::new(alloc)) {
            Some(text) => Ok(Value::of_text(alloc, text)?),
            None => Err(LiteError::Fault),
        },
    }
}

/// Begins a transaction of SQLite.
pub fn started(conn: &mut Connection<MemStore>) -> Result<Transaction<'_, MemStore>, LiteError> {
    if !conn.is_autocommit() {
        return Err(LiteError::Fault);
    }
    Ok(conn.transaction())
}

/// The rows in question among those that SQLite gives in rising key, without those at changed keys.
fn taken(
    alloc: Global,
    rows: &mut Rows<'_, MemStore>,
    place: usize,
    changes: Option<&Changes>,
    search: &Search,
) -> Result<Vec<Row>, LiteError> {
    let mut found = Vec::new(alloc);
    for _ in 0..u64::MAX {
        let Some(given) = rows.next()? else {
            return Ok(found);
        };
        let row = row_of(alloc, given)?;
        let Some(key) = row.as_slice().get(place) else {
            return Err(LiteError::Fault);
        };
        if search.is_enough(found.len()) || !search.goes_on(key) {
            return Ok(found);
        }
        if !is_changed(changes, key) && search.takes(&row) {
            found.push(row)?;
        }
    }
    Ok(found)
}

fn is_changed(changes: Option<&Changes>, key: &Value) -> bool {
    match changes {
        Some(changes) => changes.get(key).is_some(),
        None => false,
    }
}

/// Adds the rows in question among those that the changes put.
fn add_standing(
    alloc: Global,
    changes: &Changes,
    search: &Search,
    found: &mut Vec<Row>,
) -> Result<(), LiteError> {
    for row in changes.standing(alloc)? {
        if search.takes(&row) {
            found.push(row)?;
        }
    }
    Ok(())
}

impl LiteTable {
    /// Creates a table, in SQLite too, which must not have it yet.
    pub fn create(
        alloc: Global,
        conn: &mut Connection<MemStore>,
        schema: Schema,
    ) -> Result<LiteTable, LiteError> {
        let statements = Statements::create(alloc, conn, &schema)?;
        Ok(LiteTable {
            schema,
            statements,
            count: 0,
            draft: None,
        })
    }

    /// The table's schema.
    pub fn schema(&self) -> &Schema {
        &self.schema
    }

    /// Whether the table has this name.
    pub fn is_named(&self, name: &Name) -> bool {
        self.schema.table.is(name)
    }

    /// The index of the key among the columns.
    pub fn key(&self) -> usize {
        usize::from(self.schema.key)
    }

    fn key_kind(&self) -> Kind {
        match self.schema.columns.as_slice().get(self.key()) {
            Some(column) => column.kind,
            None => Kind::Integer,
        }
    }

    /// The transaction that has a draft of the table; none without a draft.
    pub fn writer(&self) -> Option<u64> {
        match &self.draft {
            Some(draft) => Some(draft.tx),
            None => None,
        }
    }

    /// The transaction other than `tx` that has a draft of the table; none if there is none.
    pub fn other_writer(&self, tx: u64) -> Option<u64> {
        match &self.draft {
            Some(draft) if draft.tx != tx => Some(draft.tx),
            _ => None,
        }
    }

    /// The draft of transaction `tx`, if it has one.
    fn draft_of(&self, tx: u64) -> Option<&LiteDraft> {
        match &self.draft {
            Some(draft) if draft.tx == tx => Some(draft),
            _ => None,
        }
    }

    fn changes_of(&self, tx: u64) -> Option<&Changes> {
        match self.draft_of(tx) {
            Some(draft) => Some(&draft.changes),
            None => None,
        }
    }

    /// The number of rows that transaction `tx`, 0 for none, sees.
    pub fn count(&self, tx: u64) -> usize {
        match self.draft_of(tx) {
            Some(draft) => draft.count,
            None => self.count,
        }
    }

    /// The row of a key in SQLite, if there is one.
    fn find_base(
        &self,
        alloc: Global,
        conn: &mut Connection<MemStore>,
        key: &Value,
    ) -> Result<Option<Row>, LiteError> {
        let find = self.statements.find.as_statement();
        let found = find.query_all(conn, &[parameter(key)])?;
        match found.first() {
            Some(given) => Ok(Some(row_of(alloc, given)?)),
            None => Ok(None),
        }
    }

    /// The row of a key that transaction `tx` sees, if there is one. A key of another kind than the
    /// column's has no row.
    pub fn find(
        &self,
        alloc: Global,
        conn: &mut Connection<MemStore>,
        tx: u64,
        key: &Value,
    ) -> Result<Option<Row>, LiteError> {
        if key.kind() != self.key_kind() {
            return Ok(None);
        }
        if let Some(changes) = self.changes_of(tx) {
            if let Some(row) = changes.get(key) {
                return Ok(row.copy(alloc)?);
            }
        }
        self.find_base(alloc, conn, key)
    }

    /// The rows in question in SQLite, without those that the transaction has changed.
    fn scan_base(
        &self,
        alloc: Global,
        conn: &mut Connection<MemStore>,
        tx: u64,
        search: &Search,
    ) -> Result<Vec<Row>, LiteError> {
        let least = least(alloc, self.key_kind())?;
        let start = search.start(&least).unwrap_or(&least);
        let scan = self.statements.scan.as_statement();
        let mut rows = scan.query(conn, &[parameter(start)])?;
        taken(alloc, &mut rows, self.key(), self.changes_of(tx), search)
    }

    /// The rows in question that a transaction sees, in no order, found by a walk.
    fn scan(
        &self,
        alloc: Global,
        conn: &mut Connection<MemStore>,
        tx: u64,
        search: &Search,
    ) -> Result<Vec<Row>, LiteError> {
        let mut found = self.scan_base(alloc, conn, tx, search)?;
        if let Some(changes) = self.changes_of(tx) {
            add_standing(alloc, changes, search, &mut found)?;
        }
        Ok(found)
    }

    /// The rows in question that transaction `tx` sees, in no order. One look-up finds them if the search
    /// fixes the key.
    pub fn rows(
        &self,
        alloc: Global,
        conn: &mut Connection<MemStore>,
        tx: u64,
        search: &Search,
    ) -> Result<Vec<Row>, LiteError> {
        let Some(key) = search.key_wanted() else {
            return self.scan(alloc, conn, tx, search);
        };
        let mut found = Vec::new(alloc);
        if let Some(row) = self.find(alloc, conn, tx, key)? {
            if search.takes(&row) {
                found.push(row)?;
            }
        }
        Ok(found)
    }

    /// Changes the rows that transaction `tx` sees, after which `count` rows are left. With `tx` 0 the
    /// changes are committed in SQLite at once. Otherwise they are added to the draft, and an error may
    /// leave some of them added.
    pub fn change(
        &mut self,
        alloc: Global,
        conn: &mut Connection<MemStore>,
        tx: u64,
        changes: Changes,
        count: usize,
    ) -> Result<(), LiteError> {
        if tx == 0 {
            let mut transaction = started(conn)?;
            changes.run(alloc, &mut transaction, &self.statements)?;
            transaction.commit()?;
            self.count = count;
            return Ok(());
        }
        self.add_to_draft(tx, changes, count)
    }

    fn add_to_draft(&mut self, tx: u64, changes: Changes, count: usize) -> Result<(), LiteError> {
        match &mut self.draft {
            Some(draft) => {
                draft.changes.absorb(changes)?;
                draft.count = count;
            }
            None => self.draft = Some(LiteDraft { tx, changes, count }),
        }
        Ok(())
    }

    /// Makes the changes of a transaction's draft in SQLite; the draft itself stays.
    pub fn run_draft(
        &self,
        alloc: Global,
        conn: &mut Transaction<'_, MemStore>,
        tx: u64,
    ) -> Result<(), LiteError> {
        match self.changes_of(tx) {
            Some(changes) => changes.run(alloc, conn, &self.statements),
            None => Ok(()),
        }
    }

    /// Ends the draft of transaction `tx`, whose changes SQLite already has.
    pub fn commit(&mut self, tx: u64) {
        if let Some(draft) = self.draft_of(tx) {
            self.count = draft.count;
        }
        self.abort(tx);
    }

    /// Drops the draft of transaction `tx`, if it has one.
    pub fn abort(&mut self, tx: u64) {
        if self.draft_of(tx).is_some() {
            self.draft = None;
        }
    }
}

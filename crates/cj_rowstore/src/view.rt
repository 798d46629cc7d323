//! Tables as a transaction sees them.

ghost use Rattle.std.specs.Prelude.{◌≡◌, length, option_copied, reverse};
ghost use Rattle.cj_model.specs.Database.Steps.{seen};
ghost use Rattle.cj_model.specs.Database.Tables.{IsSlot, IsTable};
ghost use Rattle.cj_rowstore.specs.Lookups.{row_with_key, rows_from};

use crate::scan::Scan;
use crate::scan_back::ScanBack;
use crate::stored::StoredTable;
use cj_model::{Schema, Value};
use std::marker::Model;

/// A table as a transaction sees it.
#[derive(Drop)]
pub struct View<'a> {
    stored: &'a StoredTable,
    tx: u64,
}

impl<'a> Model for View<'a> {
    ghost use Rattle.std.specs.Prelude.{◌≡◌};
    ghost use Rattle.cj_model.specs.declared.database.Table.{Table};
    ghost use Rattle.cj_model.specs.Database.Steps.{seen};
    ghost use Rattle.cj_model.specs.Database.Tables.{IsTable};

    ghost Value = { Table };

    ghost view = { λ view. seen view.stored.now view.tx };

    ghost invariant = { λ view. IsTable (seen view.stored.now view.tx) × ((seen view.stored.now view.tx).schema ≡ view.stored.now.base.schema) };
}

impl<'a> View<'a> {
    /// The table of a slot as transaction `tx` sees it; with `tx` 0 as committed.
    pub fn of(stored: &'a StoredTable, tx: u64) -> View<'a>
        requires { IsSlot stored.now }
        ensures { result ≡ seen stored.now tx }
    {
        View { stored, tx }
    }

    /// A second view of this table by this transaction.
    pub fn again(&self) -> View<'a>
        ensures { result ≡ self.now }
    {
        View {
            stored: self.stored,
            tx: self.tx,
        }
    }

    /// The table's schema.
    pub fn schema(&self) -> &'a Schema
        ensures { result.now ≡ self.now.schema }
    {
        let stored = self.stored;
        stored.schema()
    }

    /// A scan of all rows, in rising key.
    pub fn scan(&self) -> Scan<'a>
        ensures { result ≡ self.now.rows }
    {
        let stored = self.stored;
        stored.scan(self.tx)
    }

    /// A scan of the rows whose key is `key` or greater, in rising key.
    pub fn scan_from(&self, key: &Value) -> Scan<'a>
        ensures { result ≡ rows_from self.now.schema.key key.now self.now.rows }
    {
        let stored = self.stored;
        stored.scan_from(self.tx, key)
    }

    /// A scan of all rows, in falling key.
    pub fn scan_back(&self) -> ScanBack<'a>
        ensures { result ≡ reverse self.now.rows }
    {
        let stored = self.stored;
        stored.scan_back(self.tx)
    }

    /// The row with this key; none if the table has none.
    pub fn find(&self, key: &Value) -> Option<&'a [Value]>
        ensures { option_copied result ≡ row_with_key self.now.schema.key self.now.rows key.now }
    {
        let stored = self.stored;
        stored.find(self.tx, key)
    }

    /// The number of rows.
    pub fn count(&self) -> usize
        ensures { result ≡ length self.now.rows }
    {
        let stored = self.stored;
        stored.count(self.tx)
    }

    /// The law that a view shows a well-formed table.
    pub fn legal(&self)
        ensures { IsTable self.now }
    {
        let _ = &self.stored;
    }
}

//! Versions of a table's rows.

ghost use Rattle.std.specs.Prelude.{◌≡◌, [], filter, length, map, option_copied, reverse, IfOk, OnOk, OnErr};
ghost use Rattle.std.specs.Map.{values_of};
ghost use Rattle.cj_model.specs.Database.Values.{value_cmp};
ghost use Rattle.cj_rowstore.specs.Entries.{at};
ghost use Rattle.cj_rowstore.specs.Layers.{merged};
ghost use Rattle.cj_rowstore.specs.RowEntries.{from_key};

use crate::row_edit::{EachRow, RowEdit};
use crate::row_map::RowMap;
use crate::row_predicate::{Passing, RowTest};
use crate::scan::Scan;
use crate::scan_back::ScanBack;
use crate::stored_row::StoredRow;
use cj_model::{NoMemory, Value};
use cj_ptree::PTree;
use std::alloc::Global;
use std::marker::Model;

/// The rows of a table at one time, by their keys. Versions share the rows that they have in common. Contracts see the
/// rows with their keys, in rising key.
#[derive(Drop)]
pub(crate) struct Version {
    rows: PTree<Value, StoredRow>,
    /// The number of rows.
    count: usize,
}

impl Model for Version {
    ghost use Rattle.std.specs.Prelude.{◌≡◌, length};
    ghost use Rattle.cj_rowstore.specs.RowEntries.{KeyedRows};

    ghost Value = { KeyedRows };

    ghost view = { λ version. version.rows };

    ghost invariant = { λ version. version.count ≡ length version.rows };
}

/// Makes the changes one after another. After `NoMemory` some may be made.
fn make(rows: &mut PTree<Value, StoredRow>, changes: RowMap) -> Result<(), NoMemory>
    ensures { OnOk result (rows.new ≡ merged value_cmp rows.old changes) }
{
    rows.rises();
    changes.rises();
    let RowMap { rows: changes } = changes;
    for (key, row) in changes {
        rows.change(key, row)?;
    }
    Ok(())
}

impl Version {
    /// The version without rows, without allocation.
    pub fn new(alloc: Global) -> Version
        ensures { result ≡ [] }
    {
        Version {
            rows: PTree::new(alloc),
            count: 0,
        }
    }

    /// The same rows again, none of which is copied.
    pub fn snapshot(&self) -> Result<Version, NoMemory>
        ensures { IfOk result (λ copy. copy ≡ self.now) }
    {
        Ok(Version {
            rows: self.rows.snapshot()?,
            count: self.count,
        })
    }

    /// The version after these changes, which leave `count` rows.
    pub fn changed(&self, changes: RowMap, count: usize) -> Result<Version, NoMemory>
        requires { count ≡ length (merged value_cmp self.now changes) }
        ensures { IfOk result (λ version. version ≡ merged value_cmp self.now changes) }
    {
        let mut rows = self.rows.snapshot()?;
        make(&mut rows, changes)?;
        Ok(Version { rows, count })
    }

    /// Makes changes, which leave `count` rows. One change is made in place, and several in a snapshot. `NoMemory`
    /// leaves the version as it was.
    pub fn change(&mut self, changes: RowMap, count: usize) -> Result<(), NoMemory>
        requires { count ≡ length (merged value_cmp self.old changes) }
        ensures ok { OnOk result (self.new ≡ merged value_cmp self.old changes) }
        ensures err { OnErr result (self.new ≡ self.old) }
    {
        self.rows.rises();
        if changes.len() != 1 {
            *self = self.changed(changes, count)?;
            return Ok(());
        }
        let mut changes = changes;
        let Some((key, row)) = changes.take_first() else {
            unreachable!()
        };
        self.rows.change(key, row)?;
        self.count = count;
        Ok(())
    }

    /// Edits each row. What other versions share is copied first, so `NoMemory` leaves the version as it was.
    #[tactic(auto, using(crate::proofs::RowLaws::retained_all))]
    pub fn edit_rows<R: RowEdit>(&mut self, by: &R) -> Result<(), NoMemory>
        ensures ok { OnOk result (self.new ≡ map (λ e. (e.0, R.edited by.now e.1)) self.old) }
        ensures err { OnErr result (self.new ≡ self.old) }
    {
        self.rows.retain(&EachRow { by })?;
        Ok(())
    }

    /// Keeps only the rows that pass the test, of which there are `count`. What other versions share is copied first,
    /// so `NoMemory` leaves the version as it was.
    #[tactic(auto, using(crate::proofs::RowLaws::retained_some))]
    pub fn keep_rows<T: RowTest>(&mut self, by: &T, count: usize) -> Result<(), NoMemory>
        requires { count ≡ length (filter (λ e. T.passes by.now e.1) self.old) }
        ensures ok { OnOk result (self.new ≡ filter (λ e. T.passes by.now e.1) self.old) }
        ensures err { OnErr result (self.new ≡ self.old) }
    {
        self.rows.retain(&Passing { by })?;
        self.count = count;
        Ok(())
    }

    /// A scan of all rows, in rising key.
    pub fn scan(&self) -> Scan<'_>
        ensures { result ≡ values_of self.now }
    {
        Scan::of(self.rows.iter())
    }

    /// A scan of the rows whose key is `key` or greater, in rising key.
    pub fn scan_from(&self, key: &Value) -> Scan<'_>
        ensures { result ≡ values_of (from_key key.now self.now) }
    {
        Scan::of(self.rows.iter_from(key))
    }

    /// A scan of all rows, in falling key.
    pub fn scan_back(&self) -> ScanBack<'_>
        ensures { result ≡ reverse (values_of self.now) }
    {
        ScanBack::of(self.rows.iter())
    }

    /// The row with this key; none if there is none.
    pub fn find(&self, key: &Value) -> Option<&[Value]>
        ensures { option_copied result ≡ at value_cmp key.now self.now }
    {
        match self.rows.get(key) {
            Some(row) => Some(row.values()),
            None => None,
        }
    }

    /// The number of rows.
    pub fn count(&self) -> usize
        ensures { result ≡ length self.now }
    {
        self.count
    }
}

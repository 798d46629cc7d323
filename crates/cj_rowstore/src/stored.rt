//! A table as it is kept: its rows, and those that a transaction sees.

ghost use Rattle.std.specs.Prelude.{◌≡◌, [], None, filter, length, map, option_copied, option_map, reverse, IfOk, OnOk, OnErr};
ghost use Rattle.cj_model.specs.Database.Steps.{aborted, committed, seen};
ghost use Rattle.cj_model.specs.Database.Steps as steps;
ghost use Rattle.cj_rowstore.specs.Lookups.{row_with_key, rows_from};
ghost use Rattle.cj_rowstore.specs.RowEntries.{keyed};
ghost use Rattle.cj_rowstore.specs.Stored.{IsChangeOf, KeepsKeys, changed_slot, rows_after};

use crate::row_edit::RowEdit;
use crate::row_map::RowMap;
use crate::row_predicate::RowTest;
use crate::scan::Scan;
use crate::scan_back::ScanBack;
use crate::version::Version;
use cj_model::{Duplicate, NoMemory, Schema, Value};
use cj_ptree::Shared;
use std::alloc::Global;
use std::marker::Model;

/// The uncommitted rows of one transaction: a snapshot of the base, with the transaction's changes made in it.
#[derive(Drop)]
pub struct StoredDraft {
    /// The transaction's number, above 0.
    tx: u64,
    version: Version,
}

/// A table in memory, with at most one draft. Contracts see it as a slot. A copy shares all rows with it, so it costs a
/// few counts.
#[derive(Drop)]
pub struct StoredTable {
    schema: Shared<Schema>,
    base: Version,
    draft: Option<StoredDraft>,
}

impl Model for StoredTable {
    ghost use Rattle.cj_model.specs.declared.database.Slot.{Slot};
    ghost use Rattle.cj_rowstore.specs.Stored.{HoldsTable, slot_shown};

    ghost Value = { Slot };

    ghost view = { λ table. slot_shown table.schema table.base table.draft };

    ghost invariant = { λ table. HoldsTable table.schema.key table.base table.draft };
}

fn draft_again(draft: &Option<StoredDraft>) -> Result<Option<StoredDraft>, NoMemory>
    ensures { IfOk result (λ copy. copy ≡ draft.now) }
{
    match draft {
        Some(draft) => Ok(Some(StoredDraft {
            tx: draft.tx,
            version: draft.version.snapshot()?,
        })),
        None => Ok(None),
    }
}

impl Duplicate for StoredTable {
    /// The same table again, with its draft. No row is copied.
    fn copy(&self, alloc: Global) -> Result<StoredTable, NoMemory> {
        Ok(StoredTable {
            schema: self.schema.again(alloc)?,
            base: self.base.snapshot()?,
            draft: draft_again(&self.draft)?,
        })
    }
}

impl StoredTable {
    /// A table without rows and without a draft.
    pub fn new(alloc: Global, schema: Schema) -> StoredTable
        ensures { result ≡ record { base = record { schema = schema; rows = [] }; draft = None } }
    {
        StoredTable {
            schema: Shared::of(alloc, schema),
            base: Version::new(alloc),
            draft: None,
        }
    }

    /// A table whose rows are those that the changes put, `count` of them, without a draft.
    pub fn of(
        alloc: Global,
        schema: Schema,
        changes: RowMap,
        count: usize,
    ) -> Result<StoredTable, NoMemory>
        requires { IsChangeOf schema.key [] changes count }
        ensures { IfOk result (λ table. table ≡ record { base = record { schema = schema; rows = rows_after schema.key [] changes }; draft = None }) }
    {
        Ok(StoredTable {
            schema: Shared::of(alloc, schema),
            base: Version::new(alloc).changed(changes, count)?,
            draft: None,
        })
    }

    /// The table's schema.
    pub fn schema(&self) -> &Schema
        ensures { result.now ≡ self.now.base.schema }
    {
        self.schema.get()
    }

    /// The transaction that has a draft of the table; none without a draft.
    pub fn writer(&self) -> Option<u64>
        ensures { result ≡ option_map (λ draft. draft.tx) self.now.draft }
    {
        match &self.draft {
            Some(draft) => Some(draft.tx),
            None => None,
        }
    }

    /// The transaction other than `tx` that has a draft of the table; none if there is none.
    pub fn other_writer(&self, tx: u64) -> Option<u64>
        ensures { result ≡ steps.other_writer tx self.now.draft }
    {
        match &self.draft {
            Some(draft) if draft.tx == tx => None,
            Some(draft) => Some(draft.tx),
            None => None,
        }
    }

    /// Changes the rows that transaction `tx` sees, after which `count` rows are left. With `tx` 0 the
    /// changes are committed at once. No other transaction may have a draft. After `NoMemory` every
    /// transaction sees what it saw before.
    pub fn change(&mut self, tx: u64, changes: RowMap, count: usize) -> Result<(), NoMemory>
        requires unlocked { steps.other_writer tx self.old.draft ≡ None }
        requires change { IsChangeOf self.old.base.schema.key (seen self.old tx).rows changes count }
        ensures ok { OnOk result (self.new ≡ changed_slot self.old tx changes) }
        ensures err { OnErr result (self.new ≡ self.old) }
    {
        match &mut self.draft {
            Some(draft) => {
                draft.version.change(changes, count)?;
                Ok(())
            }
            None if tx == 0 => {
                self.base.change(changes, count)?;
                Ok(())
            }
            None => {
                let version = self.base.changed(changes, count)?;
                self.draft = Some(StoredDraft { tx, version });
                Ok(())
            }
        }
    }

    /// Edits each row. No transaction may have a draft, and each row must keep its key. `NoMemory` leaves the table as
    /// it was.
    pub fn edit_rows<R: RowEdit>(&mut self, by: &R) -> Result<(), NoMemory>
        requires free { self.old.draft ≡ None }
        requires keys { KeepsKeys self.old.base.schema.key (R.edited by.now) }
        ensures ok { OnOk result (self.new ≡ record { base = record { schema = self.old.base.schema; rows = map (R.edited by.now) self.old.base.rows }; draft = None }) }
        ensures err { OnErr result (self.new ≡ self.old) }
    {
        self.base.edit_rows(by)?;
        Ok(())
    }

    /// Keeps only the rows that pass the test, of which there are `count`. No transaction may have a draft. `NoMemory`
    /// leaves the table as it was.
    pub fn keep_rows<T: RowTest>(&mut self, by: &T, count: usize) -> Result<(), NoMemory>
        requires free { self.old.draft ≡ None }
        requires count { count ≡ length (filter (T.passes by.now) self.old.base.rows) }
        ensures ok { OnOk result (self.new ≡ record { base = record { schema = self.old.base.schema; rows = filter (T.passes by.now) self.old.base.rows }; draft = None }) }
        ensures err { OnErr result (self.new ≡ self.old) }
    {
        self.base.keep_rows(by, count)?;
        Ok(())
    }

    /// This table after the commit of transaction `tx`, whose draft becomes the base. The same table again if `tx` has
    /// no draft. No row is copied.
    pub fn committed(&self, alloc: Global, tx: u64) -> Result<StoredTable, NoMemory>
        ensures { IfOk result (λ table. table ≡ committed tx self.now) }
    {
        match &self.draft {
            Some(draft) if draft.tx == tx => Ok(StoredTable {
                schema: self.schema.again(alloc)?,
                base: draft.version.snapshot()?,
                draft: None,
            }),
            Some(_) => self.copy(alloc),
            None => self.copy(alloc),
        }
    }

    /// This table after the abort of transaction `tx`, whose draft is left out. The same table again if `tx` has no
    /// draft. No row is copied.
    pub fn aborted(&self, alloc: Global, tx: u64) -> Result<StoredTable, NoMemory>
        ensures { IfOk result (λ table. table ≡ aborted tx self.now) }
    {
        match &self.draft {
            Some(draft) if draft.tx == tx => Ok(StoredTable {
                schema: self.schema.again(alloc)?,
                base: self.base.snapshot()?,
                draft: None,
            }),
            Some(_) => self.copy(alloc),
            None => self.copy(alloc),
        }
    }

    /// The rows that transaction `tx` sees.
    fn version(&self, tx: u64) -> &Version
        ensures { result.now ≡ keyed self.now.base.schema.key (seen self.now tx).rows }
    {
        match &self.draft {
            Some(draft) if draft.tx == tx => &draft.version,
            Some(_) => &self.base,
            None => &self.base,
        }
    }

    /// A scan of the rows that transaction `tx` sees, in rising key.
    #[tactic(auto, using(crate::proofs::RowLaws::values_keyed))]
    pub fn scan(&self, tx: u64) -> Scan<'_>
        ensures { result ≡ (seen self.now tx).rows }
    {
        self.version(tx).scan()
    }

    /// A scan of the rows that transaction `tx` sees from `key` on, in rising key.
    #[tactic(auto, using(crate::proofs::RowLaws::from_keyed))]
    pub fn scan_from(&self, tx: u64, key: &Value) -> Scan<'_>
        ensures { result ≡ rows_from self.now.base.schema.key key.now (seen self.now tx).rows }
    {
        self.version(tx).scan_from(key)
    }

    /// A scan of the rows that transaction `tx` sees, in falling key.
    #[tactic(auto, using(crate::proofs::RowLaws::values_keyed))]
    pub fn scan_back(&self, tx: u64) -> ScanBack<'_>
        ensures { result ≡ reverse (seen self.now tx).rows }
    {
        self.version(tx).scan_back()
    }

    /// The row with this key that transaction `tx` sees, if there is one.
    #[tactic(auto, using(crate::proofs::RowLaws::at_keyed))]
    pub fn find(&self, tx: u64, key: &Value) -> Option<&[Value]>
        ensures { option_copied result ≡ row_with_key self.now.base.schema.key (seen self.now tx).rows key.now }
    {
        self.version(tx).find(key)
    }

    /// The number of rows that transaction `tx` sees.
    pub fn count(&self, tx: u64) -> usize
        ensures { result ≡ length (seen self.now tx).rows }
    {
        self.version(tx).count()
    }
}

//! Rows as the tree stores them.

ghost use Rattle.std.specs.Prelude.{◌≡◌, IfOk};
ghost use Rattle.cj_rowstore.specs.StoredRows.{row_held};

use crate::row_edit::RowEdit;
use cj_model::{Duplicate, NoMemory, Row, Value};
use std::alloc::Global;
use std::marker::Model;

/// Where a row's values are stored.
#[derive(Drop)]
enum Storage {
    /// Two values beside the key, in the tree's own memory.
    Pair([Value; 2]),
    /// A row in an allocation of its own.
    Own(Row),
}

/// A row, as an entry of the tree stores it. A row of two values is stored beside its key, so that a walk over a table
/// of such rows stays in the tree's memory. Longer rows have an allocation of their own.
#[derive(Drop)]
pub(crate) struct StoredRow {
    storage: Storage,
}

impl Model for StoredRow {
    ghost use Rattle.cj_rowstore.specs.StoredRows.{RowValues, row_held};

    ghost Value = { RowValues };

    ghost view = { λ row. row_held row.storage };
}

fn copied(storage: &Storage, alloc: Global) -> Result<Storage, NoMemory>
    ensures { IfOk result (λ copy. row_held copy ≡ row_held storage.now) }
{
    match storage {
        Storage::Pair([first, second]) => {
            Ok(Storage::Pair([first.copy(alloc)?, second.copy(alloc)?]))
        }
        Storage::Own(row) => Ok(Storage::Own(row.copy(alloc)?)),
    }
}

impl Duplicate for StoredRow {
    fn copy(&self, alloc: Global) -> Result<StoredRow, NoMemory> {
        Ok(StoredRow {
            storage: copied(&self.storage, alloc)?,
        })
    }
}

impl StoredRow {
    /// Stores a row, without allocation.
    pub fn of(row: Row) -> StoredRow
        ensures { result ≡ row }
    {
        StoredRow {
            storage: match <[Value; 2]>::try_from(row.into_vec()) {
                Ok(pair) => Storage::Pair(pair),
                Err(values) => Storage::Own(Row::from_vec(values)),
            },
        }
    }

    /// The row's values.
    pub fn values(&self) -> &[Value]
        ensures { result.now ≡ self.now }
    {
        match &self.storage {
            Storage::Pair(pair) => pair,
            Storage::Own(row) => row.as_slice(),
        }
    }

    /// Edits the row in place.
    pub fn edit<R: RowEdit>(&mut self, by: &R)
        ensures { self.new ≡ R.edited by.now self.old }
    {
        match &mut self.storage {
            Storage::Pair(pair) => by.edit(pair),
            Storage::Own(row) => by.edit(row.as_mut_slice()),
        }
    }
}

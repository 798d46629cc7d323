//! Which changes a write makes of a table.

ghost use Rattle.std.specs.Prelude.{◌≡◌};
ghost use Rattle.cj_model.specs.Database.Updates.{change};
ghost use Rattle.cj_dml.specs.Changes.{MakesChange, as_change};

use crate::column_edit::ColumnEdit;
use crate::delete::deleted;
use crate::insert::inserted;
use crate::unmet::Unmet;
use crate::update::updated;
use cj_model::{NoMemory, Refusal, Write};
use cj_rowstore::{RowMap, View};
use std::alloc::Global;

/// The changes of a write to the rows of a table, by key.
#[derive(Drop)]
pub struct Plan {
    pub changes: RowMap,
    /// The number of the table's rows after the changes.
    pub count: usize,
    /// The number of rows that the write inserts, updates or deletes.
    pub written: u64,
}

/// A plan, or the refusal of the write.
pub type Planned = Result<Plan, Refusal>;

/// How a write changes a table: by keys, or by one walk in place.
#[derive(Drop)]
pub enum Change {
    ByKey(Plan),
    /// Sets one column in place. Only for a table on which no transaction has a draft.
    InPlace {
        edit: ColumnEdit,
        /// The number of rows that the write inserts, updates or deletes.
        written: u64,
    },
    /// Keeps only the rows that pass, by one walk. Only for a table on which no transaction has a draft.
    Removal {
        by: Unmet,
        /// The number of rows that stay.
        count: usize,
        /// The number of rows that go.
        written: u64,
    },
}

/// A change, or the refusal of the write.
pub type Decided = Result<Change, Refusal>;

fn as_change(planned: Planned) -> Decided
    ensures { result ≡ as_change planned }
{
    match planned {
        Ok(plan) => Ok(Change::ByKey(plan)),
        Err(refusal) => Err(refusal),
    }
}

/// Gives the change of a write to a table, or its first refusal; the table itself stays unchanged. A change
/// in place is chosen only if `is_undrafted`: no transaction has a draft of the table. Fails only with
/// `NoMemory`.
pub fn decided(
    alloc: Global,
    view: &View,
    is_undrafted: bool,
    write: &Write,
) -> Result<Decided, NoMemory>
    ensures { MakesChange is_undrafted view.now (change view.now write.now) result }
{
    match write {
        Write::Insert { columns, rows, .. } => {
            let planned = inserted(alloc, view, columns, rows.as_slice())?;
            Ok(as_change(planned))
        }
        Write::Update { sets, cond, .. } => updated(
            alloc,
            view,
            is_undrafted,
            sets.as_slice(),
            cond,
        ),
        Write::Delete { cond, .. } => deleted(alloc, view, is_undrafted, cond),
    }
}

/// Whether `rows` is more than an eighth of `all`. Fewer rows cost less by key than one walk over all.
pub fn are_many(rows: usize, all: usize) -> bool {
    rows > all / 8
}

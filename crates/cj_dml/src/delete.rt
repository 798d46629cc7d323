//! DELETE.

ghost use Rattle.std.specs.Prelude.{◌≡◌, map, IfOk};
ghost use Rattle.std.specs.Map.Iter.{deref};
ghost use Rattle.cj_model.specs.Database.Updates as updates;
ghost use Rattle.cj_dml.specs.Changes.{MakesChange};
ghost use Rattle.cj_rowstore.specs.RowEntries as entries;

use crate::plan::{Change, Decided, Plan, are_many};
use crate::unmet::Unmet;
use cj_expr::{Predicate, Scope};
use cj_model::{Cond, NO_COLUMN, NoMemory, Refusal, Value, WRONG_TYPE};
use cj_rowstore::{RowMap, View, key_of};
use cj_search::{bound_where, matching_rows, where_has_unknown_column, where_mixes_kinds};
use std::alloc::Global;

/// The changes that remove the rows.
fn removals(alloc: Global, place: usize, rows: &[&[Value]]) -> Result<RowMap, NoMemory>
    ensures { IfOk result (λ changes. changes ≡ entries.removals place (map deref rows.now)) }
{
    let mut changes = RowMap::new(alloc);
    for row in rows {
        let key = key_of(alloc, row, place)?;
        changes.insert(key, None)?;
    }
    Ok(changes)
}

/// The change that removes the rows which meet the condition.
fn without_rows(
    alloc: Global,
    view: &View,
    is_undrafted: bool,
    condition: Option<Predicate>,
) -> Result<Decided, NoMemory>
    ensures { MakesChange is_undrafted view.now (updates.without_rows view.now.rows condition) result }
{
    view.legal();
    let rows = matching_rows(alloc, view, &condition)?;
    let count = view.count() - rows.len();
    let written = rows.len() as u64;
    if is_undrafted && are_many(rows.len(), view.count()) {
        let by = Unmet { condition };
        return Ok(Ok(Change::Removal { by, count, written }));
    }
    let changes = removals(alloc, view.schema().key as usize, &rows)?;
    Ok(Ok(Change::ByKey(Plan {
        changes,
        count,
        written,
    })))
}

/// Gives the change of a DELETE to a table, or its first refusal. A walk in place is chosen only if
/// `is_undrafted`: no transaction has a draft of the table. Fails only with `NoMemory`.
pub fn deleted(
    alloc: Global,
    view: &View,
    is_undrafted: bool,
    cond: &Option<Cond>,
) -> Result<Decided, NoMemory>
    ensures { MakesChange is_undrafted view.now (updates.deleted view.now cond.now) result }
{
    let scope = Scope::of(alloc, &[view.schema()])?;
    if where_has_unknown_column(&scope, cond) {
        return Ok(Err(Refusal::of_code(NO_COLUMN)));
    }
    if where_mixes_kinds(&scope, cond) {
        return Ok(Err(Refusal::of_code(WRONG_TYPE)));
    }
    let condition = bound_where(alloc, &scope, cond)?;
    let decided = without_rows(alloc, view, is_undrafted, condition)?;
    Ok(decided)
}

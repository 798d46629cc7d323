//! The answer to a query whose columns exist and fit each other.

ghost use Rattle.std.specs.Prelude.{◌≡◌, [], ◌∷◌, true, map, IfOk};
ghost use Rattle.std.specs.Map.Iter.{deref};
ghost use Rattle.cj_model.specs.declared.answer.Asked.TheVariants.{Rows};
ghost use Rattle.cj_model.specs.Database.Order.{at_most};
ghost use Rattle.cj_model.specs.Database.Queries as queries;
ghost use Rattle.cj_query.specs.Counted as counted;
ghost use Rattle.cj_query.specs.Groups.{rows_in};
ghost use Rattle.cj_query.specs.Paths.{answers_each};

use crate::checks::listed;
use crate::columns::{columns_asked, take_refs};
use crate::groups::{arranged, gather};
use crate::order::{sort_groups, sort_keys};
use crate::project::{counts_row, names_of, project};
use cj_expr::{Scope, ValueError};
use cj_model::{Answer, AnswerRows, Asked, NoMemory, OVERFLOW, Refusal, Select, Value};
use std::alloc::Global;

/// Keeps the first groups, at most `limit`.
fn cut_groups(groups: &mut Vec<&[&[Value]]>, limit: Option<u64>)
    ensures { rows_in groups.new.items ≡ at_most limit (rows_in groups.old.items) }
{
    if let Some(most) = limit {
        groups.truncate(most as usize);
    }
}

/// The answer with these rows, under the names of the query's columns. Fails only with `NoMemory`.
pub fn answer_with(
    alloc: Global,
    scope: &Scope,
    select: &Select,
    rows: AnswerRows,
) -> Result<Asked, NoMemory>
    ensures { IfOk result (λ asked. asked ≡ Rows (record { columns = queries.names_answered scope.now select.now.items; rows = rows })) }
{
    let columns = names_of(alloc, scope, &select.items)?;
    Ok(Asked::Rows(Answer { columns, rows }))
}

/// The answer with one row for each group.
fn answer_groups(
    alloc: Global,
    scope: &Scope,
    select: &Select,
    groups: &[&[&[Value]]],
) -> Result<Asked, NoMemory>
    ensures { IfOk result (λ asked. asked ≡ queries.asked_by (queries.answer_of scope.now select.now (rows_in groups.now))) }
{
    match project(alloc, scope, &select.items, groups) {
        Ok(rows) => answer_with(alloc, scope, select, rows),
        Err(ValueError::Overflow) => Ok(Asked::Refused(Refusal::of_code(OVERFLOW))),
        Err(ValueError::NoMemory) => Err(NoMemory),
    }
}

/// The answer with one row for each of these rows, or the refusal where a sum is outside 64 bits. Fails
/// only with `NoMemory`.
pub fn answer_each(
    alloc: Global,
    scope: &Scope,
    select: &Select,
    rows: &[&[Value]],
) -> Result<Asked, NoMemory>
    requires { answers_each select.now ≡ true }
    ensures { IfOk result (λ asked. asked ≡ queries.asked_by (queries.answer_of scope.now select.now (map (λ row. row ∷ []) (map deref rows.now)))) }
{
    let columns = columns_asked(alloc, scope, &select.items)?;
    let rows = take_refs(alloc, rows, &columns)?;
    answer_with(alloc, scope, select, rows)
}

/// The answer from the rows that meet the condition: grouped, ordered and limited. Fails only with
/// `NoMemory`.
pub fn answer_rows(
    alloc: Global,
    scope: &Scope,
    select: &Select,
    rows: Vec<&[Value]>,
) -> Result<Asked, NoMemory>
    ensures { IfOk result (λ asked. asked ≡ queries.asked_by (queries.answer_of scope.now select.now (queries.groups_answered scope.now select.now (map deref rows.entry.items)))) }
{
    let rows = arranged(alloc, scope, &select.group, rows)?;
    let mut groups = gather(alloc, scope, &select.items, &select.group, &rows)?;
    let keys = sort_keys(alloc, select.order.as_slice(), scope)?;
    sort_groups(&mut groups, &keys)?;
    cut_groups(&mut groups, select.limit);
    answer_groups(alloc, scope, select, &groups)
}

/// The rows of the answer to a query that asks only for the number of rows.
fn count_rows(alloc: Global, select: &Select, count: usize) -> Result<AnswerRows, NoMemory>
    ensures { IfOk result (λ rows. rows ≡ at_most select.now.limit (counted.counts_row (queries.items_listed select.now.items) count ∷ [])) }
{
    let mut rows = AnswerRows::new(alloc);
    if select.limit != Some(0) {
        rows.push(counts_row(alloc, listed(&select.items), count)?)?;
    }
    Ok(rows)
}

/// The answer to a query that asks only for the number of rows. Fails only with `NoMemory`.
pub fn answer_counts(
    alloc: Global,
    scope: &Scope,
    select: &Select,
    count: usize,
) -> Result<Asked, NoMemory>
    ensures { IfOk result (λ asked. asked ≡ counted.answer scope.now select.now count) }
{
    let rows = count_rows(alloc, select, count)?;
    answer_with(alloc, scope, select, rows)
}

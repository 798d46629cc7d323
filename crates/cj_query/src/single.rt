//! Queries over one table.

ghost use Rattle.std.specs.Prelude.{◌≡◌, [], ◌∷◌, true, map, IfOk};
ghost use Rattle.cj_model.specs.Database.Order.{at_most};
ghost use Rattle.cj_model.specs.Database.Queries.{answer_of, asked_by};
ghost use Rattle.cj_query.specs.Paths.{answers_each};
ghost use Rattle.cj_query.specs.Seen.{answer_from};

use crate::answer::{answer_counts, answer_each, answer_rows, answer_with};
use crate::columns::columns_asked;
use crate::order::sort_keys;
use crate::paths::{counts_all, follows_rows, ranking_of, reverses_rows, telling};
use crate::rows::{first_matching, first_taken};
use crate::top::first_matching_ranked;
use cj_expr::{Predicate, Scope};
use cj_model::{Asked, NoMemory, Select};
use cj_search::{Matching, matching_rows, says_key};
use cj_table::View;
use std::alloc::Global;

/// The answer from the first rows that are found, each copied as it is found.
fn answer_as_found(
    alloc: Global,
    scope: &Scope,
    select: &Select,
    rows: Matching,
) -> Result<Asked, NoMemory>
    requires { answers_each select.now ≡ true }
    ensures { IfOk result (λ asked. asked ≡ asked_by (answer_of scope.now select.now (map (λ row. row ∷ []) (at_most select.now.limit rows.entry)))) }
{
    let columns = columns_asked(alloc, scope, &select.items)?;
    let rows = first_taken(alloc, rows, &columns, select.limit)?;
    answer_with(alloc, scope, select, rows)
}

/// The answer from all rows that meet the condition, of which only the needed ones are kept.
fn answer_all(
    alloc: Global,
    scope: &Scope,
    select: &Select,
    view: &View,
    cond: &Option<Predicate>,
) -> Result<Asked, NoMemory>
    ensures { IfOk result (λ asked. asked ≡ answer_from scope.now select.now cond.now view.now.rows) }
{
    view.legal();
    let keys = sort_keys(alloc, select.order.as_slice(), scope)?;
    match ranking_of(select, telling(&keys, usize::from(view.schema().key))) {
        Some(ranking) => {
            let rows = first_matching_ranked(alloc, Matching::of(view, cond), &ranking)?;
            answer_each(alloc, scope, select, &rows)
        }
        None => {
            let rows = matching_rows(alloc, view, cond)?;
            answer_rows(alloc, scope, select, rows)
        }
    }
}

/// The answer from one table, of which only the needed rows are read. Fails only with `NoMemory`.
pub fn answer_one(
    alloc: Global,
    scope: &Scope,
    select: &Select,
    view: &View,
    cond: &Option<Predicate>,
) -> Result<Asked, NoMemory>
    ensures { IfOk result (λ asked. asked ≡ answer_from scope.now select.now cond.now view.now.rows) }
{
    if counts_all(select, cond) {
        return answer_counts(alloc, scope, select, view.count());
    }
    view.legal();
    let key = usize::from(view.schema().key);
    if follows_rows(scope, select, key) {
        return answer_as_found(alloc, scope, select, Matching::of(view, cond));
    }
    if reverses_rows(scope, select, key) && !says_key(cond, key) {
        let rows = first_matching(alloc, view.scan_back(), cond, select.limit)?;
        return answer_each(alloc, scope, select, &rows);
    }
    answer_all(alloc, scope, select, view, cond)
}

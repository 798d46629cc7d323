//! Rows gathered into groups, each a part of the list of all rows.

ghost use Rattle.std.specs.Prelude.{◌≡◌, ◌≤◌, ◌<◌, [], ◌∷◌, length, map, IfOk};
ghost use Rattle.std.specs.List.{prefix_len};
ghost use Rattle.std.specs.Map.Iter.{deref};
ghost use Rattle.cj_query.specs.Gathered.{cut_into, run_length, same_at};
ghost use Rattle.cj_query.specs.Gathered as gathered;
ghost use Rattle.cj_query.specs.Groups.{rows_in};

use crate::checks::{aggregates, place_in};
use crate::order::compare_at;
use crate::ranked::{Ranked, rows_of, sort_by_lead};
use cj_expr::Scope;
use cj_model::{ColRef, Items, NoMemory, Value};
use std::alloc::Global;

fn is_same(left: &[Value], right: &[Value], place: usize) -> bool
    ensures { result ≡ same_at place left.now right.now }
{
    compare_at(place, left, right).is_eq()
}

/// The number of rows at the front that have this row's value at index `place`.
fn same_len(first: &[Value], rows: &[&[Value]], place: usize) -> usize
    ensures is { result ≡ prefix_len (same_at place first.now) (map deref rows.now) }
    ensures within { result ≤ length rows.now }
{
    let mut len = 0;
    for row in rows {
        if !is_same(first, row, place) {
            return len;
        }
        len += 1;
    }
    len
}

/// The number of rows at the front that have the first one's value at index `place`.
fn run_len(rows: &[&[Value]], place: usize) -> usize
    ensures is { result ≡ run_length place (map deref rows.now) }
    ensures within { result ≤ length rows.now }
    ensures some { 0 < length rows.now → 0 < result }
{
    match rows {
        [] => 0,
        [first, rest @ ..] => 1 + same_len(first, rest, place),
    }
}

/// The rows, cut into runs where the value at index `place` changes.
fn runs<'b, 'a>(
    alloc: Global,
    rows: &'b [&'a [Value]],
    place: usize,
) -> Result<Vec<&'b [&'a [Value]]>, NoMemory>
    ensures { IfOk result (λ groups. rows_in groups.items ≡ gathered.runs place (map deref rows.now)) }
{
    let mut out = Vec::new(alloc);
    let mut start = 0;
    while start < rows.len() {
        let len = run_len(&rows[start..], place);
        out.push(&rows[start..start + len])?;
        start += len;
    }
    Ok(out)
}

/// One group for each row. Fails only with `NoMemory`.
pub fn singles<'b, 'a>(
    alloc: Global,
    rows: &'b [&'a [Value]],
) -> Result<Vec<&'b [&'a [Value]]>, NoMemory>
    ensures { IfOk result (λ groups. rows_in groups.items ≡ map (λ row. row ∷ []) (map deref rows.now)) }
{
    let mut out = Vec::with_capacity(alloc, rows.len())?;
    for at in 0..rows.len() {
        out.push(&rows[at..at + 1])?;
    }
    Ok(out)
}

/// One group of all rows.
fn whole<'b, 'a>(alloc: Global, rows: &'b [&'a [Value]]) -> Result<Vec<&'b [&'a [Value]]>, NoMemory>
    ensures { IfOk result (λ groups. rows_in groups.items ≡ map deref rows.now ∷ []) }
{
    let mut out = Vec::new(alloc);
    out.push(rows)?;
    Ok(out)
}

/// The rows in rising order of the values at index `place`. Rows that tie keep their order.
fn sorted<'a>(
    alloc: Global,
    rows: &[&'a [Value]],
    place: usize,
) -> Result<Vec<&'a [Value]>, NoMemory>
    ensures { IfOk result (λ out. map deref out.items ≡ gathered.sorted_at place (map deref rows.now)) }
{
    let mut ranked = Vec::with_capacity(alloc, rows.len())?;
    for row in rows {
        ranked.push(Ranked::at(*row, place))?;
    }
    sort_by_lead(&mut ranked)?;
    rows_of(alloc, &ranked)
}

/// The rows in rising order of the GROUP BY column, so that each group is in one piece. Without GROUP BY
/// the order stays. Fails only with `NoMemory`.
pub fn arranged<'a>(
    alloc: Global,
    scope: &Scope,
    group: &Option<ColRef>,
    rows: Vec<&'a [Value]>,
) -> Result<Vec<&'a [Value]>, NoMemory>
    ensures { IfOk result (λ out. map deref out.items ≡ gathered.arranged scope.now group.now (map deref rows.entry.items)) }
{
    match group {
        Some(column) => sorted(alloc, &rows, place_in(scope, column)),
        None => Ok(rows),
    }
}

/// The groups of rows from which the rows of the answer are made, of rows that are already `arranged`.
/// Fails only with `NoMemory`.
pub fn gather<'b, 'a>(
    alloc: Global,
    scope: &Scope,
    items: &Items,
    group: &Option<ColRef>,
    rows: &'b [&'a [Value]],
) -> Result<Vec<&'b [&'a [Value]]>, NoMemory>
    ensures { IfOk result (λ groups. rows_in groups.items ≡ cut_into scope.now items.now group.now (map deref rows.now)) }
{
    match group {
        Some(column) => runs(alloc, rows, place_in(scope, column)),
        None => if aggregates(items) {
            whole(alloc, rows)
        } else {
            singles(alloc, rows)
        },
    }
}

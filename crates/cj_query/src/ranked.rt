//! Rows in the order of keys, each with the value of its first key beside it.

ghost use Rattle.std.specs.Prelude.{◌≡◌, map, IfOk, OnOk};
ghost use Rattle.std.specs.Map.Iter.{deref};
ghost use Rattle.std.specs.declared.cmp.Ordering.{Ordering};
ghost use Rattle.cj_model.specs.Database.Tables.{cell};
ghost use Rattle.cj_model.specs.Database.Order.{sorted_by};
ghost use Rattle.cj_model.specs.Database.Values.{value_cmp};
ghost use Rattle.cj_query.specs.Ranked as ranks;

use crate::order::{SortKey, compare};
use cj_model::{NoMemory, Text, Value};
use std::alloc::Global;
use std::cmp::Ordering;

/// An order by at least one key, and how many rows of it are wanted.
#[derive(Drop)]
pub struct Ranking<'k> {
    pub first: &'k SortKey,
    pub rest: &'k [SortKey],
    pub limit: Option<u64>,
}

/// The value of a row's first key. A number is held here itself, so that comparisons need no look-up.
#[derive(Clone, Copy)]
pub enum Lead<'a> {
    Int(i64),
    Text(&'a Text),
}

/// A row with the value of its first key beside it, which is read once.
#[derive(Clone, Copy)]
pub struct Ranked<'a> {
    lead: Lead<'a>,
    row: &'a [Value],
}

/// The value at index `place` of a row; 0 past its end.
fn lead_at<'a>(row: &'a [Value], place: usize) -> Lead<'a>
    ensures { ranks.lead_value result ≡ cell row.now place }
{
    match row.get(place) {
        Some(Value::Int(number)) => Lead::Int(*number),
        Some(Value::Text(text)) => Lead::Text(text.as_text()),
        None => Lead::Int(0),
    }
}

impl<'a> Ranked<'a> {
    /// A row with its value for the ranking's first key beside it.
    pub fn of(row: &'a [Value], ranking: &Ranking) -> Ranked<'a>
        ensures { ranks.seen result ≡ ranks.ranked_by ranking.now row.now }
    {
        Ranked::at(row, ranking.first.place())
    }

    /// A row with its value at index `place` beside it.
    pub fn at(row: &'a [Value], place: usize) -> Ranked<'a>
        ensures { ranks.seen result ≡ ranks.led_by place row.now }
    {
        Ranked {
            lead: lead_at(row, place),
            row,
        }
    }

    /// The order of the value beside the row to another value.
    pub fn order_to(&self, value: &Value) -> Ordering
        ensures { result ≡ value_cmp (ranks.lead_value self.now.lead) value.now }
    {
        match (&self.lead, value) {
            (Lead::Int(number), Value::Int(other)) => number.cmp(other),
            (Lead::Int(_), Value::Text(_)) => Ordering::Less,
            (Lead::Text(_), Value::Int(_)) => Ordering::Greater,
            (Lead::Text(text), Value::Text(other)) => text.as_slice().cmp(other.as_slice()),
        }
    }

    /// The row without the value beside it.
    pub fn row(&self) -> &'a [Value]
        ensures { result.now ≡ self.now.row.now }
    {
        self.row
    }
}

fn compare_leads(left: &Lead, right: &Lead) -> Ordering
    ensures { result ≡ value_cmp (ranks.lead_value left.now) (ranks.lead_value right.now) }
{
    match (left, right) {
        (Lead::Int(left), Lead::Int(right)) => left.cmp(right),
        (Lead::Int(_), Lead::Text(_)) => Ordering::Less,
        (Lead::Text(_), Lead::Int(_)) => Ordering::Greater,
        (Lead::Text(left), Lead::Text(right)) => left.as_slice().cmp(right.as_slice()),
    }
}

/// The order of two rows by the ranking's first key.
fn compare_first(first: &SortKey, left: &Lead, right: &Lead) -> Ordering
    ensures { result ≡ ranks.by_lead first.now (ranks.lead_value left.now) (ranks.lead_value right.now) }
{
    if first.falls() {
        compare_leads(right, left)
    } else {
        compare_leads(left, right)
    }
}

/// The order of two rows by the values beside them, then by the other keys.
pub fn compare_ranked(ranking: &Ranking, left: &Ranked, right: &Ranked) -> Ordering
    ensures { result ≡ ranks.by_rank ranking.now (ranks.seen left.now) (ranks.seen right.now) }
{
    let order = compare_first(ranking.first, &left.lead, &right.lead);
    if order.is_ne() {
        return order;
    }
    compare(ranking.rest, left.row, right.row)
}

/// Sorts rows in the order of the ranking. Rows that tie keep their order. After `NoMemory` the contract
/// says nothing of the rows.
pub fn sort_ranked(rows: &mut Vec<Ranked>, ranking: &Ranking) -> Result<(), NoMemory>
    ensures { OnOk result (map ranks.seen rows.new.items ≡ sorted_by (ranks.ranks_before ranking.now) (map ranks.seen rows.old.items)) }
{
    rows.sort_by(|left, right| compare_ranked(ranking, left, right))?;
    Ok(())
}

/// Sorts rows in rising order of the values beside them. Rows that tie keep their order. After `NoMemory`
/// the contract says nothing of the rows.
pub fn sort_by_lead(rows: &mut Vec<Ranked>) -> Result<(), NoMemory>
    ensures { OnOk result (map ranks.seen rows.new.items ≡ sorted_by ranks.leads_before (map ranks.seen rows.old.items)) }
{
    rows.sort_by(|left, right| compare_leads(&left.lead, &right.lead))?;
    Ok(())
}

/// The rows without the values beside them, in the same order. Fails only with `NoMemory`.
pub fn rows_of<'a>(alloc: Global, ranked: &[Ranked<'a>]) -> Result<Vec<&'a [Value]>, NoMemory>
    ensures { IfOk result (λ out. map deref out.items ≡ ranks.rows_seen ranked.now) }
{
    let mut out = Vec::new(alloc);
    for row in ranked {
        out.push(row.row())?;
    }
    Ok(out)
}

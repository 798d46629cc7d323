//! The rows of a table that meet a condition, one after another.

ghost use Rattle.std.specs.Prelude.{◌≡◌, true, false, Some, filter, map, option_copied, option_to_list, IfOk, IfSome};
ghost use Rattle.std.specs.Ordering.{is_gt};
ghost use Rattle.std.specs.Iterator.{YieldsFirstRef, item_count};
ghost use Rattle.std.specs.Map.Iter.{deref};
ghost use Rattle.cj_model.specs.Database.Evaluation as evaluation;
ghost use Rattle.cj_model.specs.Database.Tables.{cell};
ghost use Rattle.cj_model.specs.Database.Values.{value_cmp};
ghost use Rattle.cj_rowstore.specs.Lookups.{IsKeyOf, row_with_key};
ghost use Rattle.cj_search.specs.Searches as searches;

use cj_expr::{Predicate, Reach};
use cj_model::{NoMemory, Value};
use cj_rowstore::{Scan, View};
use std::alloc::Global;
use std::marker::Model;

/// Whether a row meets the condition; without a condition each row does.
pub fn satisfies(cond: &Option<Predicate>, row: &[Value]) -> bool
    ensures { result ≡ evaluation.satisfies cond.now row.now }
{
    match cond {
        Some(predicate) => predicate.holds(row),
        None => true,
    }
}

/// The key up to which each row is tested without asking the condition for another range.
#[derive(Clone, Copy)]
enum End<'v> {
    /// The condition is asked for a range at the next row.
    Unknown,
    At(&'v Value),
    /// Each row is tested, to the last one.
    Open,
}

/// A walk over a table's rows that skips rows which can't meet the condition.
#[derive(Drop)]
struct Search<'v, 'a> {
    view: &'v View<'a>,
    cond: &'v Option<Predicate>,
    /// The rows that the walk has not passed yet, which are the last ones of the table.
    scan: Scan<'a>,
    end: End<'v>,
}

/// How rows are found: by the key that the condition fixes, or by a walk.
#[derive(Drop)]
enum Way<'v, 'a> {
    Key(Option<&'a [Value]>),
    Walk(Search<'v, 'a>),
}

/// The rows of a table that meet a condition, in rising key. Contracts see the rows that are left. A
/// condition that fixes the key costs one look-up; any other costs a walk that skips the keys which it
/// excludes.
#[derive(Drop)]
pub struct Matching<'v, 'a> {
    way: Way<'v, 'a>,
}

impl<'v, 'a> Model for Matching<'v, 'a> {
    ghost use Rattle.cj_rowstore.specs.RowEntries.{Rows};
    ghost use Rattle.cj_model.specs.Database.Values.{value_cmp};
    ghost use Rattle.cj_search.specs.Searches.{IsWay, rows_left};

    ghost Value = { Rows };

    ghost view = { λ matching. rows_left matching.way };

    ghost invariant = { λ matching. IsWay matching.way };
}

fn is_within(end: &End, key: &Value) -> bool {
    match end {
        End::Unknown => false,
        End::At(end) => key.cmp(end).is_le(),
        End::Open => true,
    }
}

fn is_above(start: &Value, key: &Value) -> bool
    ensures { result ≡ is_gt (value_cmp start.now key.now) }
{
    start.cmp(key).is_gt()
}

fn end_of<'v>(reach: &Reach<'v>) -> End<'v> {
    match reach.end {
        Some(end) => End::At(end),
        None => End::Open,
    }
}

impl<'v, 'a> Search<'v, 'a> {
    /// Continues the walk at the key `start`, if that is above the row's key.
    fn jump(&mut self, start: &Value, key: &Value, row: &[Value])
        requires at { searches.IsAtRow self.old row.now }
        requires key { key.now ≡ cell row.now self.old.view.now.schema.key }
        requires none { searches.NoneBetween self.old key.now (Some start.now) }
        ensures { searches.GoesOn self.old row.now self.new }
    {
        if !is_above(start, key) {
            return;
        }
        self.scan = self.view.scan_from(start);
    }

    /// Continues the walk at the key `start`, if there is one and it is above the row's key.
    fn begin(&mut self, start: Option<&Value>, key: &Value, row: &[Value])
        requires at { searches.IsAtRow self.old row.now }
        requires key { key.now ≡ cell row.now self.old.view.now.schema.key }
        requires none { searches.NoneBetween self.old key.now (option_copied start) }
        ensures { searches.GoesOn self.old row.now self.new }
    {
        match start {
            Some(start) => self.jump(start, key, row),
            None => {}
        }
    }

    /// Continues the walk at the next range that may have rows which meet the condition; false if there is
    /// none.
    fn seek(&mut self, predicate: &'v Predicate, key: &Value, row: &[Value]) -> bool
        requires at { searches.IsAtRow self.old row.now }
        requires cond { self.old.cond.now ≡ Some predicate.now }
        requires key { key.now ≡ cell row.now self.old.view.now.schema.key }
        ensures more { result ≡ true → searches.GoesOn self.old row.now self.new }
        ensures over { result ≡ false → searches.IsOver self.old row.now self.new }
    {
        let place = usize::from(self.view.schema().key);
        match predicate.reach(place, key) {
            None => false,
            Some(reach) => {
                self.end = end_of(&reach);
                self.begin(reach.start, key, row);
                true
            }
        }
    }

    /// Whether this row or a later one may meet the condition. Ranges after this row that have no such row
    /// are skipped.
    fn goes_on(&mut self, row: &[Value]) -> bool
        requires at { searches.IsAtRow self.old row.now }
        ensures more { result ≡ true → searches.GoesOn self.old row.now self.new }
        ensures over { result ≡ false → searches.IsOver self.old row.now self.new }
    {
        let place = usize::from(self.view.schema().key);
        match (self.cond, row.get(place)) {
            (Some(predicate), Some(key)) => {
                if is_within(&self.end, key) {
                    return true;
                }
                self.seek(predicate, key, row)
            }
            _ => true,
        }
    }

    fn next_row(&mut self) -> Option<&'a [Value]>
        requires { searches.IsSearch self.old }
        ensures row { YieldsFirstRef searches.rows_found self.old result self.new }
        ensures search { searches.IsSearch self.new }
    {
        while let Some(row) = self.scan.next() {
            if !self.goes_on(row) {
                return None;
            }
            if satisfies(self.cond, row) {
                return Some(row);
            }
        }
        None
    }
}

/// The key of each row that meets the condition, if the condition fixes it.
fn key_said(cond: &Option<Predicate>, place: usize) -> Option<&Value>
    ensures { IfSome result (λ key. IsKeyOf place cond.now key.now) }
{
    match cond {
        Some(predicate) => predicate.key_of(place),
        None => None,
    }
}

/// Whether the condition fixes the value at index `place`. If that is the key's index, one look-up finds
/// the rows.
pub fn says_key(cond: &Option<Predicate>, place: usize) -> bool {
    key_said(cond, place).is_some()
}

/// The table's row with this key, if it meets the condition.
fn row_found<'a>(view: &View<'a>, cond: &Option<Predicate>, key: &Value) -> Option<&'a [Value]>
    ensures { option_to_list (option_copied result) ≡ filter (evaluation.satisfies cond.now) (option_to_list (row_with_key view.now.schema.key view.now.rows key.now)) }
{
    match view.find(key) {
        Some(row) if satisfies(cond, row) => Some(row),
        _ => None,
    }
}

fn way_to<'v, 'a>(view: &'v View<'a>, cond: &'v Option<Predicate>) -> Way<'v, 'a>
    ensures rows { searches.rows_left result ≡ filter (evaluation.satisfies cond.now) view.now.rows }
    ensures way { searches.IsWay result }
{
    view.legal();
    match key_said(cond, usize::from(view.schema().key)) {
        Some(key) => Way::Key(row_found(view, cond, key)),
        None => Way::Walk(Search {
            view,
            cond,
            scan: view.scan(),
            end: End::Unknown,
        }),
    }
}

impl<'v, 'a> Matching<'v, 'a> {
    /// The rows of a table that meet the condition; all rows without a condition.
    pub fn of(view: &'v View<'a>, cond: &'v Option<Predicate>) -> Matching<'v, 'a>
        ensures { result ≡ filter (evaluation.satisfies cond.now) view.now.rows }
    {
        Matching {
            way: way_to(view, cond),
        }
    }
}

impl<'v, 'a> Iterator for Matching<'v, 'a> {
    type Item = &'a [Value];

    ghost next_gives = { YieldsFirstRef (λ s. s) };

    ghost remaining = { item_count (λ s. s) };

    fn next(&mut self) -> Option<&'a [Value]> {
        match &mut self.way {
            Way::Key(row) => row.take(),
            Way::Walk(search) => search.next_row(),
        }
    }
}

/// Gives the rows of a table that meet the condition, in rising key; all rows without a condition. Fails
/// only with `NoMemory`.
pub fn matching_rows<'a>(
    alloc: Global,
    view: &View<'a>,
    cond: &Option<Predicate>,
) -> Result<Vec<&'a [Value]>, NoMemory>
    ensures { IfOk result (λ rows. map deref rows.items ≡ filter (evaluation.satisfies cond.now) view.now.rows) }
{
    let mut rows = Vec::new(alloc);
    for row in Matching::of(view, cond) {
        rows.push(row)?;
    }
    Ok(rows)
}

//! UPDATE.

ghost use Rattle.std.specs.Prelude.{◌≡◌, ◌||◌, cond, filter, length, map, None, Some, option_map, slice_set, IfOk, IfSome};
ghost use Rattle.std.specs.List.{list_any};
ghost use Rattle.std.specs.Map.Iter.{deref};
ghost use Rattle.cj_model.specs.Database.Evaluation.{is_out_of_range, satisfies, value_of};
ghost use Rattle.cj_model.specs.Database.Scopes as scopes;
ghost use Rattle.cj_model.specs.Database.Updates as updates;
ghost use Rattle.cj_expr.specs.Shapes.{formula};
ghost use Rattle.cj_dml.specs.Assignments.{KeepsKey, assignment_by_place, assignments, values_or_none};
ghost use Rattle.cj_dml.specs.Changes.{MakesChange};
ghost use Rattle.cj_dml.specs.ColumnEdits.{CountsIntegers, GetIntegers, SetsInPlace};

use crate::column_edit::ColumnEdit;
use crate::names::is_distinct;
use crate::plan::{Change, Decided, Plan, are_many};
use cj_expr::{Formula, Predicate, Scope, ValueError, formula_of};
use cj_model::{
    BAD_COLUMNS, ColRef, Cond, NO_COLUMN, Names, NoMemory, OVERFLOW, Refusal, Row, Set, Value,
    WRONG_TYPE, copies,
};
use cj_rowstore::{RowMap, View, key_of};
use cj_search::{
    Matching, bound_where, matching_rows, says_key, where_has_unknown_column, where_mixes_kinds,
};
use std::alloc::Global;

/// The index of a column, and the expression that it is set to.
#[derive(Drop)]
pub struct Assignment {
    place: usize,
    value: Formula,
}

fn column_set(set: &Set) -> ColRef
    ensures { result ≡ updates.column_set set.now }
{
    ColRef {
        table: None,
        column: set.column.copy(),
    }
}

fn place_set(scope: &Scope, set: &Set) -> usize
    ensures { result ≡ scopes.column_place scope.now (updates.column_set set.now) }
{
    scope.place(&column_set(set)).unwrap_or(0)
}

fn set_has_unknown_column(scope: &Scope, set: &Set) -> bool
    ensures { result ≡ updates.set_has_unknown_column scope.now set.now }
{
    scope.is_unknown_column(&column_set(set)) || scope.expr_has_unknown_column(&set.value)
}

fn set_mixes_kinds(scope: &Scope, set: &Set) -> bool
    ensures { result ≡ updates.set_mixes_kinds scope.now set.now }
{
    scope.adds_text(&set.value)
        || scope.kind(place_set(scope, set)) != scope.kind_of_expr(&set.value)
}

fn any_has_unknown_column(scope: &Scope, sets: &[Set]) -> bool
    ensures { result ≡ list_any (updates.set_has_unknown_column scope.now) sets.now }
{
    sets.iter().any(|set| set_has_unknown_column(scope, set))
}

/// Whether SET or WHERE names a column that the table does not have.
fn names_unknown_column(scope: &Scope, sets: &[Set], when: &Option<Cond>) -> bool
    ensures { result ≡ (list_any (updates.set_has_unknown_column scope.now) sets.now || scopes.where_has_unknown_column scope.now when.now) }
{
    any_has_unknown_column(scope, sets) || where_has_unknown_column(scope, when)
}

fn any_sets_key(scope: &Scope, key: usize, sets: &[Set]) -> bool
    ensures { result ≡ list_any (updates.sets_key scope.now key) sets.now }
{
    sets.iter().any(|set| place_set(scope, set) == key)
}

fn any_mixes_kinds(scope: &Scope, sets: &[Set]) -> bool
    ensures { result ≡ list_any (updates.set_mixes_kinds scope.now) sets.now }
{
    sets.iter().any(|set| set_mixes_kinds(scope, set))
}

/// Whether kinds do not agree in SET or WHERE.
fn has_mixed_kinds(scope: &Scope, sets: &[Set], when: &Option<Cond>) -> bool
    ensures { result ≡ (list_any (updates.set_mixes_kinds scope.now) sets.now || scopes.where_mixes_kinds scope.now when.now) }
{
    any_mixes_kinds(scope, sets) || where_mixes_kinds(scope, when)
}

fn names_of(alloc: Global, sets: &[Set]) -> Result<Names, NoMemory>
    ensures { IfOk result (λ names. names ≡ map (λ s. s.column) sets.now) }
{
    let mut names = Names::new(alloc);
    for set in sets {
        names.push(set.column.copy())?;
    }
    Ok(names)
}

/// Whether a column is set twice, or the key is set.
fn sets_badly(alloc: Global, scope: &Scope, key: usize, sets: &[Set]) -> Result<bool, NoMemory>
    ensures { IfOk result (λ bad. bad ≡ (updates.sets_twice sets.now || list_any (updates.sets_key scope.now key) sets.now)) }
{
    let names = names_of(alloc, sets)?;
    Ok(!is_distinct(names.as_slice()) || any_sets_key(scope, key, sets))
}

fn assignment_of(alloc: Global, scope: &Scope, set: &Set) -> Result<Assignment, NoMemory>
    ensures { IfOk result (λ made. assignment_by_place made ≡ updates.assignment_of scope.now set.now) }
{
    let value = formula_of(alloc, &set.value, scope)?;
    Ok(Assignment {
        place: place_set(scope, set),
        value,
    })
}

fn assignments_of(alloc: Global, scope: &Scope, sets: &[Set]) -> Result<Vec<Assignment>, NoMemory>
    ensures { IfOk result (λ made. assignments made.items ≡ map (updates.assignment_of scope.now) sets.now) }
{
    let mut made = Vec::new(alloc);
    for set in sets {
        made.push(assignment_of(alloc, scope, set)?)?;
    }
    Ok(made)
}

/// The value of an expression in a row; none if it does not fit 64 bits.
fn value_in(alloc: Global, value: &Formula, row: &[Value]) -> Result<Option<Value>, NoMemory>
    ensures { IfOk result (λ found. found ≡ cond (is_out_of_range (value_of row.now (formula value.now))) None (Some (value_of row.now (formula value.now)))) }
{
    match value.value_in(alloc, row) {
        Ok(value) => Ok(Some(value)),
        Err(ValueError::Overflow) => Ok(None),
        Err(ValueError::NoMemory) => Err(NoMemory),
    }
}

fn put(values: &mut Vec<Value>, place: usize, value: Value)
    ensures { values.new.items ≡ slice_set values.old.items place value }
{
    if place < values.len() {
        values[place] = value;
    }
}

/// The row with its new values, all computed from the old row; none if one does not fit 64 bits.
fn assigned(alloc: Global, row: &[Value], assigns: &[Assignment]) -> Result<Option<Row>, NoMemory>
    ensures { IfOk result (λ new. new ≡ cond (updates.overflows (assignments assigns.now) row.now) None (Some (updates.assigned (assignments assigns.now) row.now))) }
{
    let mut values = copies(alloc, row)?;
    for assign in assigns {
        match value_in(alloc, &assign.value, row)? {
            Some(value) => put(&mut values, assign.place, value),
            None => return Ok(None),
        }
    }
    Ok(Some(Row::from_vec(values)))
}

/// The changes that give the rows their new values; none if one does not fit 64 bits.
fn new_rows(
    alloc: Global,
    place: usize,
    rows: &[&[Value]],
    assigns: &[Assignment],
) -> Result<Option<RowMap>, NoMemory>
    ensures { IfOk result (λ changes. changes ≡ values_or_none place (assignments assigns.now) (map deref rows.now)) }
{
    let mut changes = RowMap::new(alloc);
    for row in rows {
        match assigned(alloc, row, assigns)? {
            Some(new) => {
                let key = key_of(alloc, new.as_slice(), place)?;
                changes.insert(key, Some(new))?;
            }
            None => return Ok(None),
        }
    }
    Ok(Some(changes))
}

/// The number of rows that meet the condition, if the expression is an INTEGER that fits 64 bits in each of
/// them.
fn count_integers(view: &View, condition: &Option<Predicate>, value: &Formula) -> Option<usize>
    ensures { IfSome result (λ count. CountsIntegers (formula value.now) (filter (satisfies condition.now) view.now.rows) count) }
{
    let mut count: usize = 0;
    for row in Matching::of(view, condition) {
        value.integer_in(row)?;
        count = count.checked_add(1)?;
    }
    Some(count)
}

/// The number of rows that the UPDATE changes in place. It changes in place where it sets one column to an
/// INTEGER that fits 64 bits, in many rows of the table.
fn count_in_place(
    view: &View,
    condition: &Option<Predicate>,
    assigns: &[Assignment],
) -> Option<usize>
    ensures one { IfSome result (λ count. length assigns.now ≡ 1) }
    ensures integers { IfSome result (λ count. GetIntegers (assignments assigns.now) (filter (satisfies condition.now) view.now.rows)) }
    ensures count { IfSome result (λ count. count ≡ length (filter (satisfies condition.now) view.now.rows)) }
{
    match assigns {
        [assign] if !says_key(condition, usize::from(view.schema().key)) => {
            let count = count_integers(view, condition, &assign.value)?;
            if are_many(count, view.count()) {
                Some(count)
            } else {
                None
            }
        }
        _ => None,
    }
}

/// The change that makes the one assignment in place.
fn in_place(mut assigns: Vec<Assignment>, condition: Option<Predicate>, written: u64) -> Change
    requires { length assigns.items ≡ 1 }
    ensures { SetsInPlace (assignments assigns.items) condition written result }
{
    let Some(Assignment { place, value }) = assigns.pop() else {
        unreachable!()
    };
    Change::InPlace {
        edit: ColumnEdit {
            place,
            value,
            condition,
        },
        written,
    }
}

/// The change that gives the rows which meet the condition their new values.
fn with_new_values(
    alloc: Global,
    view: &View,
    is_undrafted: bool,
    assigns: Vec<Assignment>,
    condition: Option<Predicate>,
) -> Result<Decided, NoMemory>
    requires { KeepsKey view.now.schema.key (assignments assigns.items) }
    ensures { MakesChange is_undrafted view.now (updates.with_new_values view.now.rows (assignments assigns.items) condition) result }
{
    view.legal();
    if is_undrafted {
        if let Some(count) = count_in_place(view, &condition, &assigns) {
            return Ok(Ok(in_place(assigns, condition, count as u64)));
        }
    }
    let rows = matching_rows(alloc, view, &condition)?;
    let written = rows.len() as u64;
    match new_rows(alloc, view.schema().key as usize, &rows, &assigns)? {
        Some(changes) => Ok(Ok(Change::ByKey(Plan {
            changes,
            count: view.count(),
            written,
        }))),
        None => Ok(Err(Refusal::of_code(OVERFLOW))),
    }
}

/// The change that carries out assignments which passed the checks.
fn with_assignments(
    alloc: Global,
    view: &View,
    is_undrafted: bool,
    scope: &Scope,
    sets: &[Set],
    when: &Option<Cond>,
) -> Result<Decided, NoMemory>
    requires { KeepsKey view.now.schema.key (map (updates.assignment_of scope.now) sets.now) }
    ensures { MakesChange is_undrafted view.now (updates.with_new_values view.now.rows (map (updates.assignment_of scope.now) sets.now) (option_map (scopes.predicate_of scope.now) when.now)) result }
{
    let assigns = assignments_of(alloc, scope, sets)?;
    let condition = bound_where(alloc, scope, when)?;
    let decided = with_new_values(alloc, view, is_undrafted, assigns, condition)?;
    Ok(decided)
}

/// Gives the change of an UPDATE to a table, or its first refusal. A change in place is chosen only if
/// `is_undrafted`: no transaction has a draft of the table. Fails only with `NoMemory`.
pub fn updated(
    alloc: Global,
    view: &View,
    is_undrafted: bool,
    sets: &[Set],
    when: &Option<Cond>,
) -> Result<Decided, NoMemory>
    ensures { MakesChange is_undrafted view.now (updates.updated view.now sets.now when.now) result }
{
    let schema = view.schema();
    let scope = Scope::of(alloc, &[schema])?;
    if names_unknown_column(&scope, sets, when) {
        return Ok(Err(Refusal::of_code(NO_COLUMN)));
    }
    if sets_badly(alloc, &scope, schema.key as usize, sets)? {
        return Ok(Err(Refusal::of_code(BAD_COLUMNS)));
    }
    if has_mixed_kinds(&scope, sets, when) {
        return Ok(Err(Refusal::of_code(WRONG_TYPE)));
    }
    let decided = with_assignments(alloc, view, is_undrafted, &scope, sets, when)?;
    Ok(decided)
}

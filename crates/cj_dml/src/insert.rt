//! INSERT.

ghost use Rattle.std.specs.Prelude.{◌≡◌, ◌==◌, not, length, map, position, slice_index_or, unwrap_or, IfOk};
ghost use Rattle.std.specs.List.{list_any};
ghost use Rattle.std.specs.Str.{bytes_eq};
ghost use Rattle.cj_model.specs.Database.Inserts as inserts;
ghost use Rattle.cj_model.specs.Database.Tables as tables;
ghost use Rattle.cj_dml.specs.Inserts.{puts_once, with_fitting_rows};
ghost use Rattle.cj_dml.specs.Plans.{PlansChange};

use crate::names::is_distinct;
use crate::plan::{Plan, Planned};
use cj_model::{
    BAD_COLUMNS, Column, DUPLICATE, Duplicate, NO_COLUMN, Name, Names, NoMemory, ROW_LIMIT,
    ROWS_FULL, Refusal, Row, Rows, Term, Tuple, Value, WRONG_TYPE,
};
use cj_rowstore::{RowMap, View, key_in, key_of};
use std::alloc::Global;

/// Whether the row has one value for each column, of the column's kind.
fn fits_columns(mut columns: &[Column], mut row: &[Value]) -> bool
    ensures { result ≡ tables.fits_columns columns.entry.now row.entry.now }
{
    while let [column, more @ ..] = columns {
        match row {
            [value, rest @ ..] if column.kind == value.kind() => {
                columns = more;
                row = rest;
            }
            _ => return false,
        }
    }
    row.is_empty()
}

/// The value of a constant.
fn constant(alloc: Global, term: &Term) -> Result<Value, NoMemory>
    ensures { IfOk result (λ value. value ≡ inserts.constant_value term.now) }
{
    match term {
        Term::Lit(value) => value.copy(alloc),
        Term::Col(_) | Term::Now | Term::Rand(_) => Ok(Value::Int(0)),
    }
}

/// The value of the constant at index `place` of a tuple.
fn constant_at(alloc: Global, tuple: &[Term], place: usize) -> Result<Value, NoMemory>
    ensures { IfOk result (λ value. value ≡ inserts.constant_value (slice_index_or tuple.now place Term.Now)) }
{
    match tuple.get(place) {
        Some(term) => constant(alloc, term),
        None => Ok(Value::Int(0)),
    }
}

fn position_of(names: &[Name], name: &Name) -> Option<usize>
    ensures { result ≡ position (bytes_eq name.now) names.now }
{
    names.iter().position(|listed| name.is(listed))
}

fn row_of_all(alloc: Global, tuple: &[Term]) -> Result<Row, NoMemory>
    ensures { IfOk result (λ row. row ≡ map inserts.constant_value tuple.now) }
{
    let mut row = Row::new(alloc);
    for term in tuple {
        row.push(constant(alloc, term)?)?;
    }
    Ok(row)
}

fn row_of_listed(
    alloc: Global,
    columns: &[Column],
    names: &Names,
    tuple: &[Term],
) -> Result<Row, NoMemory>
    ensures { IfOk result (λ row. row ≡ inserts.row_of columns.now (Some names.now) tuple.now) }
{
    let mut row = Row::new(alloc);
    for column in columns {
        let place = position_of(names.as_slice(), &column.name).unwrap_or(0);
        row.push(constant_at(alloc, tuple, place)?)?;
    }
    Ok(row)
}

/// The values of a tuple in the order of the columns.
fn row_of(
    alloc: Global,
    columns: &[Column],
    names: &Option<Names>,
    tuple: &[Term],
) -> Result<Row, NoMemory>
    ensures { IfOk result (λ row. row ≡ inserts.row_of columns.now names.now tuple.now) }
{
    match names {
        None => row_of_all(alloc, tuple),
        Some(names) => row_of_listed(alloc, columns, names, tuple),
    }
}

fn rows_of(
    alloc: Global,
    columns: &[Column],
    names: &Option<Names>,
    tuples: &[Tuple],
) -> Result<Rows, NoMemory>
    ensures { IfOk result (λ rows. rows ≡ map (inserts.row_of columns.now names.now) tuples.now) }
{
    let mut rows = Rows::new(alloc);
    for tuple in tuples {
        rows.push(row_of(alloc, columns, names, tuple.as_slice())?)?;
    }
    Ok(rows)
}

/// Whether a column has this name.
pub fn is_column(mut columns: &[Column], name: &Name) -> bool
    ensures { result ≡ list_any (bytes_eq name.now) (tables.column_names columns.entry.now) }
{
    while let [column, rest @ ..] = columns {
        if name.is(&column.name) {
            return true;
        }
        columns = rest;
    }
    false
}

fn names_unknown_column(columns: &[Column], names: &[Name]) -> bool
    ensures { result ≡ list_any (λ n. not (list_any (bytes_eq n) (tables.column_names columns.now))) names.now }
{
    names.iter().any(|name| !is_column(columns, name))
}

/// Whether the list names an unknown column.
fn lists_unknown_column(columns: &[Column], names: &Option<Names>) -> bool
    ensures { result ≡ inserts.lists_unknown_column columns.now names.now }
{
    match names {
        None => false,
        Some(names) => names_unknown_column(columns, names.as_slice()),
    }
}

/// Whether a list is given that repeats a name, or does not have as many names as there are columns.
fn lists_unevenly(columns: &[Column], names: &Option<Names>) -> bool
    ensures { result ≡ inserts.lists_unevenly columns.now names.now }
{
    match names {
        None => false,
        Some(names) => !(is_distinct(names.as_slice()) && names.len() == columns.len()),
    }
}

/// Whether some tuple has not exactly one constant for each column.
fn has_uneven(width: usize, tuples: &[Tuple]) -> bool
    ensures { result ≡ list_any (λ u. not (length u == width)) tuples.now }
{
    tuples.iter().any(|tuple| tuple.len() != width)
}

/// Whether some row does not have one value for each column, of the column's kind.
pub fn has_misfit(columns: &[Column], rows: &[Row]) -> bool
    ensures { result ≡ list_any (λ r. not (tables.fits_columns columns.now r)) rows.now }
{
    rows.iter()
        .any(|row| !fits_columns(columns, row.as_slice()))
}

/// Whether the table has a row with this row's key.
fn has_key(view: &View, row: &[Value]) -> bool
    ensures { result ≡ inserts.has_key view.now.schema.key view.now.rows row.now }
{
    let zero = Value::Int(0);
    let key = key_in(row, view.schema().key as usize, &zero);
    view.find(key).is_some()
}

/// Whether the table has a row with the key of one of these rows.
fn has_key_of(view: &View, rows: &[Row]) -> bool
    ensures { result ≡ list_any (inserts.has_key view.now.schema.key view.now.rows) rows.now }
{
    rows.iter().any(|row| has_key(view, row.as_slice()))
}

/// The changes that put each row at its key, the value at index `place`. None if two rows have one key.
/// Fails only with `NoMemory`.
pub fn puts(alloc: Global, place: usize, rows: Rows) -> Result<Option<RowMap>, NoMemory>
    ensures { IfOk result (λ changes. changes ≡ puts_once place rows) }
{
    let mut changes = RowMap::new(alloc);
    for row in rows.into_vec() {
        let key = key_of(alloc, row.as_slice(), place)?;
        if changes.knows(&key) {
            return Ok(None);
        }
        changes.insert(key, Some(row))?;
    }
    Ok(Some(changes))
}

/// The plan that adds rows to a table; refused unless all their keys are new and differ.
fn with_rows(alloc: Global, view: &View, rows: Rows) -> Result<Planned, NoMemory>
    ensures { PlansChange view.now (inserts.with_rows view.now.schema.key view.now.rows rows) result }
{
    view.legal();
    if has_key_of(view, rows.as_slice()) {
        return Ok(Err(Refusal::of_code(DUPLICATE)));
    }
    let added = rows.len();
    let Some(changes) = puts(alloc, view.schema().key as usize, rows)? else {
        return Ok(Err(Refusal::of_code(DUPLICATE)));
    };
    let count = view.count() + added;
    if count > ROW_LIMIT {
        return Ok(Err(Refusal {
            code: ROWS_FULL,
            a: count as u64,
            b: 0,
        }));
    }
    Ok(Ok(Plan {
        changes,
        count,
        written: added as u64,
    }))
}

/// The plan that adds rows to a table; refused first if a value's kind is not its column's.
fn with_fitting_rows(alloc: Global, view: &View, rows: Rows) -> Result<Planned, NoMemory>
    ensures { PlansChange view.now (with_fitting_rows view.now rows) result }
{
    if has_misfit(view.schema().columns.as_slice(), rows.as_slice()) {
        return Ok(Err(Refusal::of_code(WRONG_TYPE)));
    }
    with_rows(alloc, view, rows)
}

/// Gives the plan of an INSERT into a table, or its first refusal. `names` is the list of columns, if the
/// statement has one. Fails only with `NoMemory`.
pub fn inserted(
    alloc: Global,
    view: &View,
    names: &Option<Names>,
    tuples: &[Tuple],
) -> Result<Planned, NoMemory>
    ensures { PlansChange view.now (inserts.inserted view.now names.now tuples.now) result }
{
    let columns = view.schema().columns.as_slice();
    if lists_unknown_column(columns, names) {
        return Ok(Err(Refusal::of_code(NO_COLUMN)));
    }
    if lists_unevenly(columns, names) || has_uneven(columns.len(), tuples) {
        return Ok(Err(Refusal::of_code(BAD_COLUMNS)));
    }
    let rows = rows_of(alloc, columns, names, tuples)?;
    let planned = with_fitting_rows(alloc, view, rows)?;
    Ok(planned)
}

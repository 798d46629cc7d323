//! The rows that a statement may concern.

use crate::error::LiteError;
use crate::search::{Search, bound};
use crate::small::add_table;
use crate::table::LiteTable;
use cj_expr::Scope;
use cj_model::{Cond, Item, Items, Name, Names, Row, Schema, Select, Term, Tuple, Value, Write};
use cj_table::Tables;
use sqlite::{Connection, MemStore};
use std::alloc::Global;

/// The index of the key in the tuples of an INSERT.
fn key_place(schema: &Schema, names: &Option<Names>) -> Option<usize> {
    let place = usize::from(schema.key);
    match (names, schema.columns.as_slice().get(place)) {
        (Some(names), Some(key)) => names.as_slice().iter().position(|name| name.is(&key.name)),
        (Some(_), None) => None,
        (None, _) => Some(place),
    }
}

/// The constant at index `place` of a tuple, which is a literal in every written statement.
fn constant_at(tuple: &Tuple, place: usize) -> Option<&Value> {
    match tuple.as_slice().get(place) {
        Some(Term::Lit(value)) => Some(value),
        _ => None,
    }
}

/// The first row that a transaction sees at the key of a tuple, if there is one. One such row is enough for
/// the INSERT to be refused.
fn rows_at_tuples(
    alloc: Global,
    conn: &mut Connection<MemStore>,
    table: &LiteTable,
    tx: u64,
    place: usize,
    tuples: &[Tuple],
) -> Result<Vec<Row>, LiteError> {
    let mut found = Vec::new(alloc);
    for tuple in tuples {
        let Some(key) = constant_at(tuple, place) else {
            return Ok(found);
        };
        if let Some(row) = table.find(alloc, conn, tx, key)? {
            found.push(row)?;
            return Ok(found);
        }
    }
    Ok(found)
}

/// The rows that meet a condition; no rows where the condition is refused.
fn rows_met(
    alloc: Global,
    conn: &mut Connection<MemStore>,
    table: &LiteTable,
    tx: u64,
    cond: &Option<Cond>,
) -> Result<Vec<Row>, LiteError> {
    let scope = Scope::of(alloc, &[table.schema()])?;
    let Some(cond) = bound(alloc, cond, &scope)? else {
        return Ok(Vec::new(alloc));
    };
    let search = Search {
        cond: &cond,
        key: table.key(),
        is_alone: true,
        limit: None,
    };
    table.rows(alloc, conn, tx, &search)
}

/// The rows of a table that decide the outcome of a write, among them all that it changes.
pub fn rows_written(
    alloc: Global,
    conn: &mut Connection<MemStore>,
    table: &LiteTable,
    tx: u64,
    write: &Write,
) -> Result<Vec<Row>, LiteError> {
    match write {
        Write::Insert { columns, rows, .. } => match key_place(table.schema(), columns) {
            Some(place) => rows_at_tuples(alloc, conn, table, tx, place, rows.as_slice()),
            None => Ok(Vec::new(alloc)),
        },
        Write::Update { cond, .. } | Write::Delete { cond, .. } => rows_met(
            alloc, conn, table, tx, cond,
        ),
    }
}

/// The tables of these names; none if one does not exist.
fn tables_named<'a>(
    alloc: Global,
    tables: &'a [LiteTable],
    names: &[Name],
) -> Result<Option<Vec<&'a LiteTable>>, LiteError> {
    let mut found = Vec::new(alloc);
    for name in names {
        match tables.iter().find(|table| table.is_named(name)) {
            Some(table) => found.push(table)?,
            None => return Ok(None),
        }
    }
    Ok(Some(found))
}

fn scope_of(alloc: Global, tables: &[&LiteTable]) -> Result<Scope, LiteError> {
    if let [table] = tables {
        return Ok(Scope::of(alloc, &[table.schema()])?);
    }
    let mut schemas = Vec::new(alloc);
    for table in tables {
        schemas.push(table.schema())?;
    }
    Ok(Scope::of(alloc, &schemas)?)
}

fn is_column(item: &Item) -> bool {
    match item {
        Item::Col(_) => true,
        Item::Count => false,
        Item::Sum(_) => false,
    }
}

/// The number of rows in rising key that are enough to answer a query of one table; none where all may be
/// needed.
fn limit_of(select: &Select) -> Option<u64> {
    let each = match &select.items {
        Items::All => true,
        Items::Listed(items) => items.as_slice().iter().all(is_column),
    };
    if each && select.group.is_none() && select.order.is_empty() && select.tables.len() == 1 {
        select.limit
    } else {
        None
    }
}

/// A small database of the tables that a query names, with all rows that decide its answer.
pub fn tables_asked(
    alloc: Global,
    conn: &mut Connection<MemStore>,
    tables: &[LiteTable],
    tx: u64,
    select: &Select,
) -> Result<Tables, LiteError> {
    let mut small = Tables::new(alloc);
    let Some(found) = tables_named(alloc, tables, select.tables.as_slice())? else {
        return Ok(small);
    };
    let scope = scope_of(alloc, &found)?;
    let cond = bound(alloc, &select.cond, &scope)?;
    let mut first = 0usize;
    for table in &found {
        let rows = match &cond {
            Some(cond) => {
                let search = Search {
                    cond,
                    key: first.saturating_add(table.key()),
                    is_alone: found.len() == 1,
                    limit: limit_of(select),
                };
                table.rows(alloc, conn, tx, &search)?
            }
            None => Vec::new(alloc),
        };
        add_table(alloc, &mut small, table.schema(), rows)?;
        first = first.saturating_add(table.schema().columns.len());
    }
    Ok(small)
}

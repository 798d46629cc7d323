//! The tables that CREATE TABLE makes.

ghost use Rattle.std.specs.Prelude.{◌≡◌, ◌<◌, ◌≤◌, ◌==◌, count_by, length, map, position, unwrap_or, IfOk};
ghost use Rattle.cj_model.specs.Database.Steps as steps;

use cj_dml::is_distinct;
use cj_model::{COLUMN_LIMIT, ColDef, Column, Columns, Create, Names, NoMemory, Schema};
use cj_rowstore::StoredTable;
use std::alloc::Global;

fn names_of(alloc: Global, columns: &[ColDef]) -> Result<Names, NoMemory>
    ensures { IfOk result (λ names. names ≡ map (λ c. c.name) columns.now) }
{
    let mut names = Names::new(alloc);
    for column in columns {
        names.push(column.name.copy())?;
    }
    Ok(names)
}

fn count_keys(columns: &[ColDef]) -> usize
    ensures { result ≡ count_by (λ c. c.key) columns.now }
{
    columns.iter().filter(|column| column.key).count()
}

/// Whether the columns have different names, and exactly one is the primary key. Fails only with
/// `NoMemory`.
pub fn makes_schema(alloc: Global, columns: &[ColDef]) -> Result<bool, NoMemory>
    ensures { IfOk result (λ makes. makes ≡ steps.make_schema columns.now) }
{
    let names = names_of(alloc, columns)?;
    Ok(is_distinct(names.as_slice()) && count_keys(columns) == 1)
}

fn columns_of(alloc: Global, columns: &[ColDef]) -> Result<Columns, NoMemory>
    ensures { IfOk result (λ made. made ≡ map (λ c. record { name = c.name; kind = c.kind }) columns.now) }
{
    let mut made = Columns::new(alloc);
    for column in columns {
        made.push(Column {
            name: column.name.copy(),
            kind: column.kind,
        })?;
    }
    Ok(made)
}

fn key_position(columns: &[ColDef]) -> Option<usize>
    ensures { result ≡ position (λ c. c.key) columns.now }
{
    columns.iter().position(|column| column.key)
}

fn key_place(columns: &[ColDef]) -> u16
    requires { length columns.now ≤ COLUMN_LIMIT }
    ensures { result ≡ unwrap_or (position (λ c. c.key) columns.now) 0 }
{
    match key_position(columns) {
        Some(place) => place as u16,
        None => 0,
    }
}

fn schema_of(alloc: Global, create: &Create) -> Result<Schema, NoMemory>
    requires { length create.now.columns ≤ COLUMN_LIMIT }
    ensures { IfOk result (λ schema. schema ≡ steps.schema_of create.now) }
{
    let columns = create.columns.as_slice();
    Ok(Schema {
        table: create.table.copy(),
        columns: columns_of(alloc, columns)?,
        key: key_place(columns),
    })
}

/// The new table of a CREATE TABLE, without rows. Fails only with `NoMemory`.
pub fn empty_table(alloc: Global, create: &Create) -> Result<StoredTable, NoMemory>
    requires { length create.now.columns ≤ COLUMN_LIMIT }
    ensures { IfOk result (λ slot. slot ≡ steps.empty_slot create.now) }
{
    let schema = schema_of(alloc, create)?;
    Ok(StoredTable::new(alloc, schema))
}

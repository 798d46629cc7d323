//! The columns that a statement may name.

ghost use Rattle.std.specs.Prelude.{◌≡◌, ◌++◌, map, IfOk, OnOk};
ghost use Rattle.std.specs.Map.Iter.{deref};
ghost use Rattle.cj_model.specs.Database.Scopes.{column_kind_at, place_of, scope_of};
ghost use Rattle.cj_model.specs.Database.Scopes as scopes;

use cj_model::{ColRef, Column, Duplicate, Kind, Name, NoMemory, Schema};
use std::alloc::Global;
use std::marker::Model;

/// The columns of a statement's tables, each with its table's name. Their order is that of the values in
/// the tables' rows, one row after the other.
#[derive(Drop)]
pub struct Scope {
    columns: Vec<(Name, Column)>,
}

impl Model for Scope {
    ghost use Rattle.cj_model.specs.Database.Scopes as scopes;

    ghost Value = { scopes.Scope };

    ghost view = { λ scope. scope.columns.items };
}

fn push_columns(
    alloc: Global,
    columns: &mut Vec<(Name, Column)>,
    schema: &Schema,
) -> Result<(), NoMemory>
    ensures { OnOk result (columns.new.items ≡ columns.old.items ++ map (λ column. (schema.now.table, column)) schema.now.columns) }
{
    for column in schema.columns.as_slice() {
        columns.push((schema.table.copy(), column.copy(alloc)?))?;
    }
    Ok(())
}

/// Whether the reference has the column's name, and either its table's name or no table.
fn may_mean(reference: &ColRef, column: &(Name, Column)) -> bool
    ensures { result ≡ scopes.may_mean reference.now column.now }
{
    let (table, column) = column;
    let is_allowed = match &reference.table {
        None => true,
        Some(name) => name.is(table),
    };
    reference.column.is(&column.name) && is_allowed
}

impl Scope {
    /// The scope of a statement over these tables, in this order. Fails only with `NoMemory`.
    pub fn of(alloc: Global, schemas: &[&Schema]) -> Result<Scope, NoMemory>
        ensures { IfOk result (λ scope. scope ≡ scope_of (map deref schemas.now)) }
    {
        let mut columns = Vec::new(alloc);
        for schema in schemas {
            push_columns(alloc, &mut columns, schema)?;
        }
        Ok(Scope { columns })
    }

    /// The index of the column that the reference names. None if no column or more than one matches.
    pub fn place(&self, reference: &ColRef) -> Option<usize>
        ensures { result ≡ place_of self.now reference.now }
    {
        let mut found = None;
        for (place, column) in self.columns.iter().enumerate() {
            if may_mean(reference, column) {
                if found.is_some() {
                    return None;
                }
                found = Some(place);
            }
        }
        found
    }

    /// The columns in order, each with its table's name.
    pub fn columns(&self) -> &[(Name, Column)]
        ensures { result.now ≡ self.now }
    {
        &self.columns
    }

    /// The kind of the column at index `place`; INTEGER past the last column.
    pub fn kind(&self, place: usize) -> Kind
        ensures { result ≡ column_kind_at self.now place }
    {
        match self.columns.get(place) {
            Some((_, column)) => column.kind,
            None => Kind::Integer,
        }
    }
}

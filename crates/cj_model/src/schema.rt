//! Schemas, and the statement that makes one.

use crate::list::ListOf;
use crate::memory::{Duplicate, NoMemory};
use crate::name::Name;
use crate::value::Kind;
use std::alloc::Global;

/// A column of a table.
#[derive(Drop)]
pub struct Column {
    pub name: Name,
    pub kind: Kind,
}

pub type Columns = ListOf<Column>;

/// A table's name and columns, of which one is the primary key.
#[derive(Drop)]
pub struct Schema {
    pub table: Name,
    pub columns: Columns,
    /// The index of the primary key among the columns.
    pub key: u16,
}

/// A column of CREATE TABLE.
#[derive(Drop)]
pub struct ColDef {
    pub name: Name,
    pub kind: Kind,
    /// Whether the column is declared PRIMARY KEY.
    pub key: bool,
}

pub type ColDefs = ListOf<ColDef>;

/// CREATE TABLE.
#[derive(Drop)]
pub struct Create {
    pub table: Name,
    pub columns: ColDefs,
}

impl Duplicate for Column {
    fn copy(&self, _alloc: Global) -> Result<Column, NoMemory> {
        Ok(Column {
            name: self.name.copy(),
            kind: self.kind,
        })
    }
}

impl Duplicate for Schema {
    fn copy(&self, alloc: Global) -> Result<Schema, NoMemory> {
        Ok(Schema {
            table: self.table.copy(),
            columns: self.columns.copy(alloc)?,
            key: self.key,
        })
    }
}

impl Duplicate for ColDef {
    fn copy(&self, _alloc: Global) -> Result<ColDef, NoMemory> {
        Ok(ColDef {
            name: self.name.copy(),
            kind: self.kind,
            key: self.key,
        })
    }
}

impl Duplicate for Create {
    fn copy(&self, alloc: Global) -> Result<Create, NoMemory> {
        Ok(Create {
            table: self.table.copy(),
            columns: self.columns.copy(alloc)?,
        })
    }
}

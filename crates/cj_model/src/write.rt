//! INSERT, UPDATE and DELETE.

use crate::condition::Cond;
use crate::list::ListOf;
use crate::memory::{Duplicate, NoMemory};
use crate::name::{Name, Names};
use crate::term::{Expr, Term};
use std::alloc::Global;

/// The constants of a row to insert.
pub type Tuple = ListOf<Term>;

pub type Tuples = ListOf<Tuple>;

/// One assignment of an UPDATE.
#[derive(Drop)]
pub struct Set {
    pub column: Name,
    pub value: Expr,
}

pub type Sets = ListOf<Set>;

/// A change of one table's rows.
#[derive(Drop)]
pub enum Write {
    Insert {
        table: Name,
        /// The columns in the order of the tuples' constants; without it, the schema's.
        columns: Option<Names>,
        rows: Tuples,
    },
    Update {
        table: Name,
        sets: Sets,
        cond: Option<Cond>,
    },
    Delete {
        table: Name,
        cond: Option<Cond>,
    },
}

impl Duplicate for Set {
    fn copy(&self, alloc: Global) -> Result<Set, NoMemory> {
        Ok(Set {
            column: self.column.copy(),
            value: self.value.copy(alloc)?,
        })
    }
}

impl Duplicate for Write {
    fn copy(&self, alloc: Global) -> Result<Write, NoMemory> {
        match self {
            Write::Insert {
                table,
                columns,
                rows,
            } => Ok(Write::Insert {
                table: table.copy(),
                columns: columns.copy(alloc)?,
                rows: rows.copy(alloc)?,
            }),
            Write::Update { table, sets, cond } => Ok(Write::Update {
                table: table.copy(),
                sets: sets.copy(alloc)?,
                cond: cond.copy(alloc)?,
            }),
            Write::Delete { table, cond } => Ok(Write::Delete {
                table: table.copy(),
                cond: cond.copy(alloc)?,
            }),
        }
    }
}

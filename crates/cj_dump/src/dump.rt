//! What a dump is.

use cj_model::{Db, Name, TableSet};

/// What a backend held at a position of the log.
#[derive(Drop)]
pub struct Dump {
    /// How many entries of the log the backend had taken.
    pub position: u64,
    /// The number of the backend.
    pub source: u8,
    /// The name under which the dump was taken.
    pub name: Name,
    /// Whether the backend hosted every table.
    pub all: bool,
    /// The tables that the placement gave to the backend; none if it hosted every table.
    pub covers: TableSet,
    /// The tables of the backend, with their drafts.
    pub db: Db,
}

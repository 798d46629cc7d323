//! How tables are laid out over backends.

use crate::list::ListOf;
use crate::memory::{Duplicate, NoMemory};
use crate::name::{Name, Names};
use std::alloc::Global;

/// The RAIDb level of a cluster: on which backends each table is.
#[derive(Clone, Copy, PartialEq, Eq)]
pub enum Level {
    /// Partitioned: each table is on one backend.
    Raidb0,
    /// Replicated in full: each table is on every backend.
    Raidb1,
    /// Replicated in part: each table is on the backends that its row names.
    Raidb2,
}

/// The backends that host a table.
#[derive(Drop)]
pub struct PlaceRow {
    pub table: Name,
    pub hosts: Names,
}

pub type PlaceRows = ListOf<PlaceRow>;

impl Duplicate for PlaceRow {
    fn copy(&self, alloc: Global) -> Result<PlaceRow, NoMemory> {
        Ok(PlaceRow {
            table: self.table.copy(),
            hosts: self.hosts.copy(alloc)?,
        })
    }
}

//! Backends as they are configured.

use cj_model::{ListOf, Name};

/// What holds the tables of a backend.
#[derive(Clone, Copy, PartialEq, Eq)]
pub enum BackendKind {
    Memory,
    Sqlite,
}

/// A backend: its name, what holds its tables, and its weight for reads.
#[derive(Drop)]
pub struct Backend {
    pub name: Name,
    pub kind: BackendKind,
    pub weight: u16,
}

pub type Backends = ListOf<Backend>;

//! A cluster that threads share.

ghost use Rattle.std.specs.Prelude.{◌≡◌, ◌≤◌, length, vec_capacity};

use cj_backend::Backend;
use cj_locked_cell::LockedCell;
use cj_locks::Locks;
use cj_outside::Store;
use cj_pass::Naming;
use std::sync::Mutex;

/// Empty lists with room for the cells and for the backends, so that giving these up takes no memory.
#[derive(Drop)]
pub(crate) struct Emptied<J: Naming, B: Backend> {
    pub cells: Vec<LockedCell<J, B>>,
    pub backends: Vec<B>,
    ghost empty: { (length cells.items ≡ 0) × (length backends.items ≡ 0) },
    ghost room: { (length J.layout.names ≤ vec_capacity cells) × (length J.layout.names ≤ vec_capacity backends) },
}

/// A cluster that threads share, at the board, the layout and the turn's ledger that `J` names.
#[derive(Drop)]
pub struct Control<J: Naming, B: Backend, S: Store> {
    /// The calls of an administrator (`cj_administration`, `cj_return_path`) go by them, too.
    pub locks: Locks<J, B, S>,
    /// Behind a lock, so that threads may share a cluster of backends that only one of them uses at a time.
    pub(crate) emptied: Mutex<Emptied<J, B>>,
}

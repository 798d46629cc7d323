//! The state of a world, and the parts of moves: calls that each change the state and keep it whole.
//!
//! A `State` owns the book, the cells of the backends, the open sessions, the accounts and the dumps, all of one
//! board.
//! Promised: each call says how it changes what contracts see (`WorldState`), and keeps what holds of every world
//! (`IsWorld`). A backend is called under the login that the user has there.
//! To change: `state.rt` has the calls of moves, `cells.rt` the calls of one cell, `hearing.rt` what book and cells
//! learn of each other.
//! To read: `specs/Worlds`, then `specs/Effects`; `specs/Proving` has the invariant. Proofs begin in `proofs/Keeping`
//! and `proofs/CellsKept`. The answers cite the names that `proofs/Cited` and `proofs/Common` pass on.
#![tactic(auto)]

mod cells;
mod hearing;
mod parts;
mod state;

pub use cells::{AskError, covers, without_bit};
pub use parts::{Backends, Parts, Shared};
pub use state::State;

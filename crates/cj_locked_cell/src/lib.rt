//! What stands behind a cell's lock in a cluster that threads share: a cell of the board that `J` names.
//!
//! Each call is a `&mut self` method with its whole clause, and this crate knows of no thread: a driver locks, makes
//! one call, and has its clause without what is about `self`. What the cell has seen and done, the pass hears.
//! Promised: `take` carries an entry out once, in its place (`ReportsEntry`). `begin_read` gives what the one database
//! answers at a position, or a snapshot that answers it (`IsReading`). `contents` gives the backend's part of it
//! (`GivesPart`). `load` has a lost backend hold its part of it (`IsLoaded`). A `SeenOut` is made only where the
//! backend was out.
//! To change: a new call at a backend goes into `cell.rt`, and into its callers: `cj_workers` and the crates
//! `cj_*_path`.
//! To read: `specs/Taking`, `specs/Answering`, `specs/Asking`, `specs/Loading`. Proofs begin in the files of these
//! names.
#![tactic(auto)]

mod cell;
mod reading;
mod stand;

pub use cell::LockedCell;
pub use reading::Reading;
pub use stand::{SeenOut, Stand};

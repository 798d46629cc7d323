//! The way back of a lost backend through the locks of `cj_locks`: a dump of another one, load, replay, enabling.
//!
//! Each function takes the `Locks` first, and then what a thread has: its handle and its `Pass`.
//! Promised: `begin_dump`, `load`, `replay` and `enable` come to what `specs/Dumping` and `specs/Restoring` say: each
//! has its event in what the pass sees then, or names why not (`RestoreError`).
//! No lock is held while another is taken, and none over an append. Only `begin_dump` and `enable` take the turn.
//! To change: `dump.rt` has how a dump is taken, `restore.rt` the load and what may refuse a backend, `replays.rt` the
//! rest.
//! To read: the files in `specs`. Proofs begin in the files of `proofs` with the same names.
#![tactic(auto)]

mod dump;
mod replays;
mod restore;

pub use dump::begin_dump;
pub use replays::{enable, replay};
pub use restore::{RestoreError, load};

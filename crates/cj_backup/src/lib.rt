//! How a backend is backed up: its dump is taken at a marker of the recovery log, and put onto the shelf.
//!
//! `backup` leaves the backend disabled and not out, so that `reenable` (`cj_replay`) brings it back without a dump.
//! Promised: the shelf has exactly the dump more that the marker names, or the dumps that it had (`BacksUp`). Such a
//! dump may be loaded at any later time (`laws`).
//! To change: `backing.rt`. To read: `specs/Backups`. Proofs begin in `proofs/Backed`.
#![tactic(auto)]

mod backing;
mod laws;

pub use backing::{BackupError, backup};
pub use laws::dumps_may_be_loaded;

//! The way of an entry through the locks of `cj_locks`: the turn, the book, the log, each backend's cell, and its end.
//!
//! Each function takes the `Locks` first, and then what a thread has: its handle and its `Pass`.
//! Promised: `write` is a turn of the session whose own pass it is given (`WritesTurn` of `cj_locked`). `carry_out`
//! ends an entry that was scheduled, with the reply that its backends' reports make (`EndsSince`).
//! No lock is held while another is taken, and none over an append.
//! To change: `writes.rt` has the way of an entry, `lanes.rt` that over the workers. `brief.rt` says which entries go
//! to no worker.
//! To read: `specs/Writing`, `cj_locked/specs/Writing`. Proofs begin in `proofs/Writing` and `proofs/Reporting`.
#![tactic(auto)]

mod brief;
mod lanes;
mod writes;

pub use lanes::work;
pub use writes::{carry_out, write};

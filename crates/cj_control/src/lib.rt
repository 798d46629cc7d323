//! A cluster that threads share, and its sessions.
//!
//! `Control` is what threads share, a `Caller` one session of it, which `serve_session` serves as any desk.
//! The locks are those of `cj_locks`. Entries and queries go through them by `cj_write_path` and `cj_read_path`.
//! Promised: each write and each read of a `Caller` is a turn, from what its pass had seen to what it sees then. A
//! cluster that is taken apart gives its backends, which are current in what the pass sees then.
//! No lock is held while another is taken. No lock that a read needs is held over an append, a print or a query of
//! another backend.
//! A thread may do the work of a backend's worker (`Control::work`); then entries are carried out at the same time.
//! To change: `caller.rt` has what a session is, `start.rt` how a cluster begins and ends, `workers.rt` the workers.
//! What an administrator does with a cluster is in `cj_administration`.
//! To read: `specs/Callers`, `specs/Starting`. Proofs begin in `proofs/Callers`, and in `proofs/Crossing` those of what
//! threads may share.
#![tactic(auto)]

mod caller;
mod control;
mod start;
mod workers;

pub use caller::{Caller, CallerError};
pub use cj_pass::{Naming, Pass};
pub use control::Control;

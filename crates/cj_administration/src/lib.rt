//! What an administrator does with a cluster that threads share: disabling, checkpoints, orphans, audits, and what is
//! shown. Dumps, and how a backend comes back, are in `cj_return_path`.
//!
//! Each function takes the `Control` of `cj_control` first, and then what a thread has: its handle and its `Pass`.
//! Promised: each call has its event in what the pass sees then, or names why not (`AdminError`). The log is shown as
//! of that history, and each backend as enabled exactly if it is so there.
//! No lock is held while another is taken, and none over an append or while lines are made. An audit holds the turn.
//! To change: `administration.rt` has what changes the history, `audits.rt` the audit, `show.rt` what is shown.
//! To read: `specs/Administration`, `specs/Auditing`, `specs/Showing`. Proofs begin in `proofs/Administering`,
//! `proofs/Auditing` and `proofs/Showing`.
#![tactic(auto)]

mod administration;
mod audits;
mod show;

pub use administration::{AdminError, abort_orphan, checkpoint, disable};
pub use audits::audit;
pub use show::{show_backends, show_cache, show_log};

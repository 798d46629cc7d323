//! Lanes: queues of jobs, from who schedules an entry to who has a backend carry it out.
//!
//! A `Job` is an entry of the log with its number, and a pass that has seen it there. A `Lane` takes jobs in by its
//! `Poster` and gives them out by its `Taker`, with no lock between the two. A `SharedLane` has each end behind a lock
//! of its own, so that any thread may post or take, and a worker without a job sleeps there.
//! Promised: what is taken is a prefix of what was posted, and the numbers of the jobs rise (`Lane::close`).
//! Not promised: that a worker wakes. No proof speaks of waiting.
//! To change: what each step keeps is in `specs/Rule`, and that it does in `proofs/Steps`.
//! To read: `specs/Lanes`.
#![tactic(auto)]

mod ends;
mod job;
mod lane;
mod locked;
mod numbered;
mod rule;
mod shared;

pub use ends::{Poster, Taker};
pub use job::Job;
pub use lane::Lane;
pub use numbered::Numbered;
pub use shared::SharedLane;

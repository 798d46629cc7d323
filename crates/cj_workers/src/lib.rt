//! What hands entries to the workers of backends, and their reports back.
//!
//! A `WorkLane` stands between who schedules entries and the worker of one backend: jobs go through it by a lane of
//! `cj_queue`, and what the backend did comes back as a `Report`.
//! Promised: a report is of an entry of the log, its pass has noted it (`ReportsEntry`), and whoever counts it has a
//! right tally of that entry (`Report::count`). What is heard is of the entry that was asked for (`WorkLane::hear`).
//! Not promised: that a report comes. No proof speaks of waiting.
//! To change: `report.rt` has what a report says, `lane.rt` who waits where. Proofs begin in `proofs/Joining`.
#![tactic(auto)]

mod lane;
mod report;

pub use lane::WorkLane;
pub use report::Report;

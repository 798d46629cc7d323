//! The whole program as one call, `run`, over the words of its command line and the objects that it is handed.
//!
//! Where the words ask to serve a cluster, `run` serves it by threads (`cj_served`). All else is `run` of `cj_top`.
//! Promised: the exit status, what is written, what is left of each store, and the cause of each status. Its clauses
//! stand in src/program.rt, their words in specs/Served and in those of `cj_top`; docs/PROVED.md tells them in order.
//! To change: `served.rt` has the command `serve`, `dumps.rt` how it stops at its dumps.
//! Proofs begin at proofs/program/run.
#![tactic(auto)]

mod dumps;
mod program;
mod served;

pub use cj_top::{Paths, paths};
pub use program::{Ended, run};

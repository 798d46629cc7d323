//! The core of the controller: a world started from its recovery log, its moves, and the desk of one session.
//!
//! A `World` starts from a log with empty backends (`start`). It then changes by moves (`step`, `make`, `run`) or by
//! the calls of a `Solo`, which serves one session.
//! Promised: a start loses nothing of the log, moves do what their definitions say, and each call of a `Solo` is a
//! turn of one database (`SoloSteps`). A session over which nothing counted a fault is not told of one (`laws`).
//! To change: `start` makes a world and gives it up, and `runs` has lists of moves. What a call does is in `cj_calls`,
//! what a start does once its log is opened in `cj_start`.
//! To read: `specs/Solos`, `specs/Starts` and `specs/Played`. Proofs begin in `proofs/SoloCalls`, in
//! `proofs/StartOpened` and in `proofs/Making`.
#![tactic(auto)]

mod emptied;
mod laws;
mod runs;
mod solo;
mod start;
mod world;

pub use cj_state::{Backends, Parts, Shared};
pub use cj_world_audit::AuditError;
pub use laws::{quiet_calls_blame_nobody, quiet_sessions_blame_nobody};
pub use solo::Solo;
pub use world::World;

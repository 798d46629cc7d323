//! Why a session is told that something failed: laws over any desk, and over the board that threads share.
//!
//! Promised of every turn: it is answered 40, 41 or 42 in one case each. Promised of a session at any desk: each such
//! reply is that of a turn which failed. The history notes a failure for each time that the replies blame a backend or
//! the log's store. Promised at each moment of a board: for each failure that a seat has seen noted, the backend has
//! counted a fault since it took its own seat. So it is for the log's store.
//! To read: `specs/Failures`. Nothing builds on this crate.
//! Proofs begin in `proofs/FailedTurns`; in `proofs/ToldFailures`; in `proofs/CountedFailures`.
#![tactic(auto)]

mod laws;

pub use laws::{failures_have_faults, sessions_are_told_of_failed_turns, turns_fail_in_three_ways};

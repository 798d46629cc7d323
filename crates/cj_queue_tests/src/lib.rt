//! Tests of lanes: the order of jobs by example, and what no contract says of a worker that sleeps.
//!
//! The crate has only tests, so that each crate of functions is proved once. No answer depends on a schedule.
//! To change: a new call of a lane gets its case in `lanes`.
#![tactic(auto)]

#[cfg(test)]
mod lanes;

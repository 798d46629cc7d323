//! The trait `Backend`: what a database must offer to take part in a cluster.
//!
//! This crate has contracts and no implementation. They say what a call answers, what the backend holds after it
//! (`told`), and which faults, queries, transactions and logins it counts. A backend that does not tell its
//! contents has `tells = false`, and clauses about contents then say nothing.
//!
//! A new call concerns the trait, each implementation (`cj_mem`, `cj_lite`, `cj_flaky`) and the controller. There
//! are no proofs here. Read `specs/Backends` first, then an implementation.
#![tactic(auto)]

mod backend;

pub use backend::{Backend, BackendError, Counts, NoSnap, Snap};

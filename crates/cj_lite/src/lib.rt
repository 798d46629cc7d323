//! A SQLite database in memory as a backend, and `AnyBackend`, which is a backend of either kind.
//!
//! The contracts are those of `cj_backend` with `tells = false`: they fix the counts of faults, queries,
//! transactions and logins, and say nothing about contents. `checks/engines` and `cj_engine_tests` test contents
//! against the backend in memory.
//!
//! A new call of `cj_backend` needs an implementation in `lite_backend` and `any_backend`. What a statement does
//! is in `cj_lite_tables`. Read `specs/LiteBackends` and `specs/AnyBackends` first; there is one proof, in
//! `proofs/lite_backend`.
#![tactic(auto)]

mod any_backend;
mod lite_backend;

pub use any_backend::{AnyBackend, AnySnap};
pub use lite_backend::LiteBackend;

//! A database whose committed rows are in SQLite, in memory.
//!
//! `Database` decides what a statement means by the engine of `cj_table`, over the rows that the statement may
//! concern. SQLite stores rows and finds them by key. Contracts promise that outcomes, answers and dumps are
//! well-formed (`IsOutcome`, `IsAsked`, `IsStorable`), and nothing about contents. Tests compare it with the
//! other engine (`cj_engine_tests`).
//!
//! A new statement concerns `database`, `writing`, `reading` and `small`; SQL sent to SQLite is in `statements`.
//! There is little to prove: read `proofs/small` and `proofs/storable`.
#![tactic(auto)]

mod changes;
mod database;
mod error;
mod loading;
mod reading;
mod search;
mod small;
mod statements;
mod storable;
mod table;
mod values;
mod writing;

pub use database::Database;
pub use error::LiteError;

//! The database engine: tables as ordered trees of rows, with the uncommitted versions (drafts) of transactions.
//!
//! Contracts see `Tables` as the slots of the vocabulary (`cj_model`, `Database`). Each call gives the outcome
//! and the database that the vocabulary's step gives. If an allocation fails, the database stays unchanged.
//! `drop_table` alone can't fail. A snapshot is a database of its own, which costs one count for each table.
//!
//! A new change of one table concerns `cj_dml`, one of the whole database concerns `slots` or `ends` and
//! `tables`. Read `specs/Carried` first, then `proofs/WrittenLaws` (a write of one table is one of the database)
//! and `proofs/CarriedLaws` (what a call leaves is a database).
#![tactic(auto)]

mod conversion;
mod ends;
mod put;
mod schemas;
mod slots;
mod snapshots;
mod tables;
mod writers;

pub use cj_rowstore::{Scan, ScanBack, View};
pub use tables::Tables;

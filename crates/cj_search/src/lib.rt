//! The rows of one table that meet a condition, in rising key.
//!
//! `matching_rows` and `Matching` give exactly the rows that meet the condition, as the vocabulary evaluates it.
//! A condition that fixes the key costs one look-up. Other conditions cost a walk that skips the ranges of keys
//! which they exclude. Also here: the checks of a WHERE clause, and its binding to columns.
//!
//! A new way to find rows concerns `Way` in `src/matching.rt`. Read `specs/Searches` first, then
//! `proofs/SearchLaws`, which shows that a skipped row does not meet the condition.
#![tactic(auto)]

mod conditions;
mod matching;

pub use conditions::{bound_where, where_has_unknown_column, where_mixes_kinds};
pub use matching::{Matching, matching_rows, satisfies, says_key};

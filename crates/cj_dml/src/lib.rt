//! The changes of one INSERT, UPDATE or DELETE to one table, or the first refusal.
//!
//! `decided` changes nothing: it gives a `Change`, which `cj_table` carries out, or a `Refusal`. Its contract is
//! that of the vocabulary (`cj_model`, `Database`): the rows that are left, the number of rows written, and the
//! refusal. A change in place is given only for a table on which no transaction has a draft.
//!
//! A new refusal concerns `insert` or `update`. A new way to change many rows concerns `Change`, `column_edit`
//! and `unmet`. Read `specs/Plans` and `specs/Changes` first, then `proofs/PlanLaws`, `proofs/UpdateRefusals` and
//! `proofs/InPlace`.
#![tactic(auto)]

mod column_edit;
mod delete;
mod insert;
mod names;
mod plan;
mod unmet;
mod update;

pub use column_edit::ColumnEdit;
pub use insert::{has_misfit, is_column, puts};
pub use names::is_distinct;
pub use plan::{Change, Decided, Plan, decided};
pub use unmet::Unmet;

//! Which tables a request names, and which table an entry of the log changes.
//!
//! `needs` answers the set of tables that a request names, `written` the table that an act changes.
//! Contracts give both by definitions: `needs` of `cj_model` and `table_changed` of `specs/Changed`.
//! Running out of memory is the only error. A new kind of request or act concerns `usage.rt` and these definitions.
//! Proofs are few: the answers in `proofs/usage`.
#![tactic(auto)]

mod usage;

pub use usage::{lone, needs, written};

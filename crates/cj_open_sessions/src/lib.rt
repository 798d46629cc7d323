//! The open sessions of a world: what each was answered and asks for, and which acts its transaction forbids.
//!
//! `Sessions` has room for `SESSION_LIMIT` sessions from the start, so only `new` allocates.
//! Contracts give the list of sessions after each call, by the definitions of `cj_cluster` (`specs/Moves`).
//! A call for a session that isn't open changes nothing.
//! A change usually concerns `sessions.rt`; `transactions.rt` has the rules on BEGIN, COMMIT and ROLLBACK.
//! Proofs begin in `proofs/Seats`: where an open session is, and what a change there makes of the list.
#![tactic(auto)]

mod sessions;
mod transactions;

pub use sessions::{Sessions, read_number};
pub use transactions::{forbidden_by, tx_of_act};

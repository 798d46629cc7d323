//! The open sessions and the open transactions that follow from a log.
//!
//! `BookSessions` has each open session with its transaction, `OpenTransactions` the backends where each one wrote.
//! Contracts give the lists after each call (`specs/Lists`). `specs/Kept` says how such lists agree with a log.
//! `concerned` answers the backends that an entry concerns, for lists that agree with the entries before it.
//! `add` and both `follow` take no memory: `reserve` makes the place of a transaction. So no `follow` can fail.
//! A new kind of act concerns both `follow`, `concerned` and `specs/Lists`.
//! Proofs begin in `proofs/Numbered` (lists with rising numbers) and `proofs/TransactionSteps` (one more entry).
#![tactic(auto)]

mod sessions;
mod transactions;

pub use sessions::{BookSession, BookSessions};
pub use transactions::{OpenTransaction, OpenTransactions};

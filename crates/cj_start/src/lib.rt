//! What a start does over the state of a world (`cj_state`), once its log is opened.
//!
//! `bring_up` has each backend replay the log, enables those that don't fail, and ends the transactions that the log
//! leaves open.
//! Promised: the state is then one behind a start over this log (`HasStarted`), and the history has only grown, also
//! where the start fails. A fault of the log's store is counted exactly if the start answers that it failed.
//! To change: `replaying` has the backends replay and be enabled, `ending` ends transactions, `start` has the order.
//! To read: `specs/Started`; `specs/Proving` has the contracts of parts. Proofs begin in `proofs/StartWhole`, with
//! `StartReplays`, `StartEnables` and `StartEnds`.
#![tactic(auto)]

mod ending;
mod replaying;
mod start;

pub use start::bring_up;

//! The tally of the open entry: what each backend did with it, and what its session is answered.
//!
//! `took` adds the report of a backend, and `reply` gives the answer once each target has reported.
//! Contracts promise that right reports give the right reply: the outcome of the entry on the one database, or a
//! refusal if each target failed or ran out of memory (`AnswersByTally`). No call allocates, and none can fail.
//! A new result of a backend's call concerns `tally.rt` and `specs/Tallies`, which has all definitions.
//! Proofs begin in `proofs/Reports` (one report more) and `proofs/Replying` (the reply by the tally).
#![tactic(auto)]

mod tally;

pub use tally::Tally;

//! A desk serves one session: it makes its writes and reads, and its state says what the session has seen.
//!
//! The trait `Desk` is all that `cj_session` knows of a cluster. `cj_core` implements it.
//! `specs/DeskStates` has the state of a desk and its calls, `specs/SessionTranscripts` what a session is sent for
//! the bytes taken.
//! Contracts (`laws.rt`) promise of every desk: the calls of a session are a chain of turns. The messages of a
//! transcript are those of the one reading of its bytes. Past the chain's start, the session's entries in the history
//! are those that its calls scheduled.
//! A new call concerns `desk.rt` and `specs/DeskStates`, a new message `specs/SessionTranscripts`.
//! Proofs begin in `proofs/DeskChainLaws`, `proofs/ChainEntries` and `proofs/AnsweredLaws`, one for each promise.
#![tactic(auto)]

mod desk;
mod laws;

pub use desk::{Desk, Written};
pub use laws::{
    chains_stand_over_their_histories, kept_counts_are_kept_by_each_call, transcripts_are_chains,
    transcripts_follow_the_reading,
};

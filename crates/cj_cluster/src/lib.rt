//! What the cluster does as a whole: types of events and moves, and the definitions by which it is judged.
//!
//! `specs/History` has histories of events, the outcome of each log entry, and turns: what a session may be answered.
//! `specs/Moves` has the state of the controller and what each move may give. `specs/Script` has lines of scripts.
//! The main law (`laws.rt`): after every run of moves, each session is between two replies.
//! From there its replies in a list of moves are a chain of turns (`IsChained`).
//! `freshness_laws.rt` says how long a kept answer is the one that the log gives (`specs/History/Freshness`).
//! A new move concerns `moves.rt`, `specs/Moves/Moves` and `specs/Script/Lines`; docs/ARCHITECTURE.md says more.
//! Proofs begin in `proofs/Soundness` (every move keeps the invariant) and its parts in `proofs/Effects`.
//! `proofs/Answered` shows a turn for each reply, `proofs/Between` what other moves keep, `proofs/Chains` the chains.
#![tactic(auto)]

mod boxed;
mod event;
mod freshness_laws;
mod laws;
mod moves;
mod session;

pub use boxed::BoxedEntry;
pub use event::Event;
pub use freshness_laws::{answers_stay, caches_stay_fresh, fresh_answers_are_right};
pub use laws::sessions_stand_between_replies;
pub use moves::{
    Did, Made, Move, MoveError, Moved, MovedList, Moves, OpenRead, OpenSession, Reason, TakenDump,
    Why,
};
pub use session::SessionEnd;

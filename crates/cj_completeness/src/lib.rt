//! Completeness: what a session, an administrator, a command and `serve` come to where nothing failed.
//!
//! Promised of a session at any desk: where its source and its sink counted no fault, its input ended it and it
//! answered all of that. Promised of each call of an administrator's: it says that a backend or the log's store failed
//! only where the pass shows that. Promised of `serve`: where no count rose it ends with 0 or 1 over what it accepts.
//! Promised of the other commands: they end with 0 over an input that they took whole.
//! Each law follows from the clauses of the call that it is about. Nothing builds on this crate.
//! To read: `specs/ShownFailures`, `specs/Serving`, `specs/WholeInputs`. Proofs begin in the files of these names.
#![tactic(auto)]

mod laws;

pub use laws::{
    completed_commands_end_with_0, completed_servings_end_with_0, failures_show_to_administrators,
    serving_completes, sessions_answer_their_input,
};

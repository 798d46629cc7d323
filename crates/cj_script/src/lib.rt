//! Scripts: lines that are moves of a controller or audits, and the lines that they give (docs/SCRIPT.md).
//!
//! Promised: `script` plays the lines of its source in order and writes what each gives (`CameTo`), whatever the end.
//! The replies to each session are turns of one database (`InTurns`). A line is a move exactly if `MoveLine`
//! (cj_cluster) says so.
//! To change: a move's line concerns `verb.rt` and `arguments.rt`; what a move gives concerns `print.rt`.
//! To read: `specs/Script`, then `specs/Reading` and `specs/Steps`. Proofs begin in `proofs/Playing` (the loop),
//! `proofs/MoveLines` (lines) and `proofs/InTurns`.
#![tactic(auto)]

mod arguments;
mod parse;
mod play;
mod print;
mod verb;

pub use parse::parse_move;
pub use play::{ScriptEnd, script};
pub use print::print_made;

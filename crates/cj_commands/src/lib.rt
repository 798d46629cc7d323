//! Lines of the administrator's console, and the commands that they ask for.
//!
//! Promised: `read_command` finds the command that a line is (`CommandLine`). A line that is none has the form of a
//! command but no backend's name in it (`NamesNoBackend`), or is neither (`IsNoCommand`). A line is at most one of
//! these (`lines_ask_for_one_command`). Nothing here takes memory.
//! To change: a command is a variant in `command.rt` and a case of `CommandLine`. Its word concerns `verb.rt`, what
//! follows that `arguments.rt`, and both `specs/Reading`.
//! To read: `specs/Commands`, then `specs/Reading`, which says how the code reads. Proofs begin in
//! `proofs/CommandLines` (lines), `proofs/Arguing` and `proofs/Found` (arguments).
#![tactic(auto)]

mod arguments;
mod command;
mod laws;
mod reading;
mod verb;

pub use command::{Command, Unread};
pub use laws::lines_ask_for_one_command;
pub use reading::read_command;

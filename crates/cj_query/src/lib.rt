//! Queries: SELECT over the tables that a transaction sees, with joins, groups, order and limit.
//!
//! `select` answers what the vocabulary's `ask` says (`cj_model`, `Database`), or fails for lack of memory.
//! Indexes, known rows, the order of binding and early stops save work. Each is proved to leave the answer as it
//! is.
//!
//! A new refusal concerns `checks`, a new item `projection` and `project`, a new shortcut `paths`, `single` or
//! `joins`. Read `specs/Refused`, `specs/Seen` and `specs/Joined` first. Then come `proofs/AskLaws` (refusals and
//! tables), `proofs/JoinLaws` (joins), `proofs/PathLaws` (shortcuts) and `proofs/TurnLaws` (other orders of
//! binding).
#![tactic(auto)]

mod answer;
mod ask;
mod binding;
mod checks;
mod columns;
mod found;
mod groups;
mod index;
mod joins;
mod known;
mod order;
mod paths;
mod project;
mod projection;
mod ranked;
mod rows;
mod sides;
mod single;
mod top;
mod turned;

pub use ask::select;

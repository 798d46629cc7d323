//! The texts of `cjc_stress`: the words of its command, the statements that its clients send, and the lines that it tells.
//!
//! Nothing here knows a cluster, so that the crate is proved above few others. It promises nothing of its own.
//! To change: words are in `tasks.rt`, a new kind of statement goes into `statements.rt`.
#![tactic(auto)]

mod lines;
mod statements;
mod tasks;

pub use lines::Lines;
pub use statements::{
    append_query, changes, drawn_session, drawn_update, login, lookups, session_of, tables,
};
pub use tasks::{Kind, Measure, Placed, Plan, Task, USAGE, Wrong, task_of};

//! Explains, in plain words on standard error, why the program ended with an error.
//!
//! `explain` adds a line after what `run` of `cj_top` writes there, and needs nothing of `run` but the status. It
//! finds the reason in what a run leaves behind (`Traces`). All lines but those of status 3 stand in one table,
//! `LINES`.
//!
//! Promised (`Explains`): a line of the table is told that is listed for the status, or nothing if none is. At 3 it is
//! a line that says where the configuration is refused, or nothing. In no clause: that the reason is the right one. To
//! change a line or add one: `lines.rt`; which of them is told: `traces.rt`; the row and the value at 3: `place.rt`.
//! To read: `specs/Explanations`. Proofs begin in `proofs/Rows`.
#![tactic(auto)]

mod lines;
mod noted;
mod place;
mod telling;
mod traces;

pub use noted::{Noted, Notes};
pub use telling::{explain, tell};
pub use traces::Traces;

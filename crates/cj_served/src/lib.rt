//! Serving a cluster: its world is started from the log, its shelf is opened, and then a console chats while sessions
//! are served over the connections of a port.
//!
//! `serve_over` puts the world behind locks (`Control` of `cj_control`). The console (`cj_console`) and the accepting
//! of connections (`cj_serve`) each have a thread; where there is none, the console comes after the accepting.
//! Promised: the log is opened as by any start, and what the console writes is a chat from the history of the start on
//! (`ChatsFrom`). The accepting is done exactly if the port gave as many connections as were asked for.
//! Not promised: that each connection got its session (`cj_serve`).
//! To change: `serving.rt` has the two sides, `side.rt` their threads, `started.rt` the start.
//! To read: `specs/Servings`. Proofs begin in `proofs/FromStart`.
#![tactic(auto)]

mod serving;
mod side;
mod started;
mod status;

pub use started::{Unserved, serve_over};
pub use status::status_of_serving;

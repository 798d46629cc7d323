//! Serving a cluster that threads share: each connection of a port is a session, in a thread of its own.
//!
//! `serve` accepts connections and hands each to the spawner as a job, which has its own caller and its own pass. A job
//! that is handed back is done by the accepting thread, which accepts nobody meanwhile.
//! Promised: `Done` comes exactly if the port gave as many connections as were asked for (clause `done`), and
//! `PortFault` exactly if it counted a fault. The pass of the accepting thread forgets nothing.
//! Not promised: that each connection gets its session. No proof follows a job into its thread; tests show it
//! (`cj_serve_tests`). A session that is served keeps what `serve_session` promises of it (`cj_session`).
//! `start_workers` gives each backend a thread that carries out its entries; a backend without one was counted
//! (`CountsMissing`). `serve` has them end after its last accept.
//! To change: `connection.rt` has one connection, `serving.rt` the accepting, `crew.rt` the workers.
#![tactic(auto)]

mod connection;
mod crew;
mod serving;

pub use crew::start_workers;
pub use serving::{ServeEnd, serve};

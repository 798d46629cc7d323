//! Where connections come from, the trait `Port`, and what runs jobs beside their caller, `Spawner` for each `Task`.
//!
//! A port counts the connections that it gave and its faults. `MemPort` has a list of them and fails at chosen calls.
//! A spawner gives each job to a thread of its own, of which it keeps at most so many, or hands that very job back.
//! Not promised: that a started job runs, or when. No proof follows a value into a thread.
//! The parameter of `Port` is the handle that calls are passed. Each impl asks of it what it needs, in memory nothing.
//! A spawner is no trait, since the prover lets no method of an impl give a thread a job of any type.
//! A change of `Port` also concerns `TcpPort` of `cj_edge_net`.
//! The definitions are in `specs/Ports`. The crate has no lemmas, and its only proof file is for the loop that joins.
#![tactic(auto)]

mod mem_port;
mod port;
mod spawner;

pub use mem_port::MemPort;
pub use port::Port;
pub use spawner::{Spawner, Task};

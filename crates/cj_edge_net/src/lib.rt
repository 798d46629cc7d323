//! What a server takes from its host: a port that listens for TCP, and the two sides of each connection.
//!
//! Promised: the port counts each connection that it gives and each error. A side is used as a `StdSource` or a
//! `StdSink` of `cj_edge`, which count each error of theirs.
//! Nothing is promised of bytes. What the operating system does is trusted, and tried by `cj_port_tests`.
//! The crate is apart from `cj_edge`, so that a program without sockets doesn't link it.
//! To change: `port.rt` says which errors of the listener pass by themselves, and `side.rt` concerns reads and writes.
//! The crate has no definitions and no proof files: the search closes every goal.
#![tactic(auto)]

mod port;
mod side;

pub use port::TcpPort;
pub use side::Side;

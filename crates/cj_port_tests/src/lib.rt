//! Tests of ports and spawners: what no contract says of threads and sockets. No answer depends on a schedule.
//!
//! The crate has only tests, so that each crate of functions is proved once. Each file tests one kind of object.
//! Sockets are those of this host alone, at a port number that the system picks. A client connects before the port
//! accepts, so one thread can do both.
//! To change: a port or a spawner that gets a new case gets it in its file. `streams` has what the files share.
//! The crate has no folder of proofs: the search closes every goal.
#![tactic(auto)]

#[cfg(test)]
mod mem_ports;
#[cfg(test)]
mod sockets;
#[cfg(test)]
mod spawners;
#[cfg(test)]
mod streams;

//! Tests of serving with a console beside it: what no contract says of the two threads. Ports, streams and stores are
//! in memory.
//!
//! The crate has only tests, so that each crate of functions is proved once. Each test serves a new cluster over two
//! backends (`clusters`), and looks at what each client heard and at what the console wrote. `frames` has what clients
//! send and are sent, worked out by hand from docs/FORMATS.md. Connections are those of `cj_test_setup`. No answer
//! depends on a schedule.
//! To change: a new case goes into `serving`, or into `refusals` if nothing is served.
#![tactic(auto)]

#[cfg(test)]
mod clusters;
#[cfg(test)]
mod frames;
#[cfg(test)]
mod refusals;
#[cfg(test)]
mod serving;

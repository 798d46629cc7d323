//! Tests of serving: what no contract says of a job in its thread. Ports and streams are in memory.
//!
//! The crate has only tests, so that each crate of functions is proved once. Each test serves connections at a new
//! cluster over two backends (`clusters`), and looks at what each client heard. `connections` has those that meet, and
//! `cj_test_setup` all others. `frames` has what clients send and are sent, worked out by hand from docs/FORMATS.md.
//! No answer depends on a schedule. Where two connections must be served beside each other, each looks for the other
//! up to a limit of looks.
//! To change: a new case goes into `serving`. The one proof file, in `proofs/clusters`, picks the names of the cluster.
#![tactic(auto)]

#[cfg(test)]
mod clusters;
#[cfg(test)]
mod connections;
#[cfg(test)]
mod frames;
#[cfg(test)]
mod serving;

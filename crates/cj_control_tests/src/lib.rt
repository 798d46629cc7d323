//! Tests of a cluster that threads share: whole sessions, what the cache keeps, the administrator, calls that fail, and
//! threads.
//!
//! The crate has only tests, so that each crate of functions is proved once. A test lists the steps that are taken at
//! a cluster over two backends, each with what it is to give, and looks at the backends at the end. `clusters` starts
//! the cluster (`cj_test_setup`) and gives it up, and `steps` takes a step. `frames` has what sessions send and are sent, worked out by
//! hand from docs/FORMATS.md.
//! Some cases have no test. A caller that was left makes no call, since `leave` takes it. Neither a full history nor a
//! cluster without session numbers can be made, as both take 2^62 calls.
//! To change: a new call gets a step in `steps`, and its test goes into the file of its subject. Proofs are in
//! `proofs/clusters`; that of `play_with_cache` picks the names of the cluster.
#![tactic(auto)]

#[cfg(test)]
mod administration;
#[cfg(test)]
mod clusters;
#[cfg(test)]
mod failures;
#[cfg(test)]
mod frames;
#[cfg(test)]
mod kept;
#[cfg(test)]
mod sessions;
#[cfg(test)]
mod steps;
#[cfg(test)]
mod threads;

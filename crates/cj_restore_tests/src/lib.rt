//! Tests of how a backend is backed up and comes back, in a cluster that threads share.
//!
//! The crate has only tests, so that each crate of functions is proved once. A test lists the steps that are taken at
//! a cluster over two backends, each with what it is to give. `clusters` starts the cluster (`cj_test_setup`), `gates`
//! holds a write of one of its backends, and `steps` takes a step.
//! No step claims that a dump may be loaded: each dump on the shelf may, by the contract of `backup` and the law of
//! dumps, so that the shelf's dumps can be handed to `reenable`.
//! To change: a new call gets a step in `steps`, and its test goes into the file of its subject. Proofs begin in
//! `proofs/Shelved`; that of `play` picks the names of the cluster.
#![tactic(auto)]

#[cfg(test)]
mod backing;
#[cfg(test)]
mod clusters;
#[cfg(test)]
mod gates;
#[cfg(test)]
mod reenabling;
#[cfg(test)]
mod steps;

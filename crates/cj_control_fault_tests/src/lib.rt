//! Tests of a cluster that threads share whose backends fail from their first calls on, or whose log fails at each
//! call.
//!
//! The crate has only tests, so that each crate of functions is proved once. `cj_control_tests` has the other tests of
//! such a cluster; they are apart, since one check of all of them takes too much memory.
//! A test lists the steps that are taken at a cluster over two backends, each with what it is to give. `clusters`
//! starts the cluster (`cj_test_setup`) and gives it up, `steps` takes a step, and `faults` has the tests, with frames
//! that were worked out by hand from docs/FORMATS.md.
//! To change: a test of another fault goes into `faults`, a new call of the cluster into `steps`. The one proof, of
//! `play`, picks the names of the cluster.
#![tactic(auto)]

#[cfg(test)]
mod clusters;
#[cfg(test)]
mod faults;
#[cfg(test)]
mod steps;

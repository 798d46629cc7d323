//! Tests of the console: each command and each refusal, lines that are no commands, and streams that fail.
//!
//! The crate has only tests, so that each crate of functions is proved once. A test lists the steps that are taken at
//! a cluster over two backends: sessions, and what is typed at the console, with its answers. The answers are worked
//! out by hand from docs/CONSOLE.md. `clusters` starts the cluster (`cj_test_setup`), `requests` has what sessions ask
//! for, and `steps` takes a step.
//! Some refusals have no test. A full history takes 2^62 calls. A bad record needs a store that hides its bytes, and a
//! dump ahead of the log one of another log. Want of memory is tried by `rt try --test --fail-alloc`.
//! To change: a new command gets rows in the file of its subject. Proofs begin in `proofs/clusters`; that of `play`
//! picks the names of the cluster.
#![tactic(auto)]

#[cfg(test)]
mod clusters;
#[cfg(test)]
mod commands;
#[cfg(test)]
mod failures;
#[cfg(test)]
mod lines;
#[cfg(test)]
mod requests;
#[cfg(test)]
mod steps;

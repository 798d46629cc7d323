//! Tests of the persistent tree and of shared values: by example, and what no contract says of memory.
//!
//! The crate has only tests, so that each crate of functions is proved once.
//! To change: a new call of a tree gets its case in `trees`, and one of a shared value in `values`.
#![tactic(auto)]

#[cfg(test)]
mod counted;
#[cfg(test)]
mod trees;
#[cfg(test)]
mod values;

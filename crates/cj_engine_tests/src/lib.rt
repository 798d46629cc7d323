//! Tests of engines: a backend over SQLite and one in memory must answer the same statements alike.
//!
//! The crate has only tests, so that each crate of functions is proved once. It promises nothing. `engines` runs
//! a list of statements on both backends and compares replies and contents. `drafts` dumps a backend with a draft
//! and loads it into others. `snapshots` looks at a snapshot after later changes. `given` parses the requests.
//!
//! A new statement of SQL belongs in the lists of `engines`. The one proof is in `proofs/engines`.
#![tactic(auto)]

#[cfg(test)]
mod drafts;
#[cfg(test)]
mod engines;
#[cfg(test)]
mod given;
#[cfg(test)]
mod snapshots;

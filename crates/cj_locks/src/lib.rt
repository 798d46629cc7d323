//! The locks of a cluster that threads share: the book, each cell of a backend and each shard of the result cache has one.
//!
//! A function that takes a lock makes its calls of `cj_locked`, `cj_locked_cell` or `cj_cache_shard` there. It has their
//! clauses but for what they say of the locked value. What is known between two locks is what the `Pass` has seen.
//! Promised: what a call answers of the log, of a backend or of the turn holds in what the pass has seen then.
//! No lock is held while another is taken. No lock that a read needs is held over an append, a print or a query of
//! another backend.
//! To change: `locks.rt` has what the crates above share. The way of an entry is in `cj_write_path`, that of a query in
//! `cj_read_path`, the way back of a lost backend in `cj_return_path`. What else an administrator does is in
//! `cj_administration`.
//! To read: the clauses of `Locks`. This crate has no definitions, and its proofs need no file.
#![tactic(auto)]

mod locks;

pub use locks::Locks;

//! The way of a query through the locks of `cj_locks`: its shard of the result cache, a look at the book, a backend's
//! cell, and then the book and the shard once more. An answer that the shard keeps ends it at the first.
//!
//! Each function takes the `Locks` first, and then what a thread has: its handle and its `Pass`.
//! Promised: `read` is a turn of the session whose own pass it is given (`Turn` of `cj_cluster`), and says from which
//! position on the session's later reads must be answered.
//! No lock is held while another is taken, and none while a query is printed or a snapshot answers.
//! To change: `reads.rt`, in the order of the calls, the innermost first.
//! To read: `specs/Reading`, `cj_locked/specs/Reading`. Proofs begin in `proofs/Reading`.
#![tactic(auto)]

mod reads;

pub use reads::{Query, read};

//! What the tests of clusters share: how a cluster over two backends is started, what a session asks for, and
//! connections in memory.
//!
//! `started` promises the parts of a world that has started, of which a test makes its cluster. `request` promises the
//! transaction that a session has then. What does not come to pass is None, at which a test fails.
//! To change: a setting that several test crates need goes into `Setup`, a kind of request into `requests.rt`.
//! The one proof is in `proofs/Transactions`.
#![tactic(auto)]

mod clusters;
mod connections;
mod requests;

pub use clusters::{Setup, partial, parts, replicated, started};
pub use connections::{Ear, Heard, connection, has_heard, silence};
pub use requests::request;

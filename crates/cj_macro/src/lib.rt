//! Replaces the calls of the clock (NOW) and of random numbers (RAND) in a request by values.
//!
//! A request is rewritten before it is scheduled, so that all backends run the same statement. `rewrite` can't
//! fail. The result has no calls, and if some text reads as the request, some text reads as the result.
//!
//! A new statement or call concerns `statement`, `condition` or `part`. Read the contract of `rewrite` first,
//! then `proofs/Written` (the result is still SQL), `proofs/Plainness` (no calls are left) and `proofs/Drawing`
//! (the order of draws).
#![tactic(auto)]

mod condition;
mod part;
mod statement;

pub use statement::rewrite;

//! Load balancing: which backend a read is sent to, where several can answer it.
//!
//! A `Balancer` picks one of the candidates of a mask by its policy, and counts the reads that haven't ended.
//! Contracts promise that the pick is the policy's first candidate (`Picks` in `cj_model`), of which there is one.
//! Use counts and weights are compared exactly, as fractions. No call allocates, and none can fail.
//! A new policy concerns `Policy` and `specs/Cluster/Balancing` in `cj_model`, and `is_ahead` and `count_pick` here.
//! Proofs begin in `proofs/Firsts`: the first of the candidates, one number after the other.
//! `proofs/Examples` has picks worked out.
#![tactic(auto)]

mod balancer;

pub use balancer::{Balancer, MOST_WEIGHT};

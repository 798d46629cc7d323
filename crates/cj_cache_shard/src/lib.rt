//! Answers that the result cache keeps, behind locks of their own, so that a hit takes no lock of the book.
//!
//! A shard has heard of a beginning of the history, and each answer in it is fresh there (`IsFreshCache`). A look says
//! so if the board has more events by now: then the shard is to hear the news from the book first (`catch_up`).
//! Promised: a kept answer is right at a position that its session is owed, in all that it has seen (`IsFound`).
//! To change: calls are in `shard.rt`, and what a shard hears comes from `cj_book` (`news.rt` there).
//! To read: `specs/Shards`. Proofs begin in `proofs/Fresher` (a cache that has heard of more entries).
#![tactic(auto)]

mod shard;

pub use shard::{CacheShard, Found};

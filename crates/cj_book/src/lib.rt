//! The scheduler's state: the recovery log, and what follows from its history of events.
//!
//! A `Book` knows the open entry and its targets, enabled backends and markers.
//! It has the open sessions and transactions as the lists of `cj_transactions`, and hands them each entry.
//! It also holds the placement of tables, the balancer of reads, and the cache of answers where no threads share it.
//! Each event goes to the board in the call that brings it. No second list of events is kept.
//! Contracts promise that the log's items are the history's entries and markers, also after a crash.
//! They name each refusal and what it leaves (`specs/Books`, `specs/Events`, `specs/Seated`).
//! `legal` shows what holds of every book. The invariant is `IsKeptBook` in `specs/Kept`.
//! A new event concerns `Books`, `Events` and a file like `end.rt`. A new reason to refuse concerns `error.rt`.
//! No call may fail behind the append to the log: `finish_entry` (`schedule.rt`), `finish_marker` (`marker.rt`).
//! Proofs begin in `proofs/Following` and `proofs/Keeping` (a book with one more event).
//! `proofs/Recovering` and `proofs/Starting` treat opening, `proofs/Owned` and `proofs/Owners` own passes.
#![tactic(auto)]

mod book;
mod book_log;
mod counter;
mod end;
mod error;
mod marker;
mod news;
mod own_pass;
mod pending;
mod reading;
mod recovered;
mod schedule;
mod sessions_and_cache;
mod touching;

pub use book::{Book, BookParts};
pub use book_log::BookLog;
pub use counter::Counter;
pub use error::{BookError, OwnError, SessionsFull, StartError};
pub use news::{Heard, NEWS_LIMIT, News};
pub use pending::{BegunEntry, Pending, Prepared};

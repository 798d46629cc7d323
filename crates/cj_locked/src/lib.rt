//! What stands behind the book's lock in a cluster that threads share, and the turn.
//!
//! Each call is a `&mut self` method with its whole clause, and this crate knows of no thread: a driver locks, makes
//! one call, and has its clause without what is about `self`. A `Pass` carries on what was seen (`cj_pass`).
//! The `Turn` is a token: only who has it brings events into the history, but for failures in reads. With it goes the
//! recovery log, so that an append holds no lock. It can't be dropped, so it comes back to the book.
//! Promised: a write is a turn of its session (`WritesTurn`), from `begin`, `finish` and `end` by `proofs/Writing`.
//! To change: entries are in `book.rt` and `orphan.rt`, queries and news in `look.rt` and `failure.rt`, the rest in
//! `mark.rt`, `session.rt`, `hold.rt`, `change.rt` and `listing.rt`. Proofs begin in `proofs/Turns` (what stays with
//! the turn).
//! To read: `specs/Turns`, `specs/Writing`, `specs/Looking`, `specs/Reading`, `specs/Marking`, `specs/Changes`,
//! `specs/Listing`.
#![tactic(auto)]

mod book;
mod change;
mod failure;
mod hold;
mod listing;
mod look;
mod mark;
mod orphan;
mod session;
mod turn;

pub use book::{Begun, LockedBook, OpenEntry, without};
pub use failure::ReadFailure;
pub use hold::HeldTurn;
pub use listing::ShownItem;
pub use look::Look;
pub use mark::BegunMarker;
pub use orphan::BegunAbort;
pub use turn::{Turn, TurnLedger};

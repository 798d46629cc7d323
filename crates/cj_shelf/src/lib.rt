//! Shelves: lists of dumps, each dump one record of a store.
//!
//! A `Shelf` keeps only the names of its dumps in memory and reads a dump from the store when asked. `MemoryShelf` is
//! a shelf over a store in memory, with name, source and position of each dump at hand.
//! Promised: `add` puts a dump at the end or leaves the list. A crash during `add` leaves the dumps from before, or
//! one more. The bytes of a shelf determine its dumps (`laws`).
//! To change: `shelf.rt` has the calls, and `reading.rt` says which bytes opening accepts.
//! To read: `specs/Shelves`; `specs/Proving` has what only proofs need. Proofs begin in `proofs/Bodies`, then
//! `proofs/Looked` (names) and `proofs/Stops` (crashes).
#![tactic(auto)]

mod error;
mod label;
mod laws;
mod memory_shelf;
mod reading;
mod shelf;

pub use error::ShelfError;
pub use laws::bytes_fix_dumps;
pub use memory_shelf::MemoryShelf;
pub use shelf::Shelf;

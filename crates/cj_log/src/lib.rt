//! The recovery log: entries and markers in one list, kept in a store as a record file with the magic `CJL1`.
//!
//! `Log::open` finds the items of a store, and `append` adds one at the end. No item is kept in memory.
//! Contracts promise that the bytes fix the items: a log that is opened again has those that it had (`laws.rt`).
//! A refused append leaves the items. A stop at any moment of an append leaves the old items, or one more.
//! A change of the format concerns `specs/Items`, `specs/Proving/ItemFormats`, `encode.rt` and `decode.rt`.
//! `cj_records` keeps the list through a stop. `cj_recovery` says which entries may follow each other.
//! Proofs begin in `proofs/ItemFormats` (the body of an item is a format) and `proofs/OneLog` (bytes fix the items).
//! `proofs/Stops` says what a stop leaves.
#![tactic(auto)]

mod decode;
mod encode;
mod error;
mod item;
mod laws;
mod log;

pub use error::LogError;
pub use item::{LogEntry, LogItem, LogItems, LogMarker};
pub use laws::{bodies_fix_items, bytes_fix_items};
pub use log::Log;

//! A backend that holds its database in memory, in the engine of `cj_table`.
//!
//! `MemBackend` never answers `Failed`: it may only run out of memory. Contracts see what it holds, except from a
//! change that ran out of memory to the next load that is carried out. A failed change leaves the database itself
//! unchanged.
//!
//! It gives snapshots (`MemSnap`), which cost one count each while nothing changes (`shared_tables`).
//!
//! A new call of `cj_backend` needs its implementation in `src/memory_backend.rt`. Read `specs/MemoryBackends` first,
//! then `proofs/Promised`.
#![tactic(auto)]

mod memory_backend;
mod shared_tables;
mod snapshot;

pub use memory_backend::MemBackend;
pub use snapshot::MemSnap;

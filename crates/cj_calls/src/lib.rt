//! The calls of one session over the state of a world (`cj_state`): its reads and its writes.
//!
//! `serve_read` answers a query from the cache or from a backend. `serve_write` schedules an entry, has each enabled
//! backend take it, and ends it.
//! Promised: each call is a turn of one database, and says what it does besides: to histories, backends, logins and
//! counts of faults (`WorldTurn`), and to the result cache (`UsesCache`).
//! To change: `read` has queries, `write` has entries. Both refuse by `write::refuse`, which counts the request.
//! To read: `specs/WorldTurns`, and what it cites in `specs`; `specs/Proving` has the contracts of parts. Proofs
//! begin in `proofs/SoloTurns`, with `SoloReads` and `SoloWrites`.
#![tactic(auto)]

mod read;
mod write;

pub use read::serve_read;
pub use write::{ServedWrite, serve_write};

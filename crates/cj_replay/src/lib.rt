//! How a backend comes back beside work: it loads a dump if it is out, replays the log without the turn, and is
//! enabled.
//!
//! `reenable` composes calls of `cj_return_path` and takes no lock itself. Entries and queries go on meanwhile;
//! only the last entries are replayed under the turn.
//! Promised: after Ok the event of the enabling stands in the history, behind so many entries (`Reenables`). Each
//! refusal has its cause there, or in what the pass has noted.
//! To change: `reenabling.rt`. To read: `specs/Reenabling`. Proofs begin in `proofs/Restored`.
#![tactic(auto)]

mod reenabling;

pub use reenabling::{ReplayError, reenable};

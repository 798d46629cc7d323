//! What a program takes from its host: standard streams as a source and sinks, files as stores, the clock, and the
//! words of its command.
//!
//! Promised: streams tell of their bytes what std tells, and count each error. A file tells nothing of its bytes.
//! What the operating system does is trusted, and tried by `checks/`.
//! To change: `file_store.rt` and `standing.rt` concern files, `patient.rt` and `adapters.rt` the streams.
//! The crate has no definitions of its own. Its proofs are the invariants of loops in `proofs/patient`.
#![tactic(auto)]

mod adapters;
mod command;
mod file_store;
mod patient;
mod standard;
mod standing;
mod system_clock;

pub use adapters::{StdSink, StdSource};
pub use command::{WordsError, words};
pub use file_store::FileStore;
pub use patient::Patient;
pub use standard::fill_standard_streams;
pub use system_clock::SystemClock;

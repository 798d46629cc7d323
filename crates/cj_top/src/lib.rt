//! The program as one call, `run`, over the words of its command line and the objects that it is handed.
//!
//! The objects are stores, streams and a clock, behind the traits of `cj_outside`. So `cjc` hands it files, and tests
//! hand it memory. `run` promises the exit status, what is written, and what is left of each store. Its clauses stand
//! in src/program.rt, their words in specs/, and docs/PROVED.md tells them in order. `pipe` and `play` are the two
//! calls under it that serve a world. Where nothing failed, the bytes fix the status (`laws`).
//!
//! The configuration's store is only read. `pipe` and `script` append to the log, `log` only reads it, and nothing
//! else touches it. `log` and `gen` take nothing of the input. The log's store is always given back.
//!
//! Proofs begin at proofs/program/run, and go down a file of src/ at a time. Lemmas that several of them cite are in
//! proofs/*.antt.
#![tactic(auto)]

mod configured;
mod files;
mod generated;
mod laws;
mod listed;
mod piped;
mod program;
mod refused;
mod scripted;
mod words;

pub use configured::{
    Unconfigured, any_backends, are_in_memory, conf_of, memory_backends, parts_of, tell_refusal,
};
pub use files::Paths;
pub use laws::completeness_follows;
pub use piped::{PipeError, pipe};
pub use program::{Ended, run};
pub use refused::{stop_at_log, write_bad_record};
pub use scripted::play;
pub use words::paths;

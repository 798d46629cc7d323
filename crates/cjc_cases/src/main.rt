//! The program that plays the cases: reads them from standard input, runs each over objects in memory, and writes
//! what the runs gave.
//!
//! Promised: each run is handed what its case says, and keeps what `run` of `cj_top` promises (`KeepsPromises`,
//! `specs/Runs`).
//! To change: a case is a line of `stdin` and its output in `stdout`; docs/ARCHITECTURE.md says how ("Where a case
//! goes"). A new promise of `run` is repeated in `specs/Runs`.
//! Proofs begin in `proofs/Kept`.
#![tactic(auto)]

mod program;

use crate::program::Program;
use cj_cases::play;
use cj_edge::{StdSink, StdSource};
use std::process::ExitCode;

fn main(rt: HostRuntime) -> ExitCode {
    let mut input = StdSource::new(rt.reader());
    let mut output = StdSink::new(rt.stdout());
    let mut errors = StdSink::new(rt.stderr());
    ExitCode::from(play(
        rt.alloc(),
        &mut Program,
        &mut input,
        &mut output,
        &mut errors,
    ))
}

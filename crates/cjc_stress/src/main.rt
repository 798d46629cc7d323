//! A program that tries a cluster that threads share, and measures one. `checks/stress` and `bench/control` run it.
//!
//! `stress` starts a cluster over the recovery log that lies in its folder. It serves sessions with random statements
//! in threads of their own, while an administrator ends orphans, sets checkpoints, audits and disables a backend. It
//! writes what each session sent and was sent: whoever reads that and the log can tell whether each reply is one
//! database's. `bench` serves sessions that only read or only write, and writes how long each took. Both promise
//! nothing of their own.
//!
//! To change: what threads do is in `client.rt` and `administrator.rt`, a new measure in `measures.rt`. The words of the
//! command, the statements and the lines that are told are in `cj_stress_text`.
#![tactic(auto)]

mod administrator;
mod client;
mod configured;
mod gate;
mod measures;
mod trial;
mod worker;

use crate::configured::setting;
use crate::trial::try_tried;
use cj_edge::{FileStore, StdSink, words};
use cj_outside::{Sink, write_all};
use cj_stress_text::{Lines, USAGE, task_of};
use std::alloc::Global;
use std::fs::File;
use std::process::ExitCode;
use std::rt::Files;

/// The file in the folder in which this program runs that is the recovery log.
const LOG: &str = "stress.log";

/// Opens the recovery log.
fn log<R: Files<File = File> + Copy>(rt: R, alloc: Global) -> Option<FileStore<R>> {
    let path = String::from_str(alloc, LOG).ok()?;
    Some(FileStore::open(rt, path))
}

/// Writes what was told, and returns the status.
fn end_with(output: &mut impl Sink, told: Option<Lines>) -> u8 {
    let Some(lines) = told else {
        return 1;
    };
    match write_all(output, &lines.into_text()) {
        Ok(()) => 0,
        Err(_) => 1,
    }
}

// What goes into threads has to be of types that are known here: no other function may have the host's handle.
fn main(rt: HostRuntime) -> ExitCode {
    let alloc = rt.alloc();
    let Some(task) = words(&rt).ok().and_then(|words| task_of(&words)) else {
        let _ = write_all(&mut StdSink::new(rt.stderr()), USAGE.as_bytes());
        return ExitCode::from(2);
    };
    let Some(log) = log(rt, alloc) else {
        return ExitCode::from(1);
    };
    let told = match setting(rt, alloc, task) {
        Some((conf, backends)) => try_tried(&rt, alloc, task, conf, log, backends),
        None => None,
    };
    ExitCode::from(end_with(&mut StdSink::new(rt.stdout()), told))
}

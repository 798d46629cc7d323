//! A cluster over two backends in memory that have every table, and how it is served.

ghost use Rattle.std.specs.Prelude.{◌≡◌, []};

use cj_console::ConsoleEnd;
use cj_core::Backends;
use cj_flaky::Wrong;
use cj_mem::MemBackend;
use cj_model::NoMemory;
use cj_outside::{FixedClock, MemSink, MemSource, MemStore};
use cj_port::{Port, Spawner};
use cj_serve::ServeEnd;
use cj_served::{Unserved, serve_over};
use cj_test_setup::{parts, replicated};
use std::alloc::Global;
use std::process::Abort;
use std::sync::{Arc, Wait};
use std::thread::Threads;

/// The seed of the sessions' random numbers. No statement here draws one.
const SEED: u64 = 1;

/// How a cluster was served, or why it was not.
pub type Outcome = Result<(ConsoleEnd, ServeEnd), Unserved<MemStore, MemStore>>;

/// What a cluster is served over: the bytes of its log and of its dumps, at most so many threads, and so many
/// connections.
#[derive(Drop)]
pub struct Setting {
    pub log: Vec<u8>,
    pub dumps: Vec<u8>,
    pub threads: usize,
    pub connections: u64,
}

/// A backend in memory of which contracts see nothing, so that none asks whether the dumps are of the log.
fn backend(alloc: Global) -> Wrong<MemBackend>
    ensures { result.inner.begun ≡ [] }
{
    Wrong::new(alloc, MemBackend::new(alloc), false)
}

/// Serves a new cluster over two empty backends.
pub fn serve_new<
    R: Threads + Wait + Abort + Copy + Drop + Send + Sync + 'static,
    P: Port<R> + Send,
>(
    rt: &R,
    alloc: Global,
    setting: Setting,
    input: &mut MemSource,
    output: &mut MemSink,
    port: &mut P,
) -> Result<Outcome, NoMemory> {
    let Setting {
        log,
        dumps,
        threads,
        connections,
    } = setting;
    let Some(placement) = replicated(alloc) else {
        panic!(rt; "no placement")
    };
    let Some(parts) = parts(alloc, placement, 64) else {
        panic!(rt; "no parts")
    };
    let mut backends = Backends::new(alloc);
    backends.push(backend(alloc))?;
    backends.push(backend(alloc))?;
    let clock = Arc::new(alloc, FixedClock::new(0))?;
    let mut spawner = Spawner::new(alloc, threads);
    Ok(serve_over(
        rt,
        alloc,
        parts,
        MemStore::new(log, Vec::new(alloc)),
        MemStore::new(dumps, Vec::new(alloc)),
        backends,
        input,
        output,
        &clock,
        port,
        &mut spawner,
        SEED,
        connections,
    ))
}

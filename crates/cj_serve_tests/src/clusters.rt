//! A cluster over two backends in memory that have every table, and the serving of connections at it.

ghost use Rattle.std.specs.Prelude.{◌≡◌, ◌≤◌, true, length, vec_capacity};
ghost use Rattle.cj_model.specs.declared.limits.TheConstants.{BACKEND_LIMIT};
ghost use Rattle.cj_outside.specs.Memory.{State};
ghost use Rattle.cj_board.specs.Seats.{board_id, pass_board};
ghost use Rattle.cj_control.specs.Starting.{AreOfStarted};

use cj_control::{Control, Naming};
use cj_core::Shared;
use cj_mem::MemBackend;
use cj_model::NoMemory;
use cj_outside::{FixedClock, MemStore};
use cj_port::{Port, Spawner};
use cj_serve::{ServeEnd, serve, start_workers};
use cj_test_setup::{Setup, replicated, started};
use std::alloc::Global;
use std::marker::Brand;
use std::process::Abort;
use std::sync::ledger::Blank;
use std::sync::{Arc, Wait};
use std::thread::Threads;

/// The seed of the sessions' random numbers. No statement here draws one.
const SEED: u64 = 1;

/// Serves connections at the cluster of these parts, in at most so many threads.
fn serve_at<
    J: Naming + Send + Sync + 'static,
    R: Threads + Wait + Copy + Drop + Send + 'static,
    P: Port<R>,
>(
    rt: &R,
    alloc: Global,
    shared: Shared<MemBackend, MemStore>,
    blank: Blank,
    port: &mut P,
    threads: usize,
    connections: u64,
) -> Result<ServeEnd, NoMemory>
    requires world { AreOfStarted true true (λ (store : State). store.faults) (board_id shared.board) (pass_board shared.pass) shared.book shared.recovery_log shared.cells.items shared.accounts shared.dumps }
    requires board { board_id shared.board ≡ J.board }
    requires layout { shared.book.state.layout ≡ J.layout }
    requires turn { (blank.name ≡ J.turn) × (blank.parts ≡ 1) }
    requires tells { J.tells ≡ true }
    requires emptied { (length shared.emptied.items ≡ 0) × (BACKEND_LIMIT ≤ vec_capacity shared.emptied) }
{
    let Ok((control, mut pass)) = Control::<J, MemBackend, MemStore>::start(alloc, shared, blank)
    else {
        return Err(NoMemory);
    };
    let control = Arc::new(alloc, control)?;
    let clock = Arc::new(alloc, FixedClock::new(0))?;
    let mut spawner = Spawner::new(alloc, threads);
    // With no thread for a connection there is none for a worker.
    let mut crew = Spawner::new(alloc, threads);
    start_workers(rt, alloc, &control, &mut crew)?;
    let end = serve(
        rt,
        alloc,
        &control,
        &mut pass,
        port,
        &mut spawner,
        &clock,
        SEED,
        connections,
    );
    crew.join_all(rt);
    Ok(end)
}

/// Serves so many connections of the port at a new cluster, in at most so many threads. Its log begins with these
/// bytes.
pub fn serve_at_new<R: Threads + Wait + Abort + Copy + Drop + Send + 'static, P: Port<R>>(
    rt: &R,
    alloc: Global,
    log: Vec<u8>,
    port: &mut P,
    threads: usize,
    connections: u64,
) -> Result<ServeEnd, NoMemory> {
    let Some(placement) = replicated(alloc) else {
        panic!(rt; "no placement")
    };
    let setup = Setup {
        placement,
        cache: 64,
        log,
        log_fails: Vec::new(alloc),
    };
    let (one, other) = (MemBackend::new(alloc), MemBackend::new(alloc));
    let Some(shared) = started(alloc, setup, one, other) else {
        panic!(rt; "the world does not start")
    };
    serve_at::<Brand, R, P>(rt, alloc, shared, Blank::new(1), port, threads, connections)
}

//! One start of a cluster: what is done at it, in threads.

ghost use Rattle.std.specs.Prelude.{◌≡◌, ◌≤◌, true, All, length, map, vec_capacity};
ghost use Rattle.cj_outside.specs.Stores.{Only};
ghost use Rattle.cj_model.specs.declared.limits.TheConstants.{BACKEND_LIMIT};
ghost use Rattle.cj_conf.specs.Confs.{IsUsable};
ghost use Rattle.cj_board.specs.Seats.{board_id, pass_board};
ghost use Rattle.cj_state.specs.Beginnings.{AreEmpty};
ghost use Rattle.cj_core.specs.Starts.{HaveBegunNone};
ghost use Rattle.cj_control.specs.Starting.{AreOfStarted};
ghost use Rattle.cj_flaky.specs.FlakyBackends.{fresh_over};
ghost use Rattle.cj_mem.specs.MemoryBackends.{fresh_state};

use crate::administrator::{administer, audit};
use crate::client::{create_tables, leave_orphan, serve_drawn, serve_planted};
use crate::configured::{Tried, parts_of};
use crate::measures::{create_rows, serve_alone, serve_measured};
use crate::worker::{Stage, Worker};
use cj_backend::Backend;
use cj_conf::Conf;
use cj_control::{Control, Naming, Pass};
use cj_core::{Backends, Shared, World};
use cj_model::NoMemory;
use cj_outside::{Draw, Store};
use cj_stress_text::{Lines, Plan, Task, Wrong};
use std::alloc::Global;
use std::marker::Brand;
use std::sync::Wait;
use std::sync::ledger::Blank;
use std::thread;
use std::thread::Threads;
use std::time::{Clock, Duration, Instant};

/// A thread waits for less than so many milliseconds between two things.
const PAUSE: u64 = 4;

/// Whether no more sessions begin.
fn is_over<R: Clock>(rt: &R, plan: Plan, began: Instant) -> bool {
    match began.elapsed(rt) {
        Ok(passed) => passed.as_secs() >= plan.seconds,
        Err(_) => true,
    }
}

/// One thing that a thread does where a cluster is tried.
fn do_one<J: Naming, B: Backend + Drop, S: Store + Drop, R: Wait + Clock>(
    rt: &R,
    stage: &Stage<'_, J, B, S>,
    plan: Plan,
    worker: &mut Worker<J>,
) -> Result<(), NoMemory> {
    worker.rounds = worker.rounds.saturating_add(1);
    if plan.wrong == Wrong::Client {
        return serve_planted(rt, stage, worker);
    }
    thread::sleep(rt, Duration::from_millis(worker.draw.below(PAUSE)));
    if worker.number == 0 {
        administer(rt, stage, worker)
    } else if worker.draw.below(8) == 0 {
        leave_orphan(rt, stage, worker)
    } else {
        serve_drawn(rt, stage, worker)
    }
}

/// What a thread does until the time is over, where a cluster is tried.
fn do_many<J: Naming, B: Backend + Drop, S: Store + Drop, R: Wait + Clock>(
    rt: &R,
    stage: &Stage<'_, J, B, S>,
    plan: Plan,
    worker: &mut Worker<J>,
) -> Result<(), NoMemory> {
    worker.lines.add("thread")?;
    worker.lines.add_number(worker.number)?;
    worker.lines.end()?;
    for _ in 0..u64::MAX {
        if is_over(rt, plan, stage.began) {
            break;
        }
        do_one(rt, stage, plan, worker)?;
    }
    Ok(())
}

/// Does all that a thread is to do. Returns what it tells.
fn do_all<J: Naming, B: Backend + Drop, S: Store + Drop, R: Wait + Clock>(
    rt: &R,
    stage: &Stage<'_, J, B, S>,
    mut worker: Worker<J>,
) -> Option<Lines> {
    match stage.task {
        Task::Stress(plan) => do_many(rt, stage, plan, &mut worker).ok()?,
        Task::Bench(measure) => serve_measured(rt, stage, measure, &mut worker)?,
    }
    Some(worker.lines)
}

/// Makes what each thread has for itself.
fn workers_of<J: Naming, B: Backend + Drop, S: Store + Drop>(
    stage: &Stage<'_, J, B, S>,
    pass: &mut Pass<J>,
) -> Option<Vec<Worker<J>>> {
    let mut workers = Vec::new(stage.alloc);
    for number in 0..=stage.task.threads() {
        let pass = stage.control.split(pass);
        let worker = Worker::new(stage.alloc, stage.task, number as u64, pass);
        workers.push(worker).ok()?;
    }
    Some(workers)
}

/// What is done before all threads: their tables are made.
fn begin<J: Naming, B: Backend + Drop, S: Store + Drop, R: Wait + Clock>(
    rt: &R,
    stage: &Stage<'_, J, B, S>,
    main: &mut Worker<J>,
) -> Option<()> {
    let Task::Stress(plan) = stage.task else {
        return create_rows(rt, stage, main);
    };
    main.lines.add("start").ok()?;
    main.lines.add_number(plan.start).ok()?;
    main.lines.end().ok()?;
    if plan.start == 0 {
        create_tables(rt, stage, main).ok()?;
    }
    Some(())
}

/// What is done after all threads, where a cluster is tried: an audit. A transaction is left open, which the next start
/// ends.
fn end<J: Naming, B: Backend + Drop, S: Store + Drop, R: Wait>(
    rt: &R,
    stage: &Stage<'_, J, B, S>,
    main: &mut Worker<J>,
) -> Result<(), NoMemory> {
    if let Task::Bench(_) = stage.task {
        return Ok(());
    }
    leave_orphan(rt, stage, main)?;
    audit(rt, stage, main, "end")
}

/// Has all threads do what they are to do. `main` is the thread that waits for them.
fn perform<
    J: Naming + Send + Sync,
    B: Backend + Drop + Send + Sync,
    S: Store + Drop + Send,
    R: Threads + Wait + Clock + Sync,
>(rt: &R, stage: &Stage<'_, J, B, S>, main: &mut Worker<J>) -> Option<()>
where
    B::Snap: Send,
{
    begin(rt, stage, main)?;
    let workers = workers_of(stage, &mut main.pass)?;
    let told = thread::map_vec(rt, workers, &|worker: Worker<J>| do_all(rt, stage, worker)).ok()?;
    for each in told {
        main.lines.add_all(each?).ok()?;
    }
    end(rt, stage, main).ok()
}

/// Shares the parts of a world, has threads do a task, and takes the cluster apart.
fn try_shared<
    J: Naming + Send + Sync,
    B: Backend + Drop + Send + Sync,
    S: Store + Drop + Send,
    R: Threads + Wait + Clock + Sync,
>(
    rt: &R,
    alloc: Global,
    shared: Shared<B, S>,
    blank: Blank,
    task: Task,
    began: Instant,
) -> Option<Lines>
where
    B::Snap: Send,
    requires world { AreOfStarted B.tells S.tells S.faults (board_id shared.board) (pass_board shared.pass) shared.book shared.recovery_log shared.cells.items shared.accounts shared.dumps }
    requires board { board_id shared.board ≡ J.board }
    requires layout { shared.book.state.layout ≡ J.layout }
    requires turn { (blank.name ≡ J.turn) × (blank.parts ≡ 1) }
    requires tells { J.tells ≡ B.tells }
    requires emptied { (length shared.emptied.items ≡ 0) × (BACKEND_LIMIT ≤ vec_capacity shared.emptied) }
{
    let (control, pass) = Control::<J, B, S>::start(alloc, shared, blank).ok()?;
    let mut main = Worker::new(alloc, task, 0, pass);
    perform(rt, &Stage::new(alloc, &control, task, began), &mut main)?;
    let _stopped = control.into_backends(&mut main.pass)?;
    Some(main.lines)
}

/// Starts a cluster over these backends and the log, does a task at it, and stops it. Returns what is told. None if it
/// does not start, or memory is wanting.
fn try_start<
    B: Backend + Drop + Send + Sync,
    S: Store + Drop + Send,
    R: Threads + Wait + Clock + Sync,
>(rt: &R, alloc: Global, task: Task, conf: Conf, log: S, backends: Backends<B>) -> Option<Lines>
where
    B::Snap: Send,
    requires usable { IsUsable conf }
    requires as_many { length backends ≡ length conf.placement.names }
    requires empty { AreEmpty B.tells (map B.told backends) }
    requires none { HaveBegunNone (map B.begun backends) }
    requires disk { S.tells ≡ true → Only (S.held log) (S.may log) }
{
    let began = Instant::now(rt).ok()?;
    let parts = parts_of(alloc, conf).ok()?;
    let Ok(world) = World::start(alloc, parts, log, backends) else {
        return None;
    };
    match task {
        Task::Bench(measure) if measure.threads == 0 => {
            serve_alone(rt, alloc, world, measure, began)
        }
        _ => {
            try_shared::<Brand, _, S, R>(rt, alloc, world.into_shared(), Blank::new(1), task, began)
        }
    }
}

/// Does so over backends that were made for it, and not called yet.
pub fn try_tried<
    C: Clock + Copy + Send + Sync,
    S: Store + Drop + Send,
    R: Threads + Wait + Clock + Sync,
>(
    rt: &R,
    alloc: Global,
    task: Task,
    conf: Conf,
    log: S,
    backends: Backends<Tried<C>>,
) -> Option<Lines>
    requires usable { IsUsable conf }
    requires as_many { length backends ≡ length conf.placement.names }
    requires fresh { All (λ b. b.inner ≡ fresh_over fresh_state b.inner.fails) backends }
    requires disk { S.tells ≡ true → Only (S.held log) (S.may log) }
{
    try_start(rt, alloc, task, conf, log, backends)
}

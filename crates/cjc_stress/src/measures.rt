//! Measures: sessions that look rows of one table up by their keys, or change them, and how long they take.

ghost use Rattle.std.specs.Prelude.{◌≡◌, ◌≤◌, ◌^◌, true, []};
ghost use Rattle.cj_cluster.specs.History.Histories.{is_free};
ghost use Rattle.cj_desk.specs.DeskStates.{desk_tx};

use crate::client::served;
use crate::worker::{Stage, Worker};
use cj_backend::Backend;
use cj_control::Naming;
use cj_core::World;
use cj_desk::Desk;
use cj_model::NoMemory;
use cj_outside::{Draw, PcgDraw, Store};
use cj_stress_text::{Kind, Lines, Measure, append_query, login, session_of};
use std::alloc::Global;
use std::sync::Wait;
use std::sync::atomic::Ordering;
use std::time::{Clock, Instant};

/// So many rows the table has.
const ROWS: u64 = 1000;

/// So many requests a session has that writes beside others.
const PIECE: u64 = 100;

/// Appends so many requests by random keys.
fn append_requests(
    alloc: Global,
    frames: &mut Vec<u8>,
    draw: &mut PcgDraw,
    kind: Kind,
    count: u64,
) -> Result<(), NoMemory> {
    for _ in 0..count {
        let k = draw.below(ROWS);
        let text = match kind {
            Kind::Writes => format!(in alloc; "UPDATE t SET v = v + 1 WHERE k = {k}")?,
            Kind::Reads | Kind::Beside => format!(in alloc; "SELECT k, v FROM t WHERE k = {k}")?,
        };
        append_query(frames, text.as_str())?;
    }
    Ok(())
}

/// The frames of a session that makes the table and its rows.
fn rows(alloc: Global) -> Result<Vec<u8>, NoMemory> {
    let mut frames = session_of(alloc, "CREATE TABLE t (k INTEGER PRIMARY KEY, v INTEGER)")?;
    let mut insert = String::from_str(alloc, "INSERT INTO t VALUES (0, 0)")?;
    for k in 1..ROWS {
        let row = format!(in alloc; ", ({k}, {k})")?;
        insert.push_str(row.as_str())?;
    }
    append_query(&mut frames, insert.as_str())?;
    Ok(frames)
}

/// Nanoseconds since a moment.
fn passed<R: Clock>(rt: &R, began: Instant) -> Option<u64> {
    u64::try_from(began.elapsed(rt).ok()?.as_nanos()).ok()
}

/// Serves a session. Tells under a word when it began and ended, and how many bytes its client was sent.
fn serve_timed<R: Clock, K: Desk<R>>(
    rt: &R,
    alloc: Global,
    began: Instant,
    desk: &mut K,
    sent: Vec<u8>,
    lines: &mut Lines,
    word: &str,
) -> Option<()>
    requires few { (K.state_of desk.old).requests ≤ 2 ^ 61 }
    requires closed { desk_tx (K.state_of desk.old) ≡ 0 }
{
    let from = passed(rt, began)?;
    let sink = served(rt, alloc, desk, sent);
    let to = passed(rt, began)?;
    lines.add(word).ok()?;
    lines.add_number(from).ok()?;
    lines.add_number(to).ok()?;
    lines.add_number(sink.content().len() as u64).ok()?;
    lines.end().ok()
}

/// Opens a session, serves it, and tells that under a word.
fn serve<J: Naming, B: Backend, S: Store + Drop, R: Wait + Clock>(
    rt: &R,
    stage: &Stage<'_, J, B, S>,
    worker: &mut Worker<J>,
    word: &str,
    sent: Vec<u8>,
) -> Option<()> {
    let Ok(mut caller) = stage.control.caller(rt, &mut worker.pass) else {
        return None;
    };
    let lines = &mut worker.lines;
    let told = serve_timed(rt, stage.alloc, stage.began, &mut caller, sent, lines, word);
    stage.control.leave(rt, caller, &mut worker.pass);
    told
}

/// Serves the session that makes the table.
pub fn create_rows<J: Naming, B: Backend, S: Store + Drop, R: Wait + Clock>(
    rt: &R,
    stage: &Stage<'_, J, B, S>,
    worker: &mut Worker<J>,
) -> Option<()> {
    serve(rt, stage, worker, "rows", rows(stage.alloc).ok()?)
}

/// Serves a session of so many requests.
fn serve_requests<J: Naming, B: Backend, S: Store + Drop, R: Wait + Clock>(
    rt: &R,
    stage: &Stage<'_, J, B, S>,
    worker: &mut Worker<J>,
    word: &str,
    kind: Kind,
    count: u64,
) -> Option<()> {
    let mut sent = login(stage.alloc).ok()?;
    append_requests(stage.alloc, &mut sent, &mut worker.draw, kind, count).ok()?;
    serve(rt, stage, worker, word, sent)
}

/// Serves sessions that write, until one that is measured has ended.
fn write_beside<J: Naming, B: Backend, S: Store + Drop, R: Wait + Clock>(
    rt: &R,
    stage: &Stage<'_, J, B, S>,
    worker: &mut Worker<J>,
) -> Option<()> {
    for _ in 0..u64::MAX {
        if stage.has_ended.load(Ordering::SeqCst) {
            break;
        }
        serve_requests(rt, stage, worker, "beside", Kind::Writes, PIECE)?;
    }
    Some(())
}

/// What a thread does that is measured, or beside those that are.
pub fn serve_measured<J: Naming, B: Backend, S: Store + Drop, R: Wait + Clock>(
    rt: &R,
    stage: &Stage<'_, J, B, S>,
    measure: Measure,
    worker: &mut Worker<J>,
) -> Option<()> {
    if worker.number > 0 {
        let Measure { kind, requests, .. } = measure;
        let told = serve_requests(rt, stage, worker, "session", kind, requests);
        stage.has_ended.store(true, Ordering::SeqCst);
        told
    } else if measure.kind == Kind::Beside {
        write_beside(rt, stage, worker)
    } else {
        Some(())
    }
}

/// The frames of a session that makes the table, and then has the requests of a measure.
fn frames_alone(alloc: Global, measure: Measure) -> Result<Vec<u8>, NoMemory> {
    let Measure { kind, requests, .. } = measure;
    let mut frames = rows(alloc)?;
    append_requests(alloc, &mut frames, &mut PcgDraw::new(1), kind, requests)?;
    Ok(frames)
}

/// Opens a session at a cluster that it has for itself, serves it, and tells it.
fn serve_at<B: Backend + Drop, S: Store + Drop, R: Clock>(
    rt: &R,
    alloc: Global,
    began: Instant,
    world: World<B, S>,
    sent: Vec<u8>,
    lines: &mut Lines,
) -> Option<()>
    requires fresh { world.core.sessions ≡ [] }
    requires idle { is_free world.core.history ≡ true }
{
    world.legal();
    match world.desk() {
        Ok(mut desk) => serve_timed(rt, alloc, began, &mut desk, sent, lines, "session"),
        Err(_) => None,
    }
}

/// Serves one session that has a cluster for itself: it makes the table, and then has its requests. Tells that session.
pub fn serve_alone<B: Backend + Drop, S: Store + Drop, R: Clock>(
    rt: &R,
    alloc: Global,
    world: World<B, S>,
    measure: Measure,
    began: Instant,
) -> Option<Lines>
    requires fresh { world.core.sessions ≡ [] }
    requires idle { is_free world.core.history ≡ true }
{
    let mut lines = Lines::new(alloc);
    let sent = frames_alone(alloc, measure).ok()?;
    serve_at(rt, alloc, began, world, sent, &mut lines)?;
    Some(lines)
}

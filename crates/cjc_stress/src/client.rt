//! Clients: sessions one after another, each served over what its client sends.

ghost use Rattle.std.specs.Prelude.{◌≡◌, ◌≤◌, ◌^◌, length, IfOk, IfSome};
ghost use Rattle.cj_model.specs.declared.limits.TheConstants.{USER_LIMIT};
ghost use Rattle.cj_model.specs.declared.request.Request.TheVariants as request;
ghost use Rattle.cj_model.specs.Sql.WrittenRequests.{IsWritten};
ghost use Rattle.cj_desk.specs.DeskStates.{desk_tx};

use crate::worker::{Stage, Worker};
use cj_backend::Backend;
use cj_control::Naming;
use cj_desk::{Desk, Written};
use cj_macro::rewrite;
use cj_model::{Act, NoMemory, Reply, Request, Text, USER_LIMIT, Write};
use cj_outside::{FixedClock, MemSink, MemSource, PcgDraw, Store};
use cj_session::serve_session;
use cj_sql::read;
use cj_stress_text::{Lines, changes, drawn_session, drawn_update, lookups, session_of, tables};
use std::alloc::Global;
use std::sync::Wait;

/// Serves a session over the bytes that its client sends, and returns what it was sent.
pub fn served<R, K: Desk<R>>(rt: &R, alloc: Global, desk: &mut K, sent: Vec<u8>) -> MemSink
    requires few { (K.state_of desk.old).requests ≤ 2 ^ 61 }
    requires closed { desk_tx (K.state_of desk.old) ≡ 0 }
{
    let mut source = MemSource::new(sent, Vec::new(alloc));
    let mut sink = MemSink::new(Vec::new(alloc), Vec::new(alloc));
    let mut draws = PcgDraw::new(0);
    let clock = FixedClock::new(0);
    serve_session(rt, alloc, desk, &mut source, &mut sink, &clock, &mut draws);
    sink
}

/// Opens a session, serves it over what its client sends, and tells both sides under a word.
fn serve<J: Naming, B: Backend, S: Store + Drop, R: Wait>(
    rt: &R,
    stage: &Stage<'_, J, B, S>,
    worker: &mut Worker<J>,
    word: &str,
    sent: Vec<u8>,
) -> Result<(), NoMemory> {
    let Ok(mut caller) = stage.control.caller(rt, &mut worker.pass) else {
        return Ok(());
    };
    worker.lines.add(word)?;
    worker.lines.add_number(Desk::<R>::session(&caller))?;
    worker.lines.add_bytes(&sent)?;
    let sink = served(rt, stage.alloc, &mut caller, sent);
    stage.control.leave(rt, caller, &mut worker.pass);
    worker.lines.add_bytes(sink.content())?;
    worker.lines.end()
}

/// Serves the session that makes the tables.
pub fn create_tables<J: Naming, B: Backend, S: Store + Drop, R: Wait>(
    rt: &R,
    stage: &Stage<'_, J, B, S>,
    worker: &mut Worker<J>,
) -> Result<(), NoMemory> {
    let sent = tables(stage.alloc)?;
    serve(rt, stage, worker, "session", sent)
}

/// Serves a session with random statements.
pub fn serve_drawn<J: Naming, B: Backend, S: Store + Drop, R: Wait>(
    rt: &R,
    stage: &Stage<'_, J, B, S>,
    worker: &mut Worker<J>,
) -> Result<(), NoMemory> {
    let sent = drawn_session(stage.alloc, &mut worker.draw)?;
    serve(rt, stage, worker, "session", sent)
}

/// Serves two reads of a client, each by a session of its own. So the second may read what is older than what the first
/// read. Their texts differ, so that the cache does not answer the second with the rows of the first.
fn serve_mixed<J: Naming, B: Backend, S: Store + Drop, R: Wait>(
    rt: &R,
    stage: &Stage<'_, J, B, S>,
    worker: &mut Worker<J>,
) -> Result<(), NoMemory> {
    let first = session_of(stage.alloc, "SELECT * FROM t2")?;
    serve(rt, stage, worker, "mixed", first)?;
    let second = session_of(stage.alloc, "SELECT k, v FROM t2")?;
    serve(rt, stage, worker, "mixed", second)
}

/// Serves what one client does where a fault is planted. The first one reads `t2` by ever new sessions. The second one
/// keeps `b1` busy, so that each entry waits for it. The others change `t2`, which `b0` does before `b1` is waited for,
/// and `b2` and `b3` do after it.
pub fn serve_planted<J: Naming, B: Backend, S: Store + Drop, R: Wait>(
    rt: &R,
    stage: &Stage<'_, J, B, S>,
    worker: &mut Worker<J>,
) -> Result<(), NoMemory> {
    let sent = match worker.number {
        1 => return serve_mixed(rt, stage, worker),
        2 => lookups(stage.alloc)?,
        _ => changes(stage.alloc)?,
    };
    serve(rt, stage, worker, "session", sent)
}

/// The user of all sessions.
fn user(alloc: Global) -> Result<Option<Text>, NoMemory>
    ensures { IfOk result (λ user. IfSome user (λ text. length text ≤ USER_LIMIT)) }
{
    match Text::of(b"ann".to_vec(alloc)?) {
        Some(user) if user.len() <= USER_LIMIT => Ok(Some(user)),
        _ => Ok(None),
    }
}

/// Reads the text of a request, which has no NOW and no RAND then. None if it is none, or memory is wanting.
fn plain(alloc: Global, text: &[u8]) -> Option<Request>
    ensures { IfSome result IsWritten }
{
    match read(alloc, text) {
        Ok(request) => Some(rewrite(request, 0, &mut PcgDraw::new(0))),
        Err(_) => None,
    }
}

/// Tells a reply that has no rows.
fn tell_reply(lines: &mut Lines, reply: &Reply) -> Result<(), NoMemory> {
    match reply {
        Reply::Done(count) => {
            lines.add(" done")?;
            lines.add_number(*count)
        }
        Reply::Refused(refusal) => {
            lines.add(" refused")?;
            lines.add_number(refusal.code as u64)?;
            lines.add_number(refusal.a)?;
            lines.add_number(refusal.b)
        }
        Reply::Rows(_) | Reply::Stats(_, _) => lines.add(" else"),
    }
}

/// Tells a write of a session that leaves a transaction open, and its reply.
fn tell_write(
    lines: &mut Lines,
    session: u64,
    statement: &str,
    written: &Written,
) -> Result<(), NoMemory> {
    lines.add("write")?;
    lines.add_number(session)?;
    lines.add_number(written.number)?;
    tell_reply(lines, &written.reply)?;
    lines.add_bytes(statement.as_bytes())?;
    lines.end()
}

/// Has a desk begin a transaction, and change a table in it. Returns what came of both. Nothing is changed if no
/// transaction has begun.
fn begin_and_change<R, K: Desk<R>>(
    rt: &R,
    desk: &mut K,
    user: &Text,
    write: Write,
) -> (Written, Option<Written>)
    requires few { (K.state_of desk.old).requests ≤ 2 ^ 61 }
    requires closed { desk_tx (K.state_of desk.old) ≡ 0 }
    requires short { length user.now ≤ USER_LIMIT }
    requires begin { IsWritten request.Begin }
    requires change { IsWritten (request.Write write) }
{
    let begun = desk.write(rt, user, 0, Act::Begin);
    if begun.number == 0 {
        return (begun, None);
    }
    let changed = desk.write(rt, user, begun.number, Act::Write(write));
    (begun, Some(changed))
}

/// Opens a session that begins a transaction, changes a table in it, and leaves. The transaction is left open, for the
/// administrator to end.
pub fn leave_orphan<J: Naming, B: Backend, S: Store + Drop, R: Wait>(
    rt: &R,
    stage: &Stage<'_, J, B, S>,
    worker: &mut Worker<J>,
) -> Result<(), NoMemory> {
    let text = drawn_update(stage.alloc, &mut worker.draw)?;
    let (Some(user), Some(Request::Begin), Some(Request::Write(write))) = (
        user(stage.alloc)?,
        plain(stage.alloc, b"BEGIN"),
        plain(stage.alloc, text.as_bytes()),
    ) else {
        return Ok(());
    };
    let Ok(mut caller) = stage.control.caller(rt, &mut worker.pass) else {
        return Ok(());
    };
    let session = Desk::<R>::session(&caller);
    let (begun, changed) = begin_and_change(rt, &mut caller, &user, write);
    stage.control.leave(rt, caller, &mut worker.pass);
    tell_write(&mut worker.lines, session, "BEGIN", &begun)?;
    if let Some(changed) = changed {
        tell_write(&mut worker.lines, session, text.as_str(), &changed)?;
    }
    stage.add_orphan(rt, begun.number)
}

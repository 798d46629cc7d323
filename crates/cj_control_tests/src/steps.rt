//! The steps of the tests: calls of a cluster, each with what it is to give.

ghost use Rattle.std.specs.Prelude.{◌≡◌, ◌≢◌, ◌<◌, []};
ghost use Rattle.cj_model.specs.declared.limits.TheConstants.{REQUEST_LIMIT};
ghost use Rattle.cj_desk.specs.DeskStates.{desk_tx};

use crate::frames::Talk;
use cj_administration::{
    AdminError, abort_orphan, checkpoint, disable, show_backends, show_cache, show_log,
};
use cj_backend::Backend;
use cj_cluster::SessionEnd;
use cj_control::{Caller, Control, Naming, Pass};
use cj_desk::Desk;
use cj_model::{Act, Name, NoMemory, Request, Text, USER_LIMIT};
use cj_outside::{FixedClock, ListDraw, MemSink, MemSource, MemStore};
use cj_session::serve_session;
use cj_sql::read;
use std::alloc::Global;
use std::process::Abort;
use std::sync::Wait;
use std::thread;
use std::thread::Threads;

/// A step of a test.
#[derive(Drop)]
pub enum Step<'a> {
    /// A session is served until its input ends.
    Session(Talk<'a>),
    /// Two sessions are served, in a thread each.
    Both(Talk<'a>, Talk<'a>),
    /// A session is served while a thread does the work of backend 1's worker.
    WithWorker(Talk<'a>),
    /// So many sessions are open at once, the first of which has this number. All are left.
    Many(u64, u64),
    /// A session begins the transaction of this number, which is no orphan before the session is left.
    LeaveOpen(u64),
    /// A backend is disabled.
    Disable(u8, Result<(), AdminError>),
    /// A checkpoint of one name is marked.
    Checkpoint(Result<u64, AdminError>),
    /// The orphan of this number is ended.
    AbortOrphan(u64, Result<u64, AdminError>),
    /// All that the enabled backends hold is asked for.
    Audit(Result<&'a [u8], AdminError>),
    /// The backends are shown.
    ShowBackends(&'a [u8]),
    /// The log is shown from the first number to the last.
    ShowLog(u64, u64, &'a [u8]),
    /// The hits and the misses of the result cache are shown.
    ShowCache(u64, u64),
}

/// Serves a session, and compares what it is sent.
fn serve<J: Naming, B: Backend, R: Wait + Abort>(
    rt: &R,
    alloc: Global,
    control: &Control<J, B, MemStore>,
    pass: &mut Pass<J>,
    talk: &Talk<'_>,
) -> Result<(), NoMemory> {
    let mut source = MemSource::new(talk.frames(alloc)?, Vec::new(alloc));
    let mut sink = MemSink::new(Vec::new(alloc), Vec::new(alloc));
    let mut draws = ListDraw::new(Vec::new(alloc));
    let Ok(mut caller) = control.caller(rt, pass) else {
        panic!(rt; "no session")
    };
    let end = serve_session(
        rt,
        alloc,
        &mut caller,
        &mut source,
        &mut sink,
        &FixedClock::new(0),
        &mut draws,
    );
    control.leave(rt, caller, pass);
    assert!(rt; end == SessionEnd::Eof);
    assert!(rt; sink.content() == talk.wanted(alloc)?.as_slice());
    Ok(())
}

/// Serves two sessions, in a thread each.
fn serve_both<J: Naming + Send + Sync, B: Backend + Drop + Send, R: Threads + Wait + Abort + Sync>(
    rt: &R,
    alloc: Global,
    control: &Control<J, B, MemStore>,
    pass: &mut Pass<J>,
    one: &Talk<'_>,
    two: &Talk<'_>,
) -> Result<(), NoMemory>
where
    B::Snap: Send,
{
    let mut other = control.split(pass);
    let (first, second) = thread::join(
        rt,
        || serve(rt, alloc, control, &mut other, one),
        || serve(rt, alloc, control, pass, two),
    );
    control.rejoin(pass, other);
    first?;
    second
}

/// Serves a session while a thread does the work of backend 1's worker.
fn serve_with_worker<
    J: Naming + Send + Sync,
    B: Backend + Drop + Send,
    R: Threads + Wait + Abort + Sync,
>(
    rt: &R,
    alloc: Global,
    control: &Control<J, B, MemStore>,
    pass: &mut Pass<J>,
    talk: &Talk<'_>,
) -> Result<(), NoMemory>
where
    B::Snap: Send,
{
    assert!(rt; 1 < control.placement().count());
    control.man(1, true);
    let (served, ()) = thread::join(
        rt,
        || {
            let served = serve(rt, alloc, control, pass, talk);
            control.stop_workers();
            served
        },
        || control.work(rt, 1),
    );
    served
}

/// Opens so many sessions, whose numbers go up from the first.
fn open_many<'a, J: Naming, B: Backend, R: Wait + Abort>(
    rt: &R,
    alloc: Global,
    control: &'a Control<J, B, MemStore>,
    pass: &mut Pass<J>,
    count: u64,
    first: u64,
) -> Result<Vec<Caller<'a, J, B, MemStore>>, NoMemory> {
    let mut callers = Vec::new(alloc);
    for k in 0..count {
        let Ok(caller) = control.caller(rt, pass) else {
            panic!(rt; "no session")
        };
        assert!(rt; Desk::<R>::session(&caller) == first.wrapping_add(k));
        callers.push(caller)?;
    }
    Ok(callers)
}

/// Leaves all these sessions.
fn leave_all<J: Naming, B: Backend, R: Wait>(
    rt: &R,
    control: &Control<J, B, MemStore>,
    pass: &mut Pass<J>,
    callers: Vec<Caller<'_, J, B, MemStore>>,
) {
    for caller in callers {
        control.leave(rt, caller, pass);
    }
}

/// Has a desk begin a transaction, and returns its number.
fn begun<R: Abort, K: Desk<R>>(rt: &R, alloc: Global, desk: &mut K) -> Result<u64, NoMemory>
    requires room { (K.state_of desk.old).requests < REQUEST_LIMIT }
    requires closed { desk_tx (K.state_of desk.old) ≡ 0 }
{
    let Some(user) = Text::of(b"ann".to_vec(alloc)?) else {
        panic!(rt; "no text")
    };
    assert!(rt; user.len() <= USER_LIMIT);
    let Ok(Request::Begin) = read(alloc, b"BEGIN") else {
        panic!(rt; "other than BEGIN")
    };
    Ok(desk.write(rt, &user, 0, Act::Begin).number)
}

/// Leaves a session that has begun a transaction.
fn leave_open<J: Naming, B: Backend, R: Wait + Abort>(
    rt: &R,
    alloc: Global,
    control: &Control<J, B, MemStore>,
    pass: &mut Pass<J>,
    tx: u64,
) -> Result<(), NoMemory> {
    let Ok(mut caller) = control.caller(rt, pass) else {
        panic!(rt; "no session")
    };
    assert!(rt; begun(rt, alloc, &mut caller)? == tx);
    assert!(rt; abort_orphan(control, rt, pass, tx) == Err(AdminError::NotOrphan(tx)));
    control.leave(rt, caller, pass);
    Ok(())
}

/// The name of the checkpoint.
fn name(rt: &impl Abort) -> Name
    ensures { result ≢ [] }
{
    let Some(name) = Name::of(b"c") else {
        panic!(rt; "no name")
    };
    assert!(rt; !name.as_slice().is_empty());
    name
}

/// Asks for all that the enabled backends hold, and compares it.
fn audit<J: Naming, B: Backend, R: Wait + Abort>(
    rt: &R,
    control: &Control<J, B, MemStore>,
    pass: &mut Pass<J>,
    wanted: &Result<&[u8], AdminError>,
) {
    match (cj_administration::audit(control, rt, pass), wanted) {
        (Ok(text), Ok(lines)) => assert!(rt; text.as_slice() == *lines),
        (Err(error), Err(other)) => assert!(rt; error == *other),
        _ => panic!(rt; "another audit"),
    }
}

/// Takes a step, and compares what it gives.
pub fn take<J: Naming + Send + Sync, B: Backend + Drop + Send, R: Threads + Wait + Abort + Sync>(
    rt: &R,
    alloc: Global,
    control: &Control<J, B, MemStore>,
    pass: &mut Pass<J>,
    step: &Step<'_>,
) -> Result<(), NoMemory>
where
    B::Snap: Send,
{
    match step {
        Step::Session(talk) => serve(rt, alloc, control, pass, talk)?,
        Step::Both(one, two) => serve_both(rt, alloc, control, pass, one, two)?,
        Step::WithWorker(talk) => serve_with_worker(rt, alloc, control, pass, talk)?,
        Step::Many(count, first) => {
            let callers = open_many(rt, alloc, control, pass, *count, *first)?;
            leave_all(rt, control, pass, callers);
        }
        Step::LeaveOpen(tx) => leave_open(rt, alloc, control, pass, *tx)?,
        Step::Disable(b, wanted) => {
            assert!(rt; *b < control.placement().count());
            assert!(rt; disable(control, rt, pass, *b) == *wanted);
        }
        Step::Checkpoint(wanted) => {
            assert!(rt; checkpoint(control, rt, pass, &name(rt)) == *wanted);
        }
        Step::AbortOrphan(tx, wanted) => {
            assert!(rt; abort_orphan(control, rt, pass, *tx) == *wanted);
        }
        Step::Audit(wanted) => audit(rt, control, pass, wanted),
        Step::ShowBackends(lines) => {
            assert!(rt; show_backends(control, rt, pass)?.as_slice() == *lines);
        }
        Step::ShowLog(first, last, lines) => {
            assert!(rt; show_log(control, rt, pass, *first, *last)?.as_slice() == *lines);
        }
        Step::ShowCache(hits, misses) => {
            assert!(rt; show_cache(control, rt) == (*hits, *misses));
        }
    }
    Ok(())
}

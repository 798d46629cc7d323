//! The steps of the tests: what one session asks for, and what an administrator does, each with what it is to give.

ghost use Rattle.std.specs.Prelude.{◌≡◌, ◌≢◌, ◌+◌, ◌<◌, ◌≤◌, [], length, All, IfOk, OnOk};
ghost use mathlib.Core.List.{IsPrefix};
ghost use Rattle.cj_model.specs.declared.limits.TheConstants.{REQUEST_LIMIT};
ghost use Rattle.cj_board.specs.Seats.{front};
ghost use Rattle.cj_desk.specs.DeskStates.{desk_tx};
ghost use Rattle.cj_return_path.specs.Restoring.{IsRightDump};

use crate::gates::Flags;
use cj_administration::checkpoint;
use cj_backend::Backend;
use cj_backup::{BackupError, backup};
use cj_control::{Control, Naming, Pass};
use cj_desk::Desk;
use cj_model::{Name, NoMemory};
use cj_outside::MemStore;
use cj_replay::{ReplayError, reenable};
use cj_shelf::Shelf;
use cj_test_setup::request;
use std::alloc::Global;
use std::fmt::Display;
use std::process::Abort;
use std::sync::Wait;
use std::thread;
use std::thread::Threads;

/// A step of a test. What is to be given is a position, or the text of an error.
#[derive(Drop)]
pub enum Step<'a> {
    /// The session makes this request, and it is done.
    Ask(&'a str),
    /// A backend is disabled.
    Disable(u8),
    /// A checkpoint of this name is marked.
    Checkpoint(&'a str),
    /// A backend is backed up under this name.
    Backup(u8, &'a str, Result<u64, &'a str>),
    /// A backend comes back with no dump.
    Reenable(u8, Result<u64, &'a str>),
    /// A backend comes back by the dump of this name.
    ReenableBy(u8, &'a str, Result<u64, &'a str>),
    /// A backend comes back at this position while another session makes this request. By these flags they wait for
    /// each other.
    ReenableBeside(u8, &'a Flags, &'a str, u64),
    /// All that the enabled backends hold is asked for.
    Audit(&'a [u8]),
}

/// Compares what a step gave.
fn compare<E: Display + Drop>(
    rt: &impl Abort,
    alloc: Global,
    given: Result<u64, E>,
    wanted: &Result<u64, &str>,
) -> Result<(), NoMemory> {
    match (given, wanted) {
        (Ok(position), Ok(other)) => assert!(rt; position == *other),
        (Err(error), Err(text)) => assert!(rt; format!(in alloc; "{error}")?.as_str() == *text),
        _ => panic!(rt; "the other of a position and an error"),
    }
    Ok(())
}

/// The name of this text.
fn name(rt: &impl Abort, text: &str) -> Name
    ensures { result ≢ [] }
{
    let Some(name) = Name::of(text.as_bytes()) else {
        panic!(rt; "no name")
    };
    assert!(rt; !name.as_slice().is_empty());
    name
}

/// Checks that the cluster has this backend.
fn check_backend<J: Naming, B: Backend + Drop>(
    rt: &impl Abort,
    control: &Control<J, B, MemStore>,
    b: u8,
)
    ensures { b < length J.layout.names }
{
    assert!(rt; b < control.placement().count());
}

/// Disables a backend, which is enabled.
fn disable<J: Naming, B: Backend + Drop, R: Wait + Abort>(
    rt: &R,
    control: &Control<J, B, MemStore>,
    pass: &mut Pass<J>,
    b: u8,
)
    ensures { IsPrefix (front pass.old.seat) (front pass.new.seat) }
{
    check_backend(rt, control, b);
    assert!(rt; cj_administration::disable(control, rt, pass, b) == Ok(()));
}

/// Marks a checkpoint of this name, which no marker has.
fn mark<J: Naming, B: Backend + Drop, R: Wait + Abort>(
    rt: &R,
    control: &Control<J, B, MemStore>,
    pass: &mut Pass<J>,
    text: &str,
)
    ensures { IsPrefix (front pass.old.seat) (front pass.new.seat) }
{
    let marked = checkpoint(control, rt, pass, &name(rt, text));
    assert!(rt; marked.is_ok());
}

/// Asks for all that the enabled backends hold, and compares it.
fn audit<J: Naming, B: Backend + Drop, R: Wait + Abort>(
    rt: &R,
    control: &Control<J, B, MemStore>,
    pass: &mut Pass<J>,
    lines: &[u8],
)
    ensures { IsPrefix (front pass.old.seat) (front pass.new.seat) }
{
    let Ok(text) = cj_administration::audit(control, rt, pass) else {
        panic!(rt; "no audit")
    };
    assert!(rt; text.as_slice() == lines);
}

/// Backs a backend up. Each dump of the shelf may be loaded then, as before.
fn back_up<J: Naming, B: Backend + Drop, R: Wait + Abort>(
    rt: &R,
    control: &Control<J, B, MemStore>,
    pass: &mut Pass<J>,
    shelf: &mut Shelf<MemStore>,
    b: u8,
    text: &str,
) -> Result<u64, BackupError>
    requires right { All (IsRightDump B.tells (front pass.old.seat)) shelf.old.dumps }
    ensures right { All (IsRightDump B.tells (front pass.new.seat)) shelf.new.dumps }
{
    check_backend(rt, control, b);
    let name = name(rt, text);
    backup(rt, control, pass, b, &name, shelf)
}

/// Has a backend come back with no dump.
fn come_back<J: Naming, B: Backend + Drop, R: Wait + Abort>(
    rt: &R,
    control: &Control<J, B, MemStore>,
    pass: &mut Pass<J>,
    b: u8,
) -> Result<u64, ReplayError>
    ensures { IsPrefix (front pass.old.seat) (front pass.new.seat) }
{
    check_backend(rt, control, b);
    reenable(rt, control, pass, b, None)
}

/// Has a backend come back by a dump of the shelf.
fn come_back_by<J: Naming, B: Backend + Drop, R: Wait + Abort>(
    rt: &R,
    control: &Control<J, B, MemStore>,
    pass: &mut Pass<J>,
    shelf: &mut Shelf<MemStore>,
    b: u8,
    text: &str,
) -> Result<u64, ReplayError>
    requires right { All (IsRightDump B.tells (front pass.old.seat)) shelf.old.dumps }
    ensures right { All (IsRightDump B.tells (front pass.new.seat)) shelf.new.dumps }
{
    check_backend(rt, control, b);
    let found = shelf.find(&name(rt, text));
    let Ok(Some(dump)) = found else {
        panic!(rt; "no dump")
    };
    reenable(rt, control, pass, b, Some(dump))
}

/// Has a new session make a request once a backend's first write came, and tells that it was answered. Returns whether
/// it was done.
fn ask_meanwhile<J: Naming, B: Backend + Drop, R: Wait + Abort>(
    rt: &R,
    alloc: Global,
    control: &Control<J, B, MemStore>,
    pass: &mut Pass<J>,
    flags: &Flags,
    text: &str,
) -> bool {
    let Ok(mut caller) = control.caller(rt, pass) else {
        panic!(rt; "no session")
    };
    flags.wait_for_write();
    let done = request(rt, alloc, &mut caller, 0, text).is_some();
    flags.answer();
    done
}

/// Has a backend come back in one thread, while a new session makes a request in another.
fn come_back_beside<
    J: Naming + Send + Sync,
    B: Backend + Drop + Send,
    R: Threads + Wait + Abort + Sync,
>(
    rt: &R,
    alloc: Global,
    control: &Control<J, B, MemStore>,
    pass: &mut Pass<J>,
    b: u8,
    flags: &Flags,
    text: &str,
) -> Option<u64>
where
    B::Snap: Send,
    ensures { IsPrefix (front pass.old.seat) (front pass.new.seat) }
{
    let mut one = control.split(pass);
    let mut other = control.split(pass);
    let (back, asked) = thread::join(
        rt,
        || come_back(rt, control, &mut one, b).ok(),
        || ask_meanwhile(rt, alloc, control, &mut other, flags, text),
    );
    control.rejoin(pass, one);
    control.rejoin(pass, other);
    assert!(rt; asked);
    back
}

/// Takes a step at the cluster and the shelf, and compares what it gives.
fn administer<J: Naming + Send + Sync, B: Backend + Drop + Send, R: Threads + Wait + Abort + Sync>(
    rt: &R,
    alloc: Global,
    control: &Control<J, B, MemStore>,
    pass: &mut Pass<J>,
    shelf: &mut Shelf<MemStore>,
    step: &Step<'_>,
) -> Result<(), NoMemory>
where
    B::Snap: Send,
    requires right { All (IsRightDump B.tells (front pass.old.seat)) shelf.old.dumps }
    ensures right { All (IsRightDump B.tells (front pass.new.seat)) shelf.new.dumps }
{
    match step {
        Step::Ask(_) => Ok(()),
        Step::Disable(b) => {
            disable(rt, control, pass, *b);
            Ok(())
        }
        Step::Checkpoint(text) => {
            mark(rt, control, pass, text);
            Ok(())
        }
        Step::Audit(lines) => {
            audit(rt, control, pass, lines);
            Ok(())
        }
        Step::Backup(b, text, wanted) => {
            let backed = back_up(rt, control, pass, shelf, *b, text);
            compare(rt, alloc, backed, wanted)
        }
        Step::Reenable(b, wanted) => {
            let back = come_back(rt, control, pass, *b);
            compare(rt, alloc, back, wanted)
        }
        Step::ReenableBy(b, text, wanted) => {
            let back = come_back_by(rt, control, pass, shelf, *b, text);
            compare(rt, alloc, back, wanted)
        }
        Step::ReenableBeside(b, flags, text, position) => {
            let back = come_back_beside(rt, alloc, control, pass, *b, flags, text);
            assert!(rt; back == Some(*position));
            Ok(())
        }
    }
}

/// Takes a step, and returns the transaction that the session has then.
fn take<
    J: Naming + Send + Sync,
    B: Backend + Drop + Send,
    K: Desk<R>,
    R: Threads + Wait + Abort + Sync,
>(
    rt: &R,
    alloc: Global,
    control: &Control<J, B, MemStore>,
    pass: &mut Pass<J>,
    desk: &mut K,
    shelf: &mut Shelf<MemStore>,
    tx: u64,
    step: &Step<'_>,
) -> Result<u64, NoMemory>
where
    B::Snap: Send,
    requires right { All (IsRightDump B.tells (front pass.old.seat)) shelf.old.dumps }
    requires room { (K.state_of desk.old).requests < REQUEST_LIMIT }
    requires transaction { tx ≡ desk_tx (K.state_of desk.old) }
    ensures right { All (IsRightDump B.tells (front pass.new.seat)) shelf.new.dumps }
    ensures transaction { IfOk result (λ later. later ≡ desk_tx (K.state_of desk.new)) }
    ensures counted { OnOk result ((K.state_of desk.new).requests ≤ (K.state_of desk.old).requests + 1) }
{
    if let Step::Ask(text) = step {
        let Some(later) = request(rt, alloc, desk, tx, text) else {
            panic!(rt; "{text}")
        };
        return Ok(later);
    }
    administer(rt, alloc, control, pass, shelf, step)?;
    Ok(tx)
}

/// Takes the steps, each after the one before. A new session makes the requests. Each dump of the shelf may be loaded.
pub fn take_all<
    J: Naming + Send + Sync,
    B: Backend + Drop + Send,
    K: Desk<R>,
    R: Threads + Wait + Abort + Sync,
>(
    rt: &R,
    alloc: Global,
    control: &Control<J, B, MemStore>,
    pass: &mut Pass<J>,
    desk: &mut K,
    shelf: &mut Shelf<MemStore>,
    steps: &[Step<'_>],
) -> Result<(), NoMemory>
where
    B::Snap: Send,
    requires right { All (IsRightDump B.tells (front pass.old.seat)) shelf.old.dumps }
    requires unused { (K.state_of desk.old).requests ≡ 0 }
    requires closed { desk_tx (K.state_of desk.old) ≡ 0 }
{
    assert!(rt; steps.len() < 100);
    let mut tx = 0;
    for step in steps {
        tx = take(rt, alloc, control, pass, desk, shelf, tx, step)?;
    }
    Ok(())
}

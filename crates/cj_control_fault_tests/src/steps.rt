//! The steps of the tests: calls of a cluster, each with what it is to give.

ghost use Rattle.std.specs.Prelude.{◌≢◌, []};

use cj_administration::{AdminError, audit, checkpoint, disable, show_backends};
use cj_backend::Backend;
use cj_cluster::SessionEnd;
use cj_control::{Control, Naming, Pass};
use cj_model::{Name, NoMemory};
use cj_outside::{FixedClock, ListDraw, MemSink, MemSource, MemStore};
use cj_session::serve_session;
use std::alloc::Global;
use std::process::Abort;
use std::sync::Wait;

/// The Login of `ann`.
const LOGIN: &[u8] = b"\x00\x00\x00\x0e\x01\x00\x03ann\x00\x06secret";

/// The reply that no row was changed, and the reply to Login.
pub const DONE_0: &[u8] = b"\x00\x00\x00\x09\x81\x00\x00\x00\x00\x00\x00\x00\x00";

/// A step of a test.
#[derive(Drop)]
pub enum Step<'a> {
    /// A session is served: each text that it sends in a Query after its Login, and the reply.
    Session(&'a [(&'a str, &'a [u8])]),
    /// A backend is disabled.
    Disable(u8, Result<(), AdminError>),
    /// A checkpoint of one name is marked.
    Checkpoint(Result<u64, AdminError>),
    /// All that the enabled backends hold is asked for.
    Audit(&'a [u8]),
    /// The backends are shown.
    ShowBackends(&'a [u8]),
}

/// The frames that a session sends, and those that it is to be sent.
fn frames_of(alloc: Global, talk: &[(&str, &[u8])]) -> Result<(Vec<u8>, Vec<u8>), NoMemory> {
    let mut sent = LOGIN.to_vec(alloc)?;
    let mut wanted = DONE_0.to_vec(alloc)?;
    for (text, reply) in talk {
        let size = u32::try_from(text.len()).unwrap_or(0).wrapping_add(1);
        sent.extend_from_slice(&size.to_be_bytes())?;
        sent.push(2)?;
        sent.extend_from_slice(text.as_bytes())?;
        wanted.extend_from_slice(reply)?;
    }
    Ok((sent, wanted))
}

/// Serves a session, and compares what it is sent.
fn serve<J: Naming, B: Backend, R: Wait + Abort>(
    rt: &R,
    alloc: Global,
    control: &Control<J, B, MemStore>,
    pass: &mut Pass<J>,
    talk: &[(&str, &[u8])],
) -> Result<(), NoMemory> {
    let (sent, wanted) = frames_of(alloc, talk)?;
    let mut source = MemSource::new(sent, Vec::new(alloc));
    let mut sink = MemSink::new(Vec::new(alloc), Vec::new(alloc));
    let mut draws = ListDraw::new(Vec::new(alloc));
    let Ok(mut caller) = control.caller(rt, pass) else {
        panic!(rt; "no session")
    };
    let end = serve_session(
        rt,
        alloc,
        &mut caller,
        &mut source,
        &mut sink,
        &FixedClock::new(0),
        &mut draws,
    );
    control.leave(rt, caller, pass);
    assert!(rt; end == SessionEnd::Eof);
    assert!(rt; sink.content() == wanted.as_slice());
    Ok(())
}

/// The name of the checkpoint.
fn name(rt: &impl Abort) -> Name
    ensures { result ≢ [] }
{
    let Some(name) = Name::of(b"c") else {
        panic!(rt; "no name")
    };
    assert!(rt; !name.as_slice().is_empty());
    name
}

/// Takes a step, and compares what it gives.
pub fn take<J: Naming, B: Backend + Drop, R: Wait + Abort>(
    rt: &R,
    alloc: Global,
    control: &Control<J, B, MemStore>,
    pass: &mut Pass<J>,
    step: &Step<'_>,
) -> Result<(), NoMemory> {
    match step {
        Step::Session(talk) => serve(rt, alloc, control, pass, talk)?,
        Step::Disable(b, wanted) => {
            assert!(rt; *b < control.placement().count());
            assert!(rt; disable(control, rt, pass, *b) == *wanted);
        }
        Step::Checkpoint(wanted) => {
            assert!(rt; checkpoint(control, rt, pass, &name(rt)) == *wanted);
        }
        Step::Audit(lines) => match audit(control, rt, pass) {
            Ok(text) => assert!(rt; text.as_slice() == *lines),
            Err(_) => panic!(rt; "no audit"),
        },
        Step::ShowBackends(lines) => {
            assert!(rt; show_backends(control, rt, pass)?.as_slice() == *lines);
        }
    }
    Ok(())
}

//! Backends and a log that fail again and again, and many sessions. The turn is given back each time.

ghost use Rattle.std.specs.Prelude.{◌≡◌, IfOk};
ghost use Rattle.cj_flaky.specs.FlakyBackends.{fresh_over};
ghost use Rattle.cj_mem.specs.MemoryBackends.{fresh_state};

use crate::clusters::play;
use crate::frames::Sent::Query;
use crate::frames::{DONE_0, DONE_1, Talk};
use crate::steps::Step;
use cj_administration::AdminError;
use cj_flaky::Flaky;
use cj_mem::MemBackend;
use cj_model::ListOf;
use std::alloc::Global;
use std::test::Fail;

/// A refusal, since no backend is enabled.
const NO_BACKEND: &[u8] = b"\x00\x00\x00\x13\x8f\x00\x14\
\x00\x00\x00\x00\x00\x00\x00\x00\x00\x00\x00\x00\x00\x00\x00\x00";

/// A refusal, since the table isn't there.
const NO_TABLE: &[u8] = b"\x00\x00\x00\x13\x8f\x00\x15\
\x00\x00\x00\x00\x00\x00\x00\x00\x00\x00\x00\x00\x00\x00\x00\x00";

/// A refusal, since the log's store failed.
const LOG_FAULT: &[u8] = b"\x00\x00\x00\x13\x8f\x00\x2a\
\x00\x00\x00\x00\x00\x00\x00\x00\x00\x00\x00\x00\x00\x00\x00\x00";

/// A refusal, since both backends failed in a write.
const BOTH_FAILED: &[u8] = b"\x00\x00\x00\x13\x8f\x00\x28\
\x00\x00\x00\x00\x00\x00\x00\x03\x00\x00\x00\x00\x00\x00\x00\x00";

/// A refusal, since both backends failed in a read.
const BOTH_FAILED_READING: &[u8] = b"\x00\x00\x00\x13\x8f\x00\x29\
\x00\x00\x00\x00\x00\x00\x00\x03\x00\x00\x00\x00\x00\x00\x00\x00";

const CREATE: &str = "CREATE TABLE t (k INTEGER PRIMARY KEY)";

/// A backend that fails at each call but the first two.
fn failing(alloc: Global) -> Result<Flaky<MemBackend>, Fail>
    ensures { IfOk result (λ backend. backend ≡ fresh_over fresh_state backend.fails) }
{
    let fails = Vec::from_array(alloc, [3, 4, 5, 6, 7, 8, 9, 10])?;
    Ok(Flaky::new(MemBackend::new(alloc), ListOf::from_vec(fails)))
}

#[test]
fn backends_that_fail_in_a_write_are_out(rt: HostRuntime) -> Result<(), Fail> {
    let alloc = rt.alloc();
    let (one, other) = (failing(alloc)?, failing(alloc)?);
    let talk = Talk {
        sent: &[
            Query(CREATE),
            Query("INSERT INTO t VALUES (1)"),
            Query("SELECT k FROM t"),
            Query("SELECT k FROM t"),
            Query("INSERT INTO t VALUES (2)"),
            Query("SELECT k FROM t"),
            Query("INSERT INTO t VALUES (3)"),
            Query("BEGIN"),
        ],
        replies: &[
            DONE_0,
            DONE_1,
            BOTH_FAILED_READING,
            BOTH_FAILED_READING,
            BOTH_FAILED,
            NO_BACKEND,
            NO_BACKEND,
            NO_BACKEND,
        ],
    };
    let shown = b"b0 out position=- asks=0 begun=0 faults=3 login=l0\n\
b1 out position=- asks=0 begun=0 faults=3 login=l1\n";
    let steps = [
        Step::Session(talk),
        Step::ShowBackends(shown),
        Step::Disable(0, Err(AdminError::NotEnabled)),
        Step::Checkpoint(Ok(3)),
        Step::Audit(Ok(b"")),
    ];
    let _backends = play(&rt, alloc, one, other, Vec::new(alloc), &steps)?;
    Ok(())
}

#[test]
fn nothing_is_scheduled_while_the_log_fails(rt: HostRuntime) -> Result<(), Fail> {
    let alloc = rt.alloc();
    let (one, other) = (MemBackend::new(alloc), MemBackend::new(alloc));
    let refused = Talk {
        sent: &[Query(CREATE), Query("BEGIN"), Query("SELECT k FROM t")],
        replies: &[LOG_FAULT, LOG_FAULT, NO_TABLE],
    };
    let done = Talk {
        sent: &[Query(CREATE), Query(CREATE)],
        replies: &[LOG_FAULT, DONE_0],
    };
    let steps = [
        Step::Session(refused),
        Step::Checkpoint(Err(AdminError::LogFault)),
        Step::Session(done),
        Step::Checkpoint(Ok(1)),
    ];
    // The start takes three calls of the store, and an append stops at the first that fails.
    let fails = Vec::from_array(alloc, [4, 5, 6, 7])?;
    let _backends = play(&rt, alloc, one, other, fails, &steps)?;
    Ok(())
}

#[test]
fn more_than_a_thousand_sessions_are_open_at_once(rt: HostRuntime) -> Result<(), Fail> {
    let alloc = rt.alloc();
    let (one, other) = (MemBackend::new(alloc), MemBackend::new(alloc));
    let talk = Talk {
        sent: &[Query(CREATE)],
        replies: &[DONE_0],
    };
    let steps = [
        Step::Many(1025, 1),
        Step::Session(talk),
        Step::Many(1, 1027),
    ];
    let _backends = play(&rt, alloc, one, other, Vec::new(alloc), &steps)?;
    Ok(())
}

//! Backends that fail from their first calls on, and logs that fail. The turn is given back each time.

ghost use Rattle.std.specs.Prelude.{◌≡◌, IfOk};
ghost use Rattle.cj_flaky.specs.FlakyBackends.{fresh_over};
ghost use Rattle.cj_mem.specs.MemoryBackends.{fresh_state};

use crate::clusters::play;
use crate::steps::{DONE_0, Step};
use cj_administration::AdminError;
use cj_flaky::Flaky;
use cj_mem::MemBackend;
use cj_model::ListOf;
use std::alloc::Global;
use std::test::Fail;

/// The reply that one row was changed.
const DONE_1: &[u8] = b"\x00\x00\x00\x09\x81\x00\x00\x00\x00\x00\x00\x00\x01";

/// No row of column k.
const NO_K: &[u8] = b"\x00\x00\x00\x0a\x82\x00\x01\x00\x01k\x00\x00\x00\x00";

/// 1 in column k.
const K_1: &[u8] = b"\x00\x00\x00\x13\x82\x00\x01\x00\x01k\x00\x00\x00\x01\
\x01\x00\x00\x00\x00\x00\x00\x00\x01";

/// A refusal, since no backend is enabled.
const NO_BACKEND: &[u8] = b"\x00\x00\x00\x13\x8f\x00\x14\
\x00\x00\x00\x00\x00\x00\x00\x00\x00\x00\x00\x00\x00\x00\x00\x00";

/// A refusal, since the table isn't there.
const NO_TABLE: &[u8] = b"\x00\x00\x00\x13\x8f\x00\x15\
\x00\x00\x00\x00\x00\x00\x00\x00\x00\x00\x00\x00\x00\x00\x00\x00";

/// A refusal, since the log's store failed.
const LOG_FAULT: &[u8] = b"\x00\x00\x00\x13\x8f\x00\x2a\
\x00\x00\x00\x00\x00\x00\x00\x00\x00\x00\x00\x00\x00\x00\x00\x00";

/// A refusal, since both backends failed in a write.
const BOTH_FAILED: &[u8] = b"\x00\x00\x00\x13\x8f\x00\x28\
\x00\x00\x00\x00\x00\x00\x00\x03\x00\x00\x00\x00\x00\x00\x00\x00";

/// A refusal, since both backends failed in a read.
const BOTH_FAILED_READING: &[u8] = b"\x00\x00\x00\x13\x8f\x00\x29\
\x00\x00\x00\x00\x00\x00\x00\x03\x00\x00\x00\x00\x00\x00\x00\x00";

const CREATE: &str = "CREATE TABLE t (k INTEGER PRIMARY KEY)";

const INSERT: &str = "INSERT INTO t VALUES (1)";

const SELECT: &str = "SELECT k FROM t";

/// A backend that fails at its first calls, so many of them.
fn failing(alloc: Global, calls: u64) -> Result<Flaky<MemBackend>, Fail>
    ensures { IfOk result (λ backend. backend ≡ fresh_over fresh_state backend.fails) }
{
    let mut fails = ListOf::new(alloc);
    for call in 0..calls {
        fails.push(call.wrapping_add(1))?;
    }
    Ok(Flaky::new(MemBackend::new(alloc), fails))
}

#[test]
fn a_backend_that_fails_in_its_first_write_is_out(rt: HostRuntime) -> Result<(), Fail> {
    let alloc = rt.alloc();
    let (one, other) = (failing(alloc, 9)?, failing(alloc, 0)?);
    let talk = [(CREATE, DONE_0), (INSERT, DONE_1), (SELECT, K_1)];
    let shown = b"b0 out position=- asks=0 begun=0 faults=1 login=-\n\
b1 enabled position=2 asks=1 begun=0 faults=0 login=l1\n";
    let steps = [
        Step::Session(&talk),
        Step::ShowBackends(shown),
        Step::Disable(0, Err(AdminError::NotEnabled)),
        Step::Audit(b"b1 t base 1\n1\n"),
    ];
    play(&rt, alloc, one, other, Vec::new(alloc), &steps)?;
    Ok(())
}

#[test]
fn backends_that_fail_from_their_first_read_are_asked_again(rt: HostRuntime) -> Result<(), Fail> {
    let alloc = rt.alloc();
    let (one, other) = (failing(alloc, 9)?, failing(alloc, 9)?);
    // A read's failure takes no backend out of service, and BEGIN calls none.
    let talk = [
        (SELECT, BOTH_FAILED_READING),
        (SELECT, BOTH_FAILED_READING),
        ("BEGIN", DONE_0),
        (INSERT, BOTH_FAILED),
        (SELECT, NO_BACKEND),
        ("COMMIT", NO_BACKEND),
    ];
    let shown = b"b0 out position=- asks=0 begun=0 faults=3 login=-\n\
b1 out position=- asks=0 begun=0 faults=3 login=-\n";
    let steps = [
        Step::Session(&talk),
        Step::ShowBackends(shown),
        // The session's end has rolled the transaction back, which needs no backend.
        Step::Checkpoint(Ok(3)),
        Step::Audit(b""),
    ];
    play(&rt, alloc, one, other, Vec::new(alloc), &steps)?;
    Ok(())
}

/// The numbers from one on, up to another.
fn numbers(alloc: Global, from: u64, to: u64) -> Result<Vec<u64>, Fail> {
    let mut numbers = Vec::new(alloc);
    for number in from..to {
        numbers.push(number)?;
    }
    Ok(numbers)
}

#[test]
fn reads_are_served_while_a_log_fails_at_each_call(rt: HostRuntime) -> Result<(), Fail> {
    let alloc = rt.alloc();
    let (one, other) = (MemBackend::new(alloc), MemBackend::new(alloc));
    let talk = [
        (CREATE, LOG_FAULT),
        (SELECT, NO_TABLE),
        ("BEGIN", LOG_FAULT),
        (INSERT, LOG_FAULT),
        (SELECT, NO_TABLE),
    ];
    let steps = [
        Step::Session(&talk),
        Step::Checkpoint(Err(AdminError::LogFault)),
        Step::Audit(b""),
        Step::Disable(1, Ok(())),
        Step::Session(&talk),
        Step::Disable(0, Ok(())),
        Step::Session(&[(CREATE, NO_BACKEND), (SELECT, NO_BACKEND)]),
    ];
    // The start takes three calls of the store.
    let fails = numbers(alloc, 4, 40)?;
    play(&rt, alloc, one, other, fails, &steps)?;
    Ok(())
}

#[test]
fn each_call_of_an_append_may_fail(rt: HostRuntime) -> Result<(), Fail> {
    let alloc = rt.alloc();
    // The start takes three calls of the store, and an append takes four.
    for call in 4..8 {
        let (one, other) = (MemBackend::new(alloc), MemBackend::new(alloc));
        let talk = [(CREATE, LOG_FAULT), (CREATE, DONE_0), (SELECT, NO_K)];
        let steps = [
            Step::Session(&talk),
            Step::Checkpoint(Ok(1)),
            Step::Audit(b"b0 t base 0\nb1 t base 0\n"),
        ];
        let fails = numbers(alloc, call, call + 1)?;
        play(&rt, alloc, one, other, fails, &steps)?;
    }
    Ok(())
}

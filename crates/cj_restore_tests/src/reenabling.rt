//! A backend that comes back: with no dump, by one, and while a session goes on.

use crate::clusters::play;
use crate::gates::{Flags, backend};
use crate::steps::Step;
use cj_test_setup::{partial, replicated};
use std::sync::Arc;
use std::test::Fail;

const ALREADY_ENABLED: Result<u64, &str> = Err("the backend is enabled already");

const FAILED: Result<u64, &str> = Err("backend 1 failed");

const NEEDS_DUMP: Result<u64, &str> = Err("the backend needs a dump");

const DUMP_LACKS: Result<u64, &str> = Err("the dump lacks a table of the backend");

const LAST_HOST: Result<u64, &str> = Err("the backend is the last enabled host of a table");

const CREATE: &str = "CREATE TABLE t (k INTEGER PRIMARY KEY)";

const CREATE_OTHER: &str = "CREATE TABLE u (k INTEGER PRIMARY KEY)";

const FIRST_ROW: &str = "INSERT INTO t VALUES (1)";

const SECOND_ROW: &str = "INSERT INTO t VALUES (2)";

/// The lines of both backends, each with the rows 1 and 2.
const BOTH_ALIKE: &[u8] = b"b0 t base 2\n1\n2\nb1 t base 2\n1\n2\n";

#[test]
fn a_disabled_backend_takes_what_it_missed(rt: HostRuntime) -> Result<(), Fail> {
    let alloc = rt.alloc();
    let one = backend(alloc, Vec::new(alloc), Flags::raised(alloc)?);
    let other = backend(alloc, Vec::new(alloc), Flags::raised(alloc)?);
    let steps = [
        Step::Ask(CREATE),
        Step::Disable(1),
        Step::Ask(FIRST_ROW),
        Step::Ask(SECOND_ROW),
        Step::Reenable(1, Ok(3)),
        Step::Reenable(1, ALREADY_ENABLED),
        Step::Audit(BOTH_ALIKE),
    ];
    let placement = replicated(alloc);
    play(&rt, alloc, placement, one, other, Vec::new(alloc), &steps)?;
    Ok(())
}

/// The backend fails in an entry, which is its third call.
#[test]
fn a_backend_that_is_out_loads_the_dump_of_another(rt: HostRuntime) -> Result<(), Fail> {
    let alloc = rt.alloc();
    let one = backend(alloc, Vec::new(alloc), Flags::raised(alloc)?);
    let fails = Vec::from_array(alloc, [3])?;
    let other = backend(alloc, fails, Flags::raised(alloc)?);
    let steps = [
        Step::Ask(CREATE),
        Step::Ask(FIRST_ROW),
        Step::Backup(0, "d", Ok(2)),
        Step::Reenable(0, Ok(2)),
        Step::Ask(SECOND_ROW),
        Step::Reenable(1, NEEDS_DUMP),
        Step::ReenableBy(1, "d", Ok(3)),
        Step::ReenableBy(1, "d", ALREADY_ENABLED),
        Step::Audit(BOTH_ALIKE),
    ];
    let placement = replicated(alloc);
    play(&rt, alloc, placement, one, other, Vec::new(alloc), &steps)?;
    Ok(())
}

/// The backend fails in an entry, which is its third call. As it comes back it is called to load the dump, and then in
/// that entry.
#[test]
fn a_backend_that_fails_on_its_way_back_comes_back_again(rt: HostRuntime) -> Result<(), Fail> {
    let alloc = rt.alloc();
    let steps = [
        Step::Ask(CREATE),
        Step::Backup(1, "d", Ok(1)),
        Step::Reenable(1, Ok(1)),
        Step::Ask(FIRST_ROW),
        Step::ReenableBy(1, "d", FAILED),
        Step::Audit(b"b0 t base 1\n1\n"),
        Step::ReenableBy(1, "d", Ok(2)),
        Step::Audit(b"b0 t base 1\n1\nb1 t base 1\n1\n"),
    ];
    for call in [4, 5] {
        let one = backend(alloc, Vec::new(alloc), Flags::raised(alloc)?);
        let fails = Vec::from_array(alloc, [3, call])?;
        let other = backend(alloc, fails, Flags::raised(alloc)?);
        let placement = replicated(alloc);
        play(&rt, alloc, placement, one, other, Vec::new(alloc), &steps)?;
    }
    Ok(())
}

/// The backend that has both tables fails in an entry, and the dump is of the other.
#[test]
fn a_dump_has_each_table_of_the_backend(rt: HostRuntime) -> Result<(), Fail> {
    let alloc = rt.alloc();
    let fails = Vec::from_array(alloc, [3])?;
    let one = backend(alloc, fails, Flags::raised(alloc)?);
    let other = backend(alloc, Vec::new(alloc), Flags::raised(alloc)?);
    let steps = [
        Step::Ask(CREATE),
        Step::Ask(CREATE_OTHER),
        Step::Backup(0, "d", LAST_HOST),
        Step::Backup(1, "d", Ok(2)),
        Step::Reenable(1, Ok(2)),
        Step::Ask(FIRST_ROW),
        Step::ReenableBy(0, "d", DUMP_LACKS),
        Step::Reenable(0, NEEDS_DUMP),
        Step::Audit(b"b1 t base 1\n1\n"),
    ];
    let placement = partial(alloc, "b0");
    play(&rt, alloc, placement, one, other, Vec::new(alloc), &steps)?;
    Ok(())
}

/// The transaction has written a row when the dump is taken, and is committed once the dump was loaded elsewhere.
#[test]
fn a_dump_keeps_drafts(rt: HostRuntime) -> Result<(), Fail> {
    let alloc = rt.alloc();
    let one = backend(alloc, Vec::new(alloc), Flags::raised(alloc)?);
    let fails = Vec::from_array(alloc, [4])?;
    let other = backend(alloc, fails, Flags::raised(alloc)?);
    let steps = [
        Step::Ask(CREATE),
        Step::Ask("BEGIN"),
        Step::Ask(FIRST_ROW),
        Step::Backup(0, "d", Ok(3)),
        Step::Reenable(0, Ok(3)),
        Step::Ask(SECOND_ROW),
        Step::Reenable(1, NEEDS_DUMP),
        Step::ReenableBy(1, "d", Ok(4)),
        Step::Ask("COMMIT"),
        Step::Audit(BOTH_ALIKE),
    ];
    let placement = replicated(alloc);
    play(&rt, alloc, placement, one, other, Vec::new(alloc), &steps)?;
    Ok(())
}

/// The backend is held at its first write, which it makes while it comes back, until the other session was answered.
#[test]
fn a_session_is_answered_while_a_backend_takes_the_log(rt: HostRuntime) -> Result<(), Fail> {
    let alloc = rt.alloc();
    let flags = Flags::lowered(alloc)?;
    let one = backend(alloc, Vec::new(alloc), Flags::raised(alloc)?);
    let other = backend(alloc, Vec::new(alloc), Arc::try_clone(&flags)?);
    let steps = [
        Step::Ask(CREATE),
        Step::Disable(1),
        Step::Ask(FIRST_ROW),
        Step::ReenableBeside(1, &flags, SECOND_ROW, 3),
        Step::Audit(BOTH_ALIKE),
    ];
    let placement = replicated(alloc);
    play(&rt, alloc, placement, one, other, Vec::new(alloc), &steps)?;
    assert!(rt; !flags.is_missed());
    Ok(())
}

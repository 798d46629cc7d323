//! What a backup of a backend is answered, and what it leaves.

use crate::clusters::play;
use crate::gates::{Flags, backend};
use crate::steps::Step;
use cj_test_setup::replicated;
use std::test::Fail;

const NOT_ENABLED: Result<u64, &str> = Err("the backend is not enabled");

const NAME_TAKEN: Result<u64, &str> = Err("a dump or a marker has the name already");

const LAST_HOST: Result<u64, &str> = Err("the backend is the last enabled host of a table");

const BACKEND_FAILED: Result<u64, &str> = Err("backend 1 failed");

const STORE_FAILED: Result<u64, &str> = Err("the store of the dumps failed");

const CREATE: &str = "CREATE TABLE t (k INTEGER PRIMARY KEY)";

const INSERT: &str = "INSERT INTO t VALUES (1)";

#[test]
fn a_name_is_given_once(rt: HostRuntime) -> Result<(), Fail> {
    let alloc = rt.alloc();
    let one = backend(alloc, Vec::new(alloc), Flags::raised(alloc)?);
    let other = backend(alloc, Vec::new(alloc), Flags::raised(alloc)?);
    let steps = [
        Step::Ask(CREATE),
        Step::Checkpoint("c"),
        Step::Backup(0, "c", NAME_TAKEN),
        Step::Backup(0, "d", Ok(1)),
        Step::Reenable(0, Ok(1)),
        Step::Backup(0, "d", NAME_TAKEN),
        Step::Backup(1, "d", NAME_TAKEN),
        Step::Backup(1, "e", Ok(1)),
    ];
    let placement = replicated(alloc);
    play(&rt, alloc, placement, one, other, Vec::new(alloc), &steps)?;
    Ok(())
}

#[test]
fn each_table_keeps_an_enabled_host(rt: HostRuntime) -> Result<(), Fail> {
    let alloc = rt.alloc();
    let one = backend(alloc, Vec::new(alloc), Flags::raised(alloc)?);
    let other = backend(alloc, Vec::new(alloc), Flags::raised(alloc)?);
    let steps = [
        Step::Ask(CREATE),
        Step::Disable(1),
        Step::Backup(0, "d", LAST_HOST),
        Step::Backup(1, "d", NOT_ENABLED),
        Step::Reenable(1, Ok(1)),
        Step::Backup(0, "d", Ok(1)),
    ];
    let placement = replicated(alloc);
    play(&rt, alloc, placement, one, other, Vec::new(alloc), &steps)?;
    Ok(())
}

/// The backend fails when it is asked what it holds, and then the store when the dump is written: opening the shelf
/// takes three calls of the store, and a dump four.
#[test]
fn a_backup_that_fails_leaves_the_backend_disabled(rt: HostRuntime) -> Result<(), Fail> {
    let alloc = rt.alloc();
    let steps = [
        Step::Ask(CREATE),
        Step::Backup(1, "d", BACKEND_FAILED),
        Step::Backup(1, "e", NOT_ENABLED),
        Step::Reenable(1, Ok(1)),
        Step::Backup(1, "d", NAME_TAKEN),
        Step::Backup(1, "e", STORE_FAILED),
        Step::Backup(1, "f", NOT_ENABLED),
        Step::Ask(INSERT),
        Step::Reenable(1, Ok(2)),
        Step::Backup(1, "f", Ok(2)),
        Step::Audit(b"b0 t base 1\n1\n"),
    ];
    for call in 4..8 {
        let one = backend(alloc, Vec::new(alloc), Flags::raised(alloc)?);
        let fails = Vec::from_array(alloc, [2])?;
        let other = backend(alloc, fails, Flags::raised(alloc)?);
        let shelf_fails = Vec::from_array(alloc, [call])?;
        let placement = replicated(alloc);
        play(&rt, alloc, placement, one, other, shelf_fails, &steps)?;
    }
    Ok(())
}

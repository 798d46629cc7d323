//! What each command is answered, and why it is refused while nothing fails.

use crate::clusters::{NO_FAULTS, play};
use crate::steps::{Row, Step};
use cj_test_setup::{partial, replicated};
use std::test::Fail;

const CREATE: &str = "CREATE TABLE t (k INTEGER PRIMARY KEY)";

const INSERT: &str = "INSERT INTO t VALUES (1)";

#[test]
fn each_command_is_answered(rt: HostRuntime) -> Result<(), Fail> {
    let alloc = rt.alloc();
    let backends = "b0 enabled position=2 asks=0 begun=0 faults=0 login=l0\n\
b1 enabled position=2 asks=0 begun=0 faults=0 login=l1\n";
    let without_second = "b0 enabled position=2 asks=0 begun=0 faults=0 login=l0\n\
b1 disabled position=2 asks=0 begun=0 faults=0 login=l1\n";
    let log = "1 session=1 tx=0 user=ann CREATE TABLE t (k INTEGER PRIMARY KEY)\n\
2 session=1 tx=0 user=ann INSERT INTO t VALUES (1)\nmarker c after 2 backend=-\n";
    let rows: [Row<'_>; 15] = [
        ("show backends", backends),
        ("show cache", "hits=0 misses=0\n"),
        ("audit", "b0 t base 1\n1\nb1 t base 1\n1\n"),
        ("checkpoint c", "ok 2\n"),
        ("checkpoint c", "refused NameTaken\n"),
        ("show log 1 9", log),
        (
            "show log 1 1",
            "1 session=1 tx=0 user=ann CREATE TABLE t (k INTEGER PRIMARY KEY)\n",
        ),
        ("show log 3 9", ""),
        ("show log 2 1", ""),
        ("disable b1", "ok\n"),
        ("disable b1", "refused NotEnabled\n"),
        ("show backends", without_second),
        ("enable b1", "ok 2\n"),
        ("enable b1", "refused AlreadyEnabled\n"),
        ("show backends", backends),
    ];
    let steps = [Step::Session(&[CREATE, INSERT]), Step::Rows(&rows)];
    play(&rt, alloc, replicated(alloc), NO_FAULTS, &steps)?;
    Ok(())
}

#[test]
fn a_backup_takes_a_new_name_and_a_backend_that_can_be_spared(rt: HostRuntime) -> Result<(), Fail> {
    let alloc = rt.alloc();
    let rows: [Row<'_>; 13] = [
        ("backup b1 d", "ok 2\n"),
        ("backup b1 d", "refused NameTaken\n"),
        ("backup b0 d", "refused NameTaken\n"),
        ("checkpoint d", "refused NameTaken\n"),
        ("checkpoint c", "ok 2\n"),
        ("backup b1 c", "refused NameTaken\n"),
        ("disable b0", "ok\n"),
        ("backup b1 e", "refused LastHost\n"),
        ("backup b0 e", "refused NotEnabled\n"),
        ("enable b0 e", "refused Dump\n"),
        ("enable b0 d", "ok 2\n"),
        (
            "show log 2 3",
            "2 session=1 tx=0 user=ann INSERT INTO t VALUES (1)\n\
marker d after 2 backend=b1\nmarker c after 2 backend=-\n",
        ),
        ("audit", "b0 t base 1\n1\nb1 t base 1\n1\n"),
    ];
    let steps = [Step::Session(&[CREATE, INSERT]), Step::Rows(&rows)];
    play(&rt, alloc, replicated(alloc), NO_FAULTS, &steps)?;
    Ok(())
}

#[test]
fn a_refusal_names_the_table(rt: HostRuntime) -> Result<(), Fail> {
    let alloc = rt.alloc();
    let rows: [Row<'_>; 3] = [
        ("backup b1 d", "refused LastHost u\n"),
        ("backup b0 d", "ok 2\n"),
        ("enable b0", "refused AlreadyEnabled\n"),
    ];
    let requests = [CREATE, "CREATE TABLE u (k INTEGER PRIMARY KEY)"];
    let steps = [Step::Session(&requests), Step::Rows(&rows)];
    play(&rt, alloc, partial(alloc, "b1"), NO_FAULTS, &steps)?;
    Ok(())
}

#[test]
fn an_orphan_is_ended_once(rt: HostRuntime) -> Result<(), Fail> {
    let alloc = rt.alloc();
    let drafts = "b0 t base 0\nb0 t draft 2 1\n1\nb1 t base 0\nb1 t draft 2 1\n1\n";
    let rows: [Row<'_>; 6] = [
        ("abort 7", "refused NotOrphan 7\n"),
        ("audit", drafts),
        ("abort 2", "ok 4\n"),
        ("abort 2", "refused NotOrphan 2\n"),
        ("show log 4 4", "4 session=0 tx=2 user=ann ROLLBACK\n"),
        ("audit", "b0 t base 0\nb1 t base 0\n"),
    ];
    let steps = [Step::Session(&[CREATE, "BEGIN", INSERT]), Step::Rows(&rows)];
    play(&rt, alloc, replicated(alloc), NO_FAULTS, &steps)?;
    Ok(())
}

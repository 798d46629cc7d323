//! What is answered where a backend, the log or the shelf fails.

use crate::clusters::{Faults, NO_FAULTS, backend_fails, play};
use crate::steps::{Row, Step};
use cj_test_setup::{partial, replicated};
use std::test::Fail;

const CREATE: &str = "CREATE TABLE t (k INTEGER PRIMARY KEY)";

const CREATE_OTHER: &str = "CREATE TABLE u (k INTEGER PRIMARY KEY)";

const INSERT: &str = "INSERT INTO t VALUES (1)";

/// The backend's third call is in the second entry, after one by which it was dumped.
#[test]
fn a_backend_that_is_out_needs_a_dump(rt: HostRuntime) -> Result<(), Fail> {
    let alloc = rt.alloc();
    let backends = "b0 enabled position=2 asks=0 begun=0 faults=0 login=l0\n\
b1 out position=- asks=0 begun=0 faults=1 login=l1\n";
    let rows: [Row<'_>; 6] = [
        ("show backends", backends),
        ("enable b1", "refused NeedsDump\n"),
        ("enable b1 x", "refused Dump\n"),
        ("enable b1 d", "ok 2\n"),
        ("enable b1", "refused AlreadyEnabled\n"),
        ("audit", "b0 t base 1\n1\nb1 t base 1\n1\n"),
    ];
    let steps = [
        Step::Session(&[CREATE]),
        Step::Rows(&[("backup b1 d", "ok 1\n")]),
        Step::Session(&[INSERT]),
        Step::Rows(&rows),
    ];
    let faults = backend_fails(3);
    play(&rt, alloc, replicated(alloc), faults, &steps)?;
    Ok(())
}

/// The backend that has both tables fails in the third entry, and the dump is of the other.
#[test]
fn a_dump_has_each_table_of_the_backend(rt: HostRuntime) -> Result<(), Fail> {
    let alloc = rt.alloc();
    let rows: [Row<'_>; 3] = [
        ("enable b1 d", "refused DumpLacks u\n"),
        ("enable b1", "refused NeedsDump\n"),
        ("audit", "b0 t base 1\n1\n"),
    ];
    let steps = [
        Step::Session(&[CREATE, CREATE_OTHER]),
        Step::Rows(&[("backup b0 d", "ok 2\n")]),
        Step::Session(&[INSERT]),
        Step::Rows(&rows),
    ];
    let faults = backend_fails(3);
    play(&rt, alloc, partial(alloc, "b1"), faults, &steps)?;
    Ok(())
}

/// The backend fails in the entry that it has missed.
#[test]
fn a_backend_that_fails_on_its_way_back_is_out(rt: HostRuntime) -> Result<(), Fail> {
    let alloc = rt.alloc();
    let rows: [Row<'_>; 3] = [
        ("enable b1", "refused Failed\n"),
        ("enable b1", "refused NeedsDump\n"),
        ("audit", "b0 t base 1\n1\n"),
    ];
    let steps = [
        Step::Session(&[CREATE]),
        Step::Rows(&[("disable b1", "ok\n")]),
        Step::Session(&[INSERT]),
        Step::Rows(&rows),
    ];
    let faults = backend_fails(2);
    play(&rt, alloc, replicated(alloc), faults, &steps)?;
    Ok(())
}

#[test]
fn a_backend_that_fails_when_it_is_dumped_stays_disabled(rt: HostRuntime) -> Result<(), Fail> {
    let alloc = rt.alloc();
    let rows: [Row<'_>; 4] = [
        ("backup b1 d", "refused BackendFault\n"),
        ("disable b1", "refused NotEnabled\n"),
        ("enable b1", "ok 0\n"),
        ("enable b1 d", "refused Dump\n"),
    ];
    let faults = backend_fails(1);
    let placement = replicated(alloc);
    play(&rt, alloc, placement, faults, &[Step::Rows(&rows)])?;
    Ok(())
}

#[test]
fn an_audit_names_the_number_of_a_backend_that_fails(rt: HostRuntime) -> Result<(), Fail> {
    let alloc = rt.alloc();
    let rows: [Row<'_>; 2] = [("audit", "refused Fault 1\n"), ("audit", "")];
    let faults = backend_fails(1);
    let placement = replicated(alloc);
    play(&rt, alloc, placement, faults, &[Step::Rows(&rows)])?;
    Ok(())
}

/// Opening the shelf takes three calls of its store.
#[test]
fn a_dump_that_is_not_stored_keeps_its_name_in_the_log(rt: HostRuntime) -> Result<(), Fail> {
    let alloc = rt.alloc();
    let rows: [Row<'_>; 5] = [
        ("backup b1 d", "refused StoreFault\n"),
        ("disable b1", "refused NotEnabled\n"),
        ("enable b1", "ok 0\n"),
        ("backup b1 d", "refused NameTaken\n"),
        ("backup b1 e", "ok 0\n"),
    ];
    let faults = Faults {
        shelf: 4,
        ..NO_FAULTS
    };
    let placement = replicated(alloc);
    play(&rt, alloc, placement, faults, &[Step::Rows(&rows)])?;
    Ok(())
}

/// Adding a dump takes four calls more.
#[test]
fn a_dump_that_is_not_read_leaves_the_backend(rt: HostRuntime) -> Result<(), Fail> {
    let alloc = rt.alloc();
    let rows: [Row<'_>; 4] = [
        ("backup b1 d", "ok 0\n"),
        ("disable b1", "ok\n"),
        ("enable b1 d", "refused StoreFault\n"),
        ("enable b1 d", "ok 0\n"),
    ];
    let faults = Faults {
        shelf: 8,
        ..NO_FAULTS
    };
    let placement = replicated(alloc);
    play(&rt, alloc, placement, faults, &[Step::Rows(&rows)])?;
    Ok(())
}

/// The start takes three calls of the log's store.
#[test]
fn no_marker_is_set_while_the_log_fails(rt: HostRuntime) -> Result<(), Fail> {
    let alloc = rt.alloc();
    let faults = Faults {
        log: 4,
        ..NO_FAULTS
    };
    let backups: [Row<'_>; 3] = [
        ("backup b1 d", "refused LogFault\n"),
        ("backup b1 d", "ok 0\n"),
        ("show log 0 1", "marker d after 0 backend=b1\n"),
    ];
    let placement = replicated(alloc);
    play(&rt, alloc, placement, faults, &[Step::Rows(&backups)])?;
    let checkpoints: [Row<'_>; 3] = [
        ("checkpoint c", "refused LogFault\n"),
        ("checkpoint c", "ok 0\n"),
        ("show log 0 1", "marker c after 0 backend=-\n"),
    ];
    let placement = replicated(alloc);
    play(&rt, alloc, placement, faults, &[Step::Rows(&checkpoints)])?;
    Ok(())
}

//! Snapshots of databases, and what they show after later changes.

use crate::given::plain_request;
use cj_model::{COLUMN_LIMIT, Name, Request, Value};
use cj_table::Tables;
use std::alloc::Global;
use std::process::Abort;
use std::test::Fail;

/// Creates a table.
fn create(rt: &impl Abort, alloc: Global, tables: &mut Tables, text: &str) {
    let Request::Create(create) = plain_request(rt, alloc, text) else {
        panic!(rt; "{text}")
    };
    assert!(rt; create.columns.as_slice().len() <= COLUMN_LIMIT, "{text}");
    assert!(rt; tables.create(&create).is_ok(), "{text}");
}

/// Makes a write of transaction `tx`, 0 for none.
fn write(rt: &impl Abort, alloc: Global, tables: &mut Tables, tx: u64, text: &str) {
    let Request::Write(write) = plain_request(rt, alloc, text) else {
        panic!(rt; "{text}")
    };
    assert!(rt; tables.write(tx, &write).is_ok(), "{text}");
}

/// The sum of the values that transaction `tx`, 0 for none, sees in the table.
fn sum_of(rt: &impl Abort, tables: &Tables, tx: u64) -> i64 {
    let Some(name) = Name::of(b"t") else {
        panic!(rt; "the name")
    };
    let Some(view) = tables.view(&name, tx) else {
        panic!(rt; "the table")
    };
    let mut sum: i64 = 0;
    for row in view.scan() {
        if let [_, Value::Int(number)] = row {
            sum = sum.wrapping_add(*number);
        }
    }
    sum
}

#[test]
fn a_snapshot_shows_no_later_change(rt: HostRuntime) -> Result<(), Fail> {
    let alloc = rt.alloc();
    let mut tables = Tables::new(alloc);
    let table = "CREATE TABLE t (k INTEGER PRIMARY KEY, v INTEGER)";
    create(&rt, alloc, &mut tables, table);
    let rows = "INSERT INTO t VALUES (1, 5), (2, 7), (3, 9)";
    write(&rt, alloc, &mut tables, 0, rows);
    let change = "UPDATE t SET v = 105 WHERE k = 1";
    write(&rt, alloc, &mut tables, 7, change);
    let snapshot = tables.snapshot()?;
    write(&rt, alloc, &mut tables, 7, "DELETE FROM t WHERE k = 2");
    tables.commit(7)?;
    assert!(rt; sum_of(&rt, &tables, 0) == 114);
    write(&rt, alloc, &mut tables, 0, "UPDATE t SET v = 1");
    assert!(rt; sum_of(&rt, &tables, 0) == 2);
    assert!(rt; sum_of(&rt, &snapshot, 0) == 21);
    assert!(rt; sum_of(&rt, &snapshot, 7) == 121);
    Ok(())
}

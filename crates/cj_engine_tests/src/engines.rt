//! Statements that a backend over SQLite and one in memory must answer alike.

ghost use Rattle.std.specs.Prelude.{◌≡◌, ◌==◌, OnOk, filter, not};
ghost use Rattle.cj_model.specs.declared.request.Request.TheVariants as request;
ghost use Rattle.cj_model.specs.Sql.WrittenRequests.{IsWritten};
ghost use Rattle.cj_lite.specs.AnyBackends.{begun_of};

use crate::given::plain_request;
use cj_audit::append_backend;
use cj_backend::Backend;
use cj_lite::{AnyBackend, LiteBackend};
use cj_mem::MemBackend;
use cj_model::{AnswerRows, Asked, Duplicate, Name, Outcome, Request, Same, Text, Write};
use cj_table::Tables;
use std::alloc::Global;
use std::process::Abort;
use std::test::Fail;

/// The steps of the test: each a transaction, 0 for none, and a request in it.
const STEPS: [&str; 103] = [
    "0 SELECT * FROM index",
    "0 DROP TABLE index",
    "0 INSERT INTO index VALUES (1)",
    "0 CREATE TABLE index (rowid INTEGER PRIMARY KEY, null TEXT, case INTEGER)",
    "0 CREATE TABLE index (k INTEGER PRIMARY KEY)",
    "0 CREATE TABLE pragma (k INTEGER)",
    "0 CREATE TABLE pragma (k INTEGER PRIMARY KEY, v TEXT PRIMARY KEY)",
    "0 CREATE TABLE pragma (k INTEGER PRIMARY KEY, k TEXT)",
    "0 CREATE TABLE sqlite_master (default TEXT, oid INTEGER, unique TEXT PRIMARY KEY)",
    "0 SELECT * FROM index",
    "0 SELECT COUNT(*), SUM(case) FROM index",
    "0 INSERT INTO index VALUES (1, 'it''s', 5), (9223372036854775807, 'é€😀', -9223372036854775808), (-9223372036854775808, '', 9223372036854775807)",
    "0 SELECT * FROM index",
    "0 SELECT null FROM index WHERE rowid = 9223372036854775807",
    "0 SELECT rowid FROM index WHERE rowid = -9223372036854775808 OR 5 = case ORDER BY case",
    "0 SELECT * FROM index WHERE rowid >= 1 ORDER BY case DESC",
    "0 SELECT * FROM index WHERE rowid < 1",
    "0 SELECT rowid FROM index WHERE rowid > 0 AND rowid < 9223372036854775807",
    "0 SELECT rowid FROM index LIMIT 2",
    "0 SELECT rowid FROM index WHERE rowid > -9223372036854775808 LIMIT 1",
    "0 SELECT rowid FROM index LIMIT 0",
    "0 SELECT rowid FROM index ORDER BY rowid DESC LIMIT 2",
    "0 SELECT SUM(case) FROM index",
    "0 SELECT SUM(case) FROM index WHERE rowid > -9223372036854775808",
    "0 SELECT SUM(case), COUNT(*) FROM index WHERE rowid = 7",
    "0 SELECT SUM(null) FROM index",
    "0 SELECT nothing FROM index",
    "0 SELECT * FROM index WHERE nothing = 1",
    "0 SELECT * FROM index WHERE case = 'a'",
    "0 SELECT COUNT(*), case FROM index",
    "0 UPDATE index SET case = case + 1 WHERE rowid = -9223372036854775808",
    "0 UPDATE index SET case = case - 1",
    "0 UPDATE index SET case = case + 1 WHERE case < 6",
    "0 UPDATE index SET null = null, case = rowid WHERE null = 'it''s'",
    "0 UPDATE index SET null = 'x', null = 'y'",
    "0 UPDATE index SET rowid = 4",
    "0 UPDATE index SET case = 'x'",
    "0 UPDATE index SET case = null + 1",
    "0 UPDATE index SET nothing = 1",
    "0 UPDATE index SET case = 1 WHERE rowid = '1'",
    "0 SELECT * FROM index ORDER BY null DESC, rowid",
    "0 INSERT INTO index VALUES (2, 'b', 2), (1, 'a', 1)",
    "0 INSERT INTO index VALUES (2, 'b', 2), (2, 'a', 1)",
    "0 INSERT INTO index VALUES (1, 'b', 2), (1, 'a', 1)",
    "0 INSERT INTO index VALUES ('1', 'b', 2)",
    "0 INSERT INTO index VALUES (1, 2, 3)",
    "0 INSERT INTO index VALUES (2, 'b')",
    "0 INSERT INTO index (case, rowid) VALUES (1, 2)",
    "0 INSERT INTO index (case, rowid, nothing) VALUES (1, 2, 3)",
    "0 INSERT INTO index (case, rowid, rowid) VALUES (1, 2, 3)",
    "0 INSERT INTO index (case, null, rowid) VALUES (1, 'x', 2), (2, '', 3)",
    "0 SELECT index.rowid, case, null FROM index WHERE NOT (rowid = 1 OR rowid = 2) AND null <> 'a'",
    "0 INSERT INTO sqlite_master VALUES ('a', 1, 'é'), ('b', 2, 'Z'), ('a', 3, ''), ('b', 4, 'a''b'), ('c', 5, 'a')",
    "0 SELECT * FROM sqlite_master",
    "0 SELECT unique FROM sqlite_master WHERE unique >= 'a'",
    "0 SELECT unique FROM sqlite_master WHERE unique = 'a''b'",
    "0 SELECT unique FROM sqlite_master WHERE unique < 'b' AND unique > 'A'",
    "0 SELECT default, COUNT(*), SUM(oid) FROM sqlite_master GROUP BY default",
    "0 SELECT default FROM sqlite_master GROUP BY default ORDER BY default DESC LIMIT 1",
    "0 SELECT oid FROM sqlite_master GROUP BY default",
    "0 SELECT COUNT(*) FROM sqlite_master WHERE default = 'a' AND NOT oid = 3",
    "0 SELECT rowid, oid FROM index, sqlite_master WHERE rowid = oid",
    "0 SELECT index.rowid, unique FROM sqlite_master, index WHERE oid = index.rowid AND unique = 'Z'",
    "0 SELECT unique FROM index, sqlite_master WHERE index.rowid = 1 AND unique < 'b' LIMIT 2",
    "0 SELECT * FROM index, nothing",
    "0 DELETE FROM sqlite_master WHERE default = 'b'",
    "0 DELETE FROM sqlite_master WHERE unique = 'a'",
    "0 DELETE FROM sqlite_master WHERE unique = 'a'",
    "0 DELETE FROM sqlite_master WHERE nothing = 1",
    "0 SELECT * FROM sqlite_master ORDER BY oid",
    "3 BEGIN",
    "3 INSERT INTO index VALUES (4, 'four', 4)",
    "3 UPDATE index SET case = case + 10 WHERE rowid < 4 AND rowid > 0",
    "3 DELETE FROM index WHERE rowid = 2",
    "3 INSERT INTO index VALUES (2, 'again', 2)",
    "3 INSERT INTO index VALUES (2, 'twice', 2)",
    "3 SELECT * FROM index",
    "3 SELECT rowid FROM index LIMIT 3",
    "3 SELECT * FROM index WHERE rowid = 4",
    "0 SELECT * FROM index",
    "0 INSERT INTO index VALUES (6, 'six', 6)",
    "0 DROP TABLE index",
    "5 BEGIN",
    "5 UPDATE index SET case = 0",
    "5 DELETE FROM sqlite_master WHERE unique = 'none'",
    "5 SELECT rowid, unique FROM index, sqlite_master",
    "0 INSERT INTO sqlite_master VALUES ('d', 6, 'd')",
    "5 INSERT INTO sqlite_master VALUES ('d', 6, 'd')",
    "0 SELECT * FROM sqlite_master",
    "3 SELECT * FROM sqlite_master WHERE unique = 'd'",
    "3 COMMIT",
    "0 SELECT * FROM index",
    "5 SELECT * FROM sqlite_master",
    "5 ROLLBACK",
    "0 SELECT * FROM sqlite_master",
    "0 CREATE TABLE check (k INTEGER PRIMARY KEY)",
    "0 INSERT INTO check VALUES (3), (1), (2)",
    "0 DELETE FROM index",
    "0 SELECT * FROM index",
    "0 DROP TABLE index",
    "7 BEGIN",
    "7 DELETE FROM check WHERE k = 2",
    "7 INSERT INTO check VALUES (4)",
];

/// The requests to a loaded database in which transaction 7 has a draft.
const LATER: [&str; 10] = [
    "0 SELECT * FROM check",
    "7 SELECT * FROM check",
    "0 UPDATE check SET k = 1",
    "0 DELETE FROM check",
    "7 INSERT INTO check VALUES (5)",
    "7 COMMIT",
    "0 SELECT * FROM check",
    "0 SELECT * FROM sqlite_master",
    "0 INSERT INTO check VALUES (5)",
    "0 DELETE FROM check WHERE k > 3",
];

/// The result of a request.
#[derive(Drop)]
enum Came {
    Ended,
    To(Outcome),
    Asked(Asked),
}

fn are_same(rows: &AnswerRows, others: &AnswerRows) -> bool {
    let mut others = others.iter();
    for row in rows.iter() {
        match others.next() {
            Some(other) if row == other => {}
            _ => return false,
        }
    }
    others.next().is_none()
}

fn is_same(one: &Came, other: &Came) -> bool {
    match (one, other) {
        (Came::Ended, Came::Ended) => true,
        (Came::To(one), Came::To(other)) => one == other,
        (Came::Asked(Asked::Rows(one)), Came::Asked(Asked::Rows(other))) => {
            one.columns.is_same(&other.columns) && are_same(&one.rows, &other.rows)
        }
        (Came::Asked(Asked::Refused(one)), Came::Asked(Asked::Refused(other))) => one == other,
        _ => false,
    }
}

fn user(alloc: Global) -> Result<Text, Fail> {
    match Text::of(b"ann".to_vec(alloc)?) {
        Some(user) => Ok(user),
        None => Err(Fail::from("a text")),
    }
}

fn begin(backend: &mut AnyBackend, begun: &mut Vec<u64>, user: &Text, tx: u64) -> Result<(), Fail>
    requires { begun_of backend.old ≡ begun.old.items }
    ensures { OnOk result (begun_of backend.new ≡ begun.new.items) }
{
    if begun.contains(&tx) {
        return Err(Fail::from("a new transaction"));
    }
    backend.begin(user, tx)?;
    begun.push(tx)?;
    Ok(())
}

/// Removes a transaction that has ended from those begun.
fn forget(begun: &mut Vec<u64>, tx: u64)
    ensures { begun.new.items ≡ filter (λ t. not (t == tx)) begun.old.items }
{
    begun.retain(|other| *other != tx);
}

fn commit(backend: &mut AnyBackend, begun: &mut Vec<u64>, user: &Text, tx: u64) -> Result<(), Fail>
    requires { begun_of backend.old ≡ begun.old.items }
    ensures { OnOk result (begun_of backend.new ≡ begun.new.items) }
{
    if !begun.contains(&tx) {
        return Err(Fail::from("a transaction"));
    }
    backend.commit(user, tx)?;
    forget(begun, tx);
    Ok(())
}

fn abort(backend: &mut AnyBackend, begun: &mut Vec<u64>, user: &Text, tx: u64) -> Result<(), Fail>
    requires { begun_of backend.old ≡ begun.old.items }
    ensures { OnOk result (begun_of backend.new ≡ begun.new.items) }
{
    if !begun.contains(&tx) {
        return Err(Fail::from("a transaction"));
    }
    backend.abort(user, tx)?;
    forget(begun, tx);
    Ok(())
}

fn write(
    backend: &mut AnyBackend,
    begun: &[u64],
    user: &Text,
    tx: u64,
    write: &Write,
) -> Result<Outcome, Fail>
    requires begun { begun_of backend.old ≡ begun.now }
    requires written { IsWritten (request.Write write.now) }
    ensures { begun_of backend.new ≡ begun.now }
{
    if tx != 0 && !begun.contains(&tx) {
        return Err(Fail::from("a transaction"));
    }
    Ok(backend.write(user, tx, write)?)
}

fn carried_out(
    alloc: Global,
    backend: &mut AnyBackend,
    begun: &mut Vec<u64>,
    tx: u64,
    request: Request,
) -> Result<Came, Fail>
    requires begun { begun_of backend.old ≡ begun.old.items }
    requires written { IsWritten request }
    ensures { OnOk result (begun_of backend.new ≡ begun.new.items) }
{
    let user = user(alloc)?;
    match request {
        Request::Begin => {
            begin(backend, begun, &user, tx)?;
            Ok(Came::Ended)
        }
        Request::Commit => {
            commit(backend, begun, &user, tx)?;
            Ok(Came::Ended)
        }
        Request::Rollback => {
            abort(backend, begun, &user, tx)?;
            Ok(Came::Ended)
        }
        Request::Write(change) => {
            let outcome = write(backend, begun, &user, tx, &change)?;
            Ok(Came::To(outcome))
        }
        Request::Create(create) => Ok(Came::To(backend.create(&user, &create)?)),
        Request::Drop(table) => Ok(Came::To(backend.drop_table(&user, &table)?)),
        Request::Select(select) => Ok(Came::Asked(backend.ask(&user, tx, &select)?)),
    }
}

/// A backend, and the transactions that are begun at it.
#[derive(Drop)]
struct Driven {
    backend: AnyBackend,
    begun: Vec<u64>,
    ghost same: { begun_of backend ≡ begun.items },
}

fn answered(
    rt: &impl Abort,
    alloc: Global,
    driven: Driven,
    tx: u64,
    text: &str,
) -> Result<(Driven, Came), Fail> {
    let request = plain_request(rt, alloc, text);
    let Driven {
        mut backend,
        mut begun,
    } = driven;
    let came = carried_out(alloc, &mut backend, &mut begun, tx, request)?;
    Ok((Driven { backend, begun }, came))
}

fn step_of(step: &str) -> Result<(u64, &str), Fail> {
    match step.split_once(' ') {
        Some((tx, text)) => Ok((tx.parse::<u64>()?, text)),
        None => Err(Fail::from("a transaction and a text")),
    }
}

/// Runs each step on both backends, whose answers must be alike.
fn compared(
    rt: &impl Abort,
    alloc: Global,
    mut one: Driven,
    mut other: Driven,
    steps: &[&str],
) -> Result<(Driven, Driven), Fail> {
    for step in steps {
        let (tx, text) = step_of(step)?;
        let (next, wanted) = answered(rt, alloc, one, tx, text)?;
        one = next;
        let (next, came) = answered(rt, alloc, other, tx, text)?;
        other = next;
        assert!(rt; is_same(&came, &wanted), "{text}");
    }
    Ok((one, other))
}

/// The audit lines of a backend, and the backend after its contents were loaded again.
fn reloaded(alloc: Global, driven: Driven) -> Result<(Driven, Vec<u8>), Fail> {
    let Driven { mut backend, .. } = driven;
    let db = backend.contents()?;
    let mut lines = Vec::new(alloc);
    append_backend(&mut lines, &Name::empty(), &db)?;
    let begun = Tables::from_db(alloc, db.copy(alloc)?)?.writers()?;
    backend.load(db)?;
    Ok((Driven { backend, begun }, lines))
}

#[test]
fn both_kinds_answer_alike(rt: HostRuntime) -> Result<(), Fail> {
    let alloc = rt.alloc();
    let mem = Driven {
        backend: AnyBackend::Mem(MemBackend::new(alloc)),
        begun: Vec::new(alloc),
    };
    let Ok(lite) = LiteBackend::open(alloc) else {
        return Err(Fail::from("memory"));
    };
    let lite = Driven {
        backend: AnyBackend::Lite(lite),
        begun: Vec::new(alloc),
    };
    let (mem, lite) = compared(&rt, alloc, mem, lite, &STEPS)?;
    let (mem, wanted) = reloaded(alloc, mem)?;
    let (lite, lines) = reloaded(alloc, lite)?;
    assert!(rt; lines == wanted);
    let (mem, lite) = compared(&rt, alloc, mem, lite, &LATER)?;
    assert!(rt; mem.backend.counts() == lite.backend.counts());
    Ok(())
}

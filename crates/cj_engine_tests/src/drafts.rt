//! Backends that are dumped, and loaded from the dump.

ghost use Rattle.std.specs.Prelude.{◌≡◌, [], ◌∷◌, Contains};

use crate::given::plain_request;
use cj_backend::{Backend, BackendError};
use cj_flaky::Flaky;
use cj_mem::MemBackend;
use cj_model::{Asked, Duplicate, ListOf, Request, Text, Value};
use std::alloc::Global;
use std::process::Abort;
use std::test::Fail;

/// Makes a change outside transactions.
fn change<B: Backend>(rt: &impl Abort, alloc: Global, backend: &mut B, login: &Text, text: &str)
    ensures { B.begun backend.new ≡ B.begun backend.old }
{
    let given = match plain_request(rt, alloc, text) {
        Request::Create(create) => backend.create(login, &create),
        Request::Write(write) => backend.write(login, 0, &write),
        _ => panic!(rt; "{text}"),
    };
    assert!(rt; given.is_ok(), "{text}");
}

/// The number of rows that transaction `tx`, 0 for none, sees of the table, and the sum of their values.
fn totals<B: Backend>(
    rt: &impl Abort,
    alloc: Global,
    backend: &mut B,
    login: &Text,
    tx: u64,
) -> Result<Vec<Value>, Fail> {
    let text = "SELECT COUNT(*), SUM(v) FROM t";
    let Request::Select(select) = plain_request(rt, alloc, text) else {
        panic!(rt; "{text}")
    };
    match backend.ask(login, tx, &select) {
        Ok(Asked::Rows(answer)) => {
            let mut totals = Vec::new(alloc);
            for value in answer.rows.items() {
                totals.push(value.copy(alloc)?)?;
            }
            Ok(totals)
        }
        _ => panic!(rt; "{text}"),
    }
}

/// Makes a write in a transaction that is begun.
fn write_in<B: Backend>(
    rt: &impl Abort,
    alloc: Global,
    backend: &mut B,
    login: &Text,
    tx: u64,
    text: &str,
)
    requires { Contains (B.begun backend.old) tx }
    ensures { B.begun backend.new ≡ B.begun backend.old }
{
    let Request::Write(write) = plain_request(rt, alloc, text) else {
        panic!(rt; "{text}")
    };
    assert!(rt; backend.write(login, tx, &write).is_ok(), "{text}");
}

/// Begins transaction 7, as the first one.
fn begin_first<B: Backend>(rt: &impl Abort, backend: &mut B, login: &Text)
    requires { B.begun backend.old ≡ [] }
    ensures { B.begun backend.new ≡ 7 ∷ [] }
{
    match backend.begin(login, 7) {
        Ok(()) => {}
        Err(_) => panic!(rt; "begin"),
    }
}

/// A backend with three rows, of which transaction 7 has changed one and deleted another.
fn with_draft(rt: &impl Abort, alloc: Global, login: &Text) -> MemBackend
    ensures { result.begun ≡ 7 ∷ [] }
{
    let mut backend = MemBackend::new(alloc);
    change(
        rt,
        alloc,
        &mut backend,
        login,
        "CREATE TABLE t (k INTEGER PRIMARY KEY, v INTEGER)",
    );
    change(
        rt,
        alloc,
        &mut backend,
        login,
        "INSERT INTO t VALUES (3, 9), (1, 5), (2, 7)",
    );
    begin_first(rt, &mut backend, login);
    write_in(
        rt,
        alloc,
        &mut backend,
        login,
        7,
        "UPDATE t SET v = v + 100 WHERE k = 1",
    );
    write_in(
        rt,
        alloc,
        &mut backend,
        login,
        7,
        "DELETE FROM t WHERE k = 3",
    );
    backend
}

#[test]
fn what_is_loaded_is_what_was_held(rt: HostRuntime) -> Result<(), Fail> {
    let alloc = rt.alloc();
    let login = Text::of(Vec::new(alloc)).unwrap_or_else(|| panic!(&rt; "a text"));
    let mut held = with_draft(&rt, alloc, &login);
    let Ok(contents) = held.contents() else {
        panic!(&rt; "contents")
    };
    // the first call fails, and the second holds the database
    let mut loaded = Flaky::new(
        MemBackend::new(alloc),
        ListOf::from_vec(Vec::from_array(alloc, [1])?),
    );
    assert_eq!(rt;
        loaded.load(contents.copy(alloc)?),
        Err(BackendError::Failed)
    );
    assert_eq!(rt; loaded.load(contents), Ok(()));
    assert_eq!(rt; loaded.counts().begun, 1);
    for (tx, count, sum) in [(0, 3, 21), (7, 2, 112), (8, 3, 21)] {
        let wanted = Vec::from_array(alloc, [Value::Int(count), Value::Int(sum)])?;
        assert!(rt; totals(&rt, alloc, &mut held, &login, tx)? == wanted);
        assert!(rt; totals(&rt, alloc, &mut loaded, &login, tx)? == wanted);
    }
    Ok(())
}

/// Ends transaction 7, by a commit or by an abort.
fn end_first<B: Backend>(rt: &impl Abort, backend: &mut B, login: &Text, commits: bool)
    requires { Contains (B.begun backend.old) 7 }
{
    let given = if commits {
        backend.commit(login, 7)
    } else {
        backend.abort(login, 7)
    };
    assert!(rt; given.is_ok(), "the end");
}

#[test]
fn a_draft_is_committed_or_forgotten(rt: HostRuntime) -> Result<(), Fail> {
    let alloc = rt.alloc();
    let login = Text::of(Vec::new(alloc)).unwrap_or_else(|| panic!(&rt; "a text"));
    for (commits, count, sum) in [(true, 2, 112), (false, 3, 21)] {
        let mut held = with_draft(&rt, alloc, &login);
        end_first(&rt, &mut held, &login, commits);
        let wanted = Vec::from_array(alloc, [Value::Int(count), Value::Int(sum)])?;
        assert!(rt; totals(&rt, alloc, &mut held, &login, 0)? == wanted);
    }
    Ok(())
}

//! Whole sessions: what one is sent, where its rows are then, and which answers come from the result cache.

use crate::clusters::play;
use crate::frames::Sent::{Query, Stats};
use crate::frames::{DONE_0, DONE_1, DONE_2, Talk};
use crate::steps::Step;
use cj_backend::Backend;
use cj_flaky::Wrong;
use cj_mem::MemBackend;
use cj_model::Text;
use std::test::Fail;

/// The rows (2, 'b') and (1, 'a') of columns k and v.
const TWO_ROWS: &[u8] = b"\x00\x00\x00\x2b\x82\x00\x02\x00\x01k\x00\x01v\x00\x00\x00\x02\
\x01\x00\x00\x00\x00\x00\x00\x00\x02\x02\x00\x00\x00\x01b\
\x01\x00\x00\x00\x00\x00\x00\x00\x01\x02\x00\x00\x00\x01a";

/// The lines of both backends, each with both rows.
const TWO_ROWS_TWICE: &[u8] = b"b0 t base 2\n1, 'a'\n2, 'b'\nb1 t base 2\n1, 'a'\n2, 'b'\n";

/// No row of column v.
const NO_V: &[u8] = b"\x00\x00\x00\x0a\x82\x00\x01\x00\x01v\x00\x00\x00\x00";

/// The text 'a' in column v.
const V_A: &[u8] = b"\x00\x00\x00\x10\x82\x00\x01\x00\x01v\x00\x00\x00\x01\x02\x00\x00\x00\x01a";

/// 5 in column v.
const V_5: &[u8] = b"\x00\x00\x00\x13\x82\x00\x01\x00\x01v\x00\x00\x00\x01\
\x01\x00\x00\x00\x00\x00\x00\x00\x05";

/// 6 in column v.
const V_6: &[u8] = b"\x00\x00\x00\x13\x82\x00\x01\x00\x01v\x00\x00\x00\x01\
\x01\x00\x00\x00\x00\x00\x00\x00\x06";

/// 6 and 8 in column v.
const V_6_8: &[u8] = b"\x00\x00\x00\x1c\x82\x00\x01\x00\x01v\x00\x00\x00\x02\
\x01\x00\x00\x00\x00\x00\x00\x00\x06\x01\x00\x00\x00\x00\x00\x00\x00\x08";

/// Two hits and two misses of the result cache.
const COUNTS_2_2: &[u8] = b"\x00\x00\x00\x11\x83\
\x00\x00\x00\x00\x00\x00\x00\x02\x00\x00\x00\x00\x00\x00\x00\x02";

/// Two hits and four misses of the result cache.
const COUNTS_2_4: &[u8] = b"\x00\x00\x00\x11\x83\
\x00\x00\x00\x00\x00\x00\x00\x02\x00\x00\x00\x00\x00\x00\x00\x04";

/// Whether this is the login of the backend's last call.
fn has_login<B: Backend>(backend: &B, login: &[u8]) -> bool {
    backend
        .login()
        .map_or(false, |last| Text::as_slice(last) == login)
}

#[test]
fn both_backends_have_the_rows_of_a_session(rt: HostRuntime) -> Result<(), Fail> {
    let alloc = rt.alloc();
    let (one, other) = (MemBackend::new(alloc), MemBackend::new(alloc));
    let talk = Talk {
        sent: &[
            Query("CREATE TABLE t (k INTEGER PRIMARY KEY, v TEXT)"),
            Query("INSERT INTO t VALUES (1, 'a'), (2, 'b')"),
            Query("SELECT * FROM t ORDER BY k DESC"),
        ],
        replies: &[DONE_0, DONE_2, TWO_ROWS],
    };
    let shown = b"b0 enabled position=2 asks=1 begun=0 faults=0 login=l0\n\
b1 enabled position=2 asks=0 begun=0 faults=0 login=l1\n";
    let steps = [
        Step::Session(talk),
        Step::Audit(Ok(TWO_ROWS_TWICE)),
        Step::ShowBackends(shown),
    ];
    let backends = play(&rt, alloc, one, other, Vec::new(alloc), &steps)?;
    let [one, other] = backends.as_slice() else {
        panic!(rt; "other than two backends")
    };
    assert!(rt; has_login(one, b"l0") && has_login(other, b"l1"));
    Ok(())
}

#[test]
fn an_answer_is_kept_until_its_table_changes(rt: HostRuntime) -> Result<(), Fail> {
    let alloc = rt.alloc();
    let (one, other) = (MemBackend::new(alloc), MemBackend::new(alloc));
    let talk = Talk {
        sent: &[
            Query("CREATE TABLE t (k INTEGER PRIMARY KEY, v TEXT)"),
            Query("SELECT v FROM t"),
            Query("SELECT v FROM t"),
            Query("SELECT v FROM t"),
            Query("INSERT INTO t VALUES (1, 'a')"),
            Query("SELECT v FROM t"),
            Stats,
        ],
        replies: &[DONE_0, NO_V, NO_V, NO_V, DONE_1, V_A, COUNTS_2_2],
    };
    let steps = [Step::Session(talk), Step::ShowCache(2, 2)];
    let backends = play(&rt, alloc, one, other, Vec::new(alloc), &steps)?;
    let [one, other] = backends.as_slice() else {
        panic!(rt; "other than two backends")
    };
    assert!(rt; one.counts().asks == 1 && other.counts().asks == 1);
    Ok(())
}

#[test]
fn each_answer_is_a_backends_own_or_was_kept(rt: HostRuntime) -> Result<(), Fail> {
    let alloc = rt.alloc();
    let one = Wrong::new(alloc, MemBackend::new(alloc), false);
    let other = Wrong::new(alloc, MemBackend::new(alloc), true);
    let talk = Talk {
        sent: &[
            Query("CREATE TABLE t (k INTEGER PRIMARY KEY, v INTEGER)"),
            Query("INSERT INTO t VALUES (1, 5)"),
            Query("SELECT v FROM t"),
            Query("SELECT v FROM t"),
            Query("SELECT v FROM t WHERE k = 1"),
            Query("SELECT v FROM t WHERE k = 1"),
            Query("SELECT v FROM t LIMIT 1"),
            Query("INSERT INTO t VALUES (2, 7)"),
            Query("SELECT v FROM t"),
            Stats,
        ],
        replies: &[
            DONE_0, DONE_1, V_5, V_5, V_6, V_6, V_5, DONE_1, V_6_8, COUNTS_2_4,
        ],
    };
    let steps = [Step::Session(talk)];
    let backends = play(&rt, alloc, one, other, Vec::new(alloc), &steps)?;
    let [one, other] = backends.as_slice() else {
        panic!(rt; "other than two backends")
    };
    assert!(rt; one.counts().asks == 2 && other.counts().asks == 2);
    Ok(())
}

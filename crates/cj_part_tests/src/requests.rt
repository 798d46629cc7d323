//! What is made of a request: its text, its tables, and values in place of its calls.

use crate::given::{request, spelled};
use cj_macro::rewrite;
use cj_outside::ListDraw;
use cj_print::write_sql;
use cj_sql::read;
use cj_usage::needs;
use std::process::Abort;
use std::test::Fail;

#[test]
fn a_request_is_written(rt: HostRuntime) -> Result<(), Fail> {
    let alloc = rt.alloc();
    let given = request(
        &rt,
        alloc,
        "select v,k from t where not(k=1 or v='it''s') order by v desc limit 3;",
    );
    let Ok(text) = write_sql(alloc, &given) else {
        panic!(&rt; "write_sql")
    };
    let wanted = "SELECT v, k FROM t WHERE NOT (k = 1 OR v = 'it''s') ORDER BY v DESC LIMIT 3";
    assert!(rt; text.as_slice() == wanted.as_bytes());
    Ok(())
}

#[test]
fn a_request_needs_its_tables(rt: HostRuntime) -> Result<(), Fail> {
    let alloc = rt.alloc();
    let given = request(&rt, alloc, "SELECT * FROM t, a WHERE t.k = a.k");
    let Ok(set) = needs(alloc, &given) else {
        panic!(&rt; "needs")
    };
    assert!(rt; spelled(alloc, set.as_slice())?.as_slice() == "a t ".as_bytes());
    Ok(())
}

#[test]
fn calls_are_replaced_by_the_moment_and_the_draws(rt: HostRuntime) -> Result<(), Fail> {
    let alloc = rt.alloc();
    let Ok(given) = read(alloc, b"INSERT INTO t VALUES (NOW(), NOW(), RAND(6))") else {
        panic!(&rt; "read")
    };
    let mut draws = ListDraw::new(Vec::from_array(alloc, [4])?);
    let Ok(text) = write_sql(alloc, &rewrite(given, 1_700_000_000, &mut draws)) else {
        panic!(&rt; "write_sql")
    };
    let wanted = "INSERT INTO t VALUES (1700000000, 1700000000, 4)";
    assert!(rt; text.as_slice() == wanted.as_bytes());
    Ok(())
}

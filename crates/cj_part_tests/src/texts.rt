//! Texts that read, and texts that don't.

use cj_sql::{SqlError, read};
use std::alloc::Global;
use std::test::Fail;

fn reads(alloc: Global, text: &str) -> bool {
    read(alloc, text.as_bytes()).is_ok()
}

/// Whether the text is refused as SYNTAX; memory that runs out doesn't count.
fn is_syntax(alloc: Global, text: &str) -> bool {
    matches!(read(alloc, text.as_bytes()), Err(SqlError::Syntax))
}

/// A text of a first part, `count` times another with a part between each two, and a last part.
fn repeated(
    alloc: Global,
    first: &str,
    part: &str,
    between: &str,
    count: usize,
    last: &str,
) -> Result<String, Fail> {
    let mut text = String::from_str(alloc, first)?;
    for at in 0..count {
        if at > 0 {
            text.push_str(between)?;
        }
        text.push_str(part)?;
    }
    text.push_str(last)?;
    Ok(text)
}

const READ: [&str; 33] = [
    "CREATE TABLE t (k INTEGER PRIMARY KEY, v TEXT)",
    // what the tables refuse reads
    "create table t (k integer);",
    "CREATE TABLE t (k INTEGER PRIMARY KEY, k TEXT PRIMARY KEY)",
    "DROP TABLE t;",
    "INSERT INTO t VALUES (1, -2, 'it''s', NOW(), RAND(6))",
    "INSERT INTO t (v, k, v) VALUES ('a', 1), ('b'), (3, 4, 5)",
    "INSERT INTO t VALUES (9223372036854775807, -9223372036854775808, -0, 007)",
    "UPDATE t SET v = 1",
    "UPDATE t SET v = t.v + 1, w = 2 - NOW(), v = - 1 - -1 WHERE k = 1;",
    "DELETE FROM t",
    "DELETE FROM t WHERE k <> 1 AND k != 2 AND k < 3 AND k <= 4 AND k > 5 AND k >= RAND(9)",
    "SELECT * FROM t",
    "SELECT k, t.v FROM t",
    "SELECT COUNT(*) FROM t",
    "SELECT SUM(v), SUM(t.v), COUNT(*), k FROM t GROUP BY k",
    "SELECT k FROM t GROUP BY t.k ORDER BY k DESC, t.v ASC, w LIMIT 0",
    "SELECT a.k, v FROM a, c WHERE (a.k = c.k OR NOT v < -1) AND v <> 'it''s' ORDER BY v DESC LIMIT 3",
    "SELECT * FROM a, b, c, d ORDER BY a, b, c, d",
    "SELECT * FROM t LIMIT 9223372036854775807",
    "SELECT * FROM t WHERE NOT NOT ((1 = 1))",
    "SELECT * FROM t WHERE NOT (a = 1 AND b = 2) OR c = 3 AND NOT d = 4",
    "SELECT * FROM t WHERE 'a' = v AND NOW() = 1 AND RAND(1) = -1 AND a.b = c.d",
    "SELECT*FROM t WHERE(a=1)AND(b=2)",
    "BEGIN",
    "COMMIT;",
    "ROLLBACK ;",
    " \t\r\nBeGiN\n",
    "SELECT _ FROM __",
    "INSERT INTO t VALUES (RAND(9223372036854775807))",
    "INSERT INTO t VALUES (NOW ( ) , RAND ( 1 ))",
    "SELECT COUNT ( * ) , SUM ( a . b ) FROM t",
    "SELECT SUM(a) FROM t WHERE a = 1 GROUP BY b LIMIT 1",
    "INSERT INTO t VALUES ('')",
];

#[test]
fn statements_read(rt: HostRuntime) -> Result<(), Fail> {
    for text in READ {
        assert!(rt; reads(rt.alloc(), text));
    }
    Ok(())
}

const REFUSED: [&str; 44] = [
    "",
    ";",
    "BEGIN;;",
    "BEGIN COMMIT",
    "CREATE TABLE t ()",
    "CREATE TABLE t (k)",
    "CREATE TABLE t (k INTEGER PRIMARY)",
    "CREATE TABLE t (k INTEGER,)",
    "CREATE TABLE t k INTEGER",
    "DROP t",
    "DROP TABLE t, u",
    "INSERT INTO t VALUES ()",
    "INSERT INTO t VALUES",
    "INSERT INTO t () VALUES (1)",
    "INSERT INTO t (t.k) VALUES (1)",
    "INSERT INTO t VALUES (k)",
    "INSERT INTO t VALUES (1 + 1)",
    "INSERT INTO t VALUES (9223372036854775808)",
    "INSERT INTO t VALUES (-9223372036854775809)",
    "INSERT INTO t VALUES (RAND(0))",
    "INSERT INTO t VALUES (RAND(9223372036854775808))",
    "INSERT INTO t VALUES (RAND(-1))",
    "INSERT INTO t VALUES (- -1)",
    "UPDATE t",
    "UPDATE t SET t.v = 1",
    "UPDATE t SET v = 1 + 2 + 3",
    "UPDATE t SET v = (1)",
    "UPDATE t SET v = 1 WHERE",
    "DELETE t",
    "DELETE FROM t WHERE k",
    "DELETE FROM t WHERE k = 1 = 2",
    "DELETE FROM t WHERE (k) = 1",
    "DELETE FROM t WHERE k = 1 + 1",
    "DELETE FROM t WHERE (k = 1",
    "DELETE FROM t WHERE k = 1 AND",
    "SELECT FROM t",
    "SELECT *, k FROM t",
    "SELECT * FROM t, t",
    "SELECT * FROM a, b, c, d, e",
    "SELECT COUNT(*) FROM a, b",
    "SELECT SUM(k), a FROM a, b",
    "SELECT * FROM a, b GROUP BY k",
    "SELECT * FROM t LIMIT 9223372036854775808",
    "SELECT * FROM t ORDER BY k LIMIT 1 WHERE k = 1",
];

#[test]
fn other_texts_are_syntax(rt: HostRuntime) -> Result<(), Fail> {
    for text in REFUSED {
        assert!(rt; is_syntax(rt.alloc(), text));
    }
    Ok(())
}

/// The first part, a part that comes again, what comes between two, the last part, and how often the part may come.
const LIMITS: [(&str, &str, &str, &str, usize); 14] = [
    ("CREATE TABLE t (", "k TEXT", ",", ")", 16),
    ("INSERT INTO t (", "k", ",", ") VALUES (1)", 16),
    ("INSERT INTO t VALUES (", "1", ",", ")", 16),
    ("INSERT INTO t VALUES ", "(1)", ",", "", 4096),
    ("UPDATE t SET ", "v = 1", ",", "", 16),
    ("SELECT ", "k", ",", " FROM t", 16),
    ("SELECT * FROM t ORDER BY ", "k", ",", "", 4),
    ("DELETE FROM t WHERE ", "k = 1", " AND ", "", 256),
    ("DELETE FROM t WHERE ", "k = 1", " OR ", "", 256),
    ("DELETE FROM t WHERE ", "NOT ", "", "k = 1", 64),
    ("DELETE FROM t WHERE ", "(k = 1 OR k = 2)", " AND ", "", 128),
    // the bytes of a name and of a literal, in which two quotes are one
    ("DROP TABLE ", "t", "", "", 32),
    ("INSERT INTO t VALUES ('", "v", "", "')", 4096),
    ("INSERT INTO t VALUES ('", "''", "", "')", 4096),
];

#[test]
fn each_limit_is_exact(rt: HostRuntime) -> Result<(), Fail> {
    let alloc = rt.alloc();
    for (first, part, between, last, count) in LIMITS {
        let most = repeated(alloc, first, part, between, count, last)?;
        assert!(rt; reads(alloc, most.as_str()));
        let more = repeated(alloc, first, part, between, count.wrapping_add(1), last)?;
        assert!(rt; is_syntax(alloc, more.as_str()));
    }
    Ok(())
}

/// A condition in so many NOTs and as many pairs of parentheses.
fn nested(alloc: Global, count: usize) -> Result<String, Fail> {
    let mut text = repeated(alloc, "DELETE FROM t WHERE ", "NOT (", "", count, "k = 1")?;
    for _at in 0..count {
        text.push_str(")")?;
    }
    Ok(text)
}

#[test]
fn nots_and_parentheses_are_counted_together(rt: HostRuntime) -> Result<(), Fail> {
    let alloc = rt.alloc();
    assert!(rt; reads(alloc, nested(alloc, 32)?.as_str()));
    assert!(rt; is_syntax(alloc, nested(alloc, 33)?.as_str()));
    Ok(())
}

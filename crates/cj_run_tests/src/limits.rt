//! The most bytes of an answer, the most open sessions, and the most rows of a table.

use crate::handed::{
    C1, CREATE, DONE_0, DONE_1, Handed, MIXED, accepted, check_pipe, query, session,
};
use std::alloc::Global;
use std::process::Abort;
use std::test::Fail;

/// The refusal of an answer of 1,201,510 bytes: 10 before the rows, and 4,005 a row.
const TOO_LARGE: &[u8] =
    b"\x00\x00\x00\x13\x8f\x00\x1e\x00\x00\x00\x00\x00\x12\x55\x66\x00\x00\x00\x00\x00\x00\x00\x00";

#[test]
fn a_long_answer_is_refused(rt: HostRuntime) -> Result<(), Fail> {
    let alloc = rt.alloc();
    let mut input = session(alloc, &[CREATE])?;
    let mut output = accepted(alloc, &[DONE_0])?;
    let mut text = String::new(alloc);
    for _ in 0..4000 {
        text.push('x')?;
    }
    for key in 0..300u32 {
        let insert = format!(in alloc; "INSERT INTO t VALUES ({key}, '{text}')")?;
        query(&mut input, insert.as_str())?;
        output.extend_from_slice(DONE_1)?;
    }
    query(&mut input, "SELECT v FROM t")?;
    output.extend_from_slice(TOO_LARGE)?;
    check_pipe(&rt, C1, &input, &output, 0)
}

#[test]
fn no_more_than_1024_sessions_are_open(rt: HostRuntime) -> Result<(), Fail> {
    let alloc = rt.alloc();
    let mut input = Vec::new(alloc);
    for _ in 0..1025 {
        input.extend_from_slice(b"open ann\n")?;
    }
    let mut handed = Handed::of(alloc, C1, &input)?;
    assert_eq!(rt; handed.run(alloc, "script c1.toml")?, 0);
    assert!(rt;
        handed
            .output()
            .ends_with(b"session 1024\nrefused 46 1024 0\n")
    );
    Ok(())
}

/// What `script` writes for this input.
fn played(alloc: Global, script: &str) -> Result<Vec<u8>, Fail> {
    let mut handed = Handed::of(alloc, MIXED, script.as_bytes())?;
    let _status = handed.run(alloc, "script c1.toml")?;
    Ok(handed.output().to_vec(alloc)?)
}

fn is_query(statement: &str) -> bool {
    statement.starts_with("SELECT")
}

/// Moves, the lines that they give, and the number of the next entry.
#[derive(Drop)]
struct Script {
    moves: String,
    given: String,
    entry: u64,
}

impl Script {
    /// Session 1 is opened.
    fn begun(alloc: Global) -> Result<Script, Fail> {
        Ok(Script {
            moves: String::from_str(alloc, "open ann\n")?,
            given: String::from_str(alloc, "session 1\n")?,
            entry: 1,
        })
    }

    /// Appends the moves by which session 1 has the statement carried out.
    fn push_moves(&mut self, statement: &str) -> Result<(), Fail> {
        let (first, last) = if is_query(statement) {
            ("read 1 b0 ", "\n")
        } else {
            ("write 1 ", "\napply b0\napply b1\nend\n")
        };
        self.moves.push_str(first)?;
        self.moves.push_str(statement)?;
        self.moves.push_str(last)?;
        Ok(())
    }

    /// Appends the lines that the moves of `push_moves` give for this outcome of the statement.
    fn push_given(&mut self, alloc: Global, statement: &str, outcome: &str) -> Result<(), Fail> {
        let entry = self.entry;
        let lines = if is_query(statement) {
            format!(in alloc; "{outcome}\n")?
        } else {
            format!(in alloc; "entry {entry}\nb0 {outcome}\nb1 {outcome}\nreply 1 {outcome}\n")?
        };
        if !is_query(statement) {
            self.entry = entry.wrapping_add(1);
        }
        self.given.push_str(lines.as_str())?;
        Ok(())
    }
}

/// Plays the script and the statements after it, and compares what is written.
fn check_cases(
    rt: &(impl Abort + AllocGlobal),
    mut script: Script,
    cases: &[(&str, &str)],
) -> Result<(), Fail> {
    let alloc = rt.alloc();
    for (statement, _outcome) in cases {
        script.push_moves(statement)?;
    }
    let written = played(alloc, script.moves.as_str())?;
    for (statement, outcome) in cases {
        script.push_given(alloc, statement, outcome)?;
        assert!(rt;
            written.as_slice().starts_with(script.given.as_bytes()),
            "{statement}"
        );
    }
    assert_eq!(rt; written.len(), script.given.len());
    Ok(())
}

/// An INSERT of 4,096 rows, with keys from the first one on.
fn many_rows(alloc: Global, first: u64) -> Result<String, Fail> {
    let mut statement = String::from_str(alloc, "INSERT INTO t VALUES ")?;
    for at in 0..4096u64 {
        let between = if at == 0 { "" } else { "," };
        let key = first.wrapping_add(at);
        statement.push_str(format!(in alloc; "{between}({key})")?.as_str())?;
    }
    Ok(statement)
}

const CREATE_KEYS: &str = "CREATE TABLE t (k INTEGER PRIMARY KEY)";

/// A table of 65,536 rows.
const FULL: &[(&str, &str)] = &[
    ("SELECT COUNT(*) FROM t", "rows 1\n65536"),
    ("INSERT INTO t VALUES (65536)", "refused 29 65537 0"),
    ("INSERT INTO t VALUES (-1), (70000)", "refused 29 65538 0"),
    // a key that is there comes before too many rows
    ("INSERT INTO t VALUES (65536), (7)", "refused 27 0 0"),
    ("DELETE FROM t WHERE k = 5", "done 1"),
    ("INSERT INTO t VALUES (-1), (70000)", "refused 29 65537 0"),
    ("INSERT INTO t VALUES (-1)", "done 1"),
    ("SELECT k FROM t LIMIT 2", "rows 2\n-1\n0"),
    ("SELECT k FROM t ORDER BY k DESC LIMIT 1", "rows 1\n65535"),
    ("SELECT COUNT(*) FROM t", "rows 1\n65536"),
];

#[test]
fn a_table_has_at_most_65536_rows(rt: HostRuntime) -> Result<(), Fail> {
    let alloc = rt.alloc();
    let mut script = Script::begun(alloc)?;
    script.push_moves(CREATE_KEYS)?;
    script.push_given(alloc, CREATE_KEYS, "done 0")?;
    for part in 0..16u64 {
        let statement = many_rows(alloc, part.wrapping_mul(4096))?;
        script.push_moves(statement.as_str())?;
        script.push_given(alloc, statement.as_str(), "done 4096")?;
    }
    check_cases(&rt, script, FULL)
}

//! What commands are handed, and the frames of a session, with bytes that were worked out by hand from
//! docs/FORMATS.md.

use cj_outside::{FixedClock, MemSink, MemSource, MemStore};
use cj_top::run;
use std::alloc::Global;
use std::process::Abort;
use std::test::Fail;

/// A configuration in which every table is on both of two backends in memory, and there is one user.
pub const C1: &str = r#"level = "raidb1"
cache = 64
backends = [{ name = "b0", kind = "memory" }, { name = "b1", kind = "memory" }]
users = [{ name = "ann", sha256 = "2bb80d537b1da3e38bd30361aa855686bde0eacd7162fef6a25fe97bf527a25b", logins = ["l0", "l1"] }]
"#;

/// A configuration in which every table is on a SQLite database and on one backend in memory.
pub const MIXED: &str = r#"level = "raidb1"
cache = 64
backends = [{ name = "b0", kind = "sqlite" }, { name = "b1", kind = "memory" }]
users = [{ name = "ann", sha256 = "2bb80d537b1da3e38bd30361aa855686bde0eacd7162fef6a25fe97bf527a25b", logins = ["l0", "l1"] }]
"#;

/// The Login of the one user.
pub const LOGIN: &[u8] = b"\x00\x00\x00\x0e\x01\x00\x03ann\x00\x06secret";

/// A statement that makes table `t`.
pub const CREATE: &str = "CREATE TABLE t (k INTEGER PRIMARY KEY, v TEXT)";

/// A statement that adds the row (1, 'a').
pub const INSERT: &str = "INSERT INTO t VALUES (1, 'a')";

/// A statement that adds the rows (1, 'a') and (2, 'b').
pub const INSERT_TWO: &str = "INSERT INTO t VALUES (1, 'a'), (2, 'b')";

/// A query for all rows of table `t`, in falling key.
pub const SELECT_FALLING: &str = "SELECT * FROM t ORDER BY k DESC";

/// The reply that no row was changed.
pub const DONE_0: &[u8] = b"\x00\x00\x00\x09\x81\x00\x00\x00\x00\x00\x00\x00\x00";

/// The reply that one row was changed.
pub const DONE_1: &[u8] = b"\x00\x00\x00\x09\x81\x00\x00\x00\x00\x00\x00\x00\x01";

/// The reply that two rows were changed.
pub const DONE_2: &[u8] = b"\x00\x00\x00\x09\x81\x00\x00\x00\x00\x00\x00\x00\x02";

/// The rows (2, 'b') and (1, 'a') of columns k and v.
pub const TWO_ROWS: &[u8] =
    b"\x00\x00\x00\x2b\x82\x00\x02\x00\x01k\x00\x01v\x00\x00\x00\x02\x01\x00\x00\x00\x00\x00\x00\x00\x02\x02\x00\x00\x00\x01b\x01\x00\x00\x00\x00\x00\x00\x00\x01\x02\x00\x00\x00\x01a";

/// Appends the frame of a Query.
pub fn query(input: &mut Vec<u8>, text: &str) -> Result<(), Fail> {
    let size = u32::try_from(text.len()).unwrap_or(0).wrapping_add(1);
    input.extend_from_slice(&size.to_be_bytes())?;
    input.push(2)?;
    input.extend_from_slice(text.as_bytes())?;
    Ok(())
}

/// The frames of a Login and of these statements.
pub fn session(alloc: Global, statements: &[&str]) -> Result<Vec<u8>, Fail> {
    let mut input = LOGIN.to_vec(alloc)?;
    for text in statements {
        query(&mut input, text)?;
    }
    Ok(input)
}

/// The reply to an accepted Login, and these replies.
pub fn accepted(alloc: Global, replies: &[&[u8]]) -> Result<Vec<u8>, Fail> {
    let mut output = DONE_0.to_vec(alloc)?;
    for reply in replies {
        output.extend_from_slice(reply)?;
    }
    Ok(output)
}

fn words(alloc: Global, text: &str) -> Result<Vec<String>, Fail> {
    let mut words = Vec::new(alloc);
    for word in text.split(' ').filter(|word| !word.is_empty()) {
        words.push(String::from_str(alloc, word)?)?;
    }
    Ok(words)
}

/// An empty sink whose calls of these numbers fail.
pub fn sink(alloc: Global, fails: &[u64]) -> Result<MemSink, Fail> {
    Ok(MemSink::new(Vec::new(alloc), fails.to_vec(alloc)?))
}

/// What a command is handed.
#[derive(Drop)]
pub struct Handed {
    pub conf: MemStore,
    /// The bytes of the log that each command opens.
    pub log: Vec<u8>,
    pub input: MemSource,
    pub output: MemSink,
    pub errors: MemSink,
}

impl Handed {
    /// Objects with this configuration and this input; no call fails.
    pub fn of(alloc: Global, conf: &str, input: &[u8]) -> Result<Handed, Fail> {
        Ok(Handed {
            conf: MemStore::new(conf.as_bytes().to_vec(alloc)?, Vec::new(alloc)),
            log: Vec::new(alloc),
            input: MemSource::new(input.to_vec(alloc)?, Vec::new(alloc)),
            output: sink(alloc, &[])?,
            errors: sink(alloc, &[])?,
        })
    }

    /// Objects with this log and this input; no call fails.
    pub fn over(alloc: Global, log: &[u8], input: &[u8]) -> Result<Handed, Fail> {
        let mut handed = Handed::of(alloc, C1, input)?;
        handed.log = log.to_vec(alloc)?;
        Ok(handed)
    }

    /// Runs the command at the moment 1700000000, and returns its status.
    pub fn run(&mut self, alloc: Global, command: &str) -> Result<u8, Fail> {
        let words = words(alloc, command)?;
        let clock = FixedClock::new(1_700_000_000);
        let log = MemStore::new(self.log.to_vec(alloc)?, Vec::new(alloc));
        let ended = run(
            alloc,
            &words,
            &mut self.conf,
            log,
            &mut self.input,
            &mut self.output,
            &mut self.errors,
            &clock,
        );
        Ok(ended.status)
    }

    /// What the command wrote to its output.
    pub fn output(&self) -> &[u8] {
        self.output.content()
    }

    /// What the command wrote to its errors.
    pub fn errors(&self) -> &[u8] {
        self.errors.content()
    }
}

/// Runs `pipe` over the input, and compares its status and what it writes.
pub fn check_pipe(
    rt: &(impl Abort + AllocGlobal),
    conf: &str,
    input: &[u8],
    output: &[u8],
    status: u8,
) -> Result<(), Fail> {
    let mut handed = Handed::of(rt.alloc(), conf, input)?;
    assert_eq!(rt; handed.run(rt.alloc(), "pipe c1.toml")?, status);
    assert_eq!(rt; handed.output(), output);
    assert_eq!(rt; handed.errors().len(), 0);
    Ok(())
}

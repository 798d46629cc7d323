//! Random statements, as frames.

use cj_model::NoMemory;
use cj_outside::{Draw, PcgDraw};
use std::alloc::Global;

/// So many tables there are, and so many keys are used in each.
const TABLES: u64 = 4;

const KEYS: u64 = 24;

/// So many statements a session has.
const STATEMENTS: u64 = 40;

/// So many changes has one that only changes a table.
const CHANGES: u64 = 4;

/// The frame of Login of `ann`.
const LOGIN: &[u8] = b"\x00\x00\x00\x0e\x01\x00\x03ann\x00\x06secret";

/// The frame of a Login, after which others are appended.
pub fn login(alloc: Global) -> Result<Vec<u8>, NoMemory> {
    Ok(LOGIN.to_vec(alloc)?)
}

/// Appends the frame of a Query.
pub fn append_query(frames: &mut Vec<u8>, text: &str) -> Result<(), NoMemory> {
    let length = u32::try_from(text.len()).unwrap_or(0).wrapping_add(1);
    frames.extend_from_slice(&length.to_be_bytes())?;
    frames.push(2)?;
    frames.extend_from_slice(text.as_bytes())?;
    Ok(())
}

/// Draws a statement that changes a table or reads it.
fn drawn_of_table(alloc: Global, draw: &mut PcgDraw) -> Result<String, NoMemory> {
    let t = draw.below(TABLES);
    let k = draw.below(KEYS);
    let v = draw.below(1000);
    let text = match draw.below(20) {
        0 => format!(in alloc; "CREATE TABLE t{t} (k INTEGER PRIMARY KEY, v INTEGER)")?,
        1 | 2 | 3 => format!(in alloc; "INSERT INTO t{t} VALUES ({k}, {v})")?,
        4 | 5 | 6 => format!(in alloc; "UPDATE t{t} SET v = v + {v} WHERE k = {k}")?,
        7 => format!(in alloc; "UPDATE t{t} SET v = v + 1")?,
        8 => format!(in alloc; "DELETE FROM t{t} WHERE k = {k}")?,
        9 | 10 | 11 | 12 => format!(in alloc; "SELECT v FROM t{t} WHERE k = {k}")?,
        _ => format!(in alloc; "SELECT * FROM t{t}")?,
    };
    Ok(text)
}

/// Draws a statement. Some begin or end a transaction.
fn drawn_statement(alloc: Global, draw: &mut PcgDraw) -> Result<String, NoMemory> {
    let text = match draw.below(32) {
        0 | 1 => String::from_str(alloc, "BEGIN")?,
        2 | 3 | 4 => String::from_str(alloc, "COMMIT")?,
        5 => String::from_str(alloc, "ROLLBACK")?,
        _ => drawn_of_table(alloc, draw)?,
    };
    Ok(text)
}

/// Draws a statement that changes a row.
pub fn drawn_update(alloc: Global, draw: &mut PcgDraw) -> Result<String, NoMemory> {
    let t = draw.below(TABLES);
    let k = draw.below(KEYS);
    Ok(format!(in alloc; "UPDATE t{t} SET v = v + 7 WHERE k = {k}")?)
}

/// Draws the frames of a session: Login, and then statements.
pub fn drawn_session(alloc: Global, draw: &mut PcgDraw) -> Result<Vec<u8>, NoMemory> {
    let mut frames = login(alloc)?;
    for _ in 0..STATEMENTS {
        let text = drawn_statement(alloc, draw)?;
        append_query(&mut frames, text.as_str())?;
    }
    Ok(frames)
}

/// The frames of a session that makes the tables, with a row in each.
pub fn tables(alloc: Global) -> Result<Vec<u8>, NoMemory> {
    let mut frames = login(alloc)?;
    for t in 0..TABLES {
        let create = format!(in alloc; "CREATE TABLE t{t} (k INTEGER PRIMARY KEY, v INTEGER)")?;
        append_query(&mut frames, create.as_str())?;
        let insert = format!(in alloc; "INSERT INTO t{t} VALUES (0, {t})")?;
        append_query(&mut frames, insert.as_str())?;
    }
    Ok(frames)
}

/// The frames of a session that looks up each key of `t0`. They are more than the answers that the cache keeps.
pub fn lookups(alloc: Global) -> Result<Vec<u8>, NoMemory> {
    let mut frames = login(alloc)?;
    for k in 0..KEYS {
        let text = format!(in alloc; "SELECT v FROM t0 WHERE k = {k}")?;
        append_query(&mut frames, text.as_str())?;
    }
    Ok(frames)
}

/// The frames of a session that changes `t2` again and again.
pub fn changes(alloc: Global) -> Result<Vec<u8>, NoMemory> {
    let mut frames = login(alloc)?;
    for _ in 0..CHANGES {
        append_query(&mut frames, "UPDATE t2 SET v = v + 1")?;
    }
    Ok(frames)
}

/// The frames of a session with one statement.
pub fn session_of(alloc: Global, text: &str) -> Result<Vec<u8>, NoMemory> {
    let mut frames = login(alloc)?;
    append_query(&mut frames, text)?;
    Ok(frames)
}

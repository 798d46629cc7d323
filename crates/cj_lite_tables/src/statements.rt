//! The SQLite statements that store a table. Tables and columns have prefixes in SQLite, so that no name is
//! one of its words; values are parameters.

use crate::error::LiteError;
use cj_model::{Column, Kind, Name, Schema};
use sqlite::{Connection, MemStore, Statement};
use std::alloc::Global;
use std::marker::Model;

/// A prepared statement, of which contracts see nothing.
pub struct Prepared {
    statement: Statement,
}

impl Model for Prepared {
    ghost Value = { Unit {0} };

    ghost view = { λ _. tt };
}

// Written out, so that a caller does not prove again how each part is dropped.
impl Drop for Prepared {
    fn drop(self) {
        let Prepared { statement: _ } = self;
    }
}

/// The statements that a table needs again and again, prepared once.
pub struct Statements {
    /// Puts a row, in place of the one with its key.
    pub put: Prepared,
    /// Removes the row of a key.
    pub remove: Prepared,
    /// Gives the row of a key.
    pub find: Prepared,
    /// Gives the rows from a key on, in rising key.
    pub scan: Prepared,
}

// Written out, so that a caller does not prove again how each part is dropped.
impl Drop for Statements {
    fn drop(self) {
        let Statements {
            put: _,
            remove: _,
            find: _,
            scan: _,
        } = self;
    }
}

fn push_table(out: &mut Vec<u8>, words: &[u8], table: &Name) -> Result<(), LiteError> {
    out.extend_from_slice(words)?;
    out.extend_from_slice(b"t_")?;
    out.extend_from_slice(table.as_slice())?;
    Ok(())
}

fn push_column(out: &mut Vec<u8>, words: &[u8], column: &Name) -> Result<(), LiteError> {
    out.extend_from_slice(words)?;
    out.extend_from_slice(b"c_")?;
    out.extend_from_slice(column.as_slice())?;
    Ok(())
}

fn kind_words(kind: Kind) -> &'static [u8] {
    match kind {
        Kind::Integer => b" INTEGER NOT NULL",
        Kind::Text => b" TEXT NOT NULL",
    }
}

fn push_definition(out: &mut Vec<u8>, column: &Column, is_key: bool) -> Result<(), LiteError> {
    push_column(out, b"", &column.name)?;
    out.extend_from_slice(kind_words(column.kind))?;
    if is_key {
        out.extend_from_slice(b" PRIMARY KEY")?;
    }
    Ok(())
}

/// `CREATE TABLE t_name (c_column ..) STRICT`
fn create_words(alloc: Global, schema: &Schema) -> Result<Vec<u8>, LiteError> {
    let mut out = Vec::new(alloc);
    push_table(&mut out, b"CREATE TABLE ", &schema.table)?;
    out.extend_from_slice(b" (")?;
    for (place, column) in schema.columns.as_slice().iter().enumerate() {
        if place > 0 {
            out.extend_from_slice(b", ")?;
        }
        push_definition(&mut out, column, place == usize::from(schema.key))?;
    }
    out.extend_from_slice(b") STRICT")?;
    Ok(out)
}

/// `INSERT OR REPLACE INTO t_name VALUES (?, ..)`
fn put_words(alloc: Global, schema: &Schema) -> Result<Vec<u8>, LiteError> {
    let mut out = Vec::new(alloc);
    push_table(&mut out, b"INSERT OR REPLACE INTO ", &schema.table)?;
    out.extend_from_slice(b" VALUES (")?;
    for place in 0..schema.columns.len() {
        if place > 0 {
            out.extend_from_slice(b", ")?;
        }
        out.extend_from_slice(b"?")?;
    }
    out.extend_from_slice(b")")?;
    Ok(out)
}

/// A statement of these words, the table's name, WHERE, the key's name and a last part.
fn key_words(
    alloc: Global,
    words: &[u8],
    schema: &Schema,
    key: &Name,
    last: &[u8],
) -> Result<Vec<u8>, LiteError> {
    let mut out = Vec::new(alloc);
    push_table(&mut out, words, &schema.table)?;
    push_column(&mut out, b" WHERE ", key)?;
    out.extend_from_slice(last)?;
    Ok(out)
}

/// `SELECT * FROM t_name WHERE c_key >= ? ORDER BY c_key`
fn scan_words(alloc: Global, schema: &Schema, key: &Name) -> Result<Vec<u8>, LiteError> {
    let mut out = key_words(alloc, b"SELECT * FROM ", schema, key, b" >= ? ORDER BY ")?;
    push_column(&mut out, b"", key)?;
    Ok(out)
}

fn run(conn: &mut Connection<MemStore>, words: &[u8]) -> Result<(), LiteError> {
    match std::str::from_utf8(words) {
        Ok(sql) => {
            conn.execute(sql, &[])?;
            Ok(())
        }
        Err(_) => Err(LiteError::Fault),
    }
}

impl Prepared {
    fn of_words(conn: &mut Connection<MemStore>, words: &[u8]) -> Result<Prepared, LiteError> {
        match std::str::from_utf8(words) {
            Ok(sql) => Ok(Prepared {
                statement: conn.prepare(sql)?,
            }),
            Err(_) => Err(LiteError::Fault),
        }
    }

    /// The statement of SQLite.
    pub fn as_statement(&self) -> &Statement {
        &self.statement
    }
}

fn prepare_put(
    alloc: Global,
    conn: &mut Connection<MemStore>,
    schema: &Schema,
) -> Result<Prepared, LiteError> {
    let words = put_words(alloc, schema)?;
    Prepared::of_words(conn, &words)
}

/// Prepares a statement of these words on the row of a key.
fn prepare_at_key(
    alloc: Global,
    conn: &mut Connection<MemStore>,
    words: &[u8],
    schema: &Schema,
    key: &Name,
) -> Result<Prepared, LiteError> {
    let words = key_words(alloc, words, schema, key, b" = ?")?;
    Prepared::of_words(conn, &words)
}

fn prepare_scan(
    alloc: Global,
    conn: &mut Connection<MemStore>,
    schema: &Schema,
    key: &Name,
) -> Result<Prepared, LiteError> {
    let words = scan_words(alloc, schema, key)?;
    Prepared::of_words(conn, &words)
}

impl Statements {
    /// Prepares the statements of a table that exists.
    fn prepare(
        alloc: Global,
        conn: &mut Connection<MemStore>,
        schema: &Schema,
    ) -> Result<Statements, LiteError> {
        let Some(Column { name: key, .. }) = schema.columns.as_slice().get(usize::from(schema.key))
        else {
            return Err(LiteError::Fault);
        };
        Ok(Statements {
            put: prepare_put(alloc, conn, schema)?,
            remove: prepare_at_key(alloc, conn, b"DELETE FROM ", schema, key)?,
            find: prepare_at_key(alloc, conn, b"SELECT * FROM ", schema, key)?,
            scan: prepare_scan(alloc, conn, schema, key)?,
        })
    }

    /// Creates a table in SQLite, whose name must not be in use there, and prepares its statements.
    pub fn create(
        alloc: Global,
        conn: &mut Connection<MemStore>,
        schema: &Schema,
    ) -> Result<Statements, LiteError> {
        let words = create_words(alloc, schema)?;
        run(conn, &words)?;
        Statements::prepare(alloc, conn, schema)
    }
}

/// Drops a table in SQLite.
pub fn drop_table(
    alloc: Global,
    conn: &mut Connection<MemStore>,
    table: &Name,
) -> Result<(), LiteError> {
    let mut words = Vec::new(alloc);
    push_table(&mut words, b"DROP TABLE ", table)?;
    run(conn, &words)
}

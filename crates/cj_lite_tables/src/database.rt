//! A database in SQLite. The engine decides what a statement means, over the rows that the statement may
//! concern. SQLite stores the rows, and finds them by key.

ghost use Rattle.std.specs.Prelude.{◌≡◌, ◌<◌, length, IfOk, IfSome};
ghost use Rattle.cj_model.specs.declared.request.Request.TheVariants as request;
ghost use Rattle.cj_model.specs.Sql.WrittenRequests.{IsWritten};
ghost use Rattle.cj_model.specs.Database.Outcomes.{IsOutcome, IsAsked};
ghost use Rattle.cj_model.specs.Database.Storable.{IsStorable, writers};
ghost use Rattle.cj_model.specs.Database.Tables.{IsDatabase};

use crate::error::LiteError;
use crate::loading::{loaded_tables, writers_in};
use crate::reading::tables_asked;
use crate::search::Search;
use crate::small::{add_draft, add_table, asked, schema_made};
use crate::statements::drop_table;
use crate::storable::are_storable;
use crate::table::{LiteTable, started};
use crate::writing::write_table;
use cj_model::{
    Asked, BAD_COLUMNS, Create, Db, LOCKED, NO_TABLE, Name, NoMemory, Outcome, Refusal, Schema,
    Select, TABLE_EXISTS, Write,
};
use cj_table::Tables;
use sqlite::{Connection, MemStore};
use std::alloc::Global;
use std::marker::Model;

/// A database of tables whose committed rows are in SQLite, in memory. Contracts see nothing of what it
/// holds.
///
/// Until a transaction is committed, its changes are kept beside SQLite as the drafts of tables, and laid
/// over the rows that SQLite gives. A table has the draft of one transaction at a time. The database does
/// not know which transactions are begun: a write makes a draft where there is none.
///
/// `Fault` means that SQLite refused a statement or gave back what was never stored. Each call may answer
/// `Fault` or `NoMemory`, except that `open` answers only `NoMemory`, and `abort` no error.
pub struct Database {
    alloc: Global,
    conn: Connection<MemStore>,
    tables: Vec<LiteTable>,
}

// Written out, so that a caller does not prove again how each part is dropped.
impl Drop for Database {
    fn drop(self) {
        let Database {
            alloc: _,
            conn: _,
            tables: _,
        } = self;
    }
}

impl Model for Database {
    ghost Value = { Unit {0} };

    ghost view = { λ _. tt };
}

fn table_written(write: &Write) -> &Name {
    match write {
        Write::Insert { table, .. } | Write::Update { table, .. } | Write::Delete { table, .. } =>
            table,
    }
}

fn place_of(tables: &[LiteTable], name: &Name) -> Option<usize>
    ensures { IfSome result (λ place. place < length tables.now) }
{
    tables.iter().position(|table| table.is_named(name))
}

fn refused(code: u16) -> Outcome
    ensures { result ≡ Outcome.Refused (record { code = code; a = 0; b = 0 }) }
{
    Outcome::Refused(Refusal::of_code(code))
}

/// Adds a table and its draft to a database of the engine.
fn add_whole(
    alloc: Global,
    conn: &mut Connection<MemStore>,
    table: &LiteTable,
    whole: &mut Tables,
) -> Result<(), LiteError> {
    let search = Search {
        cond: &None,
        key: 0,
        is_alone: true,
        limit: None,
    };
    let rows = table.rows(alloc, conn, 0, &search)?;
    add_table(alloc, whole, table.schema(), rows)?;
    let Some(tx) = table.writer() else {
        return Ok(());
    };
    let rows = table.rows(alloc, conn, tx, &search)?;
    add_draft(alloc, whole, tx, &table.schema().table, rows)
}

/// Makes the drafts of a transaction in SQLite: all of them or none.
fn run_drafts(
    alloc: Global,
    conn: &mut Connection<MemStore>,
    tables: &[LiteTable],
    tx: u64,
) -> Result<(), LiteError> {
    let mut transaction = started(conn)?;
    for table in tables {
        table.run_draft(alloc, &mut transaction, tx)?;
    }
    transaction.commit()?;
    Ok(())
}

/// The database as lists; a fault where it can't be stored.
fn stored(whole: &Tables) -> Result<Db, LiteError>
    ensures { IfOk result IsStorable }
{
    whole.legal();
    let db = whole.to_db()?;
    if !are_storable(db.as_slice()) {
        return Err(LiteError::Fault);
    }
    Ok(db)
}

impl Database {
    /// A database without tables, which allocates from `alloc`.
    pub fn open(alloc: Global) -> Result<Database, NoMemory> {
        let conn = Connection::open_in_memory(alloc)?;
        Ok(Database {
            alloc,
            conn,
            tables: Vec::new(alloc),
        })
    }

    /// A database with the contents of `db`, drafts included, and the transactions that have a draft in it,
    /// in rising number.
    ///
    /// After an error everything that was made is dropped.
    pub fn of_db(alloc: Global, db: Db) -> Result<(Database, Vec<u64>), LiteError>
        requires { IsDatabase db }
        ensures { IfOk result (λ made. made.1.items ≡ writers db) }
    {
        let mut database = Database::open(alloc)?;
        database.tables = loaded_tables(alloc, &mut database.conn, &db)?;
        let begun = writers_in(alloc, db)?;
        Ok((database, begun))
    }

    /// Makes a table of this schema, whose name must not be in use.
    fn add_table(&mut self, schema: Schema) -> Result<(), LiteError> {
        let table = LiteTable::create(self.alloc, &mut self.conn, schema)?;
        self.tables.push(table)?;
        Ok(())
    }

    /// Carries out a write of transaction `tx`, 0 for none, or refuses it and changes nothing.
    ///
    /// After an error with `tx` 0 nothing is changed. With another `tx` some of the rows may be changed in
    /// the transaction's draft.
    pub fn write(&mut self, tx: u64, write: &Write) -> Result<Outcome, LiteError>
        ensures { IfOk result IsOutcome }
    {
        match place_of(&self.tables, table_written(write)) {
            Some(place) => {
                let table = &mut self.tables[place];
                write_table(self.alloc, &mut self.conn, table, tx, write)
            }
            None => Ok(refused(NO_TABLE)),
        }
    }

    /// Creates a table, or refuses it.
    ///
    /// After an error the database has no such table, but SQLite may have it. A later CREATE TABLE of that
    /// name is then a fault.
    pub fn create(&mut self, create: &Create) -> Result<Outcome, LiteError>
        requires { IsWritten (request.Create create.now) }
        ensures { IfOk result IsOutcome }
    {
        if place_of(&self.tables, &create.table).is_some() {
            return Ok(refused(TABLE_EXISTS));
        }
        match schema_made(self.alloc, create)? {
            Some(schema) => {
                self.add_table(schema)?;
                Ok(Outcome::Done(0))
            }
            None => Ok(refused(BAD_COLUMNS)),
        }
    }

    /// Drops a table, or refuses it if the table does not exist or a transaction has a draft of it.
    ///
    /// After an error the table exists as before.
    pub fn drop_table(&mut self, name: &Name) -> Result<Outcome, LiteError>
        ensures { IfOk result IsOutcome }
    {
        let Some(place) = place_of(&self.tables, name) else {
            return Ok(refused(NO_TABLE));
        };
        if let Some(tx) = self.tables[place].writer() {
            return Ok(Outcome::Refused(Refusal {
                code: LOCKED,
                a: tx,
                b: 0,
            }));
        }
        drop_table(self.alloc, &mut self.conn, name)?;
        self.tables.remove(place);
        Ok(Outcome::Done(0))
    }

    /// Commits the drafts of transaction `tx`: all of them or none.
    ///
    /// After an error they are still drafts, and may be committed again or aborted.
    pub fn commit(&mut self, tx: u64) -> Result<(), LiteError> {
        run_drafts(self.alloc, &mut self.conn, &self.tables, tx)?;
        for table in self.tables.iter_mut() {
            table.commit(tx);
        }
        Ok(())
    }

    /// Drops the drafts of transaction `tx`, if it has any.
    pub fn abort(&mut self, tx: u64) {
        for table in self.tables.iter_mut() {
            table.abort(tx);
        }
    }

    /// Answers a query of transaction `tx`, 0 for none, or refuses it.
    ///
    /// The database is unchanged, after an error too.
    pub fn ask(&mut self, tx: u64, select: &Select) -> Result<Asked, LiteError>
        requires { IsWritten (request.Select select.now) }
        ensures { IfOk result IsAsked }
    {
        let small = tables_asked(self.alloc, &mut self.conn, &self.tables, tx, select)?;
        Ok(asked(self.alloc, &small, select)?)
    }

    /// A copy of the database, drafts included. A database that can't be stored is answered as a fault.
    ///
    /// The database is unchanged, after an error too.
    pub fn contents(&mut self) -> Result<Db, LiteError>
        ensures { IfOk result IsStorable }
    {
        let mut whole = Tables::new(self.alloc);
        for table in &self.tables {
            add_whole(self.alloc, &mut self.conn, table, &mut whole)?;
        }
        stored(&whole)
    }
}

//! A database in memory that gives snapshots of itself.

ghost use Rattle.std.specs.Prelude.{◌≡◌, ◌≤◌, [], length, map, IfOk, OnErr, OnOk};
ghost use Rattle.std.specs.Arc.{arc_value};
ghost use Rattle.cj_model.specs.Database.Steps.{aborted, committed, created, dropped, written};
ghost use Rattle.cj_table.specs.Carried.{Carries};

use cj_model::{COLUMN_LIMIT, Create, Name, NoMemory, Outcome, Write};
use cj_table::Tables;
use std::alloc::Global;
use std::marker::Model;
use std::sync::Arc;

/// A database, and the last snapshot of it while that is not out of date. So snapshots between two changes cost one
/// count each, and a change finds shared only what a snapshot shows that is still held.
#[derive(Drop)]
pub(crate) struct SharedTables {
    tables: Tables,
    /// A snapshot of these tables; none once they changed.
    shown: Option<Arc<Tables, Global>>,
}

impl Model for SharedTables {
    ghost use Rattle.std.specs.Prelude.{◌≡◌, IfSome, List};
    ghost use Rattle.std.specs.Arc.{arc_value};
    ghost use Rattle.cj_model.specs.declared.database.Slot.{Slot};

    ghost Value = { List Slot };

    ghost view = { λ shared. shared.tables };

    ghost invariant = { λ shared. IfSome shared.shown (λ snap. arc_value snap ≡ shared.tables) };
}

impl SharedTables {
    /// The database without tables, without allocation.
    pub fn new(alloc: Global) -> SharedTables
        ensures { result ≡ [] }
    {
        SharedTables::of(Tables::new(alloc))
    }

    /// Takes a database, of which no snapshot was given.
    pub fn of(tables: Tables) -> SharedTables
        ensures { result ≡ tables }
    {
        SharedTables {
            tables,
            shown: None,
        }
    }

    /// The database.
    pub fn tables(&self) -> &Tables
        ensures { result.now ≡ self.now }
    {
        &self.tables
    }

    /// A snapshot of the database, drafts included. Fails only with `NoMemory`.
    pub fn snapshot(&mut self, alloc: Global) -> Result<Arc<Tables, Global>, NoMemory>
        ensures shown { IfOk result (λ snap. arc_value snap ≡ self.old) }
        ensures same { self.new ≡ self.old }
    {
        if let Some(shown) = &self.shown {
            return Ok(Arc::try_clone(shown)?);
        }
        let shown = Arc::new(alloc, self.tables.snapshot()?)?;
        let again = Arc::try_clone(&shown)?;
        self.shown = Some(shown);
        Ok(again)
    }

    /// Creates a table, as `Tables` does.
    pub fn create(&mut self, create: &Create) -> Result<Outcome, NoMemory>
        requires { length create.now.columns ≤ COLUMN_LIMIT }
        ensures { Carries self.old (created self.old create.now) result self.new }
    {
        self.shown = None;
        self.tables.create(create)
    }

    /// Carries out a write, as `Tables` does.
    pub fn write(&mut self, tx: u64, write: &Write) -> Result<Outcome, NoMemory>
        ensures { Carries self.old (written self.old tx write.now) result self.new }
    {
        self.shown = None;
        self.tables.write(tx, write)
    }

    /// Drops a table, as `Tables` does.
    pub fn drop_table(&mut self, table: &Name) -> Outcome
        ensures outcome { result ≡ (dropped self.old table.now).outcome }
        ensures database { self.new ≡ (dropped self.old table.now).db }
    {
        self.shown = None;
        self.tables.drop_table(table)
    }

    /// Commits the drafts of transaction `tx`, as `Tables` does.
    pub fn commit(&mut self, tx: u64) -> Result<(), NoMemory>
        ensures ok { OnOk result (self.new ≡ map (committed tx) self.old) }
        ensures err { OnErr result (self.new ≡ self.old) }
    {
        self.shown = None;
        self.tables.commit(tx)
    }

    /// Ends transaction `tx` without its changes, as `Tables` does.
    pub fn abort(&mut self, tx: u64) -> Result<(), NoMemory>
        ensures ok { OnOk result (self.new ≡ map (aborted tx) self.old) }
        ensures err { OnErr result (self.new ≡ self.old) }
    {
        self.shown = None;
        self.tables.abort(tx)
    }
}

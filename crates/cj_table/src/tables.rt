//! The database.

ghost use Rattle.std.specs.Prelude.{◌≡◌, ◌≤◌, [], length, map, option_map, IfOk, OnOk, OnErr};
ghost use Rattle.cj_model.specs.Database.Storable.{writers};
ghost use Rattle.cj_model.specs.Database.Steps.{aborted, committed, created, dropped, seen, written};
ghost use Rattle.cj_model.specs.Database.Tables.{IsDatabase, slot_of};
ghost use Rattle.cj_table.specs.Carried.{Carries};
ghost use Rattle.cj_table.specs.Put.{PutsTable};

use crate::conversion::{copied_slots, stored_slots};
use crate::ends::{End, drop_slot, ended_slots};
use crate::put::put_table;
use crate::slots::{create_slot, find, write_slots};
use crate::snapshots::slots_again;
use crate::writers::writers_in;
use cj_model::{COLUMN_LIMIT, Create, Db, Name, NoMemory, Outcome, Rows, Schema, Write};
use cj_ptree::Shared;
use cj_rowstore::{StoredTable, View};
use std::alloc::Global;
use std::marker::Model;

/// A database in memory. Contracts see its slots in rising name of their tables. Each table is a tree of rows by key,
/// and a draft is a tree that shares what its transaction has not changed. A table that a snapshot shows is copied by
/// its first change, but for its rows.
#[derive(Drop)]
pub struct Tables {
    slots: Vec<Shared<StoredTable>>,
    alloc: Global,
}

impl Model for Tables {
    ghost use Rattle.std.specs.Prelude.{List};
    ghost use Rattle.cj_model.specs.declared.database.Slot.{Slot};
    ghost use Rattle.cj_model.specs.Database.Tables.{IsDatabase};

    ghost Value = { List Slot };

    ghost view = { λ tables. tables.slots.items };

    ghost invariant = { λ tables. IsDatabase tables.slots.items };
}

impl Tables {
    /// The database without tables, without allocation.
    pub fn new(alloc: Global) -> Tables
        ensures { result ≡ [] }
    {
        Tables {
            slots: Vec::new(alloc),
            alloc,
        }
    }

    /// The law that `Tables` is a well-formed database.
    pub fn legal(&self)
        ensures { IsDatabase self.now }
    {
        let _ = &self.slots;
    }

    /// Creates a table, or refuses it. The columns must be within `COLUMN_LIMIT`. `NoMemory` leaves the
    /// database unchanged.
    pub fn create(&mut self, create: &Create) -> Result<Outcome, NoMemory>
        requires { length create.now.columns ≤ COLUMN_LIMIT }
        ensures { Carries self.old (created self.old create.now) result self.new }
    {
        create_slot(self.alloc, &mut self.slots, create)
    }

    /// Puts a table with these rows, in any order, in place of one of its name. False, with the database
    /// unchanged, if the schema and rows make no table. `NoMemory` leaves the database unchanged too.
    pub fn put_table(&mut self, schema: Schema, rows: Rows) -> Result<bool, NoMemory>
        ensures { PutsTable self.old schema rows result self.new }
    {
        put_table(self.alloc, &mut self.slots, schema, rows)
    }

    /// Carries out an INSERT, UPDATE or DELETE of transaction `tx`, 0 for none, or refuses it. `NoMemory`
    /// leaves the database unchanged.
    pub fn write(&mut self, tx: u64, write: &Write) -> Result<Outcome, NoMemory>
        ensures { Carries self.old (written self.old tx write.now) result self.new }
    {
        write_slots(self.alloc, &mut self.slots, tx, write)
    }

    /// Drops a table, or refuses it if the table does not exist or a transaction has a draft of it.
    /// Allocates nothing.
    pub fn drop_table(&mut self, table: &Name) -> Outcome
        ensures outcome { result ≡ (dropped self.old table.now).outcome }
        ensures database { self.new ≡ (dropped self.old table.now).db }
    {
        drop_slot(&mut self.slots, table)
    }

    /// Commits the drafts of transaction `tx`. `NoMemory` leaves the database unchanged.
    pub fn commit(&mut self, tx: u64) -> Result<(), NoMemory>
        ensures ok { OnOk result (self.new ≡ map (committed tx) self.old) }
        ensures err { OnErr result (self.new ≡ self.old) }
    {
        self.slots = ended_slots(self.alloc, &self.slots, tx, End::Commit)?;
        Ok(())
    }

    /// Ends transaction `tx` without its changes. `NoMemory` leaves the database unchanged.
    pub fn abort(&mut self, tx: u64) -> Result<(), NoMemory>
        ensures ok { OnOk result (self.new ≡ map (aborted tx) self.old) }
        ensures err { OnErr result (self.new ≡ self.old) }
    {
        self.slots = ended_slots(self.alloc, &self.slots, tx, End::Abort)?;
        Ok(())
    }

    /// Builds the trees of a database of the vocabulary: rows are moved, and keys copied. Fails only with
    /// `NoMemory`.
    pub fn from_db(alloc: Global, db: Db) -> Result<Tables, NoMemory>
        requires { IsDatabase db }
        ensures { IfOk result (λ tables. tables ≡ db) }
    {
        Ok(Tables {
            slots: stored_slots(alloc, db)?,
            alloc,
        })
    }

    /// A copy of the database, drafts included, as the vocabulary has it. Fails only with `NoMemory`.
    pub fn to_db(&self) -> Result<Db, NoMemory>
        ensures { IfOk result (λ db. db ≡ self.now) }
    {
        copied_slots(self.alloc, &self.slots)
    }

    /// The same database again, drafts included. It shares all tables with this one: only the list of them is copied.
    /// Fails only with `NoMemory`.
    pub fn snapshot(&self) -> Result<Tables, NoMemory>
        ensures { IfOk result (λ copy. copy ≡ self.now) }
    {
        Ok(Tables {
            slots: slots_again(self.alloc, &self.slots)?,
            alloc: self.alloc,
        })
    }

    /// The transactions that have a draft, in rising number. Fails only with `NoMemory`.
    pub fn writers(&self) -> Result<Vec<u64>, NoMemory>
        ensures { IfOk result (λ list. list.items ≡ writers self.now) }
    {
        writers_in(self.alloc, &self.slots)
    }

    /// The table as transaction `tx`, 0 for none, sees it; none if and only if it does not exist.
    pub fn view(&self, table: &Name, tx: u64) -> Option<View<'_>>
        ensures { result ≡ option_map (λ slot. seen slot tx) (slot_of self.now table.now) }
    {
        match find(&self.slots, table) {
            Some(slot) => Some(View::of(slot, tx)),
            None => None,
        }
    }
}

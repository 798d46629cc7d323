//! A SQLite database as a backend.

ghost use Rattle.std.specs.Prelude.{◌≡◌, ◌↔◌, ◌==◌, Some, None, IfOk, IsTrue, filter, not};

use cj_backend::{Backend, BackendError, Counts, NoSnap};
use cj_lite_tables::{Database, LiteError};
use cj_model::{Asked, Create, Db, Duplicate, Name, NoMemory, Outcome, Select, Text, Write};
use std::alloc::Global;
use std::marker::Model;

/// A backend whose tables are in a SQLite database in memory. Contracts see nothing of what it holds.
///
/// A call fails if SQLite refuses a statement that the engine accepted, or gives back what was never
/// stored. The engine decides what a statement means and whether it is refused. The changes of a
/// transaction are kept beside SQLite and laid over its rows; a commit makes them in one transaction of
/// SQLite.
#[derive(Drop)]
pub struct LiteBackend {
    alloc: Global,
    database: Database,
    faults: u64,
    asks: u64,
    begun: Vec<u64>,
    login: Option<Text>,
}

impl Model for LiteBackend {
    ghost use Rattle.cj_lite.specs.LiteBackends.{LiteState};

    ghost Value = { LiteState };

    ghost view = { λ b. record { faults = b.faults; asks = b.asks; begun = b.begun.items; login = b.login } };
}

fn is_login(last: &Option<Text>, user: &Text) -> bool
    ensures { IsTrue result ↔ (last.now ≡ Some user.now) }
{
    match last {
        None => false,
        Some(last) => last.as_slice() == user.as_slice(),
    }
}

fn remove(begun: &mut Vec<u64>, tx: u64)
    ensures { begun.new.items ≡ filter (λ t. not (t == tx)) begun.old.items }
{
    begun.retain(|other| *other != tx);
}

impl LiteBackend {
    ghost use Rattle.cj_lite.specs.LiteBackends.{AddsBegun, EndsCall, Enters, fresh_state};

    /// A backend without tables, which allocates from `alloc`. Fails only with `NoMemory`.
    pub fn open(alloc: Global) -> Result<LiteBackend, NoMemory>
        ensures { IfOk result (λ backend. backend ≡ fresh_state) }
    {
        let database = Database::open(alloc)?;
        Ok(LiteBackend {
            alloc,
            database,
            faults: 0,
            asks: 0,
            begun: Vec::new(alloc),
            login: None,
        })
    }

    /// Enters a call: remembers its login. After `NoMemory` the state is unchanged.
    fn enter(&mut self, user: &Text) -> Result<(), BackendError>
        ensures { Enters self.old user.now result self.new }
    {
        if !is_login(&self.login, user) {
            self.login = Some(user.copy(self.alloc)?);
        }
        Ok(())
    }

    /// Ends a call: a fault of the database is counted and answered as `Failed`.
    fn end<T>(&mut self, done: Result<T, LiteError>) -> Result<T, BackendError>
        ensures { EndsCall self.old done result self.new }
    {
        match done {
            Ok(value) => Ok(value),
            Err(LiteError::Fault) => {
                self.faults = self.faults.saturating_add(1);
                Err(BackendError::Failed)
            }
            Err(LiteError::NoMemory) => Err(BackendError::NoMemory),
        }
    }

    fn add_begun(&mut self, tx: u64) -> Result<(), BackendError>
        ensures { AddsBegun self.old tx result self.new }
    {
        match self.begun.push(tx) {
            Ok(()) => Ok(()),
            Err(_) => Err(BackendError::NoMemory),
        }
    }
}

impl Backend for LiteBackend {
    ghost use Rattle.std.specs.Prelude.{false};
    ghost use Rattle.cj_lite.specs.LiteBackends.{never_armed, untold};

    type Snap = NoSnap;

    ghost tells = { false };

    ghost told = { λ _. untold };

    ghost faults = { λ b. b.faults };

    ghost asks = { λ b. b.asks };

    ghost begun = { λ b. b.begun };

    ghost login = { λ b. b.login };

    ghost can_be_armed = { false };

    ghost arming = { λ _. never_armed };

    ghost snaps = { λ _. false };

    fn begin(&mut self, user: &Text, tx: u64) -> Result<(), BackendError> {
        self.enter(user)?;
        self.add_begun(tx)
    }

    fn write(&mut self, user: &Text, tx: u64, write: &Write) -> Result<Outcome, BackendError> {
        self.enter(user)?;
        let written = self.database.write(tx, write);
        self.end(written)
    }

    fn create(&mut self, user: &Text, create: &Create) -> Result<Outcome, BackendError> {
        self.enter(user)?;
        let created = self.database.create(create);
        self.end(created)
    }

    fn drop_table(&mut self, user: &Text, table: &Name) -> Result<Outcome, BackendError> {
        self.enter(user)?;
        let dropped = self.database.drop_table(table);
        self.end(dropped)
    }

    fn commit(&mut self, user: &Text, tx: u64) -> Result<(), BackendError> {
        self.enter(user)?;
        let committed = self.database.commit(tx);
        self.end(committed)?;
        remove(&mut self.begun, tx);
        Ok(())
    }

    fn abort(&mut self, user: &Text, tx: u64) -> Result<(), BackendError> {
        self.enter(user)?;
        self.database.abort(tx);
        remove(&mut self.begun, tx);
        Ok(())
    }

    /// The login is entered after the answer, so that `NoMemory` leaves the last login.
    fn ask(&mut self, user: &Text, tx: u64, select: &Select) -> Result<Asked, BackendError> {
        let asked = self.database.ask(tx, select);
        let answer = self.end(asked)?;
        self.enter(user)?;
        self.asks = self.asks.saturating_add(1);
        Ok(answer)
    }

    fn snapshot(&mut self, _user: &Text) -> Result<Option<NoSnap>, BackendError> {
        Ok(None)
    }

    fn contents(&mut self) -> Result<Db, BackendError> {
        let contents = self.database.contents();
        self.end(contents)
    }

    /// Fills a new database before it replaces the old one, so that an error leaves the old one in place.
    fn load(&mut self, db: Db) -> Result<(), BackendError> {
        let loaded = Database::of_db(self.alloc, db);
        let (database, begun) = self.end(loaded)?;
        self.database = database;
        self.begun = begun;
        Ok(())
    }

    fn counts(&self) -> Counts {
        Counts {
            faults: self.faults,
            asks: self.asks,
            begun: self.begun.len() as u64,
        }
    }

    fn login(&self) -> Option<&Text> {
        self.login.as_ref()
    }

    fn arm(&mut self) {
        let _ = &self.alloc;
    }
}

//! A database in memory as a backend.

ghost use Rattle.std.specs.Prelude.{◌≡◌, ◌↔◌, ◌==◌, Some, None, IfOk, IsTrue, filter, not};
ghost use Rattle.cj_model.specs.Database.Storable.{writers};
ghost use Rattle.cj_model.specs.Database.Tables.{IsDatabase};

use crate::shared_tables::SharedTables;
use crate::snapshot::MemSnap;
use cj_backend::{Backend, BackendError, Counts};
use cj_model::{Asked, Create, Db, Duplicate, Name, NoMemory, Outcome, Select, Text, Write};
use cj_query::select;
use cj_table::Tables;
use std::alloc::Global;
use std::marker::Model;

/// A backend whose tables are ordered trees in memory. It never answers `Failed`. Contracts see what it
/// holds, except from a change that ran out of memory to the next load that is carried out. Only calls that
/// are carried out change what it holds, and it answers by that, seen or not. All that it holds can be
/// stored.
#[derive(Drop)]
pub struct MemBackend {
    alloc: Global,
    tables: SharedTables,
    /// Whether no change has run out of memory since the last load that was carried out.
    known: bool,
    asks: u64,
    begun: Vec<u64>,
    login: Option<Text>,
}

impl Model for MemBackend {
    ghost use Rattle.cj_model.specs.Database.Storable.{IsStorable};
    ghost use Rattle.cj_mem.specs.MemoryBackends.{MemoryState, told_where_known};

    ghost Value = { MemoryState };

    ghost view = { λ b. record { told = told_where_known b.known b.tables; held = b.tables; asks = b.asks; begun = b.begun.items; login = b.login } };

    ghost invariant = { λ b. IsStorable b.tables };
}

fn is_login(last: &Option<Text>, user: &Text) -> bool
    ensures { IsTrue result ↔ (last.now ≡ Some user.now) }
{
    match last {
        None => false,
        Some(last) => last.as_slice() == user.as_slice(),
    }
}

fn remove(begun: &mut Vec<u64>, tx: u64)
    ensures { begun.new.items ≡ filter (λ t. not (t == tx)) begun.old.items }
{
    begun.retain(|other| *other != tx);
}

/// The trees of a database, and the transactions that have a draft in it.
fn restored(alloc: Global, db: Db) -> Result<(Tables, Vec<u64>), NoMemory>
    requires { IsDatabase db }
    ensures { IfOk result (λ made. (made.0 ≡ db) × (made.1.items ≡ writers db)) }
{
    let tables = Tables::from_db(alloc, db)?;
    let begun = tables.writers()?;
    Ok((tables, begun))
}

impl MemBackend {
    ghost use Rattle.cj_mem.specs.MemoryBackends.{AddsBegun, Enters, EntersChange, fresh_state};

    /// A backend without tables, which allocates from `alloc`.
    pub fn new(alloc: Global) -> MemBackend
        ensures { result ≡ fresh_state }
    {
        MemBackend {
            alloc,
            tables: SharedTables::new(alloc),
            known: true,
            asks: 0,
            begun: Vec::new(alloc),
            login: None,
        }
    }

    /// Enters a call: remembers its login. After `NoMemory` the state is unchanged.
    fn enter(&mut self, user: &Text) -> Result<(), BackendError>
        ensures { Enters self.old user.now result self.new }
    {
        if !is_login(&self.login, user) {
            self.login = Some(user.copy(self.alloc)?);
        }
        Ok(())
    }

    fn forget(&mut self)
        ensures { self.new ≡ record self.old { told = None } }
    {
        self.known = false;
    }

    /// Gives up a change that ran out of memory: contracts no longer see the contents.
    fn starve(&mut self) -> BackendError
        ensures error { result ≡ BackendError.NoMemory }
        ensures state { self.new ≡ record self.old { told = None } }
    {
        self.forget();
        BackendError::NoMemory
    }

    fn add_begun(&mut self, tx: u64) -> Result<(), BackendError>
        ensures { AddsBegun self.old tx result self.new }
    {
        match self.begun.push(tx) {
            Ok(()) => Ok(()),
            Err(_) => Err(self.starve()),
        }
    }

    fn enter_change(&mut self, user: &Text) -> Result<(), BackendError>
        ensures { EntersChange self.old user.now result self.new }
    {
        let entered = self.enter(user);
        if entered.is_err() {
            self.forget();
        }
        entered
    }
}

impl Backend for MemBackend {
    ghost use Rattle.std.specs.Prelude.{true, false, is_some, Contains, IfSome};
    ghost use Rattle.std.specs.Arc.{arc_value};
    ghost use Rattle.cj_model.specs.declared.request.Act.TheVariants as act;
    ghost use Rattle.cj_model.specs.declared.request.Request.TheVariants as request;
    ghost use Rattle.cj_model.specs.Sql.WrittenRequests.{IsWritten};
    ghost use Rattle.cj_model.specs.Database.Queries.{ask};
    ghost use Rattle.cj_model.specs.Database.Steps.{acted};
    ghost use Rattle.cj_model.specs.Database.Storable.{IsStorable};
    ghost use Rattle.cj_model.specs.Database.Outcomes.{IsOutcome, IsAsked};
    ghost use Rattle.cj_backend.specs.Backends.{HasBackendCause, SaysOutcome, SaysAnswer, told_after, LogsIn, LogsInToAsk, LogsInToSnapshot, IsBegun, begun_with, begun_without, told_loaded, begun_loaded, asks_after, asks_after_snapshot, SpendsArming};
    ghost use Rattle.cj_mem.specs.MemoryBackends.{held_after, held_loaded, never_armed};

    type Snap = MemSnap;

    ghost tells = { true };

    ghost told = { λ b. b.told };

    ghost faults = { λ b. 0 };

    ghost asks = { λ b. b.asks };

    ghost begun = { λ b. b.begun };

    ghost login = { λ b. b.login };

    ghost can_be_armed = { false };

    ghost arming = { λ _. never_armed };

    ghost snaps = { λ _. true };

    fn begin(&mut self, user: &Text, tx: u64) -> Result<(), BackendError>
        requires { ¬ Contains self.old.begun tx }
        ensures told { self.new.told ≡ told_after self.old.told tx act.Begin result }
        ensures held { self.new.held ≡ held_after self.old.held tx act.Begin result }
        ensures cause { HasBackendCause 0 0 result }
        ensures arming { SpendsArming never_armed never_armed result }
        ensures login { LogsIn self.old.login user.now result self.new.login }
        ensures begun { self.new.begun ≡ begun_with self.old.begun tx result }
        ensures asks { self.new.asks ≡ self.old.asks }
    {
        self.enter_change(user)?;
        self.add_begun(tx)
    }

    fn write(&mut self, user: &Text, tx: u64, write: &Write) -> Result<Outcome, BackendError>
        requires begun { IsBegun self.old.begun tx }
        requires written { IsWritten (request.Write write.now) }
        ensures outcome { SaysOutcome self.old.told tx (act.Write write.now) result }
        ensures held_outcome { IfOk result (λ o. o ≡ (acted self.old.held tx (act.Write write.now)).outcome) }
        ensures possible { IfOk result IsOutcome }
        ensures told { self.new.told ≡ told_after self.old.told tx (act.Write write.now) result }
        ensures held { self.new.held ≡ held_after self.old.held tx (act.Write write.now) result }
        ensures cause { HasBackendCause 0 0 result }
        ensures arming { SpendsArming never_armed never_armed result }
        ensures login { LogsIn self.old.login user.now result self.new.login }
        ensures begun { self.new.begun ≡ self.old.begun }
        ensures asks { self.new.asks ≡ self.old.asks }
    {
        self.enter_change(user)?;
        match self.tables.write(tx, write) {
            Ok(outcome) => Ok(outcome),
            Err(_) => Err(self.starve()),
        }
    }

    #[tactic(auto, using(cj_model::proofs::StorableLaws::created_storable))]
    fn create(&mut self, user: &Text, create: &Create) -> Result<Outcome, BackendError>
        requires { IsWritten (request.Create create.now) }
        ensures outcome { SaysOutcome self.old.told 0 (act.Create create.now) result }
        ensures held_outcome { IfOk result (λ o. o ≡ (acted self.old.held 0 (act.Create create.now)).outcome) }
        ensures possible { IfOk result IsOutcome }
        ensures told { self.new.told ≡ told_after self.old.told 0 (act.Create create.now) result }
        ensures held { self.new.held ≡ held_after self.old.held 0 (act.Create create.now) result }
        ensures cause { HasBackendCause 0 0 result }
        ensures arming { SpendsArming never_armed never_armed result }
        ensures login { LogsIn self.old.login user.now result self.new.login }
        ensures begun { self.new.begun ≡ self.old.begun }
        ensures asks { self.new.asks ≡ self.old.asks }
    {
        self.enter_change(user)?;
        match self.tables.create(create) {
            Ok(outcome) => Ok(outcome),
            Err(_) => Err(self.starve()),
        }
    }

    #[tactic(auto, using(cj_model::proofs::StorableLaws::dropped_storable))]
    fn drop_table(&mut self, user: &Text, table: &Name) -> Result<Outcome, BackendError>
        ensures outcome { SaysOutcome self.old.told 0 (act.Drop table.now) result }
        ensures held_outcome { IfOk result (λ o. o ≡ (acted self.old.held 0 (act.Drop table.now)).outcome) }
        ensures possible { IfOk result IsOutcome }
        ensures told { self.new.told ≡ told_after self.old.told 0 (act.Drop table.now) result }
        ensures held { self.new.held ≡ held_after self.old.held 0 (act.Drop table.now) result }
        ensures cause { HasBackendCause 0 0 result }
        ensures arming { SpendsArming never_armed never_armed result }
        ensures login { LogsIn self.old.login user.now result self.new.login }
        ensures begun { self.new.begun ≡ self.old.begun }
        ensures asks { self.new.asks ≡ self.old.asks }
    {
        self.enter_change(user)?;
        Ok(self.tables.drop_table(table))
    }

    #[tactic(auto, using(cj_model::proofs::StorableLaws::committed_storable))]
    fn commit(&mut self, user: &Text, tx: u64) -> Result<(), BackendError>
        requires { Contains self.old.begun tx }
        ensures told { self.new.told ≡ told_after self.old.told tx act.Commit result }
        ensures held { self.new.held ≡ held_after self.old.held tx act.Commit result }
        ensures cause { HasBackendCause 0 0 result }
        ensures arming { SpendsArming never_armed never_armed result }
        ensures login { LogsIn self.old.login user.now result self.new.login }
        ensures begun { self.new.begun ≡ begun_without self.old.begun tx result }
        ensures asks { self.new.asks ≡ self.old.asks }
    {
        self.enter_change(user)?;
        match self.tables.commit(tx) {
            Ok(()) => {
                remove(&mut self.begun, tx);
                Ok(())
            }
            Err(_) => Err(self.starve()),
        }
    }

    #[tactic(auto, using(cj_model::proofs::StorableLaws::aborted_storable))]
    fn abort(&mut self, user: &Text, tx: u64) -> Result<(), BackendError>
        requires { Contains self.old.begun tx }
        ensures told { self.new.told ≡ told_after self.old.told tx act.Abort result }
        ensures held { self.new.held ≡ held_after self.old.held tx act.Abort result }
        ensures cause { HasBackendCause 0 0 result }
        ensures arming { SpendsArming never_armed never_armed result }
        ensures login { LogsIn self.old.login user.now result self.new.login }
        ensures begun { self.new.begun ≡ begun_without self.old.begun tx result }
        ensures asks { self.new.asks ≡ self.old.asks }
    {
        self.enter_change(user)?;
        match self.tables.abort(tx) {
            Ok(()) => {
                remove(&mut self.begun, tx);
                Ok(())
            }
            Err(_) => Err(self.starve()),
        }
    }

    fn ask(&mut self, user: &Text, tx: u64, query: &Select) -> Result<Asked, BackendError>
        requires { IsWritten (request.Select query.now) }
        ensures answer { SaysAnswer self.old.told tx query.now result }
        ensures held_answer { IfOk result (λ answer. answer ≡ ask self.old.held tx query.now) }
        ensures possible { IfOk result IsAsked }
        ensures cause { HasBackendCause 0 0 result }
        ensures arming { SpendsArming never_armed never_armed result }
        ensures login { LogsInToAsk self.old.login user.now result self.new.login }
        ensures asks { self.new.asks ≡ asks_after self.old.asks result }
        ensures same { self.new ≡ record self.old { login = self.new.login; asks = self.new.asks } }
    {
        let tables = self.tables.tables();
        tables.legal();
        let answer = select(self.alloc, query, tables, tx)?;
        self.enter(user)?;
        self.asks = self.asks.saturating_add(1);
        Ok(answer)
    }

    fn snapshot(&mut self, user: &Text) -> Result<Option<MemSnap>, BackendError>
        ensures given { IfOk result (λ snap. is_some snap ≡ true) }
        ensures shows { IfOk result (λ snap. IfSome snap (λ s. IfSome self.old.told (λ db. Some (arc_value s.tables) ≡ Some db))) }
        ensures held_shown { IfOk result (λ snap. IfSome snap (λ s. arc_value s.tables ≡ self.old.held)) }
        ensures cause { HasBackendCause 0 0 result }
        ensures arming { SpendsArming never_armed never_armed result }
        ensures login { LogsInToSnapshot self.old.login user.now result self.new.login }
        ensures asks { self.new.asks ≡ asks_after_snapshot self.old.asks result }
        ensures same { self.new ≡ record self.old { login = self.new.login; asks = self.new.asks } }
    {
        let tables = self.tables.snapshot(self.alloc)?;
        self.enter(user)?;
        self.asks = self.asks.saturating_add(1);
        Ok(Some(MemSnap::of(self.alloc, tables)))
    }

    fn contents(&mut self) -> Result<Db, BackendError>
        ensures contents { IfOk result (λ db. IfSome self.old.told (λ held. db ≡ held)) }
        ensures held_contents { IfOk result (λ db. db ≡ self.old.held) }
        ensures storable { IfOk result IsStorable }
        ensures cause { HasBackendCause 0 0 result }
        ensures arming { SpendsArming never_armed never_armed result }
        ensures same { self.new ≡ self.old }
    {
        Ok(self.tables.tables().to_db()?)
    }

    /// Allocates everything before the backend changes, so that an error leaves the earlier database in
    /// place.
    fn load(&mut self, db: Db) -> Result<(), BackendError>
        requires { IsStorable db }
        ensures told { self.new.told ≡ told_loaded true db result }
        ensures held { self.new.held ≡ held_loaded self.old.held db result }
        ensures cause { HasBackendCause 0 0 result }
        ensures arming { SpendsArming never_armed never_armed result }
        ensures login { self.new.login ≡ self.old.login }
        ensures begun { self.new.begun ≡ begun_loaded self.old.begun db result }
        ensures asks { self.new.asks ≡ self.old.asks }
    {
        match restored(self.alloc, db) {
            Ok((tables, begun)) => {
                self.tables = SharedTables::of(tables);
                self.begun = begun;
                self.known = true;
                Ok(())
            }
            Err(_) => Err(self.starve()),
        }
    }

    fn counts(&self) -> Counts {
        Counts {
            faults: 0,
            asks: self.asks,
            begun: self.begun.len() as u64,
        }
    }

    fn login(&self) -> Option<&Text> {
        self.login.as_ref()
    }

    fn arm(&mut self) {
        let _ = &self.alloc;
    }
}

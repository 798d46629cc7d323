//! A backend with its place among the backends and its position of the log.

ghost use Rattle.std.specs.Prelude.{◌≡◌, ◌⊎◌, ◌<◌, ◌==◌, [], not, true, filter, Some, None, Ok, Err, IfOk, OnOk, is_err};
ghost use Rattle.cj_model.specs.declared.request.Act.TheVariants as act;
ghost use Rattle.cj_model.specs.declared.request.Request.TheVariants as request;
ghost use Rattle.cj_model.specs.Cluster.Placements as placements;
ghost use Rattle.cj_model.specs.Database.Storable.{IsStorable};
ghost use Rattle.cj_model.specs.Sql.WrittenRequests.{IsWritten};
ghost use Rattle.cj_model.specs.Sql.PlainRequests.{request_of};
ghost use Rattle.cj_model.specs.Database.Outcomes.{IsOutcome};
ghost use Rattle.cj_cluster.specs.History.Transactions.{has_begun, begun_after};
ghost use Rattle.cj_replica.specs.Calls.{CanCarryOut, LogsInAt, SaysCarried, TellsAfter, TellsCarried, begun_at_write};
ghost use Rattle.cj_replica.specs.Cells.{HasCellCause, SpendsArmingIf};
ghost use Rattle.cj_backend.specs.Backends as backends;

use crate::writers::writers_of;
use cj_backend::{Backend, BackendError};
use cj_model::{Act, Asked, Db, Entry, Name, NoMemory, Outcome, Select, Text, Write, has_bit};
use cj_place::Placement;
use cj_usage::written;
use std::alloc::Global;
use std::marker::Model;
use std::mem;
use thiserror::Error;

/// What a cell did with an entry.
#[derive(Clone, Copy)]
pub enum Caught {
    /// The backend has no part in the entry.
    Skipped,
    /// The backend carried the entry out.
    Did(Outcome),
}

/// Why a call of a cell failed. After an error in an entry or a load the cell is out.
#[derive(Clone, Copy, Debug, PartialEq, Eq, Error)]
pub enum CellError {
    #[error("the backend failed")]
    Failed,
    /// Memory ran out, in the backend or for the list of its transactions.
    #[error("out of memory")]
    Starved,
}

/// Why a cell did not answer a query.
#[derive(Clone, Copy, Debug, PartialEq, Eq, Error)]
pub enum CellReadError {
    /// The cell has missed an entry.
    #[error("the backend is out")]
    Out,
    /// The cell is at this position, below the least that was asked for.
    #[error("the backend is behind")]
    Behind(u64),
    #[error("the backend failed")]
    Failed,
    #[error("out of memory")]
    NoMemory,
}

impl From<BackendError> for CellError {
    ghost use Rattle.std.specs.Prelude.{◌≡◌};
    ghost use Rattle.cj_replica.specs.Cells.{error_of};

    ghost from_gives = { λ error e. e ≡ error_of error };

    fn from(error: BackendError) -> CellError {
        match error {
            BackendError::Failed => CellError::Failed,
            BackendError::NoMemory => CellError::Starved,
        }
    }
}

impl From<NoMemory> for CellError {
    ghost use Rattle.std.specs.Prelude.{◌≡◌};
    ghost use Rattle.cj_replica.specs.declared.replica.CellError.TheVariants as errors;

    ghost from_gives = { λ _ e. e ≡ errors.Starved };

    fn from(_error: NoMemory) -> CellError {
        CellError::Starved
    }
}

impl From<BackendError> for CellReadError {
    ghost use Rattle.std.specs.Prelude.{◌≡◌};
    ghost use Rattle.cj_replica.specs.Cells.{read_error_of};

    ghost from_gives = { λ error e. e ≡ read_error_of error };

    fn from(error: BackendError) -> CellReadError {
        match error {
            BackendError::Failed => CellReadError::Failed,
            BackendError::NoMemory => CellReadError::NoMemory,
        }
    }
}

/// A backend that has taken the entries of the log up to a position, or is out: it has missed one,
/// and only a dump can bring it back.
#[derive(Drop)]
pub struct Replica<B: Backend> {
    /// The backend's number.
    b: u8,
    placement: Placement,
    position: Option<u64>,
    /// The transactions that the backend has begun and not ended; none where it is out.
    begun: Vec<u64>,
    backend: B,
}

impl<B: Backend> Model for Replica<B> {
    ghost use Rattle.cj_replica.specs.Cells.{CellState, KeepsBegun};
    ghost use Rattle.cj_place.specs.Layouts.{placement_of};

    ghost Value = { CellState };

    ghost view = { λ c. record { b = c.b; placement = placement_of c.placement; position = c.position; begun = c.begun.items; login = B.login c.backend; told = B.told c.backend; faults = B.faults c.backend; asks = B.asks c.backend; arming = B.arming c.backend } };

    ghost invariant = { λ c. KeepsBegun c.position c.begun.items (B.begun c.backend) };
}

impl<B: Backend> Replica<B> {
    ghost use Rattle.cj_replica.specs.Cells.{CatchesUp, GivesContents, IsEntryAfter, KeepsBegun, LoadsDatabase, ReadsAnswer, TakesSnapshot, position_for, takes_part_in_entry};
    ghost use Rattle.cj_place.specs.Layouts.{placement_of};

    /// Makes the replica of backend `b` of the placement, at position 0. The backend has begun no
    /// transaction.
    pub fn new(alloc: Global, b: u8, placement: Placement, backend: B) -> Replica<B>
        requires { B.begun backend ≡ [] }
        ensures { result ≡ record { b = b; placement = placement_of placement; position = Some 0; begun = []; login = B.login backend; told = B.told backend; faults = B.faults backend; asks = B.asks backend; arming = B.arming backend } }
    {
        Replica {
            b,
            placement,
            position: Some(0),
            begun: Vec::new(alloc),
            backend,
        }
    }

    fn hosts(&self, table: &Name) -> bool
        ensures { result ≡ placements.hosts self.now.placement self.now.b table.now }
    {
        self.b < self.placement.count() && has_bit(self.placement.hosts(table), self.b)
    }

    fn takes_part(&self, e: &Entry) -> bool
        ensures { result ≡ takes_part_in_entry self.now e.now }
    {
        match written(&e.act) {
            Some(table) => self.hosts(table),
            None => !matches!(e.act, Act::Begin) && is_begun(self.begun.as_slice(), e.tx),
        }
    }

    /// Carries out entry `n`, the next after the replica's position, at the backend and under this
    /// login. An entry in which the backend has no part is skipped, which takes no memory. A
    /// transaction begins at the backend with its first write of a table that the backend hosts.
    /// After an error the replica is out, and has begun nothing.
    pub fn catch_up(&mut self, n: u64, e: &Entry, login: &Text) -> Result<Caught, CellError>
        requires next { IsEntryAfter self.old.position n }
        requires written { IsWritten (request_of e.now.act) }
        ensures { CatchesUp self.old n e.now login.now result self.new }
    {
        if !self.takes_part(e) {
            self.position = Some(n);
            return Ok(Caught::Skipped);
        }
        // It is out, and has begun nothing, until its backend has carried the entry out.
        self.position = None;
        let none = Vec::new(*self.begun.allocator());
        let mut begun = mem::replace(&mut self.begun, none);
        let outcome = carry_out(&mut self.backend, &mut begun, e, login)?;
        self.begun = begun;
        self.position = Some(n);
        Ok(Caught::Did(outcome))
    }

    /// Asks the backend for its whole contents, drafts included. The contents and the position
    /// stay.
    pub fn contents(&mut self) -> Result<Db, CellError>
        ensures { GivesContents self.old result self.new }
    {
        Ok(self.backend.contents()?)
    }

    /// Replaces the contents of the backend, which is out, by the database at a position of the
    /// log. Then the replica is at that position, and the transactions with a draft in `db` are
    /// begun there. After an error the replica is still out.
    pub fn load(&mut self, db: Db, position: u64) -> Result<(), CellError>
        requires out { self.old.position ≡ None }
        requires storable { IsStorable db }
        ensures { LoadsDatabase B.tells self.old db position result self.new }
    {
        // The list is made before the backend is called: if memory runs out for it, the backend stays as it was.
        let begun = writers_of(*self.begun.allocator(), db.as_slice())?;
        self.backend.load(db)?;
        self.begun = begun;
        self.position = Some(position);
        Ok(())
    }

    /// The position, at which a query that must see `least` entries is answered. `Out`: the replica
    /// has missed an entry. `Behind`: it is below `least`.
    fn position_for(&self, least: u64) -> Result<u64, CellReadError>
        ensures { result ≡ position_for self.now.position least }
    {
        let Some(position) = self.position else {
            return Err(CellReadError::Out);
        };
        if position < least {
            return Err(CellReadError::Behind(position));
        }
        Ok(position)
    }

    /// Answers a query in transaction `tx`, 0 for none, under this login, and says at which
    /// position. `Out` and `Behind` come before the backend is asked: the replica has missed an
    /// entry, or is below `least`. The contents and the position stay in any case.
    pub fn read(
        &mut self,
        login: &Text,
        tx: u64,
        select: &Select,
        least: u64,
    ) -> Result<(Asked, u64), CellReadError>
        requires { IsWritten (request.Select select.now) }
        ensures { ReadsAnswer self.old login.now tx select.now least result self.new }
    {
        let position = self.position_for(least)?;
        let answer = self.backend.ask(login, tx, select)?;
        Ok((answer, position))
    }

    /// Takes a snapshot of what the backend holds, under this login, and says at which position. It
    /// is `None` from a backend that gives none. `Out` and `Behind` come before the backend is
    /// asked, as in `read`. The contents and the position stay in any case.
    pub fn snapshot(
        &mut self,
        login: &Text,
        least: u64,
    ) -> Result<(Option<B::Snap>, u64), CellReadError>
        ensures { TakesSnapshot B.Snap.shows self.old login.now least result self.new }
    {
        let position = self.position_for(least)?;
        let snap = self.backend.snapshot(login)?;
        Ok((snap, position))
    }

    /// Returns how many entries the replica has taken, or `None` if it is out.
    pub fn position(&self) -> Option<u64>
        ensures { result ≡ self.now.position }
    {
        self.position
    }

    /// Returns the backend, as it is.
    pub fn backend(&self) -> &B
        ensures told { B.told result.now ≡ self.now.told }
        ensures faults { B.faults result.now ≡ self.now.faults }
        ensures asks { B.asks result.now ≡ self.now.asks }
        ensures arming { B.arming result.now ≡ self.now.arming }
        ensures login { B.login result.now ≡ self.now.login }
        ensures begun { KeepsBegun self.now.position self.now.begun (B.begun result.now) }
    {
        &self.backend
    }

    /// Makes the backend's next call fail. A backend that can't be armed ignores this.
    pub fn arm(&mut self)
        ensures { self.new ≡ record self.old { arming = backends.arming_after B.can_be_armed self.old.arming } }
    {
        self.backend.arm();
    }

    /// Takes the replica apart and returns the backend, as it is.
    pub fn into_backend(self) -> B
        ensures told { B.told result ≡ self.told }
        ensures faults { B.faults result ≡ self.faults }
        ensures asks { B.asks result ≡ self.asks }
        ensures arming { B.arming result ≡ self.arming }
        ensures login { B.login result ≡ self.login }
        ensures begun { KeepsBegun self.position self.begun (B.begun result) }
    {
        let Replica { backend, .. } = self;
        backend
    }
}

fn is_begun(begun: &[u64], tx: u64) -> bool
    ensures { result ≡ has_begun begun.now tx }
{
    begun.iter().any(|other| *other == tx)
}

fn forget(begun: &mut Vec<u64>, tx: u64)
    ensures { begun.new.items ≡ filter (λ t. not (t == tx)) begun.old.items }
{
    begun.retain(|other| *other != tx);
}

/// Begins a transaction at its backend, unless `tx` is 0 or has begun there.
#[tactic(auto, using(crate::proofs::Begun::contains_begun))]
fn begin_once<B: Backend>(
    backend: &mut B,
    begun: &mut Vec<u64>,
    tx: u64,
    login: &Text,
) -> Result<(), CellError>
    requires kept { B.begun backend.old ≡ begun.old.items }
    ensures begun { OnOk result (begun.new.items ≡ begun_at_write begun.old.items tx) }
    ensures kept { OnOk result (B.begun backend.new ≡ begun.new.items) }
    ensures ready { OnOk result (backends.IsBegun (B.begun backend.new) tx) }
    ensures told { TellsAfter (B.told backend.old) (B.told backend.old) result (B.told backend.new) }
    ensures cause { HasCellCause (B.faults backend.old) (B.faults backend.new) result }
    ensures asks { B.asks backend.new ≡ B.asks backend.old }
    ensures arming { SpendsArmingIf (is_err result) (result ≡ Err CellError.Failed) (B.arming backend.old) (B.arming backend.new) }
    ensures login { (B.login backend.new ≡ Some login.now) ⊎ (B.login backend.new ≡ B.login backend.old) }
{
    if tx == 0 || is_begun(begun.as_slice(), tx) {
        return Ok(());
    }
    // The backend is called before the list grows: an armed one fails, also if memory runs out.
    backend.begin(login, tx)?;
    match begun.push(tx) {
        Ok(()) => Ok(()),
        Err(_) => Err(CellError::Starved),
    }
}

/// Carries out a write. Its transaction begins at the backend first, if it has not begun there.
fn write_at<B: Backend>(
    backend: &mut B,
    begun: &mut Vec<u64>,
    tx: u64,
    write: &Write,
    login: &Text,
) -> Result<Outcome, CellError>
    requires kept { B.begun backend.old ≡ begun.old.items }
    requires written { IsWritten (request.Write write.now) }
    ensures begun { OnOk result (begun.new.items ≡ begun_at_write begun.old.items tx) }
    ensures kept { OnOk result (B.begun backend.new ≡ begun.new.items) }
    ensures outcome { SaysCarried (B.told backend.old) tx (act.Write write.now) result }
    ensures possible { IfOk result IsOutcome }
    ensures told { TellsCarried (B.told backend.old) tx (act.Write write.now) result (B.told backend.new) }
    ensures cause { HasCellCause (B.faults backend.old) (B.faults backend.new) result }
    ensures asks { B.asks backend.new ≡ B.asks backend.old }
    ensures arming { SpendsArmingIf true (result ≡ Err CellError.Failed) (B.arming backend.old) (B.arming backend.new) }
    ensures login { LogsInAt (B.login backend.old) login.now result (B.login backend.new) }
{
    begin_once(backend, begun, tx, login)?;
    Ok(backend.write(login, tx, write)?)
}

/// Carries out the act of an entry that its backend takes part in.
#[tactic(auto, using(crate::proofs::Begun::contains_begun))]
fn carry_out<B: Backend>(
    backend: &mut B,
    begun: &mut Vec<u64>,
    e: &Entry,
    login: &Text,
) -> Result<Outcome, CellError>
    requires kept { B.begun backend.old ≡ begun.old.items }
    requires part { CanCarryOut begun.old.items e.now.tx e.now.act }
    requires written { IsWritten (request_of e.now.act) }
    ensures begun { OnOk result (begun.new.items ≡ begun_after begun.old.items e.now.tx e.now.act) }
    ensures kept { OnOk result (B.begun backend.new ≡ begun.new.items) }
    ensures outcome { SaysCarried (B.told backend.old) e.now.tx e.now.act result }
    ensures possible { IfOk result IsOutcome }
    ensures told { TellsCarried (B.told backend.old) e.now.tx e.now.act result (B.told backend.new) }
    ensures cause { HasCellCause (B.faults backend.old) (B.faults backend.new) result }
    ensures asks { B.asks backend.new ≡ B.asks backend.old }
    ensures arming { SpendsArmingIf true (result ≡ Err CellError.Failed) (B.arming backend.old) (B.arming backend.new) }
    ensures login { LogsInAt (B.login backend.old) login.now result (B.login backend.new) }
{
    match &e.act {
        Act::Write(write) => write_at(backend, begun, e.tx, write, login),
        Act::Create(create) => Ok(backend.create(login, create)?),
        Act::Drop(table) => Ok(backend.drop_table(login, table)?),
        Act::Commit => {
            backend.commit(login, e.tx)?;
            forget(begun, e.tx);
            Ok(Outcome::Done(0))
        }
        Act::Abort => {
            backend.abort(login, e.tx)?;
            forget(begun, e.tx);
            Ok(Outcome::Done(0))
        }
        Act::Begin => unreachable!(),
    }
}

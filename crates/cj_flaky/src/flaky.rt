//! A backend whose chosen calls fail, over another backend.

ghost use Rattle.std.specs.Prelude.{◌≡◌, ◌↔◌, true, IsTrue};

use cj_backend::{Backend, BackendError, Counts};
use cj_model::{Asked, Create, Db, ListOf, Name, Outcome, Select, Text, Write};
use std::marker::Model;

/// A backend that passes calls on to another one, except for those that are to fail.
///
/// Calls of `begin`, `write`, `create`, `drop_table`, `commit`, `abort`, `ask`, `snapshot`, `contents` and
/// `load` are numbered from 1 up to 2^64 - 1, where the number stays. A query of a snapshot is no such call. A call is
/// to fail if and only if its number is listed or it is the next numbered call after `arm`. It then answers `Failed`,
/// passes nothing on and counts one fault. If it is a change, a load among them, contracts do not see the contents
/// until a load is carried out. Any other call gives what the inner backend gives, `Failed` included. Faults are
/// counted together with those of the inner backend, up to 2^64 - 1. Where no number is listed, no more calls failed
/// here than the backend was armed.
#[derive(Drop)]
pub struct Flaky<B: Backend> {
    inner: B,
    fails: ListOf<u64>,
    calls: u64,
    armed: bool,
    /// How often the backend was armed, up to 2^64 - 1.
    armings: u64,
    /// Whether each change since the last load that was carried out was passed on.
    passed: bool,
    /// The number of calls that failed here, up to 2^64 - 1.
    faults: u64,
}

impl<B: Backend> Model for Flaky<B> {
    ghost use Rattle.std.specs.Prelude.{◌≡◌, []};
    ghost use Rattle.cj_flaky.specs.FlakyBackends.{FailsOnlyArmed, FlakyState};

    ghost Value = { FlakyState B };

    ghost view = { λ f. record { inner = f.inner; fails = f.fails; calls = f.calls; armed = f.armed; armings = f.armings; passed = f.passed; faults = f.faults } };

    ghost invariant = { λ f. f.fails ≡ [] → FailsOnlyArmed (record { armed = f.armed; times = f.armings }) f.faults };
}

impl<B: Backend> Flaky<B> {
    ghost use Rattle.cj_flaky.specs.FlakyBackends.{EntersAsListed, EntersChange, FailsOnlyAsked, IsToFail, fresh_over, numbered};

    /// Wraps a backend; the calls whose numbers are in `fails` will fail.
    pub fn new(backend: B, fails: ListOf<u64>) -> Flaky<B>
        ensures { result ≡ fresh_over backend fails }
    {
        Flaky {
            inner: backend,
            fails,
            calls: 0,
            armed: false,
            armings: 0,
            passed: true,
            faults: 0,
        }
    }

    /// The inner backend in its present state.
    pub fn inner(&self) -> &B
        ensures { result.now ≡ self.now.inner }
    {
        &self.inner
    }

    /// Unwraps the inner backend, which lacks the calls that failed here.
    pub fn into_inner(self) -> B
        ensures { result ≡ self.inner }
    {
        let Flaky { inner, .. } = self;
        inner
    }

    /// Shows that a backend without listed calls has failed no more often than it was armed. Faults of the
    /// inner backend are not among those that are counted here.
    pub fn legal(&self)
        ensures { FailsOnlyAsked self.now }
    {
        let _ = &self.fails;
    }

    /// Numbers the next call, and says whether it is to fail.
    fn is_next_to_fail(&mut self) -> bool
        ensures fails { IsTrue result ↔ IsToFail self.old }
        ensures numbered { self.new ≡ numbered self.old }
    {
        self.calls = self.calls.saturating_add(1);
        let listed = self.fails.as_slice().contains(&self.calls);
        let fails = listed || self.armed;
        self.armed = false;
        fails
    }

    /// Enters the next call. Answers `Failed` and counts a fault if the call is to fail.
    fn enter(&mut self) -> Result<(), BackendError>
        ensures { EntersAsListed self.old result self.new }
    {
        self.legal();
        if self.is_next_to_fail() {
            self.faults = self.faults.saturating_add(1);
            return Err(BackendError::Failed);
        }
        Ok(())
    }

    /// Enters a change. If it is to fail, contracts do not see the contents until a load is carried out.
    fn enter_change(&mut self) -> Result<(), BackendError>
        ensures { EntersChange self.old result self.new }
    {
        let entered = self.enter();
        if entered.is_err() {
            self.passed = false;
        }
        entered
    }
}

impl<B: Backend> Backend for Flaky<B> {
    ghost use Rattle.std.specs.Prelude.{Contains, IfOk, IfSome, Some, is_some};
    ghost use Rattle.cj_outside.specs.Causes.{next};
    ghost use Rattle.cj_model.specs.declared.request.Act.TheVariants as act;
    ghost use Rattle.cj_model.specs.declared.request.Request.TheVariants as request;
    ghost use Rattle.cj_model.specs.Sql.WrittenRequests.{IsWritten};
    ghost use Rattle.cj_model.specs.Database.Outcomes.{IsOutcome, IsAsked};
    ghost use Rattle.cj_model.specs.Database.Storable.{IsStorable};
    ghost use Rattle.cj_backend.specs.Backends.{HasBackendCause, SaysOutcome, SaysAnswer, told_after, LogsIn, LogsInToAsk, LogsInToSnapshot, IsBegun, begun_with, begun_without, told_loaded, begun_loaded, asks_after, asks_after_snapshot, SpendsArming};
    ghost use Rattle.cj_flaky.specs.FlakyBackends.{CallsAsListed, ChangesAsListed, LoadsAsListed, PassesAsk, PassesBegin, PassesContents, PassesEnd, PassesLoad, PassesSnapshot, PassesWrite, arming_of, faults_by, told_by};

    type Snap = B::Snap;

    ghost tells = { B.tells };

    ghost told = { λ f. told_by B.told f };

    ghost faults = { λ f. faults_by B.faults f };

    ghost asks = { λ f. B.asks f.inner };

    ghost begun = { λ f. B.begun f.inner };

    ghost login = { λ f. B.login f.inner };

    ghost can_be_armed = { true };

    ghost arming = { λ f. arming_of f };

    ghost snaps = { λ f. B.snaps f.inner };

    fn begin(&mut self, user: &Text, tx: u64) -> Result<(), BackendError>
        requires { ¬ Contains (B.begun self.old.inner) tx }
        ensures told { told_by B.told self.new ≡ told_after (told_by B.told self.old) tx act.Begin result }
        ensures cause { HasBackendCause (faults_by B.faults self.old) (faults_by B.faults self.new) result }
        ensures login { LogsIn (B.login self.old.inner) user.now result (B.login self.new.inner) }
        ensures begun { B.begun self.new.inner ≡ begun_with (B.begun self.old.inner) tx result }
        ensures asks { B.asks self.new.inner ≡ B.asks self.old.inner }
        ensures arming { SpendsArming (arming_of self.old) (arming_of self.new) result }
        ensures listed { ChangesAsListed self.old result self.new (PassesBegin B.Backend self.old.inner user.now tx result self.new.inner) }
    {
        self.enter_change()?;
        self.inner.begin(user, tx)
    }

    fn write(&mut self, user: &Text, tx: u64, write: &Write) -> Result<Outcome, BackendError>
        requires begun { IsBegun (B.begun self.old.inner) tx }
        requires written { IsWritten (request.Write write.now) }
        ensures outcome { SaysOutcome (told_by B.told self.old) tx (act.Write write.now) result }
        ensures possible { IfOk result IsOutcome }
        ensures told { told_by B.told self.new ≡ told_after (told_by B.told self.old) tx (act.Write write.now) result }
        ensures cause { HasBackendCause (faults_by B.faults self.old) (faults_by B.faults self.new) result }
        ensures login { LogsIn (B.login self.old.inner) user.now result (B.login self.new.inner) }
        ensures begun { B.begun self.new.inner ≡ B.begun self.old.inner }
        ensures asks { B.asks self.new.inner ≡ B.asks self.old.inner }
        ensures arming { SpendsArming (arming_of self.old) (arming_of self.new) result }
        ensures listed { ChangesAsListed self.old result self.new (PassesWrite B.Backend self.old.inner user.now tx (act.Write write.now) result self.new.inner) }
    {
        self.enter_change()?;
        self.inner.write(user, tx, write)
    }

    fn create(&mut self, user: &Text, create: &Create) -> Result<Outcome, BackendError>
        requires { IsWritten (request.Create create.now) }
        ensures outcome { SaysOutcome (told_by B.told self.old) 0 (act.Create create.now) result }
        ensures possible { IfOk result IsOutcome }
        ensures told { told_by B.told self.new ≡ told_after (told_by B.told self.old) 0 (act.Create create.now) result }
        ensures cause { HasBackendCause (faults_by B.faults self.old) (faults_by B.faults self.new) result }
        ensures login { LogsIn (B.login self.old.inner) user.now result (B.login self.new.inner) }
        ensures begun { B.begun self.new.inner ≡ B.begun self.old.inner }
        ensures asks { B.asks self.new.inner ≡ B.asks self.old.inner }
        ensures arming { SpendsArming (arming_of self.old) (arming_of self.new) result }
        ensures listed { ChangesAsListed self.old result self.new (PassesWrite B.Backend self.old.inner user.now 0 (act.Create create.now) result self.new.inner) }
    {
        self.enter_change()?;
        self.inner.create(user, create)
    }

    fn drop_table(&mut self, user: &Text, table: &Name) -> Result<Outcome, BackendError>
        ensures outcome { SaysOutcome (told_by B.told self.old) 0 (act.Drop table.now) result }
        ensures possible { IfOk result IsOutcome }
        ensures told { told_by B.told self.new ≡ told_after (told_by B.told self.old) 0 (act.Drop table.now) result }
        ensures cause { HasBackendCause (faults_by B.faults self.old) (faults_by B.faults self.new) result }
        ensures login { LogsIn (B.login self.old.inner) user.now result (B.login self.new.inner) }
        ensures begun { B.begun self.new.inner ≡ B.begun self.old.inner }
        ensures asks { B.asks self.new.inner ≡ B.asks self.old.inner }
        ensures arming { SpendsArming (arming_of self.old) (arming_of self.new) result }
        ensures listed { ChangesAsListed self.old result self.new (PassesWrite B.Backend self.old.inner user.now 0 (act.Drop table.now) result self.new.inner) }
    {
        self.enter_change()?;
        self.inner.drop_table(user, table)
    }

    fn commit(&mut self, user: &Text, tx: u64) -> Result<(), BackendError>
        requires { Contains (B.begun self.old.inner) tx }
        ensures told { told_by B.told self.new ≡ told_after (told_by B.told self.old) tx act.Commit result }
        ensures cause { HasBackendCause (faults_by B.faults self.old) (faults_by B.faults self.new) result }
        ensures login { LogsIn (B.login self.old.inner) user.now result (B.login self.new.inner) }
        ensures begun { B.begun self.new.inner ≡ begun_without (B.begun self.old.inner) tx result }
        ensures asks { B.asks self.new.inner ≡ B.asks self.old.inner }
        ensures arming { SpendsArming (arming_of self.old) (arming_of self.new) result }
        ensures listed { ChangesAsListed self.old result self.new (PassesEnd B.Backend self.old.inner user.now tx act.Commit result self.new.inner) }
    {
        self.enter_change()?;
        self.inner.commit(user, tx)
    }

    fn abort(&mut self, user: &Text, tx: u64) -> Result<(), BackendError>
        requires { Contains (B.begun self.old.inner) tx }
        ensures told { told_by B.told self.new ≡ told_after (told_by B.told self.old) tx act.Abort result }
        ensures cause { HasBackendCause (faults_by B.faults self.old) (faults_by B.faults self.new) result }
        ensures login { LogsIn (B.login self.old.inner) user.now result (B.login self.new.inner) }
        ensures begun { B.begun self.new.inner ≡ begun_without (B.begun self.old.inner) tx result }
        ensures asks { B.asks self.new.inner ≡ B.asks self.old.inner }
        ensures arming { SpendsArming (arming_of self.old) (arming_of self.new) result }
        ensures listed { ChangesAsListed self.old result self.new (PassesEnd B.Backend self.old.inner user.now tx act.Abort result self.new.inner) }
    {
        self.enter_change()?;
        self.inner.abort(user, tx)
    }

    fn ask(&mut self, user: &Text, tx: u64, select: &Select) -> Result<Asked, BackendError>
        requires { IsWritten (request.Select select.now) }
        ensures answer { SaysAnswer (told_by B.told self.old) tx select.now result }
        ensures possible { IfOk result IsAsked }
        ensures told { told_by B.told self.new ≡ told_by B.told self.old }
        ensures cause { HasBackendCause (faults_by B.faults self.old) (faults_by B.faults self.new) result }
        ensures login { LogsInToAsk (B.login self.old.inner) user.now result (B.login self.new.inner) }
        ensures begun { B.begun self.new.inner ≡ B.begun self.old.inner }
        ensures asks { B.asks self.new.inner ≡ asks_after (B.asks self.old.inner) result }
        ensures arming { SpendsArming (arming_of self.old) (arming_of self.new) result }
        ensures listed { CallsAsListed self.old result self.new (PassesAsk B.Backend self.old.inner user.now tx select.now result self.new.inner) }
    {
        self.enter()?;
        self.inner.ask(user, tx, select)
    }

    fn snapshot(&mut self, user: &Text) -> Result<Option<B::Snap>, BackendError>
        ensures given { IfOk result (λ snap. is_some snap ≡ B.snaps self.old.inner) }
        ensures shows { IfOk result (λ snap. IfSome snap (λ s. IfSome (told_by B.told self.old) (λ db. B.Snap.shows s ≡ Some db))) }
        ensures told { told_by B.told self.new ≡ told_by B.told self.old }
        ensures cause { HasBackendCause (faults_by B.faults self.old) (faults_by B.faults self.new) result }
        ensures login { LogsInToSnapshot (B.login self.old.inner) user.now result (B.login self.new.inner) }
        ensures begun { B.begun self.new.inner ≡ B.begun self.old.inner }
        ensures asks { B.asks self.new.inner ≡ asks_after_snapshot (B.asks self.old.inner) result }
        ensures arming { SpendsArming (arming_of self.old) (arming_of self.new) result }
        ensures listed { CallsAsListed self.old result self.new (PassesSnapshot B.Backend self.old.inner B.Snap.shows user.now result self.new.inner) }
    {
        self.enter()?;
        self.inner.snapshot(user)
    }

    fn contents(&mut self) -> Result<Db, BackendError>
        ensures contents { IfOk result (λ db. IfSome (told_by B.told self.old) (λ held. db ≡ held)) }
        ensures storable { IfOk result IsStorable }
        ensures told { told_by B.told self.new ≡ told_by B.told self.old }
        ensures cause { HasBackendCause (faults_by B.faults self.old) (faults_by B.faults self.new) result }
        ensures login { B.login self.new.inner ≡ B.login self.old.inner }
        ensures begun { B.begun self.new.inner ≡ B.begun self.old.inner }
        ensures asks { B.asks self.new.inner ≡ B.asks self.old.inner }
        ensures arming { SpendsArming (arming_of self.old) (arming_of self.new) result }
        ensures listed { CallsAsListed self.old result self.new (PassesContents B.Backend self.old.inner result self.new.inner) }
    {
        self.enter()?;
        self.inner.contents()
    }

    /// After a load that is carried out the inner backend holds the loaded database, whatever changes it
    /// lacked before.
    fn load(&mut self, db: Db) -> Result<(), BackendError>
        requires { IsStorable db }
        ensures told { told_by B.told self.new ≡ told_loaded B.tells db result }
        ensures cause { HasBackendCause (faults_by B.faults self.old) (faults_by B.faults self.new) result }
        ensures login { B.login self.new.inner ≡ B.login self.old.inner }
        ensures begun { B.begun self.new.inner ≡ begun_loaded (B.begun self.old.inner) db result }
        ensures asks { B.asks self.new.inner ≡ B.asks self.old.inner }
        ensures arming { SpendsArming (arming_of self.old) (arming_of self.new) result }
        ensures listed { LoadsAsListed self.old result self.new (PassesLoad B.Backend self.old.inner db result self.new.inner) }
    {
        self.enter_change()?;
        self.inner.load(db)?;
        self.passed = true;
        Ok(())
    }

    fn counts(&self) -> Counts {
        let inner = self.inner.counts();
        Counts {
            faults: self.faults.saturating_add(inner.faults),
            asks: inner.asks,
            begun: inner.begun,
        }
    }

    fn login(&self) -> Option<&Text> {
        self.inner.login()
    }

    /// Arms this backend: the next numbered call fails. The inner backend is not armed.
    fn arm(&mut self)
        ensures { self.new ≡ record self.old { armed = true; armings = next self.old.armings } }
    {
        self.armed = true;
        self.armings = self.armings.saturating_add(1);
    }
}

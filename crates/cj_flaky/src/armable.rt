//! A backend that fails only where it is armed, over another backend.

ghost use Rattle.std.specs.Prelude.{◌≡◌, true, []};

use crate::flaky::Flaky;
use cj_backend::{Backend, BackendError, Counts};
use cj_model::{Asked, Create, Db, ListOf, Name, Outcome, Select, Text, Write};
use std::alloc::Global;
use std::marker::Model;

/// A `Flaky` of which no call is listed: a call fails here if and only if it is the next numbered one after
/// `arm`. So no more calls fail here than the backend is armed.
#[derive(Drop)]
pub struct Armable<B: Backend> {
    inner: Flaky<B>,
}

impl<B: Backend> Model for Armable<B> {
    ghost use Rattle.std.specs.Prelude.{◌≡◌, []};
    ghost use Rattle.cj_flaky.specs.FlakyBackends.{FlakyState};

    ghost Value = { FlakyState B };

    ghost view = { λ a. a.inner };

    ghost invariant = { λ a. a.inner.fails ≡ [] };
}

impl<B: Backend> Armable<B> {
    ghost use Rattle.cj_flaky.specs.FlakyBackends.{FailsOnlyArmed, arming_of, fresh_over};

    /// Wraps a backend, and is not armed.
    pub fn new(alloc: Global, backend: B) -> Armable<B>
        ensures { result ≡ fresh_over backend [] }
    {
        Armable {
            inner: Flaky::new(backend, ListOf::new(alloc)),
        }
    }

    /// Shows that no more calls failed here than this backend was armed. Faults of the inner backend are not
    /// among those that are counted here.
    pub fn legal(&self)
        ensures { FailsOnlyArmed (arming_of self.now) self.now.faults }
    {
        self.inner.legal();
    }
}

impl<B: Backend> Backend for Armable<B> {
    ghost use Rattle.cj_flaky.specs.FlakyBackends.{arming_of, faults_by, told_by};

    type Snap = B::Snap;

    ghost tells = { B.tells };

    ghost told = { λ a. told_by B.told a };

    ghost faults = { λ a. faults_by B.faults a };

    ghost asks = { λ a. B.asks a.inner };

    ghost begun = { λ a. B.begun a.inner };

    ghost login = { λ a. B.login a.inner };

    ghost can_be_armed = { true };

    ghost arming = { λ a. arming_of a };

    ghost snaps = { λ a. B.snaps a.inner };

    fn begin(&mut self, user: &Text, tx: u64) -> Result<(), BackendError> {
        self.inner.begin(user, tx)
    }

    fn write(&mut self, user: &Text, tx: u64, write: &Write) -> Result<Outcome, BackendError> {
        self.inner.write(user, tx, write)
    }

    fn create(&mut self, user: &Text, create: &Create) -> Result<Outcome, BackendError> {
        self.inner.create(user, create)
    }

    fn drop_table(&mut self, user: &Text, table: &Name) -> Result<Outcome, BackendError> {
        self.inner.drop_table(user, table)
    }

    fn commit(&mut self, user: &Text, tx: u64) -> Result<(), BackendError> {
        self.inner.commit(user, tx)
    }

    fn abort(&mut self, user: &Text, tx: u64) -> Result<(), BackendError> {
        self.inner.abort(user, tx)
    }

    fn ask(&mut self, user: &Text, tx: u64, select: &Select) -> Result<Asked, BackendError> {
        self.inner.ask(user, tx, select)
    }

    fn snapshot(&mut self, user: &Text) -> Result<Option<B::Snap>, BackendError> {
        self.inner.snapshot(user)
    }

    fn contents(&mut self) -> Result<Db, BackendError> {
        self.inner.contents()
    }

    fn load(&mut self, db: Db) -> Result<(), BackendError> {
        self.inner.load(db)
    }

    fn counts(&self) -> Counts {
        self.inner.counts()
    }

    fn login(&self) -> Option<&Text> {
        self.inner.login()
    }

    /// Arms this backend: the next numbered call fails. The inner backend is not armed.
    fn arm(&mut self) {
        self.inner.arm();
    }
}

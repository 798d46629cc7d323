//! A backend that tells its contents only where a store does, over another backend.

ghost use Rattle.std.specs.Prelude.{◌≡◌};
ghost use Rattle.cj_beside.specs.Besides.{told_beside};

use cj_backend::{Backend, BackendError, Counts};
use cj_model::{Asked, Create, Db, Name, Outcome, Select, Text, Write};
use cj_outside::Store;
use std::marker::PhantomData;

/// A backend that passes every call on to another one. Contracts see its contents only where they see those of that
/// backend and the bytes of a store of type `D`.
///
/// It has no such store itself. A call with the bound `Send` asks it of `D` all the same.
#[derive(Drop)]
pub struct Beside<B: Backend, D: Store> {
    inner: B,
    of: PhantomData<D>,
}

impl<B: Backend, D: Store> Beside<B, D> {
    /// Wraps a backend, which stays as it is.
    pub fn new(backend: B) -> Beside<B, D>
        ensures { result.inner ≡ backend }
    {
        Beside {
            inner: backend,
            of: PhantomData,
        }
    }

    /// Unwraps the backend, which has carried out every call.
    pub fn into_inner(self) -> B
        ensures { result ≡ self.inner }
    {
        let Beside { inner, .. } = self;
        inner
    }
}

impl<B: Backend, D: Store> Backend for Beside<B, D> {
    ghost use Rattle.std.specs.Prelude.{◌&&◌};

    type Snap = B::Snap;

    ghost tells = { B.tells && D.tells };

    ghost told = { λ b. told_beside D.tells (B.told b.inner) };

    ghost faults = { λ b. B.faults b.inner };

    ghost asks = { λ b. B.asks b.inner };

    ghost begun = { λ b. B.begun b.inner };

    ghost login = { λ b. B.login b.inner };

    ghost can_be_armed = { B.can_be_armed };

    ghost arming = { λ b. B.arming b.inner };

    ghost snaps = { λ b. B.snaps b.inner };

    fn begin(&mut self, user: &Text, tx: u64) -> Result<(), BackendError> {
        self.inner.begin(user, tx)
    }

    fn write(&mut self, user: &Text, tx: u64, write: &Write) -> Result<Outcome, BackendError> {
        self.inner.write(user, tx, write)
    }

    fn create(&mut self, user: &Text, create: &Create) -> Result<Outcome, BackendError> {
        self.inner.create(user, create)
    }

    fn drop_table(&mut self, user: &Text, table: &Name) -> Result<Outcome, BackendError> {
        self.inner.drop_table(user, table)
    }

    fn commit(&mut self, user: &Text, tx: u64) -> Result<(), BackendError> {
        self.inner.commit(user, tx)
    }

    fn abort(&mut self, user: &Text, tx: u64) -> Result<(), BackendError> {
        self.inner.abort(user, tx)
    }

    fn ask(&mut self, user: &Text, tx: u64, select: &Select) -> Result<Asked, BackendError> {
        self.inner.ask(user, tx, select)
    }

    fn snapshot(&mut self, user: &Text) -> Result<Option<B::Snap>, BackendError> {
        self.inner.snapshot(user)
    }

    fn contents(&mut self) -> Result<Db, BackendError> {
        self.inner.contents()
    }

    fn load(&mut self, db: Db) -> Result<(), BackendError> {
        self.inner.load(db)
    }

    fn counts(&self) -> Counts {
        self.inner.counts()
    }

    fn login(&self) -> Option<&Text> {
        self.inner.login()
    }

    fn arm(&mut self) {
        self.inner.arm();
    }
}

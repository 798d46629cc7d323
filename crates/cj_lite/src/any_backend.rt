//! Backends of either kind.

use crate::lite_backend::LiteBackend;
use cj_backend::{Backend, BackendError, Counts, NoSnap, Snap};
use cj_mem::{MemBackend, MemSnap};
use cj_model::{Asked, Create, Db, Name, NoMemory, Outcome, Select, Text, Write};

/// A backend of either kind. Contracts see nothing of what it holds.
#[derive(Drop)]
pub enum AnyBackend {
    Mem(MemBackend),
    Lite(LiteBackend),
}

/// A snapshot of a backend of either kind. Contracts see nothing of what it shows.
#[derive(Drop)]
pub enum AnySnap {
    Mem(MemSnap),
    Lite(NoSnap),
}

impl Snap for AnySnap {
    ghost use Rattle.cj_lite.specs.LiteBackends.{untold};

    ghost shows = { λ _. untold };

    fn ask(&mut self, tx: u64, select: &Select) -> Result<Asked, NoMemory> {
        match self {
            AnySnap::Mem(snap) => snap.ask(tx, select),
            AnySnap::Lite(snap) => snap.ask(tx, select),
        }
    }
}

impl Backend for AnyBackend {
    ghost use Rattle.std.specs.Prelude.{false};
    ghost use Rattle.cj_lite.specs.AnyBackends.{asks_of, begun_of, faults_of, login_of, snaps_of};
    ghost use Rattle.cj_lite.specs.LiteBackends.{never_armed, untold};

    type Snap = AnySnap;

    ghost tells = { false };

    ghost told = { λ _. untold };

    ghost faults = { λ b. faults_of b };

    ghost asks = { λ b. asks_of b };

    ghost begun = { λ b. begun_of b };

    ghost login = { λ b. login_of b };

    ghost can_be_armed = { false };

    ghost arming = { λ _. never_armed };

    ghost snaps = { λ b. snaps_of b };

    fn begin(&mut self, user: &Text, tx: u64) -> Result<(), BackendError> {
        match self {
            AnyBackend::Mem(backend) => backend.begin(user, tx),
            AnyBackend::Lite(backend) => backend.begin(user, tx),
        }
    }

    fn write(&mut self, user: &Text, tx: u64, write: &Write) -> Result<Outcome, BackendError> {
        match self {
            AnyBackend::Mem(backend) => backend.write(user, tx, write),
            AnyBackend::Lite(backend) => backend.write(user, tx, write),
        }
    }

    fn create(&mut self, user: &Text, create: &Create) -> Result<Outcome, BackendError> {
        match self {
            AnyBackend::Mem(backend) => backend.create(user, create),
            AnyBackend::Lite(backend) => backend.create(user, create),
        }
    }

    fn drop_table(&mut self, user: &Text, table: &Name) -> Result<Outcome, BackendError> {
        match self {
            AnyBackend::Mem(backend) => backend.drop_table(user, table),
            AnyBackend::Lite(backend) => backend.drop_table(user, table),
        }
    }

    fn commit(&mut self, user: &Text, tx: u64) -> Result<(), BackendError> {
        match self {
            AnyBackend::Mem(backend) => backend.commit(user, tx),
            AnyBackend::Lite(backend) => backend.commit(user, tx),
        }
    }

    fn abort(&mut self, user: &Text, tx: u64) -> Result<(), BackendError> {
        match self {
            AnyBackend::Mem(backend) => backend.abort(user, tx),
            AnyBackend::Lite(backend) => backend.abort(user, tx),
        }
    }

    fn ask(&mut self, user: &Text, tx: u64, select: &Select) -> Result<Asked, BackendError> {
        match self {
            AnyBackend::Mem(backend) => backend.ask(user, tx, select),
            AnyBackend::Lite(backend) => backend.ask(user, tx, select),
        }
    }

    fn snapshot(&mut self, user: &Text) -> Result<Option<AnySnap>, BackendError> {
        match self {
            AnyBackend::Mem(backend) => Ok(backend.snapshot(user)?.map(AnySnap::Mem)),
            AnyBackend::Lite(backend) => Ok(backend.snapshot(user)?.map(AnySnap::Lite)),
        }
    }

    fn contents(&mut self) -> Result<Db, BackendError> {
        match self {
            AnyBackend::Mem(backend) => backend.contents(),
            AnyBackend::Lite(backend) => backend.contents(),
        }
    }

    fn load(&mut self, db: Db) -> Result<(), BackendError> {
        match self {
            AnyBackend::Mem(backend) => backend.load(db),
            AnyBackend::Lite(backend) => backend.load(db),
        }
    }

    fn counts(&self) -> Counts {
        match self {
            AnyBackend::Mem(backend) => backend.counts(),
            AnyBackend::Lite(backend) => backend.counts(),
        }
    }

    fn login(&self) -> Option<&Text> {
        match self {
            AnyBackend::Mem(backend) => backend.login(),
            AnyBackend::Lite(backend) => backend.login(),
        }
    }

    fn arm(&mut self) {
        match self {
            AnyBackend::Mem(backend) => backend.arm(),
            AnyBackend::Lite(backend) => backend.arm(),
        }
    }
}

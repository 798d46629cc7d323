//! A backend whose queries and writes pass a gate, over another backend.

ghost use Rattle.std.specs.Prelude.{◌≡◌};

use cj_backend::{Backend, BackendError, Counts, Snap};
use cj_model::{Asked, Create, Db, Name, NoMemory, Outcome, Select, Text, Write};

/// A gate at which calls wait before they go on.
pub trait Gate {
    /// Called before each query, of the backend or of a snapshot.
    fn pass(&mut self);

    /// Called before each write; does nothing by default.
    fn pass_write(&mut self) {}

    /// Another gate over the same flags, which takes no memory. `None` where they cannot be shared once more.
    fn again(&self) -> Option<Self>;
}

/// A snapshot that passes a gate before each query. It has none where the backend's gate gave no other.
#[derive(Drop)]
pub struct GatedSnap<S: Snap, G: Gate> {
    inner: S,
    gate: Option<G>,
}

impl<S: Snap, G: Gate> Snap for GatedSnap<S, G> {
    ghost shows = { λ s. S.shows s.inner };

    fn ask(&mut self, tx: u64, select: &Select) -> Result<Asked, NoMemory> {
        if let Some(gate) = &mut self.gate {
            gate.pass();
        }
        self.inner.ask(tx, select)
    }
}

/// A backend that passes every call on to another one, and tells what that one tells. Before each query and
/// each write it passes its gate. A snapshot is taken at once, and passes a gate of its own before each query.
#[derive(Drop)]
pub struct Gated<B: Backend, G: Gate> {
    inner: B,
    gate: G,
}

impl<B: Backend, G: Gate> Gated<B, G> {
    /// Wraps a backend with a gate.
    pub fn new(backend: B, gate: G) -> Gated<B, G>
        ensures { (result.inner ≡ backend) × (result.gate ≡ gate) }
    {
        Gated {
            inner: backend,
            gate,
        }
    }
}

impl<B: Backend, G: Gate + Drop> Backend for Gated<B, G> {
    type Snap = GatedSnap<B::Snap, G>;

    ghost tells = { B.tells };

    ghost told = { λ g. B.told g.inner };

    ghost faults = { λ g. B.faults g.inner };

    ghost asks = { λ g. B.asks g.inner };

    ghost begun = { λ g. B.begun g.inner };

    ghost login = { λ g. B.login g.inner };

    ghost can_be_armed = { B.can_be_armed };

    ghost arming = { λ g. B.arming g.inner };

    ghost snaps = { λ g. B.snaps g.inner };

    fn begin(&mut self, user: &Text, tx: u64) -> Result<(), BackendError> {
        self.inner.begin(user, tx)
    }

    fn write(&mut self, user: &Text, tx: u64, write: &Write) -> Result<Outcome, BackendError> {
        self.gate.pass_write();
        self.inner.write(user, tx, write)
    }

    fn create(&mut self, user: &Text, create: &Create) -> Result<Outcome, BackendError> {
        self.inner.create(user, create)
    }

    fn drop_table(&mut self, user: &Text, table: &Name) -> Result<Outcome, BackendError> {
        self.inner.drop_table(user, table)
    }

    fn commit(&mut self, user: &Text, tx: u64) -> Result<(), BackendError> {
        self.inner.commit(user, tx)
    }

    fn abort(&mut self, user: &Text, tx: u64) -> Result<(), BackendError> {
        self.inner.abort(user, tx)
    }

    fn ask(&mut self, user: &Text, tx: u64, select: &Select) -> Result<Asked, BackendError> {
        self.gate.pass();
        self.inner.ask(user, tx, select)
    }

    fn snapshot(&mut self, user: &Text) -> Result<Option<GatedSnap<B::Snap, G>>, BackendError> {
        match self.inner.snapshot(user) {
            Ok(Some(inner)) => {
                let gate = self.gate.again();
                Ok(Some(GatedSnap { inner, gate }))
            }
            Ok(None) => Ok(None),
            Err(error) => Err(error),
        }
    }

    fn contents(&mut self) -> Result<Db, BackendError> {
        self.inner.contents()
    }

    fn load(&mut self, db: Db) -> Result<(), BackendError> {
        self.inner.load(db)
    }

    fn counts(&self) -> Counts {
        self.inner.counts()
    }

    fn login(&self) -> Option<&Text> {
        self.inner.login()
    }

    fn arm(&mut self) {
        self.inner.arm();
    }
}

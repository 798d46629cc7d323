//! What a database has to offer, to take part in a cluster.

ghost use Rattle.std.specs.Prelude.{◌≡◌, ℕ, Bool, List, IfOk, IfSome, Contains, length, option_copied};
ghost use Rattle.std.specs.declared.option.Option.{Option};
ghost use Rattle.cj_model.specs.declared.database.Slot.{Slot};
ghost use Rattle.cj_model.specs.declared.request.Act.TheVariants as act;
ghost use Rattle.cj_model.specs.declared.request.Request.TheVariants as request;
ghost use Rattle.cj_model.specs.Sql.WrittenRequests.{IsWritten};
ghost use Rattle.cj_model.specs.Database.Storable.{IsStorable};
ghost use Rattle.cj_model.specs.Database.Outcomes.{IsAsked};
ghost use Rattle.cj_backend.specs.Backends.{SaysAnswer};

use cj_model::{Asked, Create, Db, Name, NoMemory, Outcome, Select, Text, Write};
use thiserror::Error;

/// Why a backend did not carry out a call.
#[derive(Clone, Copy, Debug, PartialEq, Eq, Error)]
pub enum BackendError {
    /// The backend failed, and has counted a fault.
    #[error("the backend failed")]
    Failed,
    #[error("out of memory")]
    NoMemory,
}

impl From<NoMemory> for BackendError {
    ghost use Rattle.std.specs.Prelude.{◌≡◌};
    ghost use Rattle.cj_backend.specs.declared.backend.BackendError.TheVariants as errors;

    ghost from_gives = { λ _ e. e ≡ errors.NoMemory };

    fn from(_error: NoMemory) -> BackendError {
        BackendError::NoMemory
    }
}

/// The counts that a backend keeps.
#[derive(Clone, Copy, PartialEq, Eq)]
pub struct Counts {
    /// The faults, up to 2^64 - 1.
    pub faults: u64,
    /// The queries that were answered, up to 2^64 - 1; a refusal is an answer.
    pub asks: u64,
    /// The transactions that are begun and have not ended.
    pub begun: u64,
}

/// What a backend held at one moment, which answers queries while the backend goes on.
///
/// Answers count no query and no fault of the backend, and leave its last login.
pub trait Snap {
    /// The database that the snapshot shows, or `None` where contracts do not see it.
    ghost shows: { Self → Option (List Slot) };

    /// Answers a query of transaction `tx`, 0 for none, or refuses it. The snapshot shows the same as before, after
    /// an error too.
    fn ask(&mut self, tx: u64, select: &Select) -> Result<Asked, NoMemory>
        requires { IsWritten (request.Select select.now) }
        ensures answer { SaysAnswer (shows self.old) tx select.now result }
        ensures possible { IfOk result IsAsked }
        ensures shows { shows self.new ≡ shows self.old };
}

/// The snapshot of a backend that gives none. Nothing makes one, and `ask` would answer `NoMemory`.
#[derive(Drop)]
pub struct NoSnap(());

impl Snap for NoSnap {
    ghost use Rattle.cj_backend.specs.Backends.{nothing_shown};

    ghost shows = { λ _. nothing_shown };

    fn ask(&mut self, _tx: u64, _select: &Select) -> Result<Asked, NoMemory> {
        Err(NoMemory)
    }
}

/// A database that carries out changes and answers queries, one call after another. It keeps its own
/// allocator.
///
/// Each call but `contents`, `load`, `counts`, `login` and `arm` names the login under which it is made.
/// Each but `counts`, `login` and `arm` may fail. `Failed` counts one fault; `NoMemory` counts none, nor
/// does a call that is carried out. After a change that failed, a load among them, contracts no longer see
/// what the backend holds. They see it again after the next load that is carried out.
pub trait Backend {
    ghost use Rattle.std.specs.Option.{is_some};
    ghost use Rattle.cj_model.specs.Database.Outcomes.{IsOutcome, IsAsked};
    ghost use Rattle.cj_backend.specs.Backends.{HasBackendCause, SaysOutcome, SaysAnswer, told_after, LogsIn, LogsInToAsk, LogsInToSnapshot, IsBegun, begun_with, begun_without, told_loaded, begun_loaded, asks_after, asks_after_snapshot, Arming, SpendsArming, arming_after};

    /// The snapshots that the backend gives.
    type Snap: Snap + Drop;

    /// Whether contracts see what the backend holds: always, except from a failed change to the next load
    /// that is carried out.
    ghost tells: { Bool };

    /// The database that the backend holds, or `None` where contracts do not see it.
    ghost told: { Self → Option (List Slot) };

    /// The number of faults that the backend has counted.
    ghost faults: { Self → ℕ };

    /// The number of queries that the backend answered; a refusal is an answer.
    ghost asks: { Self → ℕ };

    /// The transactions that are begun and have not ended, in the order of their beginnings.
    ghost begun: { Self → List ℕ };

    /// The login of the last call.
    ghost login: { Self → Option (List ℕ) };

    /// Whether the backend can be armed to fail.
    ghost can_be_armed: { Bool };

    /// Whether the backend is armed, and how often it was.
    ghost arming: { Self → Arming };

    /// Whether the backend gives snapshots.
    ghost snaps: { Self → Bool };

    /// Begins transaction `tx`, which must not be begun yet. After an error it is not begun, and contracts
    /// no longer see what the backend holds.
    fn begin(&mut self, user: &Text, tx: u64) -> Result<(), BackendError>
        requires { ¬ Contains (begun self.old) tx }
        ensures told { told self.new ≡ told_after (told self.old) tx act.Begin result }
        ensures cause { HasBackendCause (faults self.old) (faults self.new) result }
        ensures login { LogsIn (login self.old) user.now result (login self.new) }
        ensures begun { begun self.new ≡ begun_with (begun self.old) tx result }
        ensures asks { asks self.new ≡ asks self.old }
        ensures arming { SpendsArming (arming self.old) (arming self.new) result };

    /// Carries out a write of transaction `tx`, 0 for none, or refuses it. After an error contracts no
    /// longer see what the backend holds.
    fn write(&mut self, user: &Text, tx: u64, write: &Write) -> Result<Outcome, BackendError>
        requires begun { IsBegun (begun self.old) tx }
        requires written { IsWritten (request.Write write.now) }
        ensures outcome { SaysOutcome (told self.old) tx (act.Write write.now) result }
        ensures possible { IfOk result IsOutcome }
        ensures told { told self.new ≡ told_after (told self.old) tx (act.Write write.now) result }
        ensures cause { HasBackendCause (faults self.old) (faults self.new) result }
        ensures login { LogsIn (login self.old) user.now result (login self.new) }
        ensures begun { begun self.new ≡ begun self.old }
        ensures asks { asks self.new ≡ asks self.old }
        ensures arming { SpendsArming (arming self.old) (arming self.new) result };

    /// Creates a table outside of a transaction, or refuses it. After an error contracts no longer see what
    /// the backend holds.
    fn create(&mut self, user: &Text, create: &Create) -> Result<Outcome, BackendError>
        requires { IsWritten (request.Create create.now) }
        ensures outcome { SaysOutcome (told self.old) 0 (act.Create create.now) result }
        ensures possible { IfOk result IsOutcome }
        ensures told { told self.new ≡ told_after (told self.old) 0 (act.Create create.now) result }
        ensures cause { HasBackendCause (faults self.old) (faults self.new) result }
        ensures login { LogsIn (login self.old) user.now result (login self.new) }
        ensures begun { begun self.new ≡ begun self.old }
        ensures asks { asks self.new ≡ asks self.old }
        ensures arming { SpendsArming (arming self.old) (arming self.new) result };

    /// Drops a table outside of a transaction, or refuses it. After an error contracts no longer see what
    /// the backend holds.
    fn drop_table(&mut self, user: &Text, table: &Name) -> Result<Outcome, BackendError>
        ensures outcome { SaysOutcome (told self.old) 0 (act.Drop table.now) result }
        ensures possible { IfOk result IsOutcome }
        ensures told { told self.new ≡ told_after (told self.old) 0 (act.Drop table.now) result }
        ensures cause { HasBackendCause (faults self.old) (faults self.new) result }
        ensures login { LogsIn (login self.old) user.now result (login self.new) }
        ensures begun { begun self.new ≡ begun self.old }
        ensures asks { asks self.new ≡ asks self.old }
        ensures arming { SpendsArming (arming self.old) (arming self.new) result };

    /// Commits transaction `tx`, which must be begun. After an error it is still begun, and contracts no
    /// longer see what the backend holds.
    fn commit(&mut self, user: &Text, tx: u64) -> Result<(), BackendError>
        requires { Contains (begun self.old) tx }
        ensures told { told self.new ≡ told_after (told self.old) tx act.Commit result }
        ensures cause { HasBackendCause (faults self.old) (faults self.new) result }
        ensures login { LogsIn (login self.old) user.now result (login self.new) }
        ensures begun { begun self.new ≡ begun_without (begun self.old) tx result }
        ensures asks { asks self.new ≡ asks self.old }
        ensures arming { SpendsArming (arming self.old) (arming self.new) result };

    /// Ends transaction `tx`, which must be begun, without its writes. After an error it is still begun,
    /// and contracts no longer see what the backend holds.
    fn abort(&mut self, user: &Text, tx: u64) -> Result<(), BackendError>
        requires { Contains (begun self.old) tx }
        ensures told { told self.new ≡ told_after (told self.old) tx act.Abort result }
        ensures cause { HasBackendCause (faults self.old) (faults self.new) result }
        ensures login { LogsIn (login self.old) user.now result (login self.new) }
        ensures begun { begun self.new ≡ begun_without (begun self.old) tx result }
        ensures asks { asks self.new ≡ asks self.old }
        ensures arming { SpendsArming (arming self.old) (arming self.new) result };

    /// Answers a query of transaction `tx`, 0 for none, or refuses it. Contracts see the same contents as
    /// before, after an error too. `NoMemory` also leaves the last login.
    fn ask(&mut self, user: &Text, tx: u64, select: &Select) -> Result<Asked, BackendError>
        requires { IsWritten (request.Select select.now) }
        ensures answer { SaysAnswer (told self.old) tx select.now result }
        ensures possible { IfOk result IsAsked }
        ensures told { told self.new ≡ told self.old }
        ensures cause { HasBackendCause (faults self.old) (faults self.new) result }
        ensures login { LogsInToAsk (login self.old) user.now result (login self.new) }
        ensures begun { begun self.new ≡ begun self.old }
        ensures asks { asks self.new ≡ asks_after (asks self.old) result }
        ensures arming { SpendsArming (arming self.old) (arming self.new) result };

    /// A snapshot of what the backend holds, drafts included, which answers queries while the backend goes on. It is
    /// `None` from a backend that gives none, which leaves the last login. A snapshot counts as one query. Contracts
    /// see the same contents as before, after an error too. `NoMemory` also leaves the last login.
    fn snapshot(&mut self, user: &Text) -> Result<Option<Self::Snap>, BackendError>
        ensures given { IfOk result (λ snap. is_some snap ≡ snaps self.old) }
        ensures shows { IfOk result (λ snap. IfSome snap (λ s. IfSome (told self.old) (λ db. Self.Snap.shows s ≡ Some db))) }
        ensures told { told self.new ≡ told self.old }
        ensures cause { HasBackendCause (faults self.old) (faults self.new) result }
        ensures login { LogsInToSnapshot (login self.old) user.now result (login self.new) }
        ensures begun { begun self.new ≡ begun self.old }
        ensures asks { asks self.new ≡ asks_after_snapshot (asks self.old) result }
        ensures arming { SpendsArming (arming self.old) (arming self.new) result };

    /// A copy of what the backend holds, drafts included. Contracts see the same contents as before, after
    /// an error too.
    fn contents(&mut self) -> Result<Db, BackendError>
        ensures contents { IfOk result (λ db. IfSome (told self.old) (λ held. db ≡ held)) }
        ensures storable { IfOk result IsStorable }
        ensures told { told self.new ≡ told self.old }
        ensures cause { HasBackendCause (faults self.old) (faults self.new) result }
        ensures login { login self.new ≡ login self.old }
        ensures begun { begun self.new ≡ begun self.old }
        ensures asks { asks self.new ≡ asks self.old }
        ensures arming { SpendsArming (arming self.old) (arming self.new) result };

    /// Replaces what the backend holds by this database. The transactions with a draft in it are begun.
    /// After an error the earlier transactions stay begun, and contracts no longer see what the backend
    /// holds.
    fn load(&mut self, db: Db) -> Result<(), BackendError>
        requires { IsStorable db }
        ensures told { told self.new ≡ told_loaded tells db result }
        ensures cause { HasBackendCause (faults self.old) (faults self.new) result }
        ensures login { login self.new ≡ login self.old }
        ensures begun { begun self.new ≡ begun_loaded (begun self.old) db result }
        ensures asks { asks self.new ≡ asks self.old }
        ensures arming { SpendsArming (arming self.old) (arming self.new) result };

    /// The backend's counts, without allocation.
    fn counts(&self) -> Counts
        ensures { result ≡ record { faults = faults self.now; asks = asks self.now; begun = length (begun self.now) } };

    /// The login of the last call.
    fn login(&self) -> Option<&Text>
        ensures { option_copied result ≡ login self.now };

    /// Arms the backend: the next call that may fail answers `Failed`. A backend that can't be armed
    /// ignores it.
    fn arm(&mut self)
        ensures arming { arming self.new ≡ arming_after can_be_armed (arming self.old) }
        ensures told { told self.new ≡ told self.old }
        ensures faults { faults self.new ≡ faults self.old }
        ensures login { login self.new ≡ login self.old }
        ensures begun { begun self.new ≡ begun self.old }
        ensures asks { asks self.new ≡ asks self.old };
}

//! A backend is backed up.

ghost use Rattle.std.specs.Prelude.{◌≡◌, ◌≢◌, ◌<◌, [], true, false, length, IsErrOf};
ghost use Rattle.cj_outside.specs.Causes.{CountsFault};
ghost use Rattle.cj_cluster.specs.History.Legality.{IsLegal};
ghost use Rattle.cj_board.specs.Seats.{front, pass_view};
ghost use Rattle.cj_dump.specs.Dumps.{CanEncode};
ghost use Rattle.cj_shelf.specs.Shelves.{is_shelved};
ghost use Rattle.cj_pass.specs.Passes.{HasNotedMore};
ghost use Rattle.cj_backup.specs.Backups.{BacksUp, MayRefuseBackup, IsBackupErrorOf, Puts};

use cj_backend::Backend;
use cj_control::Control;
use cj_dump::Dump;
use cj_model::Name;
use cj_outside::Store;
use cj_pass::{Naming, Pass};
use cj_return_path::{RestoreError, begin_dump};
use cj_shelf::{Shelf, ShelfError};
use std::sync::Wait;
use thiserror::Error;

/// Why a backend was not backed up.
#[derive(Debug, Drop, Error)]
pub enum BackupError {
    #[error("the backend is not enabled")]
    NotEnabled,
    #[error("a dump or a marker has the name already")]
    NameTaken,
    /// The backend is the only enabled host of this table; the empty name if it alone is enabled and hosts every table.
    #[error("the backend is the last enabled host of a table")]
    LastHost(Name),
    /// The backend of this number failed, and counted a fault.
    #[error("backend {0} failed")]
    Failed(u8),
    /// The shelf's store failed, and counted a fault.
    #[error("the store of the dumps failed")]
    StoreFault,
    /// The log's store failed and counted a fault. The history has a new event that tells of the failure.
    #[error("the store of the recovery log failed")]
    LogFault,
    /// The history has this many events, and no room for what was asked for.
    #[error("the history of {0} events is full")]
    HistoryFull(u64),
    #[error("out of memory")]
    NoMemory,
}

/// Returns why the backend was not backed up, if the cluster refused the dump.
fn refusal_of(error: RestoreError) -> BackupError
    requires { MayRefuseBackup error }
    ensures { IsBackupErrorOf error result }
{
    match error {
        RestoreError::NotEnabled => BackupError::NotEnabled,
        RestoreError::NameTaken => BackupError::NameTaken,
        RestoreError::LastHost(table) => BackupError::LastHost(table),
        RestoreError::HistoryFull(events) => BackupError::HistoryFull(events),
        RestoreError::LogFault => BackupError::LogFault,
        RestoreError::Fault(b) => BackupError::Failed(b),
        RestoreError::NoMemory => BackupError::NoMemory,
        RestoreError::AlreadyEnabled
        | RestoreError::Starved
        | RestoreError::Out(_)
        | RestoreError::NotOut
        | RestoreError::DumpLacks(_)
        | RestoreError::DumpAhead(_) => unreachable!(),
    }
}

/// Puts a dump onto the shelf, and returns its position. An error is `StoreFault` or `NoMemory`, and leaves the shelf
/// the dumps that it had.
fn put<D: Store>(shelf: &mut Shelf<D>, dump: &Dump) -> Result<u64, BackupError>
    requires encodes { CanEncode dump.now }
    ensures puts { Puts D.tells shelf.old shelf.new dump.now result }
    ensures cause { CountsFault (IsErrOf result BackupError.StoreFault) (D.faults shelf.old.store) (D.faults shelf.new.store) }
{
    let added = shelf.add(dump);
    match added {
        Ok(()) => Ok(dump.position),
        Err(ShelfError::Failed) => Err(BackupError::StoreFault),
        Err(ShelfError::NoMemory) => Err(BackupError::NoMemory),
        Err(ShelfError::BadRecord(_)) => unreachable!(),
    }
}

/// Takes a dump of backend `b` at a marker of this name, and puts it onto the shelf. Returns its position. The backend
/// is then disabled and not out.
///
/// A dump's name is looked at first, a marker's after whether the backend is enabled. After `Failed` and `StoreFault`,
/// and after `NoMemory` if the marker came, the backend is disabled and not out. After `HistoryFull` the marker may
/// stand, with the backend still enabled. Each other refusal changes nothing, but `LogFault` has its event.
pub fn backup<J: Naming, B: Backend, S: Store + Drop, D: Store, R: Wait>(
    rt: &R,
    control: &Control<J, B, S>,
    pass: &mut Pass<J>,
    b: u8,
    name: &Name,
    shelf: &mut Shelf<D>,
) -> Result<u64, BackupError>
    requires below { b < length J.layout.names }
    requires named { name.now ≢ [] }
    ensures backs_up { BacksUp B.tells D.tells J.layout b name.now (pass_view pass.old.seat) (pass_view pass.new.seat) shelf.old shelf.new result }
    ensures cause { CountsFault (IsErrOf result BackupError.StoreFault) (D.faults shelf.old.store) (D.faults shelf.new.store) }
    ensures more { HasNotedMore (pass_view pass.old.seat) (pass_view pass.new.seat) }
    ensures legal { is_shelved name.now shelf.old.names ≡ false → IsLegal (front pass.new.seat) }
    ensures taken { is_shelved name.now shelf.old.names ≡ true → pass_view pass.new.seat ≡ pass_view pass.old.seat }
{
    if shelf.has(name) {
        return Err(BackupError::NameTaken);
    }
    let begun = begin_dump(&control.locks, rt, pass, b, name);
    match begun {
        Ok(dump) => put(shelf, &dump),
        Err(error) => Err(refusal_of(error)),
    }
}

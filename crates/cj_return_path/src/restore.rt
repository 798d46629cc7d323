//! How a backend that is out is loaded, and what may refuse a backend on its way back.

ghost use Rattle.std.specs.Prelude.{◌≡◌, ◌<◌, ◌≤◌, true, length};
ghost use Rattle.cj_model.specs.Cluster.Placements.{part};
ghost use Rattle.cj_model.specs.Database.Storable.{IsStorable};
ghost use Rattle.cj_cluster.specs.History.Histories.{database_after, log};
ghost use Rattle.cj_cluster.specs.History.Legality.{IsLegal};
ghost use Rattle.cj_place.specs.Layouts.{placement_of};
ghost use Rattle.cj_board.specs.Seats.{front, pass_view};
ghost use Rattle.cj_pass.specs.Passes.{HasNotedMore};
ghost use Rattle.cj_locked_cell.specs.Loading.{IsLoaded};
ghost use Rattle.cj_return_path.specs.Restoring.{IsRightDump, LoadsBackend};

use cj_backend::Backend;
use cj_dump::{Dump, cut, lacks};
use cj_locked_cell::{SeenOut, Stand};
use cj_locks::Locks;
use cj_model::{Db, Name};
use cj_outside::Store;
use cj_pass::{Naming, Pass};
use cj_replica::CellError;
use std::sync::Wait;
use thiserror::Error;

/// Why a backend was not dumped, loaded, replayed or enabled.
#[derive(Debug, Drop, Error)]
pub enum RestoreError {
    #[error("the backend is not enabled")]
    NotEnabled,
    #[error("the backend is enabled already")]
    AlreadyEnabled,
    #[error("a marker has the name already")]
    NameTaken,
    /// The backend is the only enabled host of this table; the empty name if it alone is enabled and hosts every table.
    #[error("the backend is the last enabled host of a table")]
    LastHost(Name),
    /// The history has this many events, and no room for what was asked for.
    #[error("the history of {0} events is full")]
    HistoryFull(u64),
    /// The log's store failed and counted a fault. The history has a new event that tells of the failure.
    #[error("the store of the recovery log failed")]
    LogFault,
    /// The backend of this number failed, and counted a fault.
    #[error("backend {0} failed")]
    Fault(u8),
    /// The backend ran out of memory.
    #[error("the backend is out of memory")]
    Starved,
    /// The backend has missed an entry, and needs a dump.
    #[error("the backend is out")]
    Out(SeenOut),
    #[error("the backend is not out")]
    NotOut,
    /// The dump lacks this table of the backend; the empty name if it lacks one of all.
    #[error("the dump lacks a table of the backend")]
    DumpLacks(Name),
    /// The dump is at this position, which the log does not have yet.
    #[error("the dump is at position {0}, ahead of the log")]
    DumpAhead(u64),
    #[error("out of memory")]
    NoMemory,
}

/// Has backend `b` hold this part of the database, which is that at the position. False if it is not out.
fn load_part<J: Naming, B: Backend, S: Store + Drop, R: Wait>(
    locks: &Locks<J, B, S>,
    rt: &R,
    pass: &mut Pass<J>,
    b: u8,
    db: Db,
    position: u64,
) -> Result<bool, CellError>
    requires below { b < length J.layout.names }
    requires storable { IsStorable db }
    requires within { position ≤ length (log (front pass.old.seat)) }
    requires right { B.tells ≡ true → db ≡ part (placement_of J.layout) b (database_after (log (front pass.old.seat)) position) }
    ensures loaded { IsLoaded b position (pass_view pass.old.seat) (pass_view pass.new.seat) result }
    ensures more { HasNotedMore (pass_view pass.old.seat) (pass_view pass.new.seat) }
    ensures legal { IsLegal (front pass.new.seat) }
{
    locks.cells[b as usize]
        .lock(rt)
        .load(&locks.board, pass, b, db, position)
}

/// Has backend `b`, which is out, hold its tables of a dump. It is at the dump's position then.
///
/// The first reason against it is answered: `AlreadyEnabled`, `NotOut`, `DumpLacks`, `DumpAhead`. After an error the
/// backend holds what it did, or after `Fault` and `Starved` is still out.
pub fn load<J: Naming, B: Backend, S: Store + Drop, R: Wait>(
    locks: &Locks<J, B, S>,
    rt: &R,
    pass: &mut Pass<J>,
    b: u8,
    d: Dump,
) -> Result<(), RestoreError>
    requires below { b < length J.layout.names }
    requires dump { IsRightDump B.tells (front pass.old.seat) d }
    ensures loads { LoadsBackend J.layout b d (pass_view pass.old.seat) (pass_view pass.new.seat) result }
    ensures more { HasNotedMore (pass_view pass.old.seat) (pass_view pass.new.seat) }
    ensures legal { IsLegal (front pass.new.seat) }
{
    let length = locks.log_length(rt, pass);
    if locks.is_enabled(rt, pass, b) {
        return Err(RestoreError::AlreadyEnabled);
    }
    match locks.stand(rt, pass, b) {
        Stand::Out(_) => {}
        Stand::At(_) => return Err(RestoreError::NotOut),
        Stand::Elsewhere => return Err(RestoreError::Starved),
    }
    if let Some(table) = lacks(&d, &locks.placement, b) {
        return Err(RestoreError::DumpLacks(table));
    }
    if d.position > length {
        return Err(RestoreError::DumpAhead(d.position));
    }
    let Dump { position, db, .. } = cut(d, &locks.placement, b);
    match load_part(locks, rt, pass, b, db, position) {
        Ok(true) => Ok(()),
        Ok(false) => Err(RestoreError::NotOut),
        Err(CellError::Failed) => Err(RestoreError::Fault(b)),
        Err(CellError::Starved) => Err(RestoreError::Starved),
    }
}

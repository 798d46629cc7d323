//! A backend comes back.

ghost use Rattle.std.specs.Prelude.{◌<◌, length, IfErr, IfSome, Option, Some};
ghost use Rattle.cj_cluster.specs.History.Legality.{IsLegal};
ghost use Rattle.cj_board.specs.Seats.{front, pass_view};
ghost use Rattle.cj_pass.specs.Passes.{HasNotedMore};
ghost use Rattle.cj_return_path.specs.Restoring.{IsRightDump};
ghost use Rattle.cj_replay.specs.Reenabling.{MayRefuseReenabling, IsReplayErrorOf, Reenables, RefusesReenabling};

use cj_backend::Backend;
use cj_control::Control;
use cj_dump::Dump;
use cj_locked_cell::SeenOut;
use cj_model::{EVENT_LIMIT, Name};
use cj_outside::Store;
use cj_pass::{Naming, Pass};
use cj_return_path::{RestoreError, enable, load, replay};
use std::sync::Wait;
use thiserror::Error;

/// Why a backend was not enabled.
#[derive(Debug, Drop, Error)]
pub enum ReplayError {
    #[error("the backend is enabled already")]
    AlreadyEnabled,
    /// The backend has missed an entry, and no dump was given that it could load, or the one given was loaded in this
    /// call and the backend is out again.
    #[error("the backend needs a dump")]
    NeedsDump(SeenOut),
    /// The backend of this number failed, and counted a fault.
    #[error("backend {0} failed")]
    Failed(u8),
    /// The backend ran out of memory.
    #[error("the backend is out of memory")]
    Starved,
    /// The dump lacks this table of the backend; the empty name if it lacks one of all.
    #[error("the dump lacks a table of the backend")]
    DumpLacks(Name),
    /// The dump is at this position, which the log does not have yet.
    #[error("the dump is at position {0}, ahead of the log")]
    DumpAhead(u64),
    /// The history has this many events, and no room for one more.
    #[error("the history of {0} events is full")]
    HistoryFull(u64),
    #[error("out of memory")]
    NoMemory,
}

/// Returns why the backend was not enabled, if a call at the cluster was refused.
fn refusal_of(error: RestoreError) -> ReplayError
    requires { MayRefuseReenabling error }
    ensures { IsReplayErrorOf error result }
{
    match error {
        RestoreError::AlreadyEnabled => ReplayError::AlreadyEnabled,
        RestoreError::Out(seen) => ReplayError::NeedsDump(seen),
        RestoreError::Fault(b) => ReplayError::Failed(b),
        RestoreError::Starved => ReplayError::Starved,
        RestoreError::DumpLacks(table) => ReplayError::DumpLacks(table),
        RestoreError::DumpAhead(position) => ReplayError::DumpAhead(position),
        RestoreError::HistoryFull(events) => ReplayError::HistoryFull(events),
        RestoreError::NoMemory => ReplayError::NoMemory,
        RestoreError::NotEnabled
        | RestoreError::NameTaken
        | RestoreError::LastHost(_)
        | RestoreError::LogFault
        | RestoreError::NotOut => unreachable!(),
    }
}

/// Has backend `b` take the entries that the log has now. Takes no turn, so entries and queries go on.
fn take_log<J: Naming, B: Backend, S: Store + Drop, R: Wait>(
    rt: &R,
    control: &Control<J, B, S>,
    pass: &mut Pass<J>,
    b: u8,
) -> Result<(), ReplayError>
    requires below { b < length J.layout.names }
    ensures err { (d : Option Dump) → IfErr result (RefusesReenabling J.layout b d (pass_view pass.old.seat) (pass_view pass.new.seat)) }
    ensures more { HasNotedMore (pass_view pass.old.seat) (pass_view pass.new.seat) }
    ensures legal { IsLegal (front pass.new.seat) }
{
    let replayed = replay(&control.locks, rt, pass, b, EVENT_LIMIT);
    match replayed {
        Ok(_) => Ok(()),
        Err(error) => Err(refusal_of(error)),
    }
}

/// Has backend `b`, which was out, load the dump, and take the entries that the log has behind it. If the backend is no
/// longer out, another call has loaded a dump, and this one is not used.
fn load_and_take<J: Naming, B: Backend, S: Store + Drop, R: Wait>(
    rt: &R,
    control: &Control<J, B, S>,
    pass: &mut Pass<J>,
    b: u8,
    dump: Dump,
) -> Result<(), ReplayError>
    requires below { b < length J.layout.names }
    requires right { IsRightDump B.tells (front pass.old.seat) dump }
    ensures err { IfErr result (RefusesReenabling J.layout b (Some dump) (pass_view pass.old.seat) (pass_view pass.new.seat)) }
    ensures more { HasNotedMore (pass_view pass.old.seat) (pass_view pass.new.seat) }
    ensures legal { IsLegal (front pass.new.seat) }
{
    let loaded = load(&control.locks, rt, pass, b, dump);
    match loaded {
        Ok(()) | Err(RestoreError::NotOut) => take_log(rt, control, pass, b),
        Err(error) => Err(refusal_of(error)),
    }
}

/// Has backend `b` take the entries that the log has now, behind a dump if it is out.
fn catch_up<J: Naming, B: Backend, S: Store + Drop, R: Wait>(
    rt: &R,
    control: &Control<J, B, S>,
    pass: &mut Pass<J>,
    b: u8,
    dump: Option<Dump>,
) -> Result<(), ReplayError>
    requires below { b < length J.layout.names }
    requires right { IfSome dump (IsRightDump B.tells (front pass.old.seat)) }
    ensures err { IfErr result (RefusesReenabling J.layout b dump (pass_view pass.old.seat) (pass_view pass.new.seat)) }
    ensures more { HasNotedMore (pass_view pass.old.seat) (pass_view pass.new.seat) }
    ensures legal { IsLegal (front pass.new.seat) }
{
    let taken = take_log(rt, control, pass, b);
    match taken {
        Err(ReplayError::NeedsDump(seen)) => match dump {
            Some(dump) => load_and_take(rt, control, pass, b, dump),
            None => Err(ReplayError::NeedsDump(seen)),
        },
        Err(error) => Err(error),
        Ok(()) => Ok(()),
    }
}

/// Brings backend `b`, which is disabled, to the end of the log and enables it. Returns how many entries stand before
/// that. A dump is loaded if the backend is out, and else not used.
///
/// The log is replayed without the turn, so entries and queries go on. Only the entries that came meanwhile are
/// replayed under the turn. After a refusal this call has not enabled the backend.
pub fn reenable<J: Naming, B: Backend, S: Store + Drop, R: Wait>(
    rt: &R,
    control: &Control<J, B, S>,
    pass: &mut Pass<J>,
    b: u8,
    dump: Option<Dump>,
) -> Result<u64, ReplayError>
    requires below { b < length J.layout.names }
    requires right { IfSome dump (IsRightDump B.tells (front pass.old.seat)) }
    ensures reenables { Reenables J.layout b dump (pass_view pass.old.seat) (pass_view pass.new.seat) result }
    ensures more { HasNotedMore (pass_view pass.old.seat) (pass_view pass.new.seat) }
    ensures legal { IsLegal (front pass.new.seat) }
{
    let caught = catch_up(rt, control, pass, b, dump);
    if let Err(error) = caught {
        return Err(error);
    }
    let enabled = enable(&control.locks, rt, pass, b);
    match enabled {
        Ok(number) => Ok(number),
        Err(error) => Err(refusal_of(error)),
    }
}

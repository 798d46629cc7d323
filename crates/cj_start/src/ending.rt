//! The end of a start: the transactions that the log leaves open are ended.

ghost use Rattle.std.specs.Prelude.{◌≡◌, ◌≢◌, ◌+◌, ◌<◌, ℕ, [], OnOk, false, true};
ghost use Rattle.cj_cluster.specs.History.Histories.{is_free};
ghost use Rattle.cj_cluster.specs.Moves.Moves as moves;
ghost use Rattle.cj_cluster.specs.Moves.Moves.{abort_entry, with_entry};
ghost use Rattle.cj_state.specs.Effects.{with_core};
ghost use Rattle.cj_state.specs.Worlds.{IsSameWorldButLog};
ghost use Rattle.cj_start.specs.Proving.StartParts.{AreStanding, EndedTo, EndedWhere, IsUntouched, OnlyTakes, TakesPast, TransactionEnded};
ghost use Rattle.cj_start.specs.Started.{CountsFaultOfPart, IsLonger};

use crate::replaying::unless_starved;
use cj_backend::Backend;
use cj_book::{BookError, StartError};
use cj_moves::not_now_apply;
use cj_outside::Store;
use cj_state::State;

/// Schedules the administrator's end of the transaction. A history without room for it is
/// `NoMemory`.
fn schedule_end<B: Backend, S: Store>(state: &mut State<B, S>, tx: u64) -> Result<(), StartError>
    requires orphan { moves.is_orphan state.old.core tx ≡ true }
    requires free { is_free state.old.core.history ≡ true }
    ensures ok { OnOk result (IsSameWorldButLog (with_core state.old (with_entry state.old.core (abort_entry state.old.core tx))) state.new) }
    ensures longer { IsLonger state.old state.new }
    ensures cause { CountsFaultOfPart state.old.recovery_log.faults result state.new.recovery_log.faults }
{
    let Ok(entry) = state.abort_entry(tx) else {
        return Err(StartError::NoMemory);
    };
    match state.schedule_abort(entry) {
        Ok(_) => Ok(()),
        Err(BookError::LogFault) => Err(StartError::StoreFault),
        Err(BookError::HistoryFull(_)) => Err(StartError::NoMemory),
        Err(BookError::NoMemory) => Err(StartError::NoMemory),
        Err(BookError::InProgress(_)) => unreachable!(),
        Err(BookError::NoBackend) => unreachable!(),
    }
}

/// Has the backend carry out the open entry, if it is enabled and hasn't taken it.
fn take_where_due<B: Backend, S: Store>(state: &mut State<B, S>, b: u8) -> Result<(), StartError>
    requires open { is_free state.old.core.history ≡ false }
    requires within { b < state.old.core.placement.backends }
    ensures only { OnlyTakes state.old state.new }
    ensures others { (k : ℕ) → k ≢ b → IsUntouched state.old state.new k }
    ensures here { OnOk result (TakesPast state.old state.new b) }
    ensures starved { OnOk result (state.new.core.starved ≡ state.old.core.starved) }
    ensures cause { CountsFaultOfPart state.old.recovery_log.faults result state.new.recovery_log.faults }
{
    state.legal();
    if not_now_apply(state, b).is_some() {
        return Ok(());
    }
    unless_starved(state.catch_up_open(b))
}

/// Has each enabled backend carry out the open entry.
fn take_on_all<B: Backend, S: Store>(state: &mut State<B, S>) -> Result<(), StartError>
    requires { is_free state.old.core.history ≡ false }
    ensures only { OnlyTakes state.old state.new }
    ensures all { OnOk result ((b : ℕ) → b < state.old.core.placement.backends → TakesPast state.old state.new b) }
    ensures starved { OnOk result (state.new.core.starved ≡ state.old.core.starved) }
    ensures cause { CountsFaultOfPart state.old.recovery_log.faults result state.new.recovery_log.faults }
{
    for b in 0..state.placement().count() {
        take_where_due(state, b)?;
    }
    Ok(())
}

/// Ends the transaction, which is open.
fn end_transaction<B: Backend, S: Store>(state: &mut State<B, S>, tx: u64) -> Result<(), StartError>
    requires orphan { moves.is_orphan state.old.core tx ≡ true }
    requires free { is_free state.old.core.history ≡ true }
    requires alone { state.old.core.sessions ≡ [] }
    requires stands { AreStanding state.old }
    ensures ended { OnOk result (TransactionEnded tx state.old state.new) }
    ensures longer { IsLonger state.old state.new }
    ensures cause { CountsFaultOfPart state.old.recovery_log.faults result state.new.recovery_log.faults }
{
    schedule_end(state, tx)?;
    take_on_all(state)?;
    state.legal();
    state.end_entry(0);
    Ok(())
}

/// Ends the transaction of this number, if there is one and it is open.
fn end_where_open<B: Backend, S: Store>(state: &mut State<B, S>, tx: u64) -> Result<(), StartError>
    requires free { is_free state.old.core.history ≡ true }
    requires alone { state.old.core.sessions ≡ [] }
    requires stands { AreStanding state.old }
    ensures ended { OnOk result (EndedWhere (moves.is_orphan state.old.core tx) tx state.old state.new) }
    ensures longer { IsLonger state.old state.new }
    ensures cause { CountsFaultOfPart state.old.recovery_log.faults result state.new.recovery_log.faults }
{
    if state.is_orphan(tx) {
        end_transaction(state, tx)
    } else {
        Ok(())
    }
}

/// Ends each open transaction, by rising number. No session and no entry is open. After an error
/// the history begins with the one before. `StoreFault` counts a fault of the log's store, and
/// `NoMemory` is the only other error.
pub fn end_all<B: Backend, S: Store>(state: &mut State<B, S>) -> Result<(), StartError>
    requires free { is_free state.old.core.history ≡ true }
    requires alone { state.old.core.sessions ≡ [] }
    requires stands { AreStanding state.old }
    ensures ended { OnOk result (EndedTo state.old state.new (moves.last_number state.old.core)) }
    ensures longer { IsLonger state.old state.new }
    ensures cause { CountsFaultOfPart state.old.recovery_log.faults result state.new.recovery_log.faults }
{
    for before in 0..state.length() {
        end_where_open(state, before + 1)?;
    }
    Ok(())
}

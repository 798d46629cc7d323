//! The beginning of a start: the backends replay the log, and those that don't fail are enabled.

ghost use Rattle.std.specs.Prelude.{◌≡◌, ◌≢◌, ◌<◌, ℕ, OnOk, IfErr, Some, None, false, true};
ghost use Rattle.cj_cluster.specs.History.Histories as histories;
ghost use Rattle.cj_cluster.specs.History.Histories.{is_free};
ghost use Rattle.cj_cluster.specs.Moves.Cores.{position_at};
ghost use Rattle.cj_cluster.specs.Moves.Moves as moves;
ghost use Rattle.cj_cluster.specs.Moves.Moves.{not_now};
ghost use Rattle.cj_state.specs.Effects.{with_core};
ghost use Rattle.cj_state.specs.Faults.{faults_of};
ghost use Rattle.cj_start.specs.Proving.StartParts.{enabled_where, EnabledTo, HasReplayed, IsSameAt, OnlyReplays, TookNext};
ghost use Rattle.cj_start.specs.Started.{CountsFaultOfPart, IsLonger};

use cj_backend::Backend;
use cj_book::{BookError, StartError};
use cj_cluster::{Did, Move};
use cj_moves::not_now_replay;
use cj_outside::Store;
use cj_state::State;

/// Returns `NoMemory` if a backend ran out of memory. A failure is no error: that backend is out,
/// and the start goes on without it.
pub fn unless_starved(did: Did) -> Result<(), StartError>
    ensures went { OnOk result (did ≢ Did.Starved) }
    ensures want { IfErr result (λ error. error ≡ StartError.NoMemory) }
{
    match did {
        Did::Starved => Err(StartError::NoMemory),
        Did::Done(_) => Ok(()),
        Did::Skipped => Ok(()),
        Did::Failed => Ok(()),
    }
}

/// Has the backend carry out the log's next entry.
#[tactic(auto, using(crate::proofs::StartReplays::took_next))]
fn replay_next<B: Backend, S: Store>(state: &mut State<B, S>, b: u8) -> Result<(), StartError>
    requires within { b < state.old.core.placement.backends }
    requires now { not_now state.old.core (Move.Replay b) ≡ None }
    ensures only { OnlyReplays state.old state.new }
    ensures took { OnOk result (TookNext state.old state.new b) }
    ensures cause { CountsFaultOfPart state.old.recovery_log.faults result state.new.recovery_log.faults }
{
    state.legal();
    unless_starved(state.catch_up_next(b))
}

/// Has the backend, which has taken no entry, carry out the whole log, until it fails.
fn replay_whole<B: Backend, S: Store>(state: &mut State<B, S>, b: u8) -> Result<(), StartError>
    requires within { b < state.old.core.placement.backends }
    requires off { histories.is_enabled state.old.core.history b ≡ false }
    requires first { position_at state.old.core b ≡ Some 0 }
    ensures only { OnlyReplays state.old state.new }
    ensures others { OnOk result ((k : ℕ) → k ≢ b → IsSameAt state.old state.new k) }
    ensures here { OnOk result (HasReplayed (faults_of state.old.cells) state.new b) }
    ensures uncalled { moves.last_number state.old.core ≡ 0 → state.new ≡ state.old }
    ensures cause { CountsFaultOfPart state.old.recovery_log.faults result state.new.recovery_log.faults }
{
    while not_now_replay(state, b).is_none() {
        replay_next(state, b)?;
    }
    Ok(())
}

/// Has each backend, of which none has taken an entry or is enabled, carry out the whole log. One
/// that fails is out. The only error is `NoMemory`, if one runs out of memory.
pub fn replay_everywhere<B: Backend, S: Store>(state: &mut State<B, S>) -> Result<(), StartError>
    requires off { (b : ℕ) → histories.is_enabled state.old.core.history b ≡ false }
    requires first { (b : ℕ) → b < state.old.core.placement.backends → position_at state.old.core b ≡ Some 0 }
    ensures only { OnlyReplays state.old state.new }
    ensures all { OnOk result ((b : ℕ) → b < state.old.core.placement.backends → HasReplayed (faults_of state.old.cells) state.new b) }
    ensures uncalled { moves.last_number state.old.core ≡ 0 → state.new ≡ state.old }
    ensures cause { CountsFaultOfPart state.old.recovery_log.faults result state.new.recovery_log.faults }
{
    for b in 0..state.placement().count() {
        replay_whole(state, b)?;
    }
    Ok(())
}

/// Enables the backend, unless it is out. A history without room for the event is `NoMemory`.
fn enable_where_there<B: Backend, S: Store>(
    state: &mut State<B, S>,
    b: u8,
) -> Result<(), StartError>
    requires free { is_free state.old.core.history ≡ true }
    requires off { histories.is_enabled state.old.core.history b ≡ false }
    requires there { (p : ℕ) → position_at state.old.core b ≡ Some p → p ≡ moves.last_number state.old.core }
    ensures ok { OnOk result (state.new ≡ with_core state.old (enabled_where (position_at state.old.core b) b state.old.core)) }
    ensures longer { IsLonger state.old state.new }
    ensures cause { CountsFaultOfPart state.old.recovery_log.faults result state.new.recovery_log.faults }
{
    if state.position(b).is_none() {
        return Ok(());
    }
    match state.enable(b) {
        Ok(()) => Ok(()),
        Err(BookError::HistoryFull(_)) => Err(StartError::NoMemory),
        Err(BookError::InProgress(_)) => unreachable!(),
        Err(BookError::NoBackend) => unreachable!(),
        Err(BookError::LogFault) => unreachable!(),
        Err(BookError::NoMemory) => unreachable!(),
    }
}

/// Enables each backend that isn't out, in the order of numbers. The only error is `NoMemory`, if
/// the history has no room for an event.
#[tactic(auto, using(crate::proofs::StartEnables::enabled_none, crate::proofs::StartEnables::enabled_next))]
pub fn enable_everywhere<B: Backend, S: Store>(state: &mut State<B, S>) -> Result<(), StartError>
    requires free { is_free state.old.core.history ≡ true }
    requires off { (b : ℕ) → histories.is_enabled state.old.core.history b ≡ false }
    requires there { (b p : ℕ) → position_at state.old.core b ≡ Some p → p ≡ moves.last_number state.old.core }
    ensures ok { OnOk result (EnabledTo state.old state.new state.old.core.placement.backends) }
    ensures longer { IsLonger state.old state.new }
    ensures cause { CountsFaultOfPart state.old.recovery_log.faults result state.new.recovery_log.faults }
{
    for b in 0..state.placement().count() {
        enable_where_there(state, b)?;
    }
    Ok(())
}

//! The move `Enable`: a backend is put into service.

ghost use Rattle.std.specs.Prelude.{◌≡◌, ◌<◌, length, Some, None, Ok};
ghost use Rattle.cj_cluster.specs.Moves.Moves as moves;
ghost use Rattle.cj_cluster.specs.Moves.Moves.{Enables, not_now};

use crate::reason::why;
use cj_backend::Backend;
use cj_book::BookError;
use cj_cluster::{Move, Moved, Reason, Why};
use cj_outside::Store;
use cj_state::State;

/// Returns why backend `b` can't be enabled now, or `None`. An entry is open, or the backend is
/// enabled, is out, or has not taken the whole log.
pub fn not_now_enable<B: Backend, S: Store>(state: &State<B, S>, b: u8) -> Option<Why>
    ensures { result ≡ moves.not_now state.now.core (Move.Enable b) }
{
    if !state.is_free() {
        return why(Reason::EntryOpen, state.length());
    }
    if state.is_enabled(b) {
        return why(Reason::Enabled, b as u64);
    }
    match state.position(b) {
        None => why(Reason::Out, b as u64),
        Some(position) if position != state.length() => why(Reason::Behind, position),
        Some(_) => None,
    }
}

/// Enables backend `b`. `Refused` says that the history has no room for the event, and changes
/// nothing.
pub fn enable<B: Backend, S: Store>(state: &mut State<B, S>, b: u8) -> Moved
    requires { not_now state.old.core (Move.Enable b) ≡ None }
    ensures moves { Enables state.old.core b (Ok result) state.new.core }
    ensures cells { state.new.cells ≡ state.old.cells }
    ensures setup { state.new.setup ≡ state.old.setup }
    ensures cache { state.new.cache ≡ state.old.cache }
    ensures recovery_log { state.new.recovery_log ≡ state.old.recovery_log }
{
    match state.enable(b) {
        Ok(()) => Moved::Enabled,
        Err(BookError::HistoryFull(_)) => Moved::Refused(state.history_full()),
        Err(
            BookError::InProgress(_)
            | BookError::NoBackend
            | BookError::LogFault
            | BookError::NoMemory,
        ) => unreachable!(),
    }
}

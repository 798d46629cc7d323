//! The move `Close`: a session is closed.

ghost use Rattle.std.specs.Prelude.{◌≡◌, ◌<◌, None, Ok};
ghost use Rattle.cj_cluster.specs.Moves.Moves as moves;
ghost use Rattle.cj_cluster.specs.Moves.Moves.{ClosesSession, not_now};

use crate::reason::why;
use cj_backend::Backend;
use cj_cluster::{Move, Moved, Reason, Why};
use cj_outside::Store;
use cj_state::State;

/// Returns why session `s` can't be closed now, or `None`. It isn't open, or an entry or a read of
/// it is open.
pub fn not_now_close<B: Backend, S: Store>(state: &State<B, S>, s: u64) -> Option<Why>
    ensures { result ≡ moves.not_now state.now.core (Move.Close s) }
{
    if !state.is_open(s) {
        return why(Reason::NoSession, s);
    }
    if state.is_waiting(s) || state.is_reading(s) {
        return why(Reason::Waiting, s);
    }
    None
}

/// Closes session `s`. Its open transaction, if there is one, becomes an orphan.
pub fn close<B: Backend, S: Store>(state: &mut State<B, S>, s: u64) -> Moved
    requires { not_now state.old.core (Move.Close s) ≡ None }
    ensures moves { ClosesSession state.old.core s (Ok result) state.new.core }
    ensures cells { state.new.cells ≡ state.old.cells }
    ensures setup { state.new.setup ≡ state.old.setup }
    ensures recovery_log { state.new.recovery_log ≡ state.old.recovery_log }
    ensures cache { state.new.cache ≡ state.old.cache }
{
    state.remove_session(s);
    Moved::Closed
}

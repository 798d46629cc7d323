//! The move `End`: the open entry ends, and its session gets the reply.

ghost use Rattle.std.specs.Prelude.{◌≡◌, ◌<◌, Some, None, Ok};
ghost use Rattle.cj_cluster.specs.Moves.Moves as moves;
ghost use Rattle.cj_cluster.specs.Moves.Moves.{EndsEntry, not_now};

use crate::reason::why;
use cj_backend::Backend;
use cj_cluster::{Move, Moved, Reason, Why};
use cj_outside::Store;
use cj_state::State;

/// Returns why the open entry can't end now, or `None`. No entry is open, or an enabled backend has
/// yet to take it.
pub fn not_now_end<B: Backend, S: Store>(state: &State<B, S>) -> Option<Why>
    ensures { result ≡ moves.not_now state.now.core Move.End }
{
    if state.is_free() {
        return why(Reason::NoEntryOpen, 0);
    }
    match state.behind() {
        Some(position) => why(Reason::Behind, position),
        None => None,
    }
}

/// Ends the open entry, and gives its session and the reply. The administrator's entries are of
/// session 0.
pub fn end<B: Backend, S: Store>(state: &mut State<B, S>) -> Moved
    requires { not_now state.old.core Move.End ≡ None }
    ensures moves { EndsEntry B.tells state.old.core (Ok result) state.new.core }
    ensures cells { state.new.cells ≡ state.old.cells }
    ensures setup { state.new.setup ≡ state.old.setup }
    ensures recovery_log { state.new.recovery_log ≡ state.old.recovery_log }
    ensures cache { state.new.cache ≡ state.old.cache }
{
    let session = state.waiting();
    let reply = state.reply();
    state.end_entry(session);
    Moved::Replied { session, reply }
}

//! The move `Open`: a session is opened.

ghost use Rattle.std.specs.Prelude.{◌≡◌, ◌<◌, ◌≤◌, length, Ok};
ghost use Rattle.cj_cluster.specs.Moves.Moves as moves;
ghost use Rattle.cj_cluster.specs.Moves.Moves.{OpensSession};

use cj_backend::Backend;
use cj_cluster::Moved;
use cj_model::{Text, USER_LIMIT};
use cj_outside::Store;
use cj_state::State;

/// Opens a session for this user, a text of at most 64 bytes, and gives its number, the greatest so
/// far plus 1. `Refused` says that too many sessions are open or no number is left, and changes
/// nothing.
pub fn open<B: Backend, S: Store>(state: &mut State<B, S>, user: Text) -> Moved
    requires { length user ≤ USER_LIMIT }
    ensures moves { OpensSession state.old.core user (Ok result) state.new.core }
    ensures cells { state.new.cells ≡ state.old.cells }
    ensures setup { state.new.setup ≡ state.old.setup }
    ensures recovery_log { state.new.recovery_log ≡ state.old.recovery_log }
    ensures cache { state.new.cache ≡ state.old.cache }
{
    if state.has_no_number() {
        return Moved::Refused(state.sessions_full());
    }
    Moved::Session(state.add_session(user))
}

//! The move `Replay`: a backend that isn't enabled carries out the next entry of the log.

ghost use Rattle.std.specs.Prelude.{◌≡◌, ◌<◌, length, Some, None, Ok};
ghost use Rattle.cj_cluster.specs.Moves.Moves as moves;
ghost use Rattle.cj_cluster.specs.Moves.Moves.{Replays, not_now};
ghost use Rattle.cj_state.specs.ArmedCells.{armings_of};
ghost use Rattle.cj_moves.specs.Counting.{HasCauses};
ghost use Rattle.cj_moves.specs.Logins.{HasLogins};

use crate::reason::why;
use cj_backend::Backend;
use cj_cluster::{Move, Moved, Reason, Why};
use cj_outside::Store;
use cj_state::State;

/// Returns why backend `b` can't carry out the log's next entry now, or `None`. It is enabled or
/// out, or has taken the whole log.
pub fn not_now_replay<B: Backend, S: Store>(state: &State<B, S>, b: u8) -> Option<Why>
    ensures { result ≡ moves.not_now state.now.core (Move.Replay b) }
{
    if state.is_enabled(b) {
        return why(Reason::Enabled, b as u64);
    }
    match state.position(b) {
        None => why(Reason::Out, b as u64),
        Some(position) if position == state.length() => why(Reason::AtEnd, position),
        Some(_) => None,
    }
}

/// Has backend `b` carry out or skip the entry after its position, and gives the entry's number and
/// what the backend did. A backend that failed or ran out of memory is out.
pub fn replay<B: Backend, S: Store>(state: &mut State<B, S>, b: u8) -> Moved
    requires within { b < state.old.core.placement.backends }
    requires now { not_now state.old.core (Move.Replay b) ≡ None }
    ensures moves { Replays B.tells state.old.core b (Ok result) state.new.core }
    ensures causes { HasCauses state.old state.new (Move.Replay b) (Ok result) }
    ensures logins { HasLogins state.old state.new (Move.Replay b) (Ok result) }
    ensures armings { armings_of state.new.cells ≡ armings_of state.old.cells }
    ensures setup { state.new.setup ≡ state.old.setup }
    ensures cache { state.new.cache ≡ state.old.cache }
    ensures recovery_log { state.new.recovery_log ≡ state.old.recovery_log }
{
    let number = state.next_of(b);
    Moved::Replayed {
        number,
        did: state.catch_up_next(b),
    }
}

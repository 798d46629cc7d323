//! The move `Abort`: the administrator ends an orphan.

ghost use Rattle.std.specs.Prelude.{◌≡◌, ◌<◌, length, IsErrOf, None, Ok};
ghost use Rattle.cj_cluster.specs.Moves.Moves as moves;
ghost use Rattle.cj_cluster.specs.Moves.Moves.{AbortsOrphan, not_now};
ghost use Rattle.cj_state.specs.Worlds.{CacheFollowsLog, IsSameWorldButLog};
ghost use Rattle.cj_moves.specs.Counting.{HasLogCauses};

use crate::reason::why;
use crate::refused::refused;
use cj_backend::Backend;
use cj_cluster::{Move, MoveError, Moved, Reason, Why};
use cj_outside::Store;
use cj_state::State;

/// Returns why the administrator can't end the transaction now, or `None`. It is no orphan, or an
/// entry is open.
pub fn not_now_abort<B: Backend, S: Store>(state: &State<B, S>, tx: u64) -> Option<Why>
    ensures { result ≡ moves.not_now state.now.core (Move.Abort tx) }
{
    if !state.is_orphan(tx) {
        return why(Reason::NotOrphan, tx);
    }
    if !state.is_free() {
        return why(Reason::EntryOpen, state.length());
    }
    None
}

/// Schedules the administrator's end of an orphan, for the user who began it, and gives the entry's
/// number.
///
/// `Refused` says that the history has no room, or that the log's store failed, which is then an
/// event of the history. `NoMemory` leaves all but maybe the log's bytes as it was.
pub fn abort<B: Backend, S: Store>(state: &mut State<B, S>, tx: u64) -> Result<Moved, MoveError>
    requires { not_now state.old.core (Move.Abort tx) ≡ None }
    ensures moves { AbortsOrphan state.old.core tx result state.new.core }
    ensures log_causes { HasLogCauses state.old state.new (Move.Abort tx) result }
    ensures cells { state.new.cells ≡ state.old.cells }
    ensures want { IsErrOf result MoveError.NoMemory → IsSameWorldButLog state.old state.new }
    ensures setup { state.new.setup ≡ state.old.setup }
    ensures cache { CacheFollowsLog state.old state.new }
{
    let Ok(entry) = state.abort_entry(tx) else {
        return Err(MoveError::NoMemory);
    };
    match state.schedule_abort(entry) {
        Ok(number) => Ok(Moved::Entry(number)),
        Err(error) => refused(error),
    }
}

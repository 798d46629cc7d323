//! Any move, by its kind.

ghost use Rattle.std.specs.Prelude.{◌≡◌, ◌<◌, IsErrOf, Some, None, Ok};
ghost use Rattle.cj_cluster.specs.Moves.Moves as moves;
ghost use Rattle.cj_cluster.specs.Moves.Moves.{MovesTo};
ghost use Rattle.cj_state.specs.Worlds.{IsSameWorldButLog};
ghost use Rattle.cj_moves.specs.Armings.{ArmsCell, HasArmings};
ghost use Rattle.cj_moves.specs.Caches.{HasCacheAfter};
ghost use Rattle.cj_moves.specs.Counting.{HasCauses, HasLogCauses};
ghost use Rattle.cj_moves.specs.Logins.{HasLogins};
ghost use Rattle.cj_moves.specs.Steps.{IsMet};

use crate::abort::{abort, not_now_abort};
use crate::apply::{apply, not_now_apply};
use crate::arm::arm;
use crate::close::{close, not_now_close};
use crate::disable::{disable, not_now_disable};
use crate::dump::{dump, not_now_dump};
use crate::enable::{enable, not_now_enable};
use crate::end::{end, not_now_end};
use crate::load::{load, not_now_load};
use crate::mark::{mark, not_now_mark};
use crate::open::open;
use crate::read::{not_now_read, read};
use crate::replay::{not_now_replay, replay};
use crate::schedule::{not_now_schedule, schedule};
use cj_backend::Backend;
use cj_cluster::{Move, MoveError, Moved, Why};
use cj_outside::Store;
use cj_state::State;

/// Returns the first reason why the move can't be made now, in the order of the tests, or `None`.
/// `read` itself finds that another read is open, or that the backend doesn't serve the query.
fn why_not_now<B: Backend, S: Store>(state: &State<B, S>, m: &Move) -> Option<Why>
    requires { IsMet state.now.core m.now }
    ensures { result ≡ moves.not_now state.now.core m.now }
{
    match m {
        Move::Open { .. } | Move::Arm { .. } => None,
        Move::Close { session } => not_now_close(state, *session),
        Move::Schedule { session, .. } => not_now_schedule(state, *session),
        Move::Abort { tx } => not_now_abort(state, *tx),
        Move::Apply { b } => not_now_apply(state, *b),
        Move::End => not_now_end(state),
        Move::Read { session, .. } => not_now_read(state, *session),
        Move::Disable { b } => not_now_disable(state, *b),
        Move::Replay { b } => not_now_replay(state, *b),
        Move::Enable { b } => not_now_enable(state, *b),
        Move::Mark { name } => not_now_mark(state, name),
        Move::Dump { b, name } => not_now_dump(state, *b, name),
        Move::Load { b, name } => not_now_load(state, *b, name),
    }
}

/// Makes a move and gives what came of it, or says why the move can't be made now. The move is one
/// of this cluster, and its session can make one more request.
///
/// `NotNow` leaves the history, the positions and the sessions as they were. `NoMemory` leaves all
/// but maybe the log's bytes. A backend that runs out of memory in an entry is out; the move then
/// gives `Starved` and no error.
pub fn step<B: Backend, S: Store>(state: &mut State<B, S>, m: Move) -> Result<Moved, MoveError>
    requires { IsMet state.old.core m }
    ensures moves { MovesTo B.tells state.old.core m result state.new.core }
    ensures causes { HasCauses state.old state.new m result }
    ensures log_causes { HasLogCauses state.old state.new m result }
    ensures armings { HasArmings B.can_be_armed state.old state.new m result }
    ensures logins { HasLogins state.old state.new m result }
    ensures armed { result ≡ Ok Moved.Armed → ArmsCell B.can_be_armed state.old.cells m state.new.cells }
    ensures want { IsErrOf result MoveError.NoMemory → IsSameWorldButLog state.old state.new }
    ensures setup { state.new.setup ≡ state.old.setup }
    ensures cache { HasCacheAfter state.old state.new m }
{
    if let Some(why) = why_not_now(state, &m) {
        return Err(MoveError::NotNow(why));
    }
    match m {
        Move::Open { user } => Ok(open(state, user)),
        Move::Close { session } => Ok(close(state, session)),
        Move::Schedule { session, request } => schedule(state, session, request),
        Move::Abort { tx } => abort(state, tx),
        Move::Apply { b } => Ok(apply(state, b)),
        Move::End => Ok(end(state)),
        Move::Read { session, b, select } => read(state, session, b, select),
        Move::Arm { b } => Ok(arm(state, b)),
        Move::Disable { b } => Ok(disable(state, b)),
        Move::Replay { b } => Ok(replay(state, b)),
        Move::Enable { b } => Ok(enable(state, b)),
        Move::Mark { name } => mark(state, &name),
        Move::Dump { b, name } => dump(state, b, &name),
        Move::Load { b, name } => Ok(load(state, b, &name)),
    }
}

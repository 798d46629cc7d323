//! Lists of moves.

ghost use Rattle.std.specs.Prelude.{◌≡◌, All, IfOk, MatchResult, OnErr, OnOk, map, length};
ghost use mathlib.Core.List.{IsPrefix};
ghost use Rattle.cj_cluster.specs.History.Legality.{IsLegal};
ghost use Rattle.cj_cluster.specs.Moves.Moves.{MovesTo};
ghost use Rattle.cj_cluster.specs.Moves.Runs.{IsMoveOfCluster, CanCountRequests};
ghost use Rattle.cj_moves.specs.Armings.{HasArmings};
ghost use Rattle.cj_moves.specs.Caches.{HasCacheAfter};
ghost use Rattle.cj_moves.specs.Counting.{HasCauses, HasLogCauses};
ghost use Rattle.cj_moves.specs.Logins.{HasLogins};
ghost use Rattle.cj_state.specs.Worlds.{IsSameWorldButLog};
ghost use Rattle.cj_core.specs.Played.{given_of, HasRun, HasRunInPart};
ghost use Rattle.cj_moves.specs.Steps.{IsMet};

use cj_backend::Backend;
use cj_cluster::{Made, Move, MoveError, MovedList, Moves};
use cj_model::{Duplicate, NoMemory};
use cj_moves::step;
use cj_outside::Store;
use cj_state::State;
use std::alloc::Global;

/// Makes a move, and gives what came of it or why it can't be made now. `NoMemory` leaves all but
/// maybe the log's bytes as it was.
pub fn make<B: Backend, S: Store>(state: &mut State<B, S>, m: Move) -> Result<Made, NoMemory>
    requires { IsMet state.old.core m }
    ensures made { IfOk result (λ made. MovesTo B.tells state.old.core m (given_of made) state.new.core) }
    ensures causes { IfOk result (λ made. HasCauses state.old state.new m (given_of made)) }
    ensures log_causes { IfOk result (λ made. HasLogCauses state.old state.new m (given_of made)) }
    ensures armings { IfOk result (λ made. HasArmings B.can_be_armed state.old state.new m (given_of made)) }
    ensures logins { IfOk result (λ made. HasLogins state.old state.new m (given_of made)) }
    ensures want { OnErr result (IsSameWorldButLog state.old state.new) }
    ensures log_want { OnErr result (state.new.recovery_log.faults ≡ state.old.recovery_log.faults) }
    ensures setup { state.new.setup ≡ state.old.setup }
    ensures cache { HasCacheAfter state.old state.new m }
{
    match step(state, m) {
        Ok(moved) => Ok(Made::Moved(moved)),
        Err(MoveError::NotNow(why)) => Ok(Made::NotNow(why)),
        Err(MoveError::NoMemory) => Err(NoMemory),
    }
}

/// Makes a move of a list, which keeps it, and gives what came of it or why it can't be made now.
fn make_copy<B: Backend, S: Store>(
    state: &mut State<B, S>,
    alloc: Global,
    m: &Move,
) -> Result<Made, NoMemory>
    requires { IsMet state.old.core m.now }
    ensures made { IfOk result (λ made. MovesTo B.tells state.old.core m.now (given_of made) state.new.core) }
    ensures causes { IfOk result (λ made. HasCauses state.old state.new m.now (given_of made)) }
    ensures log_causes { IfOk result (λ made. HasLogCauses state.old state.new m.now (given_of made)) }
    ensures armings { IfOk result (λ made. HasArmings B.can_be_armed state.old state.new m.now (given_of made)) }
    ensures logins { IfOk result (λ made. HasLogins state.old state.new m.now (given_of made)) }
    ensures want { OnErr result (IsSameWorldButLog state.old state.new) }
    ensures log_want { OnErr result (state.new.recovery_log.faults ≡ state.old.recovery_log.faults) }
    ensures setup { state.new.setup ≡ state.old.setup }
    ensures cache { OnOk result (HasCacheAfter state.old state.new m.now) }
{
    let m = m.copy(alloc)?;
    make(state, m)
}

/// Makes the moves in order, and gives for each what came of it or why it couldn't be made. A move
/// that can't be made leaves history, positions and sessions. After `NoMemory` the first moves were
/// made, and no more.
pub fn run<B: Backend, S: Store>(
    state: &mut State<B, S>,
    moves: &Moves,
) -> Result<MovedList, NoMemory>
    requires are { All (IsMoveOfCluster state.old.core.placement.backends) moves.now }
    requires count { CanCountRequests state.old.core (length moves.now) }
    ensures runs { MatchResult result (λ made. HasRun B.tells B.can_be_armed state.old moves.now (map given_of made) state.new) (λ _. HasRunInPart B.tells B.can_be_armed state.old moves.now state.new) }
    ensures longer { IsPrefix state.old.core.history state.new.core.history }
    ensures legal { IsLegal state.new.core.history }
    ensures setup { state.new.setup ≡ state.old.setup }
{
    state.legal();
    let alloc = state.allocator();
    let Ok(mut made) = Vec::with_capacity(alloc, moves.len()) else {
        return Err(NoMemory);
    };
    for m in moves.as_slice() {
        let Ok(came) = make_copy(state, alloc, m) else {
            return Err(NoMemory);
        };
        made.push_reserved(came);
    }
    Ok(MovedList::from_vec(made))
}

//! The move `Mark`: a checkpoint gets a name.

ghost use Rattle.std.specs.Prelude.{true, ◌≡◌, ◌<◌, length, IsErrOf, None, Ok};
ghost use Rattle.cj_model.specs.Sql.Names.{is_name};
ghost use Rattle.cj_cluster.specs.Moves.Moves as moves;
ghost use Rattle.cj_cluster.specs.Moves.Moves.{Marks, not_now};
ghost use Rattle.cj_state.specs.Worlds.{IsSameWorldButLog};
ghost use Rattle.cj_moves.specs.Counting.{HasLogCauses};

use crate::reason::why;
use crate::refused::refused;
use cj_backend::Backend;
use cj_cluster::{Move, MoveError, Moved, Reason, Why};
use cj_model::Name;
use cj_outside::Store;
use cj_state::State;

/// Returns why the name can't mark a checkpoint now, or `None`. An entry is open, or a marker or a
/// dump has the name.
pub fn not_now_mark<B: Backend, S: Store>(state: &State<B, S>, name: &Name) -> Option<Why>
    ensures { result ≡ moves.not_now state.now.core (Move.Mark name.now) }
{
    if !state.is_free() {
        return why(Reason::EntryOpen, state.length());
    }
    if state.is_taken(name) {
        return why(Reason::NameTaken, 0);
    }
    None
}

/// Marks a checkpoint after all entries so far, and gives how many those are.
///
/// `Refused` says that the history has no room, or that the log's store failed, which is then an
/// event of the history. `NoMemory` leaves all but maybe the log's bytes as it was.
pub fn mark<B: Backend, S: Store>(state: &mut State<B, S>, name: &Name) -> Result<Moved, MoveError>
    requires name { is_name name.now ≡ true }
    requires now { not_now state.old.core (Move.Mark name.now) ≡ None }
    ensures moves { Marks state.old.core name.now result state.new.core }
    ensures log_causes { HasLogCauses state.old state.new (Move.Mark name.now) result }
    ensures cells { state.new.cells ≡ state.old.cells }
    ensures want { IsErrOf result MoveError.NoMemory → IsSameWorldButLog state.old state.new }
    ensures setup { state.new.setup ≡ state.old.setup }
    ensures cache { state.new.cache ≡ state.old.cache }
{
    match state.mark(name) {
        Ok(after) => Ok(Moved::Marked(after)),
        Err(error) => refused(error),
    }
}

//! The move `Dump`: what a backend holds is kept under a name.

ghost use Rattle.std.specs.Prelude.{true, ◌≡◌, ◌<◌, IsErrOf, None, Ok};
ghost use Rattle.cj_model.specs.Sql.Names.{is_name};
ghost use Rattle.cj_cluster.specs.Moves.Moves as moves;
ghost use Rattle.cj_cluster.specs.Moves.Moves.{Dumps, not_now};
ghost use Rattle.cj_state.specs.ArmedCells.{armings_of};
ghost use Rattle.cj_state.specs.CalledLogins.{logins_of};
ghost use Rattle.cj_moves.specs.Counting.{HasCauses};

use crate::reason::why;
use cj_backend::Backend;
use cj_cluster::{Move, MoveError, Moved, Reason, Why};
use cj_model::Name;
use cj_outside::Store;
use cj_replica::CellError;
use cj_state::State;

/// Returns why backend `b` can't be dumped under this name now, or `None`. An entry is open, the
/// backend is enabled or out, or a marker or a dump has the name.
pub fn not_now_dump<B: Backend, S: Store>(state: &State<B, S>, b: u8, name: &Name) -> Option<Why>
    ensures { result ≡ moves.not_now state.now.core (Move.Dump b name.now) }
{
    if !state.is_free() {
        return why(Reason::EntryOpen, state.length());
    }
    if state.is_enabled(b) {
        return why(Reason::Enabled, b as u64);
    }
    if state.is_taken(name) {
        return why(Reason::NameTaken, 0);
    }
    match state.position(b) {
        None => why(Reason::Out, b as u64),
        Some(_) => None,
    }
}

/// Keeps what backend `b` holds as a dump of this name, and gives how many entries the backend has
/// taken.
///
/// `Failed` says that the backend failed: no dump is kept, and a fault is counted. `NoMemory`
/// changes nothing.
pub fn dump<B: Backend, S: Store>(
    state: &mut State<B, S>,
    b: u8,
    name: &Name,
) -> Result<Moved, MoveError>
    requires within { b < state.old.core.placement.backends }
    requires name { is_name name.now ≡ true }
    requires now { not_now state.old.core (Move.Dump b name.now) ≡ None }
    ensures moves { Dumps state.old.core b name.now result state.new.core }
    ensures causes { HasCauses state.old state.new (Move.Dump b name.now) result }
    ensures armings { armings_of state.new.cells ≡ armings_of state.old.cells }
    ensures logins { logins_of state.new.cells ≡ logins_of state.old.cells }
    ensures want { IsErrOf result MoveError.NoMemory → state.new ≡ state.old }
    ensures setup { state.new.setup ≡ state.old.setup }
    ensures cache { state.new.cache ≡ state.old.cache }
    ensures recovery_log { state.new.recovery_log ≡ state.old.recovery_log }
{
    let db = match state.contents(b) {
        Ok(db) => db,
        Err(CellError::Failed) => return Ok(Moved::Failed),
        Err(CellError::Starved) => return Err(MoveError::NoMemory),
    };
    match state.keep_dump(b, name, db) {
        Ok(position) => Ok(Moved::Dumped(position)),
        Err(_) => Err(MoveError::NoMemory),
    }
}

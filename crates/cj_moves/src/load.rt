//! The move `Load`: a backend that is out gets what a dump has of its tables.

ghost use Rattle.std.specs.Prelude.{◌≡◌, ◌<◌, None, Ok};
ghost use Rattle.cj_cluster.specs.Moves.Moves as moves;
ghost use Rattle.cj_cluster.specs.Moves.Moves.{Loads, not_now};
ghost use Rattle.cj_state.specs.ArmedCells.{armings_of};
ghost use Rattle.cj_state.specs.CalledLogins.{logins_of};
ghost use Rattle.cj_moves.specs.Counting.{HasCauses};

use crate::reason::why;
use cj_backend::Backend;
use cj_cluster::{Move, Moved, Reason, Why};
use cj_model::Name;
use cj_outside::Store;
use cj_replica::CellError;
use cj_state::State;

/// Returns why backend `b` can't load the dump of this name now, or `None`. An entry is open, the
/// backend is enabled or not out, there is no such dump, or the dump lacks a table of the backend.
pub fn not_now_load<B: Backend, S: Store>(state: &State<B, S>, b: u8, name: &Name) -> Option<Why>
    requires { b < state.now.core.placement.backends }
    ensures { result ≡ moves.not_now state.now.core (Move.Load b name.now) }
{
    if !state.is_free() {
        return why(Reason::EntryOpen, state.length());
    }
    if state.is_enabled(b) {
        return why(Reason::Enabled, b as u64);
    }
    let Some(taken) = state.find_dump(name) else {
        return why(Reason::NoDump, 0);
    };
    if state.position(b).is_some() {
        return why(Reason::NotOut, b as u64);
    }
    if state.hosts_beyond(b, taken) {
        return why(Reason::DumpLacks, 0);
    }
    None
}

/// Loads the first dump of this name into backend `b`, with only the tables that it hosts, and
/// gives the dump's position.
///
/// `Failed` counts a fault; after `Failed` and `Starved` the backend is still out.
pub fn load<B: Backend, S: Store>(state: &mut State<B, S>, b: u8, name: &Name) -> Moved
    requires within { b < state.old.core.placement.backends }
    requires now { not_now state.old.core (Move.Load b name.now) ≡ None }
    ensures moves { Loads B.tells state.old.core b name.now (Ok result) state.new.core }
    ensures causes { HasCauses state.old state.new (Move.Load b name.now) (Ok result) }
    ensures armings { armings_of state.new.cells ≡ armings_of state.old.cells }
    ensures logins { logins_of state.new.cells ≡ logins_of state.old.cells }
    ensures setup { state.new.setup ≡ state.old.setup }
    ensures cache { state.new.cache ≡ state.old.cache }
    ensures recovery_log { state.new.recovery_log ≡ state.old.recovery_log }
{
    match state.load_dump(b, name) {
        Ok(position) => Moved::Loaded(position),
        Err(CellError::Failed) => Moved::Failed,
        Err(CellError::Starved) => Moved::Starved,
    }
}

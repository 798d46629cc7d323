//! The move `Arm`: the next call of a backend is to fail.

ghost use Rattle.std.specs.Prelude.{◌≡◌, ◌<◌, Ok};
ghost use Rattle.cj_cluster.specs.Moves.Moves as moves;
ghost use Rattle.cj_cluster.specs.Moves.Moves.{Arms};
ghost use Rattle.cj_replica.specs.Cells.{CellState};
ghost use Rattle.cj_moves.specs.Armings.{HasArmings};
ghost use Rattle.cj_state.specs.ArmedCells.{armed_at};
ghost use Rattle.cj_state.specs.Faults.{faults_of};
ghost use Rattle.cj_state.specs.CalledLogins.{logins_of};

use cj_backend::Backend;
use cj_cluster::{Move, Moved};
use cj_outside::Store;
use cj_state::State;

/// Makes the next call of backend `b` fail, if it can be armed. Nothing else changes.
pub fn arm<B: Backend, S: Store>(state: &mut State<B, S>, b: u8) -> Moved
    requires { b < state.old.core.placement.backends }
    ensures moves { Arms state.old.core (Ok result) state.new.core }
    ensures cells { (d : CellState) → state.new.cells ≡ armed_at B.can_be_armed state.old.cells b d }
    ensures faults { faults_of state.new.cells ≡ faults_of state.old.cells }
    ensures armings { HasArmings B.can_be_armed state.old state.new (Move.Arm b) (Ok result) }
    ensures logins { logins_of state.new.cells ≡ logins_of state.old.cells }
    ensures setup { state.new.setup ≡ state.old.setup }
    ensures cache { state.new.cache ≡ state.old.cache }
    ensures recovery_log { state.new.recovery_log ≡ state.old.recovery_log }
{
    state.arm_backend(b);
    Moved::Armed
}

//! A start over a log that was opened: all that the backends and the history go through.

ghost use Rattle.std.specs.Prelude.{◌≡◌, [], OnOk};
ghost use Rattle.cj_cluster.specs.History.Histories.{log};
ghost use Rattle.cj_start.specs.Started.{HasStarted, CountsFaultOfPart, IsLonger};
ghost use Rattle.cj_recovery.specs.Openings.{IsOpening};
ghost use Rattle.cj_state.specs.Beginnings.{opened_core};
ghost use Rattle.cj_state.specs.Faults.{faults_of};

use crate::ending::end_all;
use crate::replaying::{enable_everywhere, replay_everywhere};
use cj_backend::Backend;
use cj_book::StartError;
use cj_outside::Store;
use cj_state::State;

/// Brings the backends to the end of the opened log, enables those that don't fail, and ends the
/// transactions that the log leaves open.
pub fn bring_up<B: Backend, S: Store>(state: &mut State<B, S>) -> Result<(), StartError>
    requires opened { state.old.core ≡ opened_core state.old.core.placement state.old.core.history }
    requires opening { IsOpening state.old.core.history }
    ensures started { OnOk result (HasStarted state.old.core.placement state.old.core.history (faults_of state.old.cells) state.new) }
    ensures uncalled { OnOk result (log state.old.core.history ≡ [] → state.new.cells ≡ state.old.cells) }
    ensures setup { OnOk result (state.new.setup ≡ state.old.setup) }
    ensures cache { OnOk result (state.new.cache ≡ state.old.cache) }
    ensures balance { OnOk result (state.new.balance ≡ state.old.balance) }
    ensures longer { IsLonger state.old state.new }
    ensures cause { CountsFaultOfPart state.old.recovery_log.faults result state.new.recovery_log.faults }
{
    replay_everywhere(state)?;
    state.legal();
    enable_everywhere(state)?;
    end_all(state)?;
    state.legal();
    Ok(())
}

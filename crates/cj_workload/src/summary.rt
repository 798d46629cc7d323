//! The summary of a workload.

ghost use Rattle.std.specs.Prelude.{◌≡◌, ◌+◌, true, IfOk, IsErrOf};
ghost use Rattle.cj_cluster.specs.History.Histories.{is_free};
ghost use Rattle.cj_state.specs.Worlds.{WorldState};
ghost use Rattle.cj_workload.specs.Summaries.{HaveCountsOf, IsSummary, enablings};

use crate::asking::{are_equal, ask_each, count_faults, count_of};
use crate::playing::WorkloadError;
use crate::statements::table;
use cj_backend::{Backend, BackendError};
use cj_core::{Backends, World};
use cj_outside::Store;
use std::alloc::Global;

/// The figures of a workload that was played to its end.
#[derive(Clone, Copy)]
pub struct Summary {
    /// How many statements were asked for, without the CREATE.
    pub statements: u64,
    /// The length of the log.
    pub entries: u64,
    /// How many faults all backends counted together, up to 2^64 - 1.
    pub faults: u64,
    /// How often a backend was enabled after the first dump.
    pub enabled: u64,
    /// How many rows the workload's table has; 0 where no backend hosts it.
    pub rows: u64,
    /// How often a query was found in the result cache.
    pub hits: u64,
    /// How often a query was not found in the result cache.
    pub misses: u64,
    /// Whether the enabled hosts of the table hold the same rows of it.
    pub equal: bool,
}

/// Sums up a workload at the world that it ends with: so many statements were asked for, and backends were enabled so
/// often meanwhile. Uses the world up, and gives its backends back.
///
/// `Untold`: the table has hosts, and none is enabled, or one fails as it is asked for its contents.
pub fn sum_up<B: Backend + Drop, S: Store + Drop>(
    alloc: Global,
    world: World<B, S>,
    statements: u64,
    enabled: u64,
) -> Result<(Summary, Backends<B>), WorkloadError>
    requires { is_free world.core.history ≡ true }
    ensures summary { (begun : WorldState) → enablings world.core.history ≡ enablings begun.core.history + enabled → IfOk result (λ (summary, _). IsSummary B.tells statements begun world summary) }
    ensures backends { IfOk result (λ (_, backends). HaveCountsOf B.faults B.arming backends world) }
    ensures opened { IsErrOf result WorkloadError.SessionsFull → ⊥ }
{
    world.legal();
    let entries = world.length();
    let (hits, misses) = world.cache_counts();
    let hosts = world.placement().hosts(&table());
    let mask = hosts & world.enabled();
    let backends = world.into_backends().into_vec();
    let faults = count_faults(&backends);
    if hosts != 0 && mask == 0 {
        return Err(WorkloadError::Untold);
    }
    let (held, asked) = match ask_each(alloc, backends, mask) {
        Ok(found) => found,
        Err(BackendError::Failed) => return Err(WorkloadError::Untold),
        Err(BackendError::NoMemory) => return Err(WorkloadError::NoMemory),
    };
    let summary = Summary {
        statements,
        entries,
        faults,
        enabled,
        rows: count_of(held.as_slice()),
        hits,
        misses,
        equal: are_equal(held.as_slice()),
    };
    Ok((summary, asked))
}

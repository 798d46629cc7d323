//! What a cell gives for a query.

use cj_model::Asked;

/// How a query is answered that a cell has begun.
#[derive(Drop)]
pub enum Reading<P> {
    /// By the backend's answer, since it gives no snapshots.
    Answer(Asked),
    /// By a snapshot of the backend, which answers while the cell goes on.
    Snapshot(P),
}

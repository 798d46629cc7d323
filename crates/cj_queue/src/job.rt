//! A job: an entry of the log, for a backend to carry out.

ghost use Rattle.std.specs.Prelude.{◌≡◌, ◌-◌, ◌<◌, Some, slice_get};
ghost use Rattle.std.specs.Arc.{arc_value};
ghost use Rattle.cj_cluster.specs.History.Histories.{log};
ghost use Rattle.cj_board.specs.Seats.{front};

use cj_model::Entry;
use cj_pass::{Naming, Pass};
use std::alloc::Global;
use std::sync::Arc;

/// An entry of the log with its number, and a pass that has seen it there.
///
/// Whoever has the job may have a backend's cell carry the entry out: the pass is all that the cell asks for.
#[derive(Drop)]
pub struct Job<J: Naming> {
    pub number: u64,
    pub entry: Arc<Entry, Global>,
    pub pass: Pass<J>,
    ghost numbered: { 0 < number },
    ghost scheduled: { slice_get (log (front pass.seat)) (number - 1) ≡ Some (arc_value entry) },
}

impl<J: Naming> Job<J> {
    /// Makes a job of entry `number` of the log, which the pass has seen.
    pub fn new(number: u64, entry: Arc<Entry, Global>, pass: Pass<J>) -> Job<J>
        requires numbered { 0 < number }
        requires scheduled { slice_get (log (front pass.seat)) (number - 1) ≡ Some (arc_value entry) }
        ensures { (result.number ≡ number) × (result.entry ≡ entry) × (result.pass ≡ pass) }
    {
        Job {
            number,
            entry,
            pass,
        }
    }
}

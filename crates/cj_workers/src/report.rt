//! What a backend did with an entry that it was handed.

ghost use Rattle.std.specs.Prelude.{◌≡◌, ◌-◌, ◌<◌, Some, slice_get};
ghost use Rattle.std.specs.Arc.{arc_value};
ghost use Rattle.cj_model.specs.declared.limits.TheConstants.{BACKEND_LIMIT};
ghost use Rattle.cj_cluster.specs.History.Histories.{log};
ghost use Rattle.cj_place.specs.Layouts.{placement_of};
ghost use Rattle.cj_board.specs.Seats.{front, pass_view};
ghost use Rattle.cj_pass.specs.Passes.{HasNotedMore};
ghost use Rattle.cj_locked_cell.specs.Taking.{HasTallied, ReportsEntry};
ghost use Rattle.cj_tally.specs.Tallies.{HasReported, KeepsReports};
ghost use Rattle.cj_workers.specs.Reports.{TellsEntry};

use cj_cluster::Did;
use cj_model::Entry;
use cj_pass::{NamedBoard, Naming, Pass};
use cj_tally::Tally;
use std::alloc::Global;
use std::sync::Arc;

/// What a backend did with an entry of the log, and a pass that has noted it.
#[derive(Drop)]
pub struct Report<J: Naming> {
    pub number: u64,
    pub entry: Arc<Entry, Global>,
    pub backend: u8,
    pub did: Did,
    pub pass: Pass<J>,
    ghost scheduled: { slice_get (log (front pass.seat)) (number - 1) ≡ Some (arc_value entry) },
    ghost tells: { TellsEntry J.tells (placement_of J.layout) number (arc_value entry) (pass_view pass.seat) backend did },
}

impl<J: Naming> Report<J> {
    /// Makes the report of what a backend did with entry `number`, which the pass has noted.
    pub fn new(
        number: u64,
        entry: Arc<Entry, Global>,
        backend: u8,
        did: Did,
        pass: Pass<J>,
    ) -> Report<J>
        requires scheduled { slice_get (log (front pass.seat)) (number - 1) ≡ Some (arc_value entry) }
        requires reports { ReportsEntry J.tells (placement_of J.layout) number (arc_value entry) (pass_view pass.seat) backend did }
        ensures { result.number ≡ number }
    {
        Report {
            number,
            entry,
            backend,
            did,
            pass,
        }
    }

    /// Adds the report of backend `b` to the tally of its entry, which the pass has seen. The pass has noted the report
    /// then. The report of another backend counts as one that ran out of memory, in a branch that never runs.
    pub fn count(
        self,
        board: &NamedBoard<J>,
        pass: &mut Pass<J>,
        b: u8,
        e: &Entry,
        tally: &mut Tally,
    )
        requires few { b < BACKEND_LIMIT }
        requires entry { slice_get (log (front pass.old.seat)) (self.number - 1) ≡ Some e.now }
        requires tallied { HasTallied J.tells (placement_of J.layout) self.number e.now (pass_view pass.old.seat) tally.old }
        ensures more { HasNotedMore (pass_view pass.old.seat) (pass_view pass.new.seat) }
        ensures tallied { HasTallied J.tells (placement_of J.layout) self.number e.now (pass_view pass.new.seat) tally.new }
        ensures reported { HasReported tally.new b }
        ensures others { KeepsReports tally.old tally.new }
    {
        let Report {
            backend,
            did,
            pass: other,
            ..
        } = self;
        board.rejoin(pass, other);
        if backend != b {
            tally.took(b, Did::Starved);
            return;
        }
        tally.took(b, did);
    }
}

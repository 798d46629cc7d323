//! What the backends did with the open entry.

ghost use Rattle.std.specs.Prelude.{◌≡◌, ◌<◌, ℕ, Bool, List};
ghost use Rattle.cj_model.specs.Cluster.Placements.{Placement};
ghost use Rattle.cj_model.specs.declared.request.Entry.{Entry};
ghost use Rattle.cj_tally.specs.Tallies.{no_reports, with_report, AnswersByTally, HasReported, IsReportOf, IsTallyOf, KeepsReports, RefusesEntry, RepliesTo};

use cj_cluster::Did;
use cj_model::{Outcome, Refusal, Reply, STARVED_ALL, UNFINISHED, with_bit};

/// What the backends have reported of the open entry. A mask has bit b for backend b.
#[derive(Clone, Copy)]
pub struct Tally {
    /// The backends that applied the entry, or skipped it because they have no part in it.
    pub taken: u32,
    /// The backends that failed in the entry.
    pub failed: u32,
    /// The backends that ran out of memory in the entry.
    pub starved: u32,
    /// The outcome of the first backend that gave one.
    pub first_outcome: Option<Outcome>,
}

/// The refusal of an entry that no target finished.
fn unfinished(failed: u32, starved: u32) -> Refusal
    ensures { RefusesEntry failed starved result }
{
    if failed != 0 {
        Refusal {
            code: UNFINISHED,
            a: failed as u64,
            b: starved as u64,
        }
    } else {
        Refusal {
            code: STARVED_ALL,
            a: 0,
            b: starved as u64,
        }
    }
}

impl Tally {
    /// A tally without reports, as an entry opens.
    pub fn new() -> Tally
        ensures { result ≡ no_reports }
    {
        Tally {
            taken: 0,
            failed: 0,
            starved: 0,
            first_outcome: None,
        }
    }

    /// Adds the report of backend `b`, which is below 32. The outcome of the first backend that gave one stays.
    pub fn took(&mut self, b: u8, did: Did)
        requires { b < 32 }
        ensures report { self.new ≡ with_report self.old b did }
        ensures reported { HasReported self.new b }
        ensures others { KeepsReports self.old self.new }
        ensures tally { (tells : Bool) (p : Placement) (entries : List Entry) (i : ℕ) (e : Entry) → IsTallyOf tells p entries i e self.old → IsReportOf tells p entries i e b did → IsTallyOf tells p entries i e self.new }
    {
        match did {
            Did::Done(outcome) => {
                self.taken = with_bit(self.taken, b);
                self.first_outcome = self.first_outcome.or(Some(outcome));
            }
            Did::Skipped => self.taken = with_bit(self.taken, b),
            Did::Failed => self.failed = with_bit(self.failed, b),
            Did::Starved => self.starved = with_bit(self.starved, b),
        }
    }

    /// The reply to the session of an entry with these targets, each of which has reported.
    ///
    /// If there are targets, and each failed or ran out of memory, the reply is that refusal. Else it is the first
    /// outcome, or `Done(0)` for an entry in which no backend had a part.
    pub fn reply(self, targets: u32) -> Reply
        ensures reply { RepliesTo self targets result }
        ensures answers { AnswersByTally self targets result }
    {
        if targets != 0 && targets & !(self.failed | self.starved) == 0 {
            return Reply::Refused(unfinished(self.failed, self.starved));
        }
        match self.first_outcome {
            Some(Outcome::Done(count)) => Reply::Done(count),
            Some(Outcome::Refused(refusal)) => Reply::Refused(refusal),
            None => Reply::Done(0),
        }
    }
}

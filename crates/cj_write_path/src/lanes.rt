//! The way of an entry over the lanes of the backends' workers.

ghost use Rattle.std.specs.Prelude.{◌≡◌, ◌<◌, true, length};
ghost use Rattle.std.specs.Arc.{arc_value};
ghost use Rattle.cj_model.specs.declared.limits.TheConstants.{BACKEND_LIMIT};
ghost use Rattle.cj_cluster.specs.History.Legality.{IsLegal};
ghost use Rattle.cj_model.specs.Cluster.Masks.{in_mask};
ghost use Rattle.cj_place.specs.Layouts.{placement_of};
ghost use Rattle.cj_board.specs.Seats.{front, pass_view};
ghost use Rattle.cj_pass.specs.Passes.{HasNotedMore, HasSeenMore};
ghost use Rattle.cj_tally.specs.Tallies.{HasReported, HaveReportedBelow, KeepsReports};
ghost use Rattle.cj_locked_cell.specs.Taking.{HasTallied};
ghost use Rattle.cj_locked.specs.Writing.{EndsSince, HoldsEntry, IsScheduledIn};

use crate::brief::is_brief;
use crate::writes::{end, take_everywhere};
use cj_backend::Backend;
use cj_locked::{OpenEntry, without};
use cj_locks::Locks;
use cj_model::{Entry, Reply, has_bit, with_bit};
use cj_outside::Store;
use cj_pass::{Naming, Pass};
use cj_queue::Job;
use cj_tally::Tally;
use cj_workers::Report;
use std::alloc::Global;
use std::sync::{Arc, Wait};

/// Has backend `b` carry out the entry of a job.
fn carry<J: Naming, B: Backend, S: Store + Drop, R: Wait>(
    locks: &Locks<J, B, S>,
    rt: &R,
    b: u8,
    job: Job<J>,
) -> Report<J>
    requires below { b < length J.layout.names }
    ensures number { result.number ≡ job.number }
{
    let Job {
        number,
        entry,
        mut pass,
    } = job;
    let login = locks.accounts.mapped(&entry.user, b);
    let did = locks.cells[b as usize]
        .lock(rt)
        .take(&locks.board, &mut pass, b, number, &entry, login);
    Report::new(number, entry, b, did, pass)
}

/// Does the work of the worker of backend `b`: carries out each job of its lane, and reports it. The thread sleeps
/// while there is none. It returns once the lane was stopped and has no job.
pub fn work<J: Naming, B: Backend, S: Store + Drop, R: Wait>(locks: &Locks<J, B, S>, rt: &R, b: u8)
    requires below { b < length J.layout.names }
{
    for _ in rt.forever() {
        let Some(job) = locks.lanes[b as usize].next(rt) else {
            return;
        };
        let report = carry(locks, rt, b, job);
        locks.lanes[b as usize].tell(rt, report);
    }
}

/// Posts an entry to the lane of a backend, if it is in the mask and has a worker. Returns whether it did.
fn post_at<J: Naming, B: Backend, S: Store + Drop, R: Wait>(
    locks: &Locks<J, B, S>,
    rt: &R,
    pass: &mut Pass<J>,
    b: u8,
    n: u64,
    e: &Arc<Entry, Global>,
    mask: u32,
) -> bool
    requires few { b < BACKEND_LIMIT }
    requires scheduled { IsScheduledIn (placement_of J.layout) (front pass.old.seat) n (arc_value e.now) }
    ensures same { pass_view pass.new.seat ≡ pass_view pass.old.seat }
{
    let Some(lane) = locks.lanes.get(b as usize) else {
        return false;
    };
    if !has_bit(mask, b) || !lane.has_worker() {
        return false;
    }
    let Ok(entry) = Arc::try_clone(e) else {
        return false;
    };
    let job = Job::new(n, entry, locks.board.split(pass));
    lane.post(rt, job)
}

/// Posts an entry to the lanes of the backends of the mask that have a worker. Returns the mask of these.
fn post_to_each<J: Naming, B: Backend, S: Store + Drop, R: Wait>(
    locks: &Locks<J, B, S>,
    rt: &R,
    pass: &mut Pass<J>,
    n: u64,
    e: &Arc<Entry, Global>,
    mask: u32,
) -> u32
    requires scheduled { IsScheduledIn (placement_of J.layout) (front pass.old.seat) n (arc_value e.now) }
    ensures same { pass_view pass.new.seat ≡ pass_view pass.old.seat }
{
    let mut posted = 0;
    for b in 0..locks.placement.count() {
        if post_at(locks, rt, pass, b, n, e, mask) {
            posted = with_bit(posted, b);
        }
    }
    posted
}

/// Waits for the report of a backend whose lane has the entry, if it is in the mask, and adds it to the tally. An entry
/// that its worker has not begun is carried out here.
fn hear_at<J: Naming, B: Backend, S: Store + Drop, R: Wait>(
    locks: &Locks<J, B, S>,
    rt: &R,
    pass: &mut Pass<J>,
    b: u8,
    n: u64,
    e: &Entry,
    mask: u32,
    tally: &mut Tally,
)
    requires backend { b < length J.layout.names }
    requires few { b < BACKEND_LIMIT }
    requires scheduled { IsScheduledIn (placement_of J.layout) (front pass.old.seat) n e.now }
    requires tallied { HasTallied B.tells (placement_of J.layout) n e.now (pass_view pass.old.seat) tally.old }
    ensures more { HasNotedMore (pass_view pass.old.seat) (pass_view pass.new.seat) }
    ensures tallied { HasTallied B.tells (placement_of J.layout) n e.now (pass_view pass.new.seat) tally.new }
    ensures reported { in_mask mask b ≡ true → HasReported tally.new b }
    ensures others { KeepsReports tally.old tally.new }
{
    if !has_bit(mask, b) {
        return;
    }
    let lane = &locks.lanes[b as usize];
    if let Some(job) = lane.take(rt) {
        let report = carry(locks, rt, b, job);
        lane.tell(rt, report);
    }
    lane.hear(rt, n).count(&locks.board, pass, b, e, tally);
}

/// Waits for the reports of the backends of the mask, whose lanes have the entry, and adds them to the tally.
fn hear_each<J: Naming, B: Backend, S: Store + Drop, R: Wait>(
    locks: &Locks<J, B, S>,
    rt: &R,
    pass: &mut Pass<J>,
    n: u64,
    e: &Entry,
    mask: u32,
    tally: &mut Tally,
)
    requires scheduled { IsScheduledIn (placement_of J.layout) (front pass.old.seat) n e.now }
    requires tallied { HasTallied B.tells (placement_of J.layout) n e.now (pass_view pass.old.seat) tally.old }
    ensures more { HasNotedMore (pass_view pass.old.seat) (pass_view pass.new.seat) }
    ensures tallied { HasTallied B.tells (placement_of J.layout) n e.now (pass_view pass.new.seat) tally.new }
    ensures reported { HaveReportedBelow (length J.layout.names) mask tally.new }
    ensures others { KeepsReports tally.old tally.new }
{
    for b in 0..locks.placement.count() {
        hear_at(locks, rt, pass, b, n, e, mask, tally);
    }
}

/// Has each enabled backend take the entry: the lowest one here, and meanwhile the others by their workers. Those that
/// have none take it here, too, and each takes a brief entry here.
fn take_beside<J: Naming, B: Backend, S: Store + Drop, R: Wait>(
    locks: &Locks<J, B, S>,
    rt: &R,
    pass: &mut Pass<J>,
    n: u64,
    e: &Arc<Entry, Global>,
    enabled: u32,
) -> Tally
    requires scheduled { IsScheduledIn (placement_of J.layout) (front pass.old.seat) n (arc_value e.now) }
    requires legal { IsLegal (front pass.old.seat) }
    ensures more { HasNotedMore (pass_view pass.old.seat) (pass_view pass.new.seat) }
    ensures tallied { HasTallied B.tells (placement_of J.layout) n (arc_value e.now) (pass_view pass.new.seat) result }
    ensures reported { HaveReportedBelow (length J.layout.names) enabled result }
{
    let others = if is_brief(&e.act) {
        0
    } else {
        enabled & enabled.wrapping_sub(1)
    };
    let posted = post_to_each(locks, rt, pass, n, e, others);
    let mut tally = take_everywhere(locks, rt, pass, n, e, without(enabled, posted));
    hear_each(locks, rt, pass, n, e, posted, &mut tally);
    tally
}

/// Has the cells take an entry that was scheduled, at the same time where backends have workers, and ends it.
pub(crate) fn carry_out_beside<J: Naming, B: Backend, S: Store + Drop, R: Wait>(
    locks: &Locks<J, B, S>,
    rt: &R,
    pass: &mut Pass<J>,
    entry: OpenEntry<J, S>,
    e: &Arc<Entry, Global>,
) -> Reply
    requires holds { HoldsEntry S.tells S.faults (placement_of J.layout) (front pass.old.seat) entry.number entry.enabled (arc_value e.now) entry.turn.share.amount entry.turn.log }
    requires legal { IsLegal (front pass.old.seat) }
    ensures seen { HasSeenMore (pass_view pass.old.seat) (pass_view pass.new.seat) }
    ensures legal { IsLegal (front pass.new.seat) }
    ensures ended { EndsSince B.tells (placement_of J.layout) (front pass.old.seat) entry.number (arc_value e.now) result (front pass.new.seat) }
{
    let tally = take_beside(locks, rt, pass, entry.number, e, entry.enabled);
    end(locks, rt, pass, entry, e, tally)
}

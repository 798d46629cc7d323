//! The way of an entry: the turn, the book, the log, the book again, each cell, and the book once more.

ghost use Rattle.std.specs.Prelude.{◌≡◌, ℕ, ◌<◌, ◌≤◌, true, length, IfErr, IfOk};
ghost use Rattle.std.specs.Arc.{arc_value};
ghost use Rattle.cj_model.specs.declared.limits.TheConstants.{BACKEND_LIMIT};
ghost use Rattle.cj_model.specs.Cluster.Masks.{in_mask};
ghost use Rattle.cj_cluster.specs.History.Histories.{is_enabled, log};
ghost use Rattle.cj_cluster.specs.History.Legality.{IsFitEntry, IsLegal, IsSessionEntry};
ghost use Rattle.cj_place.specs.Layouts.{placement_of};
ghost use Rattle.cj_board.specs.Counting.{event_count_of};
ghost use Rattle.cj_board.specs.Seats.{front, pass_view};
ghost use Rattle.cj_pass.specs.Passes.{HasNotedMore, HasSeenMore};
ghost use Rattle.cj_locked_cell.specs.Taking.{HasTallied};
ghost use Rattle.cj_locked.specs.Writing.{refusal_for, BeginsSince, EndsSince, HoldsAppended, HoldsEntry, IsScheduledIn, RefusesSince, SchedulesSince, WritesTurn};
ghost use Rattle.cj_tally.specs.Tallies.{HasReported, HaveReportedBelow, KeepsReports};
ghost use Rattle.cj_write_path.specs.Writing.{least_after};

use crate::lanes::carry_out_beside;
use cj_backend::Backend;
use cj_book::{BookError, Prepared};
use cj_locked::{Begun, OpenEntry, Turn};
use cj_locks::Locks;
use cj_log::LogError;
use cj_model::{Entry, HISTORY_FULL, LOG_FAULT, NO_BACKEND, NO_MEMORY, Refusal, Reply, has_bit};
use cj_outside::Store;
use cj_pass::{Naming, Pass};
use cj_tally::Tally;
use std::alloc::Global;
use std::sync::{Arc, Wait};

/// Returns what the client reads if the book refuses an entry.
fn refusal_for(error: BookError) -> Refusal
    ensures { result ≡ refusal_for error }
{
    match error {
        BookError::NoBackend => Refusal::of_code(NO_BACKEND),
        BookError::HistoryFull(events) => Refusal {
            code: HISTORY_FULL,
            a: events,
            b: 0,
        },
        BookError::LogFault => Refusal::of_code(LOG_FAULT),
        BookError::InProgress(_) | BookError::NoMemory => Refusal::of_code(NO_MEMORY),
    }
}

/// Waits for the turn, and begins the entry.
fn begin<J: Naming, B: Backend, S: Store + Drop, R: Wait>(
    locks: &Locks<J, B, S>,
    rt: &R,
    pass: &mut Pass<J>,
    e: &Entry,
) -> Result<Begun<J, S>, BookError>
    requires own { ((pass_view pass.old.seat).own_session ≡ e.now.session) × (0 < e.now.session) }
    requires counted { event_count_of e.now.session (front pass.old.seat) ≡ (pass_view pass.old.seat).count }
    requires fit { IsFitEntry (log (front pass.old.seat)) e.now }
    ensures ok { IfOk result (λ begun. BeginsSince S.tells S.faults (placement_of J.layout) (front pass.old.seat) (front pass.new.seat) e.now begun.prepared begun.turn.share.amount begun.turn.log begun.item) }
    ensures err { IfErr result (RefusesSince (placement_of J.layout) (front pass.old.seat) (front pass.new.seat) e.now) }
    ensures own { (pass_view pass.new.seat).own_session ≡ e.now.session }
    ensures counted { event_count_of e.now.session (front pass.new.seat) ≡ (pass_view pass.new.seat).count }
    ensures legal { IsLegal (front pass.new.seat) }
{
    locks.wait_for_turn(rt).begin(&locks.board, pass, e)
}

/// Finishes what was begun, and wakes those who wait for it.
fn finish<J: Naming, B: Backend, S: Store + Drop, R: Wait>(
    locks: &Locks<J, B, S>,
    rt: &R,
    pass: &mut Pass<J>,
    turn: Turn<J, S>,
    e: Entry,
    prepared: Prepared,
    appended: Result<(), LogError>,
) -> Result<OpenEntry<J, S>, BookError>
    requires own { ((pass_view pass.old.seat).own_session ≡ e.session) × (0 < e.session) }
    requires counted { event_count_of e.session (front pass.old.seat) ≡ (pass_view pass.old.seat).count }
    requires holds { HoldsAppended S.tells S.faults (placement_of J.layout) (front pass.old.seat) e prepared turn.share.amount turn.log appended }
    ensures ok { IfOk result (λ entry. HoldsEntry S.tells S.faults (placement_of J.layout) (front pass.new.seat) entry.number entry.enabled e entry.turn.share.amount entry.turn.log) }
    ensures since { IfOk result (λ entry. SchedulesSince (placement_of J.layout) (front pass.old.seat) (front pass.new.seat) entry.number e) }
    ensures enabled { IfOk result (λ entry. (b : ℕ) → in_mask entry.enabled b ≡ is_enabled (front pass.new.seat) b) }
    ensures err { IfErr result (RefusesSince (placement_of J.layout) (front pass.old.seat) (front pass.new.seat) e) }
    ensures own { (pass_view pass.new.seat).own_session ≡ e.session }
    ensures counted { event_count_of e.session (front pass.new.seat) ≡ (pass_view pass.new.seat).count }
    ensures legal { IsLegal (front pass.new.seat) }
{
    let finished = locks
        .book
        .lock(rt)
        .finish(&locks.board, pass, turn, e, prepared, appended);
    locks.settled.notify_all();
    if finished.is_err() {
        locks.turn_back.notify_one();
    }
    finished
}

/// Waits for the turn, and schedules the entry. The log appends it while no lock is held.
fn schedule<J: Naming, B: Backend, S: Store + Drop, R: Wait>(
    locks: &Locks<J, B, S>,
    rt: &R,
    pass: &mut Pass<J>,
    e: Entry,
) -> Result<OpenEntry<J, S>, BookError>
    requires own { ((pass_view pass.old.seat).own_session ≡ e.session) × (0 < e.session) }
    requires counted { event_count_of e.session (front pass.old.seat) ≡ (pass_view pass.old.seat).count }
    requires fit { IsFitEntry (log (front pass.old.seat)) e }
    ensures ok { IfOk result (λ entry. HoldsEntry S.tells S.faults (placement_of J.layout) (front pass.new.seat) entry.number entry.enabled e entry.turn.share.amount entry.turn.log) }
    ensures since { IfOk result (λ entry. SchedulesSince (placement_of J.layout) (front pass.old.seat) (front pass.new.seat) entry.number e) }
    ensures enabled { IfOk result (λ entry. (b : ℕ) → in_mask entry.enabled b ≡ is_enabled (front pass.new.seat) b) }
    ensures err { IfErr result (RefusesSince (placement_of J.layout) (front pass.old.seat) (front pass.new.seat) e) }
    ensures own { (pass_view pass.new.seat).own_session ≡ e.session }
    ensures counted { event_count_of e.session (front pass.new.seat) ≡ (pass_view pass.new.seat).count }
    ensures legal { IsLegal (front pass.new.seat) }
{
    match begin(locks, rt, pass, &e) {
        Ok(
            Begun {
                item,
                prepared,
                mut turn,
            },
        ) => {
            let appended = turn.append(item);
            finish(locks, rt, pass, turn, e, prepared, appended)
        }
        Err(error) => {
            // Who was woken for the turn and is refused wakes the next.
            locks.turn_back.notify_one();
            Err(error)
        }
    }
}

/// Has one backend take the entry, if it is in the mask, and adds its report to the tally.
fn take_at<J: Naming, B: Backend, S: Store + Drop, R: Wait>(
    locks: &Locks<J, B, S>,
    rt: &R,
    pass: &mut Pass<J>,
    b: u8,
    n: u64,
    e: &Entry,
    enabled: u32,
    tally: &mut Tally,
)
    requires backend { b < length J.layout.names }
    requires few { b < BACKEND_LIMIT }
    requires scheduled { IsScheduledIn (placement_of J.layout) (front pass.old.seat) n e.now }
    requires legal { IsLegal (front pass.old.seat) }
    requires tallied { HasTallied B.tells (placement_of J.layout) n e.now (pass_view pass.old.seat) tally.old }
    ensures more { HasNotedMore (pass_view pass.old.seat) (pass_view pass.new.seat) }
    ensures legal { IsLegal (front pass.new.seat) }
    ensures tallied { HasTallied B.tells (placement_of J.layout) n e.now (pass_view pass.new.seat) tally.new }
    ensures reported { in_mask enabled b ≡ true → HasReported tally.new b }
    ensures others { KeepsReports tally.old tally.new }
{
    if !has_bit(enabled, b) {
        return;
    }
    let login = locks.accounts.mapped(&e.user, b);
    let did = locks.cells[b as usize]
        .lock(rt)
        .take(&locks.board, pass, b, n, e, login);
    tally.took(b, did);
}

/// Has each backend of the mask take the entry, one after another.
pub(crate) fn take_everywhere<J: Naming, B: Backend, S: Store + Drop, R: Wait>(
    locks: &Locks<J, B, S>,
    rt: &R,
    pass: &mut Pass<J>,
    n: u64,
    e: &Entry,
    enabled: u32,
) -> Tally
    requires scheduled { IsScheduledIn (placement_of J.layout) (front pass.old.seat) n e.now }
    requires legal { IsLegal (front pass.old.seat) }
    ensures more { HasNotedMore (pass_view pass.old.seat) (pass_view pass.new.seat) }
    ensures legal { IsLegal (front pass.new.seat) }
    ensures tallied { HasTallied B.tells (placement_of J.layout) n e.now (pass_view pass.new.seat) result }
    ensures reported { HaveReportedBelow (length J.layout.names) enabled result }
{
    let mut tally = Tally::new();
    for b in 0..locks.placement.count() {
        take_at(locks, rt, pass, b, n, e, enabled, &mut tally);
    }
    tally
}

/// Ends the entry, of which each enabled backend has reported, gives the turn back, and wakes those who wait for it.
pub(crate) fn end<J: Naming, B: Backend, S: Store + Drop, R: Wait>(
    locks: &Locks<J, B, S>,
    rt: &R,
    pass: &mut Pass<J>,
    entry: OpenEntry<J, S>,
    e: &Entry,
    tally: Tally,
) -> Reply
    requires holds { HoldsEntry S.tells S.faults (placement_of J.layout) (front pass.old.seat) entry.number entry.enabled e.now entry.turn.share.amount entry.turn.log }
    requires tallied { HasTallied B.tells (placement_of J.layout) entry.number e.now (pass_view pass.old.seat) tally }
    requires reported { HaveReportedBelow (length J.layout.names) entry.enabled tally }
    ensures seen { HasSeenMore (pass_view pass.old.seat) (pass_view pass.new.seat) }
    ensures legal { IsLegal (front pass.new.seat) }
    ensures ended { EndsSince B.tells (placement_of J.layout) (front pass.old.seat) entry.number e.now result (front pass.new.seat) }
{
    let reply = locks.book.lock(rt).end(&locks.board, pass, entry, e, tally);
    locks.turn_back.notify_one();
    locks.settled.notify_all();
    reply
}

/// Has the cells take an entry that was scheduled, one after another, and ends it.
pub fn carry_out<J: Naming, B: Backend, S: Store + Drop, R: Wait>(
    locks: &Locks<J, B, S>,
    rt: &R,
    pass: &mut Pass<J>,
    entry: OpenEntry<J, S>,
    e: &Entry,
) -> Reply
    requires holds { HoldsEntry S.tells S.faults (placement_of J.layout) (front pass.old.seat) entry.number entry.enabled e.now entry.turn.share.amount entry.turn.log }
    requires legal { IsLegal (front pass.old.seat) }
    ensures seen { HasSeenMore (pass_view pass.old.seat) (pass_view pass.new.seat) }
    ensures legal { IsLegal (front pass.new.seat) }
    ensures ended { EndsSince B.tells (placement_of J.layout) (front pass.old.seat) entry.number e.now result (front pass.new.seat) }
{
    let tally = take_everywhere(locks, rt, pass, entry.number, e, entry.enabled);
    end(locks, rt, pass, entry, e, tally)
}

/// Writes an entry of the session whose own pass this is: schedules it, has each enabled backend take it, and ends
/// it. Returns its number, 0 if nothing was scheduled. `copy` is the entry too, since the book keeps the other.
pub fn write<J: Naming, B: Backend, S: Store + Drop, R: Wait>(
    locks: &Locks<J, B, S>,
    rt: &R,
    pass: &mut Pass<J>,
    e: Entry,
    copy: &Arc<Entry, Global>,
) -> (u64, Reply)
    requires copy { arc_value copy.now ≡ e }
    requires own { ((pass_view pass.old.seat).own_session ≡ e.session) × (0 < e.session) }
    requires counted { event_count_of e.session (front pass.old.seat) ≡ (pass_view pass.old.seat).count }
    requires session { IsSessionEntry (log (front pass.old.seat)) e }
    requires fit { IsFitEntry (log (front pass.old.seat)) e }
    ensures turn { (least : ℕ) → least ≤ length (log (front pass.old.seat)) → WritesTurn B.tells (placement_of J.layout) e.session (record { front = front pass.old.seat; least = least }) e result.0 result.1 (record { front = front pass.new.seat; least = least_after result.0 least }) }
    ensures own { (pass_view pass.new.seat).own_session ≡ e.session }
    ensures counted { event_count_of e.session (front pass.new.seat) ≡ (pass_view pass.new.seat).count }
    ensures within { result.0 ≤ length (log (front pass.new.seat)) }
{
    match schedule(locks, rt, pass, e) {
        Ok(entry) => {
            let number = entry.number;
            let reply = carry_out_beside(locks, rt, pass, entry, copy);
            locks.board.check_count(pass);
            (number, reply)
        }
        Err(error) => (0, Reply::Refused(refusal_for(error))),
    }
}

//! What the administrator does at the book: disables a backend, marks a checkpoint, ends an orphan.

ghost use Rattle.std.specs.Prelude.{◌≡◌, ◌≢◌, ◌<◌, ℕ, [], true, false, length, None, IfErr, IfOk};
ghost use Rattle.cj_model.specs.Cluster.Masks.{in_mask};
ghost use Rattle.cj_cluster.specs.History.Histories.{is_enabled};
ghost use Rattle.cj_cluster.specs.History.Legality.{IsLegal};
ghost use Rattle.cj_place.specs.Layouts.{placement_of};
ghost use Rattle.cj_board.specs.Seats.{front, pass_view};
ghost use Rattle.cj_book.specs.Books as books;
ghost use Rattle.cj_locked.specs.Marking.{HoldsMarked, MarksSince};
ghost use Rattle.cj_locked.specs.Orphans.{BeginsAbortSince, IsAbortOf, RefusesAppendedSince, SchedulesAbortSince};
ghost use Rattle.cj_pass.specs.Passes.{HasNotedMore, HasSeenMore};
ghost use Rattle.cj_locked.specs.Writing.{HoldsAppended, HoldsEntry};
ghost use Rattle.cj_administration.specs.Administration.{CanRefuse, ChecksSince, DisablesSince, EndsOrphanSince, IsRefusalOf};

use cj_backend::Backend;
use cj_book::{BookError, Prepared};
use cj_control::Control;
use cj_locked::{Begun, BegunAbort, BegunMarker, LockedBook, OpenEntry, Turn};
use cj_log::LogError;
use cj_model::{Entry, Name};
use cj_outside::Store;
use cj_pass::{Naming, Pass};
use cj_write_path::carry_out;
use std::sync::Wait;
use thiserror::Error;

/// Why a call of the administrator is refused.
#[derive(Clone, Copy, Debug, PartialEq, Eq, Error)]
pub enum AdminError {
    #[error("the backend is not enabled")]
    NotEnabled,
    #[error("a marker has the name already")]
    NameTaken,
    /// The transaction of this number is no orphan.
    #[error("transaction {0} is no orphan")]
    NotOrphan(u64),
    /// The history has this many events, and no room for the event that was asked for.
    #[error("the history of {0} events is full")]
    HistoryFull(u64),
    /// The log's store failed and counted a fault. The history has a new event that tells of the failure.
    #[error("the store of the recovery log failed")]
    LogFault,
    /// The backend of this number failed.
    #[error("backend {0} failed")]
    Fault(u8),
    #[error("out of memory")]
    NoMemory,
}

/// Returns what the administrator reads if the book refuses.
fn refusal_of(error: BookError) -> AdminError
    requires { CanRefuse error }
    ensures { IsRefusalOf error result }
{
    match error {
        BookError::HistoryFull(events) => AdminError::HistoryFull(events),
        BookError::LogFault => AdminError::LogFault,
        BookError::NoMemory => AdminError::NoMemory,
        BookError::InProgress(_) | BookError::NoBackend => unreachable!(),
    }
}

/// Disables a backend, so that it takes no further entry and answers no query. Waits for the turn.
pub fn disable<J: Naming, B: Backend, S: Store + Drop, R: Wait>(
    control: &Control<J, B, S>,
    rt: &R,
    pass: &mut Pass<J>,
    b: u8,
) -> Result<(), AdminError>
    requires below { b < length J.layout.names }
    ensures disables { DisablesSince (front pass.old.seat) (front pass.new.seat) b result }
    ensures more { HasNotedMore (pass_view pass.old.seat) (pass_view pass.new.seat) }
    ensures legal { IsLegal (front pass.new.seat) }
{
    let disabled = control
        .locks
        .wait_for_turn(rt)
        .disable(&control.locks.board, pass, b);
    control.locks.turn_back.notify_one();
    match disabled {
        Ok(true) => Ok(()),
        Ok(false) => Err(AdminError::NotEnabled),
        Err(error) => Err(refusal_of(error)),
    }
}

/// Finishes a marker that was begun, gives the turn back, and wakes those who wait for it.
fn finish_checkpoint<J: Naming, B: Backend, S: Store + Drop, R: Wait>(
    control: &Control<J, B, S>,
    rt: &R,
    pass: &mut Pass<J>,
    turn: Turn<J, S>,
    name: &Name,
    appended: Result<(), LogError>,
) -> Result<u64, BookError>
    requires holds { HoldsMarked S.tells S.faults (front pass.old.seat) name.now None turn.share.amount turn.log appended }
    ensures marks { MarksSince (front pass.old.seat) (front pass.new.seat) name.now None result }
    ensures more { HasNotedMore (pass_view pass.old.seat) (pass_view pass.new.seat) }
    ensures legal { IsLegal (front pass.new.seat) }
{
    let marked = control
        .locks
        .book
        .lock(rt)
        .finish_marker(&control.locks.board, pass, turn, name, None, appended);
    control.locks.settled.notify_all();
    control.locks.turn_back.notify_one();
    marked
}

/// Marks a checkpoint of this name, and returns how many entries come before it. Waits for the turn. No lock is
/// held while the log appends the marker.
pub fn checkpoint<J: Naming, B: Backend, S: Store + Drop, R: Wait>(
    control: &Control<J, B, S>,
    rt: &R,
    pass: &mut Pass<J>,
    name: &Name,
) -> Result<u64, AdminError>
    requires named { name.now ≢ [] }
    ensures checks { ChecksSince (front pass.old.seat) (front pass.new.seat) name.now result }
    ensures more { HasNotedMore (pass_view pass.old.seat) (pass_view pass.new.seat) }
    ensures legal { IsLegal (front pass.new.seat) }
{
    let begun = control
        .locks
        .wait_for_turn(rt)
        .begin_marker(&control.locks.board, pass, name, None);
    match begun {
        Ok(Some(begun)) => {
            let BegunMarker { item, mut turn } = begun;
            let appended = turn.append(item);
            let marked = finish_checkpoint(control, rt, pass, turn, name, appended);
            match marked {
                Ok(number) => Ok(number),
                Err(error) => Err(refusal_of(error)),
            }
        }
        Ok(None) => {
            control.locks.turn_back.notify_one();
            Err(AdminError::NameTaken)
        }
        Err(error) => {
            control.locks.turn_back.notify_one();
            Err(refusal_of(error))
        }
    }
}

/// Finishes what was begun, and wakes those who wait for it. An orphan stays one until then, so this waits for
/// nothing but the lock.
fn finish_abort<J: Naming, B: Backend, S: Store + Drop, R: Wait>(
    control: &Control<J, B, S>,
    rt: &R,
    pass: &mut Pass<J>,
    turn: Turn<J, S>,
    e: Entry,
    prepared: Prepared,
    appended: Result<(), LogError>,
) -> Result<OpenEntry<J, S>, BookError>
    requires aborts { IsAbortOf e.tx e }
    requires holds { HoldsAppended S.tells S.faults (placement_of J.layout) (front pass.old.seat) e prepared turn.share.amount turn.log appended }
    ensures ok { IfOk result (λ entry. HoldsEntry S.tells S.faults (placement_of J.layout) (front pass.new.seat) entry.number entry.enabled e entry.turn.share.amount entry.turn.log) }
    ensures since { IfOk result (λ entry. SchedulesAbortSince (placement_of J.layout) (front pass.old.seat) (front pass.new.seat) entry.number e) }
    ensures enabled { IfOk result (λ entry. (b : ℕ) → in_mask entry.enabled b ≡ is_enabled (front pass.new.seat) b) }
    ensures err { IfErr result (RefusesAppendedSince (front pass.old.seat) (front pass.new.seat)) }
    ensures more { HasNotedMore (pass_view pass.old.seat) (pass_view pass.new.seat) }
    ensures legal { IsLegal (front pass.new.seat) }
{
    let tx = e.tx;
    let mut book = control.locks.settled.wait_while(
        rt,
        control.locks.book.lock(rt),
        |x: &mut LockedBook<J, S>| -> bool
            ensures { result ≡ false → books.is_orphan x.new.book.state tx ≡ true }
        { !x.is_orphan(tx) },
    );
    let finished = book.finish_abort(&control.locks.board, pass, turn, e, prepared, appended);
    drop(book);
    control.locks.settled.notify_all();
    if finished.is_err() {
        control.locks.turn_back.notify_one();
    }
    finished
}

/// Has the log append the entry that was begun, with no lock held, and has the cells carry it out. Returns its
/// number.
fn carry_out_abort<J: Naming, B: Backend, S: Store + Drop, R: Wait>(
    control: &Control<J, B, S>,
    rt: &R,
    pass: &mut Pass<J>,
    begun: BegunAbort<J, S>,
) -> Result<u64, AdminError>
    requires begins { BeginsAbortSince S.tells S.faults (placement_of J.layout) (front pass.old.seat) (front pass.old.seat) begun.entry.tx begun.entry begun.copy begun.begun.prepared begun.begun.turn.share.amount begun.begun.turn.log begun.begun.item }
    ensures ends { EndsOrphanSince B.tells (placement_of J.layout) (front pass.old.seat) (front pass.new.seat) begun.entry.tx result }
    ensures seen { HasSeenMore (pass_view pass.old.seat) (pass_view pass.new.seat) }
    ensures legal { IsLegal (front pass.new.seat) }
{
    let BegunAbort { begun, entry, copy } = begun;
    let Begun {
        item,
        prepared,
        mut turn,
    } = begun;
    let appended = turn.append(item);
    let finished = finish_abort(control, rt, pass, turn, entry, prepared, appended);
    match finished {
        Ok(open) => {
            let number = open.number;
            carry_out(&control.locks, rt, pass, open, &copy);
            Ok(number)
        }
        Err(error) => Err(refusal_of(error)),
    }
}

/// Ends an orphan, a transaction whose session has closed, by an entry, and returns the number of that. Waits for
/// the turn.
pub fn abort_orphan<J: Naming, B: Backend, S: Store + Drop, R: Wait>(
    control: &Control<J, B, S>,
    rt: &R,
    pass: &mut Pass<J>,
    tx: u64,
) -> Result<u64, AdminError>
    ensures ends { EndsOrphanSince B.tells (placement_of J.layout) (front pass.old.seat) (front pass.new.seat) tx result }
    ensures seen { HasSeenMore (pass_view pass.old.seat) (pass_view pass.new.seat) }
    ensures legal { IsLegal (front pass.new.seat) }
{
    let begun = control
        .locks
        .wait_for_turn(rt)
        .begin_abort(control.locks.alloc, &control.locks.board, pass, tx);
    match begun {
        Ok(Some(begun)) => carry_out_abort(control, rt, pass, begun),
        Ok(None) => {
            control.locks.turn_back.notify_one();
            Err(AdminError::NotOrphan(tx))
        }
        Err(error) => {
            control.locks.turn_back.notify_one();
            Err(refusal_of(error))
        }
    }
}

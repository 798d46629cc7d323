//! How a dump of a backend is taken beside work: its marker, the backend disabled behind it, and what it holds.

ghost use Rattle.std.specs.Prelude.{◌≡◌, ◌≢◌, ◌<◌, ℕ, [], true, false, length, IfErr, IfOk, OnOk, Some, is_none};
ghost use Rattle.cj_model.specs.declared.limits.TheConstants.{BACKEND_LIMIT};
ghost use Rattle.cj_model.specs.Cluster.Masks.{in_mask};
ghost use Rattle.cj_cluster.specs.History.Histories.{is_enabled};
ghost use Rattle.cj_cluster.specs.History.Legality.{IsLegal};
ghost use Rattle.cj_place.specs.Layouts.{covered};
ghost use Rattle.cj_board.specs.Seats.{front, pass_view};
ghost use Rattle.cj_pass.specs.Passes.{HasNotedMore};
ghost use Rattle.cj_locked.specs.Marking.{BeginsMarkSince, HoldsMarked};
ghost use Rattle.cj_return_path.specs.Dumping.{BeginsDump, CanDump, CanSpare, DumpsSince, ReadsDump, RefusesDump};

use crate::restore::RestoreError;
use cj_backend::Backend;
use cj_book::BookError;
use cj_dump::Dump;
use cj_locked::{BegunMarker, LockedBook, Turn};
use cj_locks::Locks;
use cj_log::LogError;
use cj_model::{Name, TableSet};
use cj_outside::Store;
use cj_pass::{Naming, Pass};
use cj_replica::CellError;
use std::sync::Wait;

/// Refuses a dump of backend `b` that may not be begun. The mask has the enabled backends.
fn check_dump<J: Naming, B: Backend, S: Store + Drop>(
    locks: &Locks<J, B, S>,
    book: &LockedBook<J, S>,
    name: &Name,
    b: u8,
    enabled: u32,
) -> Result<(), RestoreError>
    requires below { b < length J.layout.names }
    requires enabled { (c : ℕ) → in_mask enabled c ≡ is_enabled book.now.book.state.history c }
    ensures ok { OnOk result (CanDump J.layout book.now.book.state.history b name.now) }
    ensures err { IfErr result (RefusesDump J.layout book.now.book.state.history b name.now) }
    ensures few { b < BACKEND_LIMIT }
{
    if !locks.is_in(enabled, b) {
        return Err(RestoreError::NotEnabled);
    }
    if book.is_marked(name) {
        return Err(RestoreError::NameTaken);
    }
    if let Some(table) = locks.placement.last_host(b, enabled) {
        return Err(RestoreError::LastHost(table.copy()));
    }
    if book.room() < 2 {
        return Err(RestoreError::HistoryFull(book.events()));
    }
    Ok(())
}

/// Begins the marker of a dump of backend `b` in the book, in which the turn is. It is refused if `b` is not
/// enabled, if a marker has the name, if `b` is a table's only enabled host, or if two events have no room, in this
/// order.
fn mark_dump<J: Naming, B: Backend, S: Store + Drop>(
    locks: &Locks<J, B, S>,
    book: &mut LockedBook<J, S>,
    pass: &mut Pass<J>,
    name: &Name,
    b: u8,
) -> Result<BegunMarker<J, S>, RestoreError>
    requires vacant { is_none book.old.log ≡ false }
    requires named { name.now ≢ [] }
    requires below { b < length J.layout.names }
    ensures ok { IfOk result (λ x. BeginsMarkSince S.tells S.faults (front pass.old.seat) (front pass.new.seat) name.now (Some b) x.turn.share.amount x.turn.log x.item) }
    ensures spare { OnOk result (CanSpare J.layout (front pass.new.seat) b) }
    ensures err { IfErr result (RefusesDump J.layout (front pass.new.seat) b name.now) }
    ensures more { HasNotedMore (pass_view pass.old.seat) (pass_view pass.new.seat) }
    ensures legal { IsLegal (front pass.new.seat) }
{
    let enabled = book.enabled(&locks.board, pass);
    check_dump(locks, book, name, b, enabled)?;
    match book.begin_marker(&locks.board, pass, name, Some(b)) {
        Ok(Some(begun)) => Ok(begun),
        Ok(None) | Err(_) => Err(RestoreError::NoMemory),
    }
}

/// Finishes the marker of a dump in the book, and disables the backend in the same hold. Returns how many entries
/// stand before the marker. The turn is there again.
///
/// `HistoryFull`: failures in queries took the room of the second event. Then the marker stands, and the backend is
/// enabled.
fn disable_dumped<J: Naming, B: Backend, S: Store + Drop>(
    locks: &Locks<J, B, S>,
    book: &mut LockedBook<J, S>,
    pass: &mut Pass<J>,
    turn: Turn<J, S>,
    name: &Name,
    b: u8,
    appended: Result<(), LogError>,
) -> Result<u64, BookError>
    requires below { b < length J.layout.names }
    requires enabled { is_enabled (front pass.old.seat) b ≡ true }
    requires holds { HoldsMarked S.tells S.faults (front pass.old.seat) name.now (Some b) turn.share.amount turn.log appended }
    ensures dumps { DumpsSince (front pass.old.seat) (front pass.new.seat) name.now b result }
    ensures more { HasNotedMore (pass_view pass.old.seat) (pass_view pass.new.seat) }
    ensures legal { IsLegal (front pass.new.seat) }
{
    let number = book.finish_marker(&locks.board, pass, turn, name, Some(b), appended)?;
    book.disable(&locks.board, pass, b)?;
    Ok(number)
}

/// Finishes what was begun, and wakes those who wait.
fn finish_dump<J: Naming, B: Backend, S: Store + Drop, R: Wait>(
    locks: &Locks<J, B, S>,
    rt: &R,
    pass: &mut Pass<J>,
    turn: Turn<J, S>,
    name: &Name,
    b: u8,
    appended: Result<(), LogError>,
) -> Result<u64, BookError>
    requires below { b < length J.layout.names }
    requires enabled { is_enabled (front pass.old.seat) b ≡ true }
    requires holds { HoldsMarked S.tells S.faults (front pass.old.seat) name.now (Some b) turn.share.amount turn.log appended }
    ensures dumps { DumpsSince (front pass.old.seat) (front pass.new.seat) name.now b result }
    ensures more { HasNotedMore (pass_view pass.old.seat) (pass_view pass.new.seat) }
    ensures legal { IsLegal (front pass.new.seat) }
{
    let dumped = disable_dumped(
        locks,
        &mut *locks.book.lock(rt),
        pass,
        turn,
        name,
        b,
        appended,
    );
    locks.turn_back.notify_one();
    locks.settled.notify_all();
    dumped
}

/// Reads what backend `b` holds at position `n`, as a dump.
fn read_dump<J: Naming, B: Backend, S: Store + Drop, R: Wait>(
    locks: &Locks<J, B, S>,
    rt: &R,
    pass: &mut Pass<J>,
    b: u8,
    name: &Name,
    covers: TableSet,
    n: u64,
) -> Result<Dump, RestoreError>
    requires below { b < length J.layout.names }
    requires covers { covers ≡ covered J.layout b }
    ensures reads { ReadsDump B.tells J.layout name.now b n (pass_view pass.old.seat) (pass_view pass.new.seat) result }
    ensures more { HasNotedMore (pass_view pass.old.seat) (pass_view pass.new.seat) }
    ensures legal { IsLegal (front pass.new.seat) }
{
    match locks.contents_at(rt, pass, b, n) {
        Ok(db) => Ok(Dump {
            position: n,
            source: b,
            name: name.copy(),
            all: locks.placement.all(),
            covers,
            db,
        }),
        Err(CellError::Failed) => Err(RestoreError::Fault(b)),
        Err(CellError::Starved) => Err(RestoreError::NoMemory),
    }
}

/// Has the log append the marker that was begun, with no lock held, and reads what the backend holds behind it.
fn dump_marked<J: Naming, B: Backend, S: Store + Drop, R: Wait>(
    locks: &Locks<J, B, S>,
    rt: &R,
    pass: &mut Pass<J>,
    begun: BegunMarker<J, S>,
    name: &Name,
    b: u8,
    covers: TableSet,
) -> Result<Dump, RestoreError>
    requires below { b < length J.layout.names }
    requires covers { covers ≡ covered J.layout b }
    requires begun { BeginsMarkSince S.tells S.faults (front pass.old.seat) (front pass.old.seat) name.now (Some b) begun.turn.share.amount begun.turn.log begun.item }
    requires spare { CanSpare J.layout (front pass.old.seat) b }
    ensures dumps { BeginsDump B.tells J.layout b name.now (pass_view pass.old.seat) (pass_view pass.new.seat) result }
    ensures more { HasNotedMore (pass_view pass.old.seat) (pass_view pass.new.seat) }
    ensures legal { IsLegal (front pass.new.seat) }
{
    let BegunMarker { item, mut turn } = begun;
    let appended = turn.append(item);
    match finish_dump(locks, rt, pass, turn, name, b, appended) {
        Ok(position) => read_dump(locks, rt, pass, b, name, covers, position),
        Err(BookError::HistoryFull(events)) => Err(RestoreError::HistoryFull(events)),
        Err(BookError::LogFault) => Err(RestoreError::LogFault),
        Err(BookError::NoMemory | BookError::InProgress(_) | BookError::NoBackend) => {
            Err(RestoreError::NoMemory)
        }
    }
}

/// Marks a dump of backend `b` under this name, disables the backend behind the marker, and reads what it holds.
/// Waits for the turn. No lock is held while the log appends the marker.
///
/// After `Fault` the marker stands, and the backend is disabled and not out; so too after `NoMemory`, if the marker
/// came. After `HistoryFull` the marker may stand, with the backend still enabled. Each other refusal changes
/// nothing, but `LogFault` has its event.
pub fn begin_dump<J: Naming, B: Backend, S: Store + Drop, R: Wait>(
    locks: &Locks<J, B, S>,
    rt: &R,
    pass: &mut Pass<J>,
    b: u8,
    name: &Name,
) -> Result<Dump, RestoreError>
    requires below { b < length J.layout.names }
    requires named { name.now ≢ [] }
    ensures dumps { BeginsDump B.tells J.layout b name.now (pass_view pass.old.seat) (pass_view pass.new.seat) result }
    ensures more { HasNotedMore (pass_view pass.old.seat) (pass_view pass.new.seat) }
    ensures legal { IsLegal (front pass.new.seat) }
{
    if !locks.is_enabled(rt, pass, b) {
        return Err(RestoreError::NotEnabled);
    }
    // Made before the marker comes, so that want of memory leaves none.
    let Ok(covers) = locks.placement.covered(locks.alloc, b) else {
        return Err(RestoreError::NoMemory);
    };
    let begun = mark_dump(locks, &mut *locks.wait_for_turn(rt), pass, name, b);
    match begun {
        Ok(begun) => dump_marked(locks, rt, pass, begun, name, b, covers),
        Err(error) => {
            locks.turn_back.notify_one();
            Err(error)
        }
    }
}

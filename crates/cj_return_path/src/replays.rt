//! How a backend that is disabled takes the entries that it has missed, beside work, and is enabled.

ghost use Rattle.std.specs.Prelude.{◌≡◌, ◌-◌, ◌<◌, ◌≤◌, ℕ, length, slice_get, Contains, IfOk, Some};
ghost use Rattle.cj_cluster.specs.History.Histories.{log};
ghost use Rattle.cj_cluster.specs.History.Legality.{IsLegal};
ghost use Rattle.cj_board.specs.Seats.{front, pass_view};
ghost use Rattle.cj_pass.specs.Passes.{HasNotedMore};
ghost use Rattle.cj_locked_cell.specs.Asking.{NotesFault};
ghost use Rattle.cj_locked_cell.specs.Loading.{Stands};
ghost use Rattle.cj_locked_cell.specs.Taking.{NotesReport};
ghost use Rattle.cj_locked.specs.Auditing.{HoldsTurn};
ghost use Rattle.cj_return_path.specs.Restoring.{EnablesSince, ReplaysLog, ReplaysTo, TakesNext};

use crate::restore::RestoreError;
use cj_backend::Backend;
use cj_book::BookError;
use cj_cluster::Did;
use cj_locked::{HeldTurn, Turn};
use cj_locked_cell::Stand;
use cj_locks::Locks;
use cj_model::{Duplicate, Entry, NoMemory};
use cj_outside::Store;
use cj_pass::{Naming, Pass};
use std::sync::Wait;

/// Copies the entry behind the first `n`. None if the log has no more.
fn entry_after<J: Naming, B: Backend, S: Store + Drop, R: Wait>(
    locks: &Locks<J, B, S>,
    rt: &R,
    pass: &mut Pass<J>,
    n: u64,
) -> Result<Option<Entry>, NoMemory>
    ensures copy { IfOk result (λ entry. entry ≡ slice_get (log (front pass.new.seat)) n) }
    ensures more { HasNotedMore (pass_view pass.old.seat) (pass_view pass.new.seat) }
    ensures legal { IsLegal (front pass.new.seat) }
{
    let mut book = locks.book.lock(rt);
    book.tell(&locks.board, pass);
    match book.entry_after(n) {
        Some(entry) => Ok(Some(entry.copy(locks.alloc)?)),
        None => Ok(None),
    }
}

/// Has backend `b` take entry `n`.
fn take<J: Naming, B: Backend, S: Store + Drop, R: Wait>(
    locks: &Locks<J, B, S>,
    rt: &R,
    pass: &mut Pass<J>,
    b: u8,
    n: u64,
    e: &Entry,
) -> Did
    requires below { b < length J.layout.names }
    requires number { 0 < n }
    requires entry { slice_get (log (front pass.old.seat)) (n - 1) ≡ Some e.now }
    ensures reports { NotesReport (pass_view pass.new.seat) n b result }
    ensures fault { result ≡ Did.Failed → NotesFault b (pass_view pass.old.seat) (pass_view pass.new.seat) }
    ensures more { HasNotedMore (pass_view pass.old.seat) (pass_view pass.new.seat) }
    ensures legal { IsLegal (front pass.new.seat) }
{
    let login = locks.accounts.mapped(&e.user, b);
    locks.cells[b as usize]
        .lock(rt)
        .take(&locks.board, pass, b, n, e, login)
}

/// Has backend `b`, which has taken `n` entries, take this one, which is the next.
fn take_next<J: Naming, B: Backend, S: Store + Drop, R: Wait>(
    locks: &Locks<J, B, S>,
    rt: &R,
    pass: &mut Pass<J>,
    b: u8,
    n: u64,
    e: &Entry,
) -> Result<Option<u64>, RestoreError>
    requires below { b < length J.layout.names }
    requires entry { slice_get (log (front pass.old.seat)) n ≡ Some e.now }
    requires legal { IsLegal (front pass.old.seat) }
    ensures takes { (until : ℕ) → TakesNext b n until (pass_view pass.old.seat) (pass_view pass.new.seat) result }
    ensures more { HasNotedMore (pass_view pass.old.seat) (pass_view pass.new.seat) }
    ensures legal { IsLegal (front pass.new.seat) }
{
    let next = n + 1;
    match take(locks, rt, pass, b, next, e) {
        Did::Done(_) | Did::Skipped => Ok(Some(next)),
        Did::Failed => Err(RestoreError::Fault(b)),
        // Another call may have had it take the entry, or it ran out of memory.
        Did::Starved => match locks.stand(rt, pass, b) {
            Stand::At(there) if there > n => Ok(Some(there)),
            _ => Err(RestoreError::Starved),
        },
    }
}

/// Has backend `b`, which has taken `n` entries, take the next one, and returns how many it has taken then. None if
/// it has taken the first `until`.
fn replay_next<J: Naming, B: Backend, S: Store + Drop, R: Wait>(
    locks: &Locks<J, B, S>,
    rt: &R,
    pass: &mut Pass<J>,
    b: u8,
    n: u64,
    until: u64,
) -> Result<Option<u64>, RestoreError>
    requires below { b < length J.layout.names }
    requires until { until ≤ length (log (front pass.old.seat)) }
    requires legal { IsLegal (front pass.old.seat) }
    ensures takes { TakesNext b n until (pass_view pass.old.seat) (pass_view pass.new.seat) result }
    ensures more { HasNotedMore (pass_view pass.old.seat) (pass_view pass.new.seat) }
    ensures legal { IsLegal (front pass.new.seat) }
{
    if n >= until {
        return Ok(None);
    }
    match entry_after(locks, rt, pass, n) {
        Ok(Some(entry)) => take_next(locks, rt, pass, b, n, &entry),
        Ok(None) => Ok(None),
        Err(_) => Err(RestoreError::NoMemory),
    }
}

/// Has backend `b`, which has taken `from` entries, take up to `most` more, as far as the first `until`. Returns how
/// many it has taken then.
fn replay_from<J: Naming, B: Backend, S: Store + Drop, R: Wait>(
    locks: &Locks<J, B, S>,
    rt: &R,
    pass: &mut Pass<J>,
    b: u8,
    from: u64,
    most: u64,
    until: u64,
) -> Result<u64, RestoreError>
    requires below { b < length J.layout.names }
    requires until { until ≤ length (log (front pass.old.seat)) }
    requires stands { Stands b (pass_view pass.old.seat) (Stand.At from) }
    requires legal { IsLegal (front pass.old.seat) }
    ensures replays { ReplaysTo b most until (pass_view pass.old.seat) (pass_view pass.new.seat) result }
    ensures more { HasNotedMore (pass_view pass.old.seat) (pass_view pass.new.seat) }
    ensures legal { IsLegal (front pass.new.seat) }
{
    let mut n = from;
    for _ in 0..most {
        match replay_next(locks, rt, pass, b, n, until) {
            Ok(Some(next)) => n = next,
            Ok(None) => return Ok(n),
            Err(error) => return Err(error),
        }
    }
    Ok(n)
}

/// Has backend `b` take up to `most` entries more from where it stands, as far as the first `until`. Returns how many
/// it has taken then.
fn replay_there<J: Naming, B: Backend, S: Store + Drop, R: Wait>(
    locks: &Locks<J, B, S>,
    rt: &R,
    pass: &mut Pass<J>,
    b: u8,
    most: u64,
    until: u64,
) -> Result<u64, RestoreError>
    requires below { b < length J.layout.names }
    requires until { until ≤ length (log (front pass.old.seat)) }
    ensures replays { ReplaysTo b most until (pass_view pass.old.seat) (pass_view pass.new.seat) result }
    ensures more { HasNotedMore (pass_view pass.old.seat) (pass_view pass.new.seat) }
    ensures legal { IsLegal (front pass.new.seat) }
{
    match locks.stand(rt, pass, b) {
        Stand::At(n) => replay_from(locks, rt, pass, b, n, most, until),
        Stand::Out(seen) => Err(RestoreError::Out(seen)),
        Stand::Elsewhere => Err(RestoreError::Starved),
    }
}

/// Has backend `b`, which is disabled and not out, take up to `most` entries more, and returns how many it has
/// taken then. It goes as far as the log did when the call began. Takes no turn, so entries go on meanwhile.
///
/// After `Fault` and `Starved` the backend is out. After another error it keeps the entries that it has taken.
pub fn replay<J: Naming, B: Backend, S: Store + Drop, R: Wait>(
    locks: &Locks<J, B, S>,
    rt: &R,
    pass: &mut Pass<J>,
    b: u8,
    most: u64,
) -> Result<u64, RestoreError>
    requires below { b < length J.layout.names }
    ensures replays { ReplaysLog b most (pass_view pass.old.seat) (pass_view pass.new.seat) result }
    ensures more { HasNotedMore (pass_view pass.old.seat) (pass_view pass.new.seat) }
    ensures legal { IsLegal (front pass.new.seat) }
{
    // No entry behind this one is taken, since the backend might be enabled meanwhile.
    let until = locks.log_length(rt, pass);
    if locks.is_enabled(rt, pass, b) {
        return Err(RestoreError::AlreadyEnabled);
    }
    replay_there(locks, rt, pass, b, most, until)
}

/// Gives the turn back, enables backend `b`, which has taken `n` entries, and wakes those who wait.
fn enable_at<J: Naming, B: Backend, S: Store + Drop, R: Wait>(
    locks: &Locks<J, B, S>,
    rt: &R,
    pass: &mut Pass<J>,
    turn: Turn<J, S>,
    b: u8,
    n: u64,
) -> Result<u64, RestoreError>
    requires below { b < length J.layout.names }
    requires holds { HoldsTurn S.tells S.faults (front pass.old.seat) turn.share.amount turn.log }
    requires noted { Contains (pass_view pass.old.seat).position_notes (b, n) }
    ensures enables { EnablesSince b (pass_view pass.old.seat) (pass_view pass.new.seat) result }
    ensures more { HasNotedMore (pass_view pass.old.seat) (pass_view pass.new.seat) }
    ensures legal { IsLegal (front pass.new.seat) }
{
    let enabled = locks.book.lock(rt).enable(&locks.board, pass, turn, b, n);
    locks.turn_back.notify_one();
    locks.settled.notify_all();
    match enabled {
        Ok(true) => Ok(n),
        Err(BookError::HistoryFull(events)) => Err(RestoreError::HistoryFull(events)),
        // The turn was held, so neither comes.
        Ok(false) | Err(_) => Err(RestoreError::Starved),
    }
}

/// Waits for the turn, has backend `b` take the rest of the log, and enables it. Returns the position at which it
/// was enabled. The turn is given back in any case.
///
/// After `Fault` and `Starved` the backend is out. After another error it keeps the entries that it has taken.
pub fn enable<J: Naming, B: Backend, S: Store + Drop, R: Wait>(
    locks: &Locks<J, B, S>,
    rt: &R,
    pass: &mut Pass<J>,
    b: u8,
) -> Result<u64, RestoreError>
    requires below { b < length J.layout.names }
    ensures enables { EnablesSince b (pass_view pass.old.seat) (pass_view pass.new.seat) result }
    ensures more { HasNotedMore (pass_view pass.old.seat) (pass_view pass.new.seat) }
    ensures legal { IsLegal (front pass.new.seat) }
{
    let HeldTurn {
        length,
        enabled,
        turn,
    } = locks.wait_for_turn(rt).hold(&locks.board, pass);
    if locks.is_in(enabled, b) {
        locks.give_back(rt, pass, turn);
        return Err(RestoreError::AlreadyEnabled);
    }
    match replay_there(locks, rt, pass, b, length, length) {
        Ok(n) => enable_at(locks, rt, pass, turn, b, n),
        Err(error) => {
            locks.give_back(rt, pass, turn);
            Err(error)
        }
    }
}

//! The way of a query: its shard of the result cache, the book, a backend's cell, and the book and the shard again.

ghost use Rattle.std.specs.Prelude.{◌≡◌, ◌⊎◌, ℕ, ◌<◌, ◌≤◌, List, true, false, length, IfOk, IfSome, None};
ghost use mathlib.Core.List.{IsPrefix};
ghost use Rattle.cj_model.specs.declared.limits.TheConstants.{BACKEND_LIMIT};
ghost use Rattle.cj_model.specs.declared.answer.Asked.TheVariants as asked;
ghost use Rattle.cj_model.specs.declared.answer.Reply.TheVariants as reply;
ghost use Rattle.cj_model.specs.declared.codes.TheConstants.{NO_MEMORY, READ_FAULT};
ghost use Rattle.cj_model.specs.declared.request.Request.TheVariants as request;
ghost use Rattle.cj_model.specs.Cluster.Masks.{in_mask};
ghost use Rattle.cj_model.specs.Cluster.Placements.{hosts_all};
ghost use Rattle.cj_model.specs.Database.Inserts.{refusal_of_code};
ghost use Rattle.cj_model.specs.Database.Outcomes.{IsAnswer};
ghost use Rattle.cj_model.specs.Sql.WrittenRequests.{IsWritten};
ghost use Rattle.cj_model.specs.Wire.Replies.{asked_reply};
ghost use Rattle.cj_cluster.specs.declared.event.Event.{Event};
ghost use Rattle.cj_cluster.specs.History.Answering.{CanServe};
ghost use Rattle.cj_cluster.specs.History.Freshness.{IsAnswerAt};
ghost use Rattle.cj_cluster.specs.History.Histories.{log, tx_of};
ghost use Rattle.cj_cluster.specs.History.Legality.{IsLegal};
ghost use Rattle.cj_cluster.specs.History.Turns.{Turn};
ghost use Rattle.cj_place.specs.Layouts.{placement_of};
ghost use Rattle.cj_board.specs.Counting.{event_count_of};
ghost use Rattle.cj_board.specs.Points.{fault_tokens_of};
ghost use Rattle.cj_board.specs.Seats.{front, pass_view};
ghost use Rattle.cj_locked.specs.Failures.{FailsSince};
ghost use Rattle.cj_book.specs.News.{IsOwedAt};
ghost use Rattle.cj_cache_shard.specs.declared.shard.Found.TheVariants.{Kept};
ghost use Rattle.cj_cache_shard.specs.Shards.{IsFound};
ghost use Rattle.cj_pass.specs.Passes.{HasNotedMore, HasSeenMore};
ghost use Rattle.cj_locked_cell.specs.Answering.{GivesAnswerAt, IsReadAnswer, IsReading};
ghost use Rattle.cj_locked.specs.Looking.{IsLookAt};
ghost use Rattle.cj_locked.specs.Reading.{call_of_query, EndsRead};
ghost use Rattle.cj_locked.specs.Writing.{AreUpTo};
ghost use Rattle.cj_read_path.specs.Reading.{HaveFailedSince, IsAttempt, IsSoughtAt};

use cj_backend::{Backend, Snap};
use cj_cache_shard::{CacheShard, Found};
use cj_locked::{LockedBook, Look, ReadFailure};
use cj_locked_cell::Reading;
use cj_locks::Locks;
use cj_model::{
    Answer, Asked, Cached, Duplicate, HISTORY_FULL, NO_BACKEND, NO_MEMORY, NoMemory, READ_FAULT,
    Refusal, Reply, Select, Text, with_bit,
};
use cj_outside::Store;
use cj_pass::{Naming, Pass};
use cj_replica::CellReadError;
use std::alloc::Global;
use std::sync::{Arc, Mutex, Wait};

/// A query of a session.
#[derive(Drop)]
pub struct Query<'a> {
    pub session: u64,
    /// The number of the request among the session's.
    pub seq: u64,
    pub user: &'a Text,
    /// The transaction of the query, or 0.
    pub tx: u64,
    pub select: &'a Select,
    /// The position that the session's reads need at least.
    pub least: u64,
}

/// Which backends a query was asked at. A mask has bit b for backend b.
#[derive(Drop)]
pub(crate) struct Tries {
    /// They failed in it.
    pub failed: u32,
    /// They did not stand where they could answer it.
    pub later: u32,
    /// Whether the next look is the first.
    pub first: bool,
}

/// Where a query is answered.
#[derive(Drop)]
pub(crate) enum Sought {
    /// The result cache keeps this answer. It is right at this position of the log.
    Kept(Arc<Answer, Global>, u64),
    /// What a look at the book gave.
    Looked(Look),
}

/// What came of asking one backend.
#[derive(Drop)]
pub(crate) enum Attempt {
    /// The query ends with this reply. The session's reads need at least this position then.
    Ended(Reply, u64),
    /// The backend failed, and the history tells of it.
    Failed,
    /// The backend has missed an entry, or is below the position that the query needs.
    Later,
}

/// Returns the reply to the session for a backend's answer.
fn reply_of(answer: Asked) -> Reply
    ensures { result ≡ asked_reply answer }
{
    match answer {
        Asked::Rows(rows) => Reply::Rows(rows),
        Asked::Refused(refusal) => Reply::Refused(refusal),
    }
}

/// Returns whether a mask has each backend of another.
fn has_each(mask: u32, wanted: u32) -> bool
    ensures { result ≡ true → (b : ℕ) → in_mask wanted b ≡ true → in_mask mask b ≡ true }
{
    wanted & !mask == 0
}

/// Copies a query and its answer for the cache.
fn copied(alloc: Global, select: &Select, rows: &Answer, at: u64) -> Result<Cached, NoMemory>
    ensures { IfOk result (λ copy. (copy.select ≡ select.now) × (copy.answer ≡ rows.now) × (copy.at ≡ at)) }
{
    let select = select.copy(alloc)?;
    let answer = rows.copy(alloc)?;
    Ok(Cached { select, answer, at })
}

/// Returns the shard of the result cache that may keep the answer of the query. None inside transactions, and where
/// nothing is kept.
fn shard_for<'a, J: Naming, B: Backend, S: Store + Drop>(
    locks: &'a Locks<J, B, S>,
    query: &Query<'_>,
) -> Option<&'a Mutex<CacheShard<J>>>
    ensures outside { IfSome result (λ shard. query.now.tx ≡ 0) }
{
    if query.tx != 0 {
        return None;
    }
    locks.shard_of(query.select)
}

/// Looks the query up in a shard of the result cache.
fn look_up<J: Naming, B: Backend, S: Store + Drop, R: Wait>(
    locks: &Locks<J, B, S>,
    rt: &R,
    shard: &Mutex<CacheShard<J>>,
    pass: &mut Pass<J>,
    query: &Query<'_>,
) -> Result<Found, NoMemory>
    requires owes { query.now.least ≤ length (log (front pass.old.seat)) }
    ensures found { IfOk result (IsFound J.tells (placement_of J.layout) (front pass.new.seat) query.now.select.now query.now.least) }
    ensures more { HasNotedMore (pass_view pass.old.seat) (pass_view pass.new.seat) }
{
    shard.lock(rt).look_up(
        &locks.board,
        pass,
        &locks.placement,
        query.select,
        query.least,
    )
}

/// Tells a shard of the result cache, which knows so many entries, the news of the book.
fn catch_up<J: Naming, B: Backend, S: Store + Drop, R: Wait>(
    locks: &Locks<J, B, S>,
    rt: &R,
    shard: &Mutex<CacheShard<J>>,
    pass: &mut Pass<J>,
    entries: u64,
) -> Result<(), NoMemory>
    ensures more { HasNotedMore (pass_view pass.old.seat) (pass_view pass.new.seat) }
{
    let news = locks.book.lock(rt).news(&locks.board, pass, entries)?;
    shard.lock(rt).catch_up(&locks.board, pass, &news);
    Ok(())
}

/// Looks the query up in a shard that was behind, once this has heard the news. Where it is behind again, or memory is
/// wanting, nothing is found.
fn look_up_again<J: Naming, B: Backend, S: Store + Drop, R: Wait>(
    locks: &Locks<J, B, S>,
    rt: &R,
    shard: &Mutex<CacheShard<J>>,
    pass: &mut Pass<J>,
    query: &Query<'_>,
    entries: u64,
) -> Option<(Arc<Answer, Global>, u64)>
    requires owes { query.now.least ≤ length (log (front pass.old.seat)) }
    ensures kept { IfSome result (λ kept. IsFound J.tells (placement_of J.layout) (front pass.new.seat) query.now.select.now query.now.least (Kept kept.0 kept.1)) }
    ensures more { HasNotedMore (pass_view pass.old.seat) (pass_view pass.new.seat) }
{
    if catch_up(locks, rt, shard, pass, entries).is_err() {
        return None;
    }
    match look_up(locks, rt, shard, pass, query) {
        Ok(Found::Kept(answer, at)) => Some((answer, at)),
        Ok(Found::Absent | Found::Behind(_)) | Err(_) => None,
    }
}

/// Looks the query up in the result cache, where it has not been yet, outside transactions. None where no answer is
/// kept, or memory is wanting for a share of it.
fn find_kept<J: Naming, B: Backend, S: Store + Drop, R: Wait>(
    locks: &Locks<J, B, S>,
    rt: &R,
    pass: &mut Pass<J>,
    query: &Query<'_>,
    first: bool,
) -> Option<(Arc<Answer, Global>, u64)>
    requires owes { query.now.least ≤ length (log (front pass.old.seat)) }
    ensures outside { IfSome result (λ kept. query.now.tx ≡ 0) }
    ensures kept { IfSome result (λ kept. IsFound J.tells (placement_of J.layout) (front pass.new.seat) query.now.select.now query.now.least (Kept kept.0 kept.1)) }
    ensures more { HasNotedMore (pass_view pass.old.seat) (pass_view pass.new.seat) }
{
    if !first {
        return None;
    }
    let shard = shard_for(locks, query)?;
    match look_up(locks, rt, shard, pass, query) {
        Ok(Found::Kept(answer, at)) => Some((answer, at)),
        Ok(Found::Behind(entries)) => look_up_again(locks, rt, shard, pass, query, entries),
        Ok(Found::Absent) | Err(_) => None,
    }
}

/// Looks where the query may be answered: at its first look by the result cache, and else by a backend, but for those
/// of the mask, which were tried.
fn look_for<J: Naming, B: Backend, S: Store + Drop, R: Wait>(
    locks: &Locks<J, B, S>,
    rt: &R,
    pass: &mut Pass<J>,
    query: &Query<'_>,
    tried: u32,
    first: bool,
) -> Sought
    requires owes { query.now.least ≤ length (log (front pass.old.seat)) }
    ensures sought { IsSoughtAt J.tells (placement_of J.layout) (front pass.new.seat) query.now.tx query.now.select.now query.now.least tried result }
    ensures more { HasNotedMore (pass_view pass.old.seat) (pass_view pass.new.seat) }
    ensures legal { IsLegal (front pass.new.seat) }
{
    match find_kept(locks, rt, pass, query, first) {
        Some((answer, at)) => Sought::Kept(answer, at),
        None => Sought::Looked(
            locks
                .book
                .lock(rt)
                .look_for(&locks.board, pass, query.select, query.least, tried),
        ),
    }
}

/// Begins the query at backend `b`, at a position not below `owed`. The answer `Out` also stands for a backend that is
/// not there, which no look picks.
fn begin_read<J: Naming, B: Backend, S: Store + Drop, R: Wait>(
    locks: &Locks<J, B, S>,
    rt: &R,
    pass: &mut Pass<J>,
    query: &Query<'_>,
    b: u8,
    owed: u64,
) -> Result<(Reading<B::Snap>, u64), CellReadError>
    requires written { IsWritten (request.Select query.now.select.now) }
    requires legal { IsLegal (front pass.old.seat) }
    ensures reading { IsReading B.Snap.shows B.tells (placement_of J.layout) b query.now.tx query.now.select.now owed (pass_view pass.new.seat) result }
    ensures more { HasNotedMore (pass_view pass.old.seat) (pass_view pass.new.seat) }
    ensures legal { IsLegal (front pass.new.seat) }
{
    if b >= locks.placement.count() {
        return Err(CellReadError::Out);
    }
    let Some(cell) = locks.cells.get(b as usize) else {
        return Err(CellReadError::Out);
    };
    let login = locks.accounts.mapped(query.user, b);
    cell.lock(rt)
        .begin_read(&locks.board, pass, b, login, query.tx, query.select, owed)
}

/// Asks backend `b`, at a position not below `owed`. A backend that gives snapshots answers by one, after the lock of
/// its cell was given back.
fn ask<J: Naming, B: Backend, S: Store + Drop, R: Wait>(
    locks: &Locks<J, B, S>,
    rt: &R,
    pass: &mut Pass<J>,
    query: &Query<'_>,
    b: u8,
    owed: u64,
) -> Result<(Asked, u64), CellReadError>
    requires written { IsWritten (request.Select query.now.select.now) }
    requires legal { IsLegal (front pass.old.seat) }
    ensures answer { IsReadAnswer B.tells (placement_of J.layout) b query.now.tx query.now.select.now owed (pass_view pass.new.seat) result }
    ensures more { HasNotedMore (pass_view pass.old.seat) (pass_view pass.new.seat) }
    ensures legal { IsLegal (front pass.new.seat) }
{
    let (reading, position) = begin_read(locks, rt, pass, query, b, owed)?;
    match reading {
        Reading::Answer(answer) => Ok((answer, position)),
        Reading::Snapshot(mut snap) => match snap.ask(query.tx, query.select) {
            Ok(answer) => Ok((answer, position)),
            Err(_) => Err(CellReadError::NoMemory),
        },
    }
}

/// Notes that a read has ended at backend `b`. Where the policy doesn't count reads, nothing is to be noted, and no
/// lock is taken.
fn end_read<J: Naming, B: Backend, S: Store + Drop, R: Wait>(locks: &Locks<J, B, S>, rt: &R, b: u8)
    requires below { b < BACKEND_LIMIT }
{
    if locks.counts_reads {
        locks.book.lock(rt).end_read(b);
    }
}

/// Copies the query and its answer for a shard of the result cache, while no lock is held. None where the shard may not
/// keep the answer, which is right at position `at`, and where memory is wanting.
fn copy_for_cache<J: Naming, B: Backend, S: Store + Drop, R: Wait>(
    locks: &Locks<J, B, S>,
    rt: &R,
    shard: &Mutex<CacheShard<J>>,
    select: &Select,
    answer: &Asked,
    at: u64,
) -> Option<Cached>
    ensures { IfSome result (λ copy. (copy.select ≡ select.now) × (asked.Rows copy.answer ≡ answer.now) × (copy.at ≡ at)) }
{
    let Asked::Rows(rows) = answer else {
        return None;
    };
    if !shard.lock(rt).has_heard(at) {
        return None;
    }
    match copied(locks.alloc, select, rows, at) {
        Ok(copy) => Some(copy),
        Err(_) => None,
    }
}

/// Gives a copy of the query and its answer to a shard of the result cache. Whether it is kept changes nothing of the
/// reply.
fn keep<J: Naming, B: Backend, S: Store + Drop, R: Wait>(
    locks: &Locks<J, B, S>,
    rt: &R,
    shard: &Mutex<CacheShard<J>>,
    pass: &mut Pass<J>,
    copy: Cached,
)
    requires possible { IsAnswer copy.answer }
    requires within { copy.at ≤ length (log (front pass.old.seat)) }
    requires right { J.tells ≡ true → IsAnswerAt (log (front pass.old.seat)) copy.at copy.select (asked.Rows copy.answer) }
    ensures same { pass_view pass.new.seat ≡ pass_view pass.old.seat }
{
    let _kept = shard.lock(rt).keep(&locks.board, pass, copy);
}

/// Notes that a read has ended at backend `b`, which answered at position `at`, and gives the result cache a copy.
fn end_answered<J: Naming, B: Backend, S: Store + Drop, R: Wait>(
    locks: &Locks<J, B, S>,
    rt: &R,
    pass: &mut Pass<J>,
    query: &Query<'_>,
    b: u8,
    answer: &Asked,
    at: u64,
)
    requires below { b < BACKEND_LIMIT }
    requires hosts { hosts_all (placement_of J.layout) b query.now.select.now.tables ≡ true }
    requires gives { (owed : ℕ) × GivesAnswerAt B.tells (placement_of J.layout) b query.now.tx query.now.select.now owed (pass_view pass.old.seat) answer.now at }
    ensures same { pass_view pass.new.seat ≡ pass_view pass.old.seat }
{
    end_read(locks, rt, b);
    let Some(shard) = shard_for(locks, query) else {
        return;
    };
    match copy_for_cache(locks, rt, shard, query.select, answer, at) {
        Some(copy) => keep(locks, rt, shard, pass, copy),
        None => {}
    }
}

/// Notes that backend `b` failed in the query, once nothing is on its way into the recovery log.
fn fail_read<J: Naming, B: Backend, S: Store + Drop, R: Wait>(
    locks: &Locks<J, B, S>,
    rt: &R,
    pass: &mut Pass<J>,
    query: &Query<'_>,
    b: u8,
) -> ReadFailure
    requires fault { 0 < fault_tokens_of b (pass_view pass.old.seat).fault_tokens }
    requires below { b < BACKEND_LIMIT }
    ensures fails { FailsSince (placement_of J.layout) (front pass.old.seat) (front pass.new.seat) query.now.session query.now.seq b query.now.select.now result }
    ensures seen { HasSeenMore (pass_view pass.old.seat) (pass_view pass.new.seat) }
    ensures legal { IsLegal (front pass.new.seat) }
{
    let mut book = locks.settled.wait_while(
        rt,
        locks.book.lock(rt),
        |locked: &mut LockedBook<J, S>| -> bool
            ensures { result ≡ false → locked.new.book.pending ≡ None }
        { locked.is_pending() },
    );
    book.fail_read(
        &locks.board,
        pass,
        query.session,
        query.seq,
        b,
        query.select,
    )
}

/// Has the history tell that backend `b` failed in the query, or refuses the session.
fn attempt_failed<J: Naming, B: Backend, S: Store + Drop, R: Wait>(
    locks: &Locks<J, B, S>,
    rt: &R,
    pass: &mut Pass<J>,
    query: &Query<'_>,
    b: u8,
) -> Attempt
    requires fault { 0 < fault_tokens_of b (pass_view pass.old.seat).fault_tokens }
    requires below { b < BACKEND_LIMIT }
    ensures attempt { IsAttempt B.tells (placement_of J.layout) (front pass.old.seat) query.now.session query.now.seq b query.now.tx query.now.select.now query.now.least (front pass.new.seat) result }
    ensures seen { HasSeenMore (pass_view pass.old.seat) (pass_view pass.new.seat) }
    ensures legal { IsLegal (front pass.new.seat) }
{
    match fail_read(locks, rt, pass, query, b) {
        ReadFailure::Noted => Attempt::Failed,
        ReadFailure::Full(events) => {
            let refusal = Refusal {
                code: HISTORY_FULL,
                a: events,
                b: 0,
            };
            Attempt::Ended(Reply::Refused(refusal), query.least)
        }
        ReadFailure::Unserved => {
            Attempt::Ended(Reply::Refused(Refusal::of_code(NO_BACKEND)), query.least)
        }
    }
}

/// Asks backend `b`, which a look picked, at a position not below `owed`, and ends the read there.
fn attempt_at<J: Naming, B: Backend, S: Store + Drop, R: Wait>(
    locks: &Locks<J, B, S>,
    rt: &R,
    pass: &mut Pass<J>,
    query: &Query<'_>,
    b: u8,
    owed: u64,
) -> Attempt
    requires written { IsWritten (request.Select query.now.select.now) }
    requires below { b < BACKEND_LIMIT }
    requires serves { CanServe (placement_of J.layout) (front pass.old.seat) (request.Select query.now.select.now) b }
    requires owes { IsOwedAt (front pass.old.seat) query.now.least owed }
    requires legal { IsLegal (front pass.old.seat) }
    ensures attempt { IsAttempt B.tells (placement_of J.layout) (front pass.old.seat) query.now.session query.now.seq b query.now.tx query.now.select.now query.now.least (front pass.new.seat) result }
    ensures seen { HasSeenMore (pass_view pass.old.seat) (pass_view pass.new.seat) }
    ensures legal { IsLegal (front pass.new.seat) }
{
    match ask(locks, rt, pass, query, b, owed) {
        Ok((answer, position)) => {
            end_answered(locks, rt, pass, query, b, &answer, position);
            Attempt::Ended(reply_of(answer), position)
        }
        Err(CellReadError::Failed) => attempt_failed(locks, rt, pass, query, b),
        Err(CellReadError::NoMemory) => {
            end_read(locks, rt, b);
            Attempt::Ended(Reply::Refused(Refusal::of_code(NO_MEMORY)), query.least)
        }
        Err(CellReadError::Out | CellReadError::Behind(_)) => {
            end_read(locks, rt, b);
            Attempt::Later
        }
    }
}

/// Asks backend `b`, which a look picked, and notes in the tries what came of it where the query goes on.
fn try_at<J: Naming, B: Backend, S: Store + Drop, R: Wait>(
    locks: &Locks<J, B, S>,
    rt: &R,
    pass: &mut Pass<J>,
    query: &Query<'_>,
    tries: &mut Tries,
    b: u8,
    owed: u64,
) -> Option<(Reply, u64)>
    requires written { IsWritten (request.Select query.now.select.now) }
    requires below { b < BACKEND_LIMIT }
    requires serves { CanServe (placement_of J.layout) (front pass.old.seat) (request.Select query.now.select.now) b }
    requires owes { IsOwedAt (front pass.old.seat) query.now.least owed }
    requires legal { IsLegal (front pass.old.seat) }
    ensures ended { IfSome result (λ r. EndsRead B.tells (placement_of J.layout) (front pass.old.seat) query.now.session query.now.seq query.now.tx query.now.select.now query.now.least (front pass.new.seat) r.0 r.1) }
    ensures failed { (F : List Event) → IsPrefix F (front pass.old.seat) → HaveFailedSince F (front pass.old.seat) query.now.session query.now.seq tries.old.failed → HaveFailedSince F (front pass.new.seat) query.now.session query.now.seq tries.new.failed }
    ensures seen { HasSeenMore (pass_view pass.old.seat) (pass_view pass.new.seat) }
    ensures legal { IsLegal (front pass.new.seat) }
{
    match attempt_at(locks, rt, pass, query, b, owed) {
        Attempt::Ended(reply, position) => Some((reply, position)),
        Attempt::Failed => {
            tries.failed = with_bit(tries.failed, b);
            None
        }
        Attempt::Later => {
            tries.later = with_bit(tries.later, b);
            None
        }
    }
}

/// Waits until each entry that is in the log by now has ended. No session was answered at a later one. A backend
/// that is out is disabled then.
fn wait_for_ends<J: Naming, B: Backend, S: Store + Drop, R: Wait>(locks: &Locks<J, B, S>, rt: &R) {
    let book = locks.book.lock(rt);
    let scheduled = book.length();
    locks
        .settled
        .wait_while(rt, book, |locked: &mut LockedBook<J, S>| -> bool {
            locked.has_ended_fewer(scheduled)
        });
}

/// Refuses the query if each backend that serves it has failed in it. Else those of them that did not stand where
/// they could answer are tried again, after what is under way: an entry that one of them has missed, or that the
/// session has seen answered and one of them has yet to carry out.
fn tried_all<J: Naming, B: Backend, S: Store + Drop, R: Wait>(
    locks: &Locks<J, B, S>,
    rt: &R,
    query: &Query<'_>,
    tries: &mut Tries,
    serving: u32,
) -> Option<(Reply, u64)>
    ensures vain { IfSome result (λ r. (r.0 ≡ reply.Refused (record { code = READ_FAULT; a = serving; b = 0 })) × (r.1 ≡ query.now.least) × ((b : ℕ) → in_mask serving b ≡ true → in_mask tries.old.failed b ≡ true)) }
    ensures failed { tries.new.failed ≡ tries.old.failed }
{
    if has_each(tries.failed, serving) {
        let refusal = Refusal {
            code: READ_FAULT,
            a: serving as u64,
            b: 0,
        };
        return Some((Reply::Refused(refusal), query.least));
    }
    tries.later = 0;
    wait_for_ends(locks, rt);
    None
}

/// Copies an answer that the result cache keeps, while no lock is held. It is right at position `at`.
fn reply_kept<J: Naming, B: Backend, S: Store + Drop>(
    locks: &Locks<J, B, S>,
    query: &Query<'_>,
    answer: &Answer,
    at: u64,
) -> (Reply, u64)
    ensures { ((result.0 ≡ reply.Rows answer.now) × (result.1 ≡ at)) ⊎ ((result.0 ≡ reply.Refused (refusal_of_code NO_MEMORY)) × (result.1 ≡ query.now.least)) }
{
    match answer.copy(locks.alloc) {
        Ok(rows) => (Reply::Rows(rows), at),
        Err(_) => (Reply::Refused(Refusal::of_code(NO_MEMORY)), query.least),
    }
}

/// Does what follows a look at the book for a backend that was not tried. None where the query goes on.
fn follow<J: Naming, B: Backend, S: Store + Drop, R: Wait>(
    locks: &Locks<J, B, S>,
    rt: &R,
    pass: &mut Pass<J>,
    query: &Query<'_>,
    tries: &mut Tries,
    look: Look,
) -> Option<(Reply, u64)>
    requires written { IsWritten (request.Select query.now.select.now) }
    requires look { (tried : ℕ) × IsLookAt (placement_of J.layout) (front pass.old.seat) query.now.select.now query.now.least tried look }
    requires legal { IsLegal (front pass.old.seat) }
    ensures ended { (F : List Event) → IsPrefix F (front pass.old.seat) → HaveFailedSince F (front pass.old.seat) query.now.session query.now.seq tries.old.failed → IfSome result (λ r. EndsRead B.tells (placement_of J.layout) F query.now.session query.now.seq query.now.tx query.now.select.now query.now.least (front pass.new.seat) r.0 r.1) }
    ensures failed { (F : List Event) → IsPrefix F (front pass.old.seat) → HaveFailedSince F (front pass.old.seat) query.now.session query.now.seq tries.old.failed → HaveFailedSince F (front pass.new.seat) query.now.session query.now.seq tries.new.failed }
    ensures seen { HasSeenMore (pass_view pass.old.seat) (pass_view pass.new.seat) }
    ensures legal { IsLegal (front pass.new.seat) }
{
    match look {
        Look::Ask(b, owed) => try_at(locks, rt, pass, query, tries, b, owed),
        Look::Tried(serving) => tried_all(locks, rt, query, tries, serving),
        Look::Unserved => Some((Reply::Refused(Refusal::of_code(NO_BACKEND)), query.least)),
    }
}

/// Looks once where the query may be answered, and does what follows. None where the query goes on.
fn round<J: Naming, B: Backend, S: Store + Drop, R: Wait>(
    locks: &Locks<J, B, S>,
    rt: &R,
    pass: &mut Pass<J>,
    query: &Query<'_>,
    tries: &mut Tries,
) -> Option<(Reply, u64)>
    requires written { IsWritten (request.Select query.now.select.now) }
    requires owes { query.now.least ≤ length (log (front pass.old.seat)) }
    ensures ended { (F : List Event) → IsPrefix F (front pass.old.seat) → HaveFailedSince F (front pass.old.seat) query.now.session query.now.seq tries.old.failed → IfSome result (λ r. EndsRead B.tells (placement_of J.layout) F query.now.session query.now.seq query.now.tx query.now.select.now query.now.least (front pass.new.seat) r.0 r.1) }
    ensures failed { (F : List Event) → IsPrefix F (front pass.old.seat) → HaveFailedSince F (front pass.old.seat) query.now.session query.now.seq tries.old.failed → HaveFailedSince F (front pass.new.seat) query.now.session query.now.seq tries.new.failed }
    ensures seen { HasSeenMore (pass_view pass.old.seat) (pass_view pass.new.seat) }
    ensures legal { IsLegal (front pass.new.seat) }
{
    let tried = tries.failed | tries.later;
    let looked = look_for(locks, rt, pass, query, tried, tries.first);
    tries.first = false;
    match looked {
        Sought::Kept(answer, at) => Some(reply_kept(locks, query, &answer, at)),
        Sought::Looked(look) => follow(locks, rt, pass, query, tries, look),
    }
}

/// Looks and asks until the query is answered or refused.
fn read_until<J: Naming, B: Backend, S: Store + Drop, R: Wait>(
    locks: &Locks<J, B, S>,
    rt: &R,
    pass: &mut Pass<J>,
    query: &Query<'_>,
) -> (Reply, u64)
    requires written { IsWritten (request.Select query.now.select.now) }
    requires owes { query.now.least ≤ length (log (front pass.old.seat)) }
    ensures ended { EndsRead B.tells (placement_of J.layout) (front pass.old.seat) query.now.session query.now.seq query.now.tx query.now.select.now query.now.least (front pass.new.seat) result.0 result.1 }
    ensures seen { HasSeenMore (pass_view pass.old.seat) (pass_view pass.new.seat) }
    ensures legal { IsLegal (front pass.new.seat) }
{
    let mut tries = Tries {
        failed: 0,
        later: 0,
        first: true,
    };
    for _ in rt.forever() {
        if let Some(ended) = round(locks, rt, pass, query, &mut tries) {
            return ended;
        }
    }
    unreachable!()
}

/// Answers the query of the session whose own pass this is, and says which position the session's reads need at
/// least then.
pub fn read<J: Naming, B: Backend, S: Store + Drop, R: Wait>(
    locks: &Locks<J, B, S>,
    rt: &R,
    pass: &mut Pass<J>,
    query: &Query<'_>,
) -> (Reply, u64)
    requires written { IsWritten (request.Select query.now.select.now) }
    requires own { ((pass_view pass.old.seat).own_session ≡ query.now.session) × (0 < query.now.session) }
    requires counted { event_count_of query.now.session (front pass.old.seat) ≡ (pass_view pass.old.seat).count }
    requires owes { query.now.least ≤ length (log (front pass.old.seat)) }
    requires tx { (query.now.tx ≡ 0) ⊎ (query.now.tx ≡ tx_of (log (front pass.old.seat)) query.now.session) }
    ensures turn { Turn B.tells (placement_of J.layout) query.now.session (record { front = front pass.old.seat; least = query.now.least }) (call_of_query query.now.seq query.now.tx query.now.user.now query.now.select.now result.0) (record { front = front pass.new.seat; least = result.1 }) }
    ensures tx { tx_of (log (front pass.new.seat)) query.now.session ≡ tx_of (log (front pass.old.seat)) query.now.session }
    ensures newer { (q : ℕ) → AreUpTo query.now.session q (log (front pass.old.seat)) → AreUpTo query.now.session q (log (front pass.new.seat)) }
    ensures own { (pass_view pass.new.seat).own_session ≡ query.now.session }
    ensures counted { event_count_of query.now.session (front pass.new.seat) ≡ (pass_view pass.new.seat).count }
    ensures within { result.1 ≤ length (log (front pass.new.seat)) }
    ensures legal { IsLegal (front pass.new.seat) }
{
    let ended = read_until(locks, rt, pass, query);
    locks.board.check_count(pass);
    ended
}

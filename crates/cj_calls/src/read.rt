//! A session's read, over a whole world.

ghost use Rattle.std.specs.Prelude.{◌≡◌, ◌≢◌, ◌⊎◌, ◌^◌, ◌<◌, is_some, true, OnOk, OnErr};
ghost use Rattle.cj_model.specs.declared.limits.TheConstants.{BACKEND_LIMIT, REQUEST_LIMIT};
ghost use Rattle.cj_model.specs.declared.request.Request.TheVariants as requests;
ghost use Rattle.cj_model.specs.Wire.Replies.{asked_reply};
ghost use Rattle.cj_model.specs.Sql.WrittenRequests.{IsWritten};
ghost use Rattle.cj_cluster.specs.History.Answering.{CanServe};
ghost use Rattle.cj_cluster.specs.Moves.Cores.{session_at};
ghost use Rattle.cj_cluster.specs.Moves.Moves as moves;
ghost use Rattle.cj_calls.specs.Proving.SoloParts.{cache_answered, cache_attempted, AttemptsQuery, RepliesKept};
ghost use Rattle.cj_calls.specs.WorldTurns.{call_of, StandsBetweenCalls, WorldTurn};
ghost use Rattle.cj_calls.specs.CacheUse.{ReadsWithCache};
ghost use Rattle.cj_cluster.specs.History.Histories.{database_of, log};
ghost use Rattle.cj_cluster.specs.Moves.Moves.{IsServingMask};
ghost use Rattle.cj_model.specs.Cluster.Caching.{answer_kept};
ghost use Rattle.cj_model.specs.Database.Outcomes.{IsAsked};
ghost use Rattle.cj_model.specs.Database.Queries.{ask};
ghost use Rattle.cj_state.specs.Worlds.{with_cache};

use crate::write::refuse;
use cj_backend::Backend;
use cj_model::{
    Asked, Duplicate, HISTORY_FULL, NO_BACKEND, NO_MEMORY, NoMemory, READ_FAULT, Refusal, Reply,
    Select, Text,
};
use cj_outside::Store;
use cj_state::{AskError, State, without_bit};

/// Returns the reply to the session for a backend's answer.
fn reply_of(answer: Asked) -> Reply
    ensures { result ≡ asked_reply answer }
{
    match answer {
        Asked::Rows(rows) => Reply::Rows(rows),
        Asked::Refused(refusal) => Reply::Refused(refusal),
    }
}

/// Keeps the rows that answer a query at the log's end outside transactions. The cache takes copies
/// of query and rows.
fn keep<B: Backend, S: Store>(
    state: &mut State<B, S>,
    tx: u64,
    select: &Select,
    answer: &Asked,
) -> Result<(), NoMemory>
    requires possible { IsAsked answer.now }
    requires right { B.tells ≡ true → answer.now ≡ ask (database_of (log state.old.core.history)) tx select.now }
    ensures ok { OnOk result (state.new ≡ with_cache state.old (cache_answered tx select.now (moves.last_number state.old.core) (asked_reply answer.now) state.old.cache)) }
    ensures err { OnErr result (state.new ≡ state.old) }
{
    if tx != 0 {
        return Ok(());
    }
    let Asked::Rows(rows) = answer else {
        return Ok(());
    };
    if state.keeps_none() {
        return Ok(());
    }
    let alloc = state.allocator();
    let select = select.copy(alloc)?;
    let rows = rows.copy(alloc)?;
    state.keep(select, rows)
}

/// Asks one backend. `None` says that it failed, so that another may be asked.
#[tactic(auto, using(crate::proofs::SoloTurns::stands_idle))]
fn attempt<B: Backend, S: Store>(
    state: &mut State<B, S>,
    s: u64,
    b: u8,
    user: &Text,
    tx: u64,
    select: &Select,
) -> Option<Reply>
    requires within { b < state.old.core.placement.backends }
    requires stands { StandsBetweenCalls state.old.core s }
    requires serves { CanServe state.old.core.placement state.old.core.history (requests.Select select.now) b }
    requires counts { (session_at state.old.core s).requests < REQUEST_LIMIT }
    requires written { IsWritten (requests.Select select.now) }
    ensures came { AttemptsQuery B.tells s b user.now tx select.now state.old result state.new }
    ensures setup { state.new.setup ≡ state.old.setup }
    ensures recovery_log { state.new.recovery_log ≡ state.old.recovery_log }
    ensures cache { state.new.cache ≡ cache_attempted tx select.now (moves.last_number state.old.core) result state.old.cache }
{
    state.legal();
    match state.ask(s, b, Some(user), tx, select) {
        Ok((answer, position)) => {
            if let Err(NoMemory) = keep(state, tx, select, &answer) {
                return Some(refuse(state, s, Refusal::of_code(NO_MEMORY)));
            }
            state.answer_read(s, position);
            Some(reply_of(answer))
        }
        Err(AskError::Failed) => {
            state.legal();
            None
        }
        Err(AskError::Unnoted(events)) => Some(refuse(
            state,
            s,
            Refusal {
                code: HISTORY_FULL,
                a: events,
                b: 0,
            },
        )),
        Err(AskError::NoMemory) => Some(refuse(state, s, Refusal::of_code(NO_MEMORY))),
        Err(AskError::Out) => unreachable!(),
        Err(AskError::Behind(_)) => unreachable!(),
    }
}

/// Replies to a query with its kept answer.
fn reply_kept<B: Backend, S: Store>(state: &mut State<B, S>, s: u64, select: &Select) -> Reply
    requires stands { StandsBetweenCalls state.old.core s }
    requires counts { (session_at state.old.core s).requests < REQUEST_LIMIT }
    requires kept { is_some (answer_kept select.now state.old.cache) ≡ true }
    ensures { RepliesKept s select.now state.old result state.new }
{
    let copied = match state.kept(select) {
        Some(answer) => answer.copy(state.allocator()),
        None => unreachable!(),
    };
    match copied {
        Ok(answer) => {
            let end = state.length();
            state.answer_read(s, end);
            Reply::Rows(answer)
        }
        Err(_) => refuse(state, s, Refusal::of_code(NO_MEMORY)),
    }
}

/// Asks the backends that serve a query, as the policy picks them, until one doesn't fail.
fn ask_in_turn<B: Backend, S: Store>(
    state: &mut State<B, S>,
    s: u64,
    serving: u32,
    user: &Text,
    tx: u64,
    select: &Select,
) -> Reply
    requires stands { StandsBetweenCalls state.old.core s }
    requires counts { (session_at state.old.core s).requests < REQUEST_LIMIT }
    requires written { IsWritten (requests.Select select.now) }
    requires tx { (tx ≡ 0) ⊎ (tx ≡ moves.open_tx state.old.core s) }
    requires serving { IsServingMask state.old.core select.now serving }
    requires below { serving < 2 ^ BACKEND_LIMIT }
    requires some { serving ≢ 0 }
    ensures turn { WorldTurn B.tells s state.old (call_of state.old.core s tx user.now (requests.Select select.now) result) state.new }
    ensures cache { state.new.cache ≡ cache_answered tx select.now (moves.last_number state.old.core) result state.old.cache }
{
    state.legal();
    let mut left = serving;
    while let Some(b) = state.pick(left) {
        if let Some(reply) = attempt(state, s, b, user, tx, select) {
            return reply;
        }
        left = without_bit(left, b);
    }
    refuse(
        state,
        s,
        Refusal {
            code: READ_FAULT,
            a: serving as u64,
            b: 0,
        },
    )
}

/// Answers a query of session `s` in transaction `tx`, 0 for none, at the log's end. A kept answer
/// is given outside transactions, if there is one. Else the backends that serve the query are
/// asked, as the policy picks them, until one doesn't fail.
///
/// A refusal is the backend's answer, or says why there is none. No backend serves the query, each
/// that does failed, the history has no room for a failure, or memory ran out. Every reply counts
/// as one request.
pub fn serve_read<B: Backend, S: Store>(
    state: &mut State<B, S>,
    s: u64,
    user: &Text,
    tx: u64,
    select: &Select,
) -> Reply
    requires stands { StandsBetweenCalls state.old.core s }
    requires counts { (session_at state.old.core s).requests < REQUEST_LIMIT }
    requires written { IsWritten (requests.Select select.now) }
    requires tx { (tx ≡ 0) ⊎ (tx ≡ moves.open_tx state.old.core s) }
    ensures turn { WorldTurn B.tells s state.old (call_of state.old.core s tx user.now (requests.Select select.now) result) state.new }
    ensures cache { ReadsWithCache select.now state.old (call_of state.old.core s tx user.now (requests.Select select.now) result) state.new }
{
    state.legal();
    let serving = state.serving(select);
    if serving == 0 {
        return refuse(state, s, Refusal::of_code(NO_BACKEND));
    }
    if tx != 0 {
        return ask_in_turn(state, s, serving, user, tx, select);
    }
    if state.look(select) {
        return reply_kept(state, s, select);
    }
    ask_in_turn(state, s, serving, user, tx, select)
}

//! The move `Read`: a backend is asked a query of a session.

ghost use Rattle.std.specs.Prelude.{◌≡◌, ◌<◌, ◌≤◌, IsErrOf, None, Ok, false, ℕ};
ghost use Rattle.cj_model.specs.declared.request.Request.TheVariants as requests;
ghost use Rattle.cj_model.specs.Sql.WrittenRequests.{IsWritten};
ghost use Rattle.cj_model.specs.declared.select.Select.{Select};
ghost use Rattle.cj_cluster.specs.Moves.Moves as moves;
ghost use Rattle.cj_cluster.specs.Moves.Cores.{session_at};
ghost use Rattle.cj_cluster.specs.Moves.Moves.{AttemptsReadOrWaits, not_now, with_read, answered_at, was_answered, still_reading};
ghost use Rattle.cj_state.specs.ArmedCells.{armings_of};
ghost use Rattle.cj_moves.specs.Counting.{HasCauses};
ghost use Rattle.cj_moves.specs.Logins.{HasLogins};
ghost use Rattle.cj_state.specs.Effects.{HaveFailed, with_core};
ghost use Rattle.cj_moves.specs.Proving.ReadParts.{RefusesOrStays, answer_given};

use crate::reason::why;
use cj_backend::Backend;
use cj_cluster::{Move, MoveError, Moved, Reason, Why};
use cj_model::{
    Asked, HISTORY_FULL, NO_BACKEND, READ_FAULT, REQUEST_LIMIT, Refusal, Select, has_bit,
};
use cj_outside::Store;
use cj_state::{AskError, State, covers};

/// Returns why session `s` can't read now, or `None`. It isn't open, or an entry of it is open.
pub fn not_now_read<B: Backend, S: Store>(state: &State<B, S>, s: u64) -> Option<Why>
    ensures { (b : ℕ) (select : Select) → result ≡ moves.not_now state.now.core (Move.Read s b select) }
{
    if !state.is_open(s) {
        return why(Reason::NoSession, s);
    }
    if state.is_waiting(s) {
        return why(Reason::Waiting, s);
    }
    None
}

/// Asks backend `b` a query for session `s`, in its open transaction. An answer, rows or a refusal,
/// closes the read.
///
/// `Out` and `Behind` leave the read open: the backend is out, or below what the session has seen.
/// `Failed` leaves it open too; the failure is an event of the history. `Refused` closes it if no
/// backend serves the query, all that do have failed in it, or the history has no room for the
/// failure. `NotNow` says that another read is open, or that the backend doesn't serve the query.
/// `NotNow` and `NoMemory` change nothing.
pub fn read<B: Backend, S: Store>(
    state: &mut State<B, S>,
    s: u64,
    b: u8,
    select: Select,
) -> Result<Moved, MoveError>
    requires within { b < state.old.core.placement.backends }
    requires now { not_now state.old.core (Move.Read s b select) ≡ None }
    requires written { IsWritten (requests.Select select) }
    requires counts { (session_at state.old.core s).requests < REQUEST_LIMIT }
    ensures moves { AttemptsReadOrWaits B.tells state.old.core s b select result state.new.core }
    ensures causes { HasCauses state.old state.new (Move.Read s b select) result }
    ensures logins { HasLogins state.old state.new (Move.Read s b select) result }
    ensures armings { armings_of state.new.cells ≡ armings_of state.old.cells }
    ensures want { IsErrOf result MoveError.NoMemory → state.new ≡ state.old }
    ensures setup { state.new.setup ≡ state.old.setup }
    ensures cache { state.new.cache ≡ state.old.cache }
    ensures recovery_log { state.new.recovery_log ≡ state.old.recovery_log }
{
    state.legal();
    if state.reads_other(s, &select) {
        return Err(MoveError::NotNow(Why {
            reason: Reason::Waiting,
            value: s,
        }));
    }
    let serving = state.serving(&select);
    if serving == 0 {
        state.refuse_read(s);
        return Ok(Moved::Refused(Refusal::of_code(NO_BACKEND)));
    }
    if !has_bit(serving, b) {
        return Err(MoveError::NotNow(Why {
            reason: Reason::NotServing,
            value: b as u64,
        }));
    }
    let tried = state.tried_with(s, b);
    let tx = state.open_tx(s);
    match state.ask(s, b, None, tx, &select) {
        Ok((answer, position)) => Ok(give_answer(state, s, position, answer)),
        Err(AskError::Failed) => Ok(refuse_or_stay(state, s, select, tried, serving)),
        Err(AskError::Unnoted(events)) => Ok(refuse_unnoted(state, s, events)),
        Err(AskError::NoMemory) => Err(MoveError::NoMemory),
        Err(AskError::Out) => {
            wait(state, s, select);
            Ok(Moved::Out)
        }
        Err(AskError::Behind(position)) => {
            wait(state, s, select);
            Ok(Moved::Behind(position))
        }
    }
}

/// Keeps the session's read open, with the backends that have failed in it so far.
fn wait<B: Backend, S: Store>(state: &mut State<B, S>, s: u64, select: Select)
    requires counts { (session_at state.old.core s).requests < REQUEST_LIMIT }
    requires idle { moves.is_waiting state.old.core s ≡ false }
    ensures { state.new ≡ with_core state.old (with_read state.old.core s (still_reading select (moves.tried_of (session_at state.old.core s).reading))) }
{
    state.legal();
    let tried = state.tried(s);
    state.keep_reading(s, select, tried);
}

/// Closes the session's read, which was answered at a position.
fn give_answer<B: Backend, S: Store>(
    state: &mut State<B, S>,
    s: u64,
    position: u64,
    answer: Asked,
) -> Moved
    requires counts { (session_at state.old.core s).requests < REQUEST_LIMIT }
    requires idle { moves.is_waiting state.old.core s ≡ false }
    requires within { position ≤ moves.last_number state.old.core }
    ensures moved { result ≡ answer_given answer }
    ensures ok { state.new ≡ with_core state.old (with_read state.old.core s (λ x. answered_at position (was_answered x))) }
{
    state.answer_read(s, position);
    match answer {
        Asked::Rows(rows) => Moved::Rows(rows),
        Asked::Refused(refusal) => Moved::Refused(refusal),
    }
}

/// Refuses the session's read if each backend that serves it has failed in it, and else keeps it
/// open.
fn refuse_or_stay<B: Backend, S: Store>(
    state: &mut State<B, S>,
    s: u64,
    select: Select,
    tried: u32,
    serving: u32,
) -> Moved
    requires counts { (session_at state.old.core s).requests < REQUEST_LIMIT }
    requires idle { moves.is_waiting state.old.core s ≡ false }
    requires since { HaveFailed state.old.core s tried }
    ensures moves { RefusesOrStays state.old.core s select tried serving result state.new.core }
    ensures cells { state.new.cells ≡ state.old.cells }
    ensures setup { state.new.setup ≡ state.old.setup }
    ensures cache { state.new.cache ≡ state.old.cache }
    ensures recovery_log { state.new.recovery_log ≡ state.old.recovery_log }
{
    if covers(tried, serving) {
        state.refuse_read(s);
        Moved::Refused(Refusal {
            code: READ_FAULT,
            a: serving as u64,
            b: 0,
        })
    } else {
        state.keep_reading(s, select, tried);
        Moved::Failed
    }
}

/// Refuses the session's read, since the history, of so many events, has no room for an event of
/// the failure.
fn refuse_unnoted<B: Backend, S: Store>(state: &mut State<B, S>, s: u64, events: u64) -> Moved
    requires counts { (session_at state.old.core s).requests < REQUEST_LIMIT }
    requires idle { moves.is_waiting state.old.core s ≡ false }
    ensures moved { result ≡ Moved.Refused (record { code = HISTORY_FULL; a = events; b = 0 }) }
    ensures ok { state.new ≡ with_core state.old (with_read state.old.core s was_answered) }
{
    state.refuse_read(s);
    Moved::Refused(Refusal {
        code: HISTORY_FULL,
        a: events,
        b: 0,
    })
}

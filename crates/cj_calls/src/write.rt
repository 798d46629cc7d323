//! A session's write, over a whole world.

ghost use Rattle.std.specs.Prelude.{◌≡◌, ◌≢◌, ◌≤◌, ◌<◌, ◌∷◌, ◌++◌, ℕ, List, [], length, None, IfErr, OnOk, true, false};
ghost use Rattle.cj_model.specs.declared.limits.TheConstants.{REQUEST_LIMIT, USER_LIMIT};
ghost use Rattle.cj_model.specs.Sql.PlainRequests.{request_of};
ghost use Rattle.cj_model.specs.Sql.WrittenRequests.{IsWritten};
ghost use Rattle.cj_cluster.specs.History.Histories.{is_free, masks_of_ends};
ghost use Rattle.cj_cluster.specs.History.Legality.{FitsTx};
ghost use Rattle.cj_cluster.specs.Moves.Cores.{session_at};
ghost use Rattle.cj_cluster.specs.Moves.Moves as moves;
ghost use Rattle.cj_cluster.specs.Proving.Invariants.{CoreInvariant};
ghost use Rattle.cj_cluster.specs.Moves.Moves.{with_request_counted};
ghost use Rattle.cj_model.specs.declared.answer.Reply.TheVariants as replies;
ghost use Rattle.cj_state.specs.Effects.{with_core};
ghost use Rattle.cj_calls.specs.Proving.SoloParts.{open_user, EntryEnded, EntryRefused, EntryScheduled, EntryTaken, HasTakenEntry, IsLeft, SchedulesOrRefuses, TakesOpen};
ghost use Rattle.cj_calls.specs.WorldTurns.{call_of, StandsBetweenCalls, WorldTurn};
ghost use Rattle.cj_state.specs.Effects.{own_entry};
ghost use Rattle.cj_state.specs.Worlds.{CacheFollowsLog};
ghost use Rattle.cj_calls.specs.OwnEvents.{AddsEntry};
ghost use Rattle.cj_calls.specs.Entries.{EndsStarving};

use cj_backend::Backend;
use cj_desk::Written;
use cj_model::{Act, NO_MEMORY, Refusal, Reply, Text};
use cj_moves::not_now_apply;
use cj_outside::Store;
use cj_state::State;

/// Refuses a request of session `s` and counts it.
#[tactic(auto, using(crate::proofs::SoloTurns::stands_idle))]
pub fn refuse<B: Backend, S: Store>(state: &mut State<B, S>, s: u64, refusal: Refusal) -> Reply
    requires stands { StandsBetweenCalls state.old.core s }
    requires counts { (session_at state.old.core s).requests < REQUEST_LIMIT }
    ensures reply { result ≡ replies.Refused refusal }
    ensures counted { state.new ≡ with_core state.old (with_request_counted state.old.core s) }
{
    state.count(s);
    Reply::Refused(refusal)
}

/// Has the backend carry out the open entry, if it is enabled and hasn't taken it.
fn take_if_due<B: Backend, S: Store>(state: &mut State<B, S>, b: u8)
    requires open { is_free state.old.core.history ≡ false }
    requires within { b < state.old.core.placement.backends }
    ensures taken { EntryTaken (open_user state.old.core) state.old state.new }
    ensures at_end { HasTakenEntry state.new.core b }
    ensures here { TakesOpen state.old state.new b }
    ensures others { (k : ℕ) → k ≢ b → IsLeft state.old state.new k }
{
    state.legal();
    if not_now_apply(state, b).is_none() {
        state.catch_up_open(b);
    }
}

/// Has each enabled backend carry out the open entry.
fn take_everywhere<B: Backend, S: Store>(state: &mut State<B, S>)
    requires open { is_free state.old.core.history ≡ false }
    ensures taken { EntryTaken (open_user state.old.core) state.old state.new }
    ensures at_end { moves.first_lagging state.new.core.history 0 state.new.core.positions ≡ None }
    ensures each { (b : ℕ) → TakesOpen state.old state.new b }
    ensures sound { CoreInvariant state.new.core }
{
    for b in 0..state.placement().count() {
        take_if_due(state, b);
    }
    state.legal();
}

/// Ends the open entry, which is one of session `s`, once each enabled backend has taken it. Gives
/// the mask of the backends that ran out of memory in it, too.
fn finish<B: Backend, S: Store>(state: &mut State<B, S>, s: u64) -> (Reply, u32)
    requires open { is_free state.old.core.history ≡ false }
    requires waits { moves.is_waiting state.old.core s ≡ true }
    ensures ended { EntryEnded B.tells s (open_user state.old.core) state.old result.0 state.new }
    ensures starved { (failed : ℕ) × (masks_of_ends state.new.core.history ≡ masks_of_ends state.old.core.history ++ (failed, result.1) ∷ []) }
{
    take_everywhere(state);
    let reply = state.reply();
    let starved = state.starved();
    state.end_entry(s);
    state.legal();
    (reply, starved)
}

/// Schedules the act as the next entry of session `s`, in transaction `tx`, 0 for none, or says why
/// it can't.
fn schedule_for<B: Backend, S: Store>(
    state: &mut State<B, S>,
    s: u64,
    user: &Text,
    tx: u64,
    act: Act,
) -> Result<u64, Refusal>
    requires stands { StandsBetweenCalls state.old.core s }
    requires counts { (session_at state.old.core s).requests < REQUEST_LIMIT }
    requires short { length user.now ≤ USER_LIMIT }
    requires written { IsWritten (request_of act) }
    requires fits { FitsTx (moves.open_tx state.old.core s) tx act }
    ensures scheduled { SchedulesOrRefuses state.old.core (own_entry state.old.core s tx user.now act) result }
    ensures ok { OnOk result (EntryScheduled s (own_entry state.old.core s tx user.now act) state.old state.new) }
    ensures err { IfErr result (λ refusal. EntryRefused (own_entry state.old.core s tx user.now act) refusal state.old state.new) }
{
    let Ok(entry) = state.entry_for(s, user, tx, act) else {
        return Err(Refusal::of_code(NO_MEMORY));
    };
    match state.schedule_entry(s, entry) {
        Ok(number) => Ok(number),
        Err(error) => Err(error.refusal().unwrap_or(Refusal::of_code(NO_MEMORY))),
    }
}

/// What came of a session's write.
#[derive(Drop)]
pub struct ServedWrite {
    /// The entry's number and reply, as the desk gives them.
    pub written: Written,
    /// The mask of the backends that ran out of memory in the entry, 0 if nothing was scheduled.
    pub starved: u32,
}

/// Schedules the act as the next entry of session `s`, in transaction `tx`, 0 for none, and has each
/// enabled backend carry it out.
///
/// A number of 0 comes with a refusal: no backend serves the request, the history has no room, the
/// log's store failed, or memory ran out. Then nothing was scheduled.
pub fn serve_write<B: Backend, S: Store>(
    state: &mut State<B, S>,
    s: u64,
    user: &Text,
    tx: u64,
    act: Act,
) -> ServedWrite
    requires stands { StandsBetweenCalls state.old.core s }
    requires counts { (session_at state.old.core s).requests < REQUEST_LIMIT }
    requires short { length user.now ≤ USER_LIMIT }
    requires written { IsWritten (request_of act) }
    requires fits { FitsTx (moves.open_tx state.old.core s) tx act }
    ensures turn { WorldTurn B.tells s state.old (call_of state.old.core s tx user.now (request_of act) result.written.reply) state.new }
    ensures entry { (failed : List ℕ) × AddsEntry result.written.number s (call_of state.old.core s tx user.now (request_of act) result.written.reply) act failed state.old.core.history state.new.core.history }
    ensures cache { CacheFollowsLog state.old state.new }
    ensures starved { EndsStarving result.starved state.old.core.history state.new.core.history }
{
    state.legal();
    match schedule_for(state, s, user, tx, act) {
        Ok(number) => {
            let (reply, starved) = finish(state, s);
            ServedWrite {
                written: Written { number, reply },
                starved,
            }
        }
        Err(refusal) => ServedWrite {
            written: Written {
                number: 0,
                reply: refuse(state, s, refusal),
            },
            starved: 0,
        },
    }
}

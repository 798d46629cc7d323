//! The move `Schedule`: a session's request becomes an entry.

ghost use Rattle.std.specs.Prelude.{◌≡◌, ◌<◌, length, IsErrOf, Some, None, Ok};
ghost use Rattle.cj_model.specs.Sql.PlainRequests as plain;
ghost use Rattle.cj_model.specs.Sql.WrittenRequests.{IsWritten};
ghost use Rattle.cj_model.specs.declared.request.Request.{Request};
ghost use Rattle.cj_model.specs.declared.select.Select.{Select};
ghost use Rattle.cj_cluster.specs.Moves.Moves as moves;
ghost use Rattle.cj_cluster.specs.Moves.Cores.{session_at};
ghost use Rattle.cj_cluster.specs.Moves.Moves.{SchedulesRequest, not_now};
ghost use Rattle.cj_cluster.specs.Moves.Runs.{IsForLog};
ghost use Rattle.cj_state.specs.Effects.{with_core};
ghost use Rattle.cj_state.specs.Worlds.{CacheFollowsLog, IsSameWorldButLog, with_cache};
ghost use Rattle.cj_moves.specs.Counting.{HasLogCauses};
ghost use Rattle.cj_moves.specs.Proving.ScheduleParts.{SchedulesUncounted, schedule_given};

use crate::reason::why;
use cj_backend::Backend;
use cj_cluster::{Move, MoveError, Moved, Reason, Why};
use cj_model::{Act, REQUEST_LIMIT, Refusal, Request, Select};
use cj_open_sessions::forbidden_by;
use cj_outside::Store;
use cj_state::State;

/// The act of a request that is no query.
fn act_of(request: Request) -> Act
    requires written { IsWritten request }
    requires for_log { IsForLog request }
    ensures act { plain.act_of request ≡ Some result }
    ensures written { IsWritten (plain.request_of result) }
{
    match request {
        Request::Write(write) => Act::Write(write),
        Request::Create(create) => Act::Create(create),
        Request::Drop(table) => Act::Drop(table),
        Request::Begin => Act::Begin,
        Request::Commit => Act::Commit,
        Request::Rollback => Act::Abort,
        Request::Select(_) => unreachable!(),
    }
}

/// Returns why session `s` can't schedule a request now, or `None`. It isn't open, an entry or a
/// read of it is open, or another entry is open.
pub fn not_now_schedule<B: Backend, S: Store>(state: &State<B, S>, s: u64) -> Option<Why>
    ensures { (r : Request) → result ≡ moves.not_now state.now.core (Move.Schedule s r) }
{
    if !state.is_open(s) {
        return why(Reason::NoSession, s);
    }
    if state.is_waiting(s) || state.is_reading(s) {
        return why(Reason::Waiting, s);
    }
    if !state.is_free() {
        return why(Reason::EntryOpen, state.length());
    }
    None
}

/// Schedules the request as the session's next entry, and returns the entry's number. An error has
/// the refusal, whose request is yet to be counted, or none if memory ran out.
fn schedule_uncounted<B: Backend, S: Store>(
    state: &mut State<B, S>,
    s: u64,
    request: Request,
) -> Result<u64, Option<Refusal>>
    requires written { IsWritten request }
    requires for_log { IsForLog request }
    requires counts { (session_at state.old.core s).requests < REQUEST_LIMIT }
    requires now { not_now state.old.core (Move.Schedule s request) ≡ None }
    ensures moves { SchedulesUncounted state.old.core s request result state.new.core }
    ensures log_causes { HasLogCauses state.old state.new (Move.Schedule s request) (schedule_given result) }
    ensures same { IsSameWorldButLog (with_cache (with_core state.old state.new.core) state.new.cache) state.new }
    ensures want { IsErrOf result None → IsSameWorldButLog state.old state.new }
    ensures cache { CacheFollowsLog state.old state.new }
{
    let act = act_of(request);
    if let Some(refusal) = forbidden_by(state.open_tx(s), &act) {
        return Err(Some(refusal));
    }
    let Ok(entry) = state.next_entry(s, act) else {
        return Err(None);
    };
    match state.schedule_entry(s, entry) {
        Ok(number) => Ok(number),
        Err(error) => Err(error.refusal()),
    }
}

/// Schedules the request, which is no query, as the next entry of session `s`, and gives the
/// entry's number.
///
/// `Refused` counts the request. It says that the session's transaction forbids the request, no
/// backend serves it, the history has no room, or the log's store failed. That last one is an event
/// of the history. `NoMemory` leaves all but maybe the log's bytes as it was.
pub fn schedule<B: Backend, S: Store>(
    state: &mut State<B, S>,
    s: u64,
    request: Request,
) -> Result<Moved, MoveError>
    requires written { IsWritten request }
    requires for_log { IsForLog request }
    requires counts { (session_at state.old.core s).requests < REQUEST_LIMIT }
    requires now { not_now state.old.core (Move.Schedule s request) ≡ None }
    ensures moves { SchedulesRequest state.old.core s request result state.new.core }
    ensures log_causes { HasLogCauses state.old state.new (Move.Schedule s request) result }
    ensures cells { state.new.cells ≡ state.old.cells }
    ensures want { IsErrOf result MoveError.NoMemory → IsSameWorldButLog state.old state.new }
    ensures setup { state.new.setup ≡ state.old.setup }
    ensures cache { CacheFollowsLog state.old state.new }
{
    match schedule_uncounted(state, s, request) {
        Ok(number) => Ok(Moved::Entry(number)),
        Err(Some(refusal)) => {
            state.count(s);
            Ok(Moved::Refused(refusal))
        }
        Err(None) => Err(MoveError::NoMemory),
    }
}

//! Turns at a desk.

ghost use Rattle.std.specs.Prelude.{◌≡◌, ◌<◌, ◌≤◌, length, None};
ghost use Rattle.cj_model.specs.declared.limits.TheConstants.{REQUEST_LIMIT, USER_LIMIT};
ghost use Rattle.cj_model.specs.Sql.PlainRequests.{act_of, request_of};
ghost use Rattle.cj_cluster.specs.Moves.Moves.{forbidden_by};
ghost use Rattle.cj_reply.specs.Encode.{IsSendable};
ghost use Rattle.cj_desk.specs.DeskStates.{desk_tx, next_call, turn_taken, CanAskDesk};
ghost use Rattle.cj_desk.specs.SessionTranscripts.{refusal_by_transaction, setting, TakesDeskTurn};
ghost use Rattle.cj_session.specs.Proving.Works.{IsReadFromText};

use crate::work::{DeskWork, effect_of, work_of};
use cj_desk::Desk;
use cj_macro::rewrite;
use cj_model::{Act, Reply, Request, Text};
use cj_outside::{Clock, Draw};

/// Makes a write in the session's transaction, and returns the transaction after it with the reply.
fn change<R, K: Desk<R>>(rt: &R, desk: &mut K, user: &Text, tx: u64, act: Act) -> (u64, Reply)
    requires can { CanAskDesk (K.state_of desk.old) user.now (request_of act) }
    requires tx { tx ≡ desk_tx (K.state_of desk.old) }
    requires allowed { forbidden_by tx act ≡ None }
    ensures made { K.leads_to desk.old (turn_taken (next_call (K.state_of desk.old) tx user.now (request_of act) result.1)) desk.new }
    ensures tx { result.0 ≡ desk_tx (K.state_of desk.new) }
{
    let effect = effect_of(&act);
    let written = desk.write(rt, user, tx, act);
    (effect.tx_after(written.number, tx), written.reply)
}

/// Makes the turn of a request, whose calls of clock and random numbers are replaced by values.
/// Returns the session's transaction after it, 0 for none, and the reply.
pub fn turn<R, K: Desk<R>, C: Clock, D: Draw>(
    rt: &R,
    desk: &mut K,
    clock: &C,
    draw: &mut D,
    user: &Text,
    tx: u64,
    request: Request,
) -> (u64, Reply)
    requires room { (K.state_of desk.old).requests < REQUEST_LIMIT }
    requires short { length user.now ≤ USER_LIMIT }
    requires text { IsReadFromText request }
    requires tx { tx ≡ desk_tx (K.state_of desk.old) }
    requires allowed { refusal_by_transaction tx (act_of request) ≡ None }
    ensures turn { TakesDeskTurn (setting K.state_of K.leads_to D.drawn D.later (C.moment clock.now)) user.now desk.old draw.old request result.1 desk.new draw.new }
    ensures tx { result.0 ≡ desk_tx (K.state_of desk.new) }
    ensures sendable { IsSendable result.1 }
{
    match work_of(rewrite(request, clock.now(), draw)) {
        DeskWork::Ask(select) => (tx, desk.read(rt, user, tx, &select)),
        DeskWork::Change(act) => change(rt, desk, user, tx, act),
    }
}

//! What a session asks for.

ghost use Rattle.std.specs.Prelude.{◌≡◌, ◌+◌, ◌<◌, ◌≤◌, length, IfSome};
ghost use Rattle.cj_model.specs.declared.limits.TheConstants.{REQUEST_LIMIT, USER_LIMIT};
ghost use Rattle.cj_model.specs.Sql.WrittenRequests.{IsWritten};
ghost use Rattle.cj_desk.specs.DeskStates.{desk_tx};

use cj_desk::{Desk, Written};
use cj_model::{Act, Reply, Request, Text, USER_LIMIT};
use cj_sql::{is_plain, read};
use std::alloc::Global;

/// The user of the tests.
fn ann(alloc: Global) -> Option<Text>
    ensures { IfSome result (λ user. length user ≤ USER_LIMIT) }
{
    let user = Text::of(b"ann".to_vec(alloc).ok()?)?;
    if user.len() > USER_LIMIT {
        return None;
    }
    Some(user)
}

/// The plain request that a text reads as.
fn plain_request(alloc: Global, text: &str) -> Option<Request>
    ensures { IfSome result IsWritten }
{
    match read(alloc, text.as_bytes()) {
        Ok(request) if is_plain(&request) => Some(request),
        _ => None,
    }
}

/// Returns the number of the entry of a write. None where it was not done.
fn number_of(written: Written) -> Option<u64>
    ensures number { IfSome result (λ n. n ≡ written.number) }
    ensures scheduled { IfSome result (λ n. 0 < n) }
{
    let Written { number, reply } = written;
    match reply {
        Reply::Done(_) if number > 0 => Some(number),
        _ => None,
    }
}

/// Has the session make a request, in transaction `tx` if it has that. Returns the transaction that it has then. None
/// where the request is not done, is no BEGIN, COMMIT, CREATE TABLE or change, or memory is wanting.
#[tactic(auto, using(crate::proofs::Transactions::tx_when_done))]
pub fn request<R, K: Desk<R>>(
    rt: &R,
    alloc: Global,
    desk: &mut K,
    tx: u64,
    text: &str,
) -> Option<u64>
    requires room { (K.state_of desk.old).requests < REQUEST_LIMIT }
    requires transaction { tx ≡ desk_tx (K.state_of desk.old) }
    ensures transaction { IfSome result (λ later. later ≡ desk_tx (K.state_of desk.new)) }
    ensures counted { IfSome result (λ _. (K.state_of desk.new).requests ≡ (K.state_of desk.old).requests + 1) }
{
    let user = ann(alloc)?;
    match plain_request(alloc, text)? {
        Request::Begin if tx == 0 => number_of(desk.write(rt, &user, 0, Act::Begin)),
        Request::Commit if tx > 0 => {
            number_of(desk.write(rt, &user, tx, Act::Commit))?;
            Some(0)
        }
        Request::Write(write) => {
            number_of(desk.write(rt, &user, tx, Act::Write(write)))?;
            Some(tx)
        }
        Request::Create(create) => {
            number_of(desk.write(rt, &user, 0, Act::Create(create)))?;
            Some(tx)
        }
        _ => None,
    }
}

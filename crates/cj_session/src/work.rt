//! What requests ask of a desk, and what the state of a transaction forbids.

ghost use Rattle.std.specs.Prelude.{◌≡◌, ℕ, ◌==◌, Some, None, if◌then◌else◌};
ghost use Rattle.cj_model.specs.Database.Inserts.{refusal_of_code};
ghost use Rattle.cj_model.specs.Sql.PlainRequests.{act_of};
ghost use Rattle.cj_cluster.specs.History.Turns.{tx_after_entry};
ghost use Rattle.cj_desk.specs.SessionTranscripts as transcripts;
ghost use Rattle.cj_session.specs.Proving.Works.{tx_by_effect, request_of_work};

use cj_model::{
    Act, IN_TRANSACTION, NO_TRANSACTION, Refusal, Request, SCHEMA_IN_TRANSACTION, Select,
};

/// What a request asks of a desk.
#[derive(Drop)]
pub enum DeskWork {
    /// A read.
    Ask(Select),
    /// A write.
    Change(Act),
}

/// What an act does to the transaction of its session.
#[derive(Clone, Copy)]
pub enum TxEffect {
    Opens,
    Closes,
    Keeps,
}

/// Returns what a request asks of a desk.
pub fn work_of(request: Request) -> DeskWork
    ensures { request_of_work result ≡ request }
{
    match request {
        Request::Select(select) => DeskWork::Ask(select),
        Request::Write(write) => DeskWork::Change(Act::Write(write)),
        Request::Create(create) => DeskWork::Change(Act::Create(create)),
        Request::Drop(table) => DeskWork::Change(Act::Drop(table)),
        Request::Begin => DeskWork::Change(Act::Begin),
        Request::Commit => DeskWork::Change(Act::Commit),
        Request::Rollback => DeskWork::Change(Act::Abort),
    }
}

/// Refuses what isn't allowed inside a transaction, if `tx` is one.
fn refusal_inside(code: u16, tx: u64) -> Option<Refusal>
    ensures { result ≡ (if tx == 0 then None else Some (record { code = code; a = tx; b = 0 })) }
{
    if tx == 0 {
        None
    } else {
        Some(Refusal { code, a: tx, b: 0 })
    }
}

/// Refuses what is allowed only inside a transaction, if `tx` is 0.
fn refusal_outside(tx: u64) -> Option<Refusal>
    ensures { result ≡ (if tx == 0 then Some (refusal_of_code NO_TRANSACTION) else None) }
{
    if tx == 0 {
        Some(Refusal::of_code(NO_TRANSACTION))
    } else {
        None
    }
}

/// Returns the refusal of a request that the session's transaction `tx` forbids, 0 for none, or
/// `None`.
pub fn refusal_by_transaction(tx: u64, request: &Request) -> Option<Refusal>
    ensures { result ≡ transcripts.refusal_by_transaction tx (act_of request.now) }
{
    match request {
        Request::Select(_) => None,
        Request::Write(_) => None,
        Request::Create(_) => refusal_inside(SCHEMA_IN_TRANSACTION, tx),
        Request::Drop(_) => refusal_inside(SCHEMA_IN_TRANSACTION, tx),
        Request::Begin => refusal_inside(IN_TRANSACTION, tx),
        Request::Commit => refusal_outside(tx),
        Request::Rollback => refusal_outside(tx),
    }
}

/// Returns what an act does to the transaction of its session.
pub fn effect_of(act: &Act) -> TxEffect
    ensures { (n tx : ℕ) → tx_by_effect n tx result ≡ tx_after_entry n tx act.now }
{
    match act {
        Act::Begin => TxEffect::Opens,
        Act::Write(_) => TxEffect::Keeps,
        Act::Create(_) => TxEffect::Keeps,
        Act::Drop(_) => TxEffect::Keeps,
        Act::Commit => TxEffect::Closes,
        Act::Abort => TxEffect::Closes,
    }
}

impl TxEffect {
    /// Returns the session's transaction after an entry of this number. A number of 0 means no
    /// entry, and a transaction of 0 means none.
    pub fn tx_after(self, number: u64, tx: u64) -> u64
        ensures { result ≡ (if number == 0 then tx else tx_by_effect number tx self) }
    {
        if number == 0 {
            return tx;
        }
        match self {
            TxEffect::Opens => number,
            TxEffect::Closes => 0,
            TxEffect::Keeps => tx,
        }
    }
}

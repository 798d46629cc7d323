//! What the state of a session's transaction means for its next act.

ghost use Rattle.std.specs.Prelude.{◌≡◌};
ghost use Rattle.cj_cluster.specs.Moves.Moves as moves;

use cj_model::{Act, IN_TRANSACTION, NO_TRANSACTION, Refusal, SCHEMA_IN_TRANSACTION};

/// Why the act is forbidden while the session's open transaction is `tx` (0 is none); `None` if it isn't.
pub fn forbidden_by(tx: u64, act: &Act) -> Option<Refusal>
    ensures { result ≡ moves.forbidden_by tx act.now }
{
    match act {
        Act::Begin if tx != 0 => Some(Refusal {
            code: IN_TRANSACTION,
            a: tx,
            b: 0,
        }),
        Act::Create(_) | Act::Drop(_) if tx != 0 => Some(Refusal {
            code: SCHEMA_IN_TRANSACTION,
            a: tx,
            b: 0,
        }),
        Act::Commit | Act::Abort if tx == 0 => Some(Refusal::of_code(NO_TRANSACTION)),
        Act::Begin | Act::Write(_) | Act::Create(_) | Act::Drop(_) | Act::Commit | Act::Abort =>
            None,
    }
}

/// The transaction of an act's entry, in a session whose open one is `tx`; 0 for BEGIN, CREATE and DROP.
pub fn tx_of_act(tx: u64, act: &Act) -> u64
    ensures { result ≡ moves.tx_of_act tx act.now }
{
    match act {
        Act::Begin | Act::Create(_) | Act::Drop(_) => 0,
        Act::Write(_) | Act::Commit | Act::Abort => tx,
    }
}

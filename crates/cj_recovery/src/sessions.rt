//! What is known of a session.

ghost use Rattle.std.specs.Prelude.{◌≡◌, ◌↔◌, IsTrue};
ghost use Rattle.cj_cluster.specs.History.Legality.{FitsTx};
ghost use Rattle.cj_recovery.specs.Proving.Keeping as keeping;

use cj_model::Act;

/// What is known of a session by its entries so far.
#[derive(Clone, Copy)]
pub struct SessionSoFar {
    /// The least number that the next request of the session may have.
    pub next: u64,
    /// The open transaction of the session, or 0.
    pub tx: u64,
}

/// Whether an act may have the transaction `tx`, if the open one of its session is `open_tx`; 0 is none.
pub fn fits_tx(open_tx: u64, tx: u64, act: &Act) -> bool
    ensures { IsTrue result ↔ FitsTx open_tx tx act.now }
{
    match act {
        Act::Begin => tx == 0 && open_tx == 0,
        Act::Write(_) => tx == 0 || tx == open_tx,
        Act::Create(_) | Act::Drop(_) => tx == 0,
        Act::Commit | Act::Abort => tx != 0 && tx == open_tx,
    }
}

/// The open transaction of a session after its entry `number` of this act.
pub fn tx_behind(number: u64, open_tx: u64, act: &Act) -> u64
    ensures { result ≡ keeping.tx_behind number open_tx act.now }
{
    match act {
        Act::Begin => number,
        Act::Write(_) | Act::Create(_) | Act::Drop(_) => open_tx,
        Act::Commit | Act::Abort => 0,
    }
}

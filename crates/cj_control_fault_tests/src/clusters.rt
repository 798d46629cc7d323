//! Clusters over two backends that have every table: how they start, and are given up.

ghost use Rattle.std.specs.Prelude.{◌≡◌, ◌≤◌, true, [], length, vec_capacity, Some};
ghost use Rattle.cj_model.specs.declared.limits.TheConstants.{BACKEND_LIMIT};
ghost use Rattle.cj_outside.specs.Memory.{State};
ghost use Rattle.cj_board.specs.Seats.{board_id, pass_board};
ghost use Rattle.cj_control.specs.Starting.{AreOfStarted};

use crate::steps::{Step, take};
use cj_backend::Backend;
use cj_control::{Control, Naming};
use cj_core::Shared;
use cj_model::NoMemory;
use cj_outside::MemStore;
use cj_test_setup::{Setup, replicated, started};
use std::alloc::Global;
use std::marker::Brand;
use std::process::Abort;
use std::sync::Wait;
use std::sync::ledger::Blank;

/// Takes the steps at the cluster of these parts, and gives it up.
fn play_at<J: Naming, B: Backend + Drop, R: Wait + Abort>(
    rt: &R,
    alloc: Global,
    shared: Shared<B, MemStore>,
    blank: Blank,
    steps: &[Step<'_>],
) -> Result<(), NoMemory>
    requires world { AreOfStarted B.tells true (λ (store : State). store.faults) (board_id shared.board) (pass_board shared.pass) shared.book shared.recovery_log shared.cells.items shared.accounts shared.dumps }
    requires board { board_id shared.board ≡ J.board }
    requires layout { shared.book.state.layout ≡ J.layout }
    requires turn { (blank.name ≡ J.turn) × (blank.parts ≡ 1) }
    requires tells { J.tells ≡ B.tells }
    requires emptied { (length shared.emptied.items ≡ 0) × (BACKEND_LIMIT ≤ vec_capacity shared.emptied) }
{
    let Ok((control, mut pass)) = Control::<J, B, MemStore>::start(alloc, shared, blank) else {
        return Err(NoMemory);
    };
    for step in steps {
        take(rt, alloc, &control, &mut pass, step)?;
    }
    assert!(rt; control.into_backends(&mut pass).is_some());
    Ok(())
}

/// Takes the steps at a new cluster over these backends. The store of its log fails at these calls.
pub fn play<B: Backend + Drop, R: Wait + Abort>(
    rt: &R,
    alloc: Global,
    one: B,
    other: B,
    log_fails: Vec<u64>,
    steps: &[Step<'_>],
) -> Result<(), NoMemory>
    requires empty { B.tells ≡ true → (B.told one ≡ Some []) × (B.told other ≡ Some []) }
    requires none { (B.begun one ≡ []) × (B.begun other ≡ []) }
{
    let Some(placement) = replicated(alloc) else {
        panic!(rt; "no placement")
    };
    let setup = Setup {
        placement,
        cache: 0,
        log: Vec::new(alloc),
        log_fails,
    };
    let Some(shared) = started(alloc, setup, one, other) else {
        panic!(rt; "the world does not start")
    };
    play_at::<Brand, B, R>(rt, alloc, shared, Blank::new(1), steps)
}

//! Clusters over two backends: how they start.

ghost use Rattle.std.specs.Prelude.{◌≡◌, ◌≤◌, true, [], length, vec_capacity, IfSome, Some};
ghost use Rattle.cj_model.specs.declared.limits.TheConstants.{BACKEND_LIMIT};
ghost use Rattle.cj_outside.specs.Memory.{State};
ghost use Rattle.cj_board.specs.Seats.{board_id, pass_board};
ghost use Rattle.cj_control.specs.Starting.{AreOfStarted};

use crate::steps::{Step, take_all};
use cj_backend::Backend;
use cj_control::{Control, Naming, Pass};
use cj_core::Shared;
use cj_model::NoMemory;
use cj_outside::MemStore;
use cj_place::Placement;
use cj_shelf::Shelf;
use cj_test_setup::{Setup, started};
use std::alloc::Global;
use std::marker::Brand;
use std::process::Abort;
use std::sync::Wait;
use std::sync::ledger::Blank;
use std::thread::Threads;

/// An empty shelf, whose store fails at these calls.
fn shelf(rt: &impl Abort, alloc: Global, fails: Vec<u64>) -> Shelf<MemStore>
    ensures { result.dumps ≡ [] }
{
    let store = MemStore::new(Vec::new(alloc), fails);
    match Shelf::open(alloc, store) {
        Ok(shelf) => shelf,
        Err(_) => panic!(rt; "the shelf is not opened"),
    }
}

/// Takes the steps at a cluster, with a new session and an empty shelf whose store fails at these calls.
fn serve<J: Naming + Send + Sync, B: Backend + Drop + Send, R: Threads + Wait + Abort + Sync>(
    rt: &R,
    alloc: Global,
    control: &Control<J, B, MemStore>,
    pass: &mut Pass<J>,
    shelf_fails: Vec<u64>,
    steps: &[Step<'_>],
) -> Result<(), NoMemory>
where
    B::Snap: Send,
{
    let Ok(mut caller) = control.caller(rt, pass) else {
        panic!(rt; "no session")
    };
    let mut shelf = shelf(rt, alloc, shelf_fails);
    take_all(rt, alloc, control, pass, &mut caller, &mut shelf, steps)
}

/// Takes the steps at the cluster of these parts.
fn play_at<J: Naming + Send + Sync, B: Backend + Drop + Send, R: Threads + Wait + Abort + Sync>(
    rt: &R,
    alloc: Global,
    shared: Shared<B, MemStore>,
    blank: Blank,
    shelf_fails: Vec<u64>,
    steps: &[Step<'_>],
) -> Result<(), NoMemory>
where
    B::Snap: Send,
    requires world { AreOfStarted B.tells true (λ (store : State). store.faults) (board_id shared.board) (pass_board shared.pass) shared.book shared.recovery_log shared.cells.items shared.accounts shared.dumps }
    requires board { board_id shared.board ≡ J.board }
    requires layout { shared.book.state.layout ≡ J.layout }
    requires turn { (blank.name ≡ J.turn) × (blank.parts ≡ 1) }
    requires tells { J.tells ≡ B.tells }
    requires emptied { (length shared.emptied.items ≡ 0) × (BACKEND_LIMIT ≤ vec_capacity shared.emptied) }
{
    let Ok((control, mut pass)) = Control::<J, B, MemStore>::start(alloc, shared, blank) else {
        return Err(NoMemory);
    };
    serve(rt, alloc, &control, &mut pass, shelf_fails, steps)
}

/// Takes the steps at a new cluster over these backends, and an empty shelf whose store fails at these calls.
pub fn play<B: Backend + Drop + Send, R: Threads + Wait + Abort + Sync>(
    rt: &R,
    alloc: Global,
    placement: Option<Placement>,
    one: B,
    other: B,
    shelf_fails: Vec<u64>,
    steps: &[Step<'_>],
) -> Result<(), NoMemory>
where
    B::Snap: Send,
    requires two { IfSome placement (λ placement. length placement.names ≡ 2) }
    requires empty { B.tells ≡ true → (B.told one ≡ Some []) × (B.told other ≡ Some []) }
    requires none { (B.begun one ≡ []) × (B.begun other ≡ []) }
{
    let Some(placement) = placement else {
        panic!(rt; "no placement")
    };
    let setup = Setup {
        placement,
        cache: 64,
        log: Vec::new(alloc),
        log_fails: Vec::new(alloc),
    };
    let Some(shared) = started(alloc, setup, one, other) else {
        panic!(rt; "the world does not start")
    };
    play_at::<Brand, B, R>(rt, alloc, shared, Blank::new(1), shelf_fails, steps)
}

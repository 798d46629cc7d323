//! Clusters over two backends: how they start.

ghost use Rattle.std.specs.Prelude.{◌≡◌, ◌≤◌, true, [], length, vec_capacity, IfOk, IfSome};
ghost use Rattle.cj_model.specs.declared.limits.TheConstants.{BACKEND_LIMIT};
ghost use Rattle.cj_outside.specs.Memory.{State};
ghost use Rattle.cj_board.specs.Seats.{board_id, pass_board};
ghost use Rattle.cj_flaky.specs.FlakyBackends.{fresh_over};
ghost use Rattle.cj_mem.specs.MemoryBackends.{fresh_state};
ghost use Rattle.cj_control.specs.Starting.{AreOfStarted};

use crate::steps::{Step, take_all};
use cj_control::{Control, Naming};
use cj_core::Shared;
use cj_flaky::Flaky;
use cj_mem::MemBackend;
use cj_model::{ListOf, NoMemory};
use cj_outside::MemStore;
use cj_place::Placement;
use cj_shelf::Shelf;
use cj_test_setup::{Setup, started};
use std::alloc::Global;
use std::marker::Brand;
use std::process::Abort;
use std::sync::Wait;
use std::sync::ledger::Blank;

/// A backend of the tests.
pub type TestBackend = Flaky<MemBackend>;

/// Which call of an object fails, counted from 1. None does if that is 0.
#[derive(Clone, Copy)]
pub struct Faults {
    /// The call of the second backend.
    pub backend: u64,
    /// The call of the log's store.
    pub log: u64,
    /// The call of the shelf's store.
    pub shelf: u64,
}

/// No call fails.
pub const NO_FAULTS: Faults = Faults {
    backend: 0,
    log: 0,
    shelf: 0,
};

/// This call of the second backend fails.
pub fn backend_fails(call: u64) -> Faults {
    Faults {
        backend: call,
        ..NO_FAULTS
    }
}

/// An empty backend that fails at this call.
fn backend(alloc: Global, call: u64) -> Result<TestBackend, NoMemory>
    ensures { IfOk result (λ backend. backend ≡ fresh_over fresh_state backend.fails) }
{
    let fails = Vec::from_array(alloc, [call])?;
    Ok(Flaky::new(MemBackend::new(alloc), ListOf::from_vec(fails)))
}

/// An empty store that fails at this call.
fn store(alloc: Global, call: u64) -> Result<MemStore, NoMemory>
    ensures { IfOk result (λ store. store.bytes ≡ []) }
{
    Ok(MemStore::new(Vec::new(alloc), Vec::from_array(alloc, [call])?))
}

/// An empty shelf.
fn shelf(rt: &impl Abort, alloc: Global, call: u64) -> Result<Shelf<MemStore>, NoMemory>
    ensures { IfOk result (λ shelf. shelf.dumps ≡ []) }
{
    match Shelf::open(alloc, store(alloc, call)?) {
        Ok(shelf) => Ok(shelf),
        Err(_) => panic!(rt; "the shelf is not opened"),
    }
}

/// Takes the steps at the cluster of these parts.
fn play_at<J: Naming, R: Wait + Abort>(
    rt: &R,
    alloc: Global,
    shared: Shared<TestBackend, MemStore>,
    blank: Blank,
    mut shelf: Shelf<MemStore>,
    steps: &[Step<'_>],
) -> Result<(), NoMemory>
    requires world { AreOfStarted true true (λ (store : State). store.faults) (board_id shared.board) (pass_board shared.pass) shared.book shared.recovery_log shared.cells.items shared.accounts shared.dumps }
    requires board { board_id shared.board ≡ J.board }
    requires layout { shared.book.state.layout ≡ J.layout }
    requires turn { (blank.name ≡ J.turn) × (blank.parts ≡ 1) }
    requires tells { J.tells ≡ true }
    requires emptied { (length shared.emptied.items ≡ 0) × (BACKEND_LIMIT ≤ vec_capacity shared.emptied) }
    requires shelf { shelf.dumps ≡ [] }
{
    let Ok((control, mut pass)) = Control::<J, TestBackend, MemStore>::start(alloc, shared, blank)
    else {
        return Err(NoMemory);
    };
    take_all(rt, alloc, &control, &mut pass, &mut shelf, steps)
}

/// Takes the steps at a new cluster with an empty shelf. These calls fail.
pub fn play<R: Wait + Abort>(
    rt: &R,
    alloc: Global,
    placement: Option<Placement>,
    faults: Faults,
    steps: &[Step<'_>],
) -> Result<(), NoMemory>
    requires two { IfSome placement (λ placement. length placement.names ≡ 2) }
{
    let Some(placement) = placement else {
        panic!(rt; "no placement")
    };
    let setup = Setup {
        placement,
        cache: 64,
        log: Vec::new(alloc),
        log_fails: Vec::from_array(alloc, [faults.log])?,
    };
    let one = backend(alloc, 0)?;
    let other = backend(alloc, faults.backend)?;
    let Some(shared) = started(alloc, setup, one, other) else {
        panic!(rt; "the world does not start")
    };
    let shelf = shelf(rt, alloc, faults.shelf)?;
    play_at::<Brand, R>(rt, alloc, shared, Blank::new(1), shelf, steps)
}

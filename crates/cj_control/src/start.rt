//! How a cluster that threads share is made of a world that has started, and how it is taken apart.

ghost use Rattle.std.specs.Prelude.{◌≡◌, ◌<◌, ◌≤◌, ◌+◌, ◌/◌, [], All, IfErr, IfOk, IfSome, length, vec_capacity};
ghost use mathlib.Core.List.{IsPrefix};
ghost use Rattle.cj_model.specs.declared.limits.TheConstants.{BACKEND_LIMIT};
ghost use Rattle.cj_board.specs.Seats.{board_id, front, pass_board, pass_view};
ghost use Rattle.cj_board.specs.Steps.{after_join};
ghost use Rattle.cj_board.specs.Views.{pass_without_tokens};
ghost use Rattle.cj_book.specs.News.{IsHeard};
ghost use Rattle.cj_cluster.specs.History.Legality.{IsLegal};
ghost use Rattle.cj_place.specs.Layouts.{placement_of};
ghost use Rattle.cj_replica.specs.Seated.{SeatedCell};
ghost use Rattle.cj_state.specs.Seats.{AreCellsAt};
ghost use Rattle.cj_pass.specs.Passes.{HasNotedMore};
ghost use Rattle.cj_control.specs.Starting.{AreOfStarted, FallTo, HoldFrom, IsCurrentAt};

use crate::control::{Control, Emptied};
use cj_backend::Backend;
use cj_book::Heard;
use cj_cache::Cache;
use cj_cache_shard::CacheShard;
use cj_locked::{LockedBook, Turn};
use cj_locked_cell::LockedCell;
use cj_locks::Locks;
use cj_model::{Duplicate, ListOf, NoMemory};
use cj_outside::Store;
use cj_pass::{NamedBoard, Naming, Pass};
use cj_place::Placement;
use cj_replica::Cell;
use cj_state::Shared;
use cj_workers::WorkLane;
use std::alloc::Global;
use std::sync::ledger::Blank;
use std::sync::{Condvar, Mutex};

/// The most answers that are kept in one shard, where the one goes that was used before all others. A greater cache
/// has `SHARD_COUNT` shards, and in each the one goes that was used before the others there.
const LONE_SHARD_LIMIT: u32 = 1024;

/// The shards of a cache of more answers.
const SHARD_COUNT: u32 = 16;

/// All memory that a start takes: a copy of the placement, the lanes of the backends' workers, and empty caches for the
/// shards of the result cache. Its empty lists have room for the locks of cells and shards, and for the cells.
#[derive(Drop)]
struct Room<J: Naming, B: Backend> {
    placement: Placement,
    lanes: Vec<WorkLane<J>>,
    caches: Vec<Cache>,
    shards: Vec<Mutex<CacheShard<J>>>,
    locks: Vec<Mutex<LockedCell<J, B>>>,
    unlocked: Vec<LockedCell<J, B>>,
}

/// Makes so many lanes, none of which has a worker.
fn lanes<J: Naming>(alloc: Global, count: usize) -> Result<Vec<WorkLane<J>>, NoMemory>
    ensures { IfOk result (λ lanes. length lanes.items ≡ count) }
{
    let mut lanes = Vec::with_capacity(alloc, count)?;
    for _ in 0..count {
        lanes.push_reserved(WorkLane::new(alloc)?);
    }
    Ok(lanes)
}

/// Returns in how many shards so many answers are kept.
fn shard_count(capacity: u32) -> u32 {
    match capacity {
        0 => 0,
        1..=LONE_SHARD_LIMIT => 1,
        _ => SHARD_COUNT,
    }
}

/// Returns how many of the answers shard `number` keeps at most. Together they keep `capacity`.
fn shard_capacity(capacity: u32, count: u32, number: u32) -> u32
    requires { number < count }
    ensures { result ≤ capacity / count + 1 }
{
    capacity / count + u32::from(number < capacity % count)
}

/// Makes the empty caches of the shards, which keep so many answers together.
fn caches(alloc: Global, capacity: u32) -> Result<Vec<Cache>, NoMemory>
    ensures { IfOk result (λ caches. All (λ c. c.entries ≡ []) caches.items) }
{
    let count = shard_count(capacity);
    let mut caches = Vec::new(alloc);
    for number in 0..count {
        caches.push(Cache::new(alloc, shard_capacity(capacity, count, number))?)?;
    }
    Ok(caches)
}

/// Makes the shards of these caches, each behind a lock, which have heard of what the pass has seen.
fn sharded<J: Naming>(
    board: &NamedBoard<J>,
    pass: &mut Pass<J>,
    heard: Heard,
    mut caches: Vec<Cache>,
    mut shards: Vec<Mutex<CacheShard<J>>>,
) -> Vec<Mutex<CacheShard<J>>>
    requires legal { IsLegal (front pass.old.seat) }
    requires heard { IsHeard (front pass.old.seat) heard }
    requires empty { All (λ c. c.entries ≡ []) caches.items }
    requires room { length shards.items + length caches.items ≤ vec_capacity shards }
    ensures same { pass_view pass.new.seat ≡ pass_view pass.old.seat }
{
    while let Some(cache) = caches.pop() {
        shards.push_reserved(Mutex::new(CacheShard::new(board, pass, cache, heard)));
    }
    shards
}

/// Takes the memory of a start with so many cells and a result cache of so many answers.
fn reserve<J: Naming, B: Backend + Drop>(
    alloc: Global,
    placement: &Placement,
    cells: usize,
    capacity: u32,
) -> Result<Room<J, B>, NoMemory>
    ensures placement { IfOk result (λ room. room.placement ≡ placement.now) }
    ensures lanes { IfOk result (λ room. length room.lanes.items ≡ cells) }
    ensures empty { IfOk result (λ room. (length room.locks.items ≡ 0) × (length room.unlocked.items ≡ 0)) }
    ensures room { IfOk result (λ room. (cells ≤ vec_capacity room.locks) × (cells ≤ vec_capacity room.unlocked)) }
    ensures caches { IfOk result (λ room. All (λ c. c.entries ≡ []) room.caches.items) }
    ensures shards { IfOk result (λ room. length room.shards.items + length room.caches.items ≤ vec_capacity room.shards) }
{
    let caches = caches(alloc, capacity)?;
    Ok(Room {
        placement: placement.copy(alloc)?,
        lanes: lanes(alloc, cells)?,
        shards: Vec::with_capacity(alloc, caches.len())?,
        caches,
        locks: Vec::with_capacity(alloc, cells)?,
        unlocked: Vec::with_capacity(alloc, cells)?,
    })
}

/// Puts each cell behind a lock, in the same order.
fn locked<J: Naming, B: Backend + Drop>(
    mut cells: Vec<Cell<B>>,
    mut locks: Vec<Mutex<LockedCell<J, B>>>,
) -> Vec<Mutex<LockedCell<J, B>>>
    requires at { AreCellsAt J.board cells.items }
    requires placed { All (λ (x : SeatedCell). x.state.placement ≡ placement_of J.layout) cells.items }
    requires empty { length locks.items ≡ 0 }
    requires room { length cells.items ≤ vec_capacity locks }
    ensures as_many { length result.items ≡ length cells.items }
{
    while let Some(cell) = cells.pop() {
        locks.push_reserved(Mutex::new(LockedCell::new(cell)));
    }
    locks.reverse();
    locks
}

/// Takes the cells out of their locks, the last one first, and has each tell the pass what it has seen. Then all that
/// they have seen is in front of the pass. None if a cell has not the number of its place, which never comes.
fn unlocked<J: Naming, B: Backend + Drop>(
    board: &NamedBoard<J>,
    pass: &mut Pass<J>,
    mut locks: Vec<Mutex<LockedCell<J, B>>>,
    mut cells: Vec<LockedCell<J, B>>,
) -> Option<Vec<LockedCell<J, B>>>
    requires empty { length cells.items ≡ 0 }
    requires room { length locks.items ≤ vec_capacity cells }
    requires legal { IsLegal (front pass.old.seat) }
    ensures more { HasNotedMore (pass_view pass.old.seat) (pass_view pass.new.seat) }
    ensures legal { IsLegal (front pass.new.seat) }
    ensures as_many { IfSome result (λ cells. length cells.items ≡ length locks.items) }
    ensures numbered { IfSome result (λ cells. FallTo (λ x. x.cell.state.b) 0 cells.items) }
    ensures seen { IfSome result (λ cells. All (λ x. IsPrefix x.cell.view.front (front pass.new.seat)) cells.items) }
{
    while let Some(lock) = locks.pop() {
        let mut cell = lock.into_inner();
        let (b, _) = cell.look(board, pass);
        if b as usize != locks.len() {
            return None;
        }
        cells.push_reserved(cell);
    }
    Some(cells)
}

/// Takes the backends out of their cells, the last cell first, which is that of backend 0.
fn backends_of<J: Naming, B: Backend + Drop>(
    board: &NamedBoard<J>,
    pass: &mut Pass<J>,
    mut cells: Vec<LockedCell<J, B>>,
    mut backends: Vec<B>,
) -> Vec<B>
    requires empty { length backends.items ≡ 0 }
    requires room { length cells.items ≤ vec_capacity backends }
    requires numbered { FallTo (λ x. x.cell.state.b) 0 cells.items }
    requires seen { All (λ x. IsPrefix x.cell.view.front (front pass.old.seat)) cells.items }
    ensures same { pass_view pass.new.seat ≡ pass_view pass.old.seat }
    ensures as_many { length result.items ≡ length cells.items }
    ensures current { HoldFrom (λ b x. IsCurrentAt B.tells (placement_of J.layout) (front pass.old.seat) b (B.told x)) 0 result.items }
{
    while let Some(cell) = cells.pop() {
        backends.push_reserved(cell.into_backend_at(board, pass));
    }
    backends
}

impl<J: Naming, B: Backend + Drop, S: Store + Drop> Control<J, B, S> {
    /// Puts the parts of a world that has started behind locks, with a turn that nobody has. The pass has seen the
    /// world's history. `blank` is a new ledger of one part. The world's dumps are dropped, of which it has none.
    ///
    /// Want of memory hands the log's store back, and drops the rest.
    pub fn start(
        alloc: Global,
        shared: Shared<B, S>,
        blank: Blank,
    ) -> Result<(Control<J, B, S>, Pass<J>), (NoMemory, S)>
        requires world { AreOfStarted B.tells S.tells S.faults (board_id shared.board) (pass_board shared.pass) shared.book shared.recovery_log shared.cells.items shared.accounts shared.dumps }
        requires board { board_id shared.board ≡ J.board }
        requires layout { shared.book.state.layout ≡ J.layout }
        requires turn { (blank.name ≡ J.turn) × (blank.parts ≡ 1) }
        requires tells { J.tells ≡ B.tells }
        requires emptied { (length shared.emptied.items ≡ 0) × (BACKEND_LIMIT ≤ vec_capacity shared.emptied) }
        ensures placement { IfOk result (λ started. started.0.locks.placement ≡ shared.book.state.layout) }
        ensures accounts { IfOk result (λ started. started.0.locks.accounts ≡ shared.accounts) }
        ensures seen { IfOk result (λ started. front started.1.seat ≡ shared.book.state.history) }
        ensures legal { IfOk result (λ started. IsLegal (front started.1.seat)) }
        ensures back { IfErr result (λ error. error.1 ≡ shared.recovery_log.log.store) }
    {
        let Shared {
            board,
            pass,
            book,
            recovery_log,
            cells,
            accounts,
            emptied,
            ..
        } = shared;
        let Ok(room) = reserve(alloc, book.placement(), cells.len(), book.cache_capacity()) else {
            return Err((NoMemory, recovery_log.into_log()));
        };
        let (ledger, share) = blank.open();
        let board = NamedBoard::new(board);
        let mut pass = Pass::new(pass);
        let mut book = LockedBook::new(book, ledger, Turn::new(share, recovery_log));
        let heard = book.heard(&board, &mut pass);
        let shards = sharded(&board, &mut pass, heard, room.caches, room.shards);
        let locks = Locks {
            alloc,
            board,
            shards,
            counts_reads: book.counts_reads(),
            book: Mutex::new(book),
            turn_back: Condvar::new(),
            settled: Condvar::new(),
            cells: locked(cells, room.locks),
            lanes: room.lanes,
            placement: room.placement,
            accounts,
        };
        let control = Control {
            locks,
            emptied: Mutex::new(Emptied {
                cells: room.unlocked,
                backends: emptied,
            }),
        };
        Ok((control, pass))
    }

    /// Lends the placement of tables on backends.
    pub fn placement(&self) -> &Placement
        ensures { result.now ≡ J.layout }
    {
        &self.locks.placement
    }

    /// Makes another pass that has seen the same, with the same notes. The fault tokens stay with the first.
    pub fn split(&self, pass: &mut Pass<J>) -> Pass<J>
        ensures pass { pass_view pass.new.seat ≡ pass_view pass.old.seat }
        ensures other { pass_view result.seat ≡ pass_without_tokens (pass_view pass.old.seat) }
    {
        self.locks.board.split(pass)
    }

    /// Joins another pass: this one has then seen what either has, with the notes and fault tokens of both.
    pub fn rejoin(&self, pass: &mut Pass<J>, other: Pass<J>)
        ensures pass { pass_view pass.new.seat ≡ after_join (pass_view pass.old.seat) (pass_view other.seat) }
        ensures more { HasNotedMore (pass_view pass.old.seat) (pass_view pass.new.seat) }
        ensures other { IsPrefix (front other.seat) (front pass.new.seat) }
    {
        self.locks.board.rejoin(pass, other);
    }

    /// Takes the cluster apart, and gives the backends in the order of their numbers. The pass has seen the history
    /// then, in which they are current. This takes no memory, and drops the log's store.
    ///
    /// None if a cell has not the number of its place. That never comes, but no type of a lock says so.
    pub fn into_backends(self, pass: &mut Pass<J>) -> Option<ListOf<B>>
        ensures more { HasNotedMore (pass_view pass.old.seat) (pass_view pass.new.seat) }
        ensures legal { IsLegal (front pass.new.seat) }
        ensures as_many { IfSome result (λ backends. length backends ≡ length self.locks.placement.names) }
        ensures current { IfSome result (HoldFrom (λ b x. IsCurrentAt B.tells (placement_of J.layout) (front pass.new.seat) b (B.told x)) 0) }
    {
        let Control { locks, emptied } = self;
        let Emptied {
            cells: empty,
            backends,
        } = emptied.into_inner();
        let Locks {
            board,
            book,
            cells,
            ..
        } = locks;
        let mut book = book.into_inner();
        book.tell(&board, pass);
        let cells = unlocked(&board, pass, cells, empty)?;
        let backends = backends_of(&board, pass, cells, backends);
        Some(ListOf::from_vec(backends))
    }
}

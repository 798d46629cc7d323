//! How a world starts, and how it is given up.

ghost use Rattle.std.specs.Prelude.{◌≡◌, ◌≤◌, ℕ, true, List, [], length, map, vec_capacity, IfOk, OnOk};
ghost use Rattle.cj_cluster.specs.History.Histories.{log};
ghost use Rattle.cj_core.specs.Starts.{started_backend, state_by, AreHolding, AreCurrent, CountsFaultOfStart, HaveBegunNone, KeepEachBegun, RefusesBytes, StartsFrom};
ghost use Rattle.cj_recovery.specs.Openings.{items_of};
ghost use Rattle.cj_state.specs.Beginnings.{AreEmpty, AreFresh};
ghost use Rattle.cj_board.specs.Seats.{board_id, book_board, book_view, pass_board, AreNewCells};
ghost use Rattle.cj_replica.specs.Cells.{CellState};
ghost use Rattle.cj_state.specs.Proving.Seated.{AreAt};
ghost use Rattle.cj_state.specs.Seats.{states_of, AreCellsAt};
ghost use Rattle.cj_state.specs.Sharing.{IsTakenApart, NumbersFollowHistory};
ghost use Rattle.cj_state.specs.Worlds.{log_view, IsFresh, IsWorld};
ghost use Rattle.cj_book.specs.BookLogs.{LogFollows};
ghost use Rattle.cj_book.specs.Books.{IsKeptIn};
ghost use Rattle.cj_log.specs.Logs.{KeepsItems};
ghost use Rattle.cj_outside.specs.Stores.{Only};
ghost use Rattle.cj_model.specs.Cluster.Caching.{empty_cache};
ghost use Rattle.cj_place.specs.Layouts.{placement_of};

use crate::emptied::Emptied;
use crate::world::World;
use cj_auth::Accounts;
use cj_backend::Backend;
use cj_board::{Board, BookSeat, CellSeat, Pass};
use cj_book::{Book, StartError};
use cj_model::{BACKEND_LIMIT, Duplicate, ListOf, NoMemory};
use cj_open_sessions::Sessions;
use cj_outside::Store;
use cj_place::Placement;
use cj_replica::Cell;
use cj_shelf::MemoryShelf;
use cj_start::bring_up;
use cj_state::{Backends, Parts, Shared, State};
use std::alloc::Global;

/// Moves the backends into cells by their numbers, at their seats. Their list is then empty.
fn cells_of<B: Backend + Drop>(
    alloc: Global,
    placement: &Placement,
    backends: &mut Vec<B>,
    board: &Board,
    mut seats: Vec<CellSeat>,
) -> Result<Vec<Cell<B>>, NoMemory>
    requires as_many { length backends.old.items ≡ length placement.now.names }
    requires none { HaveBegunNone (map B.begun backends.old.items) }
    requires nothing { AreEmpty B.tells (map B.told backends.old.items) }
    requires seats { (length seats.items ≡ length backends.old.items) × AreNewCells (board_id board.now) 0 seats.items }
    ensures few { OnOk result (length placement.now.names ≤ BACKEND_LIMIT) }
    ensures empty { OnOk result (backends.new.items ≡ []) }
    ensures fresh { IfOk result (λ cells. AreFresh (placement_of placement.now) (states_of cells.items)) }
    ensures same { IfOk result (λ cells. map started_backend (states_of cells.items) ≡ map (state_by B.told B.faults B.asks B.login B.arming) backends.old.items) }
    ensures at { IfOk result (λ cells. AreCellsAt (board_id board.now) cells.items) }
{
    let mut cells = Vec::with_capacity(alloc, placement.count() as usize)?;
    backends.reverse();
    seats.reverse();
    while let Some(backend) = backends.pop() {
        let Some(seat) = seats.pop() else {
            unreachable!()
        };
        let b = cells.len() as u8;
        let placement = placement.copy(alloc)?;
        cells.push_reserved(Cell::new(alloc, b, placement, backend, seat));
    }
    Ok(cells)
}

/// What a world is made of, without its book: the backends in their cells, at the seats of a new
/// board.
struct Seated<B: Backend> {
    board: Board,
    book_seat: BookSeat,
    pass: Pass,
    cells: Vec<Cell<B>>,
    emptied: Emptied<B>,
    sessions: Sessions,
    dumps: MemoryShelf,
}

/// Makes a board, and moves the backends into cells at its seats.
fn seat_all<B: Backend + Drop>(
    alloc: Global,
    placement: &Placement,
    backends: Backends<B>,
) -> Result<Seated<B>, NoMemory>
    requires as_many { length backends ≡ length placement.now.names }
    requires none { HaveBegunNone (map B.begun backends) }
    requires nothing { AreEmpty B.tells (map B.told backends) }
    ensures few { OnOk result (length placement.now.names ≤ BACKEND_LIMIT) }
    ensures at { IfOk result (λ s. AreAt (board_id s.board) (pass_board s.pass) (book_board s.book_seat) s.cells.items) }
    ensures unseen { IfOk result (λ s. ((book_view s.book_seat).front ≡ []) × ((book_view s.book_seat).given ≡ [])) }
    ensures none_given { IfOk result (λ s. (book_view s.book_seat).last_given ≡ 0) }
    ensures fresh { IfOk result (λ s. AreFresh (placement_of placement.now) (states_of s.cells.items)) }
    ensures empty { IfOk result (λ s. AreEmpty B.tells (map (λ (x : CellState). x.told) (states_of s.cells.items))) }
    ensures same { IfOk result (λ s. map started_backend (states_of s.cells.items) ≡ map (state_by B.told B.faults B.asks B.login B.arming) backends) }
    ensures none { IfOk result (λ s. (s.sessions ≡ []) × (s.dumps ≡ [])) }
{
    let mut list = backends.into_vec();
    let (board, book_seat, seats, pass) = Board::new(alloc, placement.count())?;
    let cells = cells_of(alloc, placement, &mut list, &board, seats.into_vec())?;
    Ok(Seated {
        board,
        book_seat,
        pass,
        cells,
        emptied: Emptied::new(list)?,
        sessions: Sessions::new(alloc)?,
        dumps: MemoryShelf::new(alloc)?,
    })
}

/// Moves the backends out of their cells into an empty list, in the order of numbers.
fn backends_of<B: Backend + Drop>(mut cells: Vec<Cell<B>>, mut backends: Vec<B>) -> Vec<B>
    requires empty { backends.items ≡ [] }
    requires room { length cells.items ≤ vec_capacity backends }
    ensures same { map (state_by B.told B.faults B.asks B.login B.arming) result.items ≡ map started_backend (states_of cells.items) }
    ensures begun { KeepEachBegun (states_of cells.items) (map B.begun result.items) }
{
    cells.reverse();
    while let Some(cell) = cells.pop() {
        backends.push_reserved(cell.into_backend());
    }
    backends
}

impl<B: Backend + Drop, S: Store + Drop> World<B, S> {
    /// Starts a world from its recovery log, with backends that are empty. Each backend replays the
    /// whole log, and those that don't fail are enabled in the order of their numbers. Then each
    /// transaction that the log leaves open is ended. No session is open, and there is no dump. The
    /// result cache and the balancer are those that were handed in.
    ///
    /// A backend that fails is out, and the start goes on without it. One that runs out of memory
    /// ends the start with `NoMemory`. An error drops the backends and hands the log's store back,
    /// in which nothing is lost. `BadRecord` and `BadEntry` come exactly if the bytes are no
    /// history's, and leave them as they are. `StoreFault` counts a fault of the store.
    pub fn start(
        alloc: Global,
        parts: Parts,
        log: S,
        backends: Backends<B>,
    ) -> Result<World<B, S>, (StartError, S)>
        requires as_many { length backends ≡ length parts.book.placement.names }
        requires registered { parts.accounts.backends ≡ length parts.book.placement.names }
        requires empty { AreEmpty B.tells (map B.told backends) }
        requires none { HaveBegunNone (map B.begun backends) }
        requires disk { S.tells ≡ true → Only (S.held log) (S.may log) }
        requires cache { parts.book.cache ≡ empty_cache parts.book.cache.capacity }
        ensures started { IfOk result (StartsFrom (λ items. S.tells ≡ true → KeepsItems (S.held log) items) (placement_of parts.book.placement) (map (state_by B.told B.faults B.asks B.login B.arming) backends)) }
        ensures setup { IfOk result (λ world. world.setup ≡ record { names = parts.book.placement.names; accounts = parts.accounts }) }
        ensures numbers { IfOk result NumbersFollowHistory }
        ensures cache { IfOk result (λ world. world.cache ≡ parts.book.cache) }
        ensures balance { IfOk result (λ world. world.balance ≡ parts.book.balancer) }
        ensures kept { S.tells ≡ true → IfOk result (λ world. KeepsItems world.recovery_log.bytes (items_of world.core.history)) }
        ensures bytes { S.tells ≡ true → RefusesBytes S.held (S.held log) result }
        ensures cause { CountsFaultOfStart S.faults (S.faults log) result }
    {
        let Parts { book, accounts } = parts;
        let Ok(seated) = seat_all(alloc, &book.placement, backends) else {
            return Err((StartError::NoMemory, log));
        };
        let Seated {
            board,
            book_seat,
            pass,
            cells,
            emptied,
            sessions,
            dumps,
        } = seated;
        let (book, recovery_log) = Book::open(alloc, book, log, &board, book_seat)?;
        let mut state = State::new(
            alloc,
            board,
            pass,
            book,
            recovery_log,
            cells,
            sessions,
            accounts,
            dumps,
        );
        let brought = bring_up(&mut state);
        state.legal();
        match brought {
            Ok(()) => Ok(World { state, emptied }),
            Err(error) => Err((error, state.into_log())),
        }
    }

    /// Takes the world apart and returns the log's store, as it is. Its bytes keep the history, and
    /// so does whatever a crash at this moment leaves of them.
    pub fn into_log(self) -> S
        ensures faults { S.faults result ≡ self.recovery_log.faults }
        ensures bytes { S.held result ≡ self.recovery_log.bytes }
        ensures kept { S.tells ≡ true → IsKeptIn (S.held result) self.core.history }
        ensures stop { S.tells ≡ true → (image : List ℕ) → S.may result image → IsKeptIn image self.core.history }
    {
        let World { state, .. } = self;
        state.into_log()
    }

    /// Takes the world apart: its board, the book and the cells with seats there, the recovery log,
    /// its accounts and its dumps. This takes no memory.
    pub fn into_shared(self) -> Shared<B, S>
        ensures world { IsWorld B.tells self }
        ensures fresh { IsFresh B.tells self }
        ensures parts { IsTakenApart B.tells self (board_id result.board) (pass_board result.pass) result.book result.cells.items result.accounts result.dumps }
        ensures recovery_log { log_view S.faults S.held result.recovery_log.log ≡ self.recovery_log }
        ensures follows { LogFollows S.tells S.faults result.recovery_log result.book.state.history }
        ensures emptied { result.emptied.items ≡ [] }
        ensures room { BACKEND_LIMIT ≤ vec_capacity result.emptied }
    {
        let World { state, emptied } = self;
        state.into_shared(emptied.into_vec())
    }

    /// Takes the world apart and returns the backends in the order of their numbers, as they are.
    /// This takes no memory.
    pub fn into_backends(self) -> Backends<B>
        ensures same { map (state_by B.told B.faults B.asks B.login B.arming) result ≡ map started_backend self.cells }
        ensures begun { KeepEachBegun self.cells (map B.begun result) }
        ensures holding { AreHolding B.tells self.core (map B.told result) }
        ensures current { AreCurrent B.tells self.core (map B.told result) }
    {
        let World { state, emptied } = self;
        ListOf::from_vec(backends_of(state.into_cells(), emptied.into_vec()))
    }
}

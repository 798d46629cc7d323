//! The calls of one cell, found by the number of its backend.

ghost use Rattle.std.specs.Prelude.{◌≡◌, ◌↔◌, ◌<◌, ◌≤◌, ◌==◌, ◌&&◌, ℕ, IsErrOf, IsTrue, length, not, slice_get, slice_index_or, None, Some, true};
ghost use mathlib.Core.List.{IsPrefix};
ghost use Rattle.atomic_table.specs.Seated.{TableId};
ghost use Rattle.cj_model.specs.declared.request.Request.TheVariants as request;
ghost use Rattle.cj_model.specs.Cluster.Masks.{in_mask};
ghost use Rattle.cj_model.specs.Cluster.Placements.{part};
ghost use Rattle.cj_model.specs.Database.Storable.{IsStorable};
ghost use Rattle.cj_model.specs.Sql.WrittenRequests.{IsWritten};
ghost use Rattle.cj_backend.specs.Backends.{arming_after};
ghost use Rattle.cj_board.specs.Points.{fault_tokens_of};
ghost use Rattle.cj_board.specs.Seats.{board_id, pass_board};
ghost use Rattle.cj_cluster.specs.History.Histories.{database_after, log};
ghost use Rattle.cj_replica.specs.Cells.{CellState, GivesContents, LoadsDatabase, ReadsAnswer};
ghost use Rattle.cj_replica.specs.Seated.{SeatedCell};
ghost use Rattle.cj_state.specs.Proving.Seated.{AreAt, AreNumbered, HasLearned, SpendsAtMostOne};
ghost use Rattle.cj_state.specs.Proving.Taking.{CanTake, TookEntry};
ghost use Rattle.cj_state.specs.Proving.Taking as taking;
ghost use Rattle.cj_state.specs.Effects.{Covers, Notes};
ghost use Rattle.cj_state.specs.Seats.{states_of, AreCellsAt, ChangesCell};
ghost use Rattle.cj_cluster.specs.Moves.Moves as moves;

use crate::hearing::{hear, tell};
use cj_auth::Accounts;
use cj_backend::Backend;
use cj_board::{Board, Pass};
use cj_book::{Book, BookError};
use cj_cluster::Did;
use cj_model::{Asked, Db, NoMemory, Select, Text};
use cj_replica::{Caught, Cell, CellError, CellReadError};
use thiserror::Error;

/// Why a backend gave a session no answer.
#[derive(Clone, Copy, Debug, PartialEq, Eq, Error)]
pub enum AskError {
    #[error("the backend is out")]
    Out,
    /// The backend is at this position, below the least that the session needs.
    #[error("the backend is behind")]
    Behind(u64),
    /// The backend failed, and the history has an event of it.
    #[error("the backend failed")]
    Failed,
    /// The backend failed, and the history, of so many events, has no room for an event of it.
    #[error("the backend failed, and the history of {0} events is full")]
    Unnoted(u64),
    #[error("out of memory")]
    NoMemory,
}

fn did_of(caught: Result<Caught, CellError>) -> Did
    ensures { result ≡ taking.did_of caught }
{
    match caught {
        Ok(Caught::Skipped) => Did::Skipped,
        Ok(Caught::Did(outcome)) => Did::Done(outcome),
        Err(CellError::Failed) => Did::Failed,
        Err(CellError::Starved) => Did::Starved,
    }
}

/// Whether `mask` has every backend that `other` has.
pub fn covers(mask: u32, other: u32) -> bool
    ensures { IsTrue result ↔ Covers mask other }
{
    other & !mask == 0
}

/// Returns the mask without backend `b`, which it has.
pub fn without_bit(mask: u32, b: u8) -> u32
    requires within { b < 32 }
    requires has { in_mask mask b ≡ true }
    ensures less { result < mask }
    ensures bits { (k : ℕ) → in_mask result k ≡ (in_mask mask k && not (k == b)) }
{
    mask & !(1 << b)
}

/// Returns the position, or 0 if there is none.
pub fn place(position: Option<u64>) -> u64
    ensures { result ≡ moves.position_or_zero position }
{
    position.unwrap_or(0)
}

/// Has backend `b` carry out or skip the entry after its position, under the login that the entry's
/// user has there. The log has such an entry. The book then knows the new position. A backend that
/// failed or ran out of memory is out.
pub fn take<B: Backend>(
    board: &Board,
    pass: &mut Pass,
    book: &mut Book,
    cells: &mut Vec<Cell<B>>,
    accounts: &Accounts,
    b: u8,
) -> Did
    requires can { CanTake B.tells book.old.state.layout book.old.state.history (states_of cells.old.items) b }
    requires registered { b < accounts.now.backends }
    requires numbered { AreNumbered (states_of cells.old.items) }
    requires at { AreAt (board_id board.now) (pass_board pass.old) book.old.board cells.old.items }
    ensures at { AreAt (board_id board.now) (pass_board pass.new) book.new.board cells.new.items }
    ensures heard { HasLearned book.old book.new }
    ensures took { TookEntry B.tells accounts.now.accounts book.old.state.layout book.old.state.history (states_of cells.old.items) b result (states_of cells.new.items) }
    ensures token { result ≡ Did.Failed → 0 < fault_tokens_of b book.new.view.fault_tokens }
{
    tell(board, pass, book, cells, b);
    let did = catch_up_at(board, book, cells, accounts, b);
    hear(board, pass, book, cells, b);
    did
}

fn catch_up_at<B: Backend>(
    board: &Board,
    book: &Book,
    cells: &mut Vec<Cell<B>>,
    accounts: &Accounts,
    b: u8,
) -> Did
    requires can { CanTake B.tells book.now.state.layout book.now.state.history (states_of cells.old.items) b }
    requires registered { b < accounts.now.backends }
    requires at { AreCellsAt (board_id board.now) cells.old.items }
    requires told { (d : SeatedCell) → IsPrefix book.now.state.history (slice_index_or cells.old.items b d).view.front }
    ensures at { AreCellsAt (board_id board.now) cells.new.items }
    ensures took { TookEntry B.tells accounts.now.accounts book.now.state.layout book.now.state.history (states_of cells.old.items) b result (states_of cells.new.items) }
    ensures token { result ≡ Did.Failed → (x : SeatedCell) → slice_get cells.new.items b ≡ Some x → 0 < fault_tokens_of b x.view.fault_tokens }
{
    let next = place(cells[b as usize].position()) + 1;
    let Some(entry) = book.entry(next) else {
        unreachable!()
    };
    let login = accounts.mapped(&entry.user, b);
    did_of(cells[b as usize].catch_up(board, next, entry, login))
}

/// Asks backend `b` a query in transaction `tx`, 0 for none, under this login. Gives the answer and
/// the position, which is at least `least`. Errors are those of `Cell::read`; the book learns of a
/// failure.
pub fn read_at<B: Backend>(
    board: &Board,
    pass: &mut Pass,
    book: &mut Book,
    cells: &mut Vec<Cell<B>>,
    b: u8,
    login: &Text,
    tx: u64,
    select: &Select,
    least: u64,
) -> Result<(Asked, u64), CellReadError>
    requires within { b < length cells.old.items }
    requires written { IsWritten (request.Select select.now) }
    requires numbered { AreNumbered (states_of cells.old.items) }
    requires at { AreAt (board_id board.now) (pass_board pass.old) book.old.board cells.old.items }
    ensures at { AreAt (board_id board.now) (pass_board pass.new) book.new.board cells.new.items }
    ensures heard { HasLearned book.old book.new }
    ensures read { ChangesCell (states_of cells.old.items) b (λ x y. ReadsAnswer x login.now tx select.now least result y) (states_of cells.new.items) }
    ensures token { IsErrOf result CellReadError.Failed → fault_tokens_of b book.old.view.fault_tokens < fault_tokens_of b book.new.view.fault_tokens }
{
    let answer = cells[b as usize].read(board, login, tx, select, least);
    hear(board, pass, book, cells, b);
    answer
}

/// Asks backend `b` for all that it holds, drafts included.
pub fn contents_at<B: Backend>(
    board: &Board,
    cells: &mut Vec<Cell<B>>,
    b: u8,
) -> Result<Db, CellError>
    requires within { b < length cells.old.items }
    requires at { AreCellsAt (board_id board.now) cells.old.items }
    ensures at { AreCellsAt (board_id board.now) cells.new.items }
    ensures asked { ChangesCell (states_of cells.old.items) b (λ x y. GivesContents x result y) (states_of cells.new.items) }
{
    cells[b as usize].contents(board)
}

/// Makes the next call of backend `b` fail, if it can be armed.
pub fn arm_at<B: Backend>(cells: &mut Vec<Cell<B>>, b: u8)
    requires within { b < length cells.old.items }
    ensures boards { (id : TableId) → AreCellsAt id cells.old.items → AreCellsAt id cells.new.items }
    ensures armed { ChangesCell (states_of cells.old.items) b (λ x y. y ≡ record x { arming = arming_after B.can_be_armed x.arming }) (states_of cells.new.items) }
{
    cells[b as usize].arm();
}

/// Replaces the contents of backend `b`, which is out, by its part of the database after `position`
/// entries. Then it is at that position. After an error it is still out.
pub fn load_at<B: Backend>(
    board: &Board,
    pass: &mut Pass,
    book: &mut Book,
    cells: &mut Vec<Cell<B>>,
    b: u8,
    db: Db,
    position: u64,
) -> Result<(), CellError>
    requires within { b < length cells.old.items }
    requires at { AreAt (board_id board.now) (pass_board pass.old) book.old.board cells.old.items }
    requires out { (d : CellState) → (slice_index_or (states_of cells.old.items) b d).position ≡ None }
    requires storable { IsStorable db }
    requires logged { position ≤ length (log book.old.state.history) }
    requires held { (d : CellState) → B.tells ≡ true → db ≡ part (slice_index_or (states_of cells.old.items) b d).placement (slice_index_or (states_of cells.old.items) b d).b (database_after (log book.old.state.history) position) }
    ensures at { AreAt (board_id board.now) (pass_board pass.new) book.new.board cells.new.items }
    ensures heard { HasLearned book.old book.new }
    ensures loaded { ChangesCell (states_of cells.old.items) b (λ x y. LoadsDatabase B.tells x db position result y) (states_of cells.new.items) }
{
    tell(board, pass, book, cells, b);
    cells[b as usize].load(board, db, position)
}

/// Says why a backend gave no answer. A failure becomes an event of the history, if that has room;
/// noting it takes no memory.
pub fn noted(
    board: &Board,
    book: &mut Book,
    session: u64,
    seq: u64,
    b: u8,
    error: CellReadError,
) -> AskError
    requires at { book.old.board ≡ board_id board.now }
    requires pending { book.old.pending ≡ None }
    requires token { error ≡ CellReadError.Failed → 0 < fault_tokens_of b book.old.view.fault_tokens }
    ensures notes { Notes book.old.state session seq b error result book.new.state }
    ensures at { book.new.board ≡ book.old.board }
    ensures pending { book.new.pending ≡ book.old.pending }
    ensures given { book.new.view.given ≡ book.old.view.given }
    ensures last_given { book.new.view.last_given ≡ book.old.view.last_given }
    ensures tokens { SpendsAtMostOne error b book.old.view.fault_tokens book.new.view.fault_tokens }
{
    match error {
        CellReadError::Out => AskError::Out,
        CellReadError::Behind(position) => AskError::Behind(position),
        CellReadError::NoMemory => AskError::NoMemory,
        CellReadError::Failed => match book.read_failed(board, session, seq, b) {
            Ok(()) => AskError::Failed,
            Err(BookError::HistoryFull(events)) => AskError::Unnoted(events),
            Err(BookError::InProgress(_)) => unreachable!(),
            Err(BookError::NoBackend) => unreachable!(),
            Err(BookError::LogFault) => unreachable!(),
            Err(BookError::NoMemory) => unreachable!(),
        },
    }
}

//! The parts of which a world is made, and those into which it is taken apart.

use cj_auth::Accounts;
use cj_backend::Backend;
use cj_board::{Board, Pass};
use cj_book::{Book, BookLog, BookParts};
use cj_model::ListOf;
use cj_outside::Store;
use cj_replica::Cell;
use cj_shelf::MemoryShelf;

/// What a world is made of, without its backends. Each account has a login at each backend.
#[derive(Drop)]
pub struct Parts {
    pub book: BookParts,
    pub accounts: Accounts,
}

/// Backends in the order of their numbers.
pub type Backends<B> = ListOf<B>;

/// A world taken apart: its board, the book and the cells with seats there, and the recovery log. The
/// book and each cell may get a lock of their own.
#[derive(Drop)]
pub struct Shared<B: Backend, S: Store> {
    pub board: Board,
    /// The pass that carries knowledge from one seat to another.
    pub pass: Pass,
    pub book: Book,
    /// The recovery log, which follows the book's history.
    pub recovery_log: BookLog<S>,
    /// The cells, by the numbers of their backends.
    pub cells: Vec<Cell<B>>,
    pub accounts: Accounts,
    pub dumps: MemoryShelf,
    /// An empty list with room for the most backends, so that giving the backends up takes no
    /// memory.
    pub emptied: Vec<B>,
}

// A new board, and its seats.
ghost use Rattle.std.specs.Prelude.{◌≡◌, ◌<◌, ◌≤◌, length, IfOk};
ghost use Rattle.cj_model.specs.declared.limits.TheConstants.{BACKEND_LIMIT};
ghost use Rattle.cj_board.specs.Seats.{board_id, book_board, pass_board, cell_board, book_view, cell_view, pass_view, AreNewCells};
ghost use Rattle.cj_board.specs.Steps.{after_making_cell};
ghost use Rattle.cj_board.specs.Views.{book_with_cells, cells_made, empty_pass, next_cell_of};

use crate::rule::SplitCell;
use crate::seats::{Board, BookSeat, CellSeat, CellSeats, Pass};
use atomic_table::Table;
use cj_model::{ListOf, NoMemory};
use std::alloc::Global;

impl Board {
    /// Makes a board of an empty history, with its seats: of the book, of a cell for each of the 1 to 16 backends,
    /// and of a first pass. Fails if memory runs out; no other call of a board allocates.
    pub fn new(alloc: Global, backends: u8) -> Result<(Board, BookSeat, CellSeats, Pass), NoMemory>
        requires { (1 ≤ backends) × (backends ≤ BACKEND_LIMIT) }
        ensures board { IfOk result (λ r. (r.0.backends ≡ backends) × (book_board r.1 ≡ board_id r.0) × (pass_board r.3 ≡ board_id r.0)) }
        ensures views { IfOk result (λ r. (book_view r.1 ≡ book_with_cells backends) × (pass_view r.3 ≡ empty_pass)) }
        ensures cells { IfOk result (λ r. (length r.2 ≡ backends) × AreNewCells (board_id r.0) 0 r.2) }
    {
        let words = vec![in alloc; 0u64; 2 * usize::from(backends) + 1]?;
        let (table, seat) = Table::of_words(alloc, words.as_slice(), &u64::from(backends))?;
        let board = Board { table, backends };
        let mut book = BookSeat { events: 0, seat };
        let cells = board.make_cells(alloc, &mut book)?;
        let seat = board.split_without_tokens(&mut book.seat);
        let pass = Pass { seat };
        Ok((board, book, ListOf::from_vec(cells), pass))
    }

    fn make_cells(&self, alloc: Global, s: &mut BookSeat) -> Result<Vec<CellSeat>, NoMemory>
        requires board { book_board s.old ≡ board_id self.now }
        requires none { book_view s.old ≡ book_with_cells 0 }
        ensures board { book_board s.new ≡ book_board s.old }
        ensures cells { IfOk result (λ r. (book_view s.new ≡ book_with_cells self.now.backends) × (length r.items ≡ self.now.backends) × AreNewCells (board_id self.now) 0 r.items) }
    {
        let mut cells = Vec::new(alloc);
        for b in 0..self.backends {
            let cell = self.make_cell(s, b);
            cells.push(cell)?;
        }
        Ok(cells)
    }

    fn make_cell(&self, s: &mut BookSeat, b: u8) -> CellSeat
        requires board { book_board s.old ≡ board_id self.now }
        requires next { (cells_made (book_view s.old).role ≡ b) × (b < self.now.backends) }
        ensures board { (book_board s.new ≡ book_board s.old) × (cell_board result ≡ book_board s.old) }
        ensures book { book_view s.new ≡ after_making_cell (book_view s.old) }
        ensures cell { (result.b ≡ b) × (cell_view result ≡ next_cell_of (book_view s.old)) }
    {
        let seat = self.table.shared.split_seat::<SplitCell>(&mut s.seat);
        CellSeat { b, seat }
    }
}

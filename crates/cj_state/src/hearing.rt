//! What the book and the cells learn of each other, by way of a pass.

ghost use Rattle.std.specs.Prelude.{◌≡◌, ◌<◌, ◌≤◌, length, slice_index_or};
ghost use mathlib.Core.List.{IsPrefix};
ghost use Rattle.cj_board.specs.Seats.{board_id, pass_board};
ghost use Rattle.cj_model.specs.declared.limits.TheConstants.{BACKEND_LIMIT};
ghost use Rattle.cj_replica.specs.Seated.{SeatedCell};
ghost use Rattle.cj_state.specs.Proving.Seated.{AreAt, AreNumbered, HasLearned, HasLearnedOf, KnowsPositions};
ghost use Rattle.cj_state.specs.Seats.{states_of};

use cj_backend::Backend;
use cj_board::{Board, Pass};
use cj_book::Book;
use cj_replica::Cell;

/// Lets the cell of backend `b` see the whole history of the book. Positions and contents stay.
pub fn tell<B: Backend>(
    board: &Board,
    pass: &mut Pass,
    book: &mut Book,
    cells: &mut Vec<Cell<B>>,
    b: u8,
)
    requires within { b < length cells.old.items }
    requires at { AreAt (board_id board.now) (pass_board pass.old) book.old.board cells.old.items }
    ensures at { AreAt (board_id board.now) (pass_board pass.new) book.new.board cells.new.items }
    ensures heard { HasLearned book.old book.new }
    ensures cells { states_of cells.new.items ≡ states_of cells.old.items }
    ensures told { (d : SeatedCell) → IsPrefix book.old.state.history (slice_index_or cells.new.items b d).view.front }
{
    book.tell(board, pass);
    cells[b as usize].brief(board, pass);
}

/// Lets the book learn the position of backend `b` and its faults. Positions and contents stay.
pub fn hear<B: Backend>(
    board: &Board,
    pass: &mut Pass,
    book: &mut Book,
    cells: &mut Vec<Cell<B>>,
    b: u8,
)
    requires within { b < length cells.old.items }
    requires numbered { AreNumbered (states_of cells.old.items) }
    requires at { AreAt (board_id board.now) (pass_board pass.old) book.old.board cells.old.items }
    ensures at { AreAt (board_id board.now) (pass_board pass.new) book.new.board cells.new.items }
    ensures heard { HasLearnedOf book.old cells.old.items b book.new }
    ensures cells { states_of cells.new.items ≡ states_of cells.old.items }
{
    cells[b as usize].report(board, pass);
    book.learn(board, pass);
}

/// Lets the book learn the position and the faults of each backend. Positions and contents stay.
pub fn hear_all<B: Backend>(
    board: &Board,
    pass: &mut Pass,
    book: &mut Book,
    cells: &mut Vec<Cell<B>>,
)
    requires few { length cells.old.items ≤ BACKEND_LIMIT }
    requires at { AreAt (board_id board.now) (pass_board pass.old) book.old.board cells.old.items }
    requires numbered { AreNumbered (states_of cells.old.items) }
    ensures at { AreAt (board_id board.now) (pass_board pass.new) book.new.board cells.new.items }
    ensures heard { HasLearned book.old book.new }
    ensures cells { states_of cells.new.items ≡ states_of cells.old.items }
    ensures known { KnowsPositions book.new (states_of cells.old.items) (length cells.old.items) }
{
    let count = cells.len() as u8;
    for b in 0..count {
        hear(board, pass, book, cells, b);
    }
}

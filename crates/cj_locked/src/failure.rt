//! A failure of a backend in a query.

ghost use Rattle.std.specs.Prelude.{◌≡◌, ◌<◌, ℕ, None};
ghost use Rattle.cj_model.specs.declared.limits.TheConstants.{BACKEND_LIMIT};
ghost use Rattle.cj_model.specs.Cluster.Balancing.{one_less};
ghost use Rattle.cj_cluster.specs.History.Histories.{events_left};
ghost use Rattle.cj_cluster.specs.History.Legality.{IsLegal};
ghost use Rattle.cj_board.specs.Points.{fault_tokens_of};
ghost use Rattle.cj_board.specs.Seats.{board_id, front, pass_view};
ghost use Rattle.cj_place.specs.Layouts.{placement_of};
ghost use Rattle.cj_book.specs.Books.{placement_at};
ghost use Rattle.cj_book.specs.Seated.{GivesOwnPassesOnly};
ghost use Rattle.cj_locked.specs.Failures.{FailsAt, FailsSince};
ghost use Rattle.cj_locked.specs.Locked.{LastIsNoted};
ghost use Rattle.cj_pass.specs.Passes.{HasSeenMore};

use crate::book::LockedBook;
use cj_board::Board;
use cj_book::Book;
use cj_model::Select;
use cj_outside::Store;
use cj_pass::{NamedBoard, Naming, Pass};

/// What became of a failure in a query.
#[derive(Clone, Copy)]
pub enum ReadFailure {
    /// The history tells of it.
    Noted,
    /// The history has no room for it, and so many events.
    Full(u64),
    /// The history has no room for it, and no enabled backend serves the query by now.
    Unserved,
}

/// Says what becomes of a failure for which the history has no room.
fn unnoted(book: &Book, select: &Select) -> ReadFailure
    requires full { events_left book.now.state.history < 1 }
    ensures { (s q b : ℕ) → FailsAt (placement_at book.now.state) book.now.state.history s q b select.now result book.now.state.history }
{
    let serving = book.candidates(select.tables.as_slice());
    if serving == 0 {
        ReadFailure::Unserved
    } else {
        ReadFailure::Full(book.events())
    }
}

/// Notes that backend `b` failed in request `seq` of the session. The book has a fault token of that backend.
fn fail_now(
    book: &mut Book,
    board: &Board,
    session: u64,
    seq: u64,
    b: u8,
    select: &Select,
) -> ReadFailure
    requires board { book.old.board ≡ board_id board.now }
    requires pending { book.old.pending ≡ None }
    requires fault { 0 < fault_tokens_of b book.old.view.fault_tokens }
    ensures fails { FailsAt (placement_at book.old.state) book.old.state.history session seq b select.now result book.new.state.history }
    ensures state { book.new.state ≡ record book.old.state { history = book.new.state.history } }
    ensures board { book.new.board ≡ book.old.board }
    ensures pending { book.new.pending ≡ book.old.pending }
    ensures still_gives { GivesOwnPassesOnly book.old → GivesOwnPassesOnly book.new }
    ensures noted { LastIsNoted book.old.view → LastIsNoted book.new.view }
{
    match book.read_failed(board, session, seq, b) {
        Ok(()) => ReadFailure::Noted,
        Err(_) => unnoted(book, select),
    }
}

impl<J: Naming, S: Store + Drop> LockedBook<J, S> {
    /// Notes that backend `b` failed in request `seq` of the session, and that the read there has ended. The pass has
    /// a fault token of that backend, and nothing is on its way into the recovery log.
    pub fn fail_read(
        &mut self,
        board: &NamedBoard<J>,
        pass: &mut Pass<J>,
        session: u64,
        seq: u64,
        b: u8,
        select: &Select,
    ) -> ReadFailure
        requires pending { self.old.book.pending ≡ None }
        requires fault { 0 < fault_tokens_of b (pass_view pass.old.seat).fault_tokens }
        requires below { b < BACKEND_LIMIT }
        ensures fails { FailsSince (placement_of J.layout) (front pass.old.seat) (front pass.new.seat) session seq b select.now result }
        ensures state { self.new.book.state ≡ record self.old.book.state { history = front pass.new.seat; balance = record self.old.book.state.balance { standing = record self.old.book.state.balance.standing { pending = one_less self.old.book.state.balance.standing.pending b } } } }
        ensures seen { HasSeenMore (pass_view pass.old.seat) (pass_view pass.new.seat) }
        ensures legal { IsLegal (front pass.new.seat) }
        ensures log { self.new.log ≡ self.old.log }
        ensures pending { self.new.book.pending ≡ None }
    {
        self.book.learn(&board.board, &mut pass.seat);
        let failure = fail_now(&mut self.book, &board.board, session, seq, b, select);
        self.book.ended(b);
        self.book.legal();
        self.book.tell(&board.board, &mut pass.seat);
        failure
    }
}

//! The own pass that counts the events of an entry's session.

ghost use Rattle.std.specs.Prelude.{List, ℕ, ◌≡◌, ◌≢◌, ◌<◌, ◌++◌, ◌∷◌, [], false, None, Some};
ghost use Rattle.atomic_table.specs.Seated.{TableId};
ghost use Rattle.cj_cluster.specs.History.Histories.{notes_failure};
ghost use Rattle.cj_cluster.specs.History.Legality.{IsLegal};
ghost use Rattle.cj_board.specs.Seats.{board_id, book_board, book_view, history, pass_board, pass_view};
ghost use Rattle.cj_board.specs.Steps.{HasCountNotes, HasPositionNotes};
ghost use Rattle.cj_book.specs.Counters.{book_after, hearing, own_view, pass_after, IsOn};

use cj_board::{Board, BookSeat, Pass};
use cj_cluster::Event;
use std::mem;

/// The own pass of an entry's session; `Nobody` for a session without one.
#[derive(Drop)]
pub enum Counter {
    Nobody,
    Own(Pass),
}

impl Counter {
    /// Moves an own pass into a counter. A pass that has seen the same history is left in its place.
    pub fn taken(board: &Board, p: &mut Pass) -> Counter
        requires board { pass_board p.old ≡ board_id board.now }
        requires own { 0 < (pass_view p.old).own_session }
        ensures on { IsOn (board_id board.now) result }
        ensures own { own_view result ≡ Some (pass_view p.old) }
        ensures board { pass_board p.new ≡ pass_board p.old }
    {
        let rest = board.split(p);
        Counter::Own(mem::replace(p, rest))
    }

    /// Moves the own pass of a counter into `p`. The pass that was in its place is dropped.
    pub fn put_back(self, p: &mut Pass)
        requires some { own_view self ≢ None }
        ensures own { own_view self ≡ Some (pass_view p.new) }
        ensures board { (board : TableId) → IsOn board self → (pass_board p.new ≡ board) × (0 < (pass_view p.new).own_session) }
    {
        if let Counter::Own(own) = self {
            *p = own;
        }
    }
}

/// Appends an event of a session to the board. The session's own pass, if any, first counts the event.
/// The pass has seen the whole history at the end. The event must note no failure of a backend.
pub fn announce(board: &Board, seat: &mut BookSeat, counter: &mut Counter, event: &Event)
    requires board { book_board seat.old ≡ board_id board.now }
    requires on { IsOn (board_id board.now) counter.old }
    requires legal { IsLegal (history seat.old ++ event.now ∷ []) }
    requires unfailed { (b : ℕ) → notes_failure b event.now ≡ false }
    requires unplaced { (notes : List (ℕ × ℕ)) → HasPositionNotes (history seat.old) notes event.now }
    requires counts { HasCountNotes (hearing (own_view counter.old) (book_view seat.old)).given (history seat.old) (hearing (own_view counter.old) (book_view seat.old)).count_notes event.now }
    ensures board { book_board seat.new ≡ book_board seat.old }
    ensures on { IsOn (board_id board.now) counter.new }
    ensures book { book_view seat.new ≡ book_after (Some event.now) (own_view counter.old) (book_view seat.old) }
    ensures own { own_view counter.new ≡ pass_after (Some event.now) (own_view counter.old) (book_view seat.old) }
{
    match counter {
        Counter::Nobody => board.append(seat, event),
        Counter::Own(p) => {
            board.count(p);
            board.learn(seat, p);
            board.append(seat, event);
            board.tell(seat, p);
        }
    }
}

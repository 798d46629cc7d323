//! How sessions come and go at the book. None of it needs the turn.

ghost use Rattle.std.specs.Prelude.{ℕ, ◌≡◌, ◌↔◌, ◌<◌, ◌≤◌, IfOk, OnErr, OnOk, IsErrOf};
ghost use Rattle.cj_model.specs.declared.limits.TheConstants.{SESSION_NUMBER_LIMIT};
ghost use Rattle.cj_cluster.specs.History.Legality.{IsLegal};
ghost use Rattle.cj_board.specs.Counting.{event_count_of};
ghost use Rattle.cj_board.specs.Seats.{front, pass_view};
ghost use Rattle.cj_book.specs.Books.{with_session, without_session, HasGivenAll};
ghost use Rattle.cj_pass.specs.Passes.{HasNotedMore, WasGiven};

use crate::book::LockedBook;
use cj_book::OwnError;
use cj_outside::Store;
use cj_pass::{NamedBoard, Naming, Pass};

impl<J: Naming, S: Store + Drop> LockedBook<J, S> {
    /// Opens a session with its own pass, which has seen the history and has counted each event of the session.
    /// The pass of who asks sees the history, and has the book's notes. So it shows why no session number is left.
    pub fn open(
        &mut self,
        board: &NamedBoard<J>,
        pass: &mut Pass<J>,
    ) -> Result<(u64, Pass<J>), OwnError>
        ensures own { IfOk result (λ opened. (0 < opened.0) × ((pass_view opened.1.seat).own_session ≡ opened.0)) }
        ensures limit { IfOk result (λ opened. opened.0 ≤ SESSION_NUMBER_LIMIT) }
        ensures none { IfOk result (λ opened. (pass_view opened.1.seat).count ≡ 0) }
        ensures counted { IfOk result (λ opened. event_count_of opened.0 (front opened.1.seat) ≡ (pass_view opened.1.seat).count) }
        ensures legal { IfOk result (λ opened. IsLegal (front opened.1.seat)) }
        ensures told { IfOk result (λ opened. front opened.1.seat ≡ self.new.book.state.history) }
        ensures state { OnOk result (self.new.book.state ≡ with_session self.old.book.state) }
        ensures full { (n : ℕ) → IsErrOf result (OwnError.SessionsFull n) ↔ HasGivenAll self.old.book.state n }
        ensures cause { (n : ℕ) → IsErrOf result (OwnError.SessionsFull n) → (n ≡ SESSION_NUMBER_LIMIT) × WasGiven (pass_view pass.new.seat) n }
        ensures pass { HasNotedMore (pass_view pass.old.seat) (pass_view pass.new.seat) }
        ensures err { OnErr result (self.new.book.state ≡ self.old.book.state) }
        ensures log { self.new.log ≡ self.old.log }
    {
        self.book.legal();
        self.book.tell(&board.board, &mut pass.seat);
        let (session, seat) = self.book.open_own(&board.board)?;
        let mut own = Pass::new(seat);
        board.check_count(&mut own);
        Ok((session, own))
    }

    /// Closes a session that has this own pass. An open transaction of the session becomes an orphan.
    pub fn close(&mut self, board: &NamedBoard<J>, session: u64, pass: Pass<J>)
        requires own { ((pass_view pass.seat).own_session ≡ session) × (0 < session) }
        ensures state { self.new.book.state ≡ without_session self.old.book.state session }
        ensures log { self.new.log ≡ self.old.log }
    {
        let Pass { seat, .. } = pass;
        self.book.close_own(&board.board, session, seat);
    }
}

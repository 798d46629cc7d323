//! Events at the book that are no entries.

ghost use Rattle.std.specs.Prelude.{◌≡◌, ◌==◌, ◌<◌, ◌&&◌, not, true, false, length, Contains, is_none};
ghost use Rattle.cj_cluster.specs.declared.event.Event.{Event};
ghost use Rattle.cj_cluster.specs.History.Histories.{is_enabled, log};
ghost use Rattle.cj_cluster.specs.History.Legality.{IsLegal};
ghost use Rattle.cj_board.specs.Seats.{front, pass_view};
ghost use Rattle.cj_locked.specs.Auditing.{HoldsTurn};
ghost use Rattle.cj_locked.specs.Changes.{BringsAt, BringsSince};
ghost use Rattle.cj_pass.specs.Passes.{HasNotedMore};

use crate::book::LockedBook;
use crate::turn::{Turn, taken};
use cj_book::BookError;
use cj_outside::Store;
use cj_pass::{NamedBoard, Naming, Pass};

impl<J: Naming, S: Store + Drop> LockedBook<J, S> {
    /// Disables a backend, while nobody has the turn. False if it is disabled already.
    pub fn disable(
        &mut self,
        board: &NamedBoard<J>,
        pass: &mut Pass<J>,
        b: u8,
    ) -> Result<bool, BookError>
        requires vacant { is_none self.old.log ≡ false }
        requires below { b < length J.layout.names }
        ensures brings { BringsSince (front pass.old.seat) (front pass.new.seat) (Event.Disabled b) (λ h. is_enabled h b) result }
        ensures now { BringsAt self.old.book.state.history (Event.Disabled b) (is_enabled self.old.book.state.history b) result self.new.book.state.history }
        ensures more { HasNotedMore (pass_view pass.old.seat) (pass_view pass.new.seat) }
        ensures legal { IsLegal (front pass.new.seat) }
        ensures told { front pass.new.seat ≡ self.new.book.state.history }
        ensures back { is_none self.new.log ≡ false }
    {
        self.tell(board, pass);
        let disabled = self.disable_now(board, b);
        self.tell(board, pass);
        disabled
    }

    /// Disables a backend, of which no pass hears. False if it is disabled already.
    fn disable_now(&mut self, board: &NamedBoard<J>, b: u8) -> Result<bool, BookError>
        requires vacant { is_none self.old.log ≡ false }
        requires below { b < length J.layout.names }
        ensures brings { BringsAt self.old.book.state.history (Event.Disabled b) (is_enabled self.old.book.state.history b) result self.new.book.state.history }
        ensures back { is_none self.new.log ≡ false }
    {
        if !self.book.is_enabled(b) {
            return Ok(false);
        }
        let mut turn = taken(&mut self.turn);
        match self.book.disable(&board.board, b) {
            Ok(()) => {
                turn.count(&mut self.ledger, 3);
                self.turn = Some(turn.keep());
                Ok(true)
            }
            Err(error) => {
                self.turn = Some(turn.keep());
                Err(error)
            }
        }
    }

    /// Takes the turn back from who held it, and enables a backend that has taken the first `n` entries. False if it is
    /// enabled already, or if the log has more entries.
    pub fn enable(
        &mut self,
        board: &NamedBoard<J>,
        pass: &mut Pass<J>,
        turn: Turn<J, S>,
        b: u8,
        n: u64,
    ) -> Result<bool, BookError>
        requires holds { HoldsTurn S.tells S.faults (front pass.old.seat) turn.share.amount turn.log }
        requires below { b < length J.layout.names }
        requires noted { Contains (pass_view pass.old.seat).position_notes (b, n) }
        ensures brings { BringsSince (front pass.old.seat) (front pass.new.seat) (Event.Enabled b) (λ h. not (is_enabled h b) && (length (log h) == n)) result }
        ensures more { HasNotedMore (pass_view pass.old.seat) (pass_view pass.new.seat) }
        ensures legal { IsLegal (front pass.new.seat) }
        ensures told { front pass.new.seat ≡ self.new.book.state.history }
        ensures back { is_none self.new.log ≡ false }
    {
        self.give_back(board, pass, turn);
        let enabled = self.enable_now(board, b, n);
        self.tell(board, pass);
        enabled
    }

    /// Enables a backend by its note in the book, of which no pass hears. False if it is enabled already, or if there
    /// are more than `n` entries.
    fn enable_now(&mut self, board: &NamedBoard<J>, b: u8, n: u64) -> Result<bool, BookError>
        requires vacant { is_none self.old.log ≡ false }
        requires below { b < length J.layout.names }
        requires noted { Contains self.old.book.view.position_notes (b, n) }
        ensures brings { BringsAt self.old.book.state.history (Event.Enabled b) (not (is_enabled self.old.book.state.history b) && (length (log self.old.book.state.history) == n)) result self.new.book.state.history }
        ensures back { is_none self.new.log ≡ false }
    {
        let wanted = !self.book.is_enabled(b) && self.book.length() == n;
        if !wanted {
            return Ok(false);
        }
        let mut turn = taken(&mut self.turn);
        match self.book.enable(&board.board, b) {
            Ok(()) => {
                turn.count(&mut self.ledger, 3);
                self.turn = Some(turn.keep());
                Ok(true)
            }
            Err(error) => {
                self.turn = Some(turn.keep());
                Err(error)
            }
        }
    }
}

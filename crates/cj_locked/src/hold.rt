//! The turn, held by who brings no event, and a look at which backends are enabled.

ghost use Rattle.std.specs.Prelude.{◌≡◌, ℕ, List, None, true, false, length, Contains, is_none};
ghost use mathlib.Core.List.{IsPrefix};
ghost use Rattle.cj_model.specs.Cluster.Masks.{in_mask};
ghost use Rattle.cj_cluster.specs.declared.event.Event.{Event};
ghost use Rattle.cj_cluster.specs.History.Histories.{is_enabled, is_free, log};
ghost use Rattle.cj_cluster.specs.History.Legality.{IsLegal};
ghost use Rattle.cj_board.specs.Seats.{front, pass_view};
ghost use Rattle.cj_locked.specs.Auditing.{HoldsTurn, IsHeldOver};
ghost use Rattle.cj_pass.specs.Passes.{HasNotedMore};
ghost use Rattle.cj_locked.specs.Turns.{turn_amount};

use crate::book::LockedBook;
use crate::turn::{Turn, taken};
use cj_outside::Store;
use cj_pass::{NamedBoard, Naming, Pass};

/// The turn, and what stays while it is held: no entry is open.
pub struct HeldTurn<J: Naming, S: Store> {
    /// The number of entries in the log.
    pub length: u64,
    /// The mask of the enabled backends.
    pub enabled: u32,
    pub turn: Turn<J, S>,
}

impl<J: Naming, S: Store + Drop> LockedBook<J, S> {
    /// Takes the turn, while nobody has it. The pass has seen the history then.
    pub fn hold(&mut self, board: &NamedBoard<J>, pass: &mut Pass<J>) -> HeldTurn<J, S>
        requires vacant { is_none self.old.log ≡ false }
        ensures holds { HoldsTurn S.tells S.faults (front pass.new.seat) result.turn.share.amount result.turn.log }
        ensures length { result.length ≡ length (log (front pass.new.seat)) }
        ensures enabled { (b : ℕ) → in_mask result.enabled b ≡ is_enabled (front pass.new.seat) b }
        ensures more { HasNotedMore (pass_view pass.old.seat) (pass_view pass.new.seat) }
        ensures legal { IsLegal (front pass.new.seat) }
        ensures told { front pass.new.seat ≡ self.new.book.state.history }
        ensures state { self.new.book.state ≡ self.old.book.state }
    {
        self.book.legal();
        self.book.tell(&board.board, &mut pass.seat);
        let length = self.book.length();
        let enabled = self.book.enabled();
        let mut turn = taken(&mut self.turn);
        turn.audit(&mut self.ledger);
        HeldTurn {
            length,
            enabled,
            turn,
        }
    }

    /// Takes the turn back from who held it. The pass has seen the history then, in which only failures in reads came
    /// since `hold`.
    pub fn give_back(&mut self, board: &NamedBoard<J>, pass: &mut Pass<J>, mut turn: Turn<J, S>)
        requires holds { HoldsTurn S.tells S.faults (front pass.old.seat) turn.share.amount turn.log }
        ensures held { IsHeldOver (front pass.old.seat) (front pass.new.seat) }
        ensures since { (m H : List Event) → turn.share.amount ≡ turn_amount m None → is_free m ≡ true → IsPrefix m H → IsPrefix H (front pass.old.seat) → IsHeldOver H (front pass.new.seat) }
        ensures heard { (note : ℕ × ℕ) → Contains (pass_view pass.old.seat).position_notes note → Contains self.new.book.view.position_notes note }
        ensures more { HasNotedMore (pass_view pass.old.seat) (pass_view pass.new.seat) }
        ensures legal { IsLegal (front pass.new.seat) }
        ensures told { front pass.new.seat ≡ self.new.book.state.history }
        ensures state { self.new.book.state ≡ self.old.book.state }
        ensures back { is_none self.new.log ≡ false }
    {
        turn.audit(&mut self.ledger);
        self.book.legal();
        self.book.tell(&board.board, &mut pass.seat);
        self.turn = Some(turn.keep());
    }

    /// Shows the pass the whole history, and returns the mask of the backends that are enabled in it.
    pub fn enabled(&mut self, board: &NamedBoard<J>, pass: &mut Pass<J>) -> u32
        ensures enabled { (b : ℕ) → in_mask result b ≡ is_enabled (front pass.new.seat) b }
        ensures more { HasNotedMore (pass_view pass.old.seat) (pass_view pass.new.seat) }
        ensures legal { IsLegal (front pass.new.seat) }
        ensures told { front pass.new.seat ≡ self.new.book.state.history }
        ensures state { self.new.book.state ≡ self.old.book.state }
        ensures log { self.new.log ≡ self.old.log }
        ensures pending { self.new.book.pending ≡ self.old.book.pending }
    {
        self.tell(board, pass);
        self.book.enabled()
    }
}

//! How a checkpoint's marker comes: it is begun under the book's lock, appended to the log with none, and finished.

ghost use Rattle.std.specs.Prelude.{◌≡◌, ◌≢◌, List, [], true, false, IfOk, IfErr, IfSome, IsNone, OnErr, Some, is_none};
ghost use mathlib.Core.List.{IsPrefix};
ghost use Rattle.cj_cluster.specs.declared.event.Event.{Event};
ghost use Rattle.cj_cluster.specs.History.Histories.{has_marker, is_free};
ghost use Rattle.cj_cluster.specs.History.Legality.{IsLegal};
ghost use Rattle.cj_board.specs.Seats.{front, pass_view};
ghost use Rattle.cj_book.specs.declared.pending.Pending.TheVariants as pending;
ghost use Rattle.cj_locked.specs.Auditing.{IsHeldOver};
ghost use Rattle.cj_locked.specs.Marking.{BeginsMarkSince, HoldsMarked, MarksAt, MarksSince, RefusesMark};
ghost use Rattle.cj_locked.specs.Turns.{turn_amount};
ghost use Rattle.cj_pass.specs.Passes.{HasNotedMore};

use crate::book::{LockedBook, refusal_weight};
use crate::turn::{Turn, taken};
use cj_book::BookError;
use cj_log::{LogError, LogItem};
use cj_model::Name;
use cj_outside::Store;
use cj_pass::{NamedBoard, Naming, Pass};

/// What the writer of a marker has while the marker is on its way into the recovery log.
pub struct BegunMarker<J: Naming, S: Store> {
    /// The marker's item, which the log is to append.
    pub item: LogItem,
    pub turn: Turn<J, S>,
}

impl<J: Naming, S: Store + Drop> LockedBook<J, S> {
    /// Begins a marker of this name, which names the dump of backend `b` where there is one. None if a marker has the
    /// name already.
    pub fn begin_marker(
        &mut self,
        board: &NamedBoard<J>,
        pass: &mut Pass<J>,
        name: &Name,
        b: Option<u8>,
    ) -> Result<Option<BegunMarker<J, S>>, BookError>
        requires vacant { is_none self.old.log ≡ false }
        requires named { name.now ≢ [] }
        requires backend { b ≢ Some 255 }
        ensures ok { IfOk result (λ begun. IfSome begun (λ x. BeginsMarkSince S.tells S.faults (front pass.old.seat) (front pass.new.seat) name.now b x.turn.share.amount x.turn.log x.item)) }
        ensures taken { IfOk result (λ begun. IsNone begun → (has_marker (front pass.new.seat) name.now ≡ true) × (is_none self.new.log ≡ false)) }
        ensures err { IfErr result (RefusesMark (front pass.new.seat)) }
        ensures state { self.new.book.state ≡ self.old.book.state }
        ensures more { HasNotedMore (pass_view pass.old.seat) (pass_view pass.new.seat) }
        ensures legal { IsLegal (front pass.new.seat) }
        ensures told { front pass.new.seat ≡ self.new.book.state.history }
        ensures back { OnErr result (is_none self.new.log ≡ false) }
    {
        self.tell(board, pass);
        if self.book.is_taken(name) {
            return Ok(None);
        }
        let begun = self.begin_fresh(name, b)?;
        Ok(Some(begun))
    }

    /// Begins a marker of a name that no marker has.
    fn begin_fresh(&mut self, name: &Name, b: Option<u8>) -> Result<BegunMarker<J, S>, BookError>
        requires vacant { is_none self.old.log ≡ false }
        requires fresh { has_marker self.old.book.state.history name.now ≡ false }
        requires named { name.now ≢ [] }
        requires backend { b ≢ Some 255 }
        ensures ok { IfOk result (λ x. BeginsMarkSince S.tells S.faults self.old.book.state.history self.old.book.state.history name.now b x.turn.share.amount x.turn.log x.item) }
        ensures err { IfErr result (RefusesMark self.old.book.state.history) }
        ensures state { self.new.book.state ≡ self.old.book.state }
        ensures back { OnErr result (is_none self.new.log ≡ false) }
    {
        let mut turn = taken(&mut self.turn);
        turn.audit(&mut self.ledger);
        match self.book.begin_marker(name, b) {
            Ok(item) => {
                turn.count(&mut self.ledger, 2);
                Ok(BegunMarker { item, turn })
            }
            Err(error) => {
                self.turn = Some(turn.keep());
                Err(error)
            }
        }
    }

    /// Finishes what `begin_marker` began, once the log was asked to append the item, and answers how many entries
    /// stand before the marker. The turn is there again.
    pub fn finish_marker(
        &mut self,
        board: &NamedBoard<J>,
        pass: &mut Pass<J>,
        turn: Turn<J, S>,
        name: &Name,
        b: Option<u8>,
        appended: Result<(), LogError>,
    ) -> Result<u64, BookError>
        requires holds { HoldsMarked S.tells S.faults (front pass.old.seat) name.now b turn.share.amount turn.log appended }
        ensures marks { MarksSince (front pass.old.seat) (front pass.new.seat) name.now b result }
        ensures more { HasNotedMore (pass_view pass.old.seat) (pass_view pass.new.seat) }
        ensures legal { IsLegal (front pass.new.seat) }
        ensures told { front pass.new.seat ≡ self.new.book.state.history }
        ensures back { is_none self.new.log ≡ false }
    {
        self.tell(board, pass);
        let marked = self.mark_now(board, turn, name, b, appended);
        self.tell(board, pass);
        marked
    }

    /// Finishes a marker that was begun, of which no pass hears.
    fn mark_now(
        &mut self,
        board: &NamedBoard<J>,
        mut turn: Turn<J, S>,
        name: &Name,
        b: Option<u8>,
        appended: Result<(), LogError>,
    ) -> Result<u64, BookError>
        requires holds { HoldsMarked S.tells S.faults self.old.book.state.history name.now b turn.share.amount turn.log appended }
        ensures marks { MarksAt self.old.book.state.history name.now b result self.new.book.state.history }
        ensures over { (m F : List Event) → turn.share.amount ≡ turn_amount m (Some pending.Marker) → is_free m ≡ true → IsPrefix m F → IsPrefix F self.old.book.state.history → IsHeldOver F self.old.book.state.history }
        ensures back { is_none self.new.log ≡ false }
    {
        turn.audit(&mut self.ledger);
        turn.uncount(&mut self.ledger, 2);
        self.book.legal();
        match self.book.finish_marker(&board.board, name, b, appended) {
            Ok(number) => {
                turn.count(&mut self.ledger, 3);
                self.turn = Some(turn.keep());
                Ok(number)
            }
            Err(error) => {
                turn.count(&mut self.ledger, refusal_weight(error));
                self.turn = Some(turn.keep());
                Err(error)
            }
        }
    }
}

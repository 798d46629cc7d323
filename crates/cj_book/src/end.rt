//! How an entry ends, and which backends are enabled. None of these events comes while an entry or a marker is
//! pending.

ghost use Rattle.std.specs.Prelude.{◌≡◌, ◌+◌, ◌<◌, None, true, false, length, Contains};
ghost use Rattle.cj_cluster.specs.declared.event.Event.{Event};
ghost use Rattle.cj_cluster.specs.History.Histories.{is_enabled, is_free, log};
ghost use Rattle.cj_cluster.specs.History.Legality.{AreFitMasks};
ghost use Rattle.cj_board.specs.Points.{fault_tokens_of};
ghost use Rattle.cj_board.specs.Seats.{board_id};
ghost use Rattle.cj_board.specs.Steps.{after_append, HasFaultTokens, HasPositionNotes};
ghost use Rattle.cj_book.specs.Books.{with_event};
ghost use Rattle.cj_book.specs.Events.{AppendsEvent};
ghost use Rattle.cj_book.specs.Seated.{event_at_ok, view_after, GivesOwnPassesOnly};

use crate::book::Book;
use crate::error::BookError;
use cj_board::Board;
use cj_cluster::Event;

impl Book {
    /// Ends the open entry. It takes no memory.
    pub fn end(&mut self, board: &Board, failed: u32, starved: u32)
        requires board { self.old.board ≡ board_id board.now }
        requires pending { self.old.pending ≡ None }
        requires open { is_free self.old.state.history ≡ false }
        requires masks { AreFitMasks self.old.state.history failed starved }
        requires positions { HasPositionNotes self.old.state.history self.old.view.position_notes (Event.Ended failed starved) }
        requires faults { HasFaultTokens self.old.view.fault_tokens (Event.Ended failed starved) }
        ensures state { self.new.state ≡ with_event self.old.state (Event.Ended failed starved) }
        ensures board { self.new.board ≡ self.old.board }
        ensures pending { self.new.pending ≡ self.old.pending }
        ensures seat { self.new.view ≡ after_append (Event.Ended failed starved) self.old.view }
        ensures still_gives { GivesOwnPassesOnly self.old → GivesOwnPassesOnly self.new }
    {
        board.append(&mut self.seat, &Event::Ended { failed, starved });
        self.done += 1;
        self.targets = 0;
        self.enabled &= !(failed | starved);
    }

    /// Disables a backend that is enabled, while no entry is open.
    /// `HistoryFull`: no event more has room. An error leaves the book unchanged.
    pub fn disable(&mut self, board: &Board, b: u8) -> Result<(), BookError>
        requires board { self.old.board ≡ board_id board.now }
        requires pending { self.old.pending ≡ None }
        requires is_free { is_free self.old.state.history ≡ true }
        requires below { b < length self.old.state.layout.names }
        requires is_enabled { is_enabled self.old.state.history b ≡ true }
        ensures state { AppendsEvent self.old.state (Event.Disabled b) result self.new.state }
        ensures board { self.new.board ≡ self.old.board }
        ensures pending { self.new.pending ≡ self.old.pending }
        ensures seat { self.new.view ≡ view_after (event_at_ok (Event.Disabled b) result) self.old.view }
        ensures still_gives { GivesOwnPassesOnly self.old → GivesOwnPassesOnly self.new }
    {
        self.check_room()?;
        board.append(&mut self.seat, &Event::Disabled { b });
        self.enabled &= !(1 << b);
        Ok(())
    }

    /// Enables a backend that is disabled, while no entry is open.
    /// The seat must have a note that the backend is at the end of the log.
    /// `HistoryFull`: no event more has room. An error leaves the book unchanged.
    pub fn enable(&mut self, board: &Board, b: u8) -> Result<(), BookError>
        requires board { self.old.board ≡ board_id board.now }
        requires pending { self.old.pending ≡ None }
        requires is_free { is_free self.old.state.history ≡ true }
        requires below { b < length self.old.state.layout.names }
        requires is_disabled { is_enabled self.old.state.history b ≡ false }
        requires position { Contains self.old.view.position_notes (b, length (log self.old.state.history)) }
        ensures state { AppendsEvent self.old.state (Event.Enabled b) result self.new.state }
        ensures board { self.new.board ≡ self.old.board }
        ensures pending { self.new.pending ≡ self.old.pending }
        ensures seat { self.new.view ≡ view_after (event_at_ok (Event.Enabled b) result) self.old.view }
        ensures still_gives { GivesOwnPassesOnly self.old → GivesOwnPassesOnly self.new }
    {
        self.check_room()?;
        board.append(&mut self.seat, &Event::Enabled { b });
        self.enabled |= 1 << b;
        Ok(())
    }

    /// Records that a backend failed in a session's read, also while an entry is open.
    /// The event spends one fault token of that backend, which the seat must have. The backend stays enabled.
    /// `HistoryFull`: no event more has room. An error leaves the book unchanged, with the token.
    pub fn read_failed(
        &mut self,
        board: &Board,
        session: u64,
        seq: u64,
        b: u8,
    ) -> Result<(), BookError>
        requires board { self.old.board ≡ board_id board.now }
        requires pending { self.old.pending ≡ None }
        requires fault { 0 < fault_tokens_of b self.old.view.fault_tokens }
        ensures state { AppendsEvent self.old.state (Event.ReadFailed session seq b) result self.new.state }
        ensures board { self.new.board ≡ self.old.board }
        ensures pending { self.new.pending ≡ self.old.pending }
        ensures seat { self.new.view ≡ view_after (event_at_ok (Event.ReadFailed session seq b) result) self.old.view }
        ensures still_gives { GivesOwnPassesOnly self.old → GivesOwnPassesOnly self.new }
    {
        self.check_room()?;
        board.append(&mut self.seat, &Event::ReadFailed { session, seq, b });
        Ok(())
    }
}

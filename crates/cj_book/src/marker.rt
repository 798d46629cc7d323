//! How a checkpoint is marked: in the log, and then in the history.

ghost use Rattle.std.specs.Prelude.{◌≡◌, ◌≢◌, None, Some, true, false, [], length, IfOk, OnOk, OnErr};
ghost use Rattle.cj_cluster.specs.declared.event.Event.{Event};
ghost use Rattle.cj_cluster.specs.History.Histories.{has_marker, is_free, log};
ghost use Rattle.cj_log.specs.Items.{CanAppend};
ghost use Rattle.cj_recovery.specs.Openings as openings;
ghost use Rattle.cj_board.specs.Seats.{board_id};
ghost use Rattle.cj_book.specs.BookLogs.{LogFollows};
ghost use Rattle.cj_book.specs.declared.pending.Pending.TheVariants as pending;
ghost use Rattle.cj_book.specs.Events.{finished_as, marker_finished, BeginsMarker, MarksCheckpoint};
ghost use Rattle.cj_book.specs.Seated.{event_or_fault, view_after, GivesOwnPassesOnly, IsCounted};

use crate::book::Book;
use crate::book_log::BookLog;
use crate::error::BookError;
use crate::pending::Pending;
use cj_board::Board;
use cj_cluster::Event;
use cj_log::{LogError, LogItem, LogMarker};
use cj_model::Name;
use cj_outside::Store;

/// Returns a marker after the first `after` entries. It names the dump of backend `b`, where there is one.
fn marker_of(after: u64, name: &Name, b: Option<u8>) -> LogMarker
    ensures { result ≡ record { after = after; name = name.now; b = b } }
{
    LogMarker {
        after,
        name: name.copy(),
        b,
    }
}

impl Book {
    /// Marks a checkpoint while no entry is open, and answers how many entries stand before it. It stands in the log
    /// before it comes into the history.
    pub fn mark<S: Store>(
        &mut self,
        recovery_log: &mut BookLog<S>,
        board: &Board,
        name: &Name,
        b: Option<u8>,
    ) -> Result<u64, BookError>
        requires board { self.old.board ≡ board_id board.now }
        requires pending { self.old.pending ≡ None }
        requires follows { LogFollows S.tells S.faults recovery_log.old self.old.state.history }
        requires is_free { is_free self.old.state.history ≡ true }
        requires fresh { has_marker self.old.state.history name.now ≡ false }
        requires named { name.now ≢ [] }
        requires backend { b ≢ Some 255 }
        requires counted { IsCounted self.old (Event.LogFailed 0 0) }
        ensures state { MarksCheckpoint S.tells S.faults S.moment S.since S.may self.old.state recovery_log.old.log name.now b result self.new.state recovery_log.new.log }
        ensures follows { LogFollows S.tells S.faults recovery_log.new self.new.state.history }
        ensures board { self.new.board ≡ self.old.board }
        ensures pending { self.new.pending ≡ self.old.pending }
        ensures opening { recovery_log.new.faults_at_opening ≡ recovery_log.old.faults_at_opening }
        ensures seat { self.new.view ≡ view_after (event_or_fault (Event.Marker name.now b) (Event.LogFailed 0 0) result) self.old.view }
        ensures still_gives { GivesOwnPassesOnly self.old → GivesOwnPassesOnly self.new }
    {
        recovery_log.legal();
        let item = self.begin_marker(name, b)?;
        let appended = recovery_log.append(item);
        self.finish_marker(board, name, b, appended)
    }

    /// Begins a checkpoint's marker, which is then pending, and answers its item for the log. All memory is taken
    /// that its end needs (`finish_marker`). Refused, the book is as it was.
    pub fn begin_marker(&mut self, name: &Name, b: Option<u8>) -> Result<LogItem, BookError>
        requires pending { self.old.pending ≡ None }
        requires is_free { is_free self.old.state.history ≡ true }
        requires fresh { has_marker self.old.state.history name.now ≡ false }
        requires named { name.now ≢ [] }
        requires backend { b ≢ Some 255 }
        ensures begins { BeginsMarker self.old.state result }
        ensures item { IfOk result (λ item. (item ≡ openings.marker_item (length (log self.old.state.history)) name.now b) × CanAppend item) }
        ensures pending { OnOk result (self.new.pending ≡ Some pending.Marker) }
        ensures state { self.new.state ≡ self.old.state }
        ensures seat { (self.new.board ≡ self.old.board) × (self.new.view ≡ self.old.view) }
        ensures err { OnErr result (self.new ≡ self.old) }
    {
        self.check_room()?;
        let number = self.length();
        self.markers.reserve(1)?;
        self.pending = Some(Pending::Marker);
        Ok(LogItem::Marker(marker_of(number, name, b)))
    }

    /// Ends what `begin_marker` began, once the log was asked to append the item. The marker comes, or the event of
    /// the log's fault. Where the log wanted memory, none comes. It takes no memory.
    pub fn finish_marker(
        &mut self,
        board: &Board,
        name: &Name,
        b: Option<u8>,
        appended: Result<(), LogError>,
    ) -> Result<u64, BookError>
        requires board { self.old.board ≡ board_id board.now }
        requires pending { self.old.pending ≡ Some pending.Marker }
        requires fresh { has_marker self.old.state.history name.now ≡ false }
        requires counted { IsCounted self.old (Event.LogFailed 0 0) }
        ensures answer { result ≡ finished_as appended (length (log self.old.state.history)) }
        ensures state { self.new.state ≡ marker_finished self.old.state name.now b appended }
        ensures board { self.new.board ≡ self.old.board }
        ensures pending { self.new.pending ≡ None }
        ensures seat { self.new.view ≡ view_after (event_or_fault (Event.Marker name.now b) (Event.LogFailed 0 0) result) self.old.view }
    {
        let number = self.length();
        self.pending = None;
        match appended {
            Ok(()) => {}
            Err(LogError::NoMemory) => return Err(BookError::NoMemory),
            Err(LogError::Failed) => {
                board.append(&mut self.seat, &Event::LogFailed { session: 0, seq: 0 });
                return Err(BookError::LogFault);
            }
        }
        board.append(
            &mut self.seat,
            &Event::Marker {
                name: name.copy(),
                b,
            },
        );
        self.markers.push_reserved(marker_of(number, name, b));
        Ok(number)
    }
}

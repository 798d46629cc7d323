//! Scheduling: an entry is appended to the log, and then to the history.

ghost use Rattle.std.specs.Prelude.{◌≡◌, None, Some, ◌+◌, ◌<◌, true, [], ◌∷◌, ◌++◌, length, vec_capacity, IfOk, OnOk, OnErr};
ghost use Rattle.cj_cluster.specs.declared.event.Event.{Event};
ghost use Rattle.cj_cluster.specs.History.Histories.{is_free, log};
ghost use Rattle.cj_cluster.specs.History.Legality.{IsFitEntry, IsLegal};
ghost use Rattle.cj_log.specs.Items.{CanAppend};
ghost use Rattle.cj_recovery.specs.Openings.{entry_item};
ghost use Rattle.cj_board.specs.Seats.{board_id, book_board, book_view, history};
ghost use Rattle.cj_board.specs.Steps.{HasCountNotes};
ghost use Rattle.cj_book.specs.BookLogs.{LogFollows};
ghost use Rattle.cj_book.specs.Books.{placement_at, IsOfGiven, IsOfKnown, IsPrepared};
ghost use Rattle.cj_book.specs.declared.pending.Pending.TheVariants as pending;
ghost use Rattle.cj_book.specs.Counters.{book_after, hearing, own_view, pass_after, CanCount, IsOn};
ghost use Rattle.cj_book.specs.Events.{entry_finished, finished_as, BeginsEntry, Schedules};
ghost use Rattle.cj_book.specs.Seated.{event_or_fault, view_after, GivesOwnPassesOnly, IsCounted};

use crate::book::Book;
use crate::book_log::BookLog;
use crate::counter::{Counter, announce};
use crate::error::BookError;
use crate::pending::{BegunEntry, Pending, Prepared};
use cj_board::{Board, BookSeat};
use cj_cluster::{BoxedEntry, Event};
use cj_log::LogError;
use cj_model::Entry;
use cj_outside::Store;
use cj_recovery::entry_item;

/// Appends an entry to the board, and then to `entries`, which must have room for one more.
fn put_entry(
    entries: &mut Vec<BoxedEntry>,
    board: &Board,
    seat: &mut BookSeat,
    counter: &mut Counter,
    boxed: BoxedEntry,
)
    requires room { length entries.old.items < vec_capacity entries.old }
    requires board { book_board seat.old ≡ board_id board.now }
    requires on { IsOn (board_id board.now) counter.old }
    requires legal { IsLegal (history seat.old ++ Event.Sched boxed ∷ []) }
    requires counts { HasCountNotes (hearing (own_view counter.old) (book_view seat.old)).given (history seat.old) (hearing (own_view counter.old) (book_view seat.old)).count_notes (Event.Sched boxed) }
    ensures entries { entries.new.items ≡ entries.old.items ++ boxed ∷ [] }
    ensures board { book_board seat.new ≡ book_board seat.old }
    ensures on { IsOn (board_id board.now) counter.new }
    ensures view { book_view seat.new ≡ book_after (Some (Event.Sched boxed)) (own_view counter.old) (book_view seat.old) }
    ensures own { own_view counter.new ≡ pass_after (Some (Event.Sched boxed)) (own_view counter.old) (book_view seat.old) }
{
    let event = Event::Sched(boxed);
    announce(board, seat, counter, &event);
    let Event::Sched(boxed) = event else {
        unreachable!()
    };
    entries.push_reserved(boxed);
}

impl Book {
    /// Schedules an entry, which is then open, and answers its number. It stands in the log before it comes into the
    /// history. The cache drops the answers whose queries need a table that the entry touches.
    ///
    /// Where it is refused for several reasons, the error is the first of them in the order of the variants. Where
    /// the log's store failed, the history has an event of that; else it is as it was.
    pub fn schedule<S: Store>(
        &mut self,
        recovery_log: &mut BookLog<S>,
        board: &Board,
        e: Entry,
    ) -> Result<u64, BookError>
        requires board { self.old.board ≡ board_id board.now }
        requires pending { self.old.pending ≡ None }
        requires follows { LogFollows S.tells S.faults recovery_log.old self.old.state.history }
        requires fit { is_free self.old.state.history ≡ true → IsFitEntry (log self.old.state.history) e }
        requires known { IsOfKnown self.old.state e }
        requires counted { IsCounted self.old (Event.Sched e) × IsCounted self.old (Event.LogFailed e.session e.seq) }
        ensures state { Schedules S.tells S.faults S.moment S.since S.may self.old.state recovery_log.old.log e result self.new.state recovery_log.new.log }
        ensures follows { LogFollows S.tells S.faults recovery_log.new self.new.state.history }
        ensures board { self.new.board ≡ self.old.board }
        ensures pending { self.new.pending ≡ self.old.pending }
        ensures opening { recovery_log.new.faults_at_opening ≡ recovery_log.old.faults_at_opening }
        ensures seat { self.new.view ≡ view_after (event_or_fault (Event.Sched e) (Event.LogFailed e.session e.seq) result) self.old.view }
        ensures still_gives { GivesOwnPassesOnly self.old → GivesOwnPassesOnly self.new }
    {
        self.legal();
        recovery_log.legal();
        let begun = self.begin_entry(&e)?;
        let appended = recovery_log.append(begun.item);
        self.finish_entry(board, &mut Counter::Nobody, e, begun.prepared, appended)
    }

    /// Begins an entry, which is then pending, and answers its item for the log, with what its end needs
    /// (`finish_entry`). All memory for that is taken. Refused, the book is as it was.
    pub fn begin_entry(&mut self, e: &Entry) -> Result<BegunEntry, BookError>
        requires pending { self.old.pending ≡ None }
        requires fit { is_free self.old.state.history ≡ true → IsFitEntry (log self.old.state.history) e.now }
        requires given { IsOfGiven self.old.state e.now }
        ensures begins { BeginsEntry self.old.state e.now.act result }
        ensures item { IfOk result (λ begun. (begun.item ≡ entry_item (length (log self.old.state.history) + 1) e.now) × CanAppend begun.item) }
        ensures prepared { IfOk result (λ begun. IsPrepared (placement_at self.old.state) (log self.old.state.history) e.now begun.prepared) }
        ensures pending { OnOk result (self.new.pending ≡ Some pending.Entry) }
        ensures state { self.new.state ≡ self.old.state }
        ensures seat { (self.new.board ≡ self.old.board) × (self.new.view ≡ self.old.view) }
        ensures err { OnErr result (self.new ≡ self.old) }
    {
        self.check_schedule(&e.act)?;
        let item = entry_item(self.alloc, self.length() + 1, e)?;
        let prepared = self.prepare(e)?;
        self.entries.reserve(1)?;
        self.transactions.reserve()?;
        self.pending = Some(Pending::Entry);
        Ok(BegunEntry { item, prepared })
    }

    /// Ends what `begin_entry` began, once the log was asked to append the item. The entry comes, and is open. Or the
    /// event of the log's fault comes. Where the log wanted memory, none comes. It takes no memory.
    pub fn finish_entry(
        &mut self,
        board: &Board,
        counter: &mut Counter,
        e: Entry,
        prepared: Prepared,
        appended: Result<(), LogError>,
    ) -> Result<u64, BookError>
        requires board { self.old.board ≡ board_id board.now }
        requires on { IsOn (board_id board.now) counter.old }
        requires pending { self.old.pending ≡ Some pending.Entry }
        requires fit { IsFitEntry (log self.old.state.history) e }
        requires given { IsOfGiven self.old.state e }
        requires prepared { IsPrepared (placement_at self.old.state) (log self.old.state.history) e prepared }
        requires counted { CanCount self.old (own_view counter.old) (Event.Sched e) × CanCount self.old (own_view counter.old) (Event.LogFailed e.session e.seq) }
        ensures answer { result ≡ finished_as appended (length (log self.old.state.history) + 1) }
        ensures state { self.new.state ≡ entry_finished self.old.state e appended }
        ensures board { self.new.board ≡ self.old.board }
        ensures pending { self.new.pending ≡ None }
        ensures seat { self.new.view ≡ book_after (event_or_fault (Event.Sched e) (Event.LogFailed e.session e.seq) result) (own_view counter.old) self.old.view }
        ensures on { IsOn (board_id board.now) counter.new }
        ensures own { own_view counter.new ≡ pass_after (event_or_fault (Event.Sched e) (Event.LogFailed e.session e.seq) result) (own_view counter.old) self.old.view }
    {
        let number = self.length() + 1;
        self.pending = None;
        match appended {
            Ok(()) => {}
            Err(LogError::NoMemory) => return Err(BookError::NoMemory),
            Err(LogError::Failed) => {
                let failed = Event::LogFailed {
                    session: e.session,
                    seq: e.seq,
                };
                announce(board, &mut self.seat, counter, &failed);
                return Err(BookError::LogFault);
            }
        }
        self.transactions.follow(number, &e, prepared.hosts);
        self.sessions.follow(number, &e);
        self.cache.drop_needing(&prepared.tables);
        self.targets = self.enabled & prepared.hosts;
        put_entry(
            &mut self.entries,
            board,
            &mut self.seat,
            counter,
            prepared.room.filled(e),
        );
        Ok(number)
    }
}

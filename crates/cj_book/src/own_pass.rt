//! Passes at the book: how notes are exchanged, and sessions whose own pass counts their events.

ghost use Rattle.std.specs.Prelude.{ℕ, ◌≡◌, ◌↔◌, ◌+◌, ◌<◌, ◌≤◌, None, Some, true, length, Contains, IfOk, OnErr, OnOk, IsErrOf};
ghost use mathlib.Core.List.{IsPrefix};
ghost use Rattle.cj_cluster.specs.declared.event.Event.{Event};
ghost use Rattle.cj_cluster.specs.History.Histories.{is_free, log};
ghost use Rattle.cj_cluster.specs.History.Legality.{IsFitEntry};
ghost use Rattle.cj_log.specs.Items.{CanAppend};
ghost use Rattle.cj_recovery.specs.Openings.{entry_item};
ghost use Rattle.cj_board.specs.Counting.{event_count_of};
ghost use Rattle.cj_board.specs.Seats.{board_id, front, pass_board, pass_view, history};
ghost use Rattle.cj_board.specs.Steps.{after_closing, after_join, after_learning, after_split};
ghost use Rattle.cj_board.specs.Views.{own_pass_of, pass_of, pass_without_tokens};
ghost use Rattle.cj_book.specs.BookLogs.{LogFollows};
ghost use Rattle.cj_book.specs.Books.{placement_at, with_session, without_session, HasGivenAll, IsPrepared};
ghost use Rattle.cj_book.specs.declared.pending.Pending.TheVariants as pending;
ghost use Rattle.cj_book.specs.Events.{entry_finished, finished_as, BeginsEntry, Schedules};
ghost use Rattle.cj_book.specs.Seated.{count_after, event_or_fault, own_book_after, own_opened, own_pass_after, told_book, told_pass, GivesOwnPassesOnly};

use crate::book::Book;
use crate::book_log::BookLog;
use crate::counter::Counter;
use crate::error::{BookError, OwnError};
use crate::pending::{BegunEntry, Prepared};
use cj_board::{Board, Pass};
use cj_log::LogError;
use cj_model::{Entry, SESSION_NUMBER_LIMIT};
use cj_outside::Store;

impl Book {
    /// Opens a session of the next number with its own pass, which has seen the history and has counted nothing.
    /// The book has a note of that count. It takes memory where many are open.
    pub fn open_own(&mut self, board: &Board) -> Result<(u64, Pass), OwnError>
        requires board { self.old.board ≡ board_id board.now }
        requires gives { GivesOwnPassesOnly self.old }
        ensures ok { OnOk result (self.new.state ≡ with_session self.old.state) }
        ensures number { IfOk result (λ opened. opened.0 ≡ self.old.state.greatest + 1) }
        ensures own { IfOk result (λ opened. (pass_view opened.1).own_session ≡ opened.0) }
        ensures pass { IfOk result (λ opened. (pass_board opened.1 ≡ self.old.board) × (pass_view opened.1 ≡ own_pass_of self.old.view)) }
        ensures seat { OnOk result (self.new.view ≡ own_opened self.old.view) }
        ensures noted { IfOk result (λ opened. Contains self.new.view.count_notes (opened.0, 0)) }
        ensures full { (n : ℕ) → IsErrOf result (OwnError.SessionsFull n) ↔ HasGivenAll self.old.state n }
        ensures err { OnErr result (self.new ≡ self.old) }
        ensures board { self.new.board ≡ self.old.board }
        ensures pending { self.new.pending ≡ self.old.pending }
        ensures still_gives { GivesOwnPassesOnly self.new }
    {
        if self.greatest >= SESSION_NUMBER_LIMIT {
            return Err(OwnError::SessionsFull(SESSION_NUMBER_LIMIT));
        }
        let session = self.greatest + 1;
        self.sessions.try_add(session)?;
        self.greatest = session;
        let mut p = board.open_own(&mut self.seat, session);
        board.learn(&mut self.seat, &mut p);
        Ok((session, p))
    }

    /// Schedules an entry of a session with an own pass, as `schedule` does. The pass counts the event that comes,
    /// and has seen the history then.
    pub fn schedule_own<S: Store>(
        &mut self,
        recovery_log: &mut BookLog<S>,
        board: &Board,
        p: &mut Pass,
        e: Entry,
    ) -> Result<u64, BookError>
        requires board { (self.old.board ≡ board_id board.now) × (pass_board p.old ≡ board_id board.now) }
        requires pending { self.old.pending ≡ None }
        requires follows { LogFollows S.tells S.faults recovery_log.old self.old.state.history }
        requires own { ((pass_view p.old).own_session ≡ e.session) × (0 < e.session) }
        requires fit { is_free self.old.state.history ≡ true → IsFitEntry (log self.old.state.history) e }
        requires gives { GivesOwnPassesOnly self.old }
        ensures state { Schedules S.tells S.faults S.moment S.since S.may self.old.state recovery_log.old.log e result self.new.state recovery_log.new.log }
        ensures follows { LogFollows S.tells S.faults recovery_log.new self.new.state.history }
        ensures board { (self.new.board ≡ self.old.board) × (pass_board p.new ≡ pass_board p.old) }
        ensures pending { self.new.pending ≡ self.old.pending }
        ensures opening { recovery_log.new.faults_at_opening ≡ recovery_log.old.faults_at_opening }
        ensures seat { self.new.view ≡ own_book_after (event_or_fault (Event.Sched e) (Event.LogFailed e.session e.seq) result) (told_book self.old.view (pass_view p.old)) (told_pass self.old.view (pass_view p.old)) }
        ensures pass { pass_view p.new ≡ own_pass_after (event_or_fault (Event.Sched e) (Event.LogFailed e.session e.seq) result) (told_book self.old.view (pass_view p.old)) (told_pass self.old.view (pass_view p.old)) }
        ensures own { (pass_view p.new).own_session ≡ e.session }
        ensures count { (pass_view p.new).count ≡ count_after (event_or_fault (Event.Sched e) (Event.LogFailed e.session e.seq) result) (pass_view p.old).count }
        ensures counted { event_count_of e.session self.new.state.history ≤ (pass_view p.new).count }
        ensures told { front p.new ≡ self.new.state.history }
        ensures seen { IsPrefix (front p.old) self.old.state.history × IsPrefix (front p.old) (front p.new) }
        ensures given { (self.new.view.given ≡ self.old.view.given) × (self.new.view.last_given ≡ self.old.view.last_given) }
        ensures still_gives { GivesOwnPassesOnly self.new }
    {
        recovery_log.legal();
        let begun = self.begin_own(board, p, &e)?;
        let appended = recovery_log.append(begun.item);
        self.finish_told(board, p, e, begun.prepared, appended)
    }

    /// Begins an entry of a session with an own pass, as `begin_entry` does. Also refused, book and pass have each
    /// other's notes, and the pass has seen the history.
    pub fn begin_own(
        &mut self,
        board: &Board,
        p: &mut Pass,
        e: &Entry,
    ) -> Result<BegunEntry, BookError>
        requires board { (self.old.board ≡ board_id board.now) × (pass_board p.old ≡ board_id board.now) }
        requires pending { self.old.pending ≡ None }
        requires own { ((pass_view p.old).own_session ≡ e.now.session) × (0 < e.now.session) }
        requires fit { is_free self.old.state.history ≡ true → IsFitEntry (log self.old.state.history) e.now }
        requires gives { GivesOwnPassesOnly self.old }
        ensures begins { BeginsEntry self.old.state e.now.act result }
        ensures item { IfOk result (λ begun. (begun.item ≡ entry_item (length (log self.old.state.history) + 1) e.now) × CanAppend begun.item) }
        ensures prepared { IfOk result (λ begun. IsPrepared (placement_at self.old.state) (log self.old.state.history) e.now begun.prepared) }
        ensures pending { OnOk result (self.new.pending ≡ Some pending.Entry) }
        ensures refused { OnErr result (self.new.pending ≡ None) }
        ensures state { self.new.state ≡ self.old.state }
        ensures board { (self.new.board ≡ self.old.board) × (pass_board p.new ≡ pass_board p.old) }
        ensures seat { self.new.view ≡ told_book self.old.view (pass_view p.old) }
        ensures pass { pass_view p.new ≡ told_pass self.old.view (pass_view p.old) }
        ensures counted { event_count_of e.now.session self.old.state.history ≤ (pass_view p.new).count }
        ensures told { front p.new ≡ self.old.state.history }
        ensures seen { IsPrefix (front p.old) self.old.state.history }
        ensures given { e.now.session ≤ self.old.state.greatest }
        ensures still_gives { GivesOwnPassesOnly self.new }
    {
        self.tell(board, p);
        board.check_count(p);
        self.begin_entry(e)
    }

    /// Ends what `begin_own` began, as `finish_entry` does. The pass counts the event that comes, and has seen the
    /// history then. Sessions and passes may have come, gone and told the book between the two.
    pub fn finish_own(
        &mut self,
        board: &Board,
        p: &mut Pass,
        e: Entry,
        prepared: Prepared,
        appended: Result<(), LogError>,
    ) -> Result<u64, BookError>
        requires board { (self.old.board ≡ board_id board.now) × (pass_board p.old ≡ board_id board.now) }
        requires pending { self.old.pending ≡ Some pending.Entry }
        requires fit { IsFitEntry (log self.old.state.history) e }
        requires prepared { IsPrepared (placement_at self.old.state) (log self.old.state.history) e prepared }
        requires own { ((pass_view p.old).own_session ≡ e.session) × (0 < e.session) }
        requires gives { GivesOwnPassesOnly self.old }
        ensures answer { result ≡ finished_as appended (length (log self.old.state.history) + 1) }
        ensures state { self.new.state ≡ entry_finished self.old.state e appended }
        ensures board { (self.new.board ≡ self.old.board) × (pass_board p.new ≡ pass_board p.old) }
        ensures pending { self.new.pending ≡ None }
        ensures seat { self.new.view ≡ own_book_after (event_or_fault (Event.Sched e) (Event.LogFailed e.session e.seq) result) (told_book self.old.view (pass_view p.old)) (told_pass self.old.view (pass_view p.old)) }
        ensures pass { pass_view p.new ≡ own_pass_after (event_or_fault (Event.Sched e) (Event.LogFailed e.session e.seq) result) (told_book self.old.view (pass_view p.old)) (told_pass self.old.view (pass_view p.old)) }
        ensures own { (pass_view p.new).own_session ≡ e.session }
        ensures count { (pass_view p.new).count ≡ count_after (event_or_fault (Event.Sched e) (Event.LogFailed e.session e.seq) result) (pass_view p.old).count }
        ensures counted { event_count_of e.session self.new.state.history ≤ (pass_view p.new).count }
        ensures told { front p.new ≡ self.new.state.history }
        ensures seen { IsPrefix (front p.old) self.old.state.history × IsPrefix (front p.old) (front p.new) }
        ensures given { (self.new.view.given ≡ self.old.view.given) × (self.new.view.last_given ≡ self.old.view.last_given) }
        ensures still_gives { GivesOwnPassesOnly self.new }
    {
        self.tell(board, p);
        self.finish_told(board, p, e, prepared, appended)
    }

    /// The same, with a pass that has seen the history.
    fn finish_told(
        &mut self,
        board: &Board,
        p: &mut Pass,
        e: Entry,
        prepared: Prepared,
        appended: Result<(), LogError>,
    ) -> Result<u64, BookError>
        requires board { (self.old.board ≡ board_id board.now) × (pass_board p.old ≡ board_id board.now) }
        requires pending { self.old.pending ≡ Some pending.Entry }
        requires fit { IsFitEntry (log self.old.state.history) e }
        requires prepared { IsPrepared (placement_at self.old.state) (log self.old.state.history) e prepared }
        requires own { ((pass_view p.old).own_session ≡ e.session) × (0 < e.session) }
        requires told { front p.old ≡ self.old.state.history }
        requires given { e.session ≤ self.old.state.greatest }
        ensures answer { result ≡ finished_as appended (length (log self.old.state.history) + 1) }
        ensures state { self.new.state ≡ entry_finished self.old.state e appended }
        ensures board { (self.new.board ≡ self.old.board) × (pass_board p.new ≡ pass_board p.old) }
        ensures pending { self.new.pending ≡ None }
        ensures seat { self.new.view ≡ own_book_after (event_or_fault (Event.Sched e) (Event.LogFailed e.session e.seq) result) self.old.view (pass_view p.old) }
        ensures pass { pass_view p.new ≡ own_pass_after (event_or_fault (Event.Sched e) (Event.LogFailed e.session e.seq) result) self.old.view (pass_view p.old) }
        ensures counted { event_count_of e.session self.new.state.history ≤ (pass_view p.new).count }
        ensures told { front p.new ≡ self.new.state.history }
        ensures still_gives { GivesOwnPassesOnly self.old → GivesOwnPassesOnly self.new }
    {
        self.legal();
        board.check_count(p);
        let mut counter = Counter::taken(board, p);
        let result = self.finish_entry(board, &mut counter, e, prepared, appended);
        counter.put_back(p);
        board.check_count(p);
        self.legal();
        result
    }

    /// Closes a session that has an own pass, and returns the pass to the board.
    /// An open transaction of the session becomes an orphan.
    pub fn close_own(&mut self, board: &Board, session: u64, p: Pass)
        requires board { (self.old.board ≡ board_id board.now) × (pass_board p ≡ board_id board.now) }
        requires own { ((pass_view p).own_session ≡ session) × (0 < session) }
        ensures state { self.new.state ≡ without_session self.old.state session }
        ensures board { self.new.board ≡ self.old.board }
        ensures pending { self.new.pending ≡ self.old.pending }
        ensures seat { self.new.view ≡ after_closing self.old.view (pass_view p) }
        ensures seen { IsPrefix (front p) self.old.state.history }
        ensures closed { ¬ Contains self.new.view.given session }
        ensures still_gives { GivesOwnPassesOnly self.old → GivesOwnPassesOnly self.new }
    {
        self.sessions.remove(session);
        board.close_own(&mut self.seat, p);
    }

    /// Shows the pass the whole history. Book and pass then have each other's notes.
    /// Fault tokens stay where they are. The session of an own pass is one that the book has given.
    pub fn tell(&mut self, board: &Board, p: &mut Pass)
        requires board { (self.old.board ≡ board_id board.now) × (pass_board p.old ≡ board_id board.now) }
        ensures board { (self.new.board ≡ self.old.board) × (pass_board p.new ≡ pass_board p.old) }
        ensures pending { self.new.pending ≡ self.old.pending }
        ensures state { self.new.state ≡ self.old.state }
        ensures book { self.new.view ≡ after_learning self.old.view (pass_without_tokens (pass_view p.old)) }
        ensures pass { pass_view p.new ≡ after_join (pass_view p.old) (pass_without_tokens self.new.view) }
        ensures told { front p.new ≡ self.old.state.history }
        ensures longer { IsPrefix (front p.old) (front p.new) }
        ensures given { (pass_view p.old).own_session ≤ self.old.view.last_given }
        ensures still_gives { GivesOwnPassesOnly self.old → GivesOwnPassesOnly self.new }
    {
        board.tell(&mut self.seat, p);
    }

    /// Gives the book the pass's notes, and moves the pass's fault tokens to the book.
    /// The pass sees nothing new.
    pub fn learn(&mut self, board: &Board, p: &mut Pass)
        requires board { (self.old.board ≡ board_id board.now) × (pass_board p.old ≡ board_id board.now) }
        ensures board { (self.new.board ≡ self.old.board) × (pass_board p.new ≡ pass_board p.old) }
        ensures pending { self.new.pending ≡ self.old.pending }
        ensures state { self.new.state ≡ self.old.state }
        ensures book { self.new.view ≡ after_learning self.old.view (pass_of (pass_view p.old)) }
        ensures pass { pass_view p.new ≡ after_split (pass_view p.old) }
        ensures seen { IsPrefix (front p.old) self.new.state.history }
        ensures still_gives { GivesOwnPassesOnly self.old → GivesOwnPassesOnly self.new }
    {
        board.learn(&mut self.seat, p);
    }
}

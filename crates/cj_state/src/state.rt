//! The state of a world, and the parts of moves: each a change of it that keeps it whole.

ghost use Rattle.std.specs.Prelude.{option_copied, ◌≡◌, ◌↔◌, ℕ, List, ◌+◌, ◌<◌, ◌≤◌, ◌^◌, ◌==◌, ◌||◌, true, false, [], length, map, slice_get, is_some, ◌≢◌, IsNone, IfSome, IfOk, IsErrOf, MatchBool, OnOk, OnErr, Some, None, Ok, Err, if◌then◌else◌};
ghost use Rattle.cj_model.specs.declared.request.Entry.{Entry};
ghost use Rattle.cj_model.specs.declared.request.Request.TheVariants as request;
ghost use Rattle.cj_model.specs.Sql.PlainRequests.{request_of};
ghost use Rattle.cj_cluster.specs.History.Histories as histories;
ghost use Rattle.cj_cluster.specs.History.Histories.{log, is_free, database_after};
ghost use Rattle.cj_model.specs.Cluster.Masks.{in_mask};
ghost use Rattle.cj_cluster.specs.History.Legality.{FitsTx, IsFitEntry};
ghost use Rattle.cj_model.specs.Sql.WrittenRequests.{IsWritten};
ghost use Rattle.cj_cluster.specs.History.Answering.{CanServe};
ghost use Rattle.cj_cluster.specs.Moves.Cores.{find_dump, find_session, hosts_beyond, is_dumped, session_at, position_at};
ghost use Rattle.cj_model.specs.Cluster.Accounts.{login_of};
ghost use Rattle.cj_cluster.specs.Moves.Moves as moves;
ghost use Rattle.cj_cluster.specs.Moves.Moves.{Applies, Replays, LoadsDump, dumped_as, IsServingMask, HasOtherRead, HasNoOtherRead, forbidden_by, next_entry, not_now, with_read, with_request_counted, happened, opened_for, closed_for, ended_for, answered_at, was_answered, still_reading};
ghost use Rattle.std.specs.Bool.{OnTrue};
ghost use Rattle.cj_auth.specs.Admission.{admits};
ghost use Rattle.cj_auth.specs.Kept.{IsUserName};
ghost use Rattle.cj_replica.specs.Cells.{CellState};
ghost use Rattle.cj_state.specs.Worlds.{accounts_of, log_view, with_balance, with_cache, CacheFollowsLog, IsFresh, IsSameWorldButLog, IsWorld, KeepsHistory};
ghost use Rattle.cj_model.specs.declared.cached.Cached.{Cached};
ghost use Rattle.cj_model.specs.Cluster.Caching.{after_keep, after_look, answer_kept, empty_cache, has_answer};
ghost use Rattle.cj_model.specs.declared.answer.Asked.TheVariants.{Rows};
ghost use Rattle.cj_model.specs.Database.Outcomes.{IsAnswer};
ghost use Rattle.cj_cluster.specs.History.Freshness.{IsAnswerAt};
ghost use Rattle.cj_model.specs.Sql.Names.{is_name};
ghost use Rattle.cj_model.specs.Database.Storable.{IsStorable};
ghost use Rattle.cj_model.specs.Cluster.Placements.{part};
ghost use Rattle.cj_shelf.specs.MemoryShelves.{taken_of};
ghost use Rattle.cj_recovery.specs.Openings.{OpensTo, items_of};
ghost use Rattle.cj_book.specs.BookLogs.{LogFollows};
ghost use Rattle.cj_book.specs.Books.{IsKeptIn};
ghost use Rattle.cj_book.specs.Starts.{greatest_session};
ghost use Rattle.cj_outside.specs.Causes.{CountsFault};
ghost use Rattle.cj_place.specs.Layouts.{placement_of};
ghost use Rattle.cj_state.specs.Beginnings.{AreEmpty, AreFresh, opened_core};
ghost use Rattle.cj_state.specs.ArmedCells.{armed_at, armings_after, armings_of};
ghost use Rattle.cj_state.specs.Asking.{answered_by, asks_of, asks_with, read_over, PicksFirst};
ghost use Rattle.cj_state.specs.Held.{failed_contents, IsHeld};
ghost use Rattle.cj_state.specs.Proving.Seated.{AreAt};
ghost use Rattle.cj_state.specs.Seats.{states_of};
ghost use Rattle.cj_state.specs.Sharing.{IsTakenApart};
ghost use Rattle.cj_board.specs.Seats.{board_id, pass_board};
ghost use Rattle.cj_state.specs.CalledLogins.{asked_for, login_to_take, logins_of, AskedUnderLogin, LogsInToTake};
ghost use Rattle.cj_state.specs.Effects.{own_entry};
ghost use Rattle.cj_state.specs.Faults.{did_fail, faults_after, faults_of};
ghost use Rattle.cj_state.specs.Effects.{AnswersOpen, Asks, asked_core, failed_asked, HaveFailed, with_core, core_aborted, core_marked, core_scheduled, SchedulesAs, HadLoggedRoom, HadRoom};

use crate::cells::{AskError, arm_at, contents_at, load_at, noted, place, read_at, take};
use crate::hearing::{hear, hear_all};
use crate::parts::Shared;
use cj_auth::Accounts;
use cj_backend::Backend;
use cj_board::{Board, Pass};
use cj_book::{Book, BookError, BookLog};
use cj_cluster::{Did, Event, Move, Moved, OpenRead, OpenSession, TakenDump};
use cj_dump::{Dump, cut};
use cj_model::{
    Act, Answer, Asked, BACKEND_LIMIT, Db, Duplicate, Entry, HISTORY_FULL, Name, NoMemory,
    REQUEST_LIMIT, Refusal, Reply, SESSION_LIMIT, SESSION_NUMBER_LIMIT, SESSIONS_FULL, Same,
    Select, Text, USER_LIMIT, with_bit,
};
use cj_open_sessions::{Sessions, read_number, tx_of_act};
use cj_outside::Store;
use cj_place::Placement;
use cj_replica::{Cell, CellError};
use cj_shelf::MemoryShelf;
use cj_tally::Tally;
use std::alloc::Global;
use std::marker::Model;

/// The state of a world: the history, the cells of the backends, the open sessions, the accounts
/// and the dumps. Each call keeps what holds of every world (`legal`).
#[derive(Drop)]
pub struct State<B: Backend, S: Store> {
    alloc: Global,
    /// The board at which the book and the cells have their seats.
    board: Board,
    /// The pass that carries knowledge between these seats.
    pass: Pass,
    book: Book,
    /// The recovery log, which follows the book's history.
    recovery_log: BookLog<S>,
    /// The cells, by the numbers of their backends.
    cells: Vec<Cell<B>>,
    /// What the backends did with the open entry; without reports where none is open.
    tally: Tally,
    sessions: Sessions,
    accounts: Accounts,
    dumps: MemoryShelf,
}

impl<B: Backend, S: Store> Model for State<B, S> {
    ghost use Rattle.cj_state.specs.Worlds.{WorldState, log_view, with_balance, with_cache, with_log, world_of};

    ghost Value = { WorldState };

    ghost use Rattle.std.specs.Coded.{codes};
    ghost use Rattle.cj_model.specs.Proving.ConditionCode.{coded_condition};

    ghost coded = { Prim.hlevel (codes, coded_condition) };

    ghost use Rattle.std.specs.Prelude.{◌≡◌, None};
    ghost use Rattle.cj_board.specs.Seats.{board_id, pass_board};
    ghost use Rattle.cj_book.specs.BookLogs.{LogFollows};
    ghost use Rattle.cj_state.specs.Proving.Kept.{KeptSeated};
    ghost use Rattle.cj_state.specs.Proving.Seated.{AreAt, IsReady};
    ghost use Rattle.cj_state.specs.Seats.{states_of};

    ghost view = { λ w. with_balance (with_cache (with_log (world_of w.accounts w.book.state.layout w.book.state.history (states_of w.cells.items) w.tally.failed w.tally.starved w.sessions w.book.state.greatest w.dumps) (log_view S.faults S.held w.recovery_log.log)) w.book.state.cache) w.book.state.balance };

    ghost invariant = { λ w. KeptSeated B.tells (world_of w.accounts w.book.state.layout w.book.state.history (states_of w.cells.items) w.tally.failed w.tally.starved w.sessions w.book.state.greatest w.dumps) w.book.state.sessions w.tally w.book.state.cache w.dumps
        (AreAt (board_id w.board) (pass_board w.pass) w.book.board w.cells.items × IsReady w.book.view w.tally.failed) (LogFollows S.tells S.faults w.recovery_log w.book.state.history × (w.book.pending ≡ None)) };
}

/// Whether the session has a read open that is of another query.
fn is_other(session: &OpenSession, select: &Select) -> bool
    ensures { MatchBool result (HasOtherRead session.now select.now) (HasNoOtherRead session.now select.now) }
{
    match &session.reading {
        Some(read) => !read.select.is_same(select),
        None => false,
    }
}

fn tried_of(reading: &Option<OpenRead>) -> u32
    ensures { result ≡ moves.tried_of reading.now }
{
    match reading {
        Some(read) => read.tried,
        None => 0,
    }
}

/// Returns the user for whom a session asks: the one given, or else the session's own.
fn asking_user<'a>(sessions: &'a Sessions, s: u64, user: Option<&'a Text>) -> &'a Text
    requires { is_some (find_session sessions.now s) ≡ true }
    ensures { result.now ≡ asked_for sessions.now s (option_copied user.entry) }
{
    match user {
        Some(user) => user,
        None => match sessions.get(s) {
            Some(session) => &session.user,
            None => unreachable!(),
        },
    }
}

// ---- how it is made

impl<B: Backend + Drop, S: Store + Drop> State<B, S> {
    /// Makes the state of a world over a book that was just opened. No cell has taken an entry, no
    /// backend is enabled, no session is open, and there are no dumps.
    pub fn new(
        alloc: Global,
        board: Board,
        pass: Pass,
        book: Book,
        recovery_log: BookLog<S>,
        cells: Vec<Cell<B>>,
        sessions: Sessions,
        accounts: Accounts,
        dumps: MemoryShelf,
    ) -> State<B, S>
        requires opening { OpensTo (items_of book.state.history) book.state.history }
        requires numbers { book.state.sessions ≡ [] }
        requires none { sessions ≡ [] }
        requires greatest { book.state.greatest ≡ greatest_session (log book.state.history) }
        requires few { length book.state.layout.names ≤ BACKEND_LIMIT }
        requires registered { accounts.backends ≡ length book.state.layout.names }
        requires fresh { AreFresh (placement_of book.state.layout) (states_of cells.items) }
        requires empty { AreEmpty B.tells (map (λ (x : CellState). x.told) (states_of cells.items)) }
        requires cache { book.state.cache ≡ empty_cache book.state.cache.capacity }
        requires no_dump { dumps ≡ [] }
        requires at { AreAt (board_id board) (pass_board pass) book.board cells.items }
        requires unowned { (book.view.given ≡ []) × (book.view.last_given ≡ 0) }
        requires pending { book.pending ≡ None }
        requires follows { LogFollows S.tells S.faults recovery_log book.state.history }
        ensures core { result.core ≡ opened_core (placement_of book.state.layout) book.state.history }
        ensures cells { result.cells ≡ states_of cells.items }
        ensures setup { result.setup ≡ record { names = book.state.layout.names; accounts = accounts } }
        ensures recovery_log { result.recovery_log ≡ log_view S.faults S.held recovery_log.log }
        ensures cache { result.cache ≡ book.state.cache }
        ensures balance { result.balance ≡ book.state.balance }
    {
        let tally = Tally::new();
        State {
            alloc,
            board,
            pass,
            book,
            recovery_log,
            cells,
            tally,
            sessions,
            accounts,
            dumps,
        }
    }
}

// ---- how it is given up

impl<B: Backend + Drop, S: Store + Drop> State<B, S> {
    /// Takes the state apart and returns its cells, at most `BACKEND_LIMIT`, by the numbers of
    /// their backends.
    pub fn into_cells(self) -> Vec<Cell<B>>
        ensures cells { states_of result.items ≡ self.cells }
        ensures few { length self.cells ≤ BACKEND_LIMIT }
        ensures legal { IsWorld B.tells self }
    {
        let State { cells, .. } = self;
        cells
    }

    /// Takes the state apart and returns the log's store, as it is. Its bytes keep the history, and
    /// so does whatever a crash at this moment leaves of them.
    pub fn into_log(self) -> S
        ensures faults { S.faults result ≡ self.recovery_log.faults }
        ensures bytes { S.held result ≡ self.recovery_log.bytes }
        ensures kept { S.tells ≡ true → IsKeptIn (S.held result) self.core.history }
        ensures stop { S.tells ≡ true → (image : List ℕ) → S.may result image → IsKeptIn image self.core.history }
    {
        self.recovery_log.legal();
        let State { recovery_log, .. } = self;
        recovery_log.into_log()
    }

    /// Takes the state apart: its board, the book and the cells with seats there, the recovery log,
    /// its accounts and its dumps. `emptied` is an empty list that goes along, for the backends.
    pub fn into_shared(self, emptied: Vec<B>) -> Shared<B, S>
        ensures world { IsWorld B.tells self }
        ensures fresh { IsFresh B.tells self }
        ensures parts { IsTakenApart B.tells self (board_id result.board) (pass_board result.pass) result.book result.cells.items result.accounts result.dumps }
        ensures recovery_log { log_view S.faults S.held result.recovery_log.log ≡ self.recovery_log }
        ensures follows { LogFollows S.tells S.faults result.recovery_log result.book.state.history }
        ensures emptied { result.emptied ≡ emptied }
    {
        self.book.legal();
        let State {
            board,
            pass,
            book,
            recovery_log,
            cells,
            accounts,
            dumps,
            ..
        } = self;
        Shared {
            board,
            pass,
            book,
            recovery_log,
            cells,
            accounts,
            dumps,
            emptied,
        }
    }
}

// ---- what moves read

impl<B: Backend, S: Store> State<B, S> {
    /// Shows what holds of every world. The log's bytes keep its history, and its cache has fresh
    /// answers alone.
    pub fn legal(&self)
        ensures world { IsWorld B.tells self.now }
        ensures logged { S.tells ≡ true → KeepsHistory self.now }
        ensures fresh { IsFresh B.tells self.now }
    {
        self.recovery_log.legal();
    }

    /// Returns how many entries there are, which is the number of the last one.
    pub fn length(&self) -> u64
        ensures { result ≡ moves.last_number self.now.core }
    {
        self.book.length()
    }

    /// Returns the number of the open entry, or `None` if no entry is open.
    pub fn open_entry(&self) -> Option<u64>
        ensures none { IsNone result ↔ (is_free self.now.core.history ≡ true) }
        ensures number { IfSome result (λ n. n ≡ moves.last_number self.now.core) }
    {
        self.book.open_entry()
    }

    /// Returns the mask of the enabled backends.
    pub fn enabled(&self) -> u32
        ensures { (b : ℕ) → in_mask result b ≡ histories.is_enabled self.now.core.history b }
    {
        self.book.enabled()
    }

    /// Returns how many entries backend `b` has taken, or `None` if it is out.
    pub fn position(&self, b: u8) -> Option<u64>
        ensures { result ≡ position_at self.now.core b }
    {
        match self.cells.get(b as usize) {
            Some(cell) => cell.position(),
            None => None,
        }
    }

    /// Returns the placement: which backends host which tables, and what the backends are called.
    pub fn placement(&self) -> &Placement
        ensures placement { placement_of result.now ≡ self.now.core.placement }
        ensures names { result.now.names ≡ self.now.setup.names }
    {
        self.book.placement()
    }

    /// Whether an account has this user and this password. A user that is admitted is a text of at
    /// most 64 bytes.
    pub fn admits(&self, user: &[u8], password: &[u8]) -> bool
        ensures admitted { result ≡ admits (accounts_of self.now) user.now password.now }
        ensures user { OnTrue result (IsUserName user.now) }
    {
        self.accounts.check(user, password)
    }

    /// Returns the allocator from which the state takes its memory.
    pub fn allocator(&self) -> Global {
        self.alloc
    }

    /// Whether no entry is open.
    pub fn is_free(&self) -> bool
        ensures { result ≡ is_free self.now.core.history }
    {
        self.book.is_free()
    }

    /// Whether backend `b` is enabled.
    pub fn is_enabled(&self, b: u8) -> bool
        ensures { result ≡ histories.is_enabled self.now.core.history b }
    {
        self.book.is_enabled(b)
    }

    /// Whether session `s` is open.
    pub fn is_open(&self, s: u64) -> bool
        ensures { result ≡ moves.is_open self.now.core s }
    {
        self.sessions.get(s).is_some()
    }

    /// Whether the open entry is one of session `s`.
    pub fn is_waiting(&self, s: u64) -> bool
        ensures { result ≡ moves.is_waiting self.now.core s }
    {
        match self.book.opened() {
            Some(entry) => entry.session == s,
            None => false,
        }
    }

    /// Whether session `s` has a read open.
    pub fn is_reading(&self, s: u64) -> bool
        ensures { result ≡ moves.is_reading (session_at self.now.core s) }
    {
        match self.sessions.get(s) {
            Some(session) => session.reading.is_some(),
            None => false,
        }
    }

    /// Returns how many requests session `s` has made.
    fn requests(&self, s: u64) -> u64
        ensures { result ≡ (session_at self.now.core s).requests }
    {
        match self.sessions.get(s) {
            Some(session) => session.requests,
            None => 0,
        }
    }

    /// Returns the position that reads of session `s` need at least.
    fn least(&self, s: u64) -> u64
        ensures { result ≡ (session_at self.now.core s).least }
    {
        match self.sessions.get(s) {
            Some(session) => session.least,
            None => 0,
        }
    }

    /// Returns the number of the entry that backend `b` takes next, or 1 if it is out.
    pub fn next_of(&self, b: u8) -> u64
        ensures { result ≡ moves.position_or_zero (position_at self.now.core b) + 1 }
    {
        let _ = &self.book;
        place(self.position(b)) + 1
    }

    /// Returns the open transaction of session `s`, which is open, or 0 if there is none.
    pub fn open_tx(&self, s: u64) -> u64
        requires { moves.is_open self.now.core s ≡ true }
        ensures { result ≡ moves.open_tx self.now.core s }
    {
        self.book.open_tx(s)
    }

    /// Whether the transaction is open and its session isn't.
    pub fn is_orphan(&self, tx: u64) -> bool
        ensures { result ≡ moves.is_orphan self.now.core tx }
    {
        self.book.is_orphan(tx)
    }

    /// Makes the entry of the next request of session `s`, for its own user and in its open
    /// transaction. `NoMemory` is the only error. The state stays.
    pub fn next_entry(&self, s: u64, act: Act) -> Result<Entry, NoMemory>
        requires here { moves.is_open self.now.core s ≡ true }
        requires counts { (session_at self.now.core s).requests < REQUEST_LIMIT }
        requires written { IsWritten (request_of act) }
        requires allowed { forbidden_by (moves.open_tx self.now.core s) act ≡ None }
        ensures next { IfOk result (λ e. e ≡ next_entry self.now.core s act) }
        ensures fits { IfOk result (λ e. IsFitEntry (log self.now.core.history) e) }
    {
        match self.sessions.get(s) {
            Some(session) => Ok(Entry {
                session: s,
                seq: session.requests + 1,
                tx: tx_of_act(self.book.open_tx(s), &act),
                user: session.user.copy(self.alloc)?,
                act,
            }),
            None => unreachable!(),
        }
    }

    /// Makes the entry of the next request of session `s`, for this user and in transaction `tx`, 0
    /// for none. `NoMemory` is the only error. The state stays.
    pub fn entry_for(&self, s: u64, user: &Text, tx: u64, act: Act) -> Result<Entry, NoMemory>
        requires here { moves.is_open self.now.core s ≡ true }
        requires counts { (session_at self.now.core s).requests < REQUEST_LIMIT }
        requires short { length user.now ≤ USER_LIMIT }
        requires written { IsWritten (request_of act) }
        requires allowed { FitsTx (moves.open_tx self.now.core s) tx act }
        ensures is { IfOk result (λ e. e ≡ own_entry self.now.core s tx user.now act) }
        ensures fits { IfOk result (λ e. IsFitEntry (log self.now.core.history) e) }
    {
        Ok(Entry {
            session: s,
            seq: self.requests(s) + 1,
            tx,
            user: user.copy(self.alloc)?,
            act,
        })
    }

    /// Makes the administrator's entry that ends an orphan, for the user who began it. `NoMemory`
    /// is the only error. The state stays.
    pub fn abort_entry(&self, tx: u64) -> Result<Entry, NoMemory>
        requires { moves.is_orphan self.now.core tx ≡ true }
        ensures is { IfOk result (λ e. e ≡ moves.abort_entry self.now.core tx) }
        ensures fits { IfOk result (λ e. IsFitEntry (log self.now.core.history) e) }
    {
        match self.book.entry(tx) {
            Some(begin) => Ok(Entry {
                session: 0,
                seq: 0,
                tx,
                user: begin.user.copy(self.alloc)?,
                act: Act::Abort,
            }),
            None => unreachable!(),
        }
    }

    /// Whether session `s` has a read open that is of another query.
    pub fn reads_other(&self, s: u64, select: &Select) -> bool
        ensures { MatchBool result (HasOtherRead (session_at self.now.core s) select.now) (HasNoOtherRead (session_at self.now.core s) select.now) }
    {
        match self.sessions.get(s) {
            Some(session) => is_other(session, select),
            None => false,
        }
    }

    /// Returns the number that a read of session `s` has among its requests: that of the open read,
    /// or else the next.
    pub fn read_number(&self, s: u64) -> u64
        requires { (session_at self.now.core s).requests < REQUEST_LIMIT }
        ensures { result ≡ moves.read_number (session_at self.now.core s) }
    {
        match self.sessions.get(s) {
            Some(session) => read_number(session),
            None => 1,
        }
    }

    /// Returns the mask of the backends that failed in the open read of session `s`; 0 if it has
    /// none.
    pub fn tried(&self, s: u64) -> u32
        ensures { result ≡ moves.tried_of (session_at self.now.core s).reading }
    {
        match self.sessions.get(s) {
            Some(session) => tried_of(&session.reading),
            None => 0,
        }
    }

    /// Returns the mask of the backends that failed in the open read of session `s`, together with
    /// backend `b`.
    pub fn tried_with(&self, s: u64, b: u8) -> u32
        requires { b < self.now.core.placement.backends }
        ensures { result ≡ moves.tried_with self.now.core s b }
    {
        let _ = &self.book;
        with_bit(self.tried(s), b)
    }

    /// Returns the mask of the backends that serve the query: those enabled that host each of its
    /// tables.
    pub fn serving(&self, select: &Select) -> u32
        ensures mask { IsServingMask self.now.core select.now result }
        ensures below { result < 2 ^ BACKEND_LIMIT }
    {
        self.book.candidates(select.tables.as_slice())
    }

    /// Returns the position of the first enabled backend that is neither at the log's end nor out,
    /// or `None`.
    pub fn behind(&self) -> Option<u64>
        ensures { result ≡ moves.first_lagging self.now.core.history 0 self.now.core.positions }
    {
        let end = self.book.length();
        for (b, cell) in self.cells.iter().enumerate() {
            if let Some(position) = cell.position() {
                if self.book.is_enabled(b as u8) && position < end {
                    return Some(position);
                }
            }
        }
        None
    }

    /// Whether no further session can be opened: `SESSION_LIMIT` are open, or the greatest number
    /// is at its limit.
    pub fn has_no_number(&self) -> bool
        ensures { result ≡ moves.has_no_number self.now.core }
    {
        self.sessions.len() >= SESSION_LIMIT || self.book.greatest() >= SESSION_NUMBER_LIMIT
    }

    /// Returns how many sessions are open.
    pub fn session_count(&self) -> u64
        ensures { result ≡ length self.now.core.sessions }
    {
        self.sessions.len() as u64
    }

    /// Returns the refusal of a further session, which has the number of open ones.
    pub fn sessions_full(&self) -> Refusal
        ensures { result ≡ moves.sessions_full self.now.core }
    {
        Refusal {
            code: SESSIONS_FULL,
            a: self.session_count(),
            b: 0,
        }
    }

    /// Returns the refusal of an event for which the history has no room; it has the number of
    /// events.
    pub fn history_full(&self) -> Refusal
        ensures { result ≡ moves.history_full self.now.core }
    {
        Refusal {
            code: HISTORY_FULL,
            a: self.book.events(),
            b: 0,
        }
    }

    /// Returns the reply to the open entry. No backend may be behind (`behind`).
    pub fn reply(&self) -> Reply
        requires open { is_free self.now.core.history ≡ false }
        requires behind { moves.first_lagging self.now.core.history 0 self.now.core.positions ≡ None }
        ensures { AnswersOpen B.tells self.now.core result }
    {
        self.tally.reply(self.book.targets())
    }
}

// ---- what moves change

impl<B: Backend, S: Store> State<B, S> {
    /// Opens a session for this user and returns its number, the greatest so far plus 1. A further
    /// session can be opened (`has_no_number`). The session gets no own pass, and opening it takes
    /// no memory.
    pub fn add_session(&mut self, user: Text) -> u64
        requires number { moves.has_no_number self.old.core ≡ false }
        requires user { length user ≤ USER_LIMIT }
        ensures number { result ≡ self.old.core.greatest + 1 }
        ensures opened { self.new ≡ with_core self.old (opened_for self.old.core user) }
    {
        let number = self.book.greatest() + 1;
        self.sessions.open(number, user);
        match self.book.open_session() {
            Ok(_) => number,
            Err(_) => unreachable!(),
        }
    }

    /// Closes session `s`, of which no entry is open.
    pub fn remove_session(&mut self, s: u64)
        requires { moves.is_waiting self.old.core s ≡ false }
        ensures { self.new ≡ with_core self.old (closed_for self.old.core s) }
    {
        self.sessions.close(s);
        self.book.close_session(s);
    }

    /// Counts one request more of session `s`, of which no entry and no read is open.
    pub fn count(&mut self, s: u64)
        requires counts { (session_at self.old.core s).requests < REQUEST_LIMIT }
        requires idle { moves.is_waiting self.old.core s ≡ false }
        requires no_read { (session_at self.old.core s).reading ≡ None }
        ensures { self.new ≡ with_core self.old (with_request_counted self.old.core s) }
    {
        self.sessions.count(s);
    }

    /// Picks the backend of a read among the candidates, by the policy. `None` comes exactly if
    /// there are none.
    ///
    /// The read is counted as over at once, so it is pending at no later pick. That is right where
    /// reads follow each other. Where they go on side by side, each ends only once its backend has
    /// answered.
    pub fn pick(&mut self, candidates: u32) -> Option<u8>
        requires { candidates < 2 ^ BACKEND_LIMIT }
        ensures none { IsNone result ↔ (candidates ≡ 0) }
        ensures first { IfSome result (PicksFirst self.old.balance candidates) }
        ensures picked { IfSome result (λ b. self.new ≡ with_balance self.old (read_over self.old.balance b)) }
        ensures same { IsNone result → self.new ≡ self.old }
    {
        let b = self.book.pick(candidates)?;
        self.book.ended(b);
        Some(b)
    }

    /// Closes the read of session `s` as refused. The read counts as one request, however often it
    /// was tried.
    pub fn refuse_read(&mut self, s: u64)
        requires counts { (session_at self.old.core s).requests < REQUEST_LIMIT }
        requires idle { moves.is_waiting self.old.core s ≡ false }
        ensures { self.new ≡ with_core self.old (with_read self.old.core s was_answered) }
    {
        self.sessions.refuse_read(s);
    }

    /// Closes the read of session `s` as answered at `position`. Later reads of the session need
    /// that position at least.
    pub fn answer_read(&mut self, s: u64, position: u64)
        requires counts { (session_at self.old.core s).requests < REQUEST_LIMIT }
        requires within { position ≤ moves.last_number self.old.core }
        requires idle { moves.is_waiting self.old.core s ≡ false }
        ensures { self.new ≡ with_core self.old (with_read self.old.core s (λ x. answered_at position (was_answered x))) }
    {
        self.sessions.answer_read(s, position);
    }

    /// Keeps the read of session `s` open, with this query. `tried` is the mask of the backends
    /// that have failed in it.
    pub fn keep_reading(&mut self, s: u64, select: Select, tried: u32)
        requires counts { (session_at self.old.core s).requests < REQUEST_LIMIT }
        requires idle { moves.is_waiting self.old.core s ≡ false }
        requires since { HaveFailed self.old.core s tried }
        ensures { self.new ≡ with_core self.old (with_read self.old.core s (still_reading select tried)) }
    {
        self.sessions.keep_reading(s, select, tried);
    }

    /// Schedules an entry of session `s`, counts its request and returns the entry's number. After
    /// an error the request is yet to be counted, and the history has at most the event of a
    /// `LogFault`, which the log's store has counted. Errors other than `LogFault` and `NoMemory`
    /// leave the whole state as it was.
    pub fn schedule_entry(&mut self, s: u64, entry: Entry) -> Result<u64, BookError>
        requires here { moves.is_open self.old.core s ≡ true }
        requires counts { (session_at self.old.core s).requests < REQUEST_LIMIT }
        requires no_read { (session_at self.old.core s).reading ≡ None }
        requires session { entry.session ≡ s }
        requires number { entry.seq ≡ (session_at self.old.core s).requests + 1 }
        requires fits { IsFitEntry (log self.old.core.history) entry }
        ensures scheduled { SchedulesAs self.old.core entry result }
        ensures core { self.new.core ≡ core_scheduled self.old.core s entry result }
        ensures same { IsSameWorldButLog (with_cache (with_core self.old self.new.core) self.new.cache) self.new }
        ensures cache { CacheFollowsLog self.old self.new }
        ensures checked { OnErr result (¬ IsErrOf result BookError.LogFault → ¬ IsErrOf result BookError.NoMemory → self.new ≡ self.old) }
        ensures cause { CountsFault (IsErrOf result BookError.LogFault) self.old.recovery_log.faults self.new.recovery_log.faults }
    {
        match self
            .book
            .schedule(&mut self.recovery_log, &self.board, entry)
        {
            Ok(number) => {
                self.sessions.count(s);
                self.tally = Tally::new();
                Ok(number)
            }
            Err(error) => Err(error),
        }
    }

    /// Schedules the administrator's end of an orphan and returns the entry's number. After an
    /// error the history has at most the event of a `LogFault`, which the log's store has counted.
    /// Errors other than `LogFault` and `NoMemory` leave the whole state as it was.
    pub fn schedule_abort(&mut self, entry: Entry) -> Result<u64, BookError>
        requires orphan { moves.is_orphan self.old.core entry.tx ≡ true }
        requires is { entry ≡ moves.abort_entry self.old.core entry.tx }
        requires fits { IsFitEntry (log self.old.core.history) entry }
        ensures scheduled { SchedulesAs self.old.core entry result }
        ensures core { self.new.core ≡ core_aborted self.old.core entry result }
        ensures same { IsSameWorldButLog (with_cache (with_core self.old self.new.core) self.new.cache) self.new }
        ensures cache { CacheFollowsLog self.old self.new }
        ensures checked { OnErr result (¬ IsErrOf result BookError.LogFault → ¬ IsErrOf result BookError.NoMemory → self.new ≡ self.old) }
        ensures cause { CountsFault (IsErrOf result BookError.LogFault) self.old.recovery_log.faults self.new.recovery_log.faults }
    {
        match self
            .book
            .schedule(&mut self.recovery_log, &self.board, entry)
        {
            Ok(number) => {
                self.tally = Tally::new();
                Ok(number)
            }
            Err(error) => Err(error),
        }
    }

    /// Returns the mask of the backends that ran out of memory in the open entry.
    pub fn starved(&self) -> u32
        ensures { result ≡ self.now.core.starved }
    {
        self.tally.starved
    }

    /// Returns the session of the open entry; there is one.
    pub fn waiting(&self) -> u64
        requires { is_free self.now.core.history ≡ false }
        ensures { (e : Entry) × (histories.open_entry_of self.now.core.history ≡ Some e) × (result ≡ e.session) }
    {
        match self.book.opened() {
            Some(entry) => entry.session,
            None => unreachable!(),
        }
    }

    /// Ends the open entry, which is one of session `s`. No backend is behind (`behind`).
    pub fn end_entry(&mut self, s: u64)
        requires open { is_free self.old.core.history ≡ false }
        requires waits { moves.is_waiting self.old.core s ≡ true }
        requires behind { moves.first_lagging self.old.core.history 0 self.old.core.positions ≡ None }
        ensures { self.new ≡ with_core self.old (ended_for self.old.core s) }
    {
        let number = self.book.length();
        self.sessions.answer(s, number);
        hear_all(&self.board, &mut self.pass, &mut self.book, &mut self.cells);
        self.book
            .end(&self.board, self.tally.failed, self.tally.starved);
        self.tally = Tally::new();
    }

    /// Has backend `b` carry out or skip the open entry. What it did counts for the entry's reply.
    /// A backend that failed or ran out of memory is out.
    pub fn catch_up_open(&mut self, b: u8) -> Did
        requires within { b < self.old.core.placement.backends }
        requires now { not_now self.old.core (Move.Apply b) ≡ None }
        ensures applies { Applies B.tells self.old.core b (Ok (Moved.Applied b result)) self.new.core }
        ensures counts { faults_of self.new.cells ≡ faults_after (faults_of self.old.cells) (if did_fail result then Some b else None) }
        ensures armings { armings_of self.new.cells ≡ armings_of self.old.cells }
        ensures asks { asks_of self.new.cells ≡ asks_of self.old.cells }
        ensures others { (k : ℕ) → k ≢ b → slice_get self.new.cells k ≡ slice_get self.old.cells k }
        ensures logins { LogsInToTake b (login_to_take self.old b) result (logins_of self.old.cells) (logins_of self.new.cells) }
        ensures recovery_log { self.new.recovery_log ≡ self.old.recovery_log }
        ensures setup { self.new.setup ≡ self.old.setup }
        ensures cache { self.new.cache ≡ self.old.cache }
        ensures balance { self.new.balance ≡ self.old.balance }
    {
        let did = take(
            &self.board,
            &mut self.pass,
            &mut self.book,
            &mut self.cells,
            &self.accounts,
            b,
        );
        self.tally.took(b, did);
        did
    }

    /// Has backend `b`, which isn't enabled, carry out or skip the entry after its position. A
    /// backend that failed or ran out of memory is out.
    pub fn catch_up_next(&mut self, b: u8) -> Did
        requires within { b < self.old.core.placement.backends }
        requires now { not_now self.old.core (Move.Replay b) ≡ None }
        ensures replays { Replays B.tells self.old.core b (Ok (Moved.Replayed (moves.position_or_zero (position_at self.old.core b) + 1) result)) self.new.core }
        ensures counts { faults_of self.new.cells ≡ faults_after (faults_of self.old.cells) (if did_fail result then Some b else None) }
        ensures armings { armings_of self.new.cells ≡ armings_of self.old.cells }
        ensures logins { LogsInToTake b (login_to_take self.old b) result (logins_of self.old.cells) (logins_of self.new.cells) }
        ensures recovery_log { self.new.recovery_log ≡ self.old.recovery_log }
        ensures setup { self.new.setup ≡ self.old.setup }
        ensures cache { self.new.cache ≡ self.old.cache }
        ensures balance { self.new.balance ≡ self.old.balance }
    {
        take(
            &self.board,
            &mut self.pass,
            &mut self.book,
            &mut self.cells,
            &self.accounts,
            b,
        )
    }

    /// Asks backend `b` for session `s` in transaction `tx`, 0 for none, and gives the answer with
    /// its position. It is asked for this user, or else for the session's own.
    ///
    /// A failure becomes an event of the history, if that has room; noting it takes no memory. Any
    /// other error leaves the history, and `NoMemory` leaves the whole state as it was.
    pub fn ask(
        &mut self,
        s: u64,
        b: u8,
        user: Option<&Text>,
        tx: u64,
        select: &Select,
    ) -> Result<(Asked, u64), AskError>
        requires within { b < self.old.core.placement.backends }
        requires here { moves.is_open self.old.core s ≡ true }
        requires serves { CanServe self.old.core.placement self.old.core.history (request.Select select.now) b }
        requires written { IsWritten (request.Select select.now) }
        requires counts { (session_at self.old.core s).requests < REQUEST_LIMIT }
        ensures core { self.new.core ≡ asked_core self.old.core s b result }
        ensures asks { Asks B.tells self.old.core s b tx select.now result }
        ensures counts { faults_of self.new.cells ≡ faults_after (faults_of self.old.cells) (failed_asked b result) }
        ensures answered { asks_of self.new.cells ≡ asks_with (asks_of self.old.cells) (answered_by b result) }
        ensures others { (k : ℕ) → k ≢ b → slice_get self.new.cells k ≡ slice_get self.old.cells k }
        ensures armings { armings_of self.new.cells ≡ armings_of self.old.cells }
        ensures logins { AskedUnderLogin b (login_of (accounts_of self.old) (asked_for self.old.core.sessions s (option_copied user.entry)) b) result (logins_of self.old.cells) (logins_of self.new.cells) }
        ensures want { IsErrOf result AskError.NoMemory → self.new ≡ self.old }
        ensures recovery_log { self.new.recovery_log ≡ self.old.recovery_log }
        ensures setup { self.new.setup ≡ self.old.setup }
        ensures cache { self.new.cache ≡ self.old.cache }
        ensures balance { self.new.balance ≡ self.old.balance }
    {
        let least = self.least(s);
        let number = self.read_number(s);
        let login = self
            .accounts
            .mapped(asking_user(&self.sessions, s, user), b);
        match read_at(
            &self.board,
            &mut self.pass,
            &mut self.book,
            &mut self.cells,
            b,
            login,
            tx,
            select,
            least,
        ) {
            Ok(answered) => Ok(answered),
            Err(error) => Err(noted(&self.board, &mut self.book, s, number, b, error)),
        }
    }

    /// Asks backend `b` for all that it holds, drafts included. Nothing but its faults and its
    /// arming may change.
    pub fn contents(&mut self, b: u8) -> Result<Db, CellError>
        requires { b < self.old.core.placement.backends }
        ensures held { IfOk result (IsHeld B.tells self.old.core b) }
        ensures storable { IfOk result IsStorable }
        ensures same { failed_contents b result ≡ None → self.new ≡ self.old }
        ensures core { self.new.core ≡ self.old.core }
        ensures faults { faults_of self.new.cells ≡ faults_after (faults_of self.old.cells) (failed_contents b result) }
        ensures armings { armings_of self.new.cells ≡ armings_of self.old.cells }
        ensures logins { logins_of self.new.cells ≡ logins_of self.old.cells }
        ensures recovery_log { self.new.recovery_log ≡ self.old.recovery_log }
        ensures setup { self.new.setup ≡ self.old.setup }
        ensures cache { self.new.cache ≡ self.old.cache }
        ensures balance { self.new.balance ≡ self.old.balance }
    {
        contents_at(&self.board, &mut self.cells, b)
    }

    /// Makes the next call of backend `b` fail, if it can be armed.
    pub fn arm_backend(&mut self, b: u8)
        requires { b < self.old.core.placement.backends }
        ensures core { self.new.core ≡ self.old.core }
        ensures cells { (d : CellState) → self.new.cells ≡ armed_at B.can_be_armed self.old.cells b d }
        ensures faults { faults_of self.new.cells ≡ faults_of self.old.cells }
        ensures armings { armings_of self.new.cells ≡ armings_after (armings_of self.old.cells) (if B.can_be_armed then Some b else None) }
        ensures logins { logins_of self.new.cells ≡ logins_of self.old.cells }
        ensures recovery_log { self.new.recovery_log ≡ self.old.recovery_log }
        ensures setup { self.new.setup ≡ self.old.setup }
        ensures cache { self.new.cache ≡ self.old.cache }
        ensures balance { self.new.balance ≡ self.old.balance }
    {
        arm_at(&mut self.cells, b);
    }

    /// Disables backend `b`, which is enabled, while no entry is open. An error comes only if the
    /// history has no room for an event, and leaves the state as it was.
    pub fn disable(&mut self, b: u8) -> Result<(), BookError>
        requires free { is_free self.old.core.history ≡ true }
        requires on { histories.is_enabled self.old.core.history b ≡ true }
        ensures room { HadRoom self.old.core result }
        ensures ok { OnOk result (self.new ≡ with_core self.old (happened self.old.core (Event.Disabled b))) }
        ensures err { OnErr result (self.new ≡ self.old) }
    {
        self.book.disable(&self.board, b)
    }

    /// Enables backend `b`, which isn't enabled and is at the end of the log, while no entry is
    /// open. An error comes only if the history has no room for an event, and leaves the state as
    /// it was.
    pub fn enable(&mut self, b: u8) -> Result<(), BookError>
        requires free { is_free self.old.core.history ≡ true }
        requires off { histories.is_enabled self.old.core.history b ≡ false }
        requires there { position_at self.old.core b ≡ Some (moves.last_number self.old.core) }
        ensures room { HadRoom self.old.core result }
        ensures ok { OnOk result (self.new ≡ with_core self.old (happened self.old.core (Event.Enabled b))) }
        ensures err { OnErr result (self.new ≡ self.old) }
    {
        hear(
            &self.board,
            &mut self.pass,
            &mut self.book,
            &mut self.cells,
            b,
        );
        self.book.enable(&self.board, b)
    }

    /// Whether a marker or a dump has the name.
    pub fn is_taken(&self, name: &Name) -> bool
        ensures { result ≡ (histories.has_marker self.now.core.history name.now || is_dumped self.now.core name.now) }
    {
        self.book.is_taken(name) || self.dumps.find(name).is_some()
    }

    /// Marks a checkpoint, while no entry is open, under a name that no marker has. Returns how
    /// many entries come before it. After an error the history has at most the event of a
    /// `LogFault`, which the log's store has counted. Errors other than `LogFault` and `NoMemory`
    /// leave the whole state as it was.
    pub fn mark(&mut self, name: &Name) -> Result<u64, BookError>
        requires free { is_free self.old.core.history ≡ true }
        requires fresh { histories.has_marker self.old.core.history name.now ≡ false }
        requires name { is_name name.now ≡ true }
        ensures room { HadLoggedRoom self.old.core result }
        ensures number { IfOk result (λ n. n ≡ moves.last_number self.old.core) }
        ensures core { self.new.core ≡ core_marked self.old.core name.now result }
        ensures same { IsSameWorldButLog (with_core self.old self.new.core) self.new }
        ensures checked { OnErr result (¬ IsErrOf result BookError.LogFault → ¬ IsErrOf result BookError.NoMemory → self.new ≡ self.old) }
        ensures cause { CountsFault (IsErrOf result BookError.LogFault) self.old.recovery_log.faults self.new.recovery_log.faults }
    {
        self.book
            .mark(&mut self.recovery_log, &self.board, name, None)
    }

    // ---- dumps

    /// Returns the name, source and position of the first dump of this name, or `None` if there is
    /// none.
    pub fn find_dump(&self, name: &Name) -> Option<&TakenDump>
        ensures { option_copied result ≡ find_dump self.now.core.dumps name.now }
    {
        self.dumps.find(name)
    }

    /// Whether backend `b` hosts a table that the dump doesn't cover.
    pub fn hosts_beyond(&self, b: u8, dump: &TakenDump) -> bool
        requires within { b < self.now.core.placement.backends }
        requires taken { (name : List ℕ) × (find_dump self.now.core.dumps name ≡ Some dump.now) }
        ensures { result ≡ hosts_beyond self.now.core.placement b dump.now.source }
    {
        self.book.placement().hosts_beyond(b, dump.source)
    }

    /// Keeps `db`, which is what backend `b` holds, as a dump of this name. Returns how many
    /// entries the backend has taken. `NoMemory` is the only error, and leaves the state as it was.
    pub fn keep_dump(&mut self, b: u8, name: &Name, db: Db) -> Result<u64, NoMemory>
        requires within { b < self.old.core.placement.backends }
        requires now { not_now self.old.core (Move.Dump b name.now) ≡ None }
        requires named { is_name name.now ≡ true }
        requires storable { IsStorable db }
        requires held { IsHeld B.tells self.old.core b db }
        ensures position { IfOk result (λ n. position_at self.old.core b ≡ Some n) }
        ensures ok { IfOk result (λ n. self.new ≡ with_core self.old (dumped_as self.old.core b name.now n)) }
        ensures err { OnErr result (self.new ≡ self.old) }
    {
        let Some(position) = self.position(b) else {
            unreachable!()
        };
        let covers = self.book.placement().covered(self.alloc, b)?;
        let dump = Dump {
            position,
            source: b,
            name: name.copy(),
            all: self.book.placement().all(),
            covers,
            db,
        };
        self.dumps.add(&dump)?;
        Ok(position)
    }

    /// Reads the first dump of this name, with only those of its tables that backend `b` hosts.
    fn cut_dump(&mut self, b: u8, name: &Name) -> Result<Dump, NoMemory>
        requires within { b < self.old.core.placement.backends }
        requires now { not_now self.old.core (Move.Load b name.now) ≡ None }
        ensures storable { IfOk result (λ d. IsStorable d.db) }
        ensures found { IfOk result (λ d. find_dump self.old.core.dumps name.now ≡ Some (taken_of d)) }
        ensures held { IfOk result (λ d. B.tells ≡ true → d.db ≡ part self.old.core.placement b (database_after (log self.old.core.history) d.position)) }
        ensures same { self.new ≡ self.old }
    {
        match self.dumps.read(name)? {
            Some(dump) => Ok(cut(dump, self.book.placement(), b)),
            None => unreachable!(),
        }
    }

    /// Loads the first dump of this name into backend `b`, which is out, with only the tables that
    /// it hosts. Returns the dump's position, at which the backend then is. After an error the
    /// backend is still out.
    pub fn load_dump(&mut self, b: u8, name: &Name) -> Result<u64, CellError>
        requires within { b < self.old.core.placement.backends }
        requires now { not_now self.old.core (Move.Load b name.now) ≡ None }
        ensures ok { IfOk result (λ n. LoadsDump B.tells self.old.core b name.now n self.new.core) }
        ensures err { OnErr result (self.new.core ≡ self.old.core) }
        ensures faults { faults_of self.new.cells ≡ faults_after (faults_of self.old.cells) (failed_contents b result) }
        ensures armings { armings_of self.new.cells ≡ armings_of self.old.cells }
        ensures logins { logins_of self.new.cells ≡ logins_of self.old.cells }
        ensures recovery_log { self.new.recovery_log ≡ self.old.recovery_log }
        ensures setup { self.new.setup ≡ self.old.setup }
        ensures cache { self.new.cache ≡ self.old.cache }
        ensures balance { self.new.balance ≡ self.old.balance }
    {
        let Dump { position, db, .. } = self.cut_dump(b, name)?;
        load_at(
            &self.board,
            &mut self.pass,
            &mut self.book,
            &mut self.cells,
            b,
            db,
            position,
        )?;
        Ok(position)
    }

    // ---- the result cache

    /// Whether the cache has the answer of the query, which then moves to the front. This counts a
    /// hit or a miss.
    pub fn look(&mut self, select: &Select) -> bool
        ensures found { result ≡ has_answer select.now self.old.cache }
        ensures looked { self.new ≡ with_cache self.old (after_look select.now self.old.cache) }
    {
        self.book.look(select)
    }

    /// Returns the answer of the query that the cache has, if any. This counts neither a hit nor a
    /// miss.
    pub fn kept(&self, select: &Select) -> Option<&Answer>
        ensures { option_copied result ≡ answer_kept select.now self.now.cache }
    {
        self.book.kept(select)
    }

    /// Keeps the answer of a query at the log's end. `NoMemory` is the only error, and leaves the
    /// state as it was.
    pub fn keep(&mut self, select: Select, answer: Answer) -> Result<(), NoMemory>
        requires possible { IsAnswer answer }
        requires right { B.tells ≡ true → IsAnswerAt (log self.old.core.history) (moves.last_number self.old.core) select (Rows answer) }
        ensures ok { OnOk result (self.new ≡ with_cache self.old (after_keep (record { select = select; answer = answer; at = moves.last_number self.old.core }) self.old.cache)) }
        ensures err { OnErr result (self.new ≡ self.old) }
    {
        let end = self.book.length();
        // No entry comes after the log's end, so the answer is kept.
        self.book.keep(select, answer, end)?;
        Ok(())
    }

    /// Whether the cache never keeps an answer.
    pub fn keeps_none(&self) -> bool
        ensures { result ≡ true → (e : Cached) → after_keep e self.now.cache ≡ self.now.cache }
    {
        self.book.keeps_none()
    }

    /// Returns the hits and the misses of the cache.
    pub fn cache_counts(&self) -> (u64, u64)
        ensures { result ≡ (self.now.cache.hits, self.now.cache.misses) }
    {
        self.book.counts()
    }
}

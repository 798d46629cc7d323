//! The type `Book`: its fields, its view and invariant for contracts, and how it is opened.

ghost use Rattle.std.specs.Prelude.{◌≡◌, ◌≢◌, ◌+◌, ◌-◌, ◌*◌, ◌≤◌, None, Some, true, [], length, IfOk};
ghost use Rattle.cj_model.specs.declared.limits.TheConstants.{EVENT_LIMIT, SESSION_NUMBER_LIMIT};
ghost use Rattle.cj_model.specs.declared.request.Entry.{Entry};
ghost use Rattle.cj_cluster.specs.History.Histories.{ended_count, events_left, is_free, log};
ghost use Rattle.cj_cluster.specs.History.Legality.{IsLegal};
ghost use Rattle.cj_outside.specs.Stores.{Only};
ghost use Rattle.cj_board.specs.Seats.{board_id, book_board, book_view};
ghost use Rattle.cj_book.specs.BookLogs.{opened_state, LogFollows};
ghost use Rattle.cj_book.specs.Books.{IsOfGiven, IsOfKnown};
ghost use Rattle.cj_book.specs.Found.{start_error_of, entry_error_of};
ghost use Rattle.cj_book.specs.Seated.{GivesOwnPassesOnly, OwnersAreOpen};
ghost use Rattle.cj_book.specs.declared.pending.Pending.TheVariants as pending;
ghost use Rattle.cj_book.specs.Starts.{CountsStartFault, IsStarted, Starts};

use crate::book_log::BookLog;
use crate::error::StartError;
use crate::pending::Pending;
use crate::recovered::recover;
use cj_balance::Balancer;
use cj_board::{Board, BookSeat};
use cj_cache::Cache;
use cj_cluster::BoxedEntry;
use cj_log::{Log, LogMarker};
use cj_outside::Store;
use cj_place::Placement;
use cj_records::RecordsError;
use cj_recovery::OpeningError;
use cj_transactions::{BookSessions, OpenTransactions};
use std::alloc::Global;
use std::marker::Model;
use std::snapshot::Snapshot;

/// The parts that the caller gives to a new book.
#[derive(Drop)]
pub struct BookParts {
    pub placement: Placement,
    pub balancer: Balancer,
    /// The cache, which has kept and counted nothing.
    pub cache: Cache,
}

/// The log of a cluster, and what follows from its history.
///
/// The history is what the book's seat at the board has seen, and no list of events is kept: each event comes to the
/// board in the call that brings it. A mask has bit b for backend b. Entries are numbered from 1.
///
/// The recovery log is beside it (`BookLog`). An entry or a marker is pending while its item is on its way into the
/// log. Then no other event comes. Reads go on.
#[derive(Drop)]
pub struct Book {
    pub(crate) alloc: Global,
    pub(crate) placement: Placement,
    pub(crate) balancer: Balancer,
    pub(crate) cache: Cache,
    pub(crate) entries: Vec<BoxedEntry>,
    /// How many entries ended.
    pub(crate) done: usize,
    /// The mask of the enabled backends.
    pub(crate) enabled: u32,
    /// The mask of the targets of the open entry; 0 where none is open.
    pub(crate) targets: u32,
    pub(crate) sessions: BookSessions,
    /// The greatest session number given.
    pub(crate) greatest: u64,
    pub(crate) transactions: OpenTransactions,
    /// The markers of the history.
    pub(crate) markers: Vec<LogMarker>,
    /// What is on its way into the log, an entry or a marker. Its writer has what is prepared for it.
    pub(crate) pending: Option<Pending>,
    pub(crate) seat: BookSeat,
}

impl Model for Book {
    ghost use Rattle.std.specs.Prelude.{◌-◌, length, map, vec_capacity};
    ghost use Rattle.cj_board.specs.Seats.{book_board, book_view};
    ghost use Rattle.cj_book.specs.Kept.{IsKeptBook};
    ghost use Rattle.cj_book.specs.Pendings.{KeepsPending};
    ghost use Rattle.cj_book.specs.Seated.{SeatedBook};
    ghost use Rattle.cj_transactions.specs.Lists.{session_number};

    ghost Value = { SeatedBook };

    ghost use Rattle.std.specs.Coded.{codes};
    ghost use Rattle.cj_model.specs.Proving.ConditionCode.{coded_condition};

    ghost coded = { Prim.hlevel (codes, coded_condition) };

    ghost view = { λ book. record {
      state = record { layout = book.placement; history = (book_view book.seat).front; sessions = map session_number book.sessions; greatest = book.greatest; balance = book.balancer; cache = book.cache };
      board = book_board book.seat;
      view = book_view book.seat;
      pending = book.pending;
    } };

    ghost invariant = { λ book. IsKeptBook book.placement (book_view book.seat).front book.entries.items book.done book.enabled book.greatest book.targets book.sessions book.transactions.list book.markers.items (book_view book.seat).given
        × KeepsPending (book_view book.seat).front (vec_capacity book.entries - length book.entries.items) (vec_capacity book.markers - length book.markers.items) book.transactions.places book.pending };
}

/// Returns the book's error for a refusal of the log's records.
fn start_error(error: RecordsError) -> StartError
    ensures { result ≡ start_error_of error }
{
    match error {
        RecordsError::Failed => StartError::StoreFault,
        RecordsError::BadRecord(offset) => StartError::BadRecord(offset),
        RecordsError::NoMemory => StartError::NoMemory,
    }
}

/// Returns the book's error for log items that open no history.
fn entry_error(error: OpeningError) -> StartError
    ensures { result ≡ entry_error_of error }
{
    match error {
        OpeningError::BadEntry(n) => StartError::BadEntry(n),
        OpeningError::NoMemory => StartError::NoMemory,
    }
}

impl Book {
    /// Opens the book of the log in a store, which is begun where the store is new, at a seat that has seen nothing.
    /// What it finds comes to the board. The log is beside the book, and follows its history.
    ///
    /// The items of the log are read first (`BadRecord`), and then the history that they open with (`BadEntry`).
    /// Refused, it hands the store back, in which nothing was written but the bytes of a new file.
    pub fn open<S: Store>(
        alloc: Global,
        parts: BookParts,
        store: S,
        board: &Board,
        seat: BookSeat,
    ) -> Result<(Book, BookLog<S>), (StartError, S)>
        requires store { S.tells ≡ true → Only (S.held store) (S.may store) }
        requires board { book_board seat ≡ board_id board.now }
        requires none { ((book_view seat).front ≡ []) × ((book_view seat).given ≡ []) }
        ensures started { IfOk result (λ opened. IsStarted parts.placement parts.balancer parts.cache opened.0.state opened.1.log) }
        ensures bytes { S.tells ≡ true → Starts S.held (S.held store) (opened_state result) }
        ensures cause { CountsStartFault S.faults (S.faults store) (opened_state result) }
        ensures follows { IfOk result (λ opened. LogFollows S.tells S.faults opened.1 opened.0.state.history) }
        ensures board { IfOk result (λ opened. opened.0.board ≡ board_id board.now) }
        ensures opening { IfOk result (λ opened. opened.1.faults_at_opening ≡ S.faults store) }
        ensures view { IfOk result (λ opened. opened.0.view ≡ record (book_view seat) { front = opened.0.state.history }) }
        ensures pending { IfOk result (λ opened. opened.0.pending ≡ None) }
        ensures gives { (book_view seat).last_given ≡ 0 → IfOk result (λ opened. GivesOwnPassesOnly opened.0) }
    {
        let mut seat = seat;
        let opened_with = Snapshot::of(&store);
        let (log, items) = match Log::open(alloc, store) {
            Ok(opened) => opened,
            Err((error, store)) => return Err((start_error(error), store)),
        };
        let Ok(sessions) = BookSessions::new(alloc) else {
            return Err((StartError::NoMemory, log.into_store()));
        };
        // There are some backends, and not too many.
        let _ = parts.placement.count();
        match recover(alloc, &parts.placement, items.as_slice(), board, &mut seat) {
            Ok(found) => {
                let book = Book {
                    alloc,
                    placement: parts.placement,
                    balancer: parts.balancer,
                    cache: parts.cache,
                    done: found.entries.len(),
                    entries: found.entries,
                    enabled: 0,
                    targets: 0,
                    sessions,
                    greatest: found.greatest,
                    transactions: found.transactions,
                    markers: found.markers,
                    pending: None,
                    seat,
                };
                Ok((book, BookLog { log, opened_with }))
            }
            Err(error) => Err((entry_error(error), log.into_store())),
        }
    }

    /// Shows what holds of all books: the history is one that can be, the seat has seen it, and the numbers of open
    /// sessions were given. At most one entry is open, and its end has room in the history. A session that has an own
    /// pass is open. While an entry or a marker is pending, no entry is open, and an entry has room until it ends.
    pub fn legal(&self)
        ensures legal { IsLegal self.now.state.history }
        ensures front { self.now.view.front ≡ self.now.state.history }
        ensures one_open { (ended_count self.now.state.history ≤ length (log self.now.state.history)) × (length (log self.now.state.history) ≤ ended_count self.now.state.history + 1) }
        ensures room { length self.now.state.history + 2 * (length (log self.now.state.history) - ended_count self.now.state.history) ≤ EVENT_LIMIT }
        ensures given { (e : Entry) → IsOfKnown self.now.state e → e.session ≤ self.now.state.greatest }
        ensures known { (e : Entry) → IsOfKnown self.now.state e → IsOfGiven self.now.state e }
        ensures within { self.now.state.greatest ≤ SESSION_NUMBER_LIMIT }
        ensures owned { OwnersAreOpen self.now }
        ensures pending { self.now.pending ≢ None → is_free self.now.state.history ≡ true }
        ensures space { self.now.pending ≡ Some pending.Entry → 3 ≤ events_left self.now.state.history }
    {
        let _ = &self.seat;
    }
}

//! Sessions with own passes at one book: passes are split and joined again, notes are passed on, and an event is
//! counted.

ghost use Rattle.std.specs.Prelude.{◌≡◌, ◌+◌, ℕ, true, [], ◌∷◌, ◌++◌, Contains, IfOk};
ghost use mathlib.Core.List.{IsPrefix};
ghost use Rattle.cj_cluster.specs.declared.event.Event.{Event};
ghost use Rattle.cj_board.specs.Seats.{board_id, book_board, book_view, cell_board, front, pass_board, pass_view, position};
ghost use Rattle.cj_board.specs.Views.{book_with_cells};
ghost use Rattle.cj_book.specs.BookLogs.{LogFollows};
ghost use Rattle.cj_outside.specs.Memory.{State};
ghost use Rattle.cj_part_tests.specs.OwnPasses.{IsAtBoard};

use crate::given::{name, select, text};
use cj_balance::Balancer;
use cj_board::{Board, BookSeat, CellSeat, Pass};
use cj_book::{Book, BookError, BookLog, BookParts};
use cj_cache::Cache;
use cj_model::{Act, BACKEND_LIMIT, Entry, Level, ListOf, Policy, Text, USER_LIMIT};
use cj_outside::{MemStore, Store};
use cj_place::Placement;
use std::alloc::Global;
use std::process::Abort;
use std::test::Fail;

/// The parts of a book over one backend.
fn parts(rt: &impl Abort, alloc: Global) -> Result<BookParts, Fail> {
    let names = Vec::from_array(alloc, [name(rt, "b0")])?;
    let Ok(placement) = Placement::new(
        alloc,
        Level::Raidb1,
        ListOf::from_vec(names),
        ListOf::new(alloc),
    ) else {
        panic!(rt; "placement")
    };
    let Ok(cache) = Cache::new(alloc, 4) else {
        panic!(rt; "cache")
    };
    let balancer = Balancer::new(Policy::RoundRobin, [1; BACKEND_LIMIT as usize]);
    Ok(BookParts {
        placement,
        balancer,
        cache,
    })
}

/// The book of a new log, at its seat, and the log.
fn opened(
    rt: &impl Abort,
    alloc: Global,
    parts: BookParts,
    board: &Board,
    seat: BookSeat,
) -> (Book, BookLog<MemStore>)
    requires board { book_board seat ≡ board_id board.now }
    requires none { book_view seat ≡ book_with_cells 1 }
    ensures book { IsAtBoard (board_id board.now) result.0 }
    ensures follows { LogFollows true (λ (store : State). store.faults) result.1 result.0.state.history }
{
    let store = MemStore::new(Vec::new(alloc), Vec::new(alloc));
    match Book::open(alloc, parts, store, board, seat) {
        Ok(opened) => opened,
        Err(_) => panic!(rt; "book"),
    }
}

/// The seat of the one backend's cell, and of the book, at a new board.
fn seated(rt: &impl Abort, alloc: Global) -> (Board, BookSeat, CellSeat)
    ensures one { result.0.backends ≡ 1 }
    ensures board { (book_board result.1 ≡ board_id result.0) × (cell_board result.2 ≡ board_id result.0) }
    ensures book { book_view result.1 ≡ book_with_cells 1 }
    ensures cell { (result.2.b ≡ 0) × (position result.2 ≡ 0) }
{
    let Ok((board, seat, seats, _)) = Board::new(alloc, 1) else {
        panic!(rt; "board")
    };
    let mut seats = seats.into_vec();
    let Some(cell) = seats.pop() else {
        unreachable!()
    };
    (board, seat, cell)
}

/// Splits a pass off that looks at the one backend, and joins it again.
fn look_apart(board: &Board, pass: &mut Pass) -> Option<u64>
    requires one { board.now.backends ≡ 1 }
    requires board { pass_board pass.old ≡ board_id board.now }
    ensures board { pass_board pass.new ≡ pass_board pass.old }
    ensures own { (pass_view pass.new).own_session ≡ (pass_view pass.old).own_session }
    ensures seen { IsPrefix (front pass.old) (front pass.new) }
{
    let mut other = board.split(pass);
    let found = board.look(&mut other, 0);
    board.rejoin(pass, other);
    found
}

/// The book passes on to one session what the pass of another has noted.
fn pass_on(board: &Board, book: &mut Book, from: &mut Pass, to: &mut Pass)
    requires book { IsAtBoard (board_id board.now) book.old }
    requires passes { (pass_board from.old ≡ board_id board.now) × (pass_board to.old ≡ board_id board.now) }
    ensures book { IsAtBoard (board_id board.now) book.new }
    ensures passes { (pass_board from.new ≡ board_id board.now) × (pass_board to.new ≡ board_id board.now) }
    ensures owners { ((pass_view from.new).own_session ≡ (pass_view from.old).own_session) × ((pass_view to.new).own_session ≡ (pass_view to.old).own_session) }
    ensures told { front to.new ≡ book.new.state.history }
    ensures noted { (note : ℕ × ℕ) → Contains (pass_view from.old).position_notes note → Contains (pass_view to.new).position_notes note }
{
    book.learn(board, from);
    book.tell(board, to);
}

#[test]
fn what_one_session_has_noted_another_learns(rt: HostRuntime) -> Result<(), Fail> {
    let alloc = rt.alloc();
    let parts = parts(&rt, alloc)?;
    let query = select(&rt, alloc, "SELECT k FROM t");
    let (board, seat, _) = seated(&rt, alloc);
    let (mut book, _) = opened(&rt, alloc, parts, &board, seat);
    let (Ok((first, mut ann)), Ok((second, mut bob))) = (
        book.open_own(&board),
        book.open_own(&board),
    ) else {
        panic!(&rt; "sessions")
    };
    assert!(rt; first == 1 && second == 2);
    assert!(rt; look_apart(&board, &mut ann) == Some(0));
    pass_on(&board, &mut book, &mut ann, &mut bob);
    book.close_own(&board, first, ann);
    assert!(rt; !book.is_session_open(1) && book.is_session_open(2));
    book.close_own(&board, second, bob);
    assert!(rt; !book.is_session_open(2));
    assert!(rt; !book.look(&query) && book.counts() == (0, 1));
    Ok(())
}

/// The one backend becomes enabled at the end of a log that has no entry.
fn enable<S: Store>(
    rt: &impl Abort,
    board: &Board,
    book: &mut Book,
    recovery_log: &BookLog<S>,
    cell: &mut CellSeat,
    pass: &mut Pass,
)
    requires book { IsAtBoard (board_id board.now) book.old }
    requires follows { LogFollows S.tells S.faults recovery_log.now book.old.state.history }
    requires cell { (cell_board cell.old ≡ board_id board.now) × (cell.old.b ≡ 0) × (position cell.old ≡ 0) }
    requires pass { pass_board pass.old ≡ board_id board.now }
    ensures book { IsAtBoard (board_id board.now) book.new }
    ensures follows { LogFollows S.tells S.faults recovery_log.now book.new.state.history }
    ensures enabled { book.new.state.history ≡ book.old.state.history ++ Event.Enabled 0 ∷ [] }
    ensures pass { (pass_board pass.new ≡ board_id board.now) × ((pass_view pass.new).own_session ≡ (pass_view pass.old).own_session) }
{
    assert!(rt; book.length() == 0);
    assert!(rt; book.is_free());
    assert!(rt; !book.is_enabled(0));
    assert!(rt; 0 < book.placement().count());
    board.report(cell, pass);
    book.learn(board, pass);
    let Ok(()) = book.enable(board, 0) else {
        panic!(rt; "history")
    };
}

/// The first session schedules the first entry, which begins a transaction. Its own pass has then counted the event,
/// and has seen the history.
fn begin<S: Store>(
    rt: &impl Abort,
    board: &Board,
    book: &mut Book,
    recovery_log: &mut BookLog<S>,
    pass: &mut Pass,
    user: Text,
) -> Result<u64, BookError>
    requires book { IsAtBoard (board_id board.now) book.old }
    requires follows { LogFollows S.tells S.faults recovery_log.old book.old.state.history }
    requires pass { (pass_board pass.old ≡ board_id board.now) × ((pass_view pass.old).own_session ≡ 1) }
    ensures book { IsAtBoard (board_id board.now) book.new }
    ensures pass { (pass_board pass.new ≡ board_id board.now) × ((pass_view pass.new).own_session ≡ 1) }
    ensures counted { IfOk result (λ _. (pass_view pass.new).count ≡ (pass_view pass.old).count + 1) }
    ensures told { front pass.new ≡ book.new.state.history }
{
    assert!(rt; user.len() <= USER_LIMIT);
    assert!(rt; book.length() == 0);
    let entry = Entry {
        session: 1,
        seq: 1,
        tx: 0,
        user,
        act: Act::Begin,
    };
    book.schedule_own(recovery_log, board, pass, entry)
}

#[test]
fn an_own_pass_counts_an_entry(rt: HostRuntime) -> Result<(), Fail> {
    let alloc = rt.alloc();
    let parts = parts(&rt, alloc)?;
    let user = text(&rt, alloc, "ann")?;
    let (board, seat, mut cell) = seated(&rt, alloc);
    let (mut book, mut recovery_log) = opened(&rt, alloc, parts, &board, seat);
    let Ok((session, mut pass)) = book.open_own(&board) else {
        panic!(&rt; "session")
    };
    assert!(rt; session == 1);
    enable(&rt, &board, &mut book, &recovery_log, &mut cell, &mut pass);
    let number = begin(&rt, &board, &mut book, &mut recovery_log, &mut pass, user);
    assert!(rt; number == Ok(1));
    assert!(rt; book.events() == 2 && !book.is_free());
    book.close_own(&board, session, pass);
    assert!(rt; !book.is_session_open(1));
    Ok(())
}

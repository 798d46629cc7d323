//! A change in which one of two backends fails: the steps of a world's book and cells, in their order.

ghost use Rattle.std.specs.Prelude.{◌≡◌, ◌<◌, ◌≤◌, ℕ, [], ◌∷◌, length, Contains, IfOk};
ghost use Rattle.cj_cluster.specs.declared.event.Event.{Event};
ghost use Rattle.cj_cluster.specs.History.Histories.{log};
ghost use Rattle.cj_cluster.specs.History.Legality.{IsFitEntry};
ghost use Rattle.cj_board.specs.Points.{fault_tokens_of, max_word};
ghost use Rattle.cj_board.specs.Seats.{board_id, book_board, book_view, cell_board, cell_view, front, history, pass_board, position};
ghost use Rattle.cj_part_tests.specs.BoardRows.{after_scheduling, AreSeatsOf};

use cj_board::{Board, BookSeat, CellSeat, Pass};
use cj_cluster::{BoxedEntry, Event};
use cj_model::{Act, Entry, NoMemory, Text};
use std::alloc::Global;
use std::process::Abort;
use std::test::Fail;

/// The book learns the positions of both cells and their faults.
fn hear_both(
    board: &Board,
    book: &mut BookSeat,
    first: &mut CellSeat,
    second: &mut CellSeat,
    pass: &mut Pass,
)
    requires at { AreSeatsOf (board_id board.now) (book_board book.old) (cell_board first.old) (cell_board second.old) (pass_board pass.old) }
    ensures at { AreSeatsOf (board_id board.now) (book_board book.new) (cell_board first.new) (cell_board second.new) (pass_board pass.new) }
    ensures numbers { (first.new.b ≡ first.old.b) × (second.new.b ≡ second.old.b) }
    ensures positions { (position first.new ≡ position first.old) × (position second.new ≡ position second.old) }
    ensures book { (history book.new ≡ history book.old) × ((book_view book.new).given ≡ (book_view book.old).given) }
    ensures first { position first.old < max_word → Contains (book_view book.new).position_notes (first.old.b, position first.old) }
    ensures second { position second.old < max_word → Contains (book_view book.new).position_notes (second.old.b, position second.old) }
    ensures tokens { (k : ℕ) → fault_tokens_of k (cell_view second.old).fault_tokens ≤ fault_tokens_of k (book_view book.new).fault_tokens }
{
    board.report(first, pass);
    board.report(second, pass);
    board.learn(book, pass);
}

/// Both backends become enabled, and an entry is scheduled.
fn schedule(board: &Board, book: &mut BookSeat, entry: BoxedEntry)
    requires board { book_board book.old ≡ board_id board.now }
    requires fit { IsFitEntry [] entry }
    requires none { (history book.old ≡ []) × ((book_view book.old).given ≡ []) }
    requires notes { Contains (book_view book.old).position_notes (0, 0) × Contains (book_view book.old).position_notes (1, 0) }
    ensures board { book_board book.new ≡ book_board book.old }
    ensures book { book_view book.new ≡ after_scheduling entry (book_view book.old) }
{
    board.append(book, &Event::Enabled { b: 0 });
    board.append(book, &Event::Enabled { b: 1 });
    board.append(book, &Event::Sched(entry));
}

/// Both cells are told. The first takes the one entry, and the backend of the second fails.
fn take(
    board: &Board,
    book: &mut BookSeat,
    first: &mut CellSeat,
    second: &mut CellSeat,
    pass: &mut Pass,
)
    requires at { AreSeatsOf (board_id board.now) (book_board book.old) (cell_board first.old) (cell_board second.old) (pass_board pass.old) }
    requires numbers { (first.old.b ≡ 0) × (second.old.b ≡ 1) }
    requires begin { (position first.old ≡ 0) × (position second.old ≡ 0) }
    requires one { length (log (history book.old)) ≡ 1 }
    ensures at { AreSeatsOf (board_id board.now) (book_board book.new) (cell_board first.new) (cell_board second.new) (pass_board pass.new) }
    ensures numbers { (first.new.b ≡ 0) × (second.new.b ≡ 1) }
    ensures book { (history book.new ≡ history book.old) × ((book_view book.new).given ≡ (book_view book.old).given) }
    ensures took { position first.new ≡ 1 }
    ensures token { 0 < fault_tokens_of 1 (cell_view second.new).fault_tokens }
{
    board.tell(book, pass);
    board.brief(first, pass);
    board.brief(second, pass);
    board.advance(first);
    board.out(second);
    board.note_fault(second);
}

/// The whole change: returns the book, and the pass that the book told in the end.
fn change(alloc: Global, entry: BoxedEntry) -> Result<(BookSeat, Pass), NoMemory>
    requires { IsFitEntry [] entry }
    ensures { IfOk result (λ r. front r.1 ≡ Event.Enabled 0 ∷ Event.Enabled 1 ∷ Event.Sched entry ∷ Event.Ended 2 0 ∷ []) }
{
    let (board, mut book, seats, mut pass) = Board::new(alloc, 2)?;
    let mut seats = seats.into_vec();
    let (Some(mut second), Some(mut first)) = (seats.pop(), seats.pop()) else {
        unreachable!()
    };
    hear_both(&board, &mut book, &mut first, &mut second, &mut pass);
    schedule(&board, &mut book, entry);
    take(&board, &mut book, &mut first, &mut second, &mut pass);
    hear_both(&board, &mut book, &mut first, &mut second, &mut pass);
    board.append(
        &mut book,
        &Event::Ended {
            failed: 2,
            starved: 0,
        },
    );
    board.tell(&mut book, &mut pass);
    Ok((book, pass))
}

#[test]
fn one_of_two_fails(rt: HostRuntime) -> Result<(), Fail> {
    let alloc = rt.alloc();
    let Some(user) = Text::of(Vec::new(alloc)) else {
        return Err(Fail::from("a text"));
    };
    let Ok(entry) = BoxedEntry::new(
        alloc,
        Entry {
            session: 1,
            seq: 1,
            tx: 0,
            user,
            act: Act::Begin,
        },
    ) else {
        return Err(Fail::from("memory"));
    };
    let Ok((book, _)) = change(alloc, entry) else {
        return Err(Fail::from("memory"));
    };
    assert!(rt; book.len() == 4);
    Ok(())
}

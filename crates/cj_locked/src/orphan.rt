//! How the administrator ends an orphan, which is an open transaction whose session isn't open.

ghost use Rattle.std.specs.Prelude.{◌≡◌, ◌↔◌, ℕ, false, true, None, IfErr, IfOk, IfSome, IsNone, OnErr, is_none};
ghost use Rattle.cj_model.specs.Cluster.Masks.{in_mask};
ghost use Rattle.cj_cluster.specs.History.Histories.{is_enabled, log};
ghost use Rattle.cj_cluster.specs.History.Legality.{IsLegal};
ghost use Rattle.cj_board.specs.Seats.{front, pass_view};
ghost use Rattle.cj_book.specs.Books as books;
ghost use Rattle.cj_place.specs.Layouts.{placement_of};
ghost use Rattle.cj_locked.specs.Orphans.{abort_entry_of, BeginsAbortSince, IsAbortOf, RefusesAbort, RefusesAppendedSince, SchedulesAbortSince};
ghost use Rattle.cj_pass.specs.Passes.{HasNotedMore};
ghost use Rattle.cj_locked.specs.Writing.{HoldsAppended, HoldsEntry};

use crate::book::{Begun, LockedBook, OpenEntry, refusal_weight};
use crate::turn::{Turn, taken};
use cj_book::{BegunEntry, BookError, Counter, Prepared};
use cj_log::LogError;
use cj_model::{Act, Duplicate, Entry, NoMemory};
use cj_outside::Store;
use cj_pass::{NamedBoard, Naming, Pass};
use std::alloc::Global;

/// What the administrator has while the entry that ends an orphan is on its way into the recovery log.
pub struct BegunAbort<J: Naming, S: Store> {
    pub begun: Begun<J, S>,
    pub entry: Entry,
    /// A copy for the cells, since the book keeps the entry.
    pub copy: Entry,
}

impl<J: Naming, S: Store + Drop> LockedBook<J, S> {
    /// Returns whether the transaction is an orphan. One that is stays one until its end is scheduled, since no session
    /// opens again.
    pub fn is_orphan(&self, tx: u64) -> bool
        ensures { result ≡ books.is_orphan self.now.book.state tx }
    {
        self.book.is_orphan(tx)
    }

    /// Begins the entry that ends an orphan, for the user who began it, while nobody has the turn. None if and only if
    /// the transaction is no orphan. Refused, the turn stays.
    pub fn begin_abort(
        &mut self,
        alloc: Global,
        board: &NamedBoard<J>,
        pass: &mut Pass<J>,
        tx: u64,
    ) -> Result<Option<BegunAbort<J, S>>, BookError>
        requires vacant { is_none self.old.log ≡ false }
        ensures ok { IfOk result (λ begun. IfSome begun (λ x. BeginsAbortSince S.tells S.faults (placement_of J.layout) (front pass.old.seat) (front pass.new.seat) tx x.entry x.copy x.begun.prepared x.begun.turn.share.amount x.begun.turn.log x.begun.item)) }
        ensures none { IfOk result (λ begun. IsNone begun ↔ (books.is_orphan self.old.book.state tx ≡ false)) }
        ensures err { IfErr result (RefusesAbort (front pass.new.seat)) }
        ensures more { HasNotedMore (pass_view pass.old.seat) (pass_view pass.new.seat) }
        ensures legal { IsLegal (front pass.new.seat) }
        ensures told { front pass.new.seat ≡ self.new.book.state.history }
        ensures state { self.new.book.state ≡ self.old.book.state }
        ensures back { OnErr result (is_none self.new.log ≡ false) }
        ensures still { IfOk result (λ begun. IsNone begun → is_none self.new.log ≡ false) }
    {
        self.tell(board, pass);
        if !self.book.is_orphan(tx) {
            return Ok(None);
        }
        let entry = self.abort_entry(alloc, tx)?;
        let copy = self.abort_entry(alloc, tx)?;
        let begun = self.begin_orphan(&entry)?;
        Ok(Some(BegunAbort { begun, entry, copy }))
    }

    /// Makes the entry that ends an orphan, for the user who began it. `NoMemory` is the only error.
    fn abort_entry(&self, alloc: Global, tx: u64) -> Result<Entry, NoMemory>
        requires { books.is_orphan self.now.book.state tx ≡ true }
        ensures { IfOk result (λ e. e ≡ abort_entry_of (log self.now.book.state.history) tx) }
    {
        match self.book.entry(tx) {
            Some(begin) => Ok(Entry {
                session: 0,
                seq: 0,
                tx,
                user: begin.user.copy(alloc)?,
                act: Act::Abort,
            }),
            None => unreachable!(),
        }
    }

    /// Begins the entry that ends an orphan, of which no pass hears.
    fn begin_orphan(&mut self, e: &Entry) -> Result<Begun<J, S>, BookError>
        requires vacant { is_none self.old.log ≡ false }
        requires orphan { books.is_orphan self.old.book.state e.now.tx ≡ true }
        requires is { e.now ≡ abort_entry_of (log self.old.book.state.history) e.now.tx }
        ensures ok { IfOk result (λ begun. BeginsAbortSince S.tells S.faults (placement_of J.layout) self.old.book.state.history self.old.book.state.history e.now.tx e.now e.now begun.prepared begun.turn.share.amount begun.turn.log begun.item) }
        ensures err { IfErr result (RefusesAbort self.old.book.state.history) }
        ensures state { self.new.book.state ≡ self.old.book.state }
        ensures back { OnErr result (is_none self.new.log ≡ false) }
    {
        let mut turn = taken(&mut self.turn);
        turn.audit(&mut self.ledger);
        self.book.legal();
        match self.book.begin_entry(e) {
            Ok(BegunEntry { item, prepared }) => {
                turn.count(&mut self.ledger, 1);
                Ok(Begun {
                    item,
                    prepared,
                    turn,
                })
            }
            Err(error) => {
                self.turn = Some(turn.keep());
                Err(error)
            }
        }
    }

    /// Finishes what `begin_abort` began, once the log was asked to append the item. The entry is open then, and the
    /// turn is the administrator's until `end`. Where the log refused, the turn is there again.
    pub fn finish_abort(
        &mut self,
        board: &NamedBoard<J>,
        pass: &mut Pass<J>,
        turn: Turn<J, S>,
        e: Entry,
        prepared: Prepared,
        appended: Result<(), LogError>,
    ) -> Result<OpenEntry<J, S>, BookError>
        requires orphan { books.is_orphan self.old.book.state e.tx ≡ true }
        requires aborts { IsAbortOf e.tx e }
        requires holds { HoldsAppended S.tells S.faults (placement_of J.layout) (front pass.old.seat) e prepared turn.share.amount turn.log appended }
        ensures ok { IfOk result (λ entry. HoldsEntry S.tells S.faults (placement_of J.layout) (front pass.new.seat) entry.number entry.enabled e entry.turn.share.amount entry.turn.log) }
        ensures since { IfOk result (λ entry. SchedulesAbortSince (placement_of J.layout) (front pass.old.seat) (front pass.new.seat) entry.number e) }
        ensures enabled { IfOk result (λ entry. (b : ℕ) → in_mask entry.enabled b ≡ is_enabled (front pass.new.seat) b) }
        ensures err { IfErr result (RefusesAppendedSince (front pass.old.seat) (front pass.new.seat)) }
        ensures more { HasNotedMore (pass_view pass.old.seat) (pass_view pass.new.seat) }
        ensures legal { IsLegal (front pass.new.seat) }
        ensures told { front pass.new.seat ≡ self.new.book.state.history }
        ensures back { OnErr result (is_none self.new.log ≡ false) }
    {
        self.tell(board, pass);
        let finished = self.finish_orphan(board, turn, e, prepared, appended);
        self.tell(board, pass);
        finished
    }

    /// Finishes the entry that ends an orphan, of which no pass hears.
    fn finish_orphan(
        &mut self,
        board: &NamedBoard<J>,
        mut turn: Turn<J, S>,
        e: Entry,
        prepared: Prepared,
        appended: Result<(), LogError>,
    ) -> Result<OpenEntry<J, S>, BookError>
        requires orphan { books.is_orphan self.old.book.state e.tx ≡ true }
        requires aborts { IsAbortOf e.tx e }
        requires holds { HoldsAppended S.tells S.faults (placement_of J.layout) self.old.book.state.history e prepared turn.share.amount turn.log appended }
        ensures ok { IfOk result (λ entry. HoldsEntry S.tells S.faults (placement_of J.layout) self.new.book.state.history entry.number entry.enabled e entry.turn.share.amount entry.turn.log) }
        ensures since { IfOk result (λ entry. SchedulesAbortSince (placement_of J.layout) self.old.book.state.history self.new.book.state.history entry.number e) }
        ensures enabled { IfOk result (λ entry. (b : ℕ) → in_mask entry.enabled b ≡ is_enabled self.new.book.state.history b) }
        ensures err { IfErr result (RefusesAppendedSince self.old.book.state.history self.new.book.state.history) }
        ensures back { OnErr result (is_none self.new.log ≡ false) }
    {
        turn.audit(&mut self.ledger);
        turn.uncount(&mut self.ledger, 1);
        self.book.legal();
        let finished = self
            .book
            .finish_entry(&board.board, &mut Counter::Nobody, e, prepared, appended);
        match finished {
            Ok(number) => {
                turn.count(&mut self.ledger, 3);
                let enabled = self.book.enabled();
                Ok(OpenEntry {
                    number,
                    enabled,
                    turn,
                })
            }
            Err(error) => {
                turn.count(&mut self.ledger, refusal_weight(error));
                self.turn = Some(turn.keep());
                Err(error)
            }
        }
    }
}

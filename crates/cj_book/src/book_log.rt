//! The recovery log of a book.

ghost use Rattle.std.specs.Prelude.{◌≡◌, ◌+◌, ℕ, List, Option, [], ◌∷◌, ◌++◌, length, true, false, OnOk, IsErrOf};
ghost use Rattle.cj_model.specs.declared.request.Entry.{Entry};
ghost use Rattle.cj_cluster.specs.declared.event.Event.{Event};
ghost use Rattle.cj_log.specs.declared.item.LogItem.{LogItem};
ghost use Rattle.cj_log.specs.Items.{CanAppend};
ghost use Rattle.cj_log.specs.Logs.{Adds, IsBeforeOrAfter, LeavesItems, Refuses};
ghost use Rattle.cj_cluster.specs.History.Histories.{log};
ghost use Rattle.cj_recovery.specs.Openings.{items_of};
ghost use Rattle.cj_recovery.specs.Openings as openings;
ghost use Rattle.cj_outside.specs.Causes.{CountsFault};
ghost use Rattle.cj_outside.specs.Stores.{LeavesOnly};
ghost use Rattle.cj_book.specs.BookLogs.{LogFollows};
ghost use Rattle.cj_book.specs.Books.{last_write_failed, IsKeptIn};

use cj_log::{Log, LogError, LogItem};
use cj_outside::Store;
use std::marker::Model;
use std::snapshot::Snapshot;

/// The recovery log of a book. An entry or a marker stands in it before it comes into the history.
///
/// It is beside the book: where the book is behind a lock that reads need, an append needn't hold that.
#[derive(Drop)]
pub struct BookLog<S: Store> {
    pub(crate) log: Log<S>,
    /// The log's store as it was before the opening.
    pub(crate) opened_with: Snapshot<S>,
}

impl<S: Store> Model for BookLog<S> {
    ghost use Rattle.cj_book.specs.BookLogs.{BookLogState};

    ghost Value = { BookLogState S };

    ghost view = { λ l. record { log = l.log; faults_at_opening = S.faults l.opened_with.value } };
}

impl<S: Store> BookLog<S> {
    /// Shows what holds of the log of a book, which follows its history: the bytes of the log, and what a stop leaves
    /// of them, keep the history's entries and markers. Behind a write that failed they may keep the item that was
    /// refused too.
    pub fn legal(&self)
        ensures kept { (h : List Event) → LogFollows S.tells S.faults self.now h → S.tells ≡ true → IsKeptIn (S.held self.now.log.store) h }
        ensures safe { (h : List Event) → LogFollows S.tells S.faults self.now h → S.tells ≡ true → last_write_failed h ≡ false → LeavesItems (S.may self.now.log.store) (items_of h) }
        ensures now { S.tells ≡ true → (item : LogItem) → LeavesOnly S.moment S.since self.now.log.store self.now.log.store (IsBeforeOrAfter self.now.log item) }
    {
        self.log.legal();
    }

    /// Appends the item of an entry or a marker that is pending. An error leaves the items as they were.
    ///
    /// `NoMemory` comes only before the gate of the item is opened. After `Failed` a stop may leave the refused item
    /// too.
    pub fn append(&mut self, item: LogItem) -> Result<(), LogError>
        requires { CanAppend item }
        ensures items { S.tells ≡ true → Adds self.old.log.items item self.new.log.items result }
        ensures opening { self.new.faults_at_opening ≡ self.old.faults_at_opening }
        ensures memory { S.tells ≡ true → IsErrOf result LogError.NoMemory → self.new.log.torn ≡ true → self.old.log.torn ≡ true }
        ensures cause { CountsFault (IsErrOf result LogError.Failed) (S.faults self.old.log.store) (S.faults self.new.log.store) }
        ensures any_moment { S.tells ≡ true → LeavesOnly S.moment S.since self.old.log.store self.new.log.store (IsBeforeOrAfter self.old.log item) }
        ensures refused { S.tells ≡ true → Refuses self.old.log item self.new.log result }
        ensures safe { S.tells ≡ true → OnOk result (LeavesItems (S.may self.new.log.store) self.new.log.items) }

        // Then the log follows the history in which the event has come.
        ensures follows_entry { (h : List Event) (e : Entry) → LogFollows S.tells S.faults self.old h → item ≡ openings.entry_item (length (log h) + 1) e → OnOk result (LogFollows S.tells S.faults self.new (h ++ Event.Sched e ∷ [])) }
        ensures follows_marker { (h : List Event) (name : List ℕ) (b : Option ℕ) → LogFollows S.tells S.faults self.old h → item ≡ openings.marker_item (length (log h)) name b → OnOk result (LogFollows S.tells S.faults self.new (h ++ Event.Marker name b ∷ [])) }
        ensures follows_fault { (h : List Event) (s q : ℕ) → LogFollows S.tells S.faults self.old h → IsErrOf result LogError.Failed → LogFollows S.tells S.faults self.new (h ++ Event.LogFailed s q ∷ []) }
        ensures follows_want { (h : List Event) → LogFollows S.tells S.faults self.old h → IsErrOf result LogError.NoMemory → LogFollows S.tells S.faults self.new h }
    {
        self.log.append(item)
    }

    /// Gives the log's store back, as it is.
    pub fn into_log(self) -> S
        ensures { result ≡ self.log.store }
    {
        let BookLog { log, .. } = self;
        log.into_store()
    }
}

//! The turn: who has it alone may bring an event, but for a failure in a read.

ghost use Rattle.std.specs.Prelude.{◌≡◌, ◌+◌, ◌≤◌, ℕ, Option, None, Some, List, length, true, false, is_none, option_map, OnOk, IsErrOf};
ghost use Rattle.cj_model.specs.declared.request.Entry.{Entry};
ghost use Rattle.cj_cluster.specs.declared.event.Event.{Event};
ghost use Rattle.cj_cluster.specs.History.Histories.{log};
ghost use Rattle.cj_outside.specs.Causes.{CountsFault};
ghost use Rattle.cj_outside.specs.Stores.{LeavesOnly};
ghost use Rattle.cj_log.specs.Items.{CanAppend};
ghost use Rattle.cj_log.specs.Logs.{Adds, IsBeforeOrAfter, LeavesItems, Refuses};
ghost use Rattle.cj_recovery.specs.Openings as openings;
ghost use Rattle.cj_book.specs.BookLogs.{LogFollows};
ghost use Rattle.cj_locked.specs.Marking.{FollowsMarker};
ghost use Rattle.cj_locked.specs.Writing.{FollowsAppend};

use cj_book::BookLog;
use cj_log::{LogError, LogItem};
use cj_outside::Store;
use cj_pass::Naming;
use std::marker::PhantomData;
use std::sync::ledger::{Book, Ledger, Share};

/// The ledger of the turn. It has one part, so whoever has the turn has the whole.
pub struct TurnLedger<J: Naming> {
    of: PhantomData<J>,
}

impl<J: Naming> Ledger for TurnLedger<J> {
    ghost name = { J.turn };

    ghost parts = { 1 };
}

/// The turn, of which there is one. Who has it has the recovery log too, so an append to that needs no lock.
///
/// It can be neither dropped nor copied. So whoever has it gives it back to the book in the end, and nobody can stop
/// all other writers by losing it.
///
/// Its amount tells which events came that need the turn (`turn_amount`). So whoever has it knows that none came
/// meanwhile: the open entry is still open, and the same backends are enabled.
pub struct Turn<J: Naming, S: Store> {
    pub(crate) share: Share<TurnLedger<J>>,
    pub(crate) log: BookLog<S>,
    ghost whole: { share.parts ≡ 1 },
}

/// The turn in the book, while nobody has it. It goes with the book, so it can be dropped.
#[derive(Drop)]
pub(crate) struct KeptTurn<J: Naming, S: Store> {
    share: Share<TurnLedger<J>>,
    pub(crate) log: BookLog<S>,
    ghost whole: { share.parts ≡ 1 },
}

/// Takes the turn out of the book.
pub(crate) fn taken<J: Naming, S: Store>(kept: &mut Option<KeptTurn<J, S>>) -> Turn<J, S>
    requires { is_none kept.old ≡ false }
    ensures gone { kept.new ≡ None }
    ensures log { option_map (λ turn. turn.log) kept.old ≡ Some result.log }
{
    match kept.take() {
        Some(KeptTurn { share, log }) => Turn { share, log },
        None => unreachable!(),
    }
}

impl<J: Naming, S: Store> Turn<J, S> {
    /// Makes the turn of the ledger's one part and the log.
    pub fn new(share: Share<TurnLedger<J>>, log: BookLog<S>) -> Turn<J, S>
        requires { share.parts ≡ 1 }
        ensures { (result.share ≡ share) × (result.log ≡ log) }
    {
        Turn { share, log }
    }

    /// Appends the item of an entry or a marker that was begun to the log, which needs no lock. An error leaves the
    /// items as they were.
    ///
    /// `NoMemory` comes only before the gate of the item is opened. After `Failed` a stop may leave the refused
    /// item too.
    pub fn append(&mut self, item: LogItem) -> Result<(), LogError>
        requires { CanAppend item }
        ensures amount { self.new.share.amount ≡ self.old.share.amount }
        ensures items { S.tells ≡ true → Adds self.old.log.log.items item self.new.log.log.items result }
        ensures cause { CountsFault (IsErrOf result LogError.Failed) (S.faults self.old.log.log.store) (S.faults self.new.log.log.store) }
        ensures any_moment { S.tells ≡ true → LeavesOnly S.moment S.since self.old.log.log.store self.new.log.log.store (IsBeforeOrAfter self.old.log.log item) }
        ensures refused { S.tells ≡ true → Refuses self.old.log.log item self.new.log.log result }
        ensures safe { S.tells ≡ true → OnOk result (LeavesItems (S.may self.new.log.log.store) self.new.log.log.items) }
        ensures follows { (h : List Event) (e : Entry) → LogFollows S.tells S.faults self.old.log h → item ≡ openings.entry_item (length (log h) + 1) e → FollowsAppend S.tells S.faults self.new.log h e result }
        ensures follows_marker { (h : List Event) (name : List ℕ) (b : Option ℕ) → LogFollows S.tells S.faults self.old.log h → item ≡ openings.marker_item (length (log h)) name b → FollowsMarker S.tells S.faults self.new.log h name b result }
    {
        self.log.append(item)
    }

    /// Gives the turn to the book.
    pub(crate) fn keep(self) -> KeptTurn<J, S>
        ensures { result.log ≡ self.log }
    {
        let Turn { share, log } = self;
        KeptTurn { share, log }
    }

    /// Shows that the ledger's total is the turn's amount.
    pub(crate) fn audit(&mut self, ledger: &mut Book<TurnLedger<J>>)
        ensures total { ledger.new.total ≡ ledger.old.total }
        ensures amount { self.new.share.amount ≡ self.old.share.amount }
        ensures whole { self.old.share.amount ≡ ledger.old.total }
        ensures log { self.new.log ≡ self.old.log }
    {
        ledger.audit(&mut self.share);
    }

    /// Adds to the turn's amount.
    pub(crate) fn count(&mut self, ledger: &mut Book<TurnLedger<J>>, more: u64)
        ensures total { ledger.new.total ≡ ledger.old.total + more }
        ensures amount { self.new.share.amount ≡ self.old.share.amount + more }
        ensures log { self.new.log ≡ self.old.log }
    {
        ledger.add(&mut self.share, more);
    }

    /// Takes from the turn's amount.
    pub(crate) fn uncount(&mut self, ledger: &mut Book<TurnLedger<J>>, less: u64)
        requires { less ≤ self.old.share.amount }
        ensures total { ledger.new.total + less ≡ ledger.old.total }
        ensures amount { self.new.share.amount + less ≡ self.old.share.amount }
        ensures log { self.new.log ≡ self.old.log }
    {
        ledger.sub(&mut self.share, less);
    }
}

//! The book behind its lock.

ghost use Rattle.std.specs.Prelude.{◌≡◌, ◌-◌, ◌<◌, IfOk, IfErr, OnErr, ◌&&◌, not, ℕ, Bool, true, false, length, None, Some, is_none, Contains};
ghost use Rattle.cj_model.specs.Cluster.Masks.{in_mask};
ghost use Rattle.cj_cluster.specs.History.Histories.{is_enabled, is_free, log};
ghost use Rattle.cj_cluster.specs.History.Legality.{IsFitEntry, IsLegal};
ghost use Rattle.cj_place.specs.Layouts.{placement_of};
ghost use Rattle.cj_board.specs.Counting.{event_count_of};
ghost use Rattle.cj_board.specs.Seats.{front, pass_view};
ghost use Rattle.cj_book.specs.BookLogs.{LogFollows};
ghost use Rattle.cj_book.specs.Seated.{GivesOwnPassesOnly};
ghost use Rattle.cj_tally.specs.Tallies.{HaveReportedBelow, IsTallyOf};
ghost use Rattle.cj_locked.specs.Locked.{LastIsNoted};
ghost use Rattle.cj_pass.specs.Passes.{HasNotedMore, HasSeenMore};
ghost use Rattle.cj_locked_cell.specs.Taking.{NotesTally};
ghost use Rattle.cj_locked.specs.Turns.{refusal_weight, turn_events_of};
ghost use Rattle.cj_locked.specs.Writing.{BeginsSince, EndsAsReported, EndsSince, HoldsAppended, HoldsEntry, RefusesSince, SchedulesSince, SettlesTally};

use crate::turn::{KeptTurn, Turn, TurnLedger, taken};
use cj_book::{BegunEntry, Book, BookError, Prepared};
use cj_log::{LogError, LogItem};
use cj_model::{Entry, Reply};
use cj_outside::Store;
use cj_pass::{NamedBoard, Naming, Pass};
use cj_tally::Tally;
use std::marker::{Model, PhantomData};
use std::sync::ledger;

/// The book of the board and the layout that `J` names, with the turn where nobody has it.
#[derive(Drop)]
pub struct LockedBook<J: Naming, S: Store> {
    pub(crate) book: Book,
    pub(crate) ledger: ledger::Book<TurnLedger<J>>,
    pub(crate) turn: Option<KeptTurn<J, S>>,
    of: PhantomData<J>,
}

impl<J: Naming, S: Store> Model for LockedBook<J, S> {
    ghost use Rattle.std.specs.Option.{option_map};
    ghost use Rattle.cj_locked.specs.Locked.{IsLocked, LockedState};

    ghost Value = { LockedState S };

    ghost use Rattle.std.specs.Coded.{codes};
    ghost use Rattle.cj_model.specs.Proving.ConditionCode.{coded_condition};

    ghost coded = { Prim.hlevel (codes, coded_condition) };

    ghost view = { λ x. record { book = x.book; log = option_map (λ t. t.log) x.turn } };

    ghost invariant = { λ x. IsLocked J.board J.layout S.tells S.faults x.ledger.total (record { book = x.book; log = option_map (λ t. t.log) x.turn }) };
}

/// What the writer of an entry has while the entry is on its way into the recovery log.
pub struct Begun<J: Naming, S: Store> {
    /// The entry's item, which the log is to append.
    pub item: LogItem,
    /// What the entry needs once its item stands in the log.
    pub prepared: Prepared,
    pub turn: Turn<J, S>,
}

/// What the writer of an entry has while it is open.
pub struct OpenEntry<J: Naming, S: Store> {
    pub number: u64,
    /// The mask of the backends that are enabled until the entry ends.
    pub enabled: u32,
    pub turn: Turn<J, S>,
}

/// What the event counts that comes with this answer, where one does.
pub(crate) fn refusal_weight(error: BookError) -> u64
    ensures { result ≡ refusal_weight error }
{
    match error {
        BookError::LogFault => 3,
        _ => 0,
    }
}

/// The mask without the backends of another.
pub fn without(mask: u32, other: u32) -> u32
    ensures { (b : ℕ) → in_mask result b ≡ (in_mask mask b && not (in_mask other b)) }
{
    mask & !other
}

/// The tally with masks that fit the enabled backends, each of which is in one of the three.
fn settled(tally: Tally, enabled: u32) -> Tally
    ensures { SettlesTally enabled tally result }
{
    Tally {
        taken: tally.taken,
        failed: without(enabled & tally.failed, tally.taken),
        starved: without(without(enabled, tally.taken), tally.failed),
        first_outcome: tally.first_outcome,
    }
}

impl<J: Naming, S: Store + Drop> LockedBook<J, S> {
    /// Takes the book, whose history has no failures in reads, and the turn with its log.
    pub fn new(
        book: Book,
        mut ledger: ledger::Book<TurnLedger<J>>,
        mut turn: Turn<J, S>,
    ) -> LockedBook<J, S>
        requires board { book.board ≡ J.board }
        requires layout { book.state.layout ≡ J.layout }
        requires gives { GivesOwnPassesOnly book }
        requires idle { (is_free book.state.history ≡ true) × (book.pending ≡ None) }
        requires unfailed { turn_events_of book.state.history ≡ length book.state.history }
        requires total { ledger.total ≡ 0 }
        requires follows { LogFollows S.tells S.faults turn.log book.state.history }
        requires noted { LastIsNoted book.view }
        ensures { result ≡ record { book = book; log = Some turn.log } }
    {
        book.legal();
        turn.count(&mut ledger, 3 * book.events());
        LockedBook {
            book,
            ledger,
            turn: Some(turn.keep()),
            of: PhantomData,
        }
    }

    /// Returns whether somebody has the turn.
    pub fn is_taken(&self) -> bool
        ensures { result ≡ is_none self.now.log }
    {
        self.turn.is_none()
    }

    /// Shows the pass the whole history. Book and pass then have each other's notes.
    pub fn tell(&mut self, board: &NamedBoard<J>, pass: &mut Pass<J>)
        ensures more { HasNotedMore (pass_view pass.old.seat) (pass_view pass.new.seat) }
        ensures told { front pass.new.seat ≡ self.old.book.state.history }
        ensures legal { IsLegal (front pass.new.seat) }
        ensures state { self.new.book.state ≡ self.old.book.state }
        ensures heard { (note : ℕ × ℕ) → Contains (pass_view pass.old.seat).position_notes note → Contains self.new.book.view.position_notes note }
        ensures log { self.new.log ≡ self.old.log }
        ensures pending { self.new.book.pending ≡ self.old.book.pending }
    {
        self.book.legal();
        self.book.tell(&board.board, &mut pass.seat);
    }

    /// Begins an entry of the session whose own pass this is. The session has the turn then, and the item that the
    /// log is to append. Refused, the turn stays.
    pub fn begin(
        &mut self,
        board: &NamedBoard<J>,
        pass: &mut Pass<J>,
        e: &Entry,
    ) -> Result<Begun<J, S>, BookError>
        requires vacant { is_none self.old.log ≡ false }
        requires own { ((pass_view pass.old.seat).own_session ≡ e.now.session) × (0 < e.now.session) }
        requires counted { event_count_of e.now.session (front pass.old.seat) ≡ (pass_view pass.old.seat).count }
        requires fit { IsFitEntry (log (front pass.old.seat)) e.now }
        ensures ok { IfOk result (λ begun. BeginsSince S.tells S.faults (placement_of J.layout) (front pass.old.seat) (front pass.new.seat) e.now begun.prepared begun.turn.share.amount begun.turn.log begun.item) }
        ensures err { IfErr result (RefusesSince (placement_of J.layout) (front pass.old.seat) (front pass.new.seat) e.now) }
        ensures own { (pass_view pass.new.seat).own_session ≡ e.now.session }
        ensures counted { event_count_of e.now.session (front pass.new.seat) ≡ (pass_view pass.new.seat).count }
        ensures legal { IsLegal (front pass.new.seat) }
        ensures told { front pass.new.seat ≡ self.new.book.state.history }
        ensures state { self.new.book.state ≡ self.old.book.state }
        ensures back { OnErr result (is_none self.new.log ≡ false) }
    {
        self.tell(board, pass);
        board.check_count(pass);
        self.begin_told(board, pass, e)
    }

    /// Begins an entry by an own pass that has seen the history.
    fn begin_told(
        &mut self,
        board: &NamedBoard<J>,
        pass: &mut Pass<J>,
        e: &Entry,
    ) -> Result<Begun<J, S>, BookError>
        requires vacant { is_none self.old.log ≡ false }
        requires own { ((pass_view pass.old.seat).own_session ≡ e.now.session) × (0 < e.now.session) }
        requires told { front pass.old.seat ≡ self.old.book.state.history }
        requires fit { IsFitEntry (log (front pass.old.seat)) e.now }
        ensures ok { IfOk result (λ begun. BeginsSince S.tells S.faults (placement_of J.layout) (front pass.old.seat) (front pass.new.seat) e.now begun.prepared begun.turn.share.amount begun.turn.log begun.item) }
        ensures err { IfErr result (RefusesSince (placement_of J.layout) (front pass.old.seat) (front pass.new.seat) e.now) }
        ensures own { (pass_view pass.new.seat).own_session ≡ (pass_view pass.old.seat).own_session }
        ensures count { (pass_view pass.new.seat).count ≡ (pass_view pass.old.seat).count }
        ensures same { front pass.new.seat ≡ front pass.old.seat }
        ensures told { front pass.new.seat ≡ self.new.book.state.history }
        ensures state { self.new.book.state ≡ self.old.book.state }
        ensures back { OnErr result (is_none self.new.log ≡ false) }
    {
        let mut turn = taken(&mut self.turn);
        turn.audit(&mut self.ledger);
        match self.book.begin_own(&board.board, &mut pass.seat, e) {
            Ok(BegunEntry { item, prepared }) => {
                turn.count(&mut self.ledger, 1);
                Ok(Begun {
                    item,
                    prepared,
                    turn,
                })
            }
            Err(error) => {
                self.turn = Some(turn.keep());
                Err(error)
            }
        }
    }

    /// Finishes what `begin` began, once the log was asked to append the item. The entry is open then, and its writer
    /// has the turn until `end`. Where the log refused, the turn is there again. After a fault of the log's store the
    /// pass has seen the event of that.
    pub fn finish(
        &mut self,
        board: &NamedBoard<J>,
        pass: &mut Pass<J>,
        turn: Turn<J, S>,
        e: Entry,
        prepared: Prepared,
        appended: Result<(), LogError>,
    ) -> Result<OpenEntry<J, S>, BookError>
        requires own { ((pass_view pass.old.seat).own_session ≡ e.session) × (0 < e.session) }
        requires counted { event_count_of e.session (front pass.old.seat) ≡ (pass_view pass.old.seat).count }
        requires holds { HoldsAppended S.tells S.faults (placement_of J.layout) (front pass.old.seat) e prepared turn.share.amount turn.log appended }
        ensures ok { IfOk result (λ entry. HoldsEntry S.tells S.faults (placement_of J.layout) (front pass.new.seat) entry.number entry.enabled e entry.turn.share.amount entry.turn.log) }
        ensures since { IfOk result (λ entry. SchedulesSince (placement_of J.layout) (front pass.old.seat) (front pass.new.seat) entry.number e) }
        ensures enabled { IfOk result (λ entry. (b : ℕ) → in_mask entry.enabled b ≡ is_enabled (front pass.new.seat) b) }
        ensures err { IfErr result (RefusesSince (placement_of J.layout) (front pass.old.seat) (front pass.new.seat) e) }
        ensures own { (pass_view pass.new.seat).own_session ≡ e.session }
        ensures counted { event_count_of e.session (front pass.new.seat) ≡ (pass_view pass.new.seat).count }
        ensures legal { IsLegal (front pass.new.seat) }
        ensures told { front pass.new.seat ≡ self.new.book.state.history }
        ensures back { OnErr result (is_none self.new.log ≡ false) }
    {
        self.tell(board, pass);
        board.check_count(pass);
        self.finish_told(board, pass, turn, e, prepared, appended)
    }

    /// Finishes an entry that was begun, by an own pass that has seen the history.
    fn finish_told(
        &mut self,
        board: &NamedBoard<J>,
        pass: &mut Pass<J>,
        mut turn: Turn<J, S>,
        e: Entry,
        prepared: Prepared,
        appended: Result<(), LogError>,
    ) -> Result<OpenEntry<J, S>, BookError>
        requires own { ((pass_view pass.old.seat).own_session ≡ e.session) × (0 < e.session) }
        requires counted { event_count_of e.session (front pass.old.seat) ≡ (pass_view pass.old.seat).count }
        requires told { front pass.old.seat ≡ self.old.book.state.history }
        requires holds { HoldsAppended S.tells S.faults (placement_of J.layout) (front pass.old.seat) e prepared turn.share.amount turn.log appended }
        ensures ok { IfOk result (λ entry. HoldsEntry S.tells S.faults (placement_of J.layout) (front pass.new.seat) entry.number entry.enabled e entry.turn.share.amount entry.turn.log) }
        ensures since { IfOk result (λ entry. SchedulesSince (placement_of J.layout) (front pass.old.seat) (front pass.new.seat) entry.number e) }
        ensures enabled { IfOk result (λ entry. (b : ℕ) → in_mask entry.enabled b ≡ is_enabled (front pass.new.seat) b) }
        ensures err { IfErr result (RefusesSince (placement_of J.layout) (front pass.old.seat) (front pass.new.seat) e) }
        ensures own { (pass_view pass.new.seat).own_session ≡ e.session }
        ensures counted { event_count_of e.session (front pass.new.seat) ≡ (pass_view pass.new.seat).count }
        ensures legal { IsLegal (front pass.new.seat) }
        ensures told { front pass.new.seat ≡ self.new.book.state.history }
        ensures back { OnErr result (is_none self.new.log ≡ false) }
    {
        turn.audit(&mut self.ledger);
        turn.uncount(&mut self.ledger, 1);
        self.book.legal();
        let finished = self
            .book
            .finish_own(&board.board, &mut pass.seat, e, prepared, appended);
        self.book.legal();
        match finished {
            Ok(number) => {
                turn.count(&mut self.ledger, 3);
                let enabled = self.book.enabled();
                Ok(OpenEntry {
                    number,
                    enabled,
                    turn,
                })
            }
            Err(error) => {
                turn.count(&mut self.ledger, refusal_weight(error));
                self.turn = Some(turn.keep());
                Err(error)
            }
        }
    }

    /// Ends the open entry, whose writer this is, by what was tallied of it, and answers it. Each backend that was
    /// enabled must have reported. The turn is there again.
    pub fn end(
        &mut self,
        board: &NamedBoard<J>,
        pass: &mut Pass<J>,
        entry: OpenEntry<J, S>,
        e: &Entry,
        tally: Tally,
    ) -> Reply
        requires holds { HoldsEntry S.tells S.faults (placement_of J.layout) (front pass.old.seat) entry.number entry.enabled e.now entry.turn.share.amount entry.turn.log }
        requires noted { NotesTally (pass_view pass.old.seat) entry.number tally }
        requires reported { HaveReportedBelow (length J.layout.names) entry.enabled tally }
        ensures seen { HasSeenMore (pass_view pass.old.seat) (pass_view pass.new.seat) }
        ensures legal { IsLegal (front pass.new.seat) }
        ensures told { front pass.new.seat ≡ self.new.book.state.history }
        ensures back { is_none self.new.log ≡ false }
        ensures masks { EndsAsReported (length J.layout.names) tally (front pass.new.seat) }
        ensures ended { (tells : Bool) → IsTallyOf tells (placement_of J.layout) (log (front pass.old.seat)) (entry.number - 1) e.now tally → EndsSince tells (placement_of J.layout) (front pass.old.seat) entry.number e.now result (front pass.new.seat) }
    {
        let OpenEntry {
            number: _,
            enabled: _,
            mut turn,
        } = entry;
        self.book.learn(&board.board, &mut pass.seat);
        self.book.legal();
        turn.audit(&mut self.ledger);
        let tally = settled(tally, self.book.enabled());
        let reply = tally.reply(self.book.targets());
        self.book.end(&board.board, tally.failed, tally.starved);
        turn.count(&mut self.ledger, 3);
        self.turn = Some(turn.keep());
        self.book.legal();
        self.book.tell(&board.board, &mut pass.seat);
        reply
    }
}

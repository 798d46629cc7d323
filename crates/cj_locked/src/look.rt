//! How a query looks at the book and how its read ends, and what is told where answers are kept.

ghost use Rattle.std.specs.Prelude.{◌≡◌, ◌↔◌, ◌^◌, ◌+◌, ◌<◌, ◌≤◌, ◌⊎◌, true, false, length, slice_get, option_copied, IfOk, IsNone, None};
ghost use Rattle.cj_model.specs.Cluster.Balancing.{one_less};
ghost use Rattle.cj_cluster.specs.History.Histories.{ended_count, events_left, has_marker, log};
ghost use Rattle.cj_cluster.specs.History.Legality.{IsLegal};
ghost use Rattle.cj_place.specs.Layouts.{placement_of};
ghost use Rattle.cj_board.specs.Seats.{front, pass_view};
ghost use Rattle.cj_book.specs.declared.news.TheConstants.{NEWS_LIMIT};
ghost use Rattle.cj_book.specs.News.{IsHeard, IsNewsFrom};
ghost use Rattle.cj_locked.specs.Looking.{IsLookAt, IsPickOf, LooksAt};
ghost use Rattle.cj_pass.specs.Passes.{HasNotedMore};

use crate::book::{LockedBook, without};
use cj_book::{Heard, News};
use cj_model::{BACKEND_LIMIT, Entry, Name, NoMemory, Policy, Select};
use cj_outside::Store;
use cj_pass::{NamedBoard, Naming, Pass};

/// Where a query may be answered.
#[derive(Drop)]
pub enum Look {
    /// This backend is to be asked, at a position not below the number. Where the policy counts reads, one is pending
    /// there until `end_read` or `fail_read`.
    Ask(u8, u64),
    /// Each backend of this mask serves the query and was tried.
    Tried(u32),
    /// No enabled backend hosts each table that the query names.
    Unserved,
}

impl<J: Naming, S: Store + Drop> LockedBook<J, S> {
    /// Looks where a query may be answered at a position not below `least`: the balancer picks one of the backends
    /// that serve the query and aren't in the mask of those that were tried. The pass has seen the history then.
    pub fn look_for(
        &mut self,
        board: &NamedBoard<J>,
        pass: &mut Pass<J>,
        select: &Select,
        least: u64,
        tried: u32,
    ) -> Look
        requires owes { least ≤ length (log (front pass.old.seat)) }
        ensures look { IsLookAt (placement_of J.layout) (front pass.new.seat) select.now least tried result }
        ensures leaves { LooksAt self.old.book.state select.now tried result self.new.book.state }
        ensures more { HasNotedMore (pass_view pass.old.seat) (pass_view pass.new.seat) }
        ensures legal { IsLegal (front pass.new.seat) }
        ensures told { front pass.new.seat ≡ self.new.book.state.history }
        ensures log { self.new.log ≡ self.old.log }
        ensures pending { self.new.book.pending ≡ self.old.book.pending }
    {
        self.tell(board, pass);
        self.look_now(select, least, tried)
    }

    /// Looks where a query may be answered, of which no pass hears.
    fn look_now(&mut self, select: &Select, least: u64, tried: u32) -> Look
        requires owes { least ≤ length (log self.old.book.state.history) }
        ensures look { IsLookAt (placement_of J.layout) self.old.book.state.history select.now least tried result }
        ensures leaves { LooksAt self.old.book.state select.now tried result self.new.book.state }
        ensures history { self.new.book.state.history ≡ self.old.book.state.history }
        ensures log { self.new.log ≡ self.old.log }
        ensures pending { self.new.book.pending ≡ self.old.book.pending }
    {
        self.book.legal();
        let serving = self.book.candidates(select.tables.as_slice());
        if serving == 0 {
            return Look::Unserved;
        }
        let owed = least.max(self.book.ended_count());
        self.pick(serving, tried, owed)
    }

    /// Picks a backend of those that serve a query and aren't in the mask of those that were tried.
    fn pick(&mut self, serving: u32, tried: u32, owed: u64) -> Look
        requires below { serving < 2 ^ BACKEND_LIMIT }
        ensures picks { IsPickOf self.old.book.state serving tried owed result self.new.book.state }
        ensures history { self.new.book.state.history ≡ self.old.book.state.history }
        ensures pending { self.new.book.pending ≡ self.old.book.pending }
        ensures log { self.new.log ≡ self.old.log }
    {
        match self.book.pick(without(serving, tried)) {
            Some(b) => Look::Ask(b, owed),
            None => Look::Tried(serving),
        }
    }

    /// Notes that a read has ended at backend `b`.
    pub fn end_read(&mut self, b: u8)
        requires below { b < BACKEND_LIMIT }
        ensures state { self.new.book.state ≡ record self.old.book.state { balance = record self.old.book.state.balance { standing = record self.old.book.state.balance.standing { pending = one_less self.old.book.state.balance.standing.pending b } } } }
        ensures log { self.new.log ≡ self.old.log }
        ensures pending { self.new.book.pending ≡ self.old.book.pending }
    {
        self.book.ended(b);
    }

    /// Tells the pass the whole history, and says how far it goes and which backends are enabled.
    pub fn heard(&mut self, board: &NamedBoard<J>, pass: &mut Pass<J>) -> Heard
        ensures heard { IsHeard (front pass.new.seat) result }
        ensures more { HasNotedMore (pass_view pass.old.seat) (pass_view pass.new.seat) }
        ensures legal { IsLegal (front pass.new.seat) }
        ensures told { front pass.new.seat ≡ self.new.book.state.history }
        ensures state { self.new.book.state ≡ self.old.book.state }
        ensures log { self.new.log ≡ self.old.log }
        ensures pending { self.new.book.pending ≡ self.old.book.pending }
    {
        self.tell(board, pass);
        self.book.heard()
    }

    /// Tells the pass the whole history, and says what is to be told where its first `from` entries are known.
    pub fn news(
        &mut self,
        board: &NamedBoard<J>,
        pass: &mut Pass<J>,
        from: u64,
    ) -> Result<News, NoMemory>
        ensures news { IfOk result (IsNewsFrom (front pass.new.seat) from) }
        ensures left_out { IfOk result (λ news. IsNone news.touched → (length (log (front pass.new.seat)) < from) ⊎ (from + NEWS_LIMIT < length (log (front pass.new.seat)))) }
        ensures more { HasNotedMore (pass_view pass.old.seat) (pass_view pass.new.seat) }
        ensures legal { IsLegal (front pass.new.seat) }
        ensures told { front pass.new.seat ≡ self.new.book.state.history }
        ensures state { self.new.book.state ≡ self.old.book.state }
        ensures log { self.new.log ≡ self.old.log }
        ensures pending { self.new.book.pending ≡ self.old.book.pending }
    {
        self.tell(board, pass);
        self.book.news(from)
    }

    /// Returns whether an entry or a marker is on its way into the recovery log.
    pub fn is_pending(&self) -> bool
        ensures { result ≡ false ↔ self.now.book.pending ≡ None }
    {
        self.book.is_pending()
    }

    /// Returns the number of entries in the log.
    pub fn length(&self) -> u64
        ensures { result ≡ length (log self.now.book.state.history) }
    {
        self.book.length()
    }

    /// Returns the entry behind the first `n`. None if the log has no more.
    pub fn entry_after(&self, n: u64) -> Option<&Entry>
        ensures { option_copied result ≡ slice_get (log self.now.book.state.history) n }
    {
        if n >= self.book.length() {
            return None;
        }
        self.book.entry(n + 1)
    }

    /// Returns whether a marker has the name.
    pub fn is_marked(&self, name: &Name) -> bool
        ensures { result ≡ has_marker self.now.book.state.history name.now }
    {
        self.book.is_taken(name)
    }

    /// Returns the number of events in the history.
    pub fn events(&self) -> u64
        ensures { result ≡ length self.now.book.state.history }
    {
        self.book.events()
    }

    /// Returns how many more events have room.
    pub fn room(&self) -> u64
        ensures { result ≡ events_left self.now.book.state.history }
    {
        self.book.room()
    }

    /// Returns whether fewer than `n` entries have ended.
    pub fn has_ended_fewer(&self, n: u64) -> bool
        ensures { (result ≡ true) ↔ (ended_count self.now.book.state.history < n) }
    {
        self.book.ended_count() < n
    }

    /// Returns whether the balancer's policy counts the reads that are pending. Else `end_read` changes nothing.
    pub fn counts_reads(&self) -> bool
        ensures { (result ≡ true) ↔ (self.now.book.state.balance.policy ≡ Policy.LeastPending) }
    {
        self.book.counts_reads()
    }

    /// Returns how many answers the result cache is to keep at most.
    pub fn cache_capacity(&self) -> u32
        ensures { result ≡ self.now.book.state.cache.capacity }
    {
        self.book.cache_capacity()
    }
}

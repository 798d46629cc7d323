//! A shard of the result cache.

ghost use Rattle.std.specs.Prelude.{List, ℕ, ◌≡◌, ◌≢◌, ◌↔◌, ◌⊎◌, ◌+◌, ◌<◌, ◌≤◌, [], true, length, drop, IfOk, IfSome, IsNone, Ok};
ghost use Rattle.cj_model.specs.declared.answer.Asked.TheVariants.{Rows};
ghost use Rattle.cj_model.specs.Cluster.Caching.{after_keep};
ghost use Rattle.cj_model.specs.Database.Outcomes.{IsAnswer};
ghost use Rattle.cj_cluster.specs.declared.event.Event.{Event};
ghost use Rattle.cj_cluster.specs.History.Freshness.{IsAnswerAt};
ghost use Rattle.cj_cluster.specs.History.Histories.{log};
ghost use Rattle.cj_cluster.specs.History.Legality.{IsLegal};
ghost use Rattle.cj_place.specs.Layouts.{placement_of};
ghost use Rattle.cj_board.specs.Seats.{front, pass_view};
ghost use Rattle.cj_book.specs.News.{AreTouchedFrom, IsHeard, IsNewsFrom};
ghost use Rattle.cj_pass.specs.Passes.{HasNotedMore};
ghost use Rattle.cj_cache_shard.specs.Shards.{IsFound, LooksInShard, with_each_dropped};

use cj_book::{Heard, News};
use cj_cache::{Cache, SharedAnswer};
use cj_model::{Answer, Cached, NoMemory, Select, TableSet};
use cj_pass::{NamedBoard, Naming, Pass};
use cj_place::Placement;
use std::alloc::Global;
use std::marker::Model;
use std::sync::Arc;

/// Some of the answers that the result cache keeps, for a cluster at the board and the layout that `J` names.
#[derive(Drop)]
pub struct CacheShard<J: Naming> {
    cache: Cache,
    /// It has seen what the shard has heard of.
    pass: Pass<J>,
    heard: Heard,
}

impl<J: Naming> Model for CacheShard<J> {
    ghost use Rattle.cj_board.specs.Seats.{front};
    ghost use Rattle.cj_cache_shard.specs.Shards.{IsShard, ShardState};

    ghost Value = { ShardState };

    ghost use Rattle.std.specs.Coded.{codes};
    ghost use Rattle.cj_model.specs.Proving.ConditionCode.{coded_condition};

    ghost coded = { Prim.hlevel (codes, coded_condition) };

    ghost view = { λ x. record { cache = x.cache; front = front x.pass.seat; heard = x.heard } };

    ghost invariant = { λ x. IsShard J.tells (record { cache = x.cache; front = front x.pass.seat; heard = x.heard }) };
}

/// What a shard has of a query.
#[derive(Drop)]
pub enum Found {
    /// This answer. It is right at this position of the log.
    Kept(Arc<Answer, Global>, u64),
    /// No answer, or no backend serves the query.
    Absent,
    /// The history has events that the shard, which knows so many entries, has not heard of.
    Behind(u64),
}

/// Drops the answers whose queries need a table of one of the sets.
fn drop_each(cache: &mut Cache, touched: &[TableSet])
    ensures { cache.new ≡ with_each_dropped touched.now cache.old }
{
    for set in touched {
        cache.drop_needing(set);
    }
}

/// The tables that the entries after the first `entries` touch, a set for each. None where the news don't tell.
fn touched_after(news: &News, entries: u64) -> Option<&[TableSet]>
    ensures touched { (h : List Event) → IsNewsFrom h news.now.from news.now → IfSome result (λ sets. AreTouchedFrom (log h) entries sets.now) }
    ensures last { IfSome result (λ sets. IfSome news.now.touched (λ all. (k : ℕ) → news.now.from + k ≡ entries → sets.now ≡ drop k all.items)) }
    ensures left_out { IsNone result → IfSome news.now.touched (λ all. (entries < news.now.from) ⊎ (news.now.from + length all.items < entries)) }
{
    let Some(touched) = &news.touched else {
        return None;
    };
    let known = entries.checked_sub(news.from)?;
    touched.as_slice().get(known as usize..)
}

impl<J: Naming> CacheShard<J> {
    /// Makes a shard of an empty cache, which has heard of what the pass has seen.
    pub fn new(
        board: &NamedBoard<J>,
        pass: &mut Pass<J>,
        cache: Cache,
        heard: Heard,
    ) -> CacheShard<J>
        requires legal { IsLegal (front pass.old.seat) }
        requires heard { IsHeard (front pass.old.seat) heard }
        requires empty { cache.entries ≡ [] }
        ensures same { pass_view pass.new.seat ≡ pass_view pass.old.seat }
        ensures shard { result ≡ record { cache = cache; front = front pass.old.seat; heard = heard } }
    {
        let pass = board.split(pass);
        CacheShard { cache, pass, heard }
    }

    /// Looks a query up, outside of transactions, whose session needs a position not below `least`. A hit or a miss is
    /// counted where the shard has heard of all events, and a backend serves the query.
    ///
    /// `NoMemory`: an answer is kept, and could not be shared. The look-up is counted all the same.
    pub fn look_up(
        &mut self,
        board: &NamedBoard<J>,
        pass: &mut Pass<J>,
        placement: &Placement,
        select: &Select,
        least: u64,
    ) -> Result<Found, NoMemory>
        requires laid { placement.now ≡ J.layout }
        requires owes { least ≤ length (log (front pass.old.seat)) }
        ensures found { IfOk result (IsFound J.tells (placement_of J.layout) (front pass.new.seat) select.now least) }
        ensures looks { LooksInShard (placement_of J.layout) self.old.front self.old.heard.entries select.now self.old.cache result self.new.cache }
        ensures more { HasNotedMore (pass_view pass.old.seat) (pass_view pass.new.seat) }
        ensures heard { (self.new.front ≡ self.old.front) × (self.new.heard ≡ self.old.heard) }
    {
        if !self.is_current(board, pass) {
            return Ok(Found::Behind(self.heard.entries));
        }
        if placement.hosting(self.heard.enabled, select.tables.as_slice()) == 0 {
            return Ok(Found::Absent);
        }
        let owed = least.max(self.heard.ended);
        match self.cache.look_up(select)? {
            Some(SharedAnswer { answer, at }) => Ok(Found::Kept(answer, owed.max(at))),
            None => Ok(Found::Absent),
        }
    }

    /// Whether the shard has heard of all events that there are at a moment of the call. If so, the pass has seen
    /// exactly these then.
    fn is_current(&mut self, board: &NamedBoard<J>, pass: &mut Pass<J>) -> bool
        ensures current { result ≡ true → front pass.new.seat ≡ self.old.front }
        ensures more { HasNotedMore (pass_view pass.old.seat) (pass_view pass.new.seat) }
        ensures same { self.new ≡ self.old }
    {
        let mut both = board.split(&mut self.pass);
        let known = board.split(pass);
        board.rejoin(&mut both, known);
        if board.events(&mut both) != self.heard.events {
            return false;
        }
        board.rejoin(pass, both);
        true
    }

    /// Hears the news of the history that the pass has seen, and drops just the answers that they touch: where they
    /// don't tell which, all. News of no more than the shard has heard of change nothing.
    pub fn catch_up(&mut self, board: &NamedBoard<J>, pass: &mut Pass<J>, news: &News)
        requires legal { IsLegal (front pass.old.seat) }
        requires news { IsNewsFrom (front pass.old.seat) news.now.from news.now }
        ensures same { pass_view pass.new.seat ≡ pass_view pass.old.seat }
        ensures heard { news.now.heard.events ≤ self.new.heard.events }
        ensures old_news { news.now.heard.events ≤ self.old.heard.events → self.new ≡ self.old }
        ensures dropped { self.old.heard.events < news.now.heard.events → (k : ℕ) → news.now.from + k ≡ self.old.heard.entries → IfSome news.now.touched (λ all. self.new.cache ≡ with_each_dropped (drop k all.items) self.old.cache) }
    {
        if news.heard.events <= self.heard.events {
            return;
        }
        match touched_after(news, self.heard.entries) {
            Some(touched) => drop_each(&mut self.cache, touched),
            None => self.cache.clear(),
        }
        let seen = board.split(pass);
        board.rejoin(&mut self.pass, seen);
        self.heard = news.heard;
    }

    /// Returns whether the shard has heard of exactly so many entries. It keeps answers of that position alone.
    pub fn has_heard(&self, entries: u64) -> bool
        ensures { (result ≡ true) ↔ (entries ≡ self.now.heard.entries) }
    {
        entries == self.heard.entries
    }

    /// Keeps an answer that is right at the position of the log up to which the shard has heard. False if it is one of
    /// another position, and isn't kept.
    ///
    /// `NoMemory`: it isn't kept.
    pub fn keep(
        &mut self,
        board: &NamedBoard<J>,
        pass: &mut Pass<J>,
        answered: Cached,
    ) -> Result<bool, NoMemory>
        requires possible { IsAnswer answered.answer }
        requires within { answered.at ≤ length (log (front pass.old.seat)) }
        requires right { J.tells ≡ true → IsAnswerAt (log (front pass.old.seat)) answered.at answered.select (Rows answered.answer) }
        ensures here { IfOk result (λ kept. (kept ≡ true) ↔ (answered.at ≡ self.old.heard.entries)) }
        ensures kept { result ≡ Ok true → self.new.cache ≡ after_keep answered self.old.cache }
        ensures dropped { result ≢ Ok true → self.new.cache ≡ self.old.cache }
        ensures heard { (self.new.front ≡ self.old.front) × (self.new.heard ≡ self.old.heard) }
        ensures same { pass_view pass.new.seat ≡ pass_view pass.old.seat }
    {
        if answered.at != self.heard.entries {
            return Ok(false);
        }
        // Both have seen a beginning of the one history.
        let mut both = board.split(&mut self.pass);
        let seen = board.split(pass);
        board.rejoin(&mut both, seen);
        let Cached { select, answer, at } = answered;
        self.cache.keep(select, answer, at)?;
        Ok(true)
    }

    /// Returns how many hits and how many misses the shard has counted.
    pub fn counts(&self) -> (u64, u64)
        ensures { result ≡ (self.now.cache.hits, self.now.cache.misses) }
    {
        self.cache.counts()
    }
}

//! The result cache.

ghost use Rattle.std.specs.Prelude.{◌≡◌, true, not, ℕ, [], ◌∷◌, filter, is_some, take, option_copied, option_map, slice_get, IfOk, OnOk, OnErr};
ghost use Rattle.cj_model.specs.Cluster.Caching.{brought_to_front, counted_up, without_tables, empty_cache, cached_entry, has_answer, after_look, after_keep, without};
ghost use Rattle.cj_model.specs.declared.cached.Cached.{Cached};
ghost use Rattle.cj_model.specs.Cluster.Caching as caching;
ghost use Rattle.cj_cache.specs.Kept.{HasCapacity, entries_held, kept_parts, shared_parts};
ghost use Rattle.cj_cache.specs.Proving.ByTable.{AreListed};

use crate::by_table::ByTable;
use crate::held::{self, Held, SharedAnswer};
use cj_model::{Answer, Cached, NoMemory, Select, TableSet};
use lru::LruCache;
use std::alloc::Global;
use std::collections::HashMap;
use std::marker::Model;
use std::num::NonZeroUsize;

/// A cache of statements with their answers, which contracts see with the most recently used first.
///
/// After `new`, only `keep` allocates.
#[derive(Drop)]
pub struct Cache {
    alloc: Global,
    /// `None` if the capacity is 0.
    held: Option<LruCache<Select, Held>>,
    by_table: ByTable,
    /// The most entries that are kept.
    capacity: u32,
    hits: u64,
    misses: u64,
}

impl Model for Cache {
    ghost use Rattle.cj_model.specs.Cluster.Caching.{CacheState};
    ghost use Rattle.cj_cache.specs.Kept.{HasCapacity, entries_held};
    ghost use Rattle.cj_cache.specs.Proving.ByTable.{AreListed};

    ghost Value = { CacheState };

    ghost use Rattle.cj_model.specs.Cluster.Caching.{coded_cache};

    ghost coded = { coded_cache };

    ghost view = { λ c. record { entries = entries_held c.held; hits = c.hits; misses = c.misses; capacity = c.capacity } };

    ghost invariant = { λ c. HasCapacity c.capacity c.held × AreListed c.by_table (entries_held c.held) };
}

fn count_up(count: &mut u64)
    ensures { count.new ≡ counted_up count.old }
{
    *count = count.saturating_add(1);
}

/// An empty map of this capacity; `None` if it is 0.
fn make_map(alloc: Global, capacity: u32) -> Result<Option<LruCache<Select, Held>>, NoMemory>
    ensures { IfOk result (λ held. HasCapacity capacity held × (entries_held held ≡ [])) }
{
    match NonZeroUsize::new(capacity as usize) {
        None => Ok(None),
        Some(capacity) => Ok(Some(LruCache::sparse(alloc, capacity)?)),
    }
}

fn bring_to_front(held: &mut Option<LruCache<Select, Held>>, select: &Select) -> bool
    ensures found { result ≡ is_some (cached_entry select.now (entries_held held.old)) }
    ensures entries { entries_held held.new ≡ brought_to_front select.now (entries_held held.old) }
    ensures capacity { (n : ℕ) → HasCapacity n held.old → HasCapacity n held.new }
{
    match held {
        None => false,
        Some(held) => held::bring_to_front(held, select),
    }
}

/// A share of the answer in front; `None` if nothing is kept. Fails only where the share can't be counted.
fn share_of_front(held: &Option<LruCache<Select, Held>>) -> Result<Option<SharedAnswer>, NoMemory>
    ensures { IfOk result (λ shared. option_map shared_parts shared ≡ option_map kept_parts (slice_get (entries_held held.now) 0)) }
{
    match held {
        None => Ok(None),
        Some(held) => held::share_of_front(held),
    }
}

fn put_front(
    alloc: Global,
    held: &mut Option<LruCache<Select, Held>>,
    by_table: &mut ByTable,
    entry: Cached,
    capacity: u32,
) -> Result<(), NoMemory>
    requires capacity { HasCapacity capacity held.old }
    requires listed { AreListed by_table.old (entries_held held.old) }
    ensures ok { OnOk result (entries_held held.new ≡ take capacity (entry ∷ without entry.select (entries_held held.old))) }
    ensures err { OnErr result (entries_held held.new ≡ entries_held held.old) }
    ensures capacity { HasCapacity capacity held.new }
    ensures listed { AreListed by_table.new (entries_held held.new) }
{
    match held {
        None => Ok(()),
        Some(held) => held::put_front(alloc, held, by_table, entry),
    }
}

fn drop_needing(held: &mut Option<LruCache<Select, Held>>, by_table: &mut ByTable, set: &TableSet)
    requires { AreListed by_table.old (entries_held held.old) }
    ensures entries { entries_held held.new ≡ filter (λ e. not (caching.needs_one_of set.now e.select)) (entries_held held.old) }
    ensures capacity { (n : ℕ) → HasCapacity n held.old → HasCapacity n held.new }
    ensures listed { AreListed by_table.new (entries_held held.new) }
{
    match held {
        None => {}
        Some(held) => held::drop_needing(held, by_table, set),
    }
}

impl Cache {
    /// Makes an empty cache of at most `capacity` answers; with 0 it keeps nothing. Fails if memory runs out.
    #[tactic(auto, using(crate::proofs::ByTable::none_listed))]
    pub fn new(alloc: Global, capacity: u32) -> Result<Cache, NoMemory>
        ensures { IfOk result (λ cache. cache ≡ empty_cache capacity) }
    {
        Ok(Cache {
            alloc,
            held: make_map(alloc, capacity)?,
            by_table: HashMap::new(alloc),
            capacity,
            hits: 0,
            misses: 0,
        })
    }

    /// Looks up exactly this statement: brings its answer to the front and counts a hit, or counts a miss if none is
    /// kept. Answers whether one is; `kept` then gives the answer.
    pub fn touch(&mut self, select: &Select) -> bool
        ensures hit { result ≡ has_answer select.now self.old }
        ensures looked { self.new ≡ after_look select.now self.old }
    {
        let hit = bring_to_front(&mut self.held, select);
        if hit {
            count_up(&mut self.hits);
        } else {
            count_up(&mut self.misses);
        }
        hit
    }

    /// The kept answer of exactly this statement; `None` if none is kept. Counts nothing.
    pub fn kept(&self, select: &Select) -> Option<&Answer>
        ensures { option_copied result ≡ caching.answer_kept select.now self.now }
    {
        match &self.held {
            None => None,
            Some(held) => held::answer_of(held, select),
        }
    }

    /// Looks up exactly this statement as `touch` does, and answers a share of its answer; `None` if none is kept.
    ///
    /// Under a lock a share is taken in constant time, and the rows are copied after. The answer stays readable when
    /// the cache drops it. Fails only where the share of an answer that is kept can't be counted; the look-up is
    /// counted all the same.
    pub fn look_up(&mut self, select: &Select) -> Result<Option<SharedAnswer>, NoMemory>
        ensures shared { IfOk result (λ shared. option_map shared_parts shared ≡ option_map kept_parts (cached_entry select.now self.old.entries)) }
        ensures err { OnErr result (has_answer select.now self.old ≡ true) }
        ensures looked { self.new ≡ after_look select.now self.old }
    {
        if !self.touch(select) {
            return Ok(None);
        }
        share_of_front(&self.held)
    }

    /// Keeps the answer of a statement, at position `at` of the log, in front.
    ///
    /// The answer replaces one of the same statement. If there is none, a full cache drops the least recently used.
    /// Out of memory leaves the cache as it was.
    pub fn keep(&mut self, select: Select, answer: Answer, at: u64) -> Result<(), NoMemory>
        ensures ok { OnOk result (self.new ≡ after_keep (record { select = select; answer = answer; at = at }) self.old) }
        ensures err { OnErr result (self.new ≡ self.old) }
    {
        let entry = Cached { select, answer, at };
        put_front(
            self.alloc,
            &mut self.held,
            &mut self.by_table,
            entry,
            self.capacity,
        )
    }

    /// Drops exactly the answers whose statements need one of the tables. It takes no memory.
    pub fn drop_needing(&mut self, set: &TableSet)
        ensures { self.new ≡ without_tables set.now self.old }
    {
        drop_needing(&mut self.held, &mut self.by_table, set);
    }

    /// Drops every answer. It takes no memory.
    #[tactic(auto, using(crate::proofs::ByTable::none_listed))]
    pub fn clear(&mut self)
        ensures { self.new ≡ record self.old { entries = [] } }
    {
        match &mut self.held {
            None => {}
            Some(held) => held.clear(),
        }
        self.by_table.clear();
    }

    /// The most answers that the cache keeps.
    pub fn capacity(&self) -> u32
        ensures { result ≡ self.now.capacity }
    {
        self.capacity
    }

    /// Whether the cache never keeps anything, so that no answer need be copied for it.
    pub fn keeps_none(&self) -> bool
        ensures { result ≡ true → (e : Cached) → after_keep e self.now ≡ self.now }
    {
        match &self.held {
            None => true,
            Some(_) => false,
        }
    }

    /// The counts of hits and of misses, each up to 2^64 - 1.
    pub fn counts(&self) -> (u64, u64)
        ensures { result ≡ (self.now.hits, self.now.misses) }
    {
        (self.hits, self.misses)
    }
}

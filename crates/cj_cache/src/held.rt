//! The map of a cache: statements with their answers, the most recently used first.
//!
//! Answers are shared. A reader that holds a lock takes a share in constant time, and copies the rows after it.

ghost use Rattle.std.specs.Prelude.{◌≡◌, false, not, ◌∷◌, All, filter, is_some, option_copied, option_map, slice_get, take, IfOk, OnOk, OnErr};
ghost use Rattle.std.specs.List.{list_any};
ghost use Rattle.std.specs.Str.{bytes_eq};
ghost use Rattle.cj_model.specs.Cluster.Caching.{brought_to_front, cached_entry, without};
ghost use Rattle.cj_model.specs.Cluster.Caching as caching;
ghost use Rattle.cj_cache.specs.Kept.{cached, entries_of_map, kept_parts, shared_parts, without_each};
ghost use Rattle.cj_cache.specs.Proving.ByTable.{AreListed, listed};

use crate::by_table::{self, ByTable};
use cj_model::{Answer, Cached, Name, NoMemory, Select, TableSet};
use lru::LruCache;
use std::alloc::Global;
use std::sync::Arc;

/// What the map has for a statement: its answer, and the log position of the answer. The answer is shared, so that a
/// reader can take it along in constant time.
#[derive(Drop)]
pub struct Held {
    pub answer: Arc<Answer, Global>,
    pub at: u64,
}

/// A kept answer that is shared with the cache, and the log position at which it was answered.
///
/// A share is taken under a lock in constant time. The rows are copied after the lock is given back, so a large answer
/// holds nobody up. The share stays readable when the cache drops its own.
#[derive(Drop)]
pub struct SharedAnswer {
    pub answer: Arc<Answer, Global>,
    pub at: u64,
}

/// The answer of a statement; `None` if the map has none.
pub fn answer_of<'a>(held: &'a LruCache<Select, Held>, select: &Select) -> Option<&'a Answer>
    ensures { option_copied result ≡ option_map (λ e. e.answer) (cached_entry select.now (entries_of_map held.now)) }
{
    match held.peek(select) {
        None => None,
        Some(found) => Some(&*found.answer),
    }
}

/// A share of the answer of the entry in front, in constant time; `None` if the map is empty. Fails only where the
/// share can't be counted.
pub fn share_of_front(held: &LruCache<Select, Held>) -> Result<Option<SharedAnswer>, NoMemory>
    ensures { IfOk result (λ shared. option_map shared_parts shared ≡ option_map kept_parts (slice_get (entries_of_map held.now) 0)) }
{
    match held.peek_mru() {
        None => Ok(None),
        Some((_, front)) => {
            let answer = Arc::try_clone(&front.answer)?;
            Ok(Some(SharedAnswer {
                answer,
                at: front.at,
            }))
        }
    }
}

/// Brings the entry of a statement to the front, and answers whether there is one.
pub fn bring_to_front(held: &mut LruCache<Select, Held>, select: &Select) -> bool
    ensures found { result ≡ is_some (cached_entry select.now (entries_of_map held.old)) }
    ensures entries { entries_of_map held.new ≡ brought_to_front select.now (entries_of_map held.old) }
    ensures capacity { held.new.cap ≡ held.old.cap }
{
    held.promote(select)
}

#[tactic(auto, using(crate::proofs::Maps::some_shown))]
fn is_kept(held: &LruCache<Select, Held>, select: &Select) -> bool
    ensures { result ≡ is_some (cached_entry select.now (entries_of_map held.now)) }
{
    held.contains(select)
}

/// Removes a statement from the lists of its tables, unless it is kept.
#[tactic(auto, using(crate::proofs::ByTable::others_listed))]
fn unlist_unkept(held: &LruCache<Select, Held>, by_table: &mut ByTable, select: &Select)
    requires { AreListed by_table.old (entries_of_map held.now) }
    ensures { AreListed by_table.new (entries_of_map held.now) }
{
    if !is_kept(held, select) {
        by_table::unlist(by_table, select);
    }
}

/// Puts a statement and what is held of it in front, in place of the one of its statement or of the last of a full
/// cache. Answers the statement of the entry that went. Out of memory leaves the map, and gives the new statement back.
fn push_held(
    held: &mut LruCache<Select, Held>,
    select: Select,
    kept: Held,
) -> Result<Option<Select>, Select>
    ensures ok { OnOk result (entries_of_map held.new ≡ take held.old.cap (cached (select, kept) ∷ without select (entries_of_map held.old))) }
    ensures err { OnErr result (held.new ≡ held.old) }
    ensures capacity { held.new.cap ≡ held.old.cap }
{
    let _len = held.len();
    match held.push(select, kept) {
        Ok(gone) => Ok(gone.map(|(select, _)| select)),
        Err(refused) => Err(refused.value.0),
    }
}

/// Puts an entry in front, and makes its answer one that can be shared.
/// Answers the statement of the entry that went. Out of memory leaves the map, and gives the new statement back.
fn push_front(
    alloc: Global,
    held: &mut LruCache<Select, Held>,
    entry: Cached,
) -> Result<Option<Select>, Select>
    ensures ok { OnOk result (entries_of_map held.new ≡ take held.old.cap (entry ∷ without entry.select (entries_of_map held.old))) }
    ensures err { OnErr result (held.new ≡ held.old) }
    ensures capacity { held.new.cap ≡ held.old.cap }
{
    let Cached { select, answer, at } = entry;
    let Ok(answer) = Arc::new(alloc, answer) else {
        return Err(select);
    };
    push_held(held, select, Held { answer, at })
}

/// Puts an entry in front, in place of the one of its statement or of the last of a full cache.
/// Lists its statement under its tables. Out of memory leaves the map as it was.
#[tactic(auto, using(crate::proofs::ByTable::still_listed))]
pub fn put_front(
    alloc: Global,
    held: &mut LruCache<Select, Held>,
    by_table: &mut ByTable,
    entry: Cached,
) -> Result<(), NoMemory>
    requires { AreListed by_table.old (entries_of_map held.old) }
    ensures ok { OnOk result (entries_of_map held.new ≡ take held.old.cap (entry ∷ without entry.select (entries_of_map held.old))) }
    ensures err { OnErr result (held.new ≡ held.old) }
    ensures capacity { held.new.cap ≡ held.old.cap }
    ensures listed { AreListed by_table.new (entries_of_map held.new) }
{
    if by_table::list(by_table, alloc, &entry.select).is_err() {
        unlist_unkept(held, by_table, &entry.select);
        return Err(NoMemory);
    }
    match push_front(alloc, held, entry) {
        Ok(None) => Ok(()),
        Ok(Some(gone)) => {
            unlist_unkept(held, by_table, &gone);
            Ok(())
        }
        Err(refused) => {
            unlist_unkept(held, by_table, &refused);
            Err(NoMemory)
        }
    }
}

fn needs_one_of(select: &Select, set: &TableSet) -> bool
    ensures { result ≡ caching.needs_one_of set.now select.now }
{
    select
        .tables
        .as_slice()
        .iter()
        .any(|name| set.contains(name))
}

/// Drops the entries of the statements listed under a table that need one of the tables.
fn pop_listed(held: &mut LruCache<Select, Held>, by_table: &ByTable, set: &TableSet, table: &Name)
    ensures entries { entries_of_map held.new ≡ without_each (filter (caching.needs_one_of set.now) (listed by_table.now table.now)) (entries_of_map held.old) }
    ensures capacity { held.new.cap ≡ held.old.cap }
{
    let Some(statements) = by_table.get(table) else {
        return;
    };
    for select in statements.as_slice() {
        if needs_one_of(select, set) {
            let _ = held.pop(select);
        }
    }
}

/// Drops the entries that need one of the tables, without a walk over the others.
fn pop_needing(held: &mut LruCache<Select, Held>, by_table: &ByTable, set: &TableSet)
    requires { AreListed by_table.now (entries_of_map held.old) }
    ensures entries { entries_of_map held.new ≡ filter (λ e. not (caching.needs_one_of set.now e.select)) (entries_of_map held.old) }
    ensures capacity { held.new.cap ≡ held.old.cap }
{
    let _kept = held.len();
    for table in set.as_slice() {
        pop_listed(held, by_table, set, table);
    }
}

/// Removes a table that no entry needs, and the statements listed there from the lists of their other tables.
fn unlist_table(held: &LruCache<Select, Held>, by_table: &mut ByTable, table: &Name)
    requires listed { AreListed by_table.old (entries_of_map held.now) }
    requires unneeded { All (λ e. list_any (bytes_eq table.now) e.select.tables ≡ false) (entries_of_map held.now) }
    ensures { AreListed by_table.new (entries_of_map held.now) }
{
    let Some(statements) = by_table.remove(table) else {
        return;
    };
    for select in statements.as_slice() {
        unlist_unkept(held, by_table, select);
    }
}

/// Drops the entries that need one of the tables. It takes no memory.
pub fn drop_needing(held: &mut LruCache<Select, Held>, by_table: &mut ByTable, set: &TableSet)
    requires { AreListed by_table.old (entries_of_map held.old) }
    ensures entries { entries_of_map held.new ≡ filter (λ e. not (caching.needs_one_of set.now e.select)) (entries_of_map held.old) }
    ensures capacity { held.new.cap ≡ held.old.cap }
    ensures listed { AreListed by_table.new (entries_of_map held.new) }
{
    pop_needing(held, by_table, set);
    for table in set.as_slice() {
        unlist_table(held, by_table, table);
    }
}

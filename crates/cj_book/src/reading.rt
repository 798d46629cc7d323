//! Calls that read a book and change nothing.

ghost use Rattle.std.specs.Prelude.{List, ◌≡◌, ◌↔◌, ◌-◌, ◌^◌, ◌<◌, ◌&&◌, ℕ, true, false, None, [], ◌∷◌, ◌++◌, length, slice_get, option_copied, IsNone, IfSome, IfOk, IsTrue};
ghost use Rattle.std.specs.List.{list_any};
ghost use Rattle.std.specs.Str.{bytes_eq};
ghost use Rattle.cj_model.specs.Sql.PlainRequests.{request_of};
ghost use Rattle.cj_model.specs.Cluster.Placements as placements;
ghost use Rattle.cj_model.specs.Cluster.Placements.{concerns, hosts_all, needs};
ghost use Rattle.cj_model.specs.Cluster.Masks.{in_mask};
ghost use Rattle.cj_model.specs.Cluster.Caching.{after_keep, answer_kept};
ghost use Rattle.cj_model.specs.declared.cached.Cached.{Cached};
ghost use Rattle.cj_cluster.specs.declared.event.Event.{Event};
ghost use Rattle.cj_cluster.specs.History.Histories as histories;
ghost use Rattle.cj_cluster.specs.History.Histories.{log, is_free, tx_of};
ghost use Rattle.cj_cluster.specs.History.Freshness.{touches};
ghost use Rattle.cj_cluster.specs.History.Legality.{IsFitEntry};
ghost use Rattle.cj_cluster.specs.History.Answering.{HasServer, HasNoServer};
ghost use Rattle.cj_book.specs.Touching.{has_table};
ghost use Rattle.cj_book.specs.Books as books;
ghost use Rattle.cj_book.specs.Books.{placement_at, has_session, is_candidate, is_target, Checks, HasRoom, IsPrepared};

use crate::book::Book;
use crate::error::BookError;
use crate::pending::Prepared;
use crate::touching::{self, touched_behind};
use cj_cluster::BoxedEntry;
use cj_log::LogMarker;
use cj_model::{
    Act, Answer, BACKEND_LIMIT, EVENT_LIMIT, Entry, Name, NoMemory, Select, TableSet, has_bit,
};
use cj_place::Placement;
use cj_usage::written;

fn needs_backend(act: &Act) -> bool
    ensures { result ≡ placements.needs_backend (request_of act.now) }
{
    !matches!(act, Act::Abort)
}

/// Returns whether one of the markers has the name.
fn is_named(markers: &[LogMarker], name: &Name) -> bool
    ensures { result ≡ list_any (λ marker. bytes_eq name.now marker.name) markers.now }
{
    markers.iter().any(|marker| name.is(&marker.name))
}

impl Book {
    /// Which backends host which tables.
    pub fn placement(&self) -> &Placement
        ensures { result.now ≡ self.now.state.layout }
    {
        &self.placement
    }

    /// Returns the number of events in the history.
    pub fn events(&self) -> u64
        ensures { result ≡ length self.now.state.history }
    {
        self.seat.len()
    }

    /// Returns the number of entries in the log, which is also the number of the last one.
    pub fn length(&self) -> u64
        ensures { result ≡ length (log self.now.state.history) }
    {
        self.entries.len() as u64
    }

    /// Returns the number of entries that have ended.
    pub fn ended_count(&self) -> u64
        ensures { result ≡ histories.ended_count self.now.state.history }
    {
        self.done as u64
    }

    /// Returns whether no entry is open.
    pub fn is_free(&self) -> bool
        ensures { result ≡ is_free self.now.state.history }
    {
        self.done == self.entries.len()
    }

    /// Returns whether an entry or a marker is on its way into the recovery log.
    pub fn is_pending(&self) -> bool
        ensures { result ≡ false ↔ self.now.pending ≡ None }
    {
        self.pending.is_some()
    }

    /// Returns the number of the open entry, which is the last one. None if no entry is open.
    pub fn open_entry(&self) -> Option<u64>
        ensures none { IsNone result ↔ (is_free self.now.state.history ≡ true) }
        ensures number { IfSome result (λ n. n ≡ length (log self.now.state.history)) }
    {
        if self.is_free() {
            None
        } else {
            Some(self.length())
        }
    }

    pub(crate) fn entry_of(&self, index: usize) -> Option<&Entry>
        ensures { option_copied result ≡ slice_get (log self.now.state.history) index }
    {
        Some(self.entries.get(index)?.entry())
    }

    /// Returns the open entry. None if no entry is open.
    pub fn opened(&self) -> Option<&Entry>
        ensures { option_copied result ≡ histories.open_entry_of self.now.state.history }
    {
        self.entry_of(self.done)
    }

    /// Returns entry `n` of the log, counted from 1. None for 0, and for a number after the last.
    pub fn entry(&self, n: u64) -> Option<&Entry>
        ensures zero { n ≡ 0 → IsNone result }
        ensures numbered { 0 < n → option_copied result ≡ slice_get (log self.now.state.history) (n - 1) }
    {
        if n == 0 {
            return None;
        }
        self.entry_of((n - 1) as usize)
    }

    /// Returns whether backend `b` is enabled. False for a number that no backend has.
    pub fn is_enabled(&self, b: u8) -> bool
        ensures { result ≡ histories.is_enabled self.now.state.history b }
    {
        b < self.placement.count() && has_bit(self.enabled, b)
    }

    /// Returns the mask of the enabled backends.
    pub fn enabled(&self) -> u32
        ensures mask { (b : ℕ) → in_mask result b ≡ histories.is_enabled self.now.state.history b }
        ensures below { (b : ℕ) → in_mask result b ≡ true → b < length self.now.state.layout.names }
    {
        self.enabled
    }

    /// Returns the mask of the backends that stay enabled if the open entry ends with these masks.
    pub fn left(&self, failed: u32, starved: u32) -> u32
        ensures { (b : ℕ) → in_mask result b ≡ histories.is_enabled (self.now.state.history ++ Event.Ended failed starved ∷ []) b }
    {
        self.enabled & !(failed | starved)
    }

    /// Returns how many more events have room. Two further events are reserved for the end of an open entry.
    pub fn room(&self) -> u64
        ensures { result ≡ histories.events_left self.now.state.history }
    {
        let open = (self.entries.len() - self.done) as u64;
        EVENT_LIMIT - (self.events() + 2 * open)
    }

    /// Returns the mask of the enabled backends that host the table that an act writes, creates or drops.
    /// For an act without a table these are all enabled backends.
    fn servers(&self, act: &Act) -> u32
        ensures { (b : ℕ) → in_mask result b ≡ (histories.is_enabled self.now.state.history b && hosts_all (placement_at self.now.state) b (needs (request_of act.now))) }
    {
        match written(act) {
            Some(table) => self.enabled & self.placement.hosts(table),
            None => self.enabled,
        }
    }

    /// Returns whether the act needs a backend, and no enabled backend serves it.
    fn is_unserved(&self, act: &Act) -> bool
        ensures unserved { IsTrue result → HasNoServer (placement_at self.now.state) self.now.state.history (request_of act.now) }
        ensures served { ¬ IsTrue result → HasServer (placement_at self.now.state) self.now.state.history (request_of act.now) }
    {
        self.servers(act) == 0 && needs_backend(act)
    }

    /// Returns the mask of the backends that an entry concerns. The entry must be one that may come next.
    fn concerned(&self, e: &Entry) -> u32
        requires { IsFitEntry (log self.now.state.history) e.now }
        ensures { (b : ℕ) → in_mask result b ≡ concerns (placement_at self.now.state) b (log self.now.state.history) e.now.tx e.now.act }
    {
        self.transactions.concerned(&self.placement, e)
    }

    /// Returns the mask of the enabled backends that host all of the tables.
    pub fn candidates(&self, tables: &[Name]) -> u32
        ensures hosts { (b : ℕ) → in_mask result b ≡ is_candidate self.now.state tables.now b }
        ensures below { result < 2 ^ BACKEND_LIMIT }
    {
        self.placement.hosting(self.enabled, tables)
    }

    /// Returns the mask of the open entry's targets: the enabled backends that it concerns. 0 if no entry is open.
    pub fn targets(&self) -> u32
        ensures { (b : ℕ) → in_mask result b ≡ is_target self.now.state (histories.open_entry_of self.now.state.history) b }
    {
        self.targets
    }

    pub(crate) fn check_schedule(&self, act: &Act) -> Result<(), BookError>
        ensures { Checks self.now.state act.now result }
    {
        if let Some(n) = self.open_entry() {
            return Err(BookError::InProgress(n));
        }
        if self.is_unserved(act) {
            return Err(BookError::NoBackend);
        }
        if self.room() < 3 {
            return Err(BookError::HistoryFull(self.events()));
        }
        Ok(())
    }

    pub(crate) fn check_room(&self) -> Result<(), BookError>
        ensures { HasRoom self.now.state result }
    {
        if self.room() == 0 {
            return Err(BookError::HistoryFull(self.events()));
        }
        Ok(())
    }

    /// Returns whether a marker of the history has the name.
    pub fn is_taken(&self, name: &Name) -> bool
        ensures { result ≡ histories.has_marker self.now.state.history name.now }
    {
        is_named(self.markers.as_slice(), name)
    }

    /// Returns the markers of the history in order.
    /// Each has the number of entries before it, and the backend whose dump it names.
    pub fn markers(&self) -> &[LogMarker]
        ensures { result.now ≡ books.markers_of self.now.state.history }
    {
        self.markers.as_slice()
    }

    /// Returns the number of open sessions.
    pub fn session_count(&self) -> u64
        ensures { result ≡ length self.now.state.sessions }
    {
        self.sessions.len() as u64
    }

    /// Returns the greatest session number given, or 0.
    pub fn greatest(&self) -> u64
        ensures { result ≡ self.now.state.greatest }
    {
        self.greatest
    }

    /// Returns whether the session is open.
    pub fn is_session_open(&self, session: u64) -> bool
        ensures { result ≡ has_session self.now.state session }
    {
        self.sessions.find(session).is_some()
    }

    /// Returns the number of the transaction that an open session has open, or 0.
    pub fn open_tx(&self, session: u64) -> u64
        requires { has_session self.now.state session ≡ true }
        ensures { result ≡ tx_of (log self.now.state.history) session }
    {
        match self.sessions.find(session) {
            Some(open) => open.tx,
            None => 0,
        }
    }

    /// Returns whether the transaction is an orphan: it is open, and its session is not.
    pub fn is_orphan(&self, tx: u64) -> bool
        ensures { result ≡ books.is_orphan self.now.state tx }
    {
        match self.transactions.find(tx) {
            Some(open) => self.sessions.find(open.session).is_none(),
            None => false,
        }
    }

    /// Returns the answer that the cache keeps of the query. No hit or miss is counted.
    pub fn kept(&self, select: &Select) -> Option<&Answer>
        ensures { option_copied result ≡ answer_kept select.now self.now.state.cache }
    {
        self.cache.kept(select)
    }

    /// Returns the tables that entry `n + 1` of the log touches.
    pub fn touched_by(&self, n: u64) -> Result<TableSet, NoMemory>
        requires { n < length (log self.now.state.history) }
        ensures { IfOk result (λ set. (table : List ℕ) → has_table set table ≡ touches (log self.now.state.history) n table) }
    {
        touching::touched_by(self, self.alloc, n)
    }

    /// Returns how many answers the cache keeps at most.
    pub fn cache_capacity(&self) -> u32
        ensures { result ≡ self.now.state.cache.capacity }
    {
        self.cache.capacity()
    }

    /// Returns true only if the cache keeps no answer that it is given.
    pub fn keeps_none(&self) -> bool
        ensures { result ≡ true → (e : Cached) → after_keep e self.now.state.cache ≡ self.now.state.cache }
    {
        self.cache.keeps_none()
    }

    /// Returns how many hits and how many misses the cache has counted.
    pub fn counts(&self) -> (u64, u64)
        ensures { result ≡ (self.now.state.cache.hits, self.now.state.cache.misses) }
    {
        self.cache.counts()
    }

    /// Prepares an entry that may come next.
    pub(crate) fn prepare(&self, e: &Entry) -> Result<Prepared, NoMemory>
        requires { IsFitEntry (log self.now.state.history) e.now }
        ensures { IfOk result (IsPrepared (placement_at self.now.state) (log self.now.state.history) e.now) }
    {
        Ok(Prepared {
            hosts: self.concerned(e),
            tables: touched_behind(self, self.alloc, self.length(), e.tx, &e.act)?,
            room: BoxedEntry::with_room(self.alloc)?,
        })
    }
}

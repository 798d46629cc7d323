//! The history of the items so far.

ghost use Rattle.std.specs.Prelude.{◌≡◌, ◌↔◌, ℕ, ◌+◌, ◌*◌, ◌^◌, ◌<◌, [], ◌∷◌, ◌++◌, length, slice_get, option_copied, IfOk, OnOk, IsErrOf, IsTrue};
ghost use Rattle.std.specs.Option.{option_and_then};
ghost use Rattle.cj_cluster.specs.declared.event.Event.{Event};
ghost use Rattle.cj_cluster.specs.declared.event.Event.TheVariants.{Sched, Ended, Marker};
ghost use Rattle.cj_cluster.specs.History.Histories.{log, scheduled_entry};
ghost use Rattle.cj_cluster.specs.History.Legality.{IsFitEntry, IsSessionEntry, IsAdministratorEntry};
ghost use Rattle.cj_cluster.specs.Moves.Moves.{entry_numbered};
ghost use Rattle.cj_log.specs.declared.item.LogItem.TheVariants as items;
ghost use Rattle.cj_log.specs.Items.{IsEntry, IsItem};
ghost use Rattle.cj_recovery.specs.Proving.Keeping as keeping;
ghost use Rattle.cj_recovery.specs.Proving.Keeping.{Keeps, KeepsRequests, session_in};
ghost use Rattle.cj_recovery.specs.Proving.Steps.{AddsItem, BringsNothing, FindsEntry};

use crate::act::read_act;
use crate::error::OpeningError;
use crate::markers::MarkerName;
use crate::sessions::{SessionSoFar, fits_tx, tx_behind};
use cj_cluster::{BoxedEntry, Event};
use cj_log::{LogEntry, LogItem, LogMarker};
use cj_model::{Act, Duplicate, Entry, NoMemory, REQUEST_LIMIT, SESSION_NUMBER_LIMIT, Same};
use std::alloc::Global;
use std::collections::{BTreeMap, BTreeSet};

/// The history that the items so far open with, and what is known of it, so that no call walks over it.
#[derive(Drop)]
pub struct Grown {
    alloc: Global,
    pub events: Vec<Event>,
    /// The index of each entry's event in the history.
    places: Vec<usize>,
    sessions: BTreeMap<u64, SessionSoFar>,
    /// The names of the markers.
    names: BTreeSet<MarkerName>,
}

/// The entry that the event at an index scheduled; `None` if that event is another, or not there.
pub fn entry_at(events: &[Event], place: usize) -> Option<&Entry>
    ensures { option_copied result ≡ option_and_then scheduled_entry (slice_get events.now place) }
{
    match events.get(place) {
        Some(Event::Sched(boxed)) => Some(boxed.entry()),
        _ => None,
    }
}

impl Grown {
    /// The empty history.
    pub fn new(alloc: Global) -> Grown
        ensures none { result.events.items ≡ [] }
        ensures keeps { Keeps result.events.items result.places.items result.sessions result.names }
    {
        Grown {
            alloc,
            events: Vec::new(alloc),
            places: Vec::new(alloc),
            sessions: BTreeMap::new(alloc),
            names: BTreeSet::new(alloc),
        }
    }

    /// How many entries there are.
    fn entries(&self) -> u64
        requires { Keeps self.now.events.items self.now.places.items self.now.sessions self.now.names }
        ensures count { result ≡ length (log self.now.events.items) }
        ensures small { result < 2 ^ 63 }
    {
        self.places.len() as u64
    }

    /// The entry at an index of the log.
    fn entry_of(&self, index: usize) -> Option<&Entry>
        requires { Keeps self.now.events.items self.now.places.items self.now.sessions self.now.names }
        ensures { option_copied result ≡ slice_get (log self.now.events.items) index }
    {
        let place = self.places.get(index)?;
        entry_at(&self.events, *place)
    }

    /// The entry with this number, counted from 1.
    fn entry(&self, number: u64) -> Option<&Entry>
        requires { Keeps self.now.events.items self.now.places.items self.now.sessions self.now.names }
        ensures { option_copied result ≡ entry_numbered (log self.now.events.items) number }
    {
        if number == 0 {
            return None;
        }
        self.entry_of((number - 1) as usize)
    }

    /// What is known of a session.
    fn session(&self, number: u64) -> SessionSoFar
        ensures { result ≡ session_in self.now.sessions number }
    {
        match self.sessions.get(&number) {
            Some(session) => *session,
            None => SessionSoFar { next: 0, tx: 0 },
        }
    }

    /// Whether the entry may be a session's next.
    fn is_of_session(&self, entry: &Entry) -> bool
        requires { Keeps self.now.events.items self.now.places.items self.now.sessions self.now.names }
        ensures { IsTrue result ↔ IsSessionEntry (log self.now.events.items) entry.now }
    {
        let session = self.session(entry.session);
        entry.session > 0
            && entry.session <= SESSION_NUMBER_LIMIT
            && entry.seq <= REQUEST_LIMIT
            && entry.seq >= session.next
            && fits_tx(session.tx, entry.tx, &entry.act)
    }

    /// Whether `begin` began the transaction that `entry` ends: open in its session, and by the same user.
    fn began(&self, begin: &Entry, entry: &Entry) -> bool
        requires { Keeps self.now.events.items self.now.places.items self.now.sessions self.now.names }
        ensures { IsTrue result ↔ keeping.Began (log self.now.events.items) begin.now entry.now }
    {
        self.session(begin.session).tx == entry.tx && entry.user.is_same(&begin.user)
    }

    /// Whether the entry may be the administrator's end of a transaction.
    fn is_of_administrator(&self, entry: &Entry) -> bool
        requires { Keeps self.now.events.items self.now.places.items self.now.sessions self.now.names }
        ensures { IsTrue result ↔ IsAdministratorEntry (log self.now.events.items) entry.now }
    {
        if entry.session != 0 || entry.seq != 0 || !matches!(entry.act, Act::Abort) {
            return false;
        }
        match self.entry(entry.tx) {
            Some(begin) => self.began(begin, entry),
            None => false,
        }
    }

    /// The entry that the item is, if it may come next; else `None`.
    fn next_entry(&self, item: &LogEntry) -> Result<Option<Entry>, NoMemory>
        requires keeps { Keeps self.now.events.items self.now.places.items self.now.sessions self.now.names }
        requires item { IsEntry item.now }
        ensures { IfOk result (FindsEntry self.now.events.items item.now) }
    {
        if item.number != self.entries() + 1 {
            return Ok(None);
        }
        let Some(act) = read_act(self.alloc, &item.text)? else {
            return Ok(None);
        };
        let entry = Entry {
            session: item.session,
            seq: item.seq,
            tx: item.tx,
            user: item.user.copy(self.alloc)?,
            act,
        };
        if self.is_of_session(&entry) || self.is_of_administrator(&entry) {
            Ok(Some(entry))
        } else {
            Ok(None)
        }
    }
}

impl Grown {
    /// The session whose transaction an entry is about: its own, or for an administrator's end the one that began it.
    fn owner(&self, entry: &Entry) -> u64
        requires { Keeps self.now.events.items self.now.places.items self.now.sessions self.now.names }
        ensures { result ≡ keeping.owner_of (log self.now.events.items) entry.now }
    {
        if entry.session != 0 {
            return entry.session;
        }
        match self.entry(entry.tx) {
            Some(begin) => begin.session,
            None => 0,
        }
    }

    /// What is known of the transaction's owner after the entry.
    fn session_behind(&self, owner: u64, entry: &Entry) -> SessionSoFar
        requires keeps { Keeps self.now.events.items self.now.places.items self.now.sessions self.now.names }
        requires fit { IsFitEntry (log self.now.events.items) entry.now }
        ensures { result ≡ keeping.session_behind (log self.now.events.items) self.now.sessions owner entry.now }
    {
        let session = self.session(owner);
        let next = if entry.session == 0 {
            session.next
        } else {
            entry.seq + 1
        };
        SessionSoFar {
            next,
            tx: tx_behind(self.entries() + 1, session.tx, &entry.act),
        }
    }

    /// Changes what is known of sessions by the entry that comes next.
    fn follow(&mut self, entry: &Entry) -> Result<(), NoMemory>
        requires keeps { Keeps self.old.events.items self.old.places.items self.old.sessions self.old.names }
        requires fit { IsFitEntry (log self.old.events.items) entry.now }
        ensures sessions { OnOk result (KeepsRequests (log self.old.events.items ++ entry.now ∷ []) self.new.sessions) }
        ensures events { self.new.events ≡ self.old.events }
        ensures places { self.new.places ≡ self.old.places }
        ensures names { self.new.names ≡ self.old.names }
    {
        let owner = self.owner(entry);
        let session = self.session_behind(owner, entry);
        self.sessions.insert(owner, session)?;
        Ok(())
    }

    /// Adds the events of the next entry: it was scheduled, and ended at once.
    fn add_entry(&mut self, entry: Entry) -> Result<(), NoMemory>
        requires keeps { Keeps self.old.events.items self.old.places.items self.old.sessions self.old.names }
        requires fit { IsFitEntry (log self.old.events.items) entry }
        ensures events { OnOk result (self.new.events.items ≡ self.old.events.items ++ Sched entry ∷ Ended 0 0 ∷ []) }
        ensures keeps { OnOk result (Keeps self.new.events.items self.new.places.items self.new.sessions self.new.names) }
    {
        self.follow(&entry)?;
        self.places.push(self.events.len())?;
        let boxed = BoxedEntry::new(self.alloc, entry)?;
        self.events.push(Event::Sched(boxed))?;
        self.events.push(Event::Ended {
            failed: 0,
            starved: 0,
        })?;
        Ok(())
    }

    /// Adds the events of the entry that the item is. `BadEntry` comes exactly if it can't come next.
    fn add_entry_of(&mut self, item: &LogEntry) -> Result<(), OpeningError>
        requires keeps { Keeps self.old.events.items self.old.places.items self.old.sessions self.old.names }
        requires item { IsEntry item.now }
        ensures brings { OnOk result (AddsItem self.old.events.items (items.Entry item.now) self.new.events.items) }
        ensures keeps { OnOk result (Keeps self.new.events.items self.new.places.items self.new.sessions self.new.names) }
        ensures bad { (n : ℕ) → IsErrOf result (OpeningError.BadEntry n) → (n ≡ length (log self.old.events.items) + 1) × BringsNothing self.old.events.items (items.Entry item.now) }
    {
        let number = self.entries() + 1;
        match self.next_entry(item)? {
            Some(entry) => {
                self.add_entry(entry)?;
                Ok(())
            }
            None => Err(OpeningError::BadEntry(number)),
        }
    }

    /// Adds the event of the marker that the item is. `BadEntry` comes exactly if it can't come next.
    fn add_marker_of(&mut self, item: &LogMarker) -> Result<(), OpeningError>
        requires keeps { Keeps self.old.events.items self.old.places.items self.old.sessions self.old.names }
        ensures brings { OnOk result (AddsItem self.old.events.items (items.Marker item.now) self.new.events.items) }
        ensures keeps { OnOk result (Keeps self.new.events.items self.new.places.items self.new.sessions self.new.names) }
        ensures bad { (n : ℕ) → IsErrOf result (OpeningError.BadEntry n) → (n ≡ length (log self.old.events.items) + 1) × BringsNothing self.old.events.items (items.Marker item.now) }
    {
        let entries = self.entries();
        let name = item.name.copy();
        if item.after != entries || !self.names.insert(MarkerName { name })? {
            return Err(OpeningError::BadEntry(entries + 1));
        }
        self.events.push(Event::Marker {
            name: item.name.copy(),
            b: item.b,
        })?;
        Ok(())
    }

    /// Adds the events that the item brings. `BadEntry`, with the number of the next entry, comes exactly if the item
    /// can't come next. After an error nothing is known of the history.
    pub fn add(&mut self, item: &LogItem) -> Result<(), OpeningError>
        requires keeps { Keeps self.old.events.items self.old.places.items self.old.sessions self.old.names }
        requires item { IsItem item.now }
        ensures brings { OnOk result (AddsItem self.old.events.items item.now self.new.events.items) }
        ensures keeps { OnOk result (Keeps self.new.events.items self.new.places.items self.new.sessions self.new.names) }
        ensures bad { (n : ℕ) → IsErrOf result (OpeningError.BadEntry n) → (n ≡ length (log self.old.events.items) + 1) × BringsNothing self.old.events.items item.now }
    {
        match item {
            LogItem::Entry(entry) => self.add_entry_of(entry),
            LogItem::Marker(marker) => self.add_marker_of(marker),
        }
    }
}

//! A log entry in a box.

ghost use Rattle.std.specs.Prelude.{◌≡◌, IfOk};

use cj_model::{Act, Duplicate, Entry, NoMemory, Text};
use std::alloc::Global;
use std::marker::Model;

/// A log entry in a box, so that events of other kinds are small. Contracts see the entry.
#[derive(Drop)]
pub struct BoxedEntry {
    inner: Box<Entry>,
}

impl Model for BoxedEntry {
    ghost use Rattle.cj_model.specs.declared.request.Entry.{Entry};
    ghost use Rattle.std.specs.Coded.{codes};
    ghost use Rattle.cj_model.specs.Proving.ConditionCode.{coded_condition};

    ghost Value = { Entry };

    ghost coded = { Prim.hlevel (codes, coded_condition) };

    ghost view = { λ boxed. boxed.inner.value };
}

impl BoxedEntry {
    /// Puts the entry into a box. If memory runs out, the entry is lost.
    pub fn new(alloc: Global, entry: Entry) -> Result<BoxedEntry, NoMemory>
        ensures { IfOk result (λ boxed. boxed ≡ entry) }
    {
        Ok(BoxedEntry {
            inner: Box::new(alloc, entry)?,
        })
    }

    /// Allocates the box for an entry, with a placeholder in it.
    pub fn with_room(alloc: Global) -> Result<BoxedEntry, NoMemory> {
        let Some(user) = Text::of(Vec::new(alloc)) else {
            return Err(NoMemory);
        };
        BoxedEntry::new(
            alloc,
            Entry {
                session: 0,
                seq: 0,
                tx: 0,
                user,
                act: Act::Begin,
            },
        )
    }

    /// Puts the entry into this box, in place of the one there; allocates nothing.
    pub fn filled(self, entry: Entry) -> BoxedEntry
        ensures { result ≡ entry }
    {
        let BoxedEntry { mut inner } = self;
        *inner = entry;
        BoxedEntry { inner }
    }

    /// The entry in the box.
    pub fn entry(&self) -> &Entry
        ensures { result.now ≡ self.now }
    {
        &self.inner
    }
}

impl Duplicate for BoxedEntry {
    fn copy(&self, alloc: Global) -> Result<BoxedEntry, NoMemory> {
        BoxedEntry::new(alloc, self.inner.copy(alloc)?)
    }
}

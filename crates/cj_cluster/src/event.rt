//! The events of a history.

use crate::boxed::BoxedEntry;
use cj_model::{Duplicate, Name, NoMemory};
use std::alloc::Global;

/// What happened, in the order in which the controller saw it. A mask has bit b for backend b.
#[derive(Drop)]
pub enum Event {
    /// An entry was scheduled: it is the log's next, and open.
    Sched(BoxedEntry),
    /// The open entry ended; the backends of both masks are no longer enabled.
    Ended { failed: u32, starved: u32 },
    /// A backend failed in a session's read.
    ReadFailed { session: u64, seq: u64, b: u8 },
    /// The log's store failed, and nothing was scheduled.
    LogFailed { session: u64, seq: u64 },
    Disabled { b: u8 },
    Enabled { b: u8 },
    /// A checkpoint, maybe for the dump of a backend.
    Marker { name: Name, b: Option<u8> },
}

impl Duplicate for Event {
    fn copy(&self, alloc: Global) -> Result<Event, NoMemory> {
        match self {
            Event::Sched(entry) => Ok(Event::Sched(entry.copy(alloc)?)),
            Event::Ended { failed, starved } => Ok(Event::Ended {
                failed: *failed,
                starved: *starved,
            }),
            Event::ReadFailed { session, seq, b } => Ok(Event::ReadFailed {
                session: *session,
                seq: *seq,
                b: *b,
            }),
            Event::LogFailed { session, seq } => Ok(Event::LogFailed {
                session: *session,
                seq: *seq,
            }),
            Event::Disabled { b } => Ok(Event::Disabled { b: *b }),
            Event::Enabled { b } => Ok(Event::Enabled { b: *b }),
            Event::Marker { name, b } => Ok(Event::Marker {
                name: name.copy(),
                b: *b,
            }),
        }
    }
}

//! Why an event didn't come into the history, or no book was opened.

use cj_model::{HISTORY_FULL, LOG_FAULT, NO_BACKEND, NoMemory, Refusal};
use std::alloc::{AllocError, AllocFailed};
use thiserror::Error;

/// Why an event was refused. The history is unchanged, except after `LogFault`.
#[derive(Clone, Copy, Debug, PartialEq, Eq, Error)]
pub enum BookError {
    /// The entry of this number is open.
    #[error("entry {0} is in progress")]
    InProgress(u64),
    /// The entry needs a backend, and none that serves it is enabled.
    #[error("no enabled backend serves the entry")]
    NoBackend,
    /// The history has this many events, and no room for the event that was asked for.
    #[error("the history of {0} events is full")]
    HistoryFull(u64),
    /// The log's store failed and counted a fault. The history has a new event that tells of the failure.
    #[error("the store of the recovery log failed")]
    LogFault,
    #[error("out of memory")]
    NoMemory,
}

impl BookError {
    ghost use Rattle.std.specs.Prelude.{◌≡◌};
    ghost use Rattle.cj_book.specs.Refusals.{refusal_of};

    /// Returns the refusal that a client reads for an entry that was not scheduled.
    /// None after `InProgress`, where the request waits for the open entry, and after `NoMemory`.
    pub fn refusal(self) -> Option<Refusal>
        ensures { result ≡ refusal_of self }
    {
        match self {
            BookError::NoBackend => Some(Refusal::of_code(NO_BACKEND)),
            BookError::HistoryFull(events) => Some(Refusal {
                code: HISTORY_FULL,
                a: events,
                b: 0,
            }),
            BookError::LogFault => Some(Refusal::of_code(LOG_FAULT)),
            BookError::InProgress(_) | BookError::NoMemory => None,
        }
    }
}

impl From<AllocError> for BookError {
    ghost use Rattle.std.specs.Prelude.{◌≡◌};
    ghost use Rattle.cj_book.specs.declared.error.BookError.TheVariants.{NoMemory};

    ghost from_gives = { λ _ e. e ≡ NoMemory };

    fn from(_error: AllocError) -> BookError {
        BookError::NoMemory
    }
}

impl<T: Drop> From<AllocFailed<T>> for BookError {
    ghost use Rattle.std.specs.Prelude.{◌≡◌};
    ghost use Rattle.cj_book.specs.declared.error.BookError.TheVariants.{NoMemory};

    ghost from_gives = { λ _ e. e ≡ NoMemory };

    fn from(_error: AllocFailed<T>) -> BookError {
        BookError::NoMemory
    }
}

impl From<NoMemory> for BookError {
    ghost use Rattle.std.specs.Prelude.{◌≡◌};
    ghost use Rattle.cj_book.specs.declared.error.BookError.TheVariants.{NoMemory};

    ghost from_gives = { λ _ e. e ≡ NoMemory };

    fn from(_error: NoMemory) -> BookError {
        BookError::NoMemory
    }
}

/// Why no book was opened.
#[derive(Clone, Copy, Debug, PartialEq, Eq, Error)]
pub enum StartError {
    /// The log's store failed and counted a fault.
    #[error("the store of the recovery log failed")]
    StoreFault,
    /// The record at this byte offset of the log is bad, or the log's magic is.
    #[error("bad record: {0}")]
    BadRecord(u64),
    /// Entry `n` of the log, or a marker before it, can't follow the items before it.
    #[error("bad entry: {0}")]
    BadEntry(u64),
    #[error("out of memory")]
    NoMemory,
}

/// No session more can be opened: `sessions` are open, or the last session number was given.
#[derive(Clone, Copy, Debug, PartialEq, Eq, Error)]
#[error("no session more can be opened")]
pub struct SessionsFull {
    pub sessions: u64,
}

/// Why no session was opened with an own pass.
#[derive(Clone, Copy, Debug, PartialEq, Eq, Error)]
pub enum OwnError {
    /// All session numbers were given. This is the greatest one.
    #[error("no session more can be opened")]
    SessionsFull(u64),
    #[error("out of memory")]
    NoMemory,
}

impl From<NoMemory> for OwnError {
    ghost use Rattle.std.specs.Prelude.{◌≡◌};
    ghost use Rattle.cj_book.specs.declared.error.OwnError.TheVariants.{NoMemory};

    ghost from_gives = { λ _ e. e ≡ NoMemory };

    fn from(_error: NoMemory) -> OwnError {
        OwnError::NoMemory
    }
}

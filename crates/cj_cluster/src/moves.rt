//! The moves of a cluster, and what each gives.

ghost use Rattle.std.specs.Prelude.{◌≡◌};
ghost use Rattle.cj_cluster.specs.Script.Lines.{reason_number};

use cj_model::{
    Answer, Duplicate, ListOf, Name, NoMemory, Outcome, Refusal, Reply, Request, Select, Text,
};
use std::alloc::Global;
use thiserror::Error;

/// One move of the cluster. Backends go by their number, from 0.
#[derive(Drop)]
pub enum Move {
    /// Opens a session of the user, a text of at most 64 bytes.
    Open { user: Text },
    Close { session: u64 },
    /// Schedules a request that is no SELECT.
    Schedule { session: u64, request: Request },
    /// Schedules the end of an orphan: a transaction that is open while its session isn't.
    Abort { tx: u64 },
    /// The backend applies the open entry, or skips it if it has no part in it.
    Apply { b: u8 },
    /// Ends the open entry and answers its session.
    End,
    /// Asks the backend a session's read.
    Read { session: u64, b: u8, select: Select },
    /// Makes the backend's next call fail, if its kind can.
    Arm { b: u8 },
    Disable { b: u8 },
    /// A backend that isn't enabled applies the next entry of the log that it missed, or skips it.
    Replay { b: u8 },
    Enable { b: u8 },
    /// Marks a checkpoint in the log, with a name that no marker and no dump has.
    Mark { name: Name },
    /// Takes a dump of what a backend that isn't enabled holds, under a name that no marker and no dump has.
    Dump { b: u8, name: Name },
    /// Loads a dump into a backend that is out: from then on it holds what the dump has of its tables.
    Load { b: u8, name: Name },
}

pub type Moves = ListOf<Move>;

/// What a backend did with an entry.
#[derive(Clone, Copy, PartialEq, Eq)]
pub enum Did {
    Done(Outcome),
    /// The backend has no part in the entry.
    Skipped,
    Failed,
    /// The backend ran out of memory.
    Starved,
}

/// What a move that was made gave.
#[derive(Drop)]
pub enum Moved {
    /// The number of the session that was opened.
    Session(u64),
    Closed,
    /// The number of the entry that was scheduled.
    Entry(u64),
    Refused(Refusal),
    Applied { b: u8, did: Did },
    Replied { session: u64, reply: Reply },
    Rows(Answer),
    /// The backend's position is this one, below what the session has seen.
    Behind(u64),
    /// The backend is out: it needs a dump.
    Out,
    Failed,
    /// The backend ran out of memory, or the dump that is loaded into it did.
    Starved,
    Armed,
    Disabled,
    Enabled,
    /// The marker comes after so many entries.
    Marked(u64),
    /// The position of the dumped backend: how many entries it has applied or skipped.
    Dumped(u64),
    /// The position of the backend from now on: how many entries it has applied or skipped.
    Loaded(u64),
    Replayed { number: u64, did: Did },
}

/// The reason for which a move can't be made now.
#[derive(Clone, Copy, Debug, PartialEq, Eq)]
pub enum Reason {
    EntryOpen,
    NoEntryOpen,
    NotEnabled,
    Enabled,
    /// The backend has applied or skipped the whole log.
    AtEnd,
    /// A backend has not applied or skipped the whole log.
    Behind,
    /// The backend needs a dump.
    Out,
    /// The backend needs no dump.
    NotOut,
    NoSession,
    /// The session waits for the answer to another request.
    Waiting,
    /// The backend doesn't serve the read, and another does.
    NotServing,
    /// No dump has the name.
    NoDump,
    /// A marker or a dump has the name.
    NameTaken,
    /// The transaction isn't open, or its session is.
    NotOrphan,
    /// The backend hosts a table that the dump doesn't cover.
    DumpLacks,
}

impl Reason {
    /// The number of the reason in the output of a script (docs/SCRIPT.md).
    pub fn number(self) -> u16
        ensures { result ≡ reason_number self }
    {
        match self {
            Reason::EntryOpen => 1,
            Reason::NoEntryOpen => 2,
            Reason::NotEnabled => 3,
            Reason::Enabled => 4,
            Reason::AtEnd => 5,
            Reason::Behind => 6,
            Reason::Out => 7,
            Reason::NotOut => 8,
            Reason::NoSession => 9,
            Reason::Waiting => 10,
            Reason::NotServing => 11,
            Reason::NoDump => 12,
            Reason::NameTaken => 13,
            Reason::NotOrphan => 14,
            Reason::DumpLacks => 15,
        }
    }
}

/// Why a move can't be made now: the reason, and a value that it gives a meaning.
#[derive(Clone, Copy, Debug, PartialEq, Eq)]
pub struct Why {
    pub reason: Reason,
    pub value: u64,
}

/// Why a move was not made.
#[derive(Clone, Copy, Debug, Error)]
pub enum MoveError {
    #[error("not now")]
    NotNow(Why),
    #[error("out of memory")]
    NoMemory,
}

/// The result of one move of a list.
#[derive(Drop)]
pub enum Made {
    Moved(Moved),
    NotNow(Why),
}

pub type MovedList = ListOf<Made>;

/// A session's read that isn't answered yet.
#[derive(Drop)]
pub struct OpenRead {
    pub select: Select,
    /// The mask of the backends that failed in the read.
    pub tried: u32,
}

/// A dump that was taken: its name, its backend, whose tables it covers, and its position.
#[derive(Drop)]
pub struct TakenDump {
    pub name: Name,
    pub source: u8,
    /// How many entries the backend had applied or skipped.
    pub position: u64,
}

/// An open session.
#[derive(Drop)]
pub struct OpenSession {
    pub number: u64,
    pub user: Text,
    /// How many requests the session has made.
    pub requests: u64,
    /// The minimum position that the session's reads need.
    pub least: u64,
    pub reading: Option<OpenRead>,
}

impl Duplicate for Move {
    fn copy(&self, alloc: Global) -> Result<Move, NoMemory> {
        match self {
            Move::Open { user } => Ok(Move::Open {
                user: user.copy(alloc)?,
            }),
            Move::Close { session } => Ok(Move::Close { session: *session }),
            Move::Schedule { session, request } => Ok(Move::Schedule {
                session: *session,
                request: request.copy(alloc)?,
            }),
            Move::Abort { tx } => Ok(Move::Abort { tx: *tx }),
            Move::Apply { b } => Ok(Move::Apply { b: *b }),
            Move::End => Ok(Move::End),
            Move::Read { session, b, select } => Ok(Move::Read {
                session: *session,
                b: *b,
                select: select.copy(alloc)?,
            }),
            Move::Arm { b } => Ok(Move::Arm { b: *b }),
            Move::Disable { b } => Ok(Move::Disable { b: *b }),
            Move::Replay { b } => Ok(Move::Replay { b: *b }),
            Move::Enable { b } => Ok(Move::Enable { b: *b }),
            Move::Mark { name } => Ok(Move::Mark { name: name.copy() }),
            Move::Dump { b, name } => Ok(Move::Dump {
                b: *b,
                name: name.copy(),
            }),
            Move::Load { b, name } => Ok(Move::Load {
                b: *b,
                name: name.copy(),
            }),
        }
    }
}

impl Duplicate for Moved {
    fn copy(&self, alloc: Global) -> Result<Moved, NoMemory> {
        match self {
            Moved::Session(number) => Ok(Moved::Session(*number)),
            Moved::Closed => Ok(Moved::Closed),
            Moved::Entry(number) => Ok(Moved::Entry(*number)),
            Moved::Refused(refusal) => Ok(Moved::Refused(*refusal)),
            Moved::Applied { b, did } => Ok(Moved::Applied { b: *b, did: *did }),
            Moved::Replied { session, reply } => Ok(Moved::Replied {
                session: *session,
                reply: reply.copy(alloc)?,
            }),
            Moved::Rows(answer) => Ok(Moved::Rows(answer.copy(alloc)?)),
            Moved::Behind(position) => Ok(Moved::Behind(*position)),
            Moved::Out => Ok(Moved::Out),
            Moved::Failed => Ok(Moved::Failed),
            Moved::Starved => Ok(Moved::Starved),
            Moved::Armed => Ok(Moved::Armed),
            Moved::Disabled => Ok(Moved::Disabled),
            Moved::Enabled => Ok(Moved::Enabled),
            Moved::Marked(after) => Ok(Moved::Marked(*after)),
            Moved::Dumped(position) => Ok(Moved::Dumped(*position)),
            Moved::Loaded(position) => Ok(Moved::Loaded(*position)),
            Moved::Replayed { number, did } => Ok(Moved::Replayed {
                number: *number,
                did: *did,
            }),
        }
    }
}

impl Duplicate for Made {
    fn copy(&self, alloc: Global) -> Result<Made, NoMemory> {
        match self {
            Made::Moved(moved) => Ok(Made::Moved(moved.copy(alloc)?)),
            Made::NotNow(why) => Ok(Made::NotNow(*why)),
        }
    }
}

impl Duplicate for OpenRead {
    fn copy(&self, alloc: Global) -> Result<OpenRead, NoMemory> {
        Ok(OpenRead {
            select: self.select.copy(alloc)?,
            tried: self.tried,
        })
    }
}

impl Duplicate for OpenSession {
    fn copy(&self, alloc: Global) -> Result<OpenSession, NoMemory> {
        Ok(OpenSession {
            number: self.number,
            user: self.user.copy(alloc)?,
            requests: self.requests,
            least: self.least,
            reading: self.reading.copy(alloc)?,
        })
    }
}

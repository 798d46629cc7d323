//! Requests, and the entries of the log that they become.

use crate::memory::{Duplicate, NoMemory};
use crate::name::Name;
use crate::schema::Create;
use crate::select::Select;
use crate::text::Text;
use crate::write::Write;
use std::alloc::Global;

/// What a statement asks for.
#[derive(Drop)]
pub enum Request {
    Select(Select),
    Write(Write),
    Create(Create),
    Drop(Name),
    Begin,
    Commit,
    Rollback,
}

/// What an entry of the log does.
#[derive(Drop)]
pub enum Act {
    Begin,
    Write(Write),
    Create(Create),
    Drop(Name),
    Commit,
    Abort,
}

/// An entry of the log.
#[derive(Drop)]
pub struct Entry {
    /// The session's number; 0 for the administrator's.
    pub session: u64,
    /// The number of the Query among the session's; 0 for the administrator's.
    pub seq: u64,
    /// The transaction, which is the number of its Begin entry; 0 for none.
    pub tx: u64,
    pub user: Text,
    pub act: Act,
}

impl Duplicate for Request {
    fn copy(&self, alloc: Global) -> Result<Request, NoMemory> {
        match self {
            Request::Select(select) => Ok(Request::Select(select.copy(alloc)?)),
            Request::Write(write) => Ok(Request::Write(write.copy(alloc)?)),
            Request::Create(create) => Ok(Request::Create(create.copy(alloc)?)),
            Request::Drop(table) => Ok(Request::Drop(table.copy())),
            Request::Begin => Ok(Request::Begin),
            Request::Commit => Ok(Request::Commit),
            Request::Rollback => Ok(Request::Rollback),
        }
    }
}

impl Duplicate for Act {
    fn copy(&self, alloc: Global) -> Result<Act, NoMemory> {
        match self {
            Act::Begin => Ok(Act::Begin),
            Act::Write(write) => Ok(Act::Write(write.copy(alloc)?)),
            Act::Create(create) => Ok(Act::Create(create.copy(alloc)?)),
            Act::Drop(table) => Ok(Act::Drop(table.copy())),
            Act::Commit => Ok(Act::Commit),
            Act::Abort => Ok(Act::Abort),
        }
    }
}

impl Duplicate for Entry {
    fn copy(&self, alloc: Global) -> Result<Entry, NoMemory> {
        Ok(Entry {
            session: self.session,
            seq: self.seq,
            tx: self.tx,
            user: self.user.copy(alloc)?,
            act: self.act.copy(alloc)?,
        })
    }
}

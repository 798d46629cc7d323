//! What requests and messages are answered.

use crate::lists::ListsOf;
use crate::memory::{Duplicate, NoMemory};
use crate::name::Names;
use crate::value::Value;
use std::alloc::Global;

/// A refusal by its code (`codes`), with two numbers that the code gives a meaning.
#[derive(Clone, Copy, Debug, PartialEq, Eq)]
pub struct Refusal {
    pub code: u16,
    pub a: u64,
    pub b: u64,
}

impl Refusal {
    ghost use Rattle.std.specs.Prelude.{◌≡◌};
    ghost use Rattle.cj_model.specs.Database.Inserts as inserts;

    /// The refusal with this code, and with 0 for both of its numbers.
    pub fn of_code(code: u16) -> Refusal
        ensures { result ≡ inserts.refusal_of_code code }
    {
        Refusal { code, a: 0, b: 0 }
    }
}

/// The rows of an answer, whose values are all in one vector.
pub type AnswerRows = ListsOf<Value>;

/// The rows of a query: one value for each column.
#[derive(Drop)]
pub struct Answer {
    pub columns: Names,
    pub rows: AnswerRows,
}

/// A reply to a client's message.
#[derive(Drop)]
pub enum Reply {
    /// A count: of rows for a write, else 0.
    Done(u64),
    Rows(Answer),
    /// Hits and misses of the result cache.
    Stats(u64, u64),
    Refused(Refusal),
}

/// The outcome of a log entry: a count (of rows for a write, else 0), or a refusal.
#[derive(Clone, Copy, PartialEq, Eq)]
pub enum Outcome {
    Done(u64),
    Refused(Refusal),
}

/// The answer to a query: its rows, or a refusal.
#[derive(Drop)]
pub enum Asked {
    Rows(Answer),
    Refused(Refusal),
}

impl Duplicate for Answer {
    fn copy(&self, alloc: Global) -> Result<Answer, NoMemory> {
        Ok(Answer {
            columns: self.columns.copy(alloc)?,
            rows: self.rows.copy(alloc)?,
        })
    }
}

impl Duplicate for Refusal {
    fn copy(&self, _alloc: Global) -> Result<Refusal, NoMemory> {
        Ok(*self)
    }
}

impl Duplicate for Reply {
    fn copy(&self, alloc: Global) -> Result<Reply, NoMemory> {
        match self {
            Reply::Done(count) => Ok(Reply::Done(*count)),
            Reply::Rows(answer) => Ok(Reply::Rows(answer.copy(alloc)?)),
            Reply::Stats(hits, misses) => Ok(Reply::Stats(*hits, *misses)),
            Reply::Refused(refusal) => Ok(Reply::Refused(*refusal)),
        }
    }
}

impl Duplicate for Outcome {
    fn copy(&self, _alloc: Global) -> Result<Outcome, NoMemory> {
        Ok(*self)
    }
}

impl Duplicate for Asked {
    fn copy(&self, alloc: Global) -> Result<Asked, NoMemory> {
        match self {
            Asked::Rows(answer) => Ok(Asked::Rows(answer.copy(alloc)?)),
            Asked::Refused(refusal) => Ok(Asked::Refused(*refusal)),
        }
    }
}

//! The open sessions, with their transactions.

ghost use Rattle.std.specs.Prelude.{◌≡◌, ◌<◌, [], ◌∷◌, ◌++◌, length, All, IfOk, OnErr, OnOk, MatchOption, None};
ghost use Rattle.cj_transactions.specs.Lists.{IsIndexOf, book_session, numbered, session_number, with_tx, without};
ghost use Rattle.cj_transactions.specs.Lists as lists;

use cj_model::{Act, Entry, NoMemory, SESSION_LIMIT};
use std::alloc::Global;
use std::marker::Model;

/// An open session.
#[derive(Clone, Copy)]
pub struct BookSession {
    pub number: u64,
    /// The number of the session's open transaction, or 0.
    pub tx: u64,
}

/// The open sessions in rising number, which contracts see as a list.
/// The vector has room for `SESSION_LIMIT` sessions from the start.
#[derive(Drop)]
pub struct BookSessions {
    open: Vec<BookSession>,
}

impl Model for BookSessions {
    ghost use Rattle.std.specs.Prelude.{List};
    ghost use Rattle.cj_transactions.specs.declared.sessions.BookSession.{BookSession};
    ghost use Rattle.std.specs.Prelude.{vec_capacity};
    ghost use Rattle.cj_transactions.specs.Kept.{KeepsRoom};

    ghost Value = { List BookSession };

    ghost view = { λ sessions. sessions.open.items };

    ghost invariant = { λ sessions. KeepsRoom sessions.open.items (vec_capacity sessions.open) };
}

impl BookSessions {
    /// Returns an empty list with room for `SESSION_LIMIT` sessions. `NoMemory`: memory ran out.
    pub fn new(alloc: Global) -> Result<Self, NoMemory>
        ensures { IfOk result (λ made. made ≡ []) }
    {
        Ok(BookSessions {
            open: Vec::with_capacity(alloc, SESSION_LIMIT)?,
        })
    }

    /// Returns the number of open sessions.
    pub fn len(&self) -> usize
        ensures { result ≡ length self.now }
    {
        self.open.len()
    }

    fn place_of(&self, number: u64) -> Option<usize>
        ensures { MatchOption result (numbered session_number self.now number ≡ None) (IsIndexOf session_number self.now number) }
    {
        match self.open.binary_search_by_key(&number, |s| s.number) {
            Ok(place) => Some(place),
            Err(_) => None,
        }
    }

    /// Returns the open session of a number. None if no open session has the number.
    pub fn find(&self, number: u64) -> Option<BookSession>
        ensures { result ≡ numbered session_number self.now number }
    {
        match self.place_of(number) {
            Some(place) => Some(self.open[place]),
            None => None,
        }
    }

    /// Adds a session whose number is above all others, while fewer than `SESSION_LIMIT` are open.
    /// The call takes no memory.
    pub fn add(&mut self, number: u64)
        requires few { length self.old < SESSION_LIMIT }
        requires above { All (λ s. session_number s < number) self.old }
        ensures { self.new ≡ self.old ++ book_session number ∷ [] }
    {
        self.open.push_reserved(BookSession { number, tx: 0 });
    }

    /// Adds a session whose number is above all others, however many are open.
    /// `NoMemory`: the vector could not grow. An error leaves the list unchanged.
    pub fn try_add(&mut self, number: u64) -> Result<(), NoMemory>
        requires { All (λ s. session_number s < number) self.old }
        ensures ok { OnOk result (self.new ≡ self.old ++ book_session number ∷ []) }
        ensures err { OnErr result (self.new ≡ self.old) }
    {
        self.open.push(BookSession { number, tx: 0 })?;
        Ok(())
    }

    /// Removes the session of a number. Nothing changes if no open session has the number.
    pub fn remove(&mut self, number: u64)
        ensures { self.new ≡ without session_number number self.old }
    {
        if let Some(place) = self.place_of(number) {
            self.open.remove(place);
        }
    }

    fn put_tx(&mut self, number: u64, tx: u64)
        ensures { self.new ≡ with_tx number tx self.old }
    {
        if let Some(place) = self.place_of(number) {
            self.open[place].tx = tx;
        }
    }

    /// Notes what entry `number` of the log does to its session: BEGIN opens a transaction, COMMIT and ABORT end it.
    pub fn follow(&mut self, number: u64, e: &Entry)
        ensures { self.new ≡ lists.sessions_after self.old number e.now e.now.act }
    {
        match &e.act {
            Act::Begin => self.put_tx(e.session, number),
            Act::Write(_) | Act::Create(_) | Act::Drop(_) => {}
            Act::Commit | Act::Abort => self.put_tx(e.session, 0),
        }
    }
}

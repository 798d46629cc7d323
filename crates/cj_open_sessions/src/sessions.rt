//! The open sessions.

ghost use Rattle.std.specs.Prelude.{◌≡◌, ◌+◌, ◌<◌, ◌==◌, not, [], ◌∷◌, ◌++◌, length, filter, option_copied, All, IfOk, MatchOption};
ghost use Rattle.cj_open_sessions.specs.Places.{IsPlaceOf, HasRequestLeft};
ghost use Rattle.cj_cluster.specs.Moves.Cores.{find_session, with_session, new_session};
ghost use Rattle.cj_cluster.specs.Moves.Moves as moves;
ghost use Rattle.cj_cluster.specs.Moves.Moves.{read_number};

use cj_cluster::{OpenRead, OpenSession};
use cj_model::{NoMemory, REQUEST_LIMIT, SESSION_LIMIT, Select, Text};
use std::alloc::Global;
use std::marker::Model;

/// The open sessions in rising number, which contracts see as a list. There is room for as many as may be open.
#[derive(Drop)]
pub struct Sessions {
    open: Vec<OpenSession>,
}

impl Model for Sessions {
    ghost use Rattle.std.specs.Prelude.{List};
    ghost use Rattle.cj_cluster.specs.declared.moves.OpenSession.{OpenSession};
    ghost use Rattle.std.specs.Prelude.{vec_capacity};
    ghost use Rattle.cj_open_sessions.specs.Places.{HasRoomForAll};

    ghost Value = { List OpenSession };

    ghost use Rattle.std.specs.Coded.{codes};
    ghost use Rattle.cj_model.specs.Proving.ConditionCode.{coded_condition};

    ghost coded = { Prim.hlevel (codes, coded_condition) };

    ghost view = { λ sessions. sessions.open.items };

    ghost invariant = { λ sessions. HasRoomForAll sessions.open.items (vec_capacity sessions.open) };
}

/// The request number of the session's open read, or of its next request if no read is open.
pub fn read_number(session: &OpenSession) -> u64
    requires { session.now.requests < REQUEST_LIMIT }
    ensures { result ≡ moves.read_number session.now }
{
    if session.reading.is_some() {
        session.requests
    } else {
        session.requests + 1
    }
}

/// Closes the session's read, which is counted as a request.
fn close_read(session: &mut OpenSession)
    requires { session.old.requests < REQUEST_LIMIT }
    ensures { session.new ≡ moves.was_answered session.old }
{
    session.requests = read_number(session);
    session.reading = None;
}

/// Keeps the session's read open, which is counted as a request once.
fn put_read(session: &mut OpenSession, select: Select, tried: u32)
    requires { session.old.requests < REQUEST_LIMIT }
    ensures { session.new ≡ moves.still_reading select tried session.old }
{
    session.requests = read_number(session);
    session.reading = Some(OpenRead { select, tried });
}

impl Sessions {
    /// Makes an empty list, with room for all sessions that may be open. Fails if memory runs out.
    pub fn new(alloc: Global) -> Result<Self, NoMemory>
        ensures { IfOk result (λ made. made ≡ []) }
    {
        Ok(Sessions {
            open: Vec::with_capacity(alloc, SESSION_LIMIT)?,
        })
    }

    /// How many sessions are open.
    pub fn len(&self) -> usize
        ensures { result ≡ length self.now }
    {
        self.open.len()
    }

    fn place_of(&self, number: u64) -> Option<usize>
        ensures { MatchOption result (find_session self.now number ≡ None) (IsPlaceOf self.now number) }
    {
        match self
            .open
            .binary_search_by_key(&number, |session| session.number)
        {
            Ok(place) => Some(place),
            Err(_) => None,
        }
    }

    /// The open session with this number; `None` if there is none.
    pub fn get(&self, number: u64) -> Option<&OpenSession>
        ensures { option_copied result ≡ find_session self.now number }
    {
        match self.place_of(number) {
            Some(place) => Some(&self.open[place]),
            None => None,
        }
    }

    /// Adds a session, whose number is above all others. Fewer than `SESSION_LIMIT` are open. Allocates nothing.
    pub fn open(&mut self, number: u64, user: Text)
        requires few { length self.old < SESSION_LIMIT }
        requires above { All (λ x. x.number < number) self.old }
        ensures { self.new ≡ self.old ++ new_session number user ∷ [] }
    {
        self.open.push_reserved(OpenSession {
            number,
            user,
            requests: 0,
            least: 0,
            reading: None,
        });
    }

    /// Removes the session with this number.
    pub fn close(&mut self, number: u64)
        ensures { self.new ≡ filter (λ x. not (x.number == number)) self.old }
    {
        if let Some(place) = self.place_of(number) {
            drop(self.open.remove(place));
        }
    }

    /// Counts one more request of the session.
    pub fn count(&mut self, number: u64)
        requires { HasRequestLeft self.old number }
        ensures { self.new ≡ with_session self.old number moves.with_one_request }
    {
        if let Some(place) = self.place_of(number) {
            let session = &mut self.open[place];
            session.requests += 1;
        }
    }

    /// Records that the session was answered at a position, which its reads need from now on.
    pub fn answer(&mut self, number: u64, position: u64)
        ensures { self.new ≡ with_session self.old number (moves.answered_at position) }
    {
        if let Some(place) = self.place_of(number) {
            let session = &mut self.open[place];
            session.least = position;
        }
    }

    /// Closes the session's read, which was refused. The position that its reads need stays.
    pub fn refuse_read(&mut self, number: u64)
        requires { HasRequestLeft self.old number }
        ensures { self.new ≡ with_session self.old number moves.was_answered }
    {
        if let Some(place) = self.place_of(number) {
            close_read(&mut self.open[place]);
        }
    }

    /// Closes the session's read, which was answered at a position. Its reads need that from now on.
    pub fn answer_read(&mut self, number: u64, position: u64)
        requires { HasRequestLeft self.old number }
        ensures { self.new ≡ with_session self.old number (λ x. moves.answered_at position (moves.was_answered x)) }
    {
        if let Some(place) = self.place_of(number) {
            let session = &mut self.open[place];
            close_read(session);
            session.least = position;
        }
    }

    /// Keeps the session's read open, in which the backends of the mask `tried` have failed.
    pub fn keep_reading(&mut self, number: u64, select: Select, tried: u32)
        requires { HasRequestLeft self.old number }
        ensures { self.new ≡ with_session self.old number (moves.still_reading select tried) }
    {
        if let Some(place) = self.place_of(number) {
            put_read(&mut self.open[place], select, tried);
        }
    }
}

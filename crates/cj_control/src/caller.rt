//! One session of a cluster that threads share, as a desk.

ghost use Rattle.std.specs.Prelude.{◌≡◌, ℕ, ◌+◌, ◌<◌, ◌≤◌, length, IfOk, IsErrOf};
ghost use Rattle.std.specs.Arc.{arc_value};
ghost use mathlib.Core.List.{IsPrefix};
ghost use Rattle.cj_model.specs.declared.answer.Reply.TheVariants as reply;
ghost use Rattle.cj_model.specs.declared.codes.TheConstants.{NO_MEMORY};
ghost use Rattle.cj_model.specs.declared.limits.TheConstants.{SESSION_NUMBER_LIMIT};
ghost use Rattle.cj_model.specs.Database.Inserts.{refusal_of_code};
ghost use Rattle.cj_cluster.specs.History.Histories.{log, tx_of};
ghost use Rattle.cj_cluster.specs.History.Legality.{IsLegal};
ghost use Rattle.cj_board.specs.Counting.{event_count_of};
ghost use Rattle.cj_board.specs.Seats.{front, pass_view};
ghost use Rattle.cj_pass.specs.Passes.{HasNotedMore, HasSeenMore, WasGiven};
ghost use Rattle.cj_locked.specs.Writing.{AreUpTo};
ghost use Rattle.cj_write_path.specs.Writing.{least_after};

use crate::control::Control;
use cj_backend::Backend;
use cj_book::OwnError;
use cj_desk::{Desk, Written};
use cj_model::{Act, Duplicate, Entry, NO_MEMORY, NoMemory, Refusal, Reply, Select, Text};
use cj_outside::Store;
use cj_pass::{Naming, Pass};
use cj_read_path::{Query, read};
use cj_write_path::write;
use std::alloc::Global;
use std::sync::{Arc, Wait};
use thiserror::Error;

/// A session, which has its own pass.
#[derive(Drop)]
pub struct Caller<'a, J: Naming, B: Backend, S: Store> {
    control: &'a Control<J, B, S>,
    pass: Pass<J>,
    session: u64,
    /// The position that its reads need at least.
    least: u64,
    /// How many Queries it counted.
    queries: u64,
    ghost own: { ((pass_view pass.seat).own_session ≡ session) × (0 < session) × (session ≤ SESSION_NUMBER_LIMIT) },
    ghost counted: { event_count_of session (front pass.seat) ≡ (pass_view pass.seat).count },
    ghost owes: { least ≤ length (log (front pass.seat)) },
    ghost newer: { AreUpTo session queries (log (front pass.seat)) },
}

/// Why no session was opened.
#[derive(Clone, Copy, Debug, PartialEq, Eq, Error)]
pub enum CallerError {
    /// All session numbers were given. This is the greatest one.
    #[error("no session more can be opened")]
    SessionsFull(u64),
    #[error("out of memory")]
    NoMemory,
}

/// Makes an entry, and a copy of it that threads may share.
fn twice(
    alloc: Global,
    session: u64,
    seq: u64,
    user: &Text,
    tx: u64,
    act: Act,
) -> Result<(Entry, Arc<Entry, Global>), NoMemory>
    ensures entry { IfOk result (λ made. made.0 ≡ record { session = session; seq = seq; tx = tx; user = user.now; act = act }) }
    ensures copy { IfOk result (λ made. arc_value made.1 ≡ made.0) }
{
    let entry = Entry {
        session,
        seq,
        tx,
        user: user.copy(alloc)?,
        act,
    };
    let copy = Arc::new(alloc, entry.copy(alloc)?)?;
    Ok((entry, copy))
}

/// Returns the position that a session's reads need at least, after a write whose entry has this number, or that has
/// none if it is 0.
fn least_after(number: u64, least: u64) -> u64
    ensures { result ≡ least_after number least }
{
    if number == 0 { least } else { number }
}

impl<J: Naming, B: Backend, S: Store + Drop> Control<J, B, S> {
    /// Shows an own pass the history, of whose session it has counted each event then.
    fn show<R: Wait>(&self, rt: &R, pass: &mut Pass<J>)
        requires own { 0 < (pass_view pass.old.seat).own_session }
        ensures seen { HasSeenMore (pass_view pass.old.seat) (pass_view pass.new.seat) }
        ensures few { event_count_of (pass_view pass.new.seat).own_session (front pass.new.seat) ≤ (pass_view pass.new.seat).count }
        ensures legal { IsLegal (front pass.new.seat) }
    {
        self.locks.book.lock(rt).tell(&self.locks.board, pass);
        self.locks.board.check_count(pass);
    }

    /// Replies to a session that memory ran out before its entry was begun. Its pass has seen the history then.
    fn starve<R: Wait>(&self, rt: &R, pass: &mut Pass<J>) -> Reply
        requires own { 0 < (pass_view pass.old.seat).own_session }
        ensures is { result ≡ reply.Refused (refusal_of_code NO_MEMORY) }
        ensures seen { HasSeenMore (pass_view pass.old.seat) (pass_view pass.new.seat) }
        ensures few { event_count_of (pass_view pass.new.seat).own_session (front pass.new.seat) ≤ (pass_view pass.new.seat).count }
        ensures legal { IsLegal (front pass.new.seat) }
    {
        self.show(rt, pass);
        Reply::Refused(Refusal::of_code(NO_MEMORY))
    }

    /// Opens a session at the book, whose notes the pass has then.
    fn open<R: Wait>(&self, rt: &R, pass: &mut Pass<J>) -> Result<(u64, Pass<J>), OwnError>
        ensures own { IfOk result (λ opened. (0 < opened.0) × ((pass_view opened.1.seat).own_session ≡ opened.0)) }
        ensures limit { IfOk result (λ opened. opened.0 ≤ SESSION_NUMBER_LIMIT) }
        ensures none { IfOk result (λ opened. (pass_view opened.1.seat).count ≡ 0) }
        ensures legal { IfOk result (λ opened. IsLegal (front opened.1.seat)) }
        ensures full { (n : ℕ) → IsErrOf result (OwnError.SessionsFull n) → (n ≡ SESSION_NUMBER_LIMIT) × WasGiven (pass_view pass.new.seat) n }
        ensures pass { HasNotedMore (pass_view pass.old.seat) (pass_view pass.new.seat) }
    {
        self.locks.book.lock(rt).open(&self.locks.board, pass)
    }

    /// Makes the caller of a session that was opened now, which has seen what this pass has.
    fn connect<R: Wait>(
        &self,
        rt: &R,
        pass: &mut Pass<J>,
        session: u64,
        mut own: Pass<J>,
    ) -> Caller<'_, J, B, S>
        requires own { ((pass_view own.seat).own_session ≡ session) × (0 < session) × (session ≤ SESSION_NUMBER_LIMIT) }
        requires none { (pass_view own.seat).count ≡ 0 }
        ensures session { result.session ≡ session }
        ensures new { event_count_of session (front result.pass.seat) ≡ 0 }
        ensures begins { (result.least ≡ 0) × (result.queries ≡ 0) }
        ensures seen { IsPrefix (front pass.old.seat) (front result.pass.seat) }
        ensures legal { IsLegal (front result.pass.seat) }
        ensures pass { pass_view pass.new.seat ≡ pass_view pass.old.seat }
    {
        let known = self.locks.board.split(pass);
        self.locks.board.rejoin(&mut own, known);
        self.show(rt, &mut own);
        Caller {
            control: self,
            pass: own,
            session,
            least: 0,
            queries: 0,
        }
    }

    /// Opens a session, of which nothing came yet, so it has no open transaction. It has seen the history, and all that
    /// the pass has seen, and reads what had ended by then.
    ///
    /// `SessionsFull` comes where no session number is left: session 2^62 was given, or the history has one not below.
    /// The pass shows it.
    pub fn caller<R: Wait>(
        &self,
        rt: &R,
        pass: &mut Pass<J>,
    ) -> Result<Caller<'_, J, B, S>, CallerError>
        ensures new { IfOk result (λ caller. event_count_of caller.session (front caller.pass.seat) ≡ 0) }
        ensures idle { IfOk result (λ caller. tx_of (log (front caller.pass.seat)) caller.session ≡ 0) }
        ensures begins { IfOk result (λ caller. (caller.least ≡ 0) × (caller.queries ≡ 0)) }
        ensures seen { IfOk result (λ caller. IsPrefix (front pass.old.seat) (front caller.pass.seat)) }
        ensures legal { IfOk result (λ caller. IsLegal (front caller.pass.seat)) }
        ensures full { (n : ℕ) → IsErrOf result (CallerError.SessionsFull n) → (n ≡ SESSION_NUMBER_LIMIT) × WasGiven (pass_view pass.new.seat) n }
        ensures pass { HasNotedMore (pass_view pass.old.seat) (pass_view pass.new.seat) }
    {
        match self.open(rt, pass) {
            Ok((session, own)) => Ok(self.connect(rt, pass, session, own)),
            Err(OwnError::SessionsFull(greatest)) => Err(CallerError::SessionsFull(greatest)),
            Err(OwnError::NoMemory) => Err(CallerError::NoMemory),
        }
    }

    /// Closes the session of a caller, whose open transaction becomes an orphan. The pass has then seen what the
    /// caller had, too.
    pub fn leave<R: Wait>(&self, rt: &R, caller: Caller<'_, J, B, S>, pass: &mut Pass<J>)
        ensures more { HasNotedMore (pass_view pass.old.seat) (pass_view pass.new.seat) }
        ensures seen { IsPrefix (front caller.entry.pass.seat) (front pass.new.seat) }
    {
        let Caller {
            pass: mut own,
            session,
            ..
        } = caller;
        let seen = self.locks.board.split(&mut own);
        self.locks.board.rejoin(pass, seen);
        self.locks
            .book
            .lock(rt)
            .close(&self.locks.board, session, own);
    }
}

impl<'a, J: Naming, B: Backend, S: Store + Drop, R: Wait> Desk<R> for Caller<'a, J, B, S> {
    ghost use Rattle.cj_control.specs.Callers.{desk_at};
    ghost use Rattle.cj_desk.specs.DeskStates.{DeskSteps};

    ghost tells = { B.tells };

    ghost state_of = { λ c. desk_at J.layout c.control.now.locks.accounts c.session (front c.pass.seat) c.least c.queries };

    ghost leads_to = { λ a x z. DeskSteps B.tells (desk_at J.layout a.control.now.locks.accounts a.session (front a.pass.seat) a.least a.queries) x (desk_at J.layout z.control.now.locks.accounts z.session (front z.pass.seat) z.least z.queries) };

    ghost promised = { λ a z x h. h };

    fn check(&self, user: &[u8], password: &[u8]) -> bool {
        self.control.locks.accounts.check(user, password)
    }

    fn write(&mut self, rt: &R, user: &Text, tx: u64, act: Act) -> Written {
        let seq = self.queries + 1;
        match twice(self.control.locks.alloc, self.session, seq, user, tx, act) {
            Ok((entry, copy)) => {
                let (number, reply) = write(&self.control.locks, rt, &mut self.pass, entry, &copy);
                self.queries = seq;
                self.least = least_after(number, self.least);
                Written { number, reply }
            }
            Err(_) => {
                let reply = self.control.starve(rt, &mut self.pass);
                self.queries = seq;
                Written { number: 0, reply }
            }
        }
    }

    fn read(&mut self, rt: &R, user: &Text, tx: u64, select: &Select) -> Reply {
        let seq = self.queries + 1;
        let query = Query {
            session: self.session,
            seq,
            user,
            tx,
            select,
            least: self.least,
        };
        let (reply, least) = read(&self.control.locks, rt, &mut self.pass, &query);
        self.queries = seq;
        self.least = least;
        reply
    }

    fn skip(&mut self) {
        self.queries += 1;
    }

    fn stats(&mut self, rt: &R) -> (u64, u64) {
        self.control.locks.cache_counts(rt)
    }

    fn session(&self) -> u64 {
        self.session
    }
}

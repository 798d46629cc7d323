//! Calls that change a book and bring no event: sessions, the reads that the balancer counts, and the cache.

ghost use Rattle.std.specs.Prelude.{◌≡◌, ◌≢◌, ◌↔◌, ◌+◌, ◌^◌, ◌<◌, ◌≤◌, true, length, Contains, IsNone, IfSome, IfOk, IfErr, OnOk, OnErr, IsErr, Ok};
ghost use Rattle.cj_model.specs.Cluster.Balancing.{one_less};
ghost use Rattle.cj_model.specs.Cluster.Caching.{after_keep, after_look, has_answer};
ghost use Rattle.cj_cluster.specs.History.Histories.{log};
ghost use Rattle.cj_cluster.specs.History.Freshness.{NoneTouches};
ghost use Rattle.cj_book.specs.Books as books;
ghost use Rattle.cj_book.specs.Books.{has_no_number, with_session, without_session, PicksOf};
ghost use Rattle.cj_book.specs.Seated.{HasSameSeat};

use crate::book::Book;
use crate::error::SessionsFull;
use crate::touching::is_touched_behind;
use cj_balance::Balancer;
use cj_model::{
    Answer, BACKEND_LIMIT, NoMemory, Policy, SESSION_LIMIT, SESSION_NUMBER_LIMIT, Select,
};

/// Counts one more pending read at backend `b`, up to the greatest `u32`, if the policy looks at that.
fn begin_read(balancer: &mut Balancer, b: u8)
    requires { b < BACKEND_LIMIT }
    ensures { balancer.new ≡ record balancer.old { standing = record balancer.old.standing { pending = books.with_pending_read balancer.old.policy balancer.old.standing.pending b } } }
{
    match balancer.policy() {
        Policy::RoundRobin | Policy::Weighted => {}
        Policy::LeastPending => {
            if balancer.pending(b) < u32::MAX {
                balancer.began(b);
            }
        }
    }
}

impl Book {
    /// Opens a session of the next number. It takes no memory.
    pub fn open_session(&mut self) -> Result<u64, SessionsFull>
        ensures ok { OnOk result (self.new.state ≡ with_session self.old.state) }
        ensures number { IfOk result (λ n. n ≡ self.old.state.greatest + 1) }
        ensures full { IsErr result ↔ (has_no_number self.old.state ≡ true) }
        ensures count { IfErr result (λ e. e.sessions ≡ length self.old.state.sessions) }
        ensures err { OnErr result (self.new.state ≡ self.old.state) }
        ensures seat { HasSameSeat self.old self.new }
    {
        let open = self.sessions.len();
        if open >= SESSION_LIMIT || self.greatest >= SESSION_NUMBER_LIMIT {
            return Err(SessionsFull {
                sessions: open as u64,
            });
        }
        self.greatest += 1;
        self.sessions.add(self.greatest);
        Ok(self.greatest)
    }

    /// Closes a session that has no own pass. An open transaction of the session becomes an orphan.
    /// Nothing changes if no open session has the number.
    pub fn close_session(&mut self, session: u64)
        requires unowned { ¬ Contains self.old.view.given session }
        ensures state { self.new.state ≡ without_session self.old.state session }
        ensures seat { HasSameSeat self.old self.new }
    {
        self.sessions.remove(session);
    }

    /// Picks the backend for the next read among the candidates, by the balancer's policy.
    /// `candidates` is a mask of backends below `BACKEND_LIMIT`.
    /// None if and only if the mask is 0, and then nothing changes.
    /// Where the policy counts reads, this one is pending at the backend until `ended` is called.
    pub fn pick(&mut self, candidates: u32) -> Option<u8>
        requires { candidates < 2 ^ BACKEND_LIMIT }
        ensures none { IsNone result ↔ (candidates ≡ 0) }
        ensures same { IsNone result → self.new.state ≡ self.old.state }
        ensures some { IfSome result (λ b. PicksOf self.old.state self.new.state candidates b) }
        ensures seat { HasSameSeat self.old self.new }
    {
        let b = self.balancer.pick(candidates)?;
        begin_read(&mut self.balancer, b);
        Some(b)
    }

    /// Returns whether the balancer's policy counts the reads that are pending. Else `ended` changes nothing.
    pub fn counts_reads(&self) -> bool
        ensures { (result ≡ true) ↔ (self.now.state.balance.policy ≡ Policy.LeastPending) }
    {
        matches!(self.balancer.policy(), Policy::LeastPending)
    }

    /// Notes that a read ended at backend `b`. Nothing changes if no read is pending there.
    pub fn ended(&mut self, b: u8)
        requires below { b < BACKEND_LIMIT }
        ensures state { self.new.state ≡ record self.old.state { balance = record self.old.state.balance { standing = record self.old.state.balance.standing { pending = one_less self.old.state.balance.standing.pending b } } } }
        ensures seat { HasSameSeat self.old self.new }
    {
        if self.balancer.pending(b) > 0 {
            self.balancer.ended(b);
        }
    }

    /// Returns whether the cache keeps an answer of the query, and counts a hit or a miss.
    /// An answer that is found becomes the most recently used one.
    pub fn look(&mut self, select: &Select) -> bool
        ensures found { result ≡ has_answer select.now self.old.state.cache }
        ensures looked { self.new.state ≡ record self.old.state { cache = after_look select.now self.old.state.cache } }
        ensures seat { HasSameSeat self.old self.new }
    {
        self.cache.touch(select)
    }

    /// Gives the cache an answer that reflects the first `at` entries of the log, and returns whether it did.
    /// False if and only if an entry after that position touches a table that the query needs.
    /// `NoMemory`: memory ran out. False and an error leave the book unchanged.
    pub fn keep(&mut self, select: Select, answer: Answer, at: u64) -> Result<bool, NoMemory>
        requires { at ≤ length (log self.old.state.history) }
        ensures untouched { IfOk result (λ kept. (kept ≡ true) ↔ NoneTouches (log self.old.state.history) at (length (log self.old.state.history)) select) }
        ensures kept { result ≡ Ok true → self.new.state ≡ record self.old.state { cache = after_keep (record { select = select; answer = answer; at = at }) self.old.state.cache } }
        ensures same { result ≢ Ok true → self.new.state ≡ self.old.state }
        ensures seat { HasSameSeat self.old self.new }
    {
        if is_touched_behind(self, self.alloc, at, &select)? {
            return Ok(false);
        }
        self.cache.keep(select, answer, at)?;
        Ok(true)
    }
}

//! The desk of a session.

ghost use Rattle.std.specs.Prelude.{◌≡◌, ◌⊎◌, ◌<◌, ◌≤◌, length, Bool};
ghost use Rattle.std.specs.Bool.{OnTrue};
ghost use Rattle.cj_model.specs.declared.limits.TheConstants.{REQUEST_LIMIT, USER_LIMIT};
ghost use Rattle.cj_model.specs.declared.request.Request.TheVariants as requests;
ghost use Rattle.cj_model.specs.Sql.Names.{IsText};
ghost use Rattle.cj_model.specs.Sql.PlainRequests.{request_of};
ghost use Rattle.cj_cluster.specs.History.Legality.{FitsTx};
ghost use Rattle.cj_desk.specs.DeskStates.{
  cache_counted,
  desk_tx,
  next_call,
  query_skipped,
  turn_taken,
  tx_after_write,
  CanAskDesk,
  DeskCall,
  DeskState,
  DeskSteps,
  IsEntryNumber,
};

use cj_model::{Act, Reply, Select, Text};

/// The result of a write.
#[derive(Drop)]
pub struct Written {
    /// The number of the write's entry; 0 if nothing was scheduled.
    pub number: u64,
    pub reply: Reply,
}

/// An object that serves one session. `R` is the handle that is passed to each call, for calls that wait.
///
/// A desk counts the Queries of its session: the writes, the reads, and those that never reached it.
pub trait Desk<R> {
    /// Whether the desk's backends tell what they hold. Only what is promised of contents depends on that.
    ghost tells: { Bool };

    /// The state of the desk, as contracts see it.
    ghost state_of: { Self → DeskState };

    /// The call leads from the first desk to the second, with all that this kind of desk does besides.
    ghost leads_to: { Self → DeskCall → Self → Type 0 };

    /// Checks whether an account has this user and this password. Such a user is a text of at most 64 bytes.
    fn check(&self, user: &[u8], password: &[u8]) -> bool
        ensures admitted { result ≡ (state_of self.now).admits user.now password.now }
        ensures text { OnTrue result (IsText user.now) }
        ensures short { OnTrue result (length user.now ≤ USER_LIMIT) };

    /// Schedules the act as the session's next entry, and answers it once the entry has ended.
    ///
    /// `tx` is the transaction of the act, which must fit the session's open one. The reply also says what prevented
    /// the entry: nothing was scheduled if the number is 0.
    fn write(&mut self, rt: &R, user: &Text, tx: u64, act: Act) -> Written
        requires can { CanAskDesk (state_of self.old) user.now (request_of act) }
        requires fits { FitsTx (desk_tx (state_of self.old)) tx act }
        ensures made { leads_to self.old (turn_taken (next_call (state_of self.old) tx user.now (request_of act) result.reply)) self.new }
        ensures tx { desk_tx (state_of self.new) ≡ tx_after_write result.number act (desk_tx (state_of self.old)) }
        ensures number { IsEntryNumber result.number act (state_of self.old) (next_call (state_of self.old) tx user.now (request_of act) result.reply) (state_of self.new) };

    /// Answers a query at a position that contains all that the session was answered.
    ///
    /// `tx` is 0 or the session's open transaction.
    fn read(&mut self, rt: &R, user: &Text, tx: u64, select: &Select) -> Reply
        requires can { CanAskDesk (state_of self.old) user.now (requests.Select select.now) }
        requires tx { (tx ≡ 0) ⊎ (tx ≡ desk_tx (state_of self.old)) }
        ensures made { leads_to self.old (turn_taken (next_call (state_of self.old) tx user.now (requests.Select select.now) result)) self.new }
        ensures tx { desk_tx (state_of self.new) ≡ desk_tx (state_of self.old) };

    /// Counts a Query of the session that never reached the desk.
    fn skip(&mut self)
        requires { (state_of self.old).requests < REQUEST_LIMIT }
        ensures { leads_to self.old query_skipped self.new };

    /// The hits and the misses that the result cache has counted.
    fn stats(&mut self, rt: &R) -> (u64, u64)
        ensures { leads_to self.old (cache_counted result.0 result.1) self.new };

    /// The number of the desk's session.
    fn session(&self) -> u64
        ensures { result ≡ (state_of self.now).session };

    /// Each call at least steps as every desk does: a write or a read is a turn.
    ghost promised: { (a z : Self) (x : DeskCall) → leads_to a x z → DeskSteps tells (state_of a) x (state_of z) };
}

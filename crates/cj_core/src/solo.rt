//! The desk of one session, over a whole world.

ghost use Rattle.std.specs.Prelude.{◌≡◌, ◌⊎◌, ◌<◌, ◌≤◌, ℕ, List, [], length, false, true, IfErr, IfOk, IsErrOf, None};
ghost use Rattle.std.specs.Bool.{OnTrue};
ghost use Rattle.cj_auth.specs.Admission.{admits};
ghost use Rattle.cj_auth.specs.Kept.{IsUserName};
ghost use Rattle.cj_model.specs.declared.request.Request.TheVariants as requests;
ghost use Rattle.cj_model.specs.Sql.PlainRequests.{request_of};
ghost use Rattle.cj_model.specs.Sql.WrittenRequests.{IsWritten};
ghost use Rattle.cj_cluster.specs.History.Legality.{FitsTx};
ghost use Rattle.cj_model.specs.declared.limits.TheConstants.{REQUEST_LIMIT, USER_LIMIT};
ghost use Rattle.cj_cluster.specs.History.Histories.{is_free};
ghost use Rattle.cj_cluster.specs.Moves.Cores.{session_at};
ghost use Rattle.cj_cluster.specs.Moves.Moves as moves;
ghost use Rattle.cj_cluster.specs.Moves.Moves.{closed_for, with_request_counted, MovesTo};
ghost use Rattle.cj_desk.specs.DeskStates.{desk_tx, next_call, turn_taken, CanAskDesk};
ghost use Rattle.cj_moves.specs.Armings.{HasArmings};
ghost use Rattle.cj_moves.specs.Caches.{HasCacheAfter};
ghost use Rattle.cj_moves.specs.Counting.{HasCauses, HasLogCauses};
ghost use Rattle.cj_state.specs.Effects.{with_core};
ghost use Rattle.cj_state.specs.Worlds.{accounts_of, CacheFollowsLog, IsSameWorldButLog};
ghost use Rattle.cj_moves.specs.Logins.{HasLogins};
ghost use Rattle.cj_calls.specs.WorldTurns.{call_of, StandsBetweenCalls, WorldTurn};
ghost use Rattle.cj_core.specs.Solos.{desk_of, session_opened, IsMoveOfNoSession, SoloSteps};
ghost use Rattle.cj_calls.specs.OwnEvents.{AddsEntry};
ghost use Rattle.cj_calls.specs.Entries.{EndsStarving};
ghost use Rattle.cj_calls.specs.CacheUse.{ReadsWithCache};
ghost use Rattle.cj_moves.specs.Steps.{IsMet};

use crate::world::World;
use cj_backend::Backend;
use cj_book::SessionsFull;
use cj_calls::{ServedWrite, serve_read, serve_write};
use cj_cluster::{Move, MoveError, Moved};
use cj_desk::{Desk, Written};
use cj_model::{Act, Refusal, Reply, Select, Text};
use cj_outside::Store;
use std::alloc::Global;
use std::marker::Model;

/// Returns the empty text.
fn empty_text(alloc: Global) -> Text
    ensures { result ≡ [] }
{
    match Text::of(Vec::new(alloc)) {
        Some(text) => text,
        None => unreachable!(),
    }
}

/// A desk that owns its world and serves one session. The session sees the whole history. Between
/// two calls of the desk no entry is open.
#[derive(Drop)]
pub struct Solo<B: Backend, S: Store> {
    world: World<B, S>,
    session: u64,
}

impl<B: Backend, S: Store> Model for Solo<B, S> {
    ghost use Rattle.cj_moves.specs.Logins.{HasLogins};
    ghost use Rattle.cj_core.specs.Solos.{SoloState};
    ghost use Rattle.cj_calls.specs.WorldTurns.{StandsBetweenCalls};

    ghost Value = { SoloState };

    ghost use Rattle.std.specs.Coded.{codes};
    ghost use Rattle.cj_model.specs.Proving.ConditionCode.{coded_condition};

    ghost coded = { Prim.hlevel (codes, coded_condition) };

    ghost view = { λ solo. record { world = solo.world; session = solo.session } };

    ghost invariant = { λ solo. StandsBetweenCalls solo.world.core solo.session };
}

impl<B: Backend, S: Store> World<B, S> {
    /// Opens a session for a user to come, and makes its desk. No entry is open. If too many
    /// sessions are open or no number is left, the world comes back as it was. This takes no
    /// memory.
    pub fn desk(self) -> Result<Solo<B, S>, (SessionsFull, World<B, S>)>
        requires { is_free self.core.history ≡ true }
        ensures opened { IfOk result (λ solo. solo ≡ session_opened self) }
        ensures free { IfOk result (λ _. moves.has_no_number self.core ≡ false) }
        ensures full { IfErr result (λ (full, world). (moves.has_no_number self.core ≡ true) × (full.sessions ≡ length self.core.sessions) × (world ≡ self)) }
    {
        let World { mut state, emptied } = self;
        state.legal();
        if state.has_no_number() {
            let sessions = state.session_count();
            return Err((SessionsFull { sessions }, World { state, emptied }));
        }
        let session = state.add_session(empty_text(state.allocator()));
        let world = World { state, emptied };
        Ok(Solo { world, session })
    }
}

// ---- what a session asks of the world

impl<B: Backend, S: Store> World<B, S> {
    /// Whether an account has this user and this password.
    fn admits(&self, user: &[u8], password: &[u8]) -> bool
        ensures admitted { result ≡ admits (accounts_of self.now) user.now password.now }
        ensures user { OnTrue result (IsUserName user.now) }
    {
        self.state.admits(user, password)
    }

    /// Returns the hits and the misses of the result cache.
    pub fn cache_counts(&self) -> (u64, u64)
        ensures { result ≡ (self.now.cache.hits, self.now.cache.misses) }
    {
        self.state.cache_counts()
    }

    /// Counts one request more of session `s`, of which no entry and no read is open.
    fn count(&mut self, s: u64)
        requires counts { (session_at self.old.core s).requests < REQUEST_LIMIT }
        requires idle { moves.is_waiting self.old.core s ≡ false }
        requires no_read { (session_at self.old.core s).reading ≡ None }
        ensures { self.new ≡ with_core self.old (with_request_counted self.old.core s) }
    {
        self.state.count(s);
    }

    /// Schedules the act as an entry of session `s`, in transaction `tx`, 0 for none, and has each
    /// enabled backend carry it out. The number is 0 if the act was refused.
    fn serve_write(&mut self, s: u64, user: &Text, tx: u64, act: Act) -> ServedWrite
        requires stands { StandsBetweenCalls self.old.core s }
        requires counts { (session_at self.old.core s).requests < REQUEST_LIMIT }
        requires short { length user.now ≤ USER_LIMIT }
        requires written { IsWritten (request_of act) }
        requires fits { FitsTx (moves.open_tx self.old.core s) tx act }
        ensures turn { WorldTurn B.tells s self.old (call_of self.old.core s tx user.now (request_of act) result.written.reply) self.new }
        ensures entry { (failed : List ℕ) × AddsEntry result.written.number s (call_of self.old.core s tx user.now (request_of act) result.written.reply) act failed self.old.core.history self.new.core.history }
        ensures cache { CacheFollowsLog self.old self.new }
        ensures starved { EndsStarving result.starved self.old.core.history self.new.core.history }
    {
        serve_write(&mut self.state, s, user, tx, act)
    }

    /// Answers a query of session `s` in transaction `tx`, 0 for none, at the log's end.
    fn serve_read(&mut self, s: u64, user: &Text, tx: u64, select: &Select) -> Reply
        requires stands { StandsBetweenCalls self.old.core s }
        requires counts { (session_at self.old.core s).requests < REQUEST_LIMIT }
        requires written { IsWritten (requests.Select select.now) }
        requires tx { (tx ≡ 0) ⊎ (tx ≡ moves.open_tx self.old.core s) }
        ensures turn { WorldTurn B.tells s self.old (call_of self.old.core s tx user.now (requests.Select select.now) result) self.new }
        ensures cache { ReadsWithCache select.now self.old (call_of self.old.core s tx user.now (requests.Select select.now) result) self.new }
    {
        serve_read(&mut self.state, s, user, tx, select)
    }
}

impl<B: Backend, S: Store> Solo<B, S> {
    /// Returns the world that the desk owns.
    pub fn world(&self) -> &World<B, S>
        ensures { result.now ≡ self.now.world }
    {
        &self.world
    }

    /// Closes the session and returns the world. An open transaction of the session becomes an
    /// orphan. This takes no memory.
    #[tactic(auto, using(cj_calls::proofs::SoloTurns::stands_idle))]
    pub fn close(self) -> World<B, S>
        ensures { result ≡ with_core self.world (closed_for self.world.core self.session) }
    {
        let Solo { world, session } = self;
        let World { mut state, emptied } = world;
        state.remove_session(session);
        World { state, emptied }
    }

    /// Makes a write of the session as its desk does, and gives the reply. Beside it stands the mask
    /// of the backends that ran out of memory in the entry, 0 if nothing was scheduled.
    pub fn write_telling_starved(&mut self, user: &Text, tx: u64, act: Act) -> (Reply, u32)
        requires can { CanAskDesk (desk_of self.old) user.now (request_of act) }
        requires fits { FitsTx (desk_tx (desk_of self.old)) tx act }
        ensures made { SoloSteps B.tells self.old (turn_taken (next_call (desk_of self.old) tx user.now (request_of act) result.0)) self.new }
        ensures starved { EndsStarving result.1 self.old.world.core.history self.new.world.core.history }
    {
        let ServedWrite { written, starved } = self.world.serve_write(self.session, user, tx, act);
        (written.reply, starved)
    }

    /// Makes a move that names no session, as `World::step` does.
    pub fn step(&mut self, m: Move) -> Result<Moved, MoveError>
        requires met { IsMet self.old.world.core m }
        requires sessions { IsMoveOfNoSession m }
        ensures moves { MovesTo B.tells self.old.world.core m result self.new.world.core }
        ensures causes { HasCauses self.old.world self.new.world m result }
        ensures log_causes { HasLogCauses self.old.world self.new.world m result }
        ensures armings { HasArmings B.can_be_armed self.old.world self.new.world m result }
        ensures logins { HasLogins self.old.world self.new.world m result }
        ensures want { IsErrOf result MoveError.NoMemory → IsSameWorldButLog self.old.world self.new.world }
        ensures setup { self.new.world.setup ≡ self.old.world.setup }
        ensures cache { HasCacheAfter self.old.world self.new.world m }
        ensures session { self.new.session ≡ self.old.session }
    {
        self.world.legal();
        self.world.step(m)
    }
}

impl<R, B: Backend, S: Store> Desk<R> for Solo<B, S> {
    ghost tells = { B.tells };

    ghost state_of = { desk_of };

    ghost leads_to = { SoloSteps B.tells };

    ghost promised = { λ a z x h. h.0 };

    fn check(&self, user: &[u8], password: &[u8]) -> bool {
        self.world.admits(user, password)
    }

    fn write(&mut self, _rt: &R, user: &Text, tx: u64, act: Act) -> Written {
        self.world.serve_write(self.session, user, tx, act).written
    }

    fn read(&mut self, _rt: &R, user: &Text, tx: u64, select: &Select) -> Reply {
        self.world.serve_read(self.session, user, tx, select)
    }

    #[tactic(auto, using(cj_calls::proofs::SoloTurns::stands_idle))]
    fn skip(&mut self) {
        self.world.count(self.session);
    }

    fn stats(&mut self, _rt: &R) -> (u64, u64) {
        self.world.cache_counts()
    }

    fn session(&self) -> u64 {
        self.session
    }
}

//! The book, the cells and the shards of the result cache, each behind its lock.

ghost use Rattle.std.specs.Prelude.{◌≡◌, ◌<◌, List, true, false, length, None, is_none};
ghost use Rattle.std.specs.Sync.Mutex.{mutex_guard_value};
ghost use mathlib.Core.List.{IsPrefix};
ghost use Rattle.cj_model.specs.declared.limits.TheConstants.{BACKEND_LIMIT};
ghost use Rattle.cj_model.specs.Cluster.Masks.{in_mask};
ghost use Rattle.cj_cluster.specs.declared.event.Event.{Event};
ghost use Rattle.cj_cluster.specs.History.Histories.{is_enabled, is_free, log};
ghost use Rattle.cj_cluster.specs.History.Legality.{IsLegal};
ghost use Rattle.cj_place.specs.Layouts.{placement_of};
ghost use Rattle.cj_board.specs.Seats.{front, pass_view};
ghost use Rattle.cj_pass.specs.Passes.{HasNotedMore};
ghost use Rattle.cj_locked_cell.specs.Asking.{GivesPart};
ghost use Rattle.cj_locked_cell.specs.Loading.{Stands};
ghost use Rattle.cj_locked.specs.Auditing.{HoldsTurn, IsHeldOver};
ghost use Rattle.cj_locked.specs.Turns.{turn_amount};

use cj_auth::Accounts;
use cj_backend::Backend;
use cj_cache_shard::CacheShard;
use cj_locked::{LockedBook, Turn};
use cj_locked_cell::{LockedCell, Stand};
use cj_model::{Db, Select, has_bit};
use cj_outside::Store;
use cj_pass::{NamedBoard, Naming, Pass};
use cj_place::Placement;
use cj_replica::CellError;
use cj_workers::WorkLane;
use std::alloc::Global;
use std::hash::{BuildHasher, BuildHasherDefault, FoldHasher};
use std::sync::{Condvar, Mutex, MutexGuard, Wait};

/// The book, the cells and the shards of the result cache of a cluster, each behind a lock, at the board, the layout and
/// the turn's ledger that `J` names.
///
/// A thread that holds one of the locks takes no other.
#[derive(Drop)]
pub struct Locks<J: Naming, B: Backend, S: Store> {
    pub alloc: Global,
    pub board: NamedBoard<J>,
    pub book: Mutex<LockedBook<J, S>>,
    /// Here wait those who want the turn, until it is given back.
    pub turn_back: Condvar,
    /// Here wait readers, until nothing is on its way into the recovery log, or until an entry has ended.
    pub settled: Condvar,
    /// By the numbers of their backends.
    pub cells: Vec<Mutex<LockedCell<J, B>>>,
    /// The ways to the workers of the backends, by their numbers.
    pub lanes: Vec<WorkLane<J>>,
    pub placement: Placement,
    pub accounts: Accounts,
    /// The result cache. A query has its answer in one of these, by its hash. There is none where nothing is kept.
    pub shards: Vec<Mutex<CacheShard<J>>>,
    /// Whether the balancer's policy counts the reads that are pending.
    pub counts_reads: bool,
    ghost laid: { placement ≡ J.layout },
    ghost registered: { accounts.backends ≡ length placement.names },
    ghost told: { J.tells ≡ B.tells },
    ghost housed: { length cells.items ≡ length placement.names },
    ghost lined: { length lanes.items ≡ length placement.names },
}

impl<J: Naming, B: Backend, S: Store + Drop> Locks<J, B, S> {
    /// Waits until nobody has the turn, and returns the book locked, with the turn in it.
    pub fn wait_for_turn<R: Wait>(&self, rt: &R) -> MutexGuard<'_, LockedBook<J, S>>
        ensures { is_none (mutex_guard_value result).log ≡ false }
    {
        self.turn_back.wait_while(
            rt,
            self.book.lock(rt),
            |book: &mut LockedBook<J, S>| -> bool
                ensures { result ≡ is_none book.new.log }
            { book.is_taken() },
        )
    }

    /// Gives the turn back, and wakes those who wait for it.
    pub fn give_back<R: Wait>(&self, rt: &R, pass: &mut Pass<J>, turn: Turn<J, S>)
        requires holds { HoldsTurn S.tells S.faults (front pass.old.seat) turn.share.amount turn.log }
        ensures held { IsHeldOver (front pass.old.seat) (front pass.new.seat) }
        ensures since { (m H : List Event) → turn.share.amount ≡ turn_amount m None → is_free m ≡ true → IsPrefix m H → IsPrefix H (front pass.old.seat) → IsHeldOver H (front pass.new.seat) }
        ensures more { HasNotedMore (pass_view pass.old.seat) (pass_view pass.new.seat) }
        ensures legal { IsLegal (front pass.new.seat) }
    {
        self.book.lock(rt).give_back(&self.board, pass, turn);
        self.turn_back.notify_one();
        self.settled.notify_all();
    }

    /// Returns how many entries the log has.
    pub fn log_length<R: Wait>(&self, rt: &R, pass: &mut Pass<J>) -> u64
        ensures length { result ≡ length (log (front pass.new.seat)) }
        ensures more { HasNotedMore (pass_view pass.old.seat) (pass_view pass.new.seat) }
        ensures legal { IsLegal (front pass.new.seat) }
    {
        let mut book = self.book.lock(rt);
        book.tell(&self.board, pass);
        book.length()
    }

    /// Returns the shard of the result cache that may keep the answer of a query. None where nothing is kept.
    pub fn shard_of(&self, select: &Select) -> Option<&Mutex<CacheShard<J>>> {
        // A lone shard needs no hash.
        if self.shards.len() <= 1 {
            return self.shards.first();
        }
        let hash = BuildHasherDefault::<FoldHasher>::new().hash_one(select);
        // A shard finds a query by the low bits of the same hash.
        let number = (hash >> 32) % self.shards.len() as u64;
        self.shards.get(number as usize)
    }

    /// Returns the hits and the misses that the result cache has counted.
    pub fn cache_counts<R: Wait>(&self, rt: &R) -> (u64, u64) {
        let mut hits = 0u64;
        let mut misses = 0u64;
        for shard in &self.shards {
            let (found, absent) = shard.lock(rt).counts();
            hits = hits.saturating_add(found);
            misses = misses.saturating_add(absent);
        }
        (hits, misses)
    }

    /// Whether the mask has the backend.
    pub fn is_in(&self, mask: u32, b: u8) -> bool
        requires below { b < length J.layout.names }
        ensures is { result ≡ in_mask mask b }
        ensures few { b < BACKEND_LIMIT }
    {
        // There are not too many backends, so a mask can have each.
        let _ = self.placement.count();
        has_bit(mask, b)
    }

    /// Returns whether a backend is enabled.
    pub fn is_enabled<R: Wait>(&self, rt: &R, pass: &mut Pass<J>, b: u8) -> bool
        requires below { b < length J.layout.names }
        ensures is { result ≡ is_enabled (front pass.new.seat) b }
        ensures more { HasNotedMore (pass_view pass.old.seat) (pass_view pass.new.seat) }
        ensures legal { IsLegal (front pass.new.seat) }
    {
        let enabled = self.book.lock(rt).enabled(&self.board, pass);
        self.is_in(enabled, b)
    }

    /// Looks where a backend stands.
    pub fn stand<R: Wait>(&self, rt: &R, pass: &mut Pass<J>, b: u8) -> Stand
        requires below { b < length J.layout.names }
        ensures stands { Stands b (pass_view pass.new.seat) result }
        ensures more { HasNotedMore (pass_view pass.old.seat) (pass_view pass.new.seat) }
        ensures legal { IsLegal (front pass.new.seat) }
    {
        self.cells[b as usize].lock(rt).stand(&self.board, pass, b)
    }

    /// Asks backend `b` for all that it holds, if it stands at position `n`.
    pub fn contents_at<R: Wait>(
        &self,
        rt: &R,
        pass: &mut Pass<J>,
        b: u8,
        n: u64,
    ) -> Result<Db, CellError>
        requires below { b < length J.layout.names }
        ensures gives { GivesPart B.tells (placement_of J.layout) b n (pass_view pass.old.seat) (pass_view pass.new.seat) result }
        ensures more { HasNotedMore (pass_view pass.old.seat) (pass_view pass.new.seat) }
        ensures legal { IsLegal (front pass.new.seat) }
    {
        self.cells[b as usize]
            .lock(rt)
            .contents(&self.board, pass, b, n)
    }
}

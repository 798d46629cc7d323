//! The balancer, and what it keeps of each backend.

ghost use Rattle.std.specs.Prelude.{◌≡◌, ◌↔◌, ◌+◌, ◌-◌, ◌^◌, ◌<◌, slice_index, IsNone, IfSome};
ghost use Rattle.cj_model.specs.Cluster.Balancing as balancing;
ghost use Rattle.cj_model.specs.Cluster.Balancing.{Picks, at_rest, one_more, one_less, with_room, used_after, picked};
ghost use Rattle.cj_balance.specs.Kept.{AreWeights, IsFirstOrNone};

use cj_model::{BACKEND_LIMIT, Policy, has_bit};
use std::marker::Model;

/// The greatest weight of a backend.
pub const MOST_WEIGHT: u16 = 1000;

/// Picks a backend for each read, by a policy, weights, and counts of picks and pending reads.
///
/// A mask of candidates has bit b for backend b. No call allocates.
#[derive(Drop)]
pub struct Balancer {
    policy: Policy,
    weights: [u16; BACKEND_LIMIT as usize],
    /// The backend that was picked last.
    last: Option<u8>,
    /// How often each backend was picked; only the weighted policy counts that.
    used: [u32; BACKEND_LIMIT as usize],
    /// How many reads at each backend began and haven't ended.
    pending: [u32; BACKEND_LIMIT as usize],
}

impl Model for Balancer {
    ghost use Rattle.cj_model.specs.Cluster.Balancing.{Balance};
    ghost use Rattle.cj_balance.specs.Kept.{KeepsBalance};

    ghost Value = { Balance };

    ghost view = { λ b. record { policy = b.policy; weights = b.weights; standing = record { last = b.last; used = b.used; pending = b.pending } } };

    ghost invariant = { λ b. KeepsBalance b.weights b.last b.used b.pending };
}

/// How many steps up it is from one backend to another, where 0 comes after 15.
fn steps_from(last: u8, b: u8) -> u8
    requires from { last < BACKEND_LIMIT }
    requires to { b < BACKEND_LIMIT }
    ensures { result ≡ balancing.steps_from last b }
{
    if last < b {
        b - last
    } else {
        BACKEND_LIMIT + b - last
    }
}

fn steps_to(last: Option<u8>, b: u8) -> u8
    requires from { IfSome last (λ l. l < BACKEND_LIMIT) }
    requires to { b < BACKEND_LIMIT }
    ensures { result ≡ balancing.steps_to last b }
{
    match last {
        None => b,
        Some(last) => steps_from(last, b),
    }
}

/// Counts one more at `b`.
fn count_up(counts: &mut [u32; BACKEND_LIMIT as usize], b: u8)
    requires below { b < BACKEND_LIMIT }
    requires room { slice_index counts.old b + 1 < 2 ^ 32 }
    ensures { counts.new ≡ one_more counts.old b }
{
    counts[b as usize] += 1;
}

/// Sets all counts to 0 if that of `b` can't grow.
fn make_room(used: &mut [u32; BACKEND_LIMIT as usize], b: u8)
    requires { b < BACKEND_LIMIT }
    ensures { used.new ≡ with_room used.old b }
{
    if used[b as usize] == u32::MAX {
        *used = [0; BACKEND_LIMIT as usize];
    }
}

/// Counts a pick of `b`, if the policy counts picks.
fn count_pick(policy: Policy, used: &mut [u32; BACKEND_LIMIT as usize], b: u8)
    requires { b < BACKEND_LIMIT }
    ensures { used.new ≡ used_after policy used.old b }
{
    match policy {
        Policy::RoundRobin => {}
        Policy::Weighted => {
            make_room(used, b);
            count_up(used, b);
        }
        Policy::LeastPending => {}
    }
}

impl Balancer {
    /// A balancer that has picked nothing yet. Each weight is 1 to `MOST_WEIGHT`.
    pub fn new(policy: Policy, weights: [u16; BACKEND_LIMIT as usize]) -> Balancer
        requires { AreWeights weights }
        ensures { result ≡ record { policy = policy; weights = weights; standing = at_rest } }
    {
        Balancer {
            policy,
            weights,
            last: None,
            used: [0; BACKEND_LIMIT as usize],
            pending: [0; BACKEND_LIMIT as usize],
        }
    }

    /// Whether `a` was used less often for its weight than `b`.
    fn is_less_used(&self, a: u8, b: u8) -> bool
        requires left { a < BACKEND_LIMIT }
        requires right { b < BACKEND_LIMIT }
        ensures { result ≡ balancing.is_ahead Policy.Weighted self.now.weights self.now.standing a b }
    {
        let (a, b) = (a as usize, b as usize);
        let left = u64::from(self.used[a]) * u64::from(self.weights[b]);
        let right = u64::from(self.used[b]) * u64::from(self.weights[a]);
        left < right
    }

    /// Whether the policy prefers `a` to `b` for the next read.
    fn is_ahead(&self, a: u8, b: u8) -> bool
        requires left { a < BACKEND_LIMIT }
        requires right { b < BACKEND_LIMIT }
        ensures ahead { result ≡ balancing.is_ahead self.now.policy self.now.weights self.now.standing a b }
        ensures weighted { AreWeights self.now.weights }
    {
        match self.policy {
            Policy::RoundRobin => steps_to(self.last, a) < steps_to(self.last, b),
            Policy::Weighted => self.is_less_used(a, b),
            Policy::LeastPending => self.pending[a as usize] < self.pending[b as usize],
        }
    }

    /// The first of the candidates up to `b`, from the `first` of those below `b`.
    fn first_with(&self, candidates: u32, first: Option<u8>, b: u8) -> Option<u8>
        requires below { b < BACKEND_LIMIT }
        requires so_far { IsFirstOrNone self.now candidates b first }
        ensures { IsFirstOrNone self.now candidates (b + 1) result }
    {
        if !has_bit(candidates, b) {
            return first;
        }
        match first {
            None => Some(b),
            Some(other) => {
                if self.is_ahead(b, other) {
                    Some(b)
                } else {
                    Some(other)
                }
            }
        }
    }

    /// The first of the candidates by the policy; `None` if there are none.
    fn first(&self, candidates: u32) -> Option<u8>
        ensures { IsFirstOrNone self.now candidates BACKEND_LIMIT result }
    {
        let mut first = None;
        for b in 0..BACKEND_LIMIT {
            if candidates >> b == 0 {
                return first;
            }
            first = self.first_with(candidates, first, b);
        }
        first
    }

    /// Records that `b` was picked.
    fn record_pick(&mut self, b: u8)
        requires { b < BACKEND_LIMIT }
        ensures { self.new ≡ record self.old { standing = picked self.old.policy self.old.standing b } }
    {
        self.last = Some(b);
        count_pick(self.policy, &mut self.used, b);
    }

    /// Picks one of the candidates, all below `BACKEND_LIMIT`, and counts the pick. `None` exactly if there are none.
    pub fn pick(&mut self, candidates: u32) -> Option<u8>
        requires { candidates < 2 ^ BACKEND_LIMIT }
        ensures none { IsNone result ↔ (candidates ≡ 0) }
        ensures same { IsNone result → self.new ≡ self.old }
        ensures some { IfSome result (λ b. Picks self.old.policy self.old.weights self.old.standing candidates b self.new.standing) }
        ensures kept { (self.new.policy ≡ self.old.policy) × (self.new.weights ≡ self.old.weights) }
    {
        let b = self.first(candidates)?;
        self.record_pick(b);
        Some(b)
    }

    /// By what the balancer picks. Only `LeastPending` looks at the reads that are pending.
    pub fn policy(&self) -> Policy
        ensures { result ≡ self.now.policy }
    {
        self.policy
    }

    /// How many reads are pending at backend `b`.
    pub fn pending(&self, b: u8) -> u32
        requires { b < BACKEND_LIMIT }
        ensures { result ≡ slice_index self.now.standing.pending b }
    {
        self.pending[b as usize]
    }

    /// Counts a read that began at backend `b`, which has fewer than 2^32 - 1 pending.
    pub fn began(&mut self, b: u8)
        requires below { b < BACKEND_LIMIT }
        requires room { slice_index self.old.standing.pending b < 2 ^ 32 - 1 }
        ensures one_more { self.new ≡ record self.old { standing = record self.old.standing { pending = one_more self.old.standing.pending b } } }
        ensures pending { 0 < slice_index self.new.standing.pending b }
    {
        count_up(&mut self.pending, b);
    }

    /// Counts a read that ended at backend `b`, which has some pending.
    pub fn ended(&mut self, b: u8)
        requires below { b < BACKEND_LIMIT }
        requires some { 0 < slice_index self.old.standing.pending b }
        ensures { self.new ≡ record self.old { standing = record self.old.standing { pending = one_less self.old.standing.pending b } } }
    {
        self.pending[b as usize] -= 1;
    }
}

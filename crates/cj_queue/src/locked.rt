//! The ends of a lane behind their locks, each with its share of the lane.

ghost use Rattle.std.specs.Prelude.{◌≡◌, ◌⊎◌, ◌<◌, ◌≤◌, [], ◌∷◌, ◌++◌, All, IfErr, IfSome, MatchOption, OnErr, OnOk};
ghost use Rattle.std.specs.Arc.{arc_value};
ghost use Rattle.cj_queue.specs.declared.numbered.Numbered.{Numbered};
ghost use Rattle.cj_queue.specs.Lanes.{capacity_of, posted, taken, IsFull, IsPosterOf, IsTakerOf};

use crate::ends::{Poster, Taker};
use crate::lane::Lane;
use crate::numbered::Numbered;
use std::alloc::Global;
use std::sync::{Arc, Wait};

/// The posting end of a lane.
#[derive(Drop)]
pub struct LockedPoster<T> {
    lane: Arc<Lane<T>, Global>,
    poster: Poster<T>,
    ghost end: { IsPosterOf (arc_value lane) poster },
}

/// The taking end of a lane.
#[derive(Drop)]
pub struct LockedTaker<T> {
    lane: Arc<Lane<T>, Global>,
    taker: Taker<T>,
    ghost end: { IsTakerOf (arc_value lane) taker },
}

impl<T: Drop> LockedPoster<T> {
    /// Takes an end of the lane.
    pub fn new(lane: Arc<Lane<T>, Global>, poster: Poster<T>) -> LockedPoster<T>
        requires { IsPosterOf (arc_value lane) poster }
        ensures { (result.lane ≡ lane) × (result.poster ≡ poster) }
    {
        LockedPoster { lane, poster }
    }

    /// Posts a job behind all others.
    ///
    /// The job is handed back only where the lane was full at a moment of the call, or where the number is not above
    /// those of all that were posted.
    pub fn post<R: Wait>(&mut self, rt: &R, job: Numbered<T>) -> Result<(), Numbered<T>>
        ensures lane { self.new.lane ≡ self.old.lane }
        ensures posted { OnOk result (posted self.new.poster ≡ posted self.old.poster ++ job ∷ []) }
        ensures back { IfErr result (λ j. j ≡ job) }
        ensures same { OnErr result (posted self.new.poster ≡ posted self.old.poster) }
        ensures cause { OnErr result ((job.number ≤ self.old.poster.last) ⊎ IsFull (capacity_of (arc_value self.old.lane)) (posted self.old.poster)) }
    {
        if job.number <= self.poster.last() {
            return Err(job);
        }
        self.lane.post(rt, &mut self.poster, job)
    }
}

impl<T: Drop> LockedTaker<T> {
    /// Takes an end of the lane.
    pub fn new(lane: Arc<Lane<T>, Global>, taker: Taker<T>) -> LockedTaker<T>
        requires { IsTakerOf (arc_value lane) taker }
        ensures { (result.lane ≡ lane) × (result.taker ≡ taker) }
    {
        LockedTaker { lane, taker }
    }

    /// Takes the first job of those that are left.
    pub fn take<R: Wait>(&mut self, rt: &R) -> Option<Numbered<T>>
        ensures lane { self.new.lane ≡ self.old.lane }
        ensures taken { MatchOption result (taken self.new.taker ≡ taken self.old.taker) (λ job. taken self.new.taker ≡ taken self.old.taker ++ job ∷ []) }
        ensures rises { IfSome result (λ job. All (λ (j : Numbered T). j.number < job.number) (taken self.old.taker)) }
    {
        self.lane.take(rt, &mut self.taker)
    }
}

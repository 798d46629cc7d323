//! A lane with its two ends.

ghost use Rattle.std.specs.Prelude.{◌≡◌, ◌<◌, List, [], ◌∷◌, ◌++◌, length, All, IfErr, IfOk, IfSome, MatchOption, OnErr, OnOk};
ghost use Rattle.cj_queue.specs.Lanes.{capacity_of, posted, taken, IsFull, IsPosterOf, IsTakerOf};
ghost use Rattle.cj_queue.specs.declared.numbered.Numbered.{Numbered};
ghost use Rattle.cj_queue.specs.Rule.{IsRising};

use crate::ends::{Poster, Taker};
use crate::numbered::Numbered;
use crate::rule::{Compares, Ends, InOrder, LaneView, Posts, Takes};
use cj_model::NoMemory;
use crossbeam_queue::RuledArrayQueue;
use std::alloc::Global;
use std::sync::Wait;

/// A lane: a queue with room for so many jobs. What is taken is a prefix of what was posted.
#[derive(Drop)]
pub struct Lane<T> {
    pub(crate) queue: RuledArrayQueue<Numbered<T>, LaneView<T>, InOrder<T>, Global>,
}

impl<T: Drop> Lane<T> {
    /// Makes a lane with room for so many jobs, and its two ends.
    pub fn new(alloc: Global, capacity: usize) -> Result<(Lane<T>, Poster<T>, Taker<T>), NoMemory>
        requires { 0 < capacity }
        ensures ends { IfOk result (λ lane. IsPosterOf lane.0 lane.1 × IsTakerOf lane.0 lane.2) }
        ensures empty { IfOk result (λ lane. (posted lane.1 ≡ []) × (lane.1.last ≡ 0) × (taken lane.2 ≡ [])) }
        ensures room { IfOk result (λ lane. capacity_of lane.0 ≡ capacity) }
    {
        let (queue, mut pass) = RuledArrayQueue::ruled(alloc, capacity)?;
        let other = queue.another::<Ends<T>>(&mut pass);
        Ok((Lane { queue }, Poster::new(pass), Taker::new(other)))
    }

    /// Posts a job behind all others. Its number is above theirs.
    ///
    /// The job is handed back only where the lane was full at a moment of the call.
    pub fn post<R: Wait>(
        &self,
        rt: &R,
        poster: &mut Poster<T>,
        job: Numbered<T>,
    ) -> Result<(), Numbered<T>>
        requires end { IsPosterOf self.now poster.old }
        requires rises { poster.old.last < job.number }
        ensures end { IsPosterOf self.now poster.new }
        ensures posted { OnOk result ((posted poster.new ≡ posted poster.old ++ job ∷ []) × (poster.new.last ≡ job.number)) }
        ensures back { IfErr result (λ j. j ≡ job) }
        ensures same { OnErr result ((posted poster.new ≡ posted poster.old) × (poster.new.last ≡ poster.old.last)) }
        ensures full { OnErr result (IsFull (capacity_of self.now) (posted poster.old)) }
    {
        let number = job.number;
        match self.queue.push_as::<Posts<T>, R>(rt, &mut poster.pass, job) {
            Ok(()) => {
                poster.last = number;
                Ok(())
            }
            Err(job) => Err(job),
        }
    }

    /// Takes the first job of those that are left. Its number is above those of all that were taken before.
    ///
    /// `None` only where the lane was empty at a moment of the call.
    pub fn take<R: Wait>(&self, rt: &R, taker: &mut Taker<T>) -> Option<Numbered<T>>
        requires end { IsTakerOf self.now taker.old }
        ensures end { IsTakerOf self.now taker.new }
        ensures taken { MatchOption result (taken taker.new ≡ taken taker.old) (λ job. taken taker.new ≡ taken taker.old ++ job ∷ []) }
        ensures rises { IfSome result (λ job. All (λ (j : Numbered T). j.number < job.number) (taken taker.old)) }
    {
        self.queue.pop_as::<Takes<T>, R>(rt, &mut taker.pass)
    }

    /// Ends the lane, and returns how many jobs are left in it.
    ///
    /// What was taken is a prefix of what was posted, and the numbers of what was posted rise.
    pub fn close<R: Wait>(self, rt: &R, poster: Poster<T>, taker: Taker<T>) -> u64
        requires ends { IsPosterOf self poster × IsTakerOf self taker }
        ensures prefix { (left : List (Numbered T)) × (posted poster ≡ taken taker ++ left) × (result ≡ length left) }
        ensures rising { IsRising (posted poster) }
    {
        let Poster { mut pass, .. } = poster;
        let Taker { pass: other } = taker;
        self.queue.absorb::<Ends<T>>(&mut pass, other);
        self.queue.len_as::<Compares<T>, R>(rt, &mut pass) as u64
    }
}

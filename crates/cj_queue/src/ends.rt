//! The two ends of a lane.

ghost use Rattle.std.specs.Prelude.{◌≡◌, ◌≤◌, [], true, All};
ghost use Rattle.crossbeam_queue.specs.Passes.{view};
ghost use Rattle.cj_queue.specs.declared.numbered.Numbered.{Numbered};
ghost use Rattle.cj_queue.specs.Rule.{IsRising};

use crate::numbered::Numbered;
use crate::rule::LaneView;
use crossbeam_queue::Pass;

/// The end of a lane by which jobs are posted.
#[derive(Drop)]
pub struct Poster<T> {
    pub(crate) pass: Pass<Numbered<T>, LaneView<T>>,
    /// The number of the last job that was posted, 0 if there is none.
    pub(crate) last: u64,
    ghost posts: { (view pass).posts ≡ true },
    ghost within: { All (λ (j : Numbered T). j.number ≤ last) (view pass).posted },
    ghost rising: { IsRising (view pass).posted },
}

/// The end of a lane by which jobs are taken.
#[derive(Drop)]
pub struct Taker<T> {
    pub(crate) pass: Pass<Numbered<T>, LaneView<T>>,
    ghost takes: { (view pass).takes ≡ true },
}

impl<T> Poster<T> {
    /// Makes the end of a pass that may post and has posted nothing.
    pub(crate) fn new(pass: Pass<Numbered<T>, LaneView<T>>) -> Poster<T>
        requires { ((view pass).posts ≡ true) × ((view pass).posted ≡ []) }
        ensures { (result.pass ≡ pass) × (result.last ≡ 0) }
    {
        Poster { pass, last: 0 }
    }

    /// Returns the number of the last job that was posted, 0 if there is none.
    pub fn last(&self) -> u64
        ensures { result ≡ self.now.last }
    {
        self.last
    }
}

impl<T> Taker<T> {
    /// Makes the end of a pass that may take.
    pub(crate) fn new(pass: Pass<Numbered<T>, LaneView<T>>) -> Taker<T>
        requires { (view pass).takes ≡ true }
        ensures { result.pass ≡ pass }
    {
        Taker { pass }
    }
}

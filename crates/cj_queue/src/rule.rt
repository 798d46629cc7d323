//! The rule of a lane's queue: who posts, who takes, and what each of the two knows.

use crate::numbered::Numbered;
use crossbeam_queue::protocol::{Join, Lesson, Outcome, Protocol, Split};
use std::collections::LinkedList;
use std::marker::PhantomData;

/// What an end of a lane may do, and what was done by it. No value of it is made.
pub struct LaneView<T> {
    pub posts: bool,
    pub takes: bool,
    pub posted: LinkedList<Numbered<T>>,
    pub taken: LinkedList<Numbered<T>>,
}

/// The rule: what was posted is what was taken and then what the queue holds, and the numbers rise.
pub struct InOrder<T> {
    of: PhantomData<T>,
}

impl<T> Protocol<Numbered<T>, LaneView<T>> for InOrder<T> {
    ghost use Rattle.std.specs.Prelude.{true, []};
    ghost use Rattle.cj_queue.specs.Rule.{lane_view, IsInOrder};

    ghost holds = { IsInOrder };

    ghost first = { lane_view true true [] [] };
}

/// The two ends, from one pass and to one pass.
pub struct Ends<T> {
    of: PhantomData<T>,
}

impl<T> Split<LaneView<T>> for Ends<T> {
    ghost use Rattle.std.specs.Prelude.{true, false, []};
    ghost use Rattle.cj_queue.specs.Rule.{lane_view};

    ghost left = { λ v. lane_view true false v.posted [] };

    ghost right = { λ v. lane_view false true [] v.taken };
}

impl<T> Join<LaneView<T>> for Ends<T> {
    ghost use Rattle.std.specs.Prelude.{true, false, []};
    ghost use Rattle.cj_queue.specs.Rule.{lane_view};

    ghost both = { λ v w. lane_view true true v.posted w.taken };

    ghost spent = { lane_view false false [] [] };
}

/// A job is posted; or the queue is full of what was posted last.
pub struct Posts<T> {
    of: PhantomData<T>,
}

impl<T> Outcome<Numbered<T>, LaneView<T>> for Posts<T> {
    ghost use Rattle.std.specs.Prelude.{◌≡◌, ◌++◌, ◌∷◌, []};
    ghost use Rattle.cj_queue.specs.Rule.{lane_view};

    ghost then = { λ v job w. w ≡ lane_view v.posts v.takes (v.posted ++ job ∷ []) v.taken };
}

impl<T> Lesson<Numbered<T>, LaneView<T>> for Posts<T> {
    ghost use Rattle.std.specs.Prelude.{◌≡◌, ◌++◌, List};
    ghost use Rattle.cj_queue.specs.declared.numbered.Numbered.{Numbered};

    ghost fact = { λ v items. (taken : List (Numbered T)) × (v.posted ≡ taken ++ items) };
}

/// A job is taken, with a number above those of all that were taken before.
pub struct Takes<T> {
    of: PhantomData<T>,
}

impl<T> Outcome<Numbered<T>, LaneView<T>> for Takes<T> {
    ghost use Rattle.std.specs.Prelude.{◌≡◌, ◌<◌, ◌++◌, ◌∷◌, [], All};
    ghost use Rattle.cj_queue.specs.Rule.{lane_view};

    ghost then = { λ v job w. (w ≡ lane_view v.posts v.takes v.posted (v.taken ++ job ∷ [])) × All (λ j. j.number < job.number) v.taken };
}

impl<T> Lesson<Numbered<T>, LaneView<T>> for Takes<T> {
    ghost use Rattle.std.specs.Prelude.{⊤};

    ghost fact = { λ v items. ⊤ };
}

/// Both ends compared.
pub struct Compares<T> {
    of: PhantomData<T>,
}

impl<T> Lesson<Numbered<T>, LaneView<T>> for Compares<T> {
    ghost use Rattle.std.specs.Prelude.{◌≡◌, ◌++◌};

    ghost fact = { λ v items. v.posted ≡ v.taken ++ items };
}

//! Which values the rows that meet a condition may have at an index.

ghost use Rattle.std.specs.Prelude.{◌≡◌, Some, true, option_copied};
ghost use Rattle.std.specs.Ordering.{is_gt};
ghost use Rattle.cj_model.specs.declared.value.Value.{Value};
ghost use Rattle.cj_model.specs.Database.Predicates as by_place;
ghost use Rattle.cj_model.specs.Database.Values.{value_cmp};
ghost use Rattle.cj_expr.specs.Reaches.{IsAsWide, IsCommon, ReachesAll, ReachesRows, holds_to};
ghost use Rattle.cj_expr.specs.Reaches as reaches;
ghost use Rattle.cj_expr.specs.Shapes.{operand};

use crate::operand::Operand;
use cj_model::{Cmp, Value};

/// A range of values of a column, such that no row which meets a condition has a value below the start.
#[derive(Clone, Copy)]
pub struct Reach<'a> {
    /// The least value; none if the range has no lower bound.
    pub start: Option<&'a Value>,
    /// The value above which another range is worth asking for; none if no other range is.
    pub end: Option<&'a Value>,
}

/// The greater of two starts.
fn later<'a>(left: Option<&'a Value>, right: Option<&'a Value>) -> Option<&'a Value>
    ensures { (v : Value) → reaches.is_from (option_copied left.entry) v ≡ true → reaches.is_from (option_copied right.entry) v ≡ true → reaches.is_from (option_copied result) v ≡ true }
{
    match (left, right) {
        (Some(one), Some(two)) => if one.cmp(two).is_lt() { right } else { left },
        (Some(_), None) => left,
        (None, _) => right,
    }
}

/// The lesser of two ends.
fn sooner<'a>(left: Option<&'a Value>, right: Option<&'a Value>) -> Option<&'a Value> {
    match (left, right) {
        (Some(one), Some(two)) => if two.cmp(one).is_lt() { right } else { left },
        (Some(_), None) => left,
        (None, _) => right,
    }
}

/// Whether the first start is not above the second, where a missing start is below each value.
fn starts_first(one: Option<&Value>, two: Option<&Value>) -> bool
    ensures { result ≡ reaches.starts_first (option_copied one.entry) (option_copied two.entry) }
{
    match (one, two) {
        (None, _) => true,
        (Some(_), None) => false,
        (Some(one), Some(two)) => one.cmp(two).is_le(),
    }
}

impl<'a> Reach<'a> {
    /// The range of all values.
    pub fn all() -> Reach<'a>
        ensures { (v : Value) → reaches.is_reached (Some result) v ≡ true }
    {
        Reach {
            start: None,
            end: None,
        }
    }

    /// A range that has each value which both ranges have.
    pub fn meet(self, other: Reach<'a>) -> Reach<'a>
        ensures { IsCommon (Some self.entry) (Some other.entry) (Some result) }
    {
        Reach {
            start: later(self.start, other.start),
            end: sooner(self.end, other.end),
        }
    }

    /// The one of two ranges that starts first. No value of either range is below its start.
    pub fn first(self, other: Reach<'a>) -> Reach<'a>
        ensures left { IsAsWide (Some result) (Some self.entry) }
        ensures right { IsAsWide (Some result) (Some other.entry) }
    {
        if starts_first(self.start, other.start) {
            self
        } else {
            other
        }
    }
}

/// Whether the key is above this value.
fn is_past(key: &Value, value: &Value) -> bool
    ensures { result ≡ is_gt (value_cmp key.now value.now) }
{
    key.cmp(value).is_gt()
}

/// The range of the values from `key` on that equal `value`; none if `key` is above it.
fn exactly<'a>(value: &'a Value, key: &Value) -> Option<Reach<'a>>
    ensures { ReachesAll key.now (holds_to Cmp.Eq value.now) result }
{
    if is_past(key, value) {
        return None;
    }
    Some(Reach {
        start: Some(value),
        end: Some(value),
    })
}

/// The range of the values from `key` up to `value`; none if `key` is above it.
fn up_to<'a>(value: &'a Value, key: &Value) -> Option<Reach<'a>>
    ensures below { ReachesAll key.now (holds_to Cmp.Lt value.now) result }
    ensures at { ReachesAll key.now (holds_to Cmp.Le value.now) result }
{
    if is_past(key, value) {
        return None;
    }
    Some(Reach {
        start: None,
        end: Some(value),
    })
}

/// The range of the values from `value` on.
fn onward(value: &Value) -> Reach<'_>
    ensures above { (key : Value) → ReachesAll key (holds_to Cmp.Gt value.now) (Some result) }
    ensures at { (key : Value) → ReachesAll key (holds_to Cmp.Ge value.now) (Some result) }
{
    Reach {
        start: Some(value),
        end: None,
    }
}

/// The range of the values from `key` on that are in the relation `cmp` to `value`; none if there are none.
fn reach_to<'a>(cmp: Cmp, value: &'a Value, key: &Value) -> Option<Reach<'a>>
    ensures { ReachesAll key.now (holds_to cmp value.now) result }
{
    match cmp {
        Cmp::Eq => exactly(value, key),
        Cmp::Ne => Some(Reach::all()),
        Cmp::Lt => up_to(value, key),
        Cmp::Le => up_to(value, key),
        Cmp::Gt => Some(onward(value)),
        Cmp::Ge => Some(onward(value)),
    }
}

/// The relation with its sides exchanged: `a < b` is `b > a`.
fn flipped(cmp: Cmp) -> Cmp
    ensures { result ≡ reaches.flipped cmp }
{
    match cmp {
        Cmp::Eq => Cmp::Eq,
        Cmp::Ne => Cmp::Ne,
        Cmp::Lt => Cmp::Gt,
        Cmp::Le => Cmp::Ge,
        Cmp::Gt => Cmp::Lt,
        Cmp::Ge => Cmp::Le,
    }
}

/// The range of the values from `key` on that a row may have at index `place` where the comparison holds.
/// None if no such row exists.
#[tactic(auto, using(crate::proofs::ReachLaws::reaches_left, crate::proofs::ReachLaws::reaches_right, crate::proofs::ReachLaws::reaches_each))]
pub fn reach_of_comparison<'a>(
    cmp: Cmp,
    left: &'a Operand,
    right: &'a Operand,
    place: usize,
    key: &Value,
) -> Option<Reach<'a>>
    ensures { ReachesRows place (by_place.Compare cmp (operand left.now) (operand right.now)) key.now result }
{
    match (left, right) {
        (Operand::Cell(at), Operand::Constant(value)) if *at == place => {
            reach_to(cmp, value, key)
        }
        (Operand::Constant(value), Operand::Cell(at)) if *at == place => {
            reach_to(flipped(cmp), value, key)
        }
        _ => Some(Reach::all()),
    }
}

/// The range for a conjunction, from the ranges of its sides. None if either side has none.
pub fn reach_of_both<'a>(left: Option<Reach<'a>>, right: Option<Reach<'a>>) -> Option<Reach<'a>>
    ensures { IsCommon left.entry right.entry result }
{
    match (left, right) {
        (Some(left), Some(right)) => Some(left.meet(right)),
        (Some(_), None) => None,
        (None, _) => None,
    }
}

/// The range for a disjunction, from the ranges of its sides. None if both sides have none.
pub fn reach_of_either<'a>(left: Option<Reach<'a>>, right: Option<Reach<'a>>) -> Option<Reach<'a>>
    ensures left { IsAsWide result left.entry }
    ensures right { IsAsWide result right.entry }
{
    match (left, right) {
        (Some(left), Some(right)) => Some(left.first(right)),
        (Some(left), None) => Some(left),
        (None, right) => right,
    }
}

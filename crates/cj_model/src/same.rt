//! Equality of values, as contracts see them.

ghost use Rattle.std.specs.Prelude.{◌≡◌, ◌↔◌, IsTrue};

use crate::condition::{Cond, CondNode};
use crate::list::ListOf;
use crate::name::Name;
use crate::select::{Item, Items, Key, Select};
use crate::term::{Cmp, ColRef, Term};
use crate::text::{BoxedText, Text};
use crate::value::Value;

/// A value that can be compared for equality with another of its type.
pub trait Same {
    /// Whether this value equals the other, as contracts see both.
    fn is_same(&self, other: &Self) -> bool
        ensures { IsTrue result ↔ (self.now ≡ other.now) };
}

impl Same for bool {
    fn is_same(&self, other: &bool) -> bool {
        *self == *other
    }
}

impl Same for u64 {
    fn is_same(&self, other: &u64) -> bool {
        *self == *other
    }
}

impl Same for i64 {
    fn is_same(&self, other: &i64) -> bool {
        *self == *other
    }
}

impl<T: Same> Same for Option<T> {
    fn is_same(&self, other: &Option<T>) -> bool {
        match (self, other) {
            (None, None) => true,
            (Some(one), Some(two)) => one.is_same(two),
            (None, Some(_)) => false,
            (Some(_), None) => false,
        }
    }
}

/// Whether the two slices have equal items in the same order.
pub fn are_same<T: Same>(mut one: &[T], mut two: &[T]) -> bool
    ensures { IsTrue result ↔ (one.entry.now ≡ two.entry.now) }
{
    while let [first, rest @ ..] = one {
        let [second, others @ ..] = two else {
            return false;
        };
        if !first.is_same(second) {
            return false;
        }
        one = rest;
        two = others;
    }
    two.is_empty()
}

impl<T: Same> Same for ListOf<T> {
    fn is_same(&self, other: &ListOf<T>) -> bool {
        are_same(self.as_slice(), other.as_slice())
    }
}

impl Same for Name {
    fn is_same(&self, other: &Name) -> bool {
        self.as_slice() == other.as_slice()
    }
}

impl Same for Text {
    fn is_same(&self, other: &Text) -> bool {
        self.as_slice() == other.as_slice()
    }
}

impl Same for BoxedText {
    fn is_same(&self, other: &BoxedText) -> bool {
        self.as_slice() == other.as_slice()
    }
}

impl Same for Value {
    fn is_same(&self, other: &Value) -> bool {
        match (self, other) {
            (Value::Int(one), Value::Int(two)) => one.is_same(two),
            (Value::Text(one), Value::Text(two)) => one.is_same(two),
            (Value::Int(_), Value::Text(_)) => false,
            (Value::Text(_), Value::Int(_)) => false,
        }
    }
}

impl Same for ColRef {
    fn is_same(&self, other: &ColRef) -> bool {
        self.table.is_same(&other.table) && self.column.is_same(&other.column)
    }
}

impl Same for Term {
    fn is_same(&self, other: &Term) -> bool {
        match self {
            Term::Lit(one) => match other {
                Term::Lit(two) => one.is_same(two),
                _ => false,
            },
            Term::Col(one) => match other {
                Term::Col(two) => one.is_same(two),
                _ => false,
            },
            Term::Now => matches!(other, Term::Now),
            Term::Rand(one) => match other {
                Term::Rand(two) => one.is_same(two),
                _ => false,
            },
        }
    }
}

impl Same for Cmp {
    fn is_same(&self, other: &Cmp) -> bool {
        *self == *other
    }
}

impl CondNode {
    ghost use Rattle.cj_model.specs.Proving.ConditionNodes.{condition_of_node};

    /// Whether the trees under the two nodes are equal.
    pub fn is_same(&self, other: &CondNode) -> bool
        ensures { IsTrue result ↔ (condition_of_node self.now ≡ condition_of_node other.now) }
    {
        match self {
            CondNode::Test(cmp, left, right) => match other {
                CondNode::Test(other_cmp, other_left, other_right) => {
                    cmp.is_same(other_cmp) && left.is_same(other_left) && right.is_same(other_right)
                }
                _ => false,
            },
            CondNode::Not(inner) => match other {
                CondNode::Not(other_inner) => CondNode::is_same(inner, other_inner),
                _ => false,
            },
            CondNode::And(left, right) => match other {
                CondNode::And(other_left, other_right) => {
                    CondNode::is_same(left, other_left) && CondNode::is_same(right, other_right)
                }
                _ => false,
            },
            CondNode::Or(left, right) => match other {
                CondNode::Or(other_left, other_right) => {
                    CondNode::is_same(left, other_left) && CondNode::is_same(right, other_right)
                }
                _ => false,
            },
        }
    }
}

impl Same for Cond {
    fn is_same(&self, other: &Cond) -> bool {
        self.root().is_same(other.root())
    }
}

impl Same for Item {
    fn is_same(&self, other: &Item) -> bool {
        match self {
            Item::Col(one) => match other {
                Item::Col(two) => one.is_same(two),
                _ => false,
            },
            Item::Count => matches!(other, Item::Count),
            Item::Sum(one) => match other {
                Item::Sum(two) => one.is_same(two),
                _ => false,
            },
        }
    }
}

impl Same for Items {
    fn is_same(&self, other: &Items) -> bool {
        match (self, other) {
            (Items::All, Items::All) => true,
            (Items::Listed(one), Items::Listed(two)) => one.is_same(two),
            (Items::All, Items::Listed(_)) => false,
            (Items::Listed(_), Items::All) => false,
        }
    }
}

impl Same for Key {
    fn is_same(&self, other: &Key) -> bool {
        self.col.is_same(&other.col) && self.desc.is_same(&other.desc)
    }
}

impl Same for Select {
    fn is_same(&self, other: &Select) -> bool {
        self.items.is_same(&other.items)
            && self.tables.is_same(&other.tables)
            && self.cond.is_same(&other.cond)
            && self.group.is_same(&other.group)
            && self.order.is_same(&other.order)
            && self.limit.is_same(&other.limit)
    }
}

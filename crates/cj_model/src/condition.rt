//! Conditions. A condition holds itself through boxes; contracts see the tree without them.

ghost use Rattle.std.specs.Prelude.{◌≡◌, IfOk};
ghost use Rattle.cj_model.specs.Database.Conditions as tree;
ghost use Rattle.cj_model.specs.Proving.ConditionNodes.{condition_of_node};

use crate::memory::{Duplicate, NoMemory};
use crate::term::{Cmp, Term};
use std::alloc::Global;
use std::marker::Model;

/// A node of a condition's tree, which parsers build and walkers go down.
pub enum CondNode {
    Test(Cmp, Term, Term),
    Not(Box<CondNode>),
    And(Box<CondNode>, Box<CondNode>),
    Or(Box<CondNode>, Box<CondNode>),
}

/// Frees a condition's tree. A loop goes down the left, where connectives in a row make the tree deep.
/// To the right a tree is no deeper than its parentheses.
impl Drop for CondNode {
    fn drop(mut self) {
        loop {
            match self {
                CondNode::Test(_, _left, _right) => return,
                CondNode::Not(inner) => self = Box::into_inner(inner),
                CondNode::And(left, _right) => self = Box::into_inner(left),
                CondNode::Or(left, _right) => self = Box::into_inner(left),
            }
        }
    }
}

fn boxed(alloc: Global, node: CondNode) -> Result<Box<CondNode>, NoMemory>
    ensures { IfOk result (λ boxed. boxed.value ≡ node) }
{
    Ok(Box::new(alloc, node)?)
}

fn copy_test(alloc: Global, cmp: Cmp, left: &Term, right: &Term) -> Result<Box<CondNode>, NoMemory>
    ensures { IfOk result (λ copy. condition_of_node copy.value ≡ tree.Test cmp left.now right.now) }
{
    let left = left.copy(alloc)?;
    let right = right.copy(alloc)?;
    boxed(alloc, CondNode::Test(cmp, left, right))
}

/// A condition, which contracts see as a tree without pointers.
#[derive(Drop)]
pub struct Cond {
    root: CondNode,
}

impl Model for Cond {
    ghost use Rattle.cj_model.specs.Database.Conditions.{Condition};
    ghost use Rattle.cj_model.specs.Proving.ConditionCode.{coded_condition};

    ghost Value = { Condition };

    ghost coded = { coded_condition };

    ghost use Rattle.cj_model.specs.Proving.ConditionNodes.{condition_of_node};

    ghost view = { λ cond. condition_of_node cond.root };
}

impl CondNode {
    ghost use Rattle.std.specs.Prelude.{◌≡◌, IfOk};
    ghost use Rattle.cj_model.specs.Proving.ConditionNodes.{condition_of_node};

    /// Copies the tree under this node; fails if memory runs out.
    /// The copy is in a box, so that a level of the recursion needs little of the stack.
    pub fn copy(&self, alloc: Global) -> Result<Box<CondNode>, NoMemory>
        ensures { IfOk result (λ copy. condition_of_node copy.value ≡ condition_of_node self.now) }
    {
        match self {
            CondNode::Test(cmp, left, right) => copy_test(alloc, *cmp, left, right),
            CondNode::Not(inner) => {
                let inner = inner.copy(alloc)?;
                boxed(alloc, CondNode::Not(inner))
            }
            CondNode::And(left, right) => {
                let left = left.copy(alloc)?;
                let right = right.copy(alloc)?;
                boxed(alloc, CondNode::And(left, right))
            }
            CondNode::Or(left, right) => {
                let left = left.copy(alloc)?;
                let right = right.copy(alloc)?;
                boxed(alloc, CondNode::Or(left, right))
            }
        }
    }
}

impl Cond {
    ghost use Rattle.std.specs.Prelude.{◌≡◌};
    ghost use Rattle.std.specs.Borrow.{sem};
    ghost use Rattle.cj_model.specs.Proving.Lent.{LendsRoot};
    ghost use Rattle.cj_model.specs.Proving.ConditionNodes.{condition_of_node};

    /// The condition whose tree has this root.
    pub fn of(root: CondNode) -> Cond
        ensures { result ≡ condition_of_node root }
    {
        Cond { root }
    }

    /// The root of the condition's tree.
    pub fn root(&self) -> &CondNode
        ensures { condition_of_node result.now ≡ self.now }
    {
        &self.root
    }

    /// The root of the condition's tree, to be changed in place.
    pub fn root_mut(&mut self) -> &mut CondNode
        ensures* lends { sem 𝓛 (LendsRoot self.entry result) }
        ensures root { condition_of_node result.now ≡ self.old }
    {
        &mut self.root
    }
}

impl Duplicate for Cond {
    fn copy(&self, alloc: Global) -> Result<Cond, NoMemory> {
        let root = self.root.copy(alloc)?;
        Ok(Cond::of(Box::into_inner(root)))
    }
}

//! Conditions.

ghost use Rattle.std.specs.Prelude.{◌≡◌, true};
ghost use Rattle.cj_model.specs.Proving.ConditionNodes.{condition_of_node};
ghost use Rattle.cj_model.specs.Sql.Macros.{condition_bounds, draws_from, rewritten_condition, rewritten_where, generator_after_draws, where_bounds};
ghost use Rattle.cj_macro.specs.Drawable.{are_drawable};

use crate::part::Part;
use cj_model::{Cond, CondNode};
use cj_outside::Draw;

/// Replaces the calls in a condition's tree by values.
#[tactic(auto, using(crate::proofs::Drawing::front_draws, crate::proofs::Drawing::behind_draws))]
fn rewrite_node<D: Draw>(node: &mut CondNode, now: i64, draw: &mut D)
    requires { are_drawable (condition_bounds (condition_of_node node.old)) ≡ true }
    ensures rewritten { condition_of_node node.new ≡ rewritten_condition now (draws_from D.drawn D.later draw.old (condition_bounds (condition_of_node node.old))) (condition_of_node node.old) }
    ensures draw { draw.new ≡ generator_after_draws D.later draw.old (condition_bounds (condition_of_node node.old)) }
{
    match node {
        CondNode::Test(_, left, right) => {
            left.rewrite(now, draw);
            right.rewrite(now, draw);
        }
        CondNode::Not(inner) => rewrite_node(inner, now, draw),
        CondNode::And(left, right) => {
            rewrite_node(left, now, draw);
            rewrite_node(right, now, draw);
        }
        CondNode::Or(left, right) => {
            rewrite_node(left, now, draw);
            rewrite_node(right, now, draw);
        }
    }
}

impl Part for Cond {
    ghost bounds = { condition_bounds };

    ghost rewritten = { rewritten_condition };

    fn rewrite<D: Draw>(&mut self, now: i64, draw: &mut D) {
        rewrite_node(self.root_mut(), now, draw);
    }
}

impl Part for Option<Cond> {
    ghost bounds = { where_bounds };

    ghost rewritten = { rewritten_where };

    fn rewrite<D: Draw>(&mut self, now: i64, draw: &mut D) {
        match self {
            None => {}
            Some(cond) => cond.rewrite(now, draw),
        }
    }
}

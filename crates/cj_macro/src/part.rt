//! Parts of a request.

ghost use Rattle.std.specs.Prelude.{◌≡◌, ℕ, ℤ, List, flat_map, true};
ghost use Rattle.cj_model.specs.Sql.Macros.{
  draws_from,
  each_rewritten,
  expr_bounds,
  rewritten_expr,
  rewritten_set,
  rewritten_term,
  set_bounds,
  generator_after_draws,
  term_bounds,
};
ghost use Rattle.cj_macro.specs.Drawable.{are_drawable};

use cj_model::{Expr, ListOf, Set, Term, Value};
use cj_outside::Draw;

/// A part of a request that may have calls of NOW and RAND.
pub trait Part {
    /// The bounds of the part's RAND calls, in text order.
    ghost bounds: { Self → List ℕ };

    /// The part with its calls replaced by values.
    ghost rewritten: { ℤ → List ℕ → Self → Self };

    /// Replaces the part's calls by values: `now` for each NOW, and a fresh draw for each RAND, in text
    /// order.
    fn rewrite<D: Draw>(&mut self, now: i64, draw: &mut D)
        requires { are_drawable (bounds self.old) ≡ true }
        ensures rewritten { self.new ≡ rewritten now (draws_from D.drawn D.later draw.old (bounds self.old)) self.old }
        ensures draw { draw.new ≡ generator_after_draws D.later draw.old (bounds self.old) };
}

impl Part for Term {
    ghost bounds = { term_bounds };

    ghost rewritten = { rewritten_term };

    fn rewrite<D: Draw>(&mut self, now: i64, draw: &mut D) {
        match self {
            Term::Lit(_) => {}
            Term::Col(_) => {}
            Term::Now => *self = Term::Lit(Value::Int(now)),
            Term::Rand(bound) => {
                let number = draw.below(*bound as u64) as i64;
                *self = Term::Lit(Value::Int(number));
            }
        }
    }
}

impl Part for Expr {
    ghost bounds = { expr_bounds };

    ghost rewritten = { rewritten_expr };

    fn rewrite<D: Draw>(&mut self, now: i64, draw: &mut D) {
        match self {
            Expr::One(term) => term.rewrite(now, draw),
            Expr::Plus(left, right) => {
                left.rewrite(now, draw);
                right.rewrite(now, draw);
            }
            Expr::Minus(left, right) => {
                left.rewrite(now, draw);
                right.rewrite(now, draw);
            }
        }
    }
}

impl Part for Set {
    ghost bounds = { set_bounds };

    ghost rewritten = { rewritten_set };

    fn rewrite<D: Draw>(&mut self, now: i64, draw: &mut D) {
        self.value.rewrite(now, draw);
    }
}

impl<T: Part> Part for ListOf<T> {
    ghost bounds = { flat_map T.bounds };

    ghost rewritten = { λ now. each_rewritten T.bounds (T.rewritten now) };

    fn rewrite<D: Draw>(&mut self, now: i64, draw: &mut D) {
        for item in self.as_mut_slice().iter_mut() {
            item.rewrite(now, draw);
        }
    }
}

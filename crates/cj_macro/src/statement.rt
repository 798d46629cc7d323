//! Statements.

ghost use Rattle.std.specs.Prelude.{◌≡◌, ℕ, List, true};
ghost use Rattle.cj_model.specs.Sql.Macros.{
  bounds,
  draws_from,
  rewritten,
  rewritten_write,
  generator_after_draws,
  write_bounds,
  RandsAreDrawable,
};
ghost use Rattle.cj_model.specs.Sql.Grammar.{TextReadsAs};
ghost use Rattle.cj_model.specs.Sql.WrittenRequests.{IsWritten};
ghost use Rattle.cj_model.specs.Sql.PlainRequests.{is_plain};

use crate::part::Part;
use cj_model::{Request, Write};
use cj_outside::Draw;

impl Part for Write {
    ghost bounds = { write_bounds };

    ghost rewritten = { rewritten_write };

    #[tactic(auto, using(crate::proofs::Drawing::front_draws, crate::proofs::Drawing::behind_draws))]
    fn rewrite<D: Draw>(&mut self, now: i64, draw: &mut D) {
        match self {
            Write::Insert { rows, .. } => rows.rewrite(now, draw),
            Write::Update { sets, cond, .. } => {
                sets.rewrite(now, draw);
                cond.rewrite(now, draw);
            }
            Write::Delete { cond, .. } => cond.rewrite(now, draw),
        }
    }
}

impl Part for Request {
    ghost bounds = { bounds };

    ghost rewritten = { rewritten };

    fn rewrite<D: Draw>(&mut self, now: i64, draw: &mut D) {
        match self {
            Request::Select(select) => select.cond.rewrite(now, draw),
            Request::Write(write) => write.rewrite(now, draw),
            Request::Create(_) => {}
            Request::Drop(_) => {}
            Request::Begin => {}
            Request::Commit => {}
            Request::Rollback => {}
        }
    }
}

/// Replaces the calls of a request by values: `now` for each NOW, and a fresh draw for each RAND, in text
/// order. A number must be drawable below the bound of each RAND. The result has no calls. If some text
/// reads as the request, some text reads as the result.
#[tactic(auto, using(crate::proofs::Drawing::passes_drawable, crate::proofs::Plainness::rewritten_is_plain))]
pub fn rewrite<D: Draw>(mut request: Request, now: i64, draw: &mut D) -> Request
    requires { RandsAreDrawable request }
    ensures rewritten { result ≡ rewritten now (draws_from D.drawn D.later draw.old (bounds request)) request }
    ensures draw { draw.new ≡ generator_after_draws D.later draw.old (bounds request) }
    ensures plain { is_plain result ≡ true }
    ensures written { (text : List ℕ) → TextReadsAs text request → IsWritten result }
{
    request.rewrite(now, draw);
    request
}

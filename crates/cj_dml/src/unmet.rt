//! Rows that do not meet a condition.

use cj_expr::Predicate;
use cj_model::Value;
use cj_rowstore::RowTest;
use cj_search::satisfies;

/// A test that passes the rows which do not meet a condition.
#[derive(Drop)]
pub struct Unmet {
    pub condition: Option<Predicate>,
}

impl RowTest for Unmet {
    ghost use Rattle.cj_dml.specs.Removals.{is_unmet};

    ghost passes = { is_unmet };

    fn test(&self, row: &[Value]) -> bool {
        !satisfies(&self.condition, row)
    }
}

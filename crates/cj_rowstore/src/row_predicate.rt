//! Tests of rows.

ghost use Rattle.std.specs.Prelude.{◌≡◌, Bool, List};
ghost use Rattle.cj_model.specs.declared.value.Value.{Value};

use crate::stored_row::StoredRow;
use cj_model::Value;
use cj_ptree::Edit;

/// A test of rows. It can't fail, so it must not allocate.
pub trait RowTest {
    /// Whether a row passes the test.
    ghost passes: { Self → List Value → Bool };

    fn test(&self, row: &[Value]) -> bool
        ensures { result ≡ passes self.now row.now };
}

/// The edit of a tree by which only the rows stay that pass.
#[derive(Drop)]
pub(crate) struct Passing<'a, T> {
    pub by: &'a T,
}

impl<'a, T: RowTest> Edit<StoredRow> for Passing<'a, T> {
    ghost stays = { λ passing row. T.passes passing.by.now row };

    ghost edited = { λ _ row. row };

    fn edit(&self, row: &mut StoredRow) -> bool {
        self.by.test(row.values())
    }
}

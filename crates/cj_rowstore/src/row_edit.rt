//! Rows edited in place.

ghost use Rattle.std.specs.Prelude.{◌≡◌, List, true};
ghost use Rattle.cj_model.specs.declared.value.Value.{Value};

use crate::stored_row::StoredRow;
use cj_model::Value;
use cj_ptree::Edit;

/// A function that edits a row in place. It can't fail, so it must not allocate.
pub trait RowEdit {
    /// The row that the edit makes of a row.
    ghost edited: { Self → List Value → List Value };

    fn edit(&self, row: &mut [Value])
        ensures { row.new ≡ edited self.now row.old };
}

/// An edit of all rows of a tree.
#[derive(Drop)]
pub(crate) struct EachRow<'a, R> {
    pub by: &'a R,
}

impl<'a, R: RowEdit> Edit<StoredRow> for EachRow<'a, R> {
    ghost stays = { λ _ _. true };

    ghost edited = { λ each row. R.edited each.by.now row };

    fn edit(&self, row: &mut StoredRow) -> bool {
        row.edit(self.by);
        true
    }
}

//! A column that is set in place.

ghost use Rattle.std.specs.Prelude.{◌≡◌, slice_set};
ghost use Rattle.cj_model.specs.declared.value.Value.TheVariants as value;

use cj_expr::{Formula, Predicate};
use cj_model::Value;
use cj_rowstore::RowEdit;
use cj_search::satisfies;

/// A column that is set to an INTEGER in each row that meets a condition. A row whose new value does not
/// fit 64 bits stays unchanged.
#[derive(Drop)]
pub struct ColumnEdit {
    pub place: usize,
    pub value: Formula,
    pub condition: Option<Predicate>,
}

fn set_integer(row: &mut [Value], place: usize, number: i64)
    ensures { row.new ≡ slice_set row.old place (value.Int number) }
{
    if place < row.len() {
        row[place] = Value::Int(number);
    }
}

impl RowEdit for ColumnEdit {
    ghost use Rattle.cj_dml.specs.ColumnEdits.{edited};

    ghost edited = { edited };

    fn edit(&self, row: &mut [Value]) {
        if !satisfies(&self.condition, row) {
            return;
        }
        if let Some(number) = self.value.integer_in(row) {
            set_integer(row, self.place, number);
        }
    }
}

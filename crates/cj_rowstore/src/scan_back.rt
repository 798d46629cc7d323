//! The rows of a table, one after another from the last on.

ghost use Rattle.std.specs.Prelude.{◌≡◌, reverse};
ghost use Rattle.std.specs.Iterator.{YieldsFirstRef, item_count};
ghost use Rattle.std.specs.Map.{values_of};

use crate::stored_row::StoredRow;
use cj_model::Value;
use cj_ptree::PIter;
use std::iter::DoubleEndedIterator;
use std::marker::Model;

/// The rows of a table as a transaction sees it, in falling key. Contracts see the rows that are left.
#[derive(Drop)]
pub struct ScanBack<'a> {
    rows: PIter<'a, Value, StoredRow>,
}

impl<'a> Model for ScanBack<'a> {
    ghost use Rattle.std.specs.Prelude.{reverse};
    ghost use Rattle.std.specs.Map.{values_of};
    ghost use Rattle.cj_rowstore.specs.RowEntries.{Rows};

    ghost Value = { Rows };

    ghost view = { λ scan. reverse (values_of scan.rows) };
}

impl<'a> ScanBack<'a> {
    /// A scan from the back of the rows of a walk.
    pub(crate) fn of(rows: PIter<'a, Value, StoredRow>) -> ScanBack<'a>
        ensures { result ≡ reverse (values_of rows.entry) }
    {
        ScanBack { rows }
    }
}

impl<'a> Iterator for ScanBack<'a> {
    type Item = &'a [Value];

    ghost next_gives = { YieldsFirstRef (λ s. s) };

    ghost remaining = { item_count (λ s. s) };

    fn next(&mut self) -> Option<&'a [Value]> {
        match self.rows.next_back() {
            Some((_, row)) => Some(row.values()),
            None => None,
        }
    }
}

//! The rows of a table, one after another.

ghost use Rattle.std.specs.Prelude.{◌≡◌};
ghost use Rattle.std.specs.Iterator.{YieldsFirstRef, item_count};
ghost use Rattle.std.specs.Map.{values_of};

use crate::stored_row::StoredRow;
use cj_model::Value;
use cj_ptree::PIter;
use std::marker::Model;

/// The rows of a table as a transaction sees it, in rising key. Contracts see the rows that are left.
#[derive(Drop)]
pub struct Scan<'a> {
    rows: PIter<'a, Value, StoredRow>,
}

impl<'a> Model for Scan<'a> {
    ghost use Rattle.std.specs.Map.{values_of};
    ghost use Rattle.cj_rowstore.specs.RowEntries.{Rows};

    ghost Value = { Rows };

    ghost view = { λ scan. values_of scan.rows };
}

impl<'a> Scan<'a> {
    /// A scan of the rows of a walk.
    pub(crate) fn of(rows: PIter<'a, Value, StoredRow>) -> Scan<'a>
        ensures { result ≡ values_of rows.entry }
    {
        Scan { rows }
    }
}

impl<'a> Iterator for Scan<'a> {
    type Item = &'a [Value];

    ghost next_gives = { YieldsFirstRef (λ s. s) };

    ghost remaining = { item_count (λ s. s) };

    fn next(&mut self) -> Option<&'a [Value]> {
        match self.rows.next() {
            Some((_, row)) => Some(row.values()),
            None => None,
        }
    }
}

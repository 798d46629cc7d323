//! One table as a persistent ordered map of rows by key, with the uncommitted version of one transaction (its draft).
//!
//! Contracts see a `StoredTable` as a slot of the vocabulary, and a `View` as the table that one transaction
//! sees. A scan is seen as the rows that are left, in rising or falling key. If a call runs out of memory, every
//! transaction sees what it saw before. A copy of a table copies no row.
//!
//! `version` has the rows at one time, in a map of `cj_ptree`, and `row_map` has changes of them. The layout of rows is
//! in `stored_row`, walks are in `scan` and `scan_back`. A new way to edit or test rows in place implements `RowEdit`
//! or `RowTest`. Read `specs/RowEntries` and `specs/Stored` first, then `proofs/EntryLaws` and `proofs/RowLaws`.
#![tactic(auto)]

mod keys;
mod row_edit;
mod row_map;
mod row_predicate;
mod scan;
mod scan_back;
mod stored;
mod stored_row;
mod version;
mod view;

pub use keys::{key_in, key_of};
pub use row_edit::RowEdit;
pub use row_map::RowMap;
pub use row_predicate::RowTest;
pub use scan::Scan;
pub use scan_back::ScanBack;
pub use stored::StoredTable;
pub use view::View;

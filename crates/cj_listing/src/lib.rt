//! The recovery log as lines, one for each entry and each marker (docs/FORMATS.md).
//!
//! Promised: `write_listing` writes the lines of the items in order, or at an error a part of them. It needs memory
//! for one line at a time. `make_line` makes the line of one item.
//! To change: `line.rt` makes a line, and `specs/Listing` says what is in it.
//! Proofs begin in `proofs/Examples` (what lines look like), then `proofs/Sending`.
#![tactic(auto)]

mod line;
mod listing;

pub use line::make_line;
pub use listing::write_listing;

//! Audits: the lines that say what backends hold, as `cjc script` prints them.
//!
//! `append_backend` appends for each table a head line and one line per row, with the uncommitted version (draft)
//! after the committed one. `append_rows` appends the lines of rows alone. The bytes are those of `backend_lines`
//! and `row_lines`, and it is proved that they are a text.
//!
//! A change of the format concerns `specs/Audits` and the file that writes the piece: `pieces`, `rows`, `tables`
//! or `backend`. Read `specs/Audits` first, then `proofs/AuditTexts`; `proofs/Examples` shows the lines of a
//! small database.
#![tactic(auto)]

mod backend;
mod laws;
mod pieces;
mod rows;
mod tables;

pub use backend::{append_backend, into_text};
pub use laws::audits_are_texts;
pub use rows::append_rows;

//! Canonical SQL: the text of a request, and the literals of values.
//!
//! `write_sql` gives the canonical text: reserved words in capitals, one space between tokens, no parentheses
//! that are not needed. A request that some text reads as is what its canonical text reads as. The literal of
//! each value reads as that value. What a storable database holds can be written as CREATE and INSERT.
//!
//! A new statement concerns `specs/Canonical` and `src/statement.rt`. Read `specs/Canonical` first, then
//! `proofs/CanonicalReads`, `proofs/CanonicalTokens` and `proofs/ReadBack`.
#![tactic(auto)]

mod buffer;
mod condition;
mod laws;
mod literal;
mod part;
mod statement;

pub use laws::{canonical_reads_back, literals_read_back, storable_is_written};
pub use literal::write_value;
pub use statement::write_sql;

//! The parser of SQL: the text of a request becomes the one request that the grammar reads it as.
//!
//! `read` answers the request that the text reads as (`cj_model`, `Sql`), and a text reads as at most one.
//! `Syntax` means that the text reads as none; an allocation may fail too. Nesting is limited, so the recursion
//! stays shallow.
//!
//! Each function follows a reading function of `specs/Proving`, which is proved to read exactly the grammar. A
//! new statement concerns `specs/Proving/StatementReader`, `src/request.rt` and a file of its own. Read
//! `specs/Read` first, then `proofs/Texts`, `proofs/Statements` and `proofs/OneReading`.
#![tactic(auto)]

mod conditions;
mod create;
mod insert;
mod laws;
mod list;
mod plain;
mod request;
mod select;
mod terms;
mod tokens;
mod update;

pub use cj_lex::SqlError;
pub use laws::texts_have_one_reading;
pub use plain::is_plain;
pub use request::read;

//! The lexer of SQL: a text becomes words, numbers, strings and symbols, each as long as possible.
//!
//! `read_tokens` gives the tokens that the grammar's spelling rules give (`cj_model`, `Sql/Lexical`). It is
//! proved that a text has no other list of tokens. `Syntax` means that the text has none; an allocation may fail
//! too.
//!
//! A new symbol concerns `symbols`, a new reserved word `keywords`, and both concern the spelling in `cj_model`.
//! Read `specs/Read` first, then `proofs/Sound`, `proofs/Complete` and `proofs/OneReading`.
#![tactic(auto)]

mod bytes;
mod error;
mod keywords;
mod lexer;
mod numbers;
mod quoted;
mod symbols;
mod whole;
mod words;

pub use error::SqlError;
pub use whole::read_tokens;

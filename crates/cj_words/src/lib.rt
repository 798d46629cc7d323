//! The words of a line, which are what stands between spaces, and what a word means.
//!
//! Promised: a line is cut at its first space (`CutsWord`), and no other cut is one. `number` and `backend` find the
//! only number and the only backend that a word is, if it is one (`FindsValue`). Nothing here takes memory.
//! To change: a kind of word that lines of scripts and of the console share concerns `words.rt`. What one of them alone
//! has stands there.
//! To read: `specs/Words`. `IsNumber`, `IsBackend` and `HasNoSpace` are definitions of `cj_cluster` (`Script/Lines`).
//! Proofs begin in `proofs/Cutting` (where words end) and `proofs/Numbers`.
#![tactic(auto)]

mod words;

pub use words::{backend, cut, is_word, named, number, numbered};

//! Conditions and expressions of SQL, bound to the columns of tables and evaluated in rows.
//!
//! `bind` and `bind_expr` turn names into column indexes. They refuse unknown columns (23) and kinds that differ
//! (28). Evaluation gives what the vocabulary gives (`cj_model`, `Database/Evaluation`). `Predicate` also tells
//! which keys may meet it: `key_of`, `reach`, `key_behind`, `key_condition`. Each of these is proved to exclude
//! no row that meets the condition.
//!
//! A new operator or term concerns `binding`, `checks`, `formula`, `operand` and `predicate`. Read
//! `specs/Results` and `specs/Pinned` first, then `proofs/PinLaws` (keys) and `proofs/ReachLaws` (ranges).
#![tactic(auto)]

mod behind;
mod binding;
mod checks;
mod formula;
mod known;
mod moved;
mod operand;
mod parts;
mod predicate;
mod reach;
mod scope;

pub use binding::{BindError, bind, bind_expr, formula_of, predicate_of};
pub use checks::same_kind;
pub use formula::{Formula, ValueError, narrowed};
pub use known::KnownRow;
pub use operand::Operand;
pub use predicate::Predicate;
pub use reach::Reach;
pub use scope::Scope;

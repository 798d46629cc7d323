//! What threads that share a cluster carry from lock to lock: a pass of the board that a type parameter names.
//!
//! `J: Naming` names the board, the layout, the turn's ledger and what backends tell, in all types above. So no clause
//! there says of which board it is. `Pass` is what a thread has seen of the board (`cj_board`), with no bytes at run
//! time. `NamedBoard` is the board, to which each call at a seat is made.
//! Promised: `split` and `rejoin` are those of the board, and nothing that a pass knew is forgotten.
//! To change: a new step of the board at a pass goes into `pass.rt`. To read: `specs/Passes`, what a pass knows more.
//! Proofs begin in `proofs/Passes` (what is known after one call, and after another).
#![tactic(auto)]

mod naming;
mod pass;

pub use naming::Naming;
pub use pass::{NamedBoard, Pass};

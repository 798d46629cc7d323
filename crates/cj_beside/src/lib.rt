//! A backend whose contents contracts see only where a store of dumps tells its bytes.
//!
//! A server's dumps lie in a store, and a file tells nothing of its bytes. What a backend holds after a load from such
//! a store is not known. `Beside` passes every call on to another backend and tells its contents only where that
//! backend and the store both do (`told_beside`). Faults, queries, logins and transactions stay visible.
//! `beside` wraps the backends of a list.
//!
//! A new call of `cj_backend` needs a method in `src/backend.rt`. `proofs/Wrapping` has what wrapped backends tell, and
//! `proofs/Crossing` shows that a `Beside` may cross to another thread where its backend may.
#![tactic(auto)]

mod backend;
mod list;

pub use backend::Beside;
pub use list::beside;

//! Accounts: who may log in, and under which login each backend is called for a user.
//!
//! `Accounts::new` accepts a list of accounts, or refuses it by the first thing that is wrong (`AuthError`).
//! Contracts promise that `check` admits exactly who has an account with this user and the password's SHA-256.
//! `mapped` gives the login of `login_of` in `cj_model`. Neither allocates. No password is kept, only its digest.
//! A change usually concerns `accounts.rt`; refusals are in `error.rt`, `refusals.rt` and `specs/Refusals`.
//! Proofs begin in `proofs/Keeping` (what accepted accounts keep) and `proofs/Spelling` (digests and their bytes).
//! `proofs/Examples` has one account worked out.
#![tactic(auto)]

mod accounts;
mod credentials;
mod digests;
mod error;
mod refusals;

pub use accounts::Accounts;
pub use error::AuthError;

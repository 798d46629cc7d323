//! The configuration: backends, their tables, accounts, balancing and the result cache, from a TOML document.
//!
//! `read_conf` answers the configuration of some bytes, or the first thing that is wrong with them
//! (docs/CONFIGURATION.md). Contracts say both by `conf_of` in `specs/Confs`. Running out of memory is never told
//! as another refusal.
//! A new key concerns `key.rt`, `fields.rt` or `rows.rt`, `settings.rt` and `conf.rt`, and the specs of these names.
//! A new refusal concerns `error.rt` and `specs/Refusals`.
//! Proofs begin in `proofs/Reading` (lists, item by item) and `proofs/Making` (what a configuration is made of).
//! `proofs/Examples` says what the definitions make of some documents.
#![tactic(auto)]

mod backend;
mod conf;
mod error;
mod fields;
mod key;
mod rows;
mod settings;

pub use backend::BackendKind;
pub use conf::{Conf, Kinds, Weights, read_conf};
pub use error::{ConfError, UnknownKey};
pub use key::Key;

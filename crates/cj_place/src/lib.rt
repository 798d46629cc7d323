//! Placement: which backends host which tables, at RAIDb-0, RAIDb-1 or RAIDb-2.
//!
//! `Placement::new` accepts tables with their hosts, or refuses them by the first thing that is wrong (`PlaceError`).
//! Contracts promise that the refusal is that of `specs/Refusals`, and that each look-up is as `specs/Layouts` says.
//! `rows.rt` keeps the rows in rising name, each with the mask of its hosts, and finds one by binary search.
//! A new refusal concerns `error.rt`, `refusals.rt` and `specs/Refusals`.
//! A new look-up concerns `placement.rt` and `specs/Layouts`.
//! Proofs begin in `proofs/Placing` (rows with their masks) and `proofs/Repeats` (names that occur twice).
//! `proofs/Examples` has rows that are refused, and what hosts what.
#![tactic(auto)]

mod error;
mod masks;
mod placement;
mod refusals;
mod rows;

pub use error::PlaceError;
pub use placement::Placement;

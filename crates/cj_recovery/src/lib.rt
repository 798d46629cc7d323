//! Recovery: the history that the items of a log open with, and the items that a history has in its log.
//!
//! `opening` turns items into events: entries, each of which ended at once, and markers.
//! Contracts promise that items open to one history at most, and that `BadEntry` comes only if they open to none.
//! An entry must have the canonical text of its act, and fit after those before it. A marker's name must be new.
//! `grown.rt` keeps what is known of the history so far, so that no call walks over it.
//! A change of what may follow in a log concerns `grown.rt`, `sessions.rt` and `specs/Proving/Steps`.
//! The definitions are in `specs/Openings`.
//! Proofs begin in `proofs/Longer` (an opening history grows by one item) and `proofs/OneOpening`.
#![tactic(auto)]

mod act;
mod error;
mod grown;
mod history;
mod item;
mod laws;
mod markers;
mod sessions;

pub use error::OpeningError;
pub use grown::entry_at;
pub use history::opening;
pub use item::entry_item;
pub use laws::{items_fix_the_opening, openings_are_good};
pub use markers::MarkerName;

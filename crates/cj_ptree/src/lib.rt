//! A persistent ordered map, of which a snapshot costs nothing by its pairs.
//!
//! Contracts see a `PTree` as the list of its pairs in rising key, by std's words for ordered maps. A snapshot is a
//! value of its own: no later call on the tree changes what it shows. All calls that change a tree may fail with
//! `NoMemory`, and then leave it as it was.
//!
//! A tree has three levels: a root, twigs and leaves, each a list of at most 64 items but for the root. Links lead from
//! level to level (`link`). A node that trees share is copied by the first change of one of them, and one that a tree
//! has alone is changed in place. `branch` has both upper levels, `leaf` the lowest, and `walk` the cursors. Read
//! `specs/Pairs` and `specs/Parts` first, then `proofs/ZoneLaws`.
//!
//! `Shared` shares a single value in the same way.
#![tactic(auto)]

mod added;
mod branch;
mod child;
mod edit;
mod leaf;
mod link;
mod node;
mod shared;
mod tree;
mod walk;

pub use edit::Edit;
pub use shared::Shared;
pub use tree::PTree;
pub use walk::PIter;

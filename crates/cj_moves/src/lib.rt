//! The moves: single steps of a world, one file each, over the state of a world (`cj_state`).
//!
//! A file says why its move can't be made now (`not_now_..`), what the move changes, and what it gives. `step` tests
//! and makes any move.
//! Promised: `step` does what `MovesTo` (cj_cluster) says of the move. It counts a fault exactly if the move tells
//! one, and calls a backend only under the login of the user concerned. `NoMemory` leaves all but maybe the log's
//! bytes.
//! To change: one move concerns its file, `not_now` and the move's definition in cj_cluster. A new move also has an
//! arm in `any_move.rt` and in each definition of `specs` that lists the moves.
//! Proofs begin in `proofs/Giving` (what a schedule gives) and `proofs/Reading` (what a read gives).
#![tactic(auto)]

mod abort;
mod any_move;
mod apply;
mod arm;
mod close;
mod disable;
mod dump;
mod enable;
mod end;
mod load;
mod mark;
mod open;
mod read;
mod reason;
mod refused;
mod replay;
mod schedule;

pub use any_move::step;
pub use apply::not_now_apply;
pub use replay::not_now_replay;

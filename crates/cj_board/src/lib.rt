//! A board: what a thread knows under one lock of what another lock guards.
//!
//! The history is under one lock, and each backend with its position in the log under its own. No thread holds two.
//! A `Board` is a row of atomic words, with a rule that every step keeps (`IsKeptBoard` in `specs/Points`).
//! So what a thread saw under one lock, and carries on in its `Pass`, still holds under the next.
//! The contract of each call in `steps.rt` gives the whole view of each seat after it (`specs/Steps`).
//! A new step concerns `steps.rt`, `seat_steps.rt`, `rule.rt` and `specs/Steps`. Views exist for proofs alone.
//! Proofs begin in `proofs/KeptSteps`: every kind of step keeps the rule. Each file `..Point` has one point of it.
#![tactic(auto)]

mod create;
mod rule;
mod seat_steps;
mod seats;
mod steps;
mod view;

pub use seats::{Board, BookSeat, CellSeat, CellSeats, Pass};

//! Tests of `run` of `cj_program` with the words of `serve`: what no contract says of a connection. All objects are in
//! memory.
//!
//! The crate has only tests, so that each crate of functions is proved once. `handed` has what `run` is handed, and
//! calls it. `connections` has clients, and `frames` what they send and are sent, worked out by hand from
//! docs/FORMATS.md.
//! No answer depends on a schedule.
//! To change: a new case goes into `serving`, or into `refusals` if nothing is served. `proofs/NoDumps` shows of the
//! bytes that the tests hand over as dumps that they have none.
#![tactic(auto)]

#[cfg(test)]
mod connections;
#[cfg(test)]
mod frames;
#[cfg(test)]
mod handed;
#[cfg(test)]
mod refusals;
#[cfg(test)]
mod serving;

//! Tests of parts: what calls below a world give, with answers that were worked out by hand.
//!
//! The crate has only tests, so that each crate of functions is proved once. Each file tests one part by calls of
//! its own.
//! To change: a part that gets a new case gets it in its file. What a list of cases can say belongs to `cjc_cases`,
//! and what needs generated inputs to `cj_run_tests`.
//! `specs/` and `proofs/` serve the tests `board` (`proofs/BoardRows`), `sessions` (`proofs/StarvedTurns`) and
//! `own_passes` (`specs/OwnPasses`; its entry is that of `proofs/BoardRows`).
#![tactic(auto)]

#[cfg(test)]
mod accounts;
#[cfg(test)]
mod board;
#[cfg(test)]
mod dumps;
#[cfg(test)]
mod expressions;
#[cfg(test)]
mod given;
#[cfg(test)]
mod kept_answers;
#[cfg(test)]
mod own_passes;
#[cfg(test)]
mod placements;
#[cfg(test)]
mod requests;
#[cfg(test)]
mod sessions;
#[cfg(test)]
mod texts;
